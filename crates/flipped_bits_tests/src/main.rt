//! Flips bits of the files of a small store, opens each copy, and counts the outcomes: the eight
//! bits of each byte whose offset leaves the remainder FIRST when it is divided by STEP.
#![tactic(auto)]

mod outcomes;
mod store;

use crate::outcomes::{Offsets, Outcomes, count_flips};
use crate::store::{Fault, SavedFiles, closed_files, killed_files};
use std::alloc::Global;
use std::{env, io};

// Counts the flips in the database file and in the write-ahead log.
fn count_both(alloc: Global, files: &SavedFiles, offsets: Offsets) -> Result<[Outcomes; 2], Fault> {
    let database = count_flips(alloc, files, false, offsets)?;
    let log = count_flips(alloc, files, true, offsets)?;
    Ok([database, log])
}

fn print_counts(rt: &HostRuntime, name: &str, outcomes: &Outcomes) -> io::Result<()> {
    println!(rt; "{name}: {} bits", outcomes.total)?;
    for outcome in &outcomes.counts {
        println!(rt; "{} {}", outcome.times, outcome.label)?;
    }
    Ok(())
}

fn print_all(rt: &HostRuntime, offsets: Offsets) -> Result<(), Fault> {
    let closed = count_both(rt.alloc(), &closed_files(rt.alloc())?, offsets)?;
    let killed = count_both(rt.alloc(), &killed_files(rt.alloc())?, offsets)?;
    print_counts(rt, "closed, database file", &closed[0])?;
    print_counts(rt, "closed, write-ahead log", &closed[1])?;
    print_counts(rt, "killed, database file", &killed[0])?;
    print_counts(rt, "killed, write-ahead log", &killed[1])?;
    Ok(())
}

fn main(rt: HostRuntime) -> io::Result<()> {
    let mut words = env::args(&rt)?.skip(1);
    let (Some(step), Some(first)) = (words.next(), words.next()) else {
        return println!(rt; "usage: flipped_bits_tests STEP FIRST");
    };
    let offsets = Offsets {
        step: step.as_str().parse().unwrap_or(1),
        first: first.as_str().parse().unwrap_or(0),
    };
    match print_all(&rt, offsets) {
        Ok(()) => Ok(()),
        Err(fault) => println!(rt; "wrong: {fault}"),
    }
}
