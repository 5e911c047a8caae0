//! The outcomes of opening the files of a store with one bit flipped, and their counts.
use crate::store::{CONTENTS, Fault, SavedFiles, open, stored_count};
use std::alloc::Global;

// How often opening had an outcome.
#[derive(Drop)]
pub(crate) struct Outcome {
    pub(crate) label: String,
    pub(crate) times: u64,
}

// The outcomes, in the order of their first occurrence.
#[derive(Drop)]
pub(crate) struct Outcomes {
    pub(crate) counts: Vec<Outcome>,
    pub(crate) total: u64,
}

impl Outcomes {
    fn add(&mut self, label: String) -> Result<(), Fault> {
        self.total = self.total.saturating_add(1);
        for outcome in self.counts.iter_mut() {
            if outcome.label.as_str() == label.as_str() {
                outcome.times = outcome.times.saturating_add(1);
                return Ok(());
            }
        }
        self.counts.push(Outcome { label, times: 1 })?;
        Ok(())
    }
}

// Opens the files, and describes the outcome.
fn describe_opening(alloc: Global, log: &[u8], database: &[u8]) -> Result<String, Fault> {
    match open(alloc, log, database) {
        Ok(store) => match stored_count(alloc, &store)? {
            Some(count) => Ok(format!(in alloc; "{count} of {} objects", CONTENTS.len())?),
            None => Ok(String::from_str(alloc, "wrong: objects that are not the first")?),
        },
        Err(error) => Ok(format!(in alloc; "{error}")?),
    }
}

fn flip(bytes: &mut [u8], index: usize, mask: u8) {
    if let Some(byte) = bytes.get_mut(index) {
        *byte ^= mask;
    }
}

// Flips these bits of a byte, opens the files, and describes the outcome.
fn flipped(
    alloc: Global,
    files: &SavedFiles,
    is_in_log: bool,
    index: usize,
    mask: u8,
) -> Result<String, Fault> {
    let mut log = files.log.clone()?;
    let mut database = files.database.clone()?;
    if is_in_log {
        flip(&mut log, index, mask);
    } else {
        flip(&mut database, index, mask);
    }
    describe_opening(alloc, &log, &database)
}

const MASKS: [u8; 8] = [1, 2, 4, 8, 16, 32, 64, 128];

// The offsets that leave the remainder `first` when they are divided by `step`.
#[derive(Copy, Clone, Drop)]
pub(crate) struct Offsets {
    pub(crate) step: usize,
    pub(crate) first: usize,
}

// Flips the bits of each byte of a file at these offsets.
pub(crate) fn count_flips(
    alloc: Global,
    files: &SavedFiles,
    is_in_log: bool,
    offsets: Offsets,
) -> Result<Outcomes, Fault> {
    let length = if is_in_log {
        files.log.len()
    } else {
        files.database.len()
    };
    let mut outcomes = Outcomes {
        counts: Vec::new(alloc),
        total: 0,
    };
    for index in 0..length {
        if offsets.step > 0 && index % offsets.step == offsets.first {
            for mask in MASKS.iter() {
                outcomes.add(flipped(alloc, files, is_in_log, index, *mask)?)?;
            }
        }
    }
    Ok(outcomes)
}
