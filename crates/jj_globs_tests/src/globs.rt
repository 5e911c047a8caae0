//! Globs of so many states that a match needs each size of state sets, and globs at the greatest
//! number of states. All other cases are rows of the crate `conformance`.
use jj_content_tests::retry::{Passed, passes};
use jj_globs::glob::{Glob, GlobError};
use std::alloc::{AllocError, Global};
use std::process::Abort;
use std::test::Fail;

// Returns a glob of numbered names in any directory.
fn numbered_names(alloc: Global, count: u32) -> Result<String, AllocError> {
    let mut text = String::from_str(alloc, "**/{")?;
    for number in 0..count {
        write!(text, "n{number}.rs,")?;
    }
    text.push_str("other}")?;
    Ok(text)
}

fn parse<R: Abort>(rt: &R, alloc: Global, text: &str) -> Result<Glob, AllocError> {
    match Glob::parse(alloc, text, true, false) {
        Ok(glob) => Ok(glob),
        Err(GlobError::Memory) => Err(AllocError),
        Err(_) => panic!(rt; "the names are a glob"),
    }
}

static MATCHED: [&str; 3] = ["n0.rs", "n/other", "n1.rs/n19.rs"];

static NOT_MATCHED: [&str; 3] = ["n.rs", "n0.rs/n", "n19.r"];

fn check_each<R: Abort>(rt: &R, glob: &Glob, texts: &[&str], matches: bool) {
    for text in texts {
        assert!(rt; glob.is_match(text.as_bytes()) == matches, "{text}");
    }
}

// Checks whether the glob matches the name of a number.
fn check_number<R: Abort>(
    rt: &R,
    alloc: Global,
    glob: &Glob,
    number: u32,
    matches: bool,
) -> Passed {
    let name = format!(in alloc; "x/n/n{number}.rs")?;
    assert!(rt; glob.is_match(name.as_bytes()) == matches, "{number}");
    Ok(())
}

fn check_names<R: Abort>(rt: &R, alloc: Global, count: u32) -> Passed {
    let glob = parse(rt, alloc, numbered_names(alloc, count)?.as_str())?;
    check_each(rt, &glob, &MATCHED, true);
    check_each(rt, &glob, &NOT_MATCHED, false);
    check_number(rt, alloc, &glob, count.saturating_sub(1), true)?;
    check_number(rt, alloc, &glob, count, false)
}

fn check_counts<R: Abort>(rt: &R, alloc: Global) -> Passed {
    for count in [2_000u32, 9_000, 20_000] {
        check_names(rt, alloc, count)?;
    }
    Ok(())
}

#[test]
fn groups_of_many_words(rt: HostRuntime) -> Result<(), Fail> {
    passes(&rt, check_counts)
}

// Returns a group of so many wildcards, which has three states for each but the first, and one for
// that.
fn wildcards(alloc: Global, count: u32) -> Result<String, AllocError> {
    let mut text = String::from_str(alloc, "{?")?;
    for _ in 1..count {
        text.push_str(",?")?;
    }
    text.push_str("}")?;
    Ok(text)
}

// Checks that 1,048,573 states are a glob, and 1,048,576 are not.
fn check_greatest<R: Abort>(rt: &R, alloc: Global) -> Passed {
    let glob = parse(rt, alloc, wildcards(alloc, 349_525)?.as_str())?;
    check_each(rt, &glob, &["a"], true);
    check_each(rt, &glob, &["", "/", "ab"], false);
    let larger = wildcards(alloc, 349_526)?;
    let refused = matches!(
        Glob::parse(alloc, larger.as_str(), true, false),
        Err(GlobError::Memory)
    );
    assert!(rt; refused, "a glob of 1,048,576 states");
    Ok(())
}

#[test]
fn greatest_number_of_states(rt: HostRuntime) -> Result<(), Fail> {
    passes(&rt, check_greatest)
}
