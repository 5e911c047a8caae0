//! Tests of the paths at which two trees differ. Git's `diff --name-status --no-renames` lists the
//! same paths for these trees, in the order of bytes.
use crate::fixtures::{Row, path_of, push_value, write_tree};
use failing_reads::FailingReads;
use jj_backend::backend::{BackendError, BackendResult, TreeId, TreeValue};
use jj_content_tests::retry::holds;
use jj_matchers::matchers::{EverythingMatcher, Matcher, PrefixMatcher};
use jj_tree_files::changes::{Change, changed_files};
use jj_trees::memory_backend::MemoryBackend;
use std::alloc::{AllocError, Global};
use std::process::Abort;

const BEFORE: &[Row] = &[
    ("a", "1"),
    ("b/c", "2"),
    ("b/d/e", "3"),
    ("f", "4"),
    ("g/h", "5"),
    ("same/x", "6"),
    ("z", "7"),
];

const AFTER: &[Row] = &[
    ("a", "*1"),
    ("b.c", "8"),
    ("b/c", "2"),
    ("b/d/e", "9"),
    ("f/i", "4"),
    ("g", "5"),
    ("same/x", "6"),
];

const CHANGES: &str = "\
a 1 *1
b/d/e 3 9
b.c - 8
f 4 -
f/i - 4
g - 5
g/h 5 -
z 7 -
";

const REVERSED: &str = "\
a *1 1
b/d/e 9 3
b.c 8 -
f - 4
f/i 4 -
g 5 -
g/h - 5
z - 7
";

fn push_side(output: &mut String, side: &Option<TreeValue>) -> Result<(), AllocError> {
    output.push(' ')?;
    match side {
        Some(value) => push_value(output, value),
        None => output.push_str("-"),
    }
}

// Returns a line of the path and both values for each change.
fn lines_of(alloc: Global, changes: &[Change]) -> Result<String, AllocError> {
    let mut output = String::new(alloc);
    for change in changes {
        output.push_str(change.path.as_path().as_internal_file_string())?;
        push_side(&mut output, &change.before)?;
        push_side(&mut output, &change.after)?;
        output.push('\n')?;
    }
    Ok(output)
}

fn write_both(alloc: Global, backend: &mut MemoryBackend) -> BackendResult<(TreeId, TreeId)> {
    let before = write_tree(alloc, backend, BEFORE)?;
    let after = write_tree(alloc, backend, AFTER)?;
    Ok((before, after))
}

fn lists_changes(alloc: Global) -> BackendResult<bool> {
    let mut backend = MemoryBackend::new(alloc)?;
    let (before, after) = write_both(alloc, &mut backend)?;
    let changes = changed_files(alloc, &backend, &before, &after, &EverythingMatcher)?;
    Ok(lines_of(alloc, &changes)?.as_str() == CHANGES)
}

fn lists_reversed_changes(alloc: Global) -> BackendResult<bool> {
    let mut backend = MemoryBackend::new(alloc)?;
    let (before, after) = write_both(alloc, &mut backend)?;
    let changes = changed_files(alloc, &backend, &after, &before, &EverythingMatcher)?;
    Ok(lines_of(alloc, &changes)?.as_str() == REVERSED)
}

// The changes at and below `f` only.
fn lists_below_prefix(alloc: Global) -> BackendResult<bool> {
    let mut backend = MemoryBackend::new(alloc)?;
    let (before, after) = write_both(alloc, &mut backend)?;
    let path = path_of(alloc, "f")?;
    let matcher = PrefixMatcher::new(alloc, &[path.as_path()])?;
    let changes = changed_files(alloc, &backend, &before, &after, &matcher)?;
    Ok(lines_of(alloc, &changes)?.as_str() == "f 4 -\nf/i - 4\n")
}

// Equal trees are not read, so that a store without the tree does not fail.
fn skips_equal_trees(alloc: Global) -> BackendResult<bool> {
    let mut written = MemoryBackend::new(alloc)?;
    let tree = write_tree(alloc, &mut written, BEFORE)?;
    let backend = MemoryBackend::new(alloc)?;
    let changes = changed_files(alloc, &backend, &tree, &tree, &EverythingMatcher)?;
    Ok(changes.is_empty())
}

#[test]
fn changes_are_listed_in_order(rt: HostRuntime) {
    assert!(rt; holds(&rt, lists_changes));
    assert!(rt; holds(&rt, lists_reversed_changes));
    assert!(rt; holds(&rt, lists_below_prefix));
    assert!(rt; holds(&rt, skips_equal_trees));
}

// The trees that differ: two roots, two each of `b` and `b/d`, `f` and `g`. `same` is not read.
const READS: u32 = 8;

fn fails_or_lists(alloc: Global, between: u32) -> BackendResult<bool> {
    let mut backend = MemoryBackend::new(alloc)?;
    let (before, after) = write_both(alloc, &mut backend)?;
    let failing = FailingReads::new(backend, between);
    match changed_files(alloc, &failing, &before, &after, &EverythingMatcher) {
        Ok(changes) => Ok(between == READS && lines_of(alloc, &changes)?.as_str() == CHANGES),
        Err(BackendError::Other(source)) => {
            Ok(between < READS && source.message.as_str() == "the read failed")
        }
        Err(error) => Err(error),
    }
}

fn each_read_fails(alloc: Global) -> BackendResult<bool> {
    for between in 0..9 {
        if !fails_or_lists(alloc, between)? {
            return Ok(false);
        }
    }
    Ok(true)
}

#[test]
fn errors_are_those_of_reads(rt: HostRuntime) {
    assert!(rt; holds(&rt, each_read_fails));
}
