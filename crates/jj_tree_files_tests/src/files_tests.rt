//! Tests of the files of trees at the paths of a matcher.
use crate::callers::all_files;
use crate::fixtures::{Row, lines_of, path_of, write_tree};
use failing_reads::FailingReads;
use jj_backend::backend::{Backend, BackendError, BackendResult, TreeId, TreeValue};
use jj_content_tests::retry::holds;
use jj_matchers::matchers::{
    DifferenceMatcher, EverythingMatcher, FilesMatcher, Matcher, NothingMatcher, PrefixMatcher,
};
use jj_tree_files::files::files_matching;
use jj_trees::memory_backend::MemoryBackend;
use std::alloc::Global;
use std::process::Abort;

const ROWS: &[Row] = &[
    ("a", "1"),
    ("a.txt", "2"),
    ("b/c", "*3"),
    ("b/d/e", "@4"),
    ("b/d/f", "5"),
    ("b.d/g", "6"),
    ("z", "#7"),
];

// All files in path order: `b/d` is before `b.d`, as in the order of names.
const ALL: &str = "\
a 1
a.txt 2
b/c *3
b/d/e @4
b/d/f 5
b.d/g 6
z #7
";

fn lists_all(alloc: Global) -> BackendResult<bool> {
    let mut backend = MemoryBackend::new(alloc)?;
    let tree = write_tree(alloc, &mut backend, ROWS)?;
    let files = all_files(alloc, &backend, &tree)?;
    Ok(lines_of(alloc, &files)?.as_str() == ALL)
}

fn lists_nothing_of_empty(alloc: Global) -> BackendResult<bool> {
    let backend = MemoryBackend::new(alloc)?;
    let tree = backend.empty_tree_id();
    Ok(all_files(alloc, &backend, tree)?.is_empty())
}

// Whether the matcher accepts these files of the tree of the rows.
fn lists<M: Matcher>(alloc: Global, matcher: &M, expected: &str) -> BackendResult<bool> {
    let mut backend = MemoryBackend::new(alloc)?;
    let tree = write_tree(alloc, &mut backend, ROWS)?;
    let files = files_matching(alloc, &backend, &tree, matcher)?;
    Ok(lines_of(alloc, &files)?.as_str() == expected)
}

fn lists_prefix(alloc: Global) -> BackendResult<bool> {
    let path = path_of(alloc, "b/d")?;
    let matcher = PrefixMatcher::new(alloc, &[path.as_path()])?;
    lists(alloc, &matcher, "b/d/e @4\nb/d/f 5\n")
}

fn lists_two_files(alloc: Global) -> BackendResult<bool> {
    let first = path_of(alloc, "b/c")?;
    let second = path_of(alloc, "a")?;
    let absent = path_of(alloc, "b/c/x")?;
    let paths = [first.as_path(), second.as_path(), absent.as_path()];
    let matcher = FilesMatcher::new(alloc, &paths)?;
    lists(alloc, &matcher, "a 1\nb/c *3\n")
}

fn lists_others(alloc: Global) -> BackendResult<bool> {
    let path = path_of(alloc, "b")?;
    let matcher = PrefixMatcher::new(alloc, &[path.as_path()])?;
    let others = DifferenceMatcher::new(EverythingMatcher, matcher);
    lists(alloc, &others, "a 1\na.txt 2\nb.d/g 6\nz #7\n")
}

fn lists_nothing(alloc: Global) -> BackendResult<bool> {
    lists(alloc, &NothingMatcher, "")
}

#[test]
fn files_are_listed_in_order(rt: HostRuntime) {
    assert!(rt; holds(&rt, lists_all));
    assert!(rt; holds(&rt, lists_nothing_of_empty));
}

#[test]
fn matchers_choose_files(rt: HostRuntime) {
    assert!(rt; holds(&rt, lists_prefix));
    assert!(rt; holds(&rt, lists_two_files));
    assert!(rt; holds(&rt, lists_others));
    assert!(rt; holds(&rt, lists_nothing));
}

// Lists a tree of four directories in a store whose reads fail after `between` of them. Whether
// the result is the error of the read, or the files after four reads.
fn fails_or_lists(alloc: Global, between: u32) -> BackendResult<bool> {
    let mut backend = MemoryBackend::new(alloc)?;
    let tree = write_tree(alloc, &mut backend, ROWS)?;
    let failing = FailingReads::new(backend, between);
    match files_matching(alloc, &failing, &tree, &EverythingMatcher) {
        Ok(files) => Ok(between == 4 && lines_of(alloc, &files)?.as_str() == ALL),
        Err(BackendError::Other(source)) => {
            Ok(between < 4 && source.message.as_str() == "the read failed")
        }
        Err(error) => Err(error),
    }
}

fn each_read_fails(alloc: Global) -> BackendResult<bool> {
    for between in 0..5 {
        if !fails_or_lists(alloc, between)? {
            return Ok(false);
        }
    }
    Ok(true)
}

// The matcher of `b/c` needs the root and `b` only.
fn reads_two_directories(alloc: Global) -> BackendResult<bool> {
    let mut backend = MemoryBackend::new(alloc)?;
    let tree = write_tree(alloc, &mut backend, ROWS)?;
    let failing = FailingReads::new(backend, 2);
    let path = path_of(alloc, "b/c")?;
    let matcher = FilesMatcher::new(alloc, &[path.as_path()])?;
    let files = files_matching(alloc, &failing, &tree, &matcher)?;
    Ok(lines_of(alloc, &files)?.as_str() == "b/c *3\n")
}

fn reports_missing_tree(alloc: Global) -> BackendResult<bool> {
    let mut written = MemoryBackend::new(alloc)?;
    let tree = write_tree(alloc, &mut written, ROWS)?;
    let backend = MemoryBackend::new(alloc)?;
    match files_matching(alloc, &backend, &tree, &EverythingMatcher) {
        Err(BackendError::ObjectNotFound { object_type, .. }) => {
            Ok(object_type.as_str() == "tree")
        }
        Err(error) => Err(error),
        Ok(_) => Ok(false),
    }
}

#[test]
fn errors_are_those_of_reads(rt: HostRuntime) {
    assert!(rt; holds(&rt, each_read_fails));
    assert!(rt; holds(&rt, reads_two_directories));
    assert!(rt; holds(&rt, reports_missing_tree));
}

// Writes a tree whose only entry is `d` with this value.
fn write_above(
    alloc: Global,
    backend: &mut MemoryBackend,
    value: TreeValue,
) -> BackendResult<TreeId> {
    let mut builder = jj_tree_builder::tree_builder::TreeBuilder::new(
        alloc,
        backend.empty_tree_id().clone()?,
    );
    builder.set(path_of(alloc, "d")?, value)?;
    builder.write_tree(alloc, backend)
}

// Lists a file in nested directories; `levels` counts the root.
fn list_nested(alloc: Global, levels: usize) -> BackendResult<usize> {
    let mut backend = MemoryBackend::new(alloc)?;
    let mut tree = write_tree(alloc, &mut backend, &[("d", "1")])?;
    for _level in 1..levels {
        tree = write_above(alloc, &mut backend, TreeValue::Tree(tree))?;
    }
    let files = all_files(alloc, &backend, &tree)?;
    match files.as_slice() {
        [(path, _)] => Ok(path.as_path().as_internal_file_string().len()),
        _ => Ok(0),
    }
}

fn lists_deepest_level(alloc: Global) -> BackendResult<bool> {
    Ok(list_nested(alloc, 1024)? == 2047)
}

fn rejects_next_level(alloc: Global) -> BackendResult<bool> {
    match list_nested(alloc, 1025) {
        Err(BackendError::Unsupported(_)) => Ok(true),
        Err(error) => Err(error),
        Ok(_) => Ok(false),
    }
}

#[test]
fn levels_are_limited(rt: HostRuntime) {
    assert!(rt; holds(&rt, lists_deepest_level));
    assert!(rt; holds(&rt, rejects_next_level));
}
