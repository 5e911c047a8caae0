//! Tests of merges of nested trees at the deepest level and one level below it.
use crate::building::{ascending_tree, component, plain_file, sides_of};
use jj_backend::backend::{Backend, BackendError, BackendResult, TreeId, TreeValue};
use jj_content_tests::retry::holds;
use jj_merges::conflict_labels::ConflictLabels;
use jj_merges::merge::{Merge, SameChange};
use jj_paths::repo_path::RepoPath;
use jj_trees::memory_backend::MemoryBackend;
use jj_trees::tree_merge::{TreeMerge, merge_trees};
use std::alloc::Global;
use std::process::Abort;

// Writes a tree with this value at the name `d`.
fn write_above(
    alloc: Global,
    backend: &mut MemoryBackend,
    value: TreeValue,
) -> BackendResult<TreeId> {
    let mut entries = Vec::new(alloc);
    entries.push((component(alloc, "d")?, value))?;
    let tree = ascending_tree(alloc, entries)?;
    backend.write_tree(alloc, RepoPath::root(), &tree)
}

// Writes a file of one byte in nested directories; `levels` counts the root.
fn write_nested(
    alloc: Global,
    backend: &mut MemoryBackend,
    byte: u8,
    levels: usize,
) -> BackendResult<TreeId> {
    let file = backend.write_file(alloc, RepoPath::root(), &[byte])?;
    let mut id = write_above(alloc, backend, plain_file(alloc, file))?;
    for _level in 1..levels {
        id = write_above(alloc, backend, TreeValue::Tree(id))?;
    }
    Ok(id)
}

// Writes three trees that differ in one nested file, and returns their merge.
fn write_three_nested(
    alloc: Global,
    backend: &mut MemoryBackend,
    levels: usize,
) -> BackendResult<Merge<TreeId>> {
    let left = write_nested(alloc, backend, b'1', levels)?;
    let base = write_nested(alloc, backend, b'0', levels)?;
    let right = write_nested(alloc, backend, b'2', levels)?;
    Ok(sides_of(alloc, left, base, right)?)
}

fn merge_in(alloc: Global, backend: &mut MemoryBackend, levels: usize) -> BackendResult<TreeMerge> {
    let trees = write_three_nested(alloc, backend, levels)?;
    let labels = ConflictLabels::unlabeled(alloc);
    merge_trees(alloc, backend, &trees, &labels, SameChange::Accept)
}

// Merges three trees that differ in one nested file.
fn merge_nested(alloc: Global, levels: usize) -> BackendResult<TreeMerge> {
    let mut backend = MemoryBackend::new(alloc)?;
    merge_in(alloc, &mut backend, levels)
}

// Whether the result is a single conflict of three terms at a path of `bytes` bytes.
fn is_one_conflict(merge: &TreeMerge, bytes: usize) -> bool {
    match merge.conflicts.as_slice() {
        [(path, terms, _)] => {
            merge.resolved.is_empty()
                && terms.as_slice().len() == 3
                && path.as_path().as_internal_file_string().len() == bytes
        }
        _ => false,
    }
}

fn merges_deepest_level(alloc: Global) -> BackendResult<bool> {
    Ok(is_one_conflict(&merge_nested(alloc, 1024)?, 2047))
}

fn rejects_next_level(alloc: Global) -> BackendResult<bool> {
    match merge_nested(alloc, 1025) {
        Err(BackendError::Unsupported(_)) => Ok(true),
        Err(error) => Err(error),
        Ok(_) => Ok(false),
    }
}

#[test]
fn levels_are_limited(rt: HostRuntime) {
    assert!(rt; holds(&rt, merges_deepest_level));
    assert!(rt; holds(&rt, rejects_next_level));
}
