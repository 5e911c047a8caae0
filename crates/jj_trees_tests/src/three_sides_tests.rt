//! Test of the three-way merge of `three_sides`: its description, also after it is written back.
use crate::building::sides_of;
use crate::three_sides::{describe, merge_labelled, write_back, write_files};
use jj_backend::backend::{BackendResult, TreeId};
use jj_content_tests::retry::holds;
use jj_merges::conflict_labels::ConflictLabels;
use jj_merges::merge::Merge;
use jj_trees::memory_backend::MemoryBackend;
use std::alloc::{AllocError, Global};
use std::process::Abort;

// The left side changes the first two files.
const LEFT: &[(&str, &str)] = &[("README", "two\n"), ("main", "b\n"), ("old", "x\n")];

const BASE: &[(&str, &str)] = &[("README", "one\n"), ("main", "a\n"), ("old", "x\n")];

// The right side changes the second, and removes the third.
const RIGHT: &[(&str, &str)] = &[("README", "one\n"), ("main", "c\n")];

// The expected description. The ids are prefixes of digests computed by another program.
const DESCRIPTION: &str = "\
README
main: Conflict:
  Removing file with id 8145f73c (base)
  Adding file with id f82eeca4 (left)
  Adding file with id 5d73c854 (right)
";

fn write_sides(alloc: Global, backend: &mut MemoryBackend) -> BackendResult<Merge<TreeId>> {
    let left = write_files(alloc, backend, LEFT)?;
    let base = write_files(alloc, backend, BASE)?;
    let right = write_files(alloc, backend, RIGHT)?;
    Ok(sides_of(alloc, left, base, right)?)
}

// Merges and writes the result back, or returns `None` for an unexpected description.
fn merge_and_write_back(
    alloc: Global,
    backend: &mut MemoryBackend,
    sides: &Merge<TreeId>,
    labels: &ConflictLabels,
) -> BackendResult<Option<Merge<TreeId>>> {
    let merge = merge_labelled(alloc, backend, sides, labels)?;
    if describe(alloc, &merge)?.as_str() != DESCRIPTION {
        return Ok(None);
    }
    Ok(Some(write_back(alloc, backend, &merge)?))
}

// Whether the description is as expected, also of the merge that is written back.
fn describes_twice(
    alloc: Global,
    backend: &mut MemoryBackend,
    labels: &ConflictLabels,
) -> BackendResult<bool> {
    let sides = write_sides(alloc, backend)?;
    match merge_and_write_back(alloc, backend, &sides, labels)? {
        Some(kept) => Ok(merge_and_write_back(alloc, backend, &kept, labels)?.is_some()),
        None => Ok(false),
    }
}

fn side_labels(alloc: Global) -> Result<ConflictLabels, AllocError> {
    let left = String::from_str(alloc, "left")?;
    let base = String::from_str(alloc, "base")?;
    let right = String::from_str(alloc, "right")?;
    Ok(ConflictLabels::from_merge(sides_of(alloc, left, base, right)?))
}

fn example_describes_twice(alloc: Global) -> BackendResult<bool> {
    let labels = side_labels(alloc)?;
    let mut backend = MemoryBackend::with_id_length(alloc, 4)?;
    describes_twice(alloc, &mut backend, &labels)
}

#[test]
fn three_sides(rt: HostRuntime) {
    assert!(rt; holds(&rt, example_describes_twice));
}
