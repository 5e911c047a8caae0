//! A three-way merge of a directory of files: its description, and its conflicts written back as
//! trees.
ghost use Rattle.std.specs.Prelude.{◌≡◌, ◌↔◌, ℕ, List, Option, AllPairs, Contains, IfOk, map};
ghost use Rattle.jj_merges.specs.declared.merge.SameChange.TheVariants.{Accept};
ghost use Rattle.jj_backend.specs.declared.backend.tree_value.TreeValue.{TreeValue};
ghost use Rattle.jj_paths.specs.Paths.{Path};
ghost use Rattle.jj_trees.specs.MemoryObjects.{objects_of};
ghost use Rattle.jj_trees.specs.TreeMerges.{IsConflict, IsResolved, root_values};
ghost use Rattle.jj_trees_tests.specs.Outcomes.{side_term};

use crate::building::{ascending_tree, bad_data, component, plain_file, sides_of};
use crate::callers::merge_in_memory;
use jj_backend::backend::{
    Backend, BackendResult, MergedTreeValue, MergedTreeValueExt, TreeId, TreeValue,
};
use jj_merges::conflict_labels::ConflictLabels;
use jj_merges::merge::{Merge, SameChange};
use jj_paths::repo_path::{RepoPath, RepoPathBuf, RepoPathComponentBuf};
use jj_trees::memory_backend::MemoryBackend;
use jj_trees::tree_merge::{self, TreeMerge};
use std::alloc::{AllocError, Global};
use std::cmp::Ordering;

/// Writes a file and returns its entry.
pub fn write_entry(
    alloc: Global,
    backend: &mut MemoryBackend,
    name: &str,
    contents: &str,
) -> BackendResult<(RepoPathComponentBuf, TreeValue)> {
    let name = component(alloc, name)?;
    let id = backend.write_file(alloc, RepoPath::root(), contents.as_bytes())?;
    Ok((name, plain_file(alloc, id)))
}

/// Writes a directory of files, whose names must ascend strictly.
pub fn write_files(
    alloc: Global,
    backend: &mut MemoryBackend,
    files: &[(&str, &str)],
) -> BackendResult<TreeId> {
    let mut entries = Vec::new(alloc);
    for (name, contents) in files {
        entries.push(write_entry(alloc, backend, *name, *contents)?)?;
    }
    let tree = ascending_tree(alloc, entries)?;
    backend.write_tree(alloc, RepoPath::root(), &tree)
}

/// Merges sides; fails unless each side has a label.
pub fn merge_labelled(
    alloc: Global,
    backend: &MemoryBackend,
    sides: &Merge<TreeId>,
    labels: &ConflictLabels,
) -> BackendResult<TreeMerge>
    ensures resolved { IfOk result (λ m. (path : Path) (value : TreeValue) →
        Contains m.resolved.items (path, value)
        ↔ IsResolved (objects_of backend.now).trees ⟦<Option<TreeValue> as PartialEq>⟧.eq Accept
        (root_values sides.now) path value) }
    ensures conflicts { IfOk result (λ m.
        (path : Path) (terms : List (Option TreeValue)) (term_labels : List (List ℕ)) →
        Contains m.conflicts.items (path, terms, term_labels)
        ↔ IsConflict (objects_of backend.now).trees ⟦<Option<TreeValue> as PartialEq>⟧.eq Accept
        (root_values sides.now) labels.now path terms term_labels) }
    ensures ascending { IfOk result (λ m.
        AllPairs (λ a b. ⟦<RepoPathBuf as Ord>⟧.cmp a.0 b.0 ≡ Ordering.Less) m.resolved.items
        × AllPairs (λ a b. ⟦<RepoPathBuf as Ord>⟧.cmp a.0 b.0 ≡ Ordering.Less) m.conflicts.items) }
{
    if labels.as_slice().len() != sides.as_slice().len() {
        return Err(bad_data(alloc, "a side has no label"));
    }
    merge_in_memory(alloc, backend, sides, labels, SameChange::Accept)
}

fn push_resolved(
    resolved: &[(RepoPathBuf, TreeValue)],
    text: &mut String,
) -> Result<(), AllocError> {
    for (path, _) in resolved {
        text.push_str(path.as_path().as_internal_file_string())?;
        text.push('\n')?;
    }
    Ok(())
}

fn push_conflict(
    alloc: Global,
    path: &RepoPathBuf,
    terms: &MergedTreeValue,
    labels: &ConflictLabels,
    text: &mut String,
) -> Result<(), AllocError> {
    text.push_str(path.as_path().as_internal_file_string())?;
    text.push_str(": ")?;
    text.push_str(terms.describe(alloc, labels)?.as_str())
}

/// Returns the resolved paths, one a line, and the descriptions of the conflicts.
pub fn describe(alloc: Global, merge: &TreeMerge) -> Result<String, AllocError> {
    let mut text = String::new(alloc);
    push_resolved(&merge.resolved, &mut text)?;
    for (path, terms, labels) in merge.conflicts.iter() {
        push_conflict(alloc, path, terms, labels, &mut text)?;
    }
    Ok(text)
}

/// Returns the term of one side at each conflict, `None` if there is no such side.
pub fn side_values(
    alloc: Global,
    merge: &TreeMerge,
    side: usize,
) -> Result<Vec<Option<TreeValue>>, AllocError>
    ensures { IfOk result (λ values.
        values.items ≡ map (λ c. side_term side c.1) merge.now.conflicts.items) }
{
    let mut values = Vec::with_capacity(alloc, merge.conflicts.len())?;
    for (_, terms, _) in &merge.conflicts {
        let value = match terms.as_slice().get(side) {
            Some(term) => term.clone()?,
            None => None,
        };
        values.push(value)?;
    }
    Ok(values)
}

/// Writes the tree of one side of a merge: the resolved values and its terms of conflicts.
pub fn write_side(
    alloc: Global,
    backend: &mut MemoryBackend,
    merge: &TreeMerge,
    side: usize,
) -> BackendResult<TreeId> {
    let chosen = side_values(alloc, merge, side)?;
    tree_merge::write_back(alloc, backend, merge, &chosen)
}

/// Writes the sides of a merge of three terms as three directories, which merge to the same result.
pub fn write_back(
    alloc: Global,
    backend: &mut MemoryBackend,
    merge: &TreeMerge,
) -> BackendResult<Merge<TreeId>> {
    let left = write_side(alloc, backend, merge, 0)?;
    let base = write_side(alloc, backend, merge, 1)?;
    let right = write_side(alloc, backend, merge, 2)?;
    Ok(sides_of(alloc, left, base, right)?)
}
