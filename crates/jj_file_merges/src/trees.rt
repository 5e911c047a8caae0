//! Merges of trees whose conflicts are merged file by file.
ghost use Rattle.std.specs.Prelude.{◌≡◌, ◌⊎◌, ◌∷◌, [], List, Option, Some, map, length};
ghost use Rattle.std.specs.Prelude.{IfErr, IfOk};
ghost use Rattle.std.specs.List.{AllZip};
ghost use Rattle.jj_paths.specs.Names.{path_of};
ghost use Rattle.jj_backend.specs.declared.backend.tree_value.TreeValue.{TreeValue};
ghost use Rattle.jj_trees.specs.TreeMerges.{IsMergeError, IsTreeMerge, root_values};
ghost use Rattle.jj_trees.specs.WrittenTrees.{IsTreeOf, IsWriteBackError, values_to_write};
ghost use Rattle.jj_file_merges.specs.MergedTrees.{AddsFiles, AddsFilesAndTrees, IsConflictError};
ghost use Rattle.jj_file_merges.specs.MergedTrees.{IsConflictOutcome, IsConflictsError};
ghost use Rattle.jj_file_merges.specs.MergedTrees.{IsMarkError, IsOutcome, outcome_value};

use crate::marking::{has_executable_side, materialize_file_conflict};
use crate::resolving::try_resolve_file_conflict;
use jj_backend::backend::{Backend, BackendResult, CopyId, TreeId, TreeValue};
use jj_conflicts::conflicts::ConflictMarkerStyle;
use jj_content_merges::files::MergeOptions;
use jj_merges::conflict_labels::ConflictLabels;
use jj_merges::merge::Merge;
use jj_paths::repo_path::{RepoPath, RepoPathBuf};
use jj_trees::tree_merge::{TreeMerge, merge_trees, write_back};
use std::alloc::{AllocError, Global};

/// The outcome of a conflict of a merge of trees.
#[derive(Drop)]
pub enum Outcome {
    /// The file that the values resolve to.
    Merged(TreeValue),
    /// The file with the conflicts between markers.
    Marked(TreeValue),
    /// Nothing is written at the path.
    Unresolved,
}

/// A merge of trees and of the files in conflict.
#[derive(Drop)]
pub struct FileMerge {
    /// The tree that was written.
    pub tree: TreeId,
    /// The resolved paths and the conflicts, in path order.
    pub merge: TreeMerge,
    /// The outcomes of the conflicts, in their order.
    pub outcomes: Vec<Outcome>,
}

// Writes the file with the conflicts between markers, if all values are files or absent.
fn mark_conflict<B: Backend>(
    alloc: Global,
    backend: &mut B,
    path: RepoPath<'_>,
    values: &Merge<Option<TreeValue>>,
    labels: &ConflictLabels,
    options: &MergeOptions,
    style: ConflictMarkerStyle,
) -> BackendResult<Outcome>
    ensures outcome { IfOk result (IsConflictOutcome (B.objects backend.new).files
        options.now.hunk_level options.now.same_change (Some style) values.now labels.now) }
    ensures objects { AddsFiles (B.objects backend.old) (B.objects backend.new) }
    ensures fixed { B.fixed backend.new ≡ B.fixed backend.old }
    ensures error { IfErr result (IsMarkError B.objects B.may_fail B.may_fail_to_write
        options.now.hunk_level options.now.same_change style backend.old
        (path_of path.entry, values.now, labels.now)) }
{
    let content = materialize_file_conflict(alloc, backend, path, values, labels, options, style)?;
    let Some(content) = content else {
        return Ok(Outcome::Unresolved);
    };
    let id = backend.write_file(alloc, path, &content)?;
    Ok(Outcome::Marked(TreeValue::File {
        id,
        executable: has_executable_side(values),
        copy_id: CopyId::placeholder(alloc),
    }))
}

// Merges the files of a conflict.
fn merge_conflict<B: Backend>(
    alloc: Global,
    backend: &mut B,
    path: RepoPath<'_>,
    values: &Merge<Option<TreeValue>>,
    labels: &ConflictLabels,
    options: &MergeOptions,
    style: Option<ConflictMarkerStyle>,
) -> BackendResult<Outcome>
    ensures outcome { IfOk result (IsOutcome (B.objects backend.new).files
        options.now.hunk_level options.now.same_change style
        (path_of path.entry, values.now, labels.now)) }
    ensures objects { AddsFiles (B.objects backend.old) (B.objects backend.new) }
    ensures fixed { B.fixed backend.new ≡ B.fixed backend.old }
    ensures error { IfErr result (IsConflictError B.objects B.may_fail B.may_fail_to_write
        options.now.hunk_level options.now.same_change style backend.old
        (path_of path.entry, values.now, labels.now)) }
{
    if let Some(file) = try_resolve_file_conflict(alloc, backend, path, values, options)? {
        return Ok(Outcome::Merged(file));
    }
    match style {
        Some(style) => mark_conflict(alloc, backend, path, values, labels, options, style),
        None => Ok(Outcome::Unresolved),
    }
}

/// Merges the files of each conflict, and returns the outcomes in order. With a style, a conflict
/// whose values are files or absent but do not resolve is written as a file with markers.
///
/// Fails with the first error of a read or a write. Files that were written before an error stay
/// in the backend.
pub fn merge_conflicts<B: Backend>(
    alloc: Global,
    backend: &mut B,
    conflicts: &[(RepoPathBuf, Merge<Option<TreeValue>>, ConflictLabels)],
    options: &MergeOptions,
    style: Option<ConflictMarkerStyle>,
) -> BackendResult<Vec<Outcome>>
    // Each conflict has its outcome, with the contents that the backend has afterwards.
    ensures outcomes { IfOk result (λ outcomes. AllZip (IsOutcome (B.objects backend.new).files
        options.now.hunk_level options.now.same_change style) conflicts.now outcomes.items) }
    // Only files are written, and objects stay as they were.
    ensures objects { AddsFiles (B.objects backend.old) (B.objects backend.new) }
    ensures fixed { B.fixed backend.new ≡ B.fixed backend.old }
    // An error is out of memory, or that of one of the conflicts.
    ensures error { IfErr result (IsConflictsError B.objects B.may_fail B.may_fail_to_write
        options.now.hunk_level options.now.same_change style backend.old conflicts.now) }
{
    let mut outcomes = Vec::with_capacity(alloc, conflicts.len())?;
    for (path, values, labels) in conflicts {
        let path = path.as_path();
        let outcome = merge_conflict(alloc, backend, path, values, labels, options, style)?;
        outcomes.push(outcome)?;
    }
    Ok(outcomes)
}

// Returns the value that is written at the path of a conflict.
fn outcome_value(outcome: &Outcome) -> Result<Option<TreeValue>, AllocError>
    ensures { IfOk result (λ value. value ≡ outcome_value outcome.now) }
{
    match outcome {
        Outcome::Merged(value) | Outcome::Marked(value) => Ok(Some(value.clone()?)),
        Outcome::Unresolved => Ok(None),
    }
}

fn outcome_values(alloc: Global, outcomes: &[Outcome]) -> Result<Vec<Option<TreeValue>>, AllocError>
    ensures { IfOk result (λ values. values.items ≡ map outcome_value outcomes.now) }
{
    let mut values = Vec::with_capacity(alloc, outcomes.len())?;
    for outcome in outcomes {
        values.push(outcome_value(outcome)?)?;
    }
    Ok(values)
}

/// Merges trees, and the files of their conflicts, and writes the tree of the result. A path has
/// the value that the terms resolve to; else the file with the merged content, if all values are
/// files whose contents merge; else, with a style, the file with markers, if all values are files
/// or absent; else nothing. There are no labels, or one for each tree.
///
/// Fails as `merge_trees`, `merge_conflicts` and `write_back` do. Objects that were written before
/// an error stay in the backend.
pub fn merge_files<B: Backend>(
    alloc: Global,
    backend: &mut B,
    trees: &Merge<TreeId>,
    labels: &ConflictLabels,
    options: &MergeOptions,
    style: Option<ConflictMarkerStyle>,
) -> BackendResult<FileMerge>
    requires { (labels.now ≡ []) ⊎ (length labels.now ≡ length trees.now) }
    // The merge has exactly the resolved paths and the conflicts of the trees, in path order.
    ensures merge { IfOk result (λ m. IsTreeMerge (B.objects backend.old).trees
        ⟦<Option<TreeValue> as PartialEq>⟧.eq options.now.same_change (root_values trees.now)
        labels.now m.merge.resolved.items m.merge.conflicts.items) }
    // Each conflict has its outcome: the file with the merged content; else the file with markers,
    // with a style and values that are files or absent; else nothing.
    ensures outcomes { IfOk result (λ m. AllZip (IsOutcome (B.objects backend.new).files
        options.now.hunk_level options.now.same_change style)
        m.merge.conflicts.items m.outcomes.items) }
    // The tree has the value of each resolved path and of each outcome, and nothing else.
    ensures tree { IfOk result (λ m. IsTreeOf (B.objects backend.new).trees
        (values_to_write m.merge.resolved.items m.merge.conflicts.items
        (map outcome_value m.outcomes.items)) m.tree) }
    // Only files and trees are written, and objects stay as they were.
    ensures objects { AddsFilesAndTrees (B.objects backend.old) (B.objects backend.new) }
{
    let merge = merge_trees(alloc, backend, trees, labels, options.same_change)?;
    let outcomes = merge_conflicts(alloc, backend, &merge.conflicts, options, style)?;
    let chosen = outcome_values(alloc, &outcomes)?;
    let tree = write_back(alloc, backend, &merge, &chosen)?;
    Ok(FileMerge {
        tree,
        merge,
        outcomes,
    })
}
