//! Recursive merge of trees: trivial resolution of the values at each path, and recursion into
//! directories that do not resolve.
ghost use Rattle.std.specs.Prelude.{◌≡◌, ◌↔◌, ◌⊎◌, ℕ, List, [], map, length, Option};
ghost use Rattle.std.specs.Prelude.{All, AllPairs, Any, Contains, IfOk, IfErr, IfSome, IsNone, OnOk};
ghost use Rattle.std.specs.NonZero.{non_zero_usize_get};
ghost use Rattle.std.specs.Global.{Global as GlobalValue};
ghost use Rattle.std.specs.declared.string.String.{String as StringValue};
ghost use Rattle.jj_merges.specs.Merge.{IsOdd};
ghost use Rattle.jj_paths.specs.Names.{path_of};
ghost use Rattle.jj_paths.specs.Paths.{Path};
ghost use Rattle.jj_backend.specs.declared.backend.tree_value.TreeValue.{TreeValue};
ghost use Rattle.jj_trees.specs.Steps.{IsStep};
ghost use Rattle.jj_trees.specs.TreeMerges.{AreRead, IsConflict, IsMergeError, IsResolved, root_values};
ghost use Rattle.jj_trees.specs.DirectoryMerges.{AppendsOutcome, FailsAt, IsAppended};
ghost use Rattle.jj_trees.specs.DirectoryMerges.{IsDirectoryError, IsReadAt, IsWithin, MustRecurse};
ghost use Rattle.jj_trees.specs.DirectoryMerges.{conflict_entries, entries_of};

mod rows;
mod writing;

use jj_backend::backend::{
    Backend, BackendError, BackendResult, Tree, TreeId, TreeValue, are_trees_or_absent,
};
use jj_merges::conflict_labels::ConflictLabels;
use jj_merges::merge::{Merge, SameChange, trivial_merge};
use jj_paths::repo_path::{RepoPath, RepoPathBuf};
use rows::merge_rows;
use smallvec::SmallVec;
use std::alloc::{AllocError, Global};
use std::cmp::Ordering;
use std::num::NonZeroUsize;
pub use writing::write_back;

// The number of levels of directories that `merge_trees` merges and `write_back` writes.
const MAX_LEVELS: usize = 1024;

// The outcome of the values at one path.
enum Step<'a> {
    Resolved(&'a TreeValue),
    Absent,
    Recurse,
    Conflict,
}

// A directory whose entries must be merged, with the value of each term at its path.
#[derive(Drop)]
struct Directory {
    path: RepoPathBuf,
    values: Vec<Option<TreeValue>>,
}

/// The result of a merge of trees: the paths that resolve to a present value, and the conflicts,
/// simplified, each with the labels of its terms. Both lists are in ascending order of paths.
#[derive(Drop)]
pub struct TreeMerge {
    pub resolved: Vec<(RepoPathBuf, TreeValue)>,
    pub conflicts: Vec<(RepoPathBuf, Merge<Option<TreeValue>>, ConflictLabels)>,
}

fn classify(values: &[Option<TreeValue>], same_change: SameChange) -> Step<'_>
    requires { IsOdd (length values.now) }
    ensures { IsStep ⟦<Option<TreeValue> as PartialEq>⟧.eq same_change values.now result }
{
    match trivial_merge(values, same_change) {
        Some(Some(value)) => Step::Resolved(value),
        Some(None) => Step::Absent,
        None => {
            if are_trees_or_absent(values) {
                Step::Recurse
            } else {
                Step::Conflict
            }
        }
    }
}

// Returns an empty tree for a value that is not a tree.
fn read_value<B: Backend>(
    alloc: Global,
    backend: &B,
    dir: RepoPath<'_>,
    value: &Option<TreeValue>,
) -> BackendResult<Tree>
    ensures entries { IfOk result (λ tree.
        tree ≡ entries_of (B.objects backend.now).trees value.now) }
    ensures read { OnOk result (IsReadAt (B.objects backend.now).trees
        (B.may_read_tree backend.now) (path_of dir.entry) value.now) }
    ensures error { IfErr result (λ e. FailsAt (B.objects backend.now).trees
        (B.may_read_tree backend.now) (B.may_fail backend.now) (path_of dir.entry) e value.now) }
{
    match value {
        Some(TreeValue::Tree(id)) => backend.read_tree(alloc, dir, id),
        _ => Ok(Tree::default(alloc)),
    }
}

fn read_trees<B: Backend>(
    alloc: Global,
    backend: &B,
    dir: RepoPath<'_>,
    values: &[Option<TreeValue>],
) -> BackendResult<Vec<Tree>>
    ensures entries { IfOk result (λ trees.
        trees.items ≡ map (entries_of (B.objects backend.now).trees) values.now) }
    ensures read { OnOk result (All (IsReadAt (B.objects backend.now).trees
        (B.may_read_tree backend.now) (path_of dir.entry)) values.now) }
    ensures error { IfErr result (λ e. (e ≡ BackendError.Memory)
        ⊎ Any (FailsAt (B.objects backend.now).trees (B.may_read_tree backend.now)
        (B.may_fail backend.now) (path_of dir.entry) e) values.now) }
{
    let mut trees = Vec::new(alloc);
    for value in values {
        let tree = read_value(alloc, backend, dir, value)?;
        trees.push(tree)?;
    }
    Ok(trees)
}

fn too_deep_error(alloc: Global) -> BackendError
    ensures { (result ≡ BackendError.Memory)
        ⊎ ((message : StringValue GlobalValue) × (result ≡ BackendError.Unsupported message)) }
{
    match String::from_str(alloc, "trees are nested too deep") {
        Ok(message) => BackendError::Unsupported(message),
        Err(_) => BackendError::Memory,
    }
}

// Appends the outcome of the values at a path, or returns the directory to recurse into.
fn merge_path(
    alloc: Global,
    path: RepoPathBuf,
    values: Vec<Option<TreeValue>>,
    labels: &ConflictLabels,
    same_change: SameChange,
    merged: &mut TreeMerge,
) -> Result<Option<Directory>, AllocError>
    requires odd { IsOdd (length values.items) }
    requires sides { (labels.now ≡ []) ⊎ (length labels.now ≡ length values.items) }
    ensures appended { IfOk result (λ o. IsNone o →
        AppendsOutcome ⟦<Option<TreeValue> as PartialEq>⟧.eq same_change values.items labels.now
        path merged.old.resolved.items merged.new.resolved.items
        (conflict_entries merged.old.conflicts.items)
        (conflict_entries merged.new.conflicts.items)) }
    ensures subdirectory { IfOk result (λ o. IfSome o (λ directory.
        (directory.path ≡ path) × (directory.values.items ≡ values.items)
        × MustRecurse ⟦<Option<TreeValue> as PartialEq>⟧.eq same_change values.items
        × (merged.new.resolved.items ≡ merged.old.resolved.items)
        × (merged.new.conflicts.items ≡ merged.old.conflicts.items))) }
{
    match classify(&values, same_change) {
        Step::Resolved(value) => {
            let value = value.clone()?;
            merged.resolved.push((path, value))?;
            Ok(None)
        }
        Step::Absent => Ok(None),
        Step::Recurse => Ok(Some(Directory { path, values })),
        Step::Conflict => {
            let conflict = Merge::from_vec(SmallVec::from_vec(values));
            let (labels, terms) = labels.simplify_with(alloc, &conflict)?;
            merged.conflicts.push((path, terms, labels))?;
            Ok(None)
        }
    }
}

// Merges the entries of a directory and appends their outcomes.
fn merge_directory<B: Backend>(
    alloc: Global,
    backend: &B,
    dir: RepoPath<'_>,
    values: &[Option<TreeValue>],
    labels: &ConflictLabels,
    same_change: SameChange,
    levels: usize,
    merged: &mut TreeMerge,
) -> BackendResult<()>
    requires odd { IsOdd (length values.now) }
    requires sides { (labels.now ≡ []) ⊎ (length labels.now ≡ length values.now) }
    ensures merge { OnOk result (IsAppended (B.objects backend.now).trees
        ⟦<Option<TreeValue> as PartialEq>⟧.eq same_change values.now labels.now (path_of dir.entry)
        merged.old.resolved.items merged.new.resolved.items
        (conflict_entries merged.old.conflicts.items)
        (conflict_entries merged.new.conflicts.items)) }
    ensures within { OnOk result (IsWithin (B.objects backend.now).trees
        ⟦<Option<TreeValue> as PartialEq>⟧.eq same_change
        (IsReadAt (B.objects backend.now).trees (B.may_read_tree backend.now))
        (FailsAt (B.objects backend.now).trees (B.may_read_tree backend.now)
        (B.may_fail backend.now)) (path_of dir.entry) values.now levels) }
    ensures error { IfErr result (IsDirectoryError (B.objects backend.now).trees
        ⟦<Option<TreeValue> as PartialEq>⟧.eq same_change
        (IsReadAt (B.objects backend.now).trees (B.may_read_tree backend.now))
        (FailsAt (B.objects backend.now).trees (B.may_read_tree backend.now)
        (B.may_fail backend.now)) (path_of dir.entry) values.now levels) }
{
    if levels == 0 {
        return Err(too_deep_error(alloc));
    }
    let trees = read_trees(alloc, backend, dir, values)?;
    let rows = merge_rows(alloc, &trees)?;
    for row in rows {
        let path = dir.join(alloc, row.name.as_component())?;
        let subdirectory = merge_path(alloc, path, row.values, labels, same_change, merged)?;
        if let Some(directory) = subdirectory {
            let dir = directory.path.as_path();
            merge_directory(
                alloc,
                backend,
                dir,
                &directory.values,
                labels,
                same_change,
                levels - 1,
                merged,
            )?;
        }
    }
    Ok(())
}

fn collect_root_values(alloc: Global, ids: &[TreeId]) -> Result<Vec<Option<TreeValue>>, AllocError>
    ensures { IfOk result (λ values. values.items ≡ root_values ids.now) }
{
    let mut values = Vec::with_capacity(alloc, ids.len())?;
    for id in ids {
        values.push(Some(TreeValue::Tree(id.clone()?)))?;
    }
    Ok(values)
}

/// Merges trees recursively, at most `levels` deep: `trees` are level 1, their subtrees
/// level 2. The values at each path resolve as by [`trivial_merge`]; values that do not are merged
/// entry by entry if all present ones are trees, and are a conflict otherwise. There are no labels,
/// or one for each tree.
///
/// Fails with `Unsupported` if a directory below `levels` must be merged, with `ObjectNotFound` if
/// the backend lacks a tree, and with any other error of a read. Reads one tree for each term of
/// each directory that is merged.
pub fn merge_trees_within<B: Backend>(
    alloc: Global,
    backend: &B,
    trees: &Merge<TreeId>,
    labels: &ConflictLabels,
    same_change: SameChange,
    levels: NonZeroUsize,
) -> BackendResult<TreeMerge>
    // There is one label for each term, or none at all.
    requires { (labels.now ≡ []) ⊎ (length labels.now ≡ length trees.now) }
    // A path has a resolved value exactly if the merge steps into the directory above it and not
    // into the path, and the values of the terms there resolve to this one.
    ensures resolved { IfOk result (λ m. (path : Path) (value : TreeValue) →
        Contains m.resolved.items (path, value)
        ↔ IsResolved (B.objects backend.now).trees ⟦<Option<TreeValue> as PartialEq>⟧.eq same_change
        (root_values trees.now) path value) }
    // A path is in conflict exactly if the merge steps into the directory above it and not into the
    // path, and the values of the terms there do not resolve; the conflict has the simplified
    // values with their labels.
    ensures conflicts { IfOk result (λ m.
        (path : Path) (terms : List (Option TreeValue)) (term_labels : List (List ℕ)) →
        Contains m.conflicts.items (path, terms, term_labels)
        ↔ IsConflict (B.objects backend.now).trees ⟦<Option<TreeValue> as PartialEq>⟧.eq same_change
        (root_values trees.now) labels.now path terms term_labels) }
    // Both lists ascend by path, and no path occurs twice.
    ensures ascending { IfOk result (λ m.
        AllPairs (λ a b. ⟦<RepoPathBuf as Ord>⟧.cmp a.0 b.0 ≡ Ordering.Less) m.resolved.items
        × AllPairs (λ a b. ⟦<RepoPathBuf as Ord>⟧.cmp a.0 b.0 ≡ Ordering.Less) m.conflicts.items) }
    // After a success, each tree of a term in a directory that the merge steps into was read at its
    // own path, and none is too deep.
    ensures read { OnOk result (AreRead (B.objects backend.now).trees
        ⟦<Option<TreeValue> as PartialEq>⟧.eq same_change (B.may_read_tree backend.now)
        (root_values trees.now) (non_zero_usize_get levels)) }
    // An error but `Memory` is that of a failed read of a tree that the merge steps into,
    // `ObjectNotFound` only if the tree is missing, or `Unsupported` below `levels`.
    ensures error { IfErr result (IsMergeError (B.objects backend.now).trees
        ⟦<Option<TreeValue> as PartialEq>⟧.eq same_change (B.may_read_tree backend.now)
        (B.may_fail backend.now) (root_values trees.now) (non_zero_usize_get levels)) }
{
    let values = collect_root_values(alloc, trees.as_slice())?;
    let mut merged = TreeMerge {
        resolved: Vec::new(alloc),
        conflicts: Vec::new(alloc),
    };
    merge_directory(
        alloc,
        backend,
        RepoPath::root(),
        &values,
        labels,
        same_change,
        levels.get(),
        &mut merged,
    )?;
    Ok(merged)
}

/// Merges trees recursively, at most 1,024 levels deep; otherwise as [`merge_trees_within`].
pub fn merge_trees<B: Backend>(
    alloc: Global,
    backend: &B,
    trees: &Merge<TreeId>,
    labels: &ConflictLabels,
    same_change: SameChange,
) -> BackendResult<TreeMerge>
    // There is one label for each term, or none at all.
    requires { (labels.now ≡ []) ⊎ (length labels.now ≡ length trees.now) }
    // A path has a resolved value exactly if the merge steps into the directory above it and not
    // into the path, and the values of the terms there resolve to this one.
    ensures resolved { IfOk result (λ m. (path : Path) (value : TreeValue) →
        Contains m.resolved.items (path, value)
        ↔ IsResolved (B.objects backend.now).trees ⟦<Option<TreeValue> as PartialEq>⟧.eq same_change
        (root_values trees.now) path value) }
    // A path is in conflict exactly if the merge steps into the directory above it and not into the
    // path, and the values of the terms there do not resolve; the conflict has the simplified
    // values with their labels.
    ensures conflicts { IfOk result (λ m.
        (path : Path) (terms : List (Option TreeValue)) (term_labels : List (List ℕ)) →
        Contains m.conflicts.items (path, terms, term_labels)
        ↔ IsConflict (B.objects backend.now).trees ⟦<Option<TreeValue> as PartialEq>⟧.eq same_change
        (root_values trees.now) labels.now path terms term_labels) }
    // Both lists ascend by path, and no path occurs twice.
    ensures ascending { IfOk result (λ m.
        AllPairs (λ a b. ⟦<RepoPathBuf as Ord>⟧.cmp a.0 b.0 ≡ Ordering.Less) m.resolved.items
        × AllPairs (λ a b. ⟦<RepoPathBuf as Ord>⟧.cmp a.0 b.0 ≡ Ordering.Less) m.conflicts.items) }
    // After a success, each tree of a term in a directory that the merge steps into was read at its
    // own path, and none is too deep.
    ensures read { OnOk result (AreRead (B.objects backend.now).trees
        ⟦<Option<TreeValue> as PartialEq>⟧.eq same_change (B.may_read_tree backend.now)
        (root_values trees.now) 1024) }
    // An error but `Memory` is that of a failed read of a tree that the merge steps into,
    // `ObjectNotFound` only if the tree is missing, or `Unsupported` below 1,024 levels.
    ensures error { IfErr result (IsMergeError (B.objects backend.now).trees
        ⟦<Option<TreeValue> as PartialEq>⟧.eq same_change (B.may_read_tree backend.now)
        (B.may_fail backend.now) (root_values trees.now) 1024) }
{
    let Some(levels) = NonZeroUsize::new(MAX_LEVELS) else {
        unreachable!();
    };
    merge_trees_within(alloc, backend, trees, labels, same_change, levels)
}
