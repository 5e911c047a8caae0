//! Parallel depth-first traversal of two trees, pruned by a matcher and by equal subtrees.
ghost use Rattle.std.specs.Prelude.{◌≡◌, ◌≢◌, ◌↔◌, ◌++◌, ◌∷◌, ◌||◌, ◌⊎◌, ℕ, List, [], Some, map};
ghost use Rattle.std.specs.Prelude.{All, AllPairs, Contains, IfErr, IfOk, IfSome, IsNone, OnOk, OnErr};
ghost use Rattle.std.specs.Prelude.{Option, Result, true};
ghost use Rattle.std.specs.Bool.{MatchBool};
ghost use Rattle.std.specs.Str.{bytes_eq};
ghost use Rattle.jj_paths.specs.Names.{name_of, path_of};
ghost use Rattle.jj_paths.specs.Paths.{Name, Path};
ghost use Rattle.jj_backend.specs.Objects.{ById};
ghost use Rattle.jj_backend.specs.Trees.{Entries, value_at};
ghost use Rattle.jj_backend.specs.declared.backend.tree_value.TreeValue.TheVariants.{Tree as Directory};
ghost use Rattle.jj_matchers.specs.SortedVisits.{is_named};
ghost use Rattle.jj_matchers.specs.VisitSpecs.{IsSound};
ghost use Rattle.jj_matchers.specs.Visits.{is_among, visit_spec};
ghost use Rattle.jj_matchers.specs.Walk.{is_entered};
ghost use Rattle.jj_matchers.specs.WalkInvariants.{DeterminesWalk};
ghost use Rattle.jj_trees.specs.DirectoryMerges.{FailsAt, IsReadAt, entries_of};
ghost use Rattle.jj_tree_builder.specs.Changes.{file_of, files_at};
ghost use Rattle.jj_tree_files.specs.Differences.{AppendsChange, IsChangeAt, IsChangeBelow};
ghost use Rattle.jj_tree_files.specs.Differences.{IsChangedDirectoryOf, IsChangedPair};
ghost use Rattle.jj_tree_files.specs.Differences.{IsEnteredChange, sides_of};
ghost use Rattle.jj_tree_files.specs.Walked.{IsWalked};
ghost use Rattle.jj_tree_files.specs.Walks.{IsReadIfEntered, IsWalkError};
ghost use Rattle.jj_tree_files.specs.declared.changes.Change.{Change};

use crate::files::{accepted_path, child_visit, too_deep_error};
use jj_backend::backend::{Backend, BackendResult, Tree, TreeId, TreeValue};
use jj_matchers::matchers::{Matcher, Visit};
use jj_paths::repo_path::{RepoPath, RepoPathBuf, RepoPathComponent, RepoPathComponentBuf};
use std::alloc::{AllocError, Global};
use std::cmp::Ordering;
use std::collections::BTreeSet;

// The number of levels of directories that are read.
const MAX_LEVELS: usize = 1024;

/// A path at which two trees differ, and the file, symbolic link or submodule that each has there.
#[derive(Drop)]
pub struct Change {
    pub path: RepoPathBuf,
    pub before: Option<TreeValue>,
    pub after: Option<TreeValue>,
}

// Two values at one path.
#[derive(Drop)]
struct Pair {
    before: Option<TreeValue>,
    after: Option<TreeValue>,
}

// Two values of which one is a directory at least, and the visit of their path.
#[derive(Drop)]
struct ChangedDirectory {
    path: RepoPathBuf,
    pair: Pair,
    visit: Visit,
}

// Returns an empty tree for a value that is not a directory.
fn read_value<B: Backend>(
    alloc: Global,
    backend: &B,
    dir: RepoPath<'_>,
    value: &Option<TreeValue>,
) -> BackendResult<Tree>
    ensures entries { IfOk result (λ tree.
        tree ≡ entries_of (B.objects backend.now).trees value.now) }
    ensures read { OnOk result (IsReadAt (B.objects backend.now).trees
        (B.may_read_tree backend.now) (path_of dir.entry) value.now) }
    ensures error { IfErr result (λ e. FailsAt (B.objects backend.now).trees
        (B.may_read_tree backend.now) (B.may_fail backend.now) (path_of dir.entry) e value.now) }
{
    match value {
        Some(TreeValue::Tree(id)) => backend.read_tree(alloc, dir, id),
        _ => Ok(Tree::default(alloc)),
    }
}

fn insert_name<'t>(
    names: &mut BTreeSet<RepoPathComponent<'t>>,
    name: RepoPathComponent<'t>,
) -> Result<(), AllocError>
    ensures { OnOk result ((other : Name) → is_named names.new.keys other
        ≡ (bytes_eq other (name_of name.entry) || is_named names.old.keys other)) }
{
    names.insert(name)?;
    Ok(())
}

// Adds the names of the entries of a tree.
fn insert_names<'t>(
    names: &mut BTreeSet<RepoPathComponent<'t>>,
    tree: &'t Tree,
) -> Result<(), AllocError>
    ensures { OnOk result ((name : Name) → is_named names.new.keys name
        ≡ (is_named names.old.keys name || is_among (map (λ entry. entry.0) tree.now) name)) }
{
    for name in tree.names() {
        insert_name(names, name)?;
    }
    Ok(())
}

// Returns the names of the entries of two trees, in order.
fn entry_names<'t>(
    alloc: Global,
    before: &'t Tree,
    after: &'t Tree,
) -> Result<BTreeSet<RepoPathComponent<'t>>, AllocError>
    ensures { IfOk result (λ names. (name : Name) → is_named names.keys name
        ≡ (is_among (map (λ entry. entry.0) before.now) name
        || is_among (map (λ entry. entry.0) after.now) name)) }
{
    let mut names = BTreeSet::new(alloc);
    insert_names(&mut names, before)?;
    insert_names(&mut names, after)?;
    Ok(names)
}

// Returns the value of the entry with this name.
fn entry_value(tree: &Tree, name: RepoPathComponent<'_>) -> Result<Option<TreeValue>, AllocError>
    ensures { IfOk result (λ value. value ≡ value_at tree.now (name_of name.entry)) }
{
    match tree.value(name) {
        Some(value) => Ok(Some(value.clone()?)),
        None => Ok(None),
    }
}

fn entry_pair(before: &Tree, after: &Tree, name: RepoPathComponent<'_>) -> Result<Pair, AllocError>
    ensures { IfOk result (λ pair. (pair.before ≡ value_at before.now (name_of name.entry))
        × (pair.after ≡ value_at after.now (name_of name.entry))) }
{
    let before = entry_value(before, name)?;
    let after = entry_value(after, name)?;
    Ok(Pair { before, after })
}

// Returns the value, unless it is a directory.
fn file_value(value: &Option<TreeValue>) -> Result<Option<TreeValue>, AllocError>
    ensures { IfOk result (λ file. file ≡ file_of value.now) }
{
    match value {
        None | Some(TreeValue::Tree(_)) => Ok(None),
        Some(value) => Ok(Some(value.clone()?)),
    }
}

fn is_directory(value: &Option<TreeValue>) -> bool
    ensures { MatchBool result ((id : List ℕ) × (value.now ≡ Some (Directory id)))
        (file_of value.now ≡ value.now) }
{
    matches!(value, Some(TreeValue::Tree(_)))
}

fn has_directory(pair: &Pair) -> bool
    ensures { MatchBool result ((id : List ℕ) × ((pair.now.before ≡ Some (Directory id))
        ⊎ (pair.now.after ≡ Some (Directory id))))
        ((file_of pair.now.before ≡ pair.now.before) × (file_of pair.now.after ≡ pair.now.after)) }
{
    if is_directory(&pair.before) {
        return true;
    }
    is_directory(&pair.after)
}

// Appends the change of a path, if the files at it differ and the path is accepted.
fn push_change<M: Matcher>(
    alloc: Global,
    dir: RepoPath<'_>,
    visit: &Visit,
    name: &RepoPathComponentBuf,
    pair: &Pair,
    matcher: &M,
    changes: &mut Vec<Change>,
) -> Result<(), AllocError>
    requires { IsSound (M.accepts matcher.now) (M.opens matcher.now) (path_of dir)
        (visit_spec visit.now) }
    ensures { OnOk result ((trees : ById Entries) → AppendsChange trees (M.accepts matcher.now)
        (path_of dir.entry ++ name.now ∷ []) pair.now.before pair.now.after
        changes.old.items changes.new.items) }
{
    let before = file_value(&pair.before)?;
    let after = file_value(&pair.after)?;
    if before == after {
        return Ok(());
    }
    let Some(path) = accepted_path(alloc, dir, visit, name, matcher)? else {
        return Ok(());
    };
    changes.push(Change {
        path,
        before,
        after,
    })?;
    Ok(())
}

// Lists the change of an entry, and returns the directory that it is on a side, if there may be
// accepted paths below it.
fn list_change<M: Matcher>(
    alloc: Global,
    dir: RepoPath<'_>,
    visit: &Visit,
    name: &RepoPathComponentBuf,
    pair: Pair,
    matcher: &M,
    changes: &mut Vec<Change>,
) -> Result<Option<ChangedDirectory>, AllocError>
    requires { DeterminesWalk (M.accepts matcher.now) (M.opens matcher.now)
        (M.visits matcher.now) (path_of dir) (visit_spec visit.now) }
    ensures listed { IfOk result (λ next. IsNone next → (trees : ById Entries) → IsWalked
        (IsChangeAt trees (M.accepts matcher.now) (path_of dir.entry ++ name.now ∷ [])
        pair.before pair.after)
        (λ path. (id : List ℕ) → IsEnteredChange trees (M.visits matcher.now)
        (path_of dir.entry ++ name.now ∷ []) pair.before pair.after path id → ⊥)
        (path_of dir.entry ++ name.now ∷ [])
        (map sides_of changes.old.items) (map sides_of changes.new.items)) }
    ensures subdirectory { IfOk result (λ next. IfSome next (λ found.
        IsChangedDirectoryOf (M.accepts matcher.now) (M.opens matcher.now) (M.visits matcher.now)
        (path_of dir.entry ++ name.now ∷ []) pair found
        × ((trees : ById Entries) → AppendsChange trees (M.accepts matcher.now)
        (path_of dir.entry ++ name.now ∷ []) pair.before pair.after
        changes.old.items changes.new.items))) }
{
    if pair.before == pair.after {
        return Ok(None);
    }
    push_change(alloc, dir, visit, name, &pair, matcher, changes)?;
    if !has_directory(&pair) {
        return Ok(None);
    }
    let Some((path, visit)) = child_visit(alloc, dir, visit, name, matcher)? else {
        return Ok(None);
    };
    if visit.is_nothing() {
        return Ok(None);
    }
    Ok(Some(ChangedDirectory { path, pair, visit }))
}

// Appends the changes below a directory at accepted paths.
fn list_changes<B: Backend, M: Matcher>(
    alloc: Global,
    backend: &B,
    dir: RepoPath<'_>,
    pair: &Pair,
    visit: &Visit,
    matcher: &M,
    levels: usize,
    changes: &mut Vec<Change>,
) -> BackendResult<()>
    requires visit { DeterminesWalk (M.accepts matcher.now) (M.opens matcher.now)
        (M.visits matcher.now) (path_of dir) (visit_spec visit.now) }
    requires entered { is_entered (visit_spec visit.now) ≡ true }
    requires changed { IsChangedPair pair.now }
    ensures listed { OnOk result (IsWalked
        (IsChangeBelow (B.objects backend.now).trees (M.accepts matcher.now) (path_of dir.entry)
        pair.now.before pair.now.after)
        (IsReadIfEntered (B.objects backend.now).trees (B.may_read_tree backend.now)
        (IsEnteredChange (B.objects backend.now).trees (M.visits matcher.now) (path_of dir.entry)
        pair.now.before pair.now.after) (path_of dir.entry))
        (path_of dir.entry) (map sides_of changes.old.items) (map sides_of changes.new.items)) }
    ensures error { IfErr result (IsWalkError (B.objects backend.now).trees
        (B.may_read_tree backend.now)
        (IsEnteredChange (B.objects backend.now).trees (M.visits matcher.now) (path_of dir.entry)
        pair.now.before pair.now.after) (path_of dir.entry) (B.may_fail backend.now) levels) }
{
    if levels == 0 {
        return Err(too_deep_error(alloc));
    }
    let before = read_value(alloc, backend, dir, &pair.before)?;
    let after = read_value(alloc, backend, dir, &pair.after)?;
    let names = entry_names(alloc, &before, &after)?;
    for name in names {
        let entries = entry_pair(&before, &after, name)?;
        let owned = name.to_owned(alloc)?;
        let next = list_change(alloc, dir, visit, &owned, entries, matcher, changes)?;
        if let Some(below) = next {
            let path = below.path.as_path();
            list_changes(
                alloc,
                backend,
                path,
                &below.pair,
                &below.visit,
                matcher,
                levels - 1,
                changes,
            )?;
        }
    }
    Ok(())
}

/// Returns the paths that the matcher accepts at which the files, symbolic links and submodules of
/// two trees differ, in path order. Equal subtrees are not read, nor are directories that the
/// visits of the matcher exclude. O(n log n) comparisons of names for n entries of the directories
/// read, apart from the calls of the matcher.
///
/// Fails with `Unsupported` if a directory below 1,024 levels would be read, with `ObjectNotFound`
/// if the backend lacks a tree, and with any other error of a read.
pub fn changed_files<B: Backend, M: Matcher>(
    alloc: Global,
    backend: &B,
    before: &TreeId,
    after: &TreeId,
    matcher: &M,
) -> BackendResult<Vec<Change>>
    // The result has exactly the accepted paths at which the files of the trees differ, each with
    // both files.
    ensures changes { IfOk result (λ changes. (change : Change)
        → Contains changes.items change
        ↔ ((change.before
        ≡ files_at (B.objects backend.now).trees (Some (Directory before.now)) change.path)
        × (change.after
        ≡ files_at (B.objects backend.now).trees (Some (Directory after.now)) change.path)
        × (change.before ≢ change.after) × (M.accepts matcher.now change.path ≡ true))) }
    // The paths ascend strictly.
    ensures ascending { IfOk result (λ changes.
        AllPairs (λ a b. ⟦<RepoPathBuf as Ord>⟧.cmp a.path b.path ≡ Ordering.Less)
        changes.items) }
    // Each directory that differs and that the visits of the matcher lead to was found and read at
    // its path.
    ensures read { OnOk result ((path : Path) → IsReadIfEntered (B.objects backend.now).trees
        (B.may_read_tree backend.now) (IsEnteredChange (B.objects backend.now).trees
        (M.visits matcher.now) [] (Some (Directory before.now)) (Some (Directory after.now))) []
        path) }
    // An error is out of memory, a failed read of a directory that differs and that the visits lead
    // to, or `Unsupported` for such a directory below 1,024 levels.
    ensures error { IfErr result (IsWalkError (B.objects backend.now).trees
        (B.may_read_tree backend.now) (IsEnteredChange (B.objects backend.now).trees
        (M.visits matcher.now) [] (Some (Directory before.now)) (Some (Directory after.now))) []
        (B.may_fail backend.now) 1024) }
{
    let mut changes = Vec::new(alloc);
    if before == after {
        return Ok(changes);
    }
    let visit = matcher.visit(alloc, RepoPath::root())?;
    if visit.is_nothing() {
        return Ok(changes);
    }
    let pair = Pair {
        before: Some(TreeValue::Tree(before.clone()?)),
        after: Some(TreeValue::Tree(after.clone()?)),
    };
    let root = RepoPath::root();
    list_changes(
        alloc,
        backend,
        root,
        &pair,
        &visit,
        matcher,
        MAX_LEVELS,
        &mut changes,
    )?;
    Ok(changes)
}
