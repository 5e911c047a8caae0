//! Depth-first traversal of the files of a tree, pruned by a matcher.
ghost use Rattle.std.specs.Prelude.{◌≡◌, ◌↔◌, ◌⊎◌, ◌++◌, ◌∷◌, ℕ, List, [], Some, true, false};
ghost use Rattle.std.specs.Prelude.{AllPairs, Contains, IfErr, IfOk, IfSome, IsNone};
ghost use Rattle.std.specs.Prelude.{MatchOption, OnOk, if◌then◌else◌};
ghost use Rattle.std.specs.Global.{Global as GlobalValue};
ghost use Rattle.std.specs.declared.string.String.{String as StringValue};
ghost use Rattle.jj_paths.specs.Names.{path_of};
ghost use Rattle.jj_paths.specs.Paths.{Path};
ghost use Rattle.jj_backend.specs.Objects.{ById};
ghost use Rattle.jj_backend.specs.Trees.{Entries};
ghost use Rattle.jj_backend.specs.declared.backend.tree_value.TreeValue.{TreeValue};
ghost use Rattle.jj_backend.specs.declared.backend.tree_value.TreeValue.TheVariants.{Tree as Directory};
ghost use Rattle.jj_matchers.specs.VisitSpecs.{IsSound};
ghost use Rattle.jj_matchers.specs.Visits.{visit_spec};
ghost use Rattle.jj_matchers.specs.Walk.{is_entered};
ghost use Rattle.jj_matchers.specs.WalkInvariants.{DeterminesWalk};
ghost use Rattle.jj_tree_builder.specs.Changes.{file_of, files_at};
ghost use Rattle.jj_tree_files.specs.Listings.{IsChildVisit, IsDirectoryOf, IsFileBelow};
ghost use Rattle.jj_tree_files.specs.Walked.{IsWalked};
ghost use Rattle.jj_tree_files.specs.Walks.{IsEntered, IsReadIfEntered, IsWalkError};

use jj_backend::backend::{Backend, BackendError, BackendResult, TreeId, TreeValue};
use jj_matchers::matchers::{Matcher, Visit};
use jj_paths::repo_path::{RepoPath, RepoPathBuf, RepoPathComponentBuf};
use std::alloc::{AllocError, Global};
use std::cmp::Ordering;

// The number of levels of directories that are read.
const MAX_LEVELS: usize = 1024;

// A directory whose entries are to be listed, and its visit.
#[derive(Drop)]
struct Subdirectory {
    path: RepoPathBuf,
    id: TreeId,
    visit: Visit,
}

pub(crate) fn too_deep_error(alloc: Global) -> BackendError
    ensures { (result ≡ BackendError.Memory)
        ⊎ ((message : StringValue GlobalValue) × (result ≡ BackendError.Unsupported message)) }
{
    match String::from_str(alloc, "trees are nested too deep") {
        Ok(message) => BackendError::Unsupported(message),
        Err(_) => BackendError::Memory,
    }
}

// Returns the id of a directory, or `None` for a file, a symbolic link or a submodule.
fn directory_id(value: &TreeValue) -> Option<&TreeId>
    ensures { MatchOption result (file_of (Some value.now) ≡ Some value.now)
        (λ id. value.now ≡ Directory id.now) }
{
    match value {
        TreeValue::Tree(id) => Some(id),
        _ => None,
    }
}

// Returns the path of a child, if it is accepted. Calls the matcher only for a file of a `Specific`
// visit.
pub(crate) fn accepted_path<M: Matcher>(
    alloc: Global,
    dir: RepoPath<'_>,
    visit: &Visit,
    name: &RepoPathComponentBuf,
    matcher: &M,
) -> Result<Option<RepoPathBuf>, AllocError>
    requires { IsSound (M.accepts matcher.now) (M.opens matcher.now) (path_of dir)
        (visit_spec visit.now) }
    ensures { IfOk result (λ accepted. MatchOption accepted
        (M.accepts matcher.now (path_of dir.entry ++ name.now ∷ []) ≡ false)
        (λ path. (path ≡ path_of dir.entry ++ name.now ∷ [])
        × (M.accepts matcher.now (path_of dir.entry ++ name.now ∷ []) ≡ true))) }
{
    match visit {
        Visit::AllRecursively => Ok(Some(dir.join(alloc, name.as_component())?)),
        Visit::Specific { dirs: _, files } => {
            if !files.contains(name) {
                return Ok(None);
            }
            let path = dir.join(alloc, name.as_component())?;
            if matcher.matches(path.as_path()) {
                Ok(Some(path))
            } else {
                Ok(None)
            }
        }
        Visit::Nothing => Ok(None),
    }
}

// Returns the path and the visit of a child, or `None` if no path below it is accepted.
pub(crate) fn child_visit<M: Matcher>(
    alloc: Global,
    dir: RepoPath<'_>,
    visit: &Visit,
    name: &RepoPathComponentBuf,
    matcher: &M,
) -> Result<Option<(RepoPathBuf, Visit)>, AllocError>
    requires { DeterminesWalk (M.accepts matcher.now) (M.opens matcher.now)
        (M.visits matcher.now) (path_of dir) (visit_spec visit.now) }
    ensures { IfOk result (IsChildVisit (M.accepts matcher.now) (M.opens matcher.now)
        (M.visits matcher.now) (path_of dir.entry ++ name.now ∷ [])) }
{
    match visit {
        Visit::AllRecursively => {
            let path = dir.join(alloc, name.as_component())?;
            Ok(Some((path, Visit::AllRecursively)))
        }
        Visit::Specific { dirs, files: _ } => {
            if !dirs.contains(name) {
                return Ok(None);
            }
            let path = dir.join(alloc, name.as_component())?;
            let visit = matcher.visit(alloc, path.as_path())?;
            Ok(Some((path, visit)))
        }
        Visit::Nothing => Ok(None),
    }
}

// Appends a value that is no directory, if its path is accepted.
fn push_file<M: Matcher>(
    alloc: Global,
    dir: RepoPath<'_>,
    visit: &Visit,
    name: &RepoPathComponentBuf,
    value: &TreeValue,
    matcher: &M,
    files: &mut Vec<(RepoPathBuf, TreeValue)>,
) -> Result<(), AllocError>
    requires { IsSound (M.accepts matcher.now) (M.opens matcher.now) (path_of dir)
        (visit_spec visit.now) }
    ensures { OnOk result (files.new.items ≡ files.old.items
        ++ (if M.accepts matcher.now (path_of dir.entry ++ name.now ∷ [])
        then (path_of dir.entry ++ name.now ∷ [], value.now) ∷ [] else [])) }
{
    let Some(path) = accepted_path(alloc, dir, visit, name, matcher)? else {
        return Ok(());
    };
    let value = value.clone()?;
    files.push((path, value))?;
    Ok(())
}

// Lists an entry, or returns the directory that it is, if there may be accepted paths below it.
fn list_entry<M: Matcher>(
    alloc: Global,
    dir: RepoPath<'_>,
    visit: &Visit,
    name: &RepoPathComponentBuf,
    value: &TreeValue,
    matcher: &M,
    files: &mut Vec<(RepoPathBuf, TreeValue)>,
) -> Result<Option<Subdirectory>, AllocError>
    requires { DeterminesWalk (M.accepts matcher.now) (M.opens matcher.now)
        (M.visits matcher.now) (path_of dir) (visit_spec visit.now) }
    ensures listed { IfOk result (λ next. IsNone next → (trees : ById Entries) → IsWalked
        (IsFileBelow trees (M.accepts matcher.now) (path_of dir.entry ++ name.now ∷ [])
        (Some value.now))
        (λ path. (id : List ℕ) → IsEntered trees (M.visits matcher.now)
        (path_of dir.entry ++ name.now ∷ []) (Some value.now) path id → ⊥)
        (path_of dir.entry ++ name.now ∷ []) files.old.items files.new.items) }
    ensures subdirectory { IfOk result (λ next. IfSome next (λ found.
        IsDirectoryOf (M.accepts matcher.now) (M.opens matcher.now) (M.visits matcher.now)
        (path_of dir.entry ++ name.now ∷ []) value.now found
        × (files.new.items ≡ files.old.items))) }
{
    let Some(id) = directory_id(value) else {
        push_file(alloc, dir, visit, name, value, matcher, files)?;
        return Ok(None);
    };
    let Some((path, visit)) = child_visit(alloc, dir, visit, name, matcher)? else {
        return Ok(None);
    };
    if visit.is_nothing() {
        return Ok(None);
    }
    let id = id.clone()?;
    Ok(Some(Subdirectory { path, id, visit }))
}

// Appends the files of a directory at accepted paths.
fn list_directory<B: Backend, M: Matcher>(
    alloc: Global,
    backend: &B,
    dir: RepoPath<'_>,
    id: &TreeId,
    visit: &Visit,
    matcher: &M,
    levels: usize,
    files: &mut Vec<(RepoPathBuf, TreeValue)>,
) -> BackendResult<()>
    requires visit { DeterminesWalk (M.accepts matcher.now) (M.opens matcher.now)
        (M.visits matcher.now) (path_of dir) (visit_spec visit.now) }
    requires entered { is_entered (visit_spec visit.now) ≡ true }
    ensures listed { OnOk result (IsWalked
        (IsFileBelow (B.objects backend.now).trees (M.accepts matcher.now) (path_of dir.entry)
        (Some (Directory id.now)))
        (IsReadIfEntered (B.objects backend.now).trees (B.may_read_tree backend.now)
        (IsEntered (B.objects backend.now).trees (M.visits matcher.now) (path_of dir.entry)
        (Some (Directory id.now))) (path_of dir.entry))
        (path_of dir.entry) files.old.items files.new.items) }
    ensures error { IfErr result (IsWalkError (B.objects backend.now).trees
        (B.may_read_tree backend.now)
        (IsEntered (B.objects backend.now).trees (M.visits matcher.now) (path_of dir.entry)
        (Some (Directory id.now))) (path_of dir.entry) (B.may_fail backend.now) levels) }
{
    if levels == 0 {
        return Err(too_deep_error(alloc));
    }
    let tree = backend.read_tree(alloc, dir, id)?;
    for entry in tree.entries() {
        let name = entry.name().to_owned(alloc)?;
        let next = list_entry(alloc, dir, visit, &name, entry.value(), matcher, files)?;
        if let Some(below) = next {
            let path = below.path.as_path();
            list_directory(
                alloc,
                backend,
                path,
                &below.id,
                &below.visit,
                matcher,
                levels - 1,
                files,
            )?;
        }
    }
    Ok(())
}

/// Returns the files, symbolic links and submodules of a tree at the paths that the matcher
/// accepts, in path order. Directories that the visits of the matcher exclude are not read.
/// O(n) for n entries of the directories read, apart from the calls of the matcher.
///
/// Fails with `Unsupported` if a directory below 1,024 levels would be read, with `ObjectNotFound`
/// if the backend lacks a tree, and with any other error of a read.
pub fn files_matching<B: Backend, M: Matcher>(
    alloc: Global,
    backend: &B,
    tree: &TreeId,
    matcher: &M,
) -> BackendResult<Vec<(RepoPathBuf, TreeValue)>>
    // The result has exactly the files of the tree at accepted paths.
    ensures files { IfOk result (λ files. (path : Path) (value : TreeValue)
        → Contains files.items (path, value)
        ↔ ((files_at (B.objects backend.now).trees (Some (Directory tree.now)) path ≡ Some value)
        × (M.accepts matcher.now path ≡ true))) }
    // The paths ascend strictly.
    ensures ascending { IfOk result (λ files.
        AllPairs (λ a b. ⟦<RepoPathBuf as Ord>⟧.cmp a.0 b.0 ≡ Ordering.Less) files.items) }
    // Each directory that the visits of the matcher lead to was found and read at its path.
    ensures read { OnOk result ((path : Path) → IsReadIfEntered (B.objects backend.now).trees
        (B.may_read_tree backend.now) (IsEntered (B.objects backend.now).trees
        (M.visits matcher.now) [] (Some (Directory tree.now))) [] path) }
    // An error is out of memory, a failed read of a directory that the visits lead to, or
    // `Unsupported` for such a directory below 1,024 levels.
    ensures error { IfErr result (IsWalkError (B.objects backend.now).trees
        (B.may_read_tree backend.now) (IsEntered (B.objects backend.now).trees
        (M.visits matcher.now) [] (Some (Directory tree.now))) [] (B.may_fail backend.now) 1024) }
{
    let mut files = Vec::new(alloc);
    let visit = matcher.visit(alloc, RepoPath::root())?;
    if visit.is_nothing() {
        return Ok(files);
    }
    let root = RepoPath::root();
    list_directory(
        alloc, backend, root, tree, &visit, matcher, MAX_LEVELS, &mut files,
    )?;
    Ok(files)
}
