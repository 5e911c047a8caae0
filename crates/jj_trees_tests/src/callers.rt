//! Proved callers of the in-memory backend and of recursive tree merges.
ghost use Rattle.std.specs.Prelude.{◌≡◌, ◌≢◌, ◌↔◌, ◌⊎◌, ℕ, List, [], ◌∷◌, length, replicate, Option, Some, AllPairs};
ghost use Rattle.std.specs.Prelude.{Contains, IfOk, IfErr, string_bytes};
ghost use Rattle.jj_merges.specs.Merge.{HaveSameCounts, IsDisjoint};
ghost use Rattle.jj_merges.specs.declared.merge.SameChange.TheVariants.{Accept};
ghost use Rattle.jj_backend.specs.declared.backend.tree_value.TreeValue.{TreeValue};
ghost use Rattle.jj_backend.specs.declared.backend.tree_value.TreeValue.TheVariants.{Tree as SubTree};
ghost use Rattle.jj_paths.specs.Paths.{Path, IsBelow};
ghost use Rattle.jj_trees.specs.MemoryObjects.{objects_of};
ghost use Rattle.jj_trees.specs.TreeMerges.{IsConflict, IsMergeError, IsResolved, root_values};
ghost use Rattle.jj_trees.specs.TreeMerges.{values_at};
ghost use Rattle.jj_trees.specs.WrittenTrees.{AddsTrees, IsTreeWriteError, stored_at};
ghost use Rattle.jj_trees_tests.specs.Outcomes.{IsOutcome};
ghost use Rattle.jj_trees_tests.specs.Writes.{IsBackendFailure, IsWriteError};

use crate::three_sides::side_values;
use jj_backend::backend::{
    Backend, BackendError, BackendResult, ChangeId, Commit, CopyHistory, NoSigner, SigningFn, Tree,
    TreeId, TreeValue, make_root_commit,
};
use jj_merges::conflict_labels::ConflictLabels;
use jj_merges::laws::simplified_indices_laws;
use jj_merges::merge::{Merge, SameChange};
use jj_paths::repo_path::{RepoPath, RepoPathBuf};
use jj_trees::memory_backend::MemoryBackend;
use jj_trees::tree_merge::{TreeMerge, merge_trees, write_back};
use std::alloc::Global;
use std::cmp::Ordering;

/// Merges trees and returns exactly the paths that resolve to a present value.
pub fn resolved_paths<B: Backend>(
    alloc: Global,
    backend: &B,
    trees: &Merge<TreeId>,
) -> BackendResult<Vec<(RepoPathBuf, TreeValue)>>
    ensures { IfOk result (λ found. (path : Path) (value : TreeValue) →
        Contains found.items (path, value)
        ↔ IsResolved (B.objects backend.now).trees ⟦<Option<TreeValue> as PartialEq>⟧.eq Accept
        (root_values trees.now) path value) }
{
    let labels = ConflictLabels::unlabeled(alloc);
    let merged = merge_trees(alloc, backend, trees, &labels, SameChange::Accept)?;
    Ok(merged.resolved)
}

/// Merges trees and returns the conflicts: the terms at each path have the signed counts of the
/// trees' values there, and no value is both an add and a remove.
pub fn conflicts<B: Backend>(
    alloc: Global,
    backend: &B,
    trees: &Merge<TreeId>,
) -> BackendResult<Vec<(RepoPathBuf, Merge<Option<TreeValue>>, ConflictLabels)>>
    ensures { IfOk result (λ found.
        (path : Path) (terms : List (Option TreeValue)) (labels : List (List ℕ)) →
        Contains found.items (path, terms, labels)
        → HaveSameCounts ⟦<Option<TreeValue> as PartialEq>⟧.eq terms
        (values_at (B.objects backend.now).trees (root_values trees.now) path)
        × IsDisjoint ⟦<Option<TreeValue> as PartialEq>⟧.eq terms) }
{
    simplified_indices_laws::<Option<TreeValue>>();
    let _terms = trees.as_slice();
    let labels = ConflictLabels::unlabeled(alloc);
    let merged = merge_trees(alloc, backend, trees, &labels, SameChange::Accept)?;
    Ok(merged.conflicts)
}

/// Merges trees and writes the result back, with the term of one side for each conflict, `None` if
/// there is no such side: the written tree has the value at each path that resolves to one, the
/// chosen term at the path of each conflict, and nothing else. It fails as the merge does, or where
/// a tree cannot be written.
pub fn merge_and_write<B: Backend>(
    alloc: Global,
    backend: &mut B,
    trees: &Merge<TreeId>,
    side: usize,
) -> BackendResult<TreeId>
    // The written tree has the outcome at each path: the resolved value, or the term of the chosen
    // side of a conflict.
    ensures outcomes { IfOk result (λ id. (path : Path) (outcome : Option TreeValue) →
        IsOutcome (B.objects backend.old).trees ⟦<Option<TreeValue> as PartialEq>⟧.eq Accept
        (root_values trees.now) side path outcome
        → stored_at (B.objects backend.new).trees (Some (SubTree id)) path ≡ outcome) }
    // Each value of the tree is at, above or below the path of such an outcome.
    ensures only { IfOk result (λ id. (path : Path) (value : TreeValue) → path ≢ []
        → stored_at (B.objects backend.new).trees (Some (SubTree id)) path ≡ Some value
        → (written : Path) × (present : TreeValue)
        × IsOutcome (B.objects backend.old).trees ⟦<Option<TreeValue> as PartialEq>⟧.eq Accept
        (root_values trees.now) side written (Some present)
        × (IsBelow written path ⊎ IsBelow path written)) }
    // No object but trees was added, and none has changed.
    ensures objects { AddsTrees (B.objects backend.old) (B.objects backend.new) }
    // An error is one of the merge or of writing a tree.
    ensures error { IfErr result (λ e. IsMergeError (B.objects backend.old).trees
        ⟦<Option<TreeValue> as PartialEq>⟧.eq Accept (B.may_read_tree backend.old)
        (B.may_fail backend.old) (root_values trees.now) 1024 e
        ⊎ IsTreeWriteError B.objects B.may_fail_to_write backend.old e) }
{
    let labels = ConflictLabels::unlabeled(alloc);
    let merge = merge_trees(alloc, backend, trees, &labels, SameChange::Accept)?;
    let chosen = side_values(alloc, &merge, side)?;
    write_back(alloc, backend, &merge, &chosen)
}

/// Writes a tree and a commit of it below the root commit, whose id is taken before the writes, and
/// reads the commit back: its only parent is still the root commit, and its tree is the one
/// written. An error is out of memory, or one that the backend may fail with.
pub fn first_commit<B: Backend>(
    alloc: Global,
    backend: &mut B,
    change_id: ChangeId,
    tree: &Tree,
) -> BackendResult<Commit>
    ensures parent { IfOk result (λ read.
        read.parents ≡ (B.fixed backend.new).root_commit_id ∷ []) }
    ensures tree { IfOk result (λ read. (id : List ℕ) × (read.root_tree ≡ id ∷ [])
        × ((B.objects backend.new).trees id ≡ Some tree.now)) }
    ensures fixed { B.fixed backend.new ≡ B.fixed backend.old }
    ensures error { IfErr result (λ e. (e ≡ BackendError.Memory)
        ⊎ IsBackendFailure B.may_fail B.may_fail_to_write e) }
{
    let root = backend.root_commit_id().clone()?;
    let tree_id = backend.write_tree(alloc, RepoPath::root(), tree)?;
    let mut commit = make_root_commit(alloc, change_id, tree_id);
    commit.parents.push(root)?;
    let (id, _) = backend.write_commit(alloc, commit, None::<&mut NoSigner>)?;
    backend.read_commit(alloc, &id)
}

/// Writes the first commit of a new in-memory backend: the id of its only parent is 64 zeros.
pub fn first_commit_in_memory(
    alloc: Global,
    change_id: ChangeId,
    tree: &Tree,
) -> BackendResult<Commit>
    ensures parent { IfOk result (λ read. read.parents ≡ replicate 64 0 ∷ []) }
    ensures error { IfErr result IsWriteError }
{
    let mut backend = MemoryBackend::new(alloc)?;
    first_commit(alloc, &mut backend, change_id, tree)
}

/// Writes a file and reads it back.
pub fn written_file(
    alloc: Global,
    backend: &mut MemoryBackend,
    contents: &[u8],
) -> BackendResult<Vec<u8>>
    ensures read { IfOk result (λ read. read.items ≡ contents.now) }
    ensures error { IfErr result IsWriteError }
{
    let id = backend.write_file(alloc, RepoPath::root(), contents)?;
    backend.read_file(alloc, RepoPath::root(), &id)
}

/// Writes a symbolic link and reads its target back.
pub fn written_symlink(
    alloc: Global,
    backend: &mut MemoryBackend,
    target: &str,
) -> BackendResult<String>
    ensures read { IfOk result (λ read. string_bytes read ≡ target.now) }
    ensures error { IfErr result IsWriteError }
{
    let id = backend.write_symlink(alloc, RepoPath::root(), target)?;
    backend.read_symlink(alloc, RepoPath::root(), &id)
}

/// Writes a copy history and reads it back.
pub fn written_copy(
    alloc: Global,
    backend: &mut MemoryBackend,
    copy: &CopyHistory,
) -> BackendResult<CopyHistory>
    ensures read { IfOk result (λ read. read ≡ copy.now) }
    ensures error { IfErr result IsWriteError }
{
    let id = backend.write_copy(alloc, copy)?;
    backend.read_copy(alloc, &id)
}

/// Writes a tree and reads it back.
pub fn written_tree(alloc: Global, backend: &mut MemoryBackend, tree: &Tree) -> BackendResult<Tree>
    ensures read { IfOk result (λ read. read ≡ tree.now) }
    ensures error { IfErr result IsWriteError }
{
    let id = backend.write_tree(alloc, RepoPath::root(), tree)?;
    backend.read_tree(alloc, RepoPath::root(), &id)
}

/// Writes a commit and reads it back: it equals the commit that the write returned.
pub fn written_commit<S: SigningFn>(
    alloc: Global,
    backend: &mut MemoryBackend,
    commit: Commit,
    sign_with: Option<&mut S>,
) -> BackendResult<(Commit, Commit)>
    ensures read { IfOk result (λ both. both.1 ≡ both.0) }
    ensures error { IfErr result IsWriteError }
{
    let (id, kept) = backend.write_commit(alloc, commit, sign_with)?;
    let read = backend.read_commit(alloc, &id)?;
    Ok((kept, read))
}

/// Merges trees of an in-memory backend: the result is the merge of the stored trees.
pub fn merge_in_memory(
    alloc: Global,
    backend: &MemoryBackend,
    trees: &Merge<TreeId>,
    labels: &ConflictLabels,
    same_change: SameChange,
) -> BackendResult<TreeMerge>
    requires { (labels.now ≡ []) ⊎ (length labels.now ≡ length trees.now) }
    ensures resolved { IfOk result (λ m. (path : Path) (value : TreeValue) →
        Contains m.resolved.items (path, value)
        ↔ IsResolved (objects_of backend.now).trees ⟦<Option<TreeValue> as PartialEq>⟧.eq
        same_change (root_values trees.now) path value) }
    ensures conflicts { IfOk result (λ m.
        (path : Path) (terms : List (Option TreeValue)) (term_labels : List (List ℕ)) →
        Contains m.conflicts.items (path, terms, term_labels)
        ↔ IsConflict (objects_of backend.now).trees ⟦<Option<TreeValue> as PartialEq>⟧.eq
        same_change (root_values trees.now) labels.now path terms term_labels) }
    ensures ascending { IfOk result (λ m.
        AllPairs (λ a b. ⟦<RepoPathBuf as Ord>⟧.cmp a.0 b.0 ≡ Ordering.Less) m.resolved.items
        × AllPairs (λ a b. ⟦<RepoPathBuf as Ord>⟧.cmp a.0 b.0 ≡ Ordering.Less) m.conflicts.items) }
{
    merge_trees(alloc, backend, trees, labels, same_change)
}
