//! Writing of merges: a trie of the values at the paths, whose directories are written in
//! postorder.
ghost use Rattle.std.specs.Prelude.{◌≡◌, ◌⊎◌, ◌++◌, ◌∷◌, [], length, None};
ghost use Rattle.std.specs.Prelude.{IfOk, IfErr, IfSome, OnOk};
ghost use Rattle.jj_paths.specs.Names.{path_of};
ghost use Rattle.jj_paths.specs.Paths.{Path};
ghost use Rattle.jj_paths.specs.Tree.{value_at, none};
ghost use Rattle.jj_backend.specs.Errors.{IsOtherOf};
ghost use Rattle.jj_backend.specs.declared.backend.tree_value.TreeValue.{TreeValue};
ghost use Rattle.jj_trees.specs.WrittenTrees.{AddsTrees, IsPrefixFree, IsTreeOf, PathValues};
ghost use Rattle.jj_trees.specs.WrittenTrees.{IsWriteBackError, chosen_values, values_to_write};
ghost use Rattle.jj_trees.specs.PathTries.{IsFull, IsNodeError, IsStored, IsTrieOf, is_value};
ghost use Rattle.jj_trees.specs.PathTries.{WritesNodes};
ghost use Rattle.jj_trees.specs.TreeWrites.{WritesDirectories};

use super::{MAX_LEVELS, TreeMerge, too_deep_error};
use jj_backend::backend::{Backend, BackendError, BackendResult, Tree, TreeId, TreeValue};
use jj_files::file_util::{SourceError, SourceKind};
use jj_merges::conflict_labels::ConflictLabels;
use jj_merges::merge::Merge;
use jj_paths::repo_path::{RepoPath, RepoPathBuf, RepoPathComponentBuf, RepoPathTree};
use std::alloc::{AllocError, Global};

fn path_error(alloc: Global) -> BackendError
    ensures { (result ≡ BackendError.Memory) ⊎ IsOtherOf SourceKind.Data result }
{
    match String::from_str(alloc, "a value of a merge is at, above or below another") {
        Ok(message) => BackendError::Other(SourceError {
            kind: SourceKind::Data,
            message,
        }),
        Err(_) => BackendError::Memory,
    }
}

fn has_value(trie: &RepoPathTree<Option<TreeValue>>, path: RepoPath<'_>) -> bool
    ensures { result ≡ is_value (value_at trie.now (path_of path.entry)) }
{
    match trie.get(path) {
        Some(node) => node.value().is_some(),
        None => false,
    }
}

// Inserts a value at a path that is not the root and has no value.
fn insert_value(
    alloc: Global,
    trie: &mut RepoPathTree<Option<TreeValue>>,
    path: RepoPath<'_>,
    value: &TreeValue,
) -> BackendResult<()>
    ensures inserted { OnOk result ((values : PathValues) → IsTrieOf values trie.old
        → IsTrieOf (values ++ (path_of path.entry, value.now) ∷ []) trie.new) }
    ensures error { IfErr result (λ e. (e ≡ BackendError.Memory)
        ⊎ (IsOtherOf SourceKind.Data e × ((values : PathValues) → IsTrieOf values trie.old
        → IsPrefixFree (values ++ (path_of path.entry, value.now) ∷ []) → ⊥))) }
{
    if path.is_root() || has_value(trie, path) {
        return Err(path_error(alloc));
    }
    trie.set(path, Some(value.clone()?))?;
    Ok(())
}

fn insert_resolved(
    alloc: Global,
    trie: &mut RepoPathTree<Option<TreeValue>>,
    resolved: &[(RepoPathBuf, TreeValue)],
) -> BackendResult<()>
    ensures inserted { OnOk result ((values : PathValues) → IsTrieOf values trie.old
        → IsTrieOf (values ++ resolved.now) trie.new) }
    ensures error { IfErr result (λ e. (e ≡ BackendError.Memory)
        ⊎ (IsOtherOf SourceKind.Data e × ((values : PathValues) → IsTrieOf values trie.old
        → IsPrefixFree (values ++ resolved.now) → ⊥))) }
{
    for (path, value) in resolved {
        insert_value(alloc, trie, path.as_path(), value)?;
    }
    Ok(())
}

fn insert_chosen(
    alloc: Global,
    trie: &mut RepoPathTree<Option<TreeValue>>,
    conflicts: &[(RepoPathBuf, Merge<Option<TreeValue>>, ConflictLabels)],
    chosen: &[Option<TreeValue>],
) -> BackendResult<()>
    requires { length chosen.now ≡ length conflicts.now }
    ensures inserted { OnOk result ((values : PathValues) → IsTrieOf values trie.old
        → IsTrieOf (values ++ chosen_values conflicts.now chosen.now) trie.new) }
    ensures error { IfErr result (λ e. (e ≡ BackendError.Memory)
        ⊎ (IsOtherOf SourceKind.Data e × ((values : PathValues) → IsTrieOf values trie.old
        → IsPrefixFree (values ++ chosen_values conflicts.now chosen.now) → ⊥))) }
{
    for i in 0..chosen.len() {
        if let Some(value) = &chosen[i] {
            insert_value(alloc, trie, conflicts[i].0.as_path(), value)?;
        }
    }
    Ok(())
}

// Creates the trie of the values to write.
fn values_trie(
    alloc: Global,
    merge: &TreeMerge,
    chosen: &[Option<TreeValue>],
) -> BackendResult<RepoPathTree<Option<TreeValue>>>
    requires { length chosen.now ≡ length merge.now.conflicts.items }
    ensures trie { IfOk result (IsTrieOf (values_to_write merge.now.resolved.items
        merge.now.conflicts.items chosen.now)) }
    ensures error { IfErr result (λ e. (e ≡ BackendError.Memory)
        ⊎ (IsOtherOf SourceKind.Data e × (IsPrefixFree (values_to_write
        merge.now.resolved.items merge.now.conflicts.items chosen.now) → ⊥))) }
{
    let mut trie = RepoPathTree::default(alloc);
    insert_resolved(alloc, &mut trie, &merge.resolved)?;
    insert_chosen(alloc, &mut trie, &merge.conflicts, chosen)?;
    Ok(trie)
}

// Returns the value of a node that has no children, and `None` for a directory.
fn leaf_value(
    alloc: Global,
    node: &RepoPathTree<Option<TreeValue>>,
) -> BackendResult<Option<TreeValue>>
    ensures value { IfOk result (λ value. value ≡ node.now.value) }
    ensures leaf { IfOk result (λ value. IfSome value (λ _. node.now.branches ≡ none)) }
    ensures error { IfErr result (λ e. (e ≡ BackendError.Memory)
        ⊎ (IsOtherOf SourceKind.Data e × ((path : Path) × IsFull node.now path))) }
{
    match node.value() {
        Some(value) => {
            if node.has_children() {
                return Err(path_error(alloc));
            }
            Ok(Some(value.clone()?))
        }
        None => Ok(None),
    }
}

fn push_entry(
    entries: &mut Vec<(RepoPathComponentBuf, TreeValue)>,
    name: &RepoPathComponentBuf,
    value: TreeValue,
) -> Result<(), AllocError>
    ensures { OnOk result (entries.new.items ≡ entries.old.items ++ (name.now, value) ∷ []) }
{
    entries.push((name.clone()?, value))?;
    Ok(())
}

// Writes the tree of a directory, after those of its subdirectories.
fn write_directory<B: Backend>(
    alloc: Global,
    backend: &mut B,
    dir: RepoPath<'_>,
    node: &RepoPathTree<Option<TreeValue>>,
    levels: usize,
) -> BackendResult<TreeId>
    requires { node.now.value ≡ None }
    ensures stored { IfOk result (λ id.
        IsStored (B.objects backend.new).trees node.now.branches id) }
    ensures objects { AddsTrees (B.objects backend.old) (B.objects backend.new) }
    ensures error { IfErr result
        (IsNodeError B.objects B.may_fail_to_write backend.old node.now levels) }
    ensures writes { WritesNodes B.may_write (B.objects backend.new).trees (path_of dir.entry)
        node.now backend.old backend.new result }
{
    if levels == 0 {
        return Err(too_deep_error(alloc));
    }
    let mut entries = Vec::new(alloc);
    for (name, child) in node.entries() {
        match leaf_value(alloc, child)? {
            Some(value) => push_entry(&mut entries, name, value)?,
            None => {
                let path = dir.join(alloc, name.as_component())?;
                let id = write_directory(alloc, backend, path.as_path(), child, levels - 1)?;
                push_entry(&mut entries, name, TreeValue::Tree(id))?;
            }
        }
    }
    let tree = Tree::from_sorted_entries(entries);
    backend.write_tree(alloc, dir, &tree)
}

/// Writes the tree of a merge and returns its id: each resolved path has its value, and each
/// conflict the value of `chosen` at the same index, where `None` removes the path. Directories
/// without values are not written, except for the root. O(n log n) name comparisons for paths of n
/// names in total.
///
/// Fails with `Other` of kind `Data` if a path with a value is the root, or is at, above or below
/// another one, with `Unsupported` if a path has more than 1,024 names, and with any error of
/// `write_tree`. Trees that were written before an error stay in the backend.
pub fn write_back<B: Backend>(
    alloc: Global,
    backend: &mut B,
    merge: &TreeMerge,
    chosen: &[Option<TreeValue>],
) -> BackendResult<TreeId>
    // There is one choice for each conflict.
    requires { length chosen.now ≡ length merge.now.conflicts.items }
    // The tree with the ID returned has exactly the resolved and the chosen values, at their paths.
    ensures tree { IfOk result (IsTreeOf (B.objects backend.new).trees (values_to_write
        merge.now.resolved.items merge.now.conflicts.items chosen.now)) }
    // No object but trees was added, and none has changed.
    ensures objects { AddsTrees (B.objects backend.old) (B.objects backend.new) }
    // An error is `Memory`, that of paths that form no tree or are too deep, or one of writing a
    // tree.
    ensures error { IfErr result (IsWriteBackError B.objects B.may_fail_to_write backend.old
        (values_to_write merge.now.resolved.items merge.now.conflicts.items chosen.now)) }
    // The directories were written at their own paths, one after the other.
    ensures writes { WritesDirectories B.may_write (B.objects backend.new).trees (values_to_write
        merge.now.resolved.items merge.now.conflicts.items chosen.now) backend.old backend.new
        result }
{
    let trie = values_trie(alloc, merge, chosen)?;
    write_directory(alloc, backend, RepoPath::root(), &trie, MAX_LEVELS)
}
