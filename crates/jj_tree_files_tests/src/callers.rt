//! Proved callers of the files of trees.
ghost use Rattle.std.specs.Prelude.{◌≡◌, ◌≢◌, ◌↔◌, Contains, IfOk, Some};
ghost use Rattle.jj_paths.specs.Paths.{Path};
ghost use Rattle.jj_backend.specs.declared.backend.tree_value.TreeValue.{TreeValue};
ghost use Rattle.jj_backend.specs.declared.backend.tree_value.TreeValue.TheVariants.{Tree as Directory};
ghost use Rattle.jj_trees.specs.MemoryObjects.{objects_of};
ghost use Rattle.jj_tree_builder.specs.Changes.{files_at};
ghost use Rattle.jj_tree_files.specs.declared.changes.Change.{Change};

use jj_backend::backend::{BackendResult, TreeId, TreeValue};
use jj_matchers::matchers::EverythingMatcher;
use jj_paths::repo_path::RepoPathBuf;
use jj_tree_files::changes::{Change, changed_files};
use jj_tree_files::files::files_matching;
use jj_trees::memory_backend::MemoryBackend;
use std::alloc::Global;

/// Returns all files of a tree in memory.
pub fn all_files(
    alloc: Global,
    backend: &MemoryBackend,
    tree: &TreeId,
) -> BackendResult<Vec<(RepoPathBuf, TreeValue)>>
    ensures { IfOk result (λ files. (path : Path) (value : TreeValue)
        → Contains files.items (path, value)
        ↔ (files_at (objects_of backend.now).trees (Some (Directory tree.now)) path ≡ Some value)) }
{
    files_matching(alloc, backend, tree, &EverythingMatcher)
}

/// Returns all changes of files between two trees in memory.
pub fn all_changes(
    alloc: Global,
    backend: &MemoryBackend,
    before: &TreeId,
    after: &TreeId,
) -> BackendResult<Vec<Change>>
    ensures { IfOk result (λ changes. (change : Change) → Contains changes.items change
        ↔ ((change.before
        ≡ files_at (objects_of backend.now).trees (Some (Directory before.now)) change.path)
        × (change.after
        ≡ files_at (objects_of backend.now).trees (Some (Directory after.now)) change.path)
        × (change.before ≢ change.after))) }
{
    changed_files(alloc, backend, before, after, &EverythingMatcher)
}
