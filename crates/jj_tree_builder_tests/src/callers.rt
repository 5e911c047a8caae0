//! Proved callers of tree builders.
ghost use Rattle.std.specs.Prelude.{◌≡◌, ◌++◌, ◌∷◌, [], Some, None, IfOk};
ghost use Rattle.jj_paths.specs.Paths.{IsBelow, Path};
ghost use Rattle.jj_backend.specs.declared.backend.tree_value.TreeValue.TheVariants.{Tree as Directory};
ghost use Rattle.jj_trees.specs.MemoryObjects.{objects_of};
ghost use Rattle.jj_tree_builder.specs.Changes.{file_of, files_at};

use jj_backend::backend::{BackendResult, TreeId, TreeValue};
use jj_paths::repo_path::RepoPathBuf;
use jj_tree_builder::laws::change_laws;
use jj_tree_builder::tree_builder::TreeBuilder;
use jj_trees::memory_backend::MemoryBackend;
use std::alloc::Global;

/// Writes a tree with a value at one path. The tree has it there, and at each path that is not at,
/// above or below it what the first tree has.
pub fn write_with(
    alloc: Global,
    backend: &mut MemoryBackend,
    root: TreeId,
    path: RepoPathBuf,
    value: TreeValue,
) -> BackendResult<TreeId>
    ensures there { IfOk result (λ id. files_at (objects_of backend.new).trees
        (Some (Directory id)) path ≡ file_of (Some value)) }
    ensures elsewhere { IfOk result (λ id. (place : Path) → (IsBelow place path → ⊥)
        → (IsBelow path place → ⊥) → files_at (objects_of backend.new).trees (Some (Directory id))
        place ≡ files_at (objects_of backend.new).trees (Some (Directory root)) place) }
{
    change_laws();
    let mut builder = TreeBuilder::new(alloc, root);
    builder.set(path, value)?;
    builder.write_tree(alloc, backend)
}

/// Writes a tree without what is at one path and below it.
pub fn write_without(
    alloc: Global,
    backend: &mut MemoryBackend,
    root: TreeId,
    path: RepoPathBuf,
) -> BackendResult<TreeId>
    ensures { IfOk result (λ id. (rest : Path) → files_at (objects_of backend.new).trees
        (Some (Directory id)) (path ++ rest) ≡ None) }
{
    change_laws();
    let mut builder = TreeBuilder::new(alloc, root);
    builder.remove(path)?;
    builder.write_tree(alloc, backend)
}
