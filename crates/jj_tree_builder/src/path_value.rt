//! The value at a path of a tree, name by name from the root.
ghost use Rattle.std.specs.Prelude.{◌≡◌, Some, IfOk};
ghost use Rattle.jj_paths.specs.Names.{name_of, path_of};
ghost use Rattle.jj_backend.specs.declared.backend.tree_value.TreeValue.TheVariants.{Tree as Directory};
ghost use Rattle.jj_trees.specs.TreeMerges.{child};
ghost use Rattle.jj_trees.specs.WrittenTrees.{stored_at};

use jj_backend::backend::{Backend, BackendResult, TreeId, TreeValue};
use jj_paths::repo_path::{RepoPath, RepoPathComponent};
use std::alloc::Global;

// Returns the value of an entry of a directory; `None` where there is no directory.
fn entry_value<B: Backend>(
    alloc: Global,
    backend: &B,
    path: RepoPath<'_>,
    value: &Option<TreeValue>,
    name: RepoPathComponent<'_>,
) -> BackendResult<Option<TreeValue>>
    ensures { IfOk result (λ found. found
        ≡ child (B.objects backend.now).trees (name_of name.entry) value.now) }
{
    match value {
        Some(TreeValue::Tree(id)) => match backend.read_tree(alloc, path, id)?.value(name) {
            Some(value) => Ok(Some(value.clone()?)),
            None => Ok(None),
        },
        _ => Ok(None),
    }
}

/// Returns the value at a path of the tree with this id, `None` if there is none. Fails with any
/// error of `read_tree`. Reads a tree for each name of the path.
pub fn path_value<B: Backend>(
    alloc: Global,
    backend: &B,
    root: &TreeId,
    path: RepoPath<'_>,
) -> BackendResult<Option<TreeValue>>
    // The result is the value that the store has at the path.
    ensures { IfOk result (λ value. value ≡ stored_at (B.objects backend.now).trees
        (Some (Directory root.now)) (path_of path.entry)) }
{
    let mut value = Some(TreeValue::Tree(root.clone()?));
    let mut rest = path;
    while let Some((name, below)) = rest.split_first() {
        value = entry_value(alloc, backend, path, &value, name)?;
        rest = below;
    }
    Ok(value)
}
