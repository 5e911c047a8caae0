//! The initial objects of an in-memory backend: the empty tree and the root commit.
ghost use Rattle.std.specs.Prelude.{◌≡◌, ◌≤◌, [], ◌∷◌, IfOk, replicate};
ghost use Rattle.jj_backend.specs.Records.{root_commit};
ghost use Rattle.jj_backend.specs.TreeLaws.{tree_content};
ghost use Rattle.jj_trees.specs.MemoryObjects.{digest_length, object_id};

use super::object_maps::{content_id, single_object};
use jj_backend::backend::{ChangeId, Commit, CommitId, Tree, TreeId, make_root_commit};
use jj_ids::object_id::{Id, IdKind};
use std::alloc::{AllocError, Global};
use std::collections::BTreeMap;

pub(super) fn zero_id<K: IdKind>(alloc: Global, length: usize) -> Result<Id<K>, AllocError>
    ensures { IfOk result (λ id. id ≡ replicate length 0) }
{
    Ok(Id::new(Vec::from_elem(alloc, 0, length)?))
}

// Returns the id of the empty tree, and the map of trees that stores it.
pub(super) fn initial_trees(
    alloc: Global,
    id_length: usize,
) -> Result<(TreeId, BTreeMap<TreeId, Tree>), AllocError>
    requires { id_length ≤ digest_length }
    ensures id { IfOk result (λ stored. stored.0 ≡ object_id id_length (tree_content [])) }
    ensures tree { IfOk result (λ stored. stored.1.entries ≡ (stored.0, []) ∷ []) }
{
    let tree = Tree::default(alloc);
    let id: TreeId = content_id(alloc, id_length, &tree)?;
    let trees = single_object(alloc, id.clone()?, tree)?;
    Ok((id, trees))
}

// Returns the map of commits that stores the root commit.
pub(super) fn initial_commits(
    alloc: Global,
    id: &CommitId,
    change_id: &ChangeId,
    tree_id: &TreeId,
) -> Result<BTreeMap<CommitId, Commit>, AllocError>
    ensures { IfOk result (λ stored.
        stored.entries ≡ (id.now, root_commit change_id.now tree_id.now) ∷ []) }
{
    let commit = make_root_commit(alloc, change_id.clone()?, tree_id.clone()?);
    single_object(alloc, id.clone()?, commit)
}
