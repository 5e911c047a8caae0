//! Records and collections of ids.
ghost use Rattle.std.specs.Prelude.{◌≡◌, ℕ, List, [], ◌∷◌, ◌++◌, IfOk, OnErr, IsTrue, ◌↔◌, Some, None, MatchOption, Option, ⊤};
ghost use Rattle.std.specs.BTreeMap.{get_by};
ghost use Rattle.std.specs.Ordering.{nat_cmp};
ghost use Rattle.std.specs.Cmp.Lexicographic.{slice_cmp};
ghost use Rattle.std.specs.Option.{option_copied};
ghost use Rattle.jj_ids_tests.specs.Histories.{parents_of};

use jj_ids::object_id::{ChangeId, CommitId, CopyId, FileId, ObjectId, SymlinkId, TreeId};
use jj_ids::ref_name::{RefName, RefNameBuf, RemoteName, WorkspaceNameBuf};
use std::alloc::{AllocError, Global};
use std::collections::{BTreeMap, BTreeSet, HashMap};

/// A new value of a path.
#[derive(Clone, Debug, PartialEq, Eq, PartialOrd, Ord, Hash, Drop)]
pub enum Written {
    File { id: FileId, copy: CopyId },
    Symlink(SymlinkId),
}

/// The ids of a commit.
#[derive(Clone, Debug, PartialEq, Eq, PartialOrd, Ord, Hash, Drop)]
pub struct Commit {
    pub parents: Vec<CommitId>,
    pub change_id: ChangeId,
    pub root: TreeId,
}

impl Commit {
    /// Returns the parent of a commit that has exactly one.
    pub fn only_parent(&self) -> Option<&CommitId>
        ensures { MatchOption result ⊤ (λ id. parents_of self.now ≡ id.now ∷ []) }
    {
        match self.parents.as_slice() {
            [id] => Some(id),
            _ => None,
        }
    }

    /// Clones the change id.
    pub fn change(&self) -> Result<ChangeId, AllocError>
        ensures { IfOk result (λ id. id ≡ self.now.change_id) }
    {
        self.change_id.clone()
    }
}

/// Looks up the name of a commit.
pub fn name_of_commit<'a>(
    names: &'a BTreeMap<CommitId, RefNameBuf>,
    id: &CommitId,
) -> Option<&'a RefNameBuf>
    ensures { option_copied result ≡ get_by (slice_cmp nat_cmp id.now) names.now }
{
    names.get(id)
}

pub fn count(ids: &HashMap<ChangeId, u64>, id: &ChangeId) -> Option<u64> {
    ids.get(id).copied()
}

pub fn is_known(ids: &BTreeSet<TreeId>, id: &TreeId) -> bool {
    ids.contains(id)
}

/// Converts a commit id to a tree id with the same bytes.
pub fn tree_of_commit(id: &CommitId, alloc: Global) -> Result<TreeId, AllocError>
    ensures { IfOk result (λ tree. tree ≡ id.now) }
{
    TreeId::from_bytes(alloc, id.as_bytes())
}

pub fn workspaces(alloc: Global) -> BTreeMap<WorkspaceNameBuf, CommitId>
    ensures { result.entries ≡ [] }
{
    BTreeMap::new(alloc)
}

pub fn has_own_name(name: RefName<'_>, remote: RemoteName<'_>) -> bool {
    name.to_remote_symbol(remote).name == name
}
