//! The commit record, with its clone and equality, and the root commit.
ghost use Rattle.std.specs.Prelude.{◌≡◌, map, IfOk, string_bytes};
ghost use Rattle.std.specs.Cmp;
ghost use Rattle.jj_backend.specs.RecordLaws.{commit_equiv};
ghost use Rattle.jj_backend.specs.Records.{CommitValue, origin_eq, message_eq, signers_eq, commit_eq, no_signature, root_commit};

use super::merged_parts::{clone_strings, clone_trees, equal_strings};
use super::{MillisSinceEpoch, SecureSig, Signature, Timestamp};
use jj_ids::object_id::{ChangeId, CommitId, TreeId};
use jj_merges::merge::Merge;
use std::alloc::{AllocError, Global};
use std::marker::Model;

/// A commit: its ancestry, its tree, its change id and description, and its author and committer.
/// In a commit with conflicts, `root_tree` and `conflict_labels` are unresolved merges.
#[derive(Debug, Drop)]
pub struct Commit {
    pub parents: Vec<CommitId>,
    pub predecessors: Vec<CommitId>,
    pub root_tree: Merge<TreeId>,
    pub conflict_labels: Merge<String>,
    pub change_id: ChangeId,
    pub description: String,
    pub author: Signature,
    pub committer: Signature,
    pub secure_sig: Option<SecureSig>,
}

impl Model for Commit {
    ghost Value = { CommitValue };

    ghost view = { λ c. record {
      parents = c.parents.items;
      predecessors = c.predecessors.items;
      root_tree = c.root_tree;
      conflict_labels = map string_bytes c.conflict_labels;
      change_id = c.change_id;
      description = string_bytes c.description;
      author = c.author;
      committer = c.committer;
      secure_sig = c.secure_sig;
    } };
}

impl Commit {
    fn has_same_origin(&self, other: &Commit) -> bool
        ensures { result ≡ origin_eq self.now other.now }
    {
        self.parents == other.parents
            && (self.predecessors == other.predecessors && self.root_tree == other.root_tree)
    }

    fn has_same_message(&self, other: &Commit) -> bool
        ensures { result ≡ message_eq self.now other.now }
    {
        equal_strings(&self.conflict_labels, &other.conflict_labels)
            && (self.change_id == other.change_id && self.description == other.description)
    }

    fn has_same_signers(&self, other: &Commit) -> bool
        ensures { result ≡ signers_eq self.now other.now }
    {
        self.author == other.author
            && (self.committer == other.committer && self.secure_sig == other.secure_sig)
    }
}

fn clone_ids(ids: &Vec<CommitId>) -> Result<Vec<CommitId>, AllocError>
    ensures { IfOk result (λ copy. copy.items ≡ ids.now.items) }
{
    ids.clone()
}

fn clone_sig(sig: &Option<SecureSig>) -> Result<Option<SecureSig>, AllocError>
    ensures { IfOk result (λ copy. copy ≡ sig.now) }
{
    match sig {
        Some(sig) => Ok(Some(sig.clone()?)),
        None => Ok(None),
    }
}

/// Clones the tree and the labels with the allocator of the description.
impl Clone for Commit {
    ghost is_clone = { λ commit c. c ≡ commit };

    fn clone(&self) -> Result<Self, AllocError> {
        let alloc = *self.description.allocator();
        Ok(Commit {
            parents: clone_ids(&self.parents)?,
            predecessors: clone_ids(&self.predecessors)?,
            root_tree: clone_trees(alloc, &self.root_tree)?,
            conflict_labels: clone_strings(alloc, &self.conflict_labels)?,
            change_id: self.change_id.clone()?,
            description: self.description.clone()?,
            author: self.author.clone()?,
            committer: self.committer.clone()?,
            secure_sig: clone_sig(&self.secure_sig)?,
        })
    }
}

impl PartialEq for Commit {
    ghost eq = { commit_eq };

    ghost laws = { Cmp.partial_equiv_from_equiv commit_equiv };

    fn eq(&self, other: &Commit) -> bool {
        self.has_same_origin(other)
            && (self.has_same_message(other) && self.has_same_signers(other))
    }
}

impl Eq for Commit {
    ghost laws = { commit_equiv };
}

// The author and committer of the root commit: no name, no email, the Unix epoch.
fn empty_signature(alloc: Global) -> Signature
    ensures { result ≡ no_signature }
{
    Signature {
        name: String::new(alloc),
        email: String::new(alloc),
        timestamp: Timestamp {
            timestamp: MillisSinceEpoch(0),
            tz_offset: 0,
        },
    }
}

/// Returns the root commit, the ancestor of all other commits. All its fields but the change id
/// and the tree are empty. Does not allocate.
pub fn make_root_commit(alloc: Global, root_change_id: ChangeId, empty_tree_id: TreeId) -> Commit
    ensures { result ≡ root_commit root_change_id empty_tree_id }
{
    Commit {
        parents: Vec::new(alloc),
        predecessors: Vec::new(alloc),
        root_tree: Merge::resolved(alloc, empty_tree_id),
        conflict_labels: Merge::resolved(alloc, String::new(alloc)),
        change_id: root_change_id,
        description: String::new(alloc),
        author: empty_signature(alloc),
        committer: empty_signature(alloc),
        secure_sig: None,
    }
}
