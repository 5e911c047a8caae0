//! Views: the refs, heads and workspaces of a repository at one operation.
ghost use Rattle.std.specs.Prelude.{◌≡◌, [], true, IfOk};
ghost use Rattle.jj_stores.specs.Views.{IsRootView};
ghost use Rattle.jj_stores.specs.ViewLaws.{remote_view_eq, view_eq};

use super::copies::{CloneIn, clone_map};
use super::{RefTarget, RemoteRef};
use jj_backend::backend::CommitId;
use jj_ids::ref_name::{GitRefNameBuf, RefNameBuf, RemoteNameBuf, WorkspaceNameBuf};
use std::alloc::{AllocError, Global};
use std::collections::{BTreeMap, HashSet};

/// The bookmarks and tags of a remote, by name.
#[derive(Debug, PartialEq, Eq, Drop)]
pub struct RemoteView {
    pub bookmarks: BTreeMap<RefNameBuf, RemoteRef>,
    pub tags: BTreeMap<RefNameBuf, RemoteRef>,
}

impl RemoteView {
    /// Creates a view without refs.
    pub fn default(alloc: Global) -> Self
        ensures bookmarks { result.bookmarks.entries ≡ [] }
        ensures tags { result.tags.entries ≡ [] }
    {
        RemoteView {
            bookmarks: BTreeMap::new(alloc),
            tags: BTreeMap::new(alloc),
        }
    }

    /// Clones the view.
    pub fn clone(&self, alloc: Global) -> Result<Self, AllocError>
        ensures { IfOk result (λ copy. remote_view_eq copy self.now ≡ true) }
    {
        Ok(RemoteView {
            bookmarks: clone_map(alloc, &self.bookmarks)?,
            tags: clone_map(alloc, &self.tags)?,
        })
    }
}

impl CloneIn for RemoteView {
    fn clone_in(&self, alloc: Global) -> Result<Self, AllocError> {
        RemoteView::clone(self, alloc)
    }
}

/// The state of a repository at an operation: its heads, its local, remote and Git refs, and the
/// working-copy commits of its workspaces.
#[derive(Debug, PartialEq, Eq, Drop)]
pub struct View {
    pub head_ids: HashSet<CommitId>,
    pub local_bookmarks: BTreeMap<RefNameBuf, RefTarget>,
    pub local_tags: BTreeMap<RefNameBuf, RefTarget>,
    pub remote_views: BTreeMap<RemoteNameBuf, RemoteView>,
    pub git_refs: BTreeMap<GitRefNameBuf, RefTarget>,
    pub git_heads: BTreeMap<WorkspaceNameBuf, RefTarget>,
    pub wc_commit_ids: BTreeMap<WorkspaceNameBuf, CommitId>,
}

impl View {
    /// Creates the view of a repository that has only a root commit.
    pub fn make_root(alloc: Global, root_commit_id: CommitId) -> Result<Self, AllocError>
        ensures { IfOk result (IsRootView root_commit_id) }
    {
        let mut head_ids = HashSet::new(alloc);
        head_ids.insert(root_commit_id)?;
        Ok(View {
            head_ids,
            local_bookmarks: BTreeMap::new(alloc),
            local_tags: BTreeMap::new(alloc),
            remote_views: BTreeMap::new(alloc),
            git_refs: BTreeMap::new(alloc),
            git_heads: BTreeMap::new(alloc),
            wc_commit_ids: BTreeMap::new(alloc),
        })
    }

    /// Clones the view.
    pub fn clone(&self, alloc: Global) -> Result<Self, AllocError>
        ensures { IfOk result (λ copy. view_eq copy self.now ≡ true) }
    {
        Ok(View {
            head_ids: self.head_ids.clone()?,
            local_bookmarks: clone_map(alloc, &self.local_bookmarks)?,
            local_tags: clone_map(alloc, &self.local_tags)?,
            remote_views: clone_map(alloc, &self.remote_views)?,
            git_refs: clone_map(alloc, &self.git_refs)?,
            git_heads: clone_map(alloc, &self.git_heads)?,
            wc_commit_ids: self.wc_commit_ids.clone()?,
        })
    }
}
