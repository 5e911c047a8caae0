//! Proved callers of commits and copy histories.
ghost use Rattle.std.specs.Prelude.{◌≡◌, ◌↔◌, IfOk, IsTrue};
ghost use Rattle.jj_paths.specs.Paths.{path_cmp};
ghost use Rattle.jj_backend.specs.Records.{commit_eq};

use jj_backend::backend::{ChangeId, Commit, CopyHistory, TreeId, make_root_commit};
use jj_content::content_hash::{content_decides, content_of};
use std::alloc::{AllocError, Global};
use std::cmp::Ordering;

/// Clones a commit; the clone equals the commit.
pub fn clone_commit(commit: &Commit) -> Result<Commit, AllocError>
    ensures { IfOk result (λ copy. copy ≡ commit.now) }
{
    commit.clone()
}

/// Returns whether two commits are equal in all their fields.
pub fn are_equal(a: &Commit, b: &Commit) -> bool
    ensures { result ≡ commit_eq a.now b.now }
{
    a == b
}

/// Returns whether a copy history is less than another: it is if its path is less.
pub fn is_earlier(a: &CopyHistory, b: &CopyHistory) -> bool
    ensures { path_cmp a.now.current_path b.now.current_path ≡ Ordering.Less → IsTrue result }
{
    a < b
}

/// Returns the change id of a root commit, which is the one that it was created with.
pub fn change_of_root(alloc: Global, change: ChangeId, tree: TreeId) -> Result<ChangeId, AllocError>
    ensures { IfOk result (λ id. id ≡ change) }
{
    make_root_commit(alloc, change, tree).change_id.clone()
}

/// Returns whether two commits have the same content: they do if and only if all their fields are
/// equal.
pub fn have_equal_content(alloc: Global, a: &Commit, b: &Commit) -> Result<bool, AllocError>
    ensures { IfOk result (λ same. IsTrue same ↔ IsTrue (commit_eq a.now b.now)) }
{
    content_decides::<Commit>();
    let first = content_of(alloc, a)?;
    let second = content_of(alloc, b)?;
    Ok(first == second)
}
