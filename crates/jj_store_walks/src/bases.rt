//! The merge bases of two sets of commits: closest common nodes by best-first search.
ghost use Rattle.std.specs.Prelude.{◌++◌, IfOk};
ghost use Rattle.jj_dag.specs.Outcomes.{IfFails};
ghost use Rattle.jj_store_walks.specs.Histories.{AreMergeBases, IsErrorBelow};

use crate::read_commit::{ReadCommit, read_all};
use jj_backend::backend::{Backend, BackendError, CommitId};
use jj_dag::dag_walk_async::closest_common_nodes;
use jj_dag::walk_error::WalkError;
use std::alloc::Global;

/// Returns the common ancestors of both sets that are no proper ancestor of another one. Fails with
/// `Node` of the error of the first failed read, and with `Memory` if memory runs out.
pub fn merge_bases<B: Backend>(
    alloc: Global,
    store: &B,
    set1: &[CommitId],
    set2: &[CommitId],
) -> Result<Vec<ReadCommit>, WalkError<BackendError>>
    // If no common ancestor is on a cycle, the commits are exactly the common ancestors of both
    // sets that are no proper ancestor of another one, as the store has them.
    ensures bases { IfOk result (λ bases. AreMergeBases (B.objects store.now) set1.now set2.now
        bases.items) }
    // An error but `Memory` is one that a read of an ancestor of one of the commits may return.
    ensures error { IfFails result (IsErrorBelow (B.objects store.now) (B.may_fail store.now)
        (set1.now ++ set2.now)) }
{
    let commits1 = match read_all(alloc, store, set1) {
        Ok(commits) => commits,
        Err(error) => return Err(WalkError::Node(error)),
    };
    let commits2 = match read_all(alloc, store, set2) {
        Ok(commits) => commits,
        Err(error) => return Err(WalkError::Node(error)),
    };
    closest_common_nodes(
        alloc,
        commits1,
        commits2,
        |commit: &ReadCommit| commit.id.clone(),
        |commit: &ReadCommit| read_all(alloc, store, &commit.commit.parents),
    )
}
