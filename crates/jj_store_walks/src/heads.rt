//! The heads of some commits: maximal elements by breadth-first search.
ghost use Rattle.std.specs.Prelude.{IfOk};
ghost use Rattle.jj_dag.specs.Outcomes.{IfFails};
ghost use Rattle.jj_store_walks.specs.Histories.{AreHeadCommits, IsReadErrorBelow};

use crate::read_commit::parent_ids;
use jj_backend::backend::{Backend, BackendError, CommitId};
use jj_dag::dag_walk_async::heads;
use jj_dag::walk_error::WalkError;
use std::alloc::Global;
use std::collections::HashSet;

/// Returns the commits of `ids` that are no proper ancestor of another one. Fails with `Node` of
/// the error of the first failed read, and with `Memory` if memory runs out.
pub fn head_commits<B: Backend>(
    alloc: Global,
    store: &B,
    ids: Vec<CommitId>,
) -> Result<HashSet<CommitId>, WalkError<BackendError>>
    // The heads are those of `ids` that are no ancestors of others.
    ensures heads { IfOk result (λ heads.
        AreHeadCommits (B.objects store.now) ids.items heads.keys) }
    // An error but `Memory` is that of a failed read of one of `ids` or of an ancestor.
    ensures error { IfFails result
        (IsReadErrorBelow (B.objects store.now) (B.may_fail store.now) ids.items) }
{
    heads(
        alloc,
        ids,
        |id: &CommitId| id.clone(),
        |id: &CommitId| parent_ids(alloc, store, id),
    )
}
