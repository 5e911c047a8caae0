//! Callers of `jj_store_walks`.
ghost use Rattle.std.specs.Prelude.{IfOk};
ghost use Rattle.jj_dag.specs.Outcomes.{IfFails};
ghost use Rattle.jj_store_walks.specs.Histories.{AreFoundAncestors, AreHeadCommits, IsGroupedHistory, IsHistoryError, TakesGreatestHeads};

use jj_backend::backend::{Backend, BackendError, BackendResult, CommitId};
use jj_dag::walk_error::WalkError;
use jj_store_walks::{HistoryError, ReadCommit};
use std::alloc::{AllocError, Global};
use std::collections::HashSet;

/// `ancestors`.
pub fn ancestors<B: Backend>(
    alloc: Global,
    store: &B,
    ids: &[CommitId],
) -> Result<Vec<BackendResult<ReadCommit>>, AllocError>
    ensures { IfOk result (λ found. AreFoundAncestors (B.objects store.now) (B.may_fail store.now)
        ids.now found.items) }
{
    let found = jj_store_walks::ancestors(alloc, store, ids)?;
    Ok(found)
}

/// `head_commits`.
pub fn head_commits<B: Backend>(
    alloc: Global,
    store: &B,
    ids: Vec<CommitId>,
) -> Result<HashSet<CommitId>, WalkError<BackendError>>
    ensures { IfOk result (λ heads.
        AreHeadCommits (B.objects store.now) ids.items heads.keys) }
{
    jj_store_walks::head_commits(alloc, store, ids)
}

/// `grouped_history`.
pub fn grouped_history<B: Backend>(
    alloc: Global,
    store: &B,
    ids: &[CommitId],
) -> Result<Vec<ReadCommit>, WalkError<HistoryError>>
    ensures order { IfOk result (λ order.
        IsGroupedHistory (B.objects store.now) ids.now order.items) }
    ensures error { IfFails result (IsHistoryError (B.objects store.now) (B.may_fail store.now)
        ids.now) }
{
    jj_store_walks::grouped_history(alloc, store, ids)
}

/// `history_ids`.
pub fn history_ids<B: Backend>(
    alloc: Global,
    store: &B,
    ids: &[CommitId],
) -> Result<Vec<CommitId>, WalkError<HistoryError>>
    ensures { IfOk result (λ order.
        TakesGreatestHeads (B.objects store.now) order.items) }
{
    let order = jj_store_walks::history_ids(alloc, store, ids)?;
    Ok(order)
}
