//! The ids of a history in topological order, for callers that list it.
ghost use Rattle.std.specs.Prelude.{◌≡◌, IfOk, map};
ghost use Rattle.jj_dag.specs.NodeGraph.{IsChildFirstOrder};
ghost use Rattle.jj_dag.specs.Outcomes.{IfFails};
ghost use Rattle.jj_store_walks.specs.Histories.{InEachHistory, IsHistoryError, TakesGreatestHeads};
ghost use Rattle.jj_store_walks.specs.ReadCommits.{id_of};

use crate::order::{HistoryError, history_order};
use crate::read_commit::ReadCommit;
use jj_backend::backend::{Backend, CommitId};
use jj_dag::walk_error::WalkError;
use std::alloc::{AllocError, Global};

// Returns the ids of these commits, in their order.
fn ids_of(alloc: Global, commits: &[ReadCommit]) -> Result<Vec<CommitId>, AllocError>
    ensures { IfOk result (λ ids. ids.items ≡ map id_of commits.now) }
{
    let mut ids = Vec::new(alloc);
    for commit in commits {
        ids.push(commit.id.clone()?)?;
    }
    Ok(ids)
}

/// Returns the ids of the ancestors of `ids`, each once and before its own ancestors. Each is the
/// greatest, byte by byte, of the heads of those not listed before, so the history determines the
/// list. Fails as `history_order` does.
pub fn history_ids<B: Backend>(
    alloc: Global,
    store: &B,
    ids: &[CommitId],
) -> Result<Vec<CommitId>, WalkError<HistoryError>>
    // The order has the ancestors of `ids`, each once and before its own ancestors.
    ensures order { IfOk result (λ order. InEachHistory (B.objects store.now)
        (λ parents. IsChildFirstOrder parents ids.now order.items)) }
    // Where there is a choice, the greatest id comes first.
    ensures greatest { IfOk result (λ order.
        TakesGreatestHeads (B.objects store.now) order.items) }
    // An error but `Memory` is that of a failed read of such an ancestor, or of a cycle.
    ensures error { IfFails result (IsHistoryError (B.objects store.now) (B.may_fail store.now)
        ids.now) }
{
    let commits = history_order(alloc, store, ids)?;
    Ok(ids_of(alloc, &commits)?)
}
