//! The ancestors of some commits in topological order: Kahn's algorithm with a max-heap of ids.
ghost use Rattle.std.specs.Prelude.{IfOk, Result};
ghost use Rattle.std.specs.Global.{Global};
ghost use Rattle.std.specs.declared.vec.Vec.{Vec};
ghost use Rattle.jj_dag.specs.Outcomes.{IfFails};
ghost use Rattle.jj_store_walks.specs.Histories.{IsGreatestHistoryOrder, IsHistoryError, IsHistoryOrder};
ghost use Rattle.jj_store_walks.specs.HistoryItems.{AreItemsOf, ReadsHistory};

use crate::read_commit::{ReadCommit, read_all};
use jj_backend::backend::{Backend, BackendError, CommitId};
use jj_dag::dag_walk_async::topo_order_reverse_ord;
use jj_dag::list_or_error::{ListOrError, as_list_or_error};
use jj_dag::walk_error::WalkError;
use std::alloc::Global;
use std::vec::IntoIter;

/// The error of an order of ancestors.
#[derive(Drop)]
pub enum HistoryError {
    /// A commit could not be read.
    Read(BackendError),
    /// The id of an ancestor where there is a cycle.
    Cycle(CommitId),
}

// Reads the commits of these ids, in their order.
fn read_history<B: Backend>(
    alloc: Global,
    store: &B,
    ids: &[CommitId],
) -> Result<Vec<ReadCommit>, HistoryError>
    ensures { ReadsHistory (B.may_fail store.now) (B.objects store.now) ids.now result }
{
    match read_all(alloc, store, ids) {
        Ok(commits) => Ok(commits),
        Err(error) => Err(HistoryError::Read(error)),
    }
}

// Iterates over the commits of these ids, or yields the error of reading them.
fn commit_items<B: Backend>(
    alloc: Global,
    store: &B,
    ids: &[CommitId],
) -> ListOrError<IntoIter<ReadCommit>, HistoryError>
    ensures { AreItemsOf (B.may_fail store.now) (B.objects store.now) ids.now result }
{
    as_list_or_error(read_history(alloc, store, ids))
}

/// Returns the ancestors of `ids`, each once and before its own ancestors; where there is a choice,
/// the greatest id first. Fails with `Node` of `Read` of the error of a failed read or of `Cycle`
/// of some ancestor if there is a cycle, and with `Memory` if memory runs out.
pub fn history_order<B: Backend>(
    alloc: Global,
    store: &B,
    ids: &[CommitId],
) -> Result<Vec<ReadCommit>, WalkError<HistoryError>>
    // The commits are the ancestors of `ids`, each once and before its own ancestors, as the store
    // has them, and there is no cycle.
    ensures order { IfOk result (λ order.
        IsHistoryOrder (B.objects store.now) ids.now order.items) }
    // Where another such order first differs, its ID there is less, byte by byte.
    ensures greatest { IfOk result (λ order.
        IsGreatestHistoryOrder (B.objects store.now) ids.now order.items) }
    // An error but `Memory` is one that a read of an ancestor may return, or that of a cycle.
    ensures error { IfFails result (IsHistoryError (B.objects store.now) (B.may_fail store.now)
        ids.now) }
{
    topo_order_reverse_ord(
        alloc,
        commit_items(alloc, store, ids),
        |commit: &ReadCommit| commit.id.clone(),
        |commit: &ReadCommit| commit_items(alloc, store, &commit.commit.parents),
        |commit: ReadCommit| HistoryError::Cycle(commit.id),
    )
}
