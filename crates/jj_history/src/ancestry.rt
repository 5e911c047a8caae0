//! Heads and merge bases, as lists.
ghost use Rattle.std.specs.Prelude.{◌≡◌, ◌++◌, ◌∷◌, [], IfOk};
ghost use Rattle.jj_dag.specs.Outcomes.{IfFails};
ghost use Rattle.jj_store_walks.specs.Histories.{AreHeadCommits, AreMergeBases, IsErrorBelow, IsReadErrorBelow};

use jj_backend::backend::{Backend, BackendError};
use jj_dag::walk_error::WalkError;
use jj_ids::object_id::CommitId;
use jj_store_walks::{ReadCommit, head_commits, merge_bases};
use std::alloc::{AllocError, Global};
use std::collections::HashSet;

// Returns the members of a set.
fn members(alloc: Global, set: &HashSet<CommitId>) -> Result<Vec<CommitId>, AllocError>
    ensures { IfOk result (λ ids. ids.items ≡ set.now.keys) }
{
    let mut ids = Vec::new(alloc);
    for id in set {
        ids.push(id.clone()?)?;
    }
    Ok(ids)
}

/// Returns the commits of `ids` that are no proper ancestor of another one, each once. Fails with
/// `Node` of the error of the first failed read, and with `Memory` if memory runs out.
pub fn heads<B: Backend>(
    alloc: Global,
    store: &B,
    ids: Vec<CommitId>,
) -> Result<Vec<CommitId>, WalkError<BackendError>>
    // The heads are those of `ids` that are no ancestors of others, each once.
    ensures heads { IfOk result (λ heads.
        AreHeadCommits (B.objects store.now) ids.items heads.items) }
    // An error but `Memory` is that of a failed read of one of `ids` or of an ancestor.
    ensures error { IfFails result
        (IsReadErrorBelow (B.objects store.now) (B.may_fail store.now) ids.items) }
{
    let found = head_commits(alloc, store, ids)?;
    let heads = members(alloc, &found)?;
    Ok(heads)
}

fn single(alloc: Global, id: &CommitId) -> Result<Vec<CommitId>, AllocError>
    ensures { IfOk result (λ ids. ids.items ≡ id.now ∷ []) }
{
    let mut ids = Vec::new(alloc);
    ids.push(id.clone()?)?;
    Ok(ids)
}

/// Returns the merge bases of a commit and a merge of the others: the common ancestors that are no
/// proper ancestor of another one. Fails with `Node` of the error of the first failed read, and
/// with `Memory` if memory runs out.
pub fn bases<B: Backend>(
    alloc: Global,
    store: &B,
    first: &CommitId,
    others: &[CommitId],
) -> Result<Vec<ReadCommit>, WalkError<BackendError>>
    // If no common ancestor is on a cycle, the commits are exactly the common ancestors that are no
    // proper ancestor of another one, as the store has them.
    ensures bases { IfOk result (λ bases. AreMergeBases (B.objects store.now)
        (first.now ∷ []) others.now bases.items) }
    // An error but `Memory` is one that a read of an ancestor of one of the commits may return.
    ensures error { IfFails result (IsErrorBelow (B.objects store.now) (B.may_fail store.now)
        ((first.now ∷ []) ++ others.now)) }
{
    let firsts = single(alloc, first)?;
    merge_bases(alloc, store, &firsts, others)
}
