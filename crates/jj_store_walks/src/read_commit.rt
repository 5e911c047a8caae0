//! Commits with their ids, which compare by these, and reads of them.
ghost use Rattle.std.specs.Prelude.{◌≡◌, ◌⊎◌, All, IfErr, IfOk, Some, map, refl};
ghost use Rattle.std.specs.Cmp;
ghost use Rattle.std.specs.Cmp.{on_equiv, on_total, po};
ghost use Rattle.std.specs.Cmp.Lexicographic.{nat_list_cmp_total, nat_list_eq_equiv, slice_cmp, texts_ties};
ghost use Rattle.std.specs.Ordering.{nat_cmp};
ghost use Rattle.std.specs.Str.{bytes_eq};
ghost use Rattle.jj_store_walks.specs.ReadCommits.{AreParentIds, IsErrorOfIds, IsReadError, IsStored, id_of};
ghost use Rattle.jj_backend.specs.declared.backend.errors.BackendError;

use jj_backend::backend::{Backend, BackendError, BackendResult, Commit, CommitId};
use std::alloc::Global;
use std::cmp::Ordering;

/// A commit and its id. Commits compare by their ids.
#[derive(Drop)]
pub struct ReadCommit {
    pub id: CommitId,
    pub commit: Commit,
}

impl PartialEq for ReadCommit {
    ghost eq = { λ a b. bytes_eq (id_of a) (id_of b) };

    ghost laws = { Cmp.partial_equiv_from_equiv (on_equiv id_of nat_list_eq_equiv) };

    fn eq(&self, other: &ReadCommit) -> bool {
        self.id == other.id
    }
}

impl Eq for ReadCommit {
    ghost laws = { on_equiv id_of nat_list_eq_equiv };
}

impl PartialOrd for ReadCommit {
    ghost partial_cmp = { λ a b. Some (slice_cmp nat_cmp (id_of a) (id_of b)) };

    ghost laws = { po (on_total id_of nat_list_cmp_total)
        (λ a b. texts_ties (id_of a) (id_of b)) };

    fn partial_cmp(&self, other: &ReadCommit) -> Option<Ordering> {
        Some(self.cmp(other))
    }
}

impl Ord for ReadCommit {
    ghost cmp = { λ a b. slice_cmp nat_cmp (id_of a) (id_of b) };

    ghost total = { on_total id_of nat_list_cmp_total };

    ghost matches_partial_cmp = { λ a b. refl };

    ghost matches_eq = { λ a b. texts_ties (id_of a) (id_of b) };

    fn cmp(&self, other: &ReadCommit) -> Ordering {
        self.id.cmp(&other.id)
    }
}

// Reads the ids of the parents of a commit.
pub(crate) fn parent_ids<B: Backend>(
    alloc: Global,
    store: &B,
    id: &CommitId,
) -> BackendResult<Vec<CommitId>>
    ensures { AreParentIds (B.may_fail store.now) (B.objects store.now) id.now result }
{
    match store.read_commit(alloc, id) {
        Ok(commit) => Ok(commit.parents),
        Err(error) => Err(error),
    }
}

// Reads the commit of this id.
pub(crate) fn read<B: Backend>(alloc: Global, store: &B, id: &CommitId) -> BackendResult<ReadCommit>
    ensures stored { IfOk result (IsStored (B.objects store.now)) }
    ensures id { IfOk result (λ c. c.id ≡ id.now) }
    ensures error { IfErr result (λ e. (e ≡ BackendError.Memory)
        ⊎ IsReadError (B.may_fail store.now) (B.objects store.now) e id.now) }
{
    let commit = store.read_commit(alloc, id)?;
    Ok(ReadCommit {
        id: id.clone()?,
        commit,
    })
}

// Reads the commits of these ids, in their order.
pub(crate) fn read_all<B: Backend>(
    alloc: Global,
    store: &B,
    ids: &[CommitId],
) -> BackendResult<Vec<ReadCommit>>
    ensures ids { IfOk result (λ commits. map id_of commits.items ≡ ids.now) }
    ensures stored { IfOk result (λ commits.
        All (IsStored (B.objects store.now)) commits.items) }
    ensures error { IfErr result
        (IsErrorOfIds (B.may_fail store.now) (B.objects store.now) ids.now) }
{
    let mut commits = Vec::new(alloc);
    for id in ids {
        let commit = read(alloc, store, id)?;
        commits.push(commit)?;
    }
    Ok(commits)
}
