//! The ancestors of some commits by depth-first search, as far as they can be read.
ghost use Rattle.std.specs.Prelude.{IfOk};
ghost use Rattle.jj_store_walks.specs.Histories.{AreFoundAncestors};

use crate::read_commit::ReadCommit;
use crate::reads::read_each;
use jj_backend::backend::{Backend, BackendResult, CommitId};
use jj_walks::dag_walk::collect_dfs_ok;
use std::alloc::{AllocError, Global};

/// Returns the ancestors of `ids`, each once, with the error of each failed read. A failed read
/// does not end the walk. Fails if memory runs out. Reads a commit for each id of `ids` and of the
/// parents found.
pub fn ancestors<B: Backend>(
    alloc: Global,
    store: &B,
    ids: &[CommitId],
) -> Result<Vec<BackendResult<ReadCommit>>, AllocError>
    // The results are the ancestors that can be read, each once, and the error of each failed read.
    ensures { IfOk result (λ found. AreFoundAncestors (B.objects store.now) (B.may_fail store.now)
        ids.now found.items) }
{
    collect_dfs_ok(
        alloc,
        read_each(alloc, store, ids),
        |commit: &ReadCommit| commit.id.clone(),
        |commit: &ReadCommit| read_each(alloc, store, &commit.commit.parents),
    )
}
