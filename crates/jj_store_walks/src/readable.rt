//! The ancestors of some commits that can be read, apart from the errors of the other reads.
ghost use Rattle.std.specs.Prelude.{◌≡◌, IfOk};
ghost use Rattle.jj_dag.specs.FallibleGraphs.{ok_items};
ghost use Rattle.jj_store_walks.specs.Histories.{AreReadableAncestors, found_errors};

use crate::ancestry::ancestors;
use crate::read_commit::ReadCommit;
use jj_backend::backend::{Backend, BackendError, BackendResult, CommitId};
use std::alloc::{AllocError, Global};

/// The commits that a walk over ancestors read, and the error of each read that failed.
#[derive(Drop)]
pub struct ReadableAncestors {
    pub commits: Vec<ReadCommit>,
    pub errors: Vec<BackendError>,
}

// Parts the commits from the errors.
fn part(
    alloc: Global,
    found: Vec<BackendResult<ReadCommit>>,
) -> Result<ReadableAncestors, AllocError>
    ensures commits { IfOk result (λ parts. parts.commits.items ≡ ok_items found.items) }
    ensures errors { IfOk result (λ parts. parts.errors.items ≡ found_errors found.items) }
{
    let mut commits = Vec::new(alloc);
    let mut errors = Vec::new(alloc);
    for item in found {
        match item {
            Ok(commit) => commits.push(commit)?,
            Err(error) => errors.push(error)?,
        }
    }
    Ok(ReadableAncestors { commits, errors })
}

/// Returns the ancestors of `ids` that can be read, each once, and the errors of the reads that
/// failed, one of each. An ancestor without a commit is one that failed, or one below it; without
/// an error the commits are all ancestors. Fails if memory runs out.
pub fn readable_ancestors<B: Backend>(
    alloc: Global,
    store: &B,
    ids: &[CommitId],
) -> Result<ReadableAncestors, AllocError>
    // The commits are the ancestors that can be read, each once, and the errors are those of the
    // reads that failed.
    ensures { IfOk result (λ found. AreReadableAncestors (B.objects store.now)
        (B.may_fail store.now) ids.now found.commits.items found.errors.items) }
{
    let found = ancestors(alloc, store, ids)?;
    part(alloc, found)
}
