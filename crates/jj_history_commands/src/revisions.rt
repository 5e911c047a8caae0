//! The commits that operands name.
ghost use Rattle.std.specs.Prelude.{◌≡◌, ℕ, List, IfErr, IfOk, IfSome};
ghost use Rattle.std.specs.BTreeMap.{values};
ghost use Rattle.jj_dag.specs.NodeGraph.{IsChildFirstOrder};
ghost use Rattle.jj_store_walks.specs.Histories.{InEachHistory};
ghost use Rattle.jj_history_commands.specs.Operands.{AreLookedUp, IsCommitOf, IsWholeId};
ghost use Rattle.jj_history.specs.Revisions.{IsNamed, IsRevisionError};

use crate::error::CommandError;
use jj_backend::backend::Backend;
use jj_history::error::RevisionError;
use jj_history::revisions::{resolve, resolve_known};
use jj_ids::object_id::{CommitId, ObjectId};
use jj_store_walks::history_ids;
use std::alloc::{AllocError, Global};
use std::collections::BTreeMap;

/// Returns the commits of a map, in the order of their names.
pub fn values(alloc: Global, ids: &BTreeMap<String, CommitId>) -> Result<Vec<CommitId>, AllocError>
    ensures { IfOk result (λ commits. commits.items ≡ values ids.now) }
{
    let mut commits = Vec::new(alloc);
    for id in ids.values() {
        commits.push(id.clone()?)?;
    }
    Ok(commits)
}

// Returns the ids of the ancestors of the refs.
fn ancestor_ids<B: Backend>(
    alloc: Global,
    store: &B,
    refs: &BTreeMap<String, CommitId>,
) -> Result<Vec<CommitId>, CommandError>
    ensures { IfOk result (λ ids. InEachHistory (B.objects store.now)
        (λ parents. IsChildFirstOrder parents (values refs.now) ids.items)) }
{
    let starts = values(alloc, refs)?;
    let ids = history_ids(alloc, store, &starts)?;
    Ok(ids)
}

// Returns the commit of a ref, or the only one with a prefix among the commits that Git has ids
// for, and without such ids among the ancestors of the refs.
fn named_commit<B: Backend>(
    alloc: Global,
    store: &B,
    refs: &BTreeMap<String, CommitId>,
    git_ids: &BTreeMap<String, CommitId>,
    revision: &str,
) -> Result<Result<CommitId, RevisionError>, CommandError>
    ensures { IfOk result (λ named. (ids : List (List ℕ))
        × AreLookedUp (B.objects store.now) refs.now git_ids.now ids
        × IfOk named (IsNamed refs.now git_ids.now ids revision.now)
        × IfErr named (IsRevisionError refs.now git_ids.now ids revision.now)) }
{
    if git_ids.is_empty() {
        let ids = ancestor_ids(alloc, store, refs)?;
        return Ok(resolve(alloc, refs, git_ids, &ids, revision));
    }
    Ok(resolve_known(alloc, refs, git_ids, revision))
}

// Returns the revision as a whole id, if the store has a commit with it.
fn whole_id<B: Backend>(
    alloc: Global,
    store: &B,
    revision: &str,
) -> Result<Option<CommitId>, AllocError>
    ensures { IfOk result (λ found. IfSome found
        (IsWholeId (B.objects store.now) revision.now)) }
{
    let Some(id) = CommitId::try_from_hex(alloc, revision)? else {
        return Ok(None);
    };
    if id.as_bytes().len() != store.commit_id_length() {
        return Ok(None);
    }
    match store.read_commit(alloc, &id) {
        Ok(_) => Ok(Some(id)),
        Err(_) => Ok(None),
    }
}

// Returns the commit with this whole id, or the error that no commit has this name.
fn or_whole_id<B: Backend>(
    alloc: Global,
    store: &B,
    revision: &str,
    quoted: String,
) -> Result<CommitId, CommandError>
    ensures { IfOk result (IsWholeId (B.objects store.now) revision.now) }
{
    match whole_id(alloc, store, revision) {
        Ok(Some(id)) => Ok(id),
        Ok(None) => Err(CommandError::Revision(RevisionError::Unknown { quoted })),
        Err(_) => Err(CommandError::Memory),
    }
}

/// Returns the commit that a revision names, as `resolve` does among the commits that Git has ids
/// for, or among the ancestors of the refs if there are none; and else the commit of the store with
/// this whole id. Fails with `Revision` as `resolve` does, with `Store` and `Cycle` if the commits
/// of the ancestors cannot be read, and with `Memory` if memory runs out.
pub fn commit_of<B: Backend>(
    alloc: Global,
    store: &B,
    refs: &BTreeMap<String, CommitId>,
    git_ids: &BTreeMap<String, CommitId>,
    revision: &str,
) -> Result<CommitId, CommandError>
    // The commit is that of the ref, or the only one with this prefix, or else that with this id.
    ensures commit { IfOk result
        (IsCommitOf (B.objects store.now) refs.now git_ids.now revision.now) }
{
    match named_commit(alloc, store, refs, git_ids, revision)? {
        Ok(id) => Ok(id),
        Err(RevisionError::Unknown { quoted }) => or_whole_id(alloc, store, revision, quoted),
        Err(error) => Err(CommandError::Revision(error)),
    }
}

/// Returns the commits that revisions name. Fails as `commit_of` does.
pub fn commits_of<B: Backend>(
    alloc: Global,
    store: &B,
    refs: &BTreeMap<String, CommitId>,
    git_ids: &BTreeMap<String, CommitId>,
    revisions: &[String],
) -> Result<Vec<CommitId>, CommandError> {
    let mut ids = Vec::new(alloc);
    for revision in revisions {
        let id = commit_of(alloc, store, refs, git_ids, revision.as_str())?;
        ids.push(id)?;
    }
    Ok(ids)
}
