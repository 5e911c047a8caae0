//! A proved caller of `resolve`: the revision that an error quotes.
ghost use Rattle.std.specs.Prelude.{◌≡◌, IfOk, IfSome, None, string_bytes};
ghost use Rattle.jj_excerpts.specs.Excerpts.{excerpt_of};
ghost use Rattle.jj_history.specs.Revisions.{ref_commit};

use jj_history::error::RevisionError;
use jj_history::revisions::resolve;
use jj_ids::object_id::CommitId;
use std::alloc::{AllocError, Global};
use std::collections::BTreeMap;

/// Returns the start of a revision that is not the name of one commit, in double quotes and
/// escaped.
pub fn quoted_name(
    alloc: Global,
    refs: &BTreeMap<String, CommitId>,
    git_ids: &BTreeMap<String, CommitId>,
    ids: &[CommitId],
    revision: &str,
) -> Result<Option<String>, AllocError>
    ensures quoted { IfOk result (λ found. IfSome found
        (λ quoted. string_bytes quoted ≡ excerpt_of revision.now)) }
    // No ref has this name.
    ensures no_ref { IfOk result (λ found. IfSome found
        (λ _. ref_commit refs.now revision.now ≡ None)) }
{
    match resolve(alloc, refs, git_ids, ids, revision) {
        Ok(_id) => Ok(None),
        Err(RevisionError::Unknown { quoted }) => Ok(Some(quoted)),
        Err(RevisionError::Ambiguous { quoted }) => Ok(Some(quoted)),
        Err(RevisionError::Memory) => Err(AllocError),
    }
}
