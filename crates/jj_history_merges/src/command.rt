//! The command that merges.
ghost use Rattle.std.specs.Prelude.{ℕ, List, IfOk};
ghost use Rattle.jj_history_commands.specs.Operands.{IsCommitOf};
ghost use Rattle.jj_history_merges.specs.CommitMerges.{IsMergeCommit};

use crate::error::MergeError;
use crate::merging::{SideNames, merge_commits};
use crate::report::describe_merge;
use jj_backend::backend::{Backend, CommitId};
use jj_conflicts::conflicts::ConflictMarkerStyle;
use jj_history::names::CommitNames;
use jj_history_commands::revisions::commit_of;
use std::alloc::Global;
use std::collections::BTreeMap;

/// The name of the last merge.
pub const MERGE_REF: &str = "MERGE";

/// Merges the commits that two revisions name. Returns the commit that was written, and a
/// description. Fails as `commit_of` and `merge_commits` do.
pub fn merge_revisions<B: Backend>(
    alloc: Global,
    store: &mut B,
    refs: &BTreeMap<String, CommitId>,
    git_ids: &BTreeMap<String, CommitId>,
    first: &str,
    second: &str,
    style: ConflictMarkerStyle,
) -> Result<(CommitId, String), MergeError>
    // The parents of the commit are the commits that the revisions name, in order.
    ensures parents { IfOk result (λ merged. (left : List ℕ) × (right : List ℕ) × (tree : List ℕ)
        × IsCommitOf (B.objects store.old) refs.now git_ids.now first.now left
        × IsCommitOf (B.objects store.old) refs.now git_ids.now second.now right
        × IsMergeCommit (B.objects store.new) merged.0 left right tree) }
{
    let left = commit_of(alloc, store, refs, git_ids, first)?;
    let right = commit_of(alloc, store, refs, git_ids, second)?;
    let sides = SideNames {
        first: String::from_str(alloc, first)?,
        second: String::from_str(alloc, second)?,
    };
    let merge = merge_commits(alloc, store, &left, &right, &sides, style)?;
    let names = CommitNames::new(alloc, refs, git_ids)?;
    let description = describe_merge(alloc, &names, &merge)?;
    Ok((merge.id, description))
}
