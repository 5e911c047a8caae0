//! The output of `merge`.
use crate::merging::CommitMerge;
use jj_backend::backend::TreeValue;
use jj_file_merges::trees::Outcome;
use jj_history::names::CommitNames;
use jj_history::quoting::push_path;
use jj_ids::object_id::{CommitId, ObjectId};
use jj_merges::conflict_labels::ConflictLabels;
use jj_merges::merge::Merge;
use jj_paths::repo_path::RepoPathBuf;
use std::alloc::{AllocError, Global};

fn push_line(output: &mut String, first: &str, second: &str) -> Result<(), AllocError> {
    output.push_str(first)?;
    output.push_str(second)?;
    output.push('\n')
}

fn push_conflict(
    alloc: Global,
    output: &mut String,
    path: &RepoPathBuf,
    outcome: &Outcome,
) -> Result<(), AllocError> {
    let word = match outcome {
        Outcome::Merged(_) => return Ok(()),
        Outcome::Marked(_) => "conflict  ",
        Outcome::Unresolved => "left out  ",
    };
    output.push_str(word)?;
    push_path(alloc, output, path.as_path().as_internal_file_string())?;
    output.push('\n')
}

fn push_conflicts(
    alloc: Global,
    output: &mut String,
    conflicts: &[(RepoPathBuf, Merge<Option<TreeValue>>, ConflictLabels)],
    outcomes: &[Outcome],
) -> Result<(), AllocError> {
    for (conflict, outcome) in conflicts.iter().zip(outcomes) {
        push_conflict(alloc, output, &conflict.0, outcome)?;
    }
    Ok(())
}

/// Returns lines with the commit of a merge, its merge base, the paths of files that have conflicts
/// between markers, and the paths of other conflicts, which are left out of the tree.
pub fn describe_merge(
    alloc: Global,
    names: &CommitNames,
    merge: &CommitMerge,
) -> Result<String, AllocError> {
    let mut output = String::new(alloc);
    push_line(&mut output, "merge     ", merge.id.hex(alloc)?.as_str())?;
    let base = names.name(alloc, &merge.base)?;
    push_line(&mut output, "base      ", base.as_str())?;
    let files = &merge.files;
    push_conflicts(alloc, &mut output, &files.merge.conflicts, &files.outcomes)?;
    Ok(output)
}
