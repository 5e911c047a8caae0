//! Proved callers: a merge of three versions whose conflicts are rendered and parsed.
ghost use Rattle.std.specs.Prelude.{◌≡◌, ◌∷◌, [], true, IfOk};
ghost use Rattle.jj_diff.specs.Inputs.{bytes_of};
ghost use Rattle.jj_conflicts.specs.Lines.{is_terminated};
ghost use Rattle.jj_conflicts_tests.specs.Merges.{ComesBack};

use jj_conflicts::conflicts::{
    ConflictMarkerStyle, choose_materialized_conflict_marker_len, materialize, parse_hunks,
};
use jj_conflicts::laws::{chosen_marker_len_is_parsable, rendered_hunks_are_parsed};
use jj_content_merges::files::{FileMergeHunkLevel, MergeOptions, MergeResult, merge_hunks};
use jj_merges::conflict_labels::ConflictLabels;
use jj_merges::merge::{Merge, SameChange};
use smallvec::SmallVec;
use std::alloc::{AllocError, Global};

/// The hunks of a merge, and those that their rendered form was parsed to.
#[derive(Drop)]
pub struct ParsedMerge {
    pub merged: Vec<Merge<Vec<u8>>>,
    pub parsed: Vec<Merge<Vec<u8>>>,
}

fn three_terms<'a>(
    alloc: Global,
    left: &'a [u8],
    base: &'a [u8],
    right: &'a [u8],
) -> Result<Merge<&'a [u8]>, AllocError>
    ensures { IfOk result
        (λ terms. bytes_of terms ≡ left.now ∷ base.now ∷ right.now ∷ []) }
{
    let mut terms = Vec::new(alloc);
    terms.push(left)?;
    terms.push(base)?;
    terms.push(right)?;
    Ok(Merge::from_vec(SmallVec::from_vec(terms)))
}

/// Merges two versions of a file with their base line by line. Renders a conflict in any style with
/// any labels, and parses the result. Returns `None` if the merge leaves no conflict.
pub fn parse_merged(
    alloc: Global,
    left: &[u8],
    base: &[u8],
    right: &[u8],
    same_change: SameChange,
    labels: &ConflictLabels,
    style: ConflictMarkerStyle,
) -> Result<Option<ParsedMerge>, AllocError>
    // If both versions end in LF, the merge is clean, or the parsed hunks are those of the merge.
    ensures { IfOk result (λ found. is_terminated left.now ≡ true → is_terminated right.now ≡ true
        → ComesBack same_change (left.now ∷ base.now ∷ right.now ∷ []) found) }
{
    let inputs = three_terms(alloc, left, base, right)?;
    let options = MergeOptions {
        hunk_level: FileMergeHunkLevel::Line,
        same_change,
    };
    match merge_hunks(alloc, &inputs, &options)? {
        MergeResult::Resolved(_) => Ok(None),
        MergeResult::Conflict(merged) => {
            let marker_len = choose_materialized_conflict_marker_len(&merged);
            let text = materialize(alloc, &merged, labels, style, marker_len)?;
            chosen_marker_len_is_parsable();
            rendered_hunks_are_parsed();
            let parsed = parse_hunks(alloc, &text, 2, marker_len)?;
            Ok(Some(ParsedMerge { merged, parsed }))
        }
    }
}
