//! Proved callers: contracts of rendered conflicts at concrete types.
ghost use Rattle.std.specs.Prelude.{◌≡◌, IfOk};
ghost use Rattle.jj_conflicts.specs.Contents.{contents};
ghost use Rattle.jj_conflicts.specs.Conditions.{IsMergeOfLines, joined};

use jj_conflicts::conflicts::{
    ConflictMarkerStyle, choose_materialized_conflict_marker_len, materialize, parse_hunks,
};
use jj_conflicts::laws::{chosen_marker_len_is_parsable, rendered_hunks_are_parsed};
use jj_merges::conflict_labels::ConflictLabels;
use jj_merges::merge::Merge;
use std::alloc::{AllocError, Global};

/// Renders hunks of a merge of lines and parses the result. Returns these hunks, with adjacent
/// resolved hunks joined, in each style and with any labels.
pub fn parse_rendered(
    alloc: Global,
    hunks: &[Merge<Vec<u8>>],
    labels: &ConflictLabels,
    style: ConflictMarkerStyle,
    num_sides: usize,
) -> Result<Vec<Merge<Vec<u8>>>, AllocError>
    requires { IsMergeOfLines num_sides (contents hunks.now) }
    ensures { IfOk result (λ parsed. contents parsed.items ≡ joined (contents hunks.now)) }
{
    let marker_len = choose_materialized_conflict_marker_len(hunks);
    let text = materialize(alloc, hunks, labels, style, marker_len)?;
    chosen_marker_len_is_parsable();
    rendered_hunks_are_parsed();
    parse_hunks(alloc, &text, num_sides, marker_len)
}
