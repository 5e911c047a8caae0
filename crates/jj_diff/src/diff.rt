//! Comparison of N byte strings as hunks that match in all of them or differ.
ghost use Rattle.std.specs.Prelude.{IfOk};
ghost use Rattle.jj_diff.specs.Inputs.{AreEqual, bytes_of};
ghost use Rattle.jj_diff.specs.Tokens.{is_line_end};
ghost use Rattle.jj_diff.specs.Hunks.{AllMatch, AreTrimmed, IsDiff, MatchesEnds};

mod anchors;
mod common;
mod compare;
mod content_diff;
mod gaps;
mod hunks;
mod numbers;
mod progress;
mod ranges;
mod refine;
mod regions;
mod rows;
mod search;
mod tokens;
mod whitespace;

pub use compare::{
    CompareBytes, CompareBytesExactly, CompareBytesIgnoreAllWhitespace,
    CompareBytesIgnoreWhitespaceAmount,
};
pub use content_diff::{ContentDiff, DiffHunkIterator, diff};
pub use hunks::{
    DiffHunk, DiffHunkKind, MatchedRegion, compared_hunks, hunks_from_start, hunks_of_regions,
    single_hunk,
};
pub use ranges::{find_line_ranges, find_nonword_ranges, find_word_ranges};
pub use regions::{find_compared_regions, find_regions};
use std::alloc::{AllocError, Global};
pub use tokens::{Lines, Tokenizer, Words, find_line_ends, find_word_ends};

/// Compares the inputs line by line, each with input `base`.
pub fn diff_by_line<'a>(
    alloc: Global,
    inputs: &[&'a [u8]],
    base: usize,
) -> Result<Vec<DiffHunk<'a>>, AllocError>
    // The hunks' parts of an input join to it, kinds alternate, matching parts are equal, no hunk
    // is empty in all inputs, and none starts or ends within a line.
    ensures diff { IfOk result (λ hunks. IsDiff is_line_end (bytes_of inputs.now) hunks.items) }
    // The lines that all inputs start with match, and of the other lines those that all end with.
    ensures ends { IfOk result
        (λ hunks. MatchesEnds is_line_end (bytes_of inputs.now) hunks.items) }
    // No hunk that differs starts or ends with a line that is equal in all inputs; one of at most
    // 64 lines an input has no line that occurs once in each part.
    ensures trimmed { IfOk result (λ hunks. AreTrimmed is_line_end hunks.items) }
    // Equal inputs have no hunk that differs.
    ensures identity { IfOk result
        (λ hunks. AreEqual (bytes_of inputs.now) → AllMatch hunks.items) }
{
    let mut ends = Vec::with_capacity(alloc, inputs.len())?;
    for index in 0..inputs.len() {
        ends.push(Lines.find_ends(alloc, inputs[index])?)?;
    }
    let regions = find_regions(alloc, inputs, &ends, base)?;
    hunks_of_regions(alloc, &Lines, inputs, &regions)
}
