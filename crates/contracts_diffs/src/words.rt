//! Callers of `jj_diff` that refine a comparison by lines, and that look up where hunks are.
ghost use Rattle.std.specs.Prelude.{◌≡◌, ℕ, ◌≤◌, ◌++◌, List, [], ◌∷◌, length, map, IfOk};
ghost use Rattle.jj_diff.specs.Inputs.{side};
ghost use Rattle.jj_diff.specs.Hunks.{row_of, matched_start, matched_end, AreTrimmed, IsDiff, MatchesEnds};
ghost use Rattle.jj_diff.specs.Refined.{KeepsMatches};
ghost use Rattle.jj_diff.specs.declared.diff.hunks.DiffHunk.{DiffHunk};
ghost use Rattle.jj_diff.specs.Tokens.{is_line_end, is_word_end};
ghost use Rattle.contracts_diffs.specs.Lines.{EndsInLine};
ghost use Rattle.contracts_diffs.specs.Ranges.{IsContiguous, left_parts, parts_at};

use jj_diff::diff::{CompareBytesExactly, ContentDiff, Words};
use std::alloc::{AllocError, Global};
use std::ops::Range;

/// Compares two versions of a file by lines, and then the words of the lines that differ. Lines
/// that match in the first comparison still match, and so do the lines before the first one that
/// differs and after the last one that differs.
pub fn compare_words<'a>(
    alloc: Global,
    left: &'a [u8],
    right: &'a [u8],
) -> Result<ContentDiff<'a>, AllocError>
    // The left parts of the hunks are the left version.
    ensures left { IfOk result (λ d. side 0 (map row_of d.hunks.items) ≡ left.now) }
    // The right parts are the right version.
    ensures right { IfOk result (λ d. side 1 (map row_of d.hunks.items) ≡ right.now) }
    // Lines that both versions start with match.
    ensures before { IfOk result (λ d. (lines xs ys : List ℕ) → EndsInLine lines
        → left.now ≡ lines ++ xs → right.now ≡ lines ++ ys
        → length lines ≤ matched_start d.hunks.items) }
    // Lines after these that both versions end with match.
    ensures after { IfOk result (λ d. (xs ys lines : List ℕ) → EndsInLine xs → EndsInLine ys
        → left.now ≡ xs ++ lines → right.now ≡ ys ++ lines
        → matched_start d.hunks.items ≤ length xs → matched_start d.hunks.items ≤ length ys
        → length lines ≤ matched_end d.hunks.items) }
    // Each hunk of the comparison by lines that matches is part of a matching hunk, at the same
    // offset of both versions.
    ensures kept { IfOk result (λ d. (hunks : List DiffHunk)
        × IsDiff is_line_end (left.now ∷ right.now ∷ []) hunks
        × MatchesEnds is_line_end (left.now ∷ right.now ∷ []) hunks
        × KeepsMatches 2 hunks d.hunks.items) }
    // No part of a hunk that differs starts or ends with a word that all its parts start or end
    // with.
    ensures trimmed { IfOk result (λ d. AreTrimmed is_word_end d.hunks.items) }
{
    let mut compared = ContentDiff::by_line(alloc, &[left, right])?;
    compared.refine_changed_regions(alloc, &Words, &CompareBytesExactly)?;
    Ok(compared)
}

/// Compares two versions of a file line by line. Returns where each hunk is in the left version.
#[tactic(auto, using(crate::proofs::Ranges::contiguous))]
pub fn left_ranges(
    alloc: Global,
    left: &[u8],
    right: &[u8],
) -> Result<Vec<Range<usize>>, AllocError>
    // The bytes in the ranges are the left parts of the hunks.
    ensures parts { IfOk result (λ ranges. (hunks : List DiffHunk)
        × IsDiff is_line_end (left.now ∷ right.now ∷ []) hunks
        × (parts_at left.now ranges.items ≡ left_parts hunks)) }
    // The first range starts at 0, and each other one where the one before it ends.
    ensures contiguous { IfOk result (λ ranges. IsContiguous 0 ranges.items) }
{
    let compared = ContentDiff::by_line(alloc, &[left, right])?;
    let ranges = compared.hunk_ranges(alloc, 0)?;
    Ok(ranges)
}
