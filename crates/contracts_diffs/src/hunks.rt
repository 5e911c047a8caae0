//! Callers of `jj_diff` that state the kind and the position of each hunk of a comparison.
ghost use Rattle.std.specs.Prelude.{◌≡◌, ◌∷◌, [], map, All, IfOk};
ghost use Rattle.jj_diff.specs.declared.diff.hunks.DiffHunkKind.TheVariants.{Matching, Different};
ghost use Rattle.jj_diff.specs.Inputs.{side};
ghost use Rattle.jj_diff.specs.Hunks.{row_of, AllMatch, Alternate};
ghost use Rattle.jj_diff.specs.Whitespace.{without_whitespace};
ghost use Rattle.contracts_diffs.specs.Lines.{AreWholeLines, HasBytes, HasEqualParts, SharesNoLineBy};

use jj_diff::diff::{CompareBytesIgnoreAllWhitespace, ContentDiff, DiffHunk, Lines, diff_by_line};
use std::alloc::{AllocError, Global};

/// Compares two versions of a file line by line.
#[tactic(auto, using(crate::proofs::Lines::hunk_steps))]
pub fn compare_hunks<'a>(
    alloc: Global,
    left: &'a [u8],
    right: &'a [u8],
) -> Result<Vec<DiffHunk<'a>>, AllocError>
    // The two parts of a hunk that matches are equal.
    ensures matching { IfOk result (λ hunks. All (HasEqualParts (λ text. text)) hunks.items) }
    // No hunk is empty in both versions.
    ensures nonempty { IfOk result (λ hunks. All HasBytes hunks.items) }
    // After a hunk that matches comes one that differs, and after that one that matches.
    ensures alternate { IfOk result (λ hunks. Alternate (map (λ hunk. hunk.kind) hunks.items)) }
    // Each hunk ends with a line, or with the version.
    ensures lines { IfOk result (λ hunks. AreWholeLines left.now right.now hunks.items) }
    // Equal versions have no hunk that differs.
    ensures identity { IfOk result (λ hunks. left.now ≡ right.now → AllMatch hunks.items) }
{
    let hunks = diff_by_line(alloc, &[left, right], 0)?;
    Ok(hunks)
}

/// Returns two strings as a hunk, which matches if they are equal.
pub fn hunk_of<'a>(
    alloc: Global,
    left: &'a [u8],
    right: &'a [u8],
) -> Result<DiffHunk<'a>, AllocError>
    // The parts of the hunk are the strings.
    ensures parts { IfOk result (λ hunk. row_of hunk ≡ left.now ∷ right.now ∷ []) }
    // It matches exactly if they are equal.
    ensures matching { IfOk result (λ hunk. hunk.kind ≡ Matching → left.now ≡ right.now) }
    ensures different { IfOk result (λ hunk. hunk.kind ≡ Different → ¬ (left.now ≡ right.now)) }
{
    let contents = vec![in alloc; left, right]?;
    if left == right {
        return Ok(DiffHunk::matching(contents));
    }
    Ok(DiffHunk::different(contents))
}

/// Compares two versions of a file line by line, without their white space.
#[tactic(auto, using(crate::proofs::Lines::hunk_steps))]
pub fn compare_without_whitespace<'a>(
    alloc: Global,
    left: &'a [u8],
    right: &'a [u8],
) -> Result<ContentDiff<'a>, AllocError>
    // The hunks are all of both versions, with their white space.
    ensures left { IfOk result (λ d. side 0 (map row_of d.hunks.items) ≡ left.now) }
    ensures right { IfOk result (λ d. side 1 (map row_of d.hunks.items) ≡ right.now) }
    // The two parts of a hunk that matches are equal but for white space.
    ensures matching { IfOk result
        (λ d. All (HasEqualParts without_whitespace) d.hunks.items) }
    // If a hunk that differs has at most 64 lines of each version, then no line is exactly once in
    // both versions of it, but for white space.
    ensures lines { IfOk result (λ d. All (SharesNoLineBy without_whitespace) d.hunks.items) }
    // Versions that are equal but for white space have no hunk that differs.
    ensures identity { IfOk result
        (λ d. without_whitespace left.now ≡ without_whitespace right.now
        → AllMatch d.hunks.items) }
{
    let compare = CompareBytesIgnoreAllWhitespace;
    let compared = ContentDiff::for_tokenizer(alloc, &[left, right], &Lines, &compare)?;
    Ok(compared)
}
