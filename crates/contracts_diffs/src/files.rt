//! Callers of `jj_diff`.
ghost use Rattle.std.specs.Prelude.{◌≡◌, ℕ, ◌+◌, ◌≤◌, ◌++◌, List, [], ◌∷◌, length, map, IfOk};
ghost use Rattle.jj_diff.specs.Inputs.{side};
ghost use Rattle.jj_diff.specs.Hunks.{row_of, matched_start, matched_end};
ghost use Rattle.contracts_diffs.specs.Lines.{EndsInLine};

use jj_diff::diff::{DiffHunk, diff_by_line};
use std::alloc::{AllocError, Global};

/// Compares two versions of a file. The hunks contain both versions. All lines before the first
/// line that differs match, and all lines after the last one that differs.
#[tactic(auto, using(crate::proofs::Ends::ends_steps))]
pub fn compare_versions<'a>(
    alloc: Global,
    left: &'a [u8],
    right: &'a [u8],
) -> Result<Vec<DiffHunk<'a>>, AllocError>
    ensures left { IfOk result (λ hunks. side 0 (map row_of hunks.items) ≡ left.now) }
    ensures right { IfOk result (λ hunks. side 1 (map row_of hunks.items) ≡ right.now) }
    ensures before { IfOk result (λ hunks. (lines xs ys : List ℕ) → EndsInLine lines
        → left.now ≡ lines ++ xs → right.now ≡ lines ++ ys
        → length lines ≤ matched_start hunks.items) }
    ensures after { IfOk result (λ hunks. (xs ys lines : List ℕ) → EndsInLine xs → EndsInLine ys
        → left.now ≡ xs ++ lines → right.now ≡ ys ++ lines
        → matched_start hunks.items ≤ length xs → matched_start hunks.items ≤ length ys
        → length lines ≤ matched_end hunks.items) }
{
    let hunks = diff_by_line(alloc, &[left, right], 0)?;
    Ok(hunks)
}
