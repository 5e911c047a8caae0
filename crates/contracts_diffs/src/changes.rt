//! Callers of `jj_diff` that look at hunks that differ, and at lines that both versions have.
ghost use Rattle.std.specs.Prelude.{All, IfOk};
ghost use Rattle.contracts_diffs.specs.Lines.{EndsApart, KeepsLines, SharesNoLine, StartsApart};

use jj_diff::diff::{DiffHunk, diff_by_line};
use std::alloc::{AllocError, Global};

/// Compares two versions of a file. A hunk that differs does not start with the same lines in both
/// versions, nor end with the same lines. If it has at most 64 lines in each version, then no line
/// is exactly once in both versions of it: so a line that was neither changed nor repeated matches.
#[tactic(auto, using(crate::proofs::Ends::apart_steps))]
pub fn compare_closely<'a>(
    alloc: Global,
    left: &'a [u8],
    right: &'a [u8],
) -> Result<Vec<DiffHunk<'a>>, AllocError>
    ensures starts { IfOk result (λ hunks. All StartsApart hunks.items) }
    ensures ends { IfOk result (λ hunks. All EndsApart hunks.items) }
    ensures lines { IfOk result (λ hunks. All SharesNoLine hunks.items) }
{
    let hunks = diff_by_line(alloc, &[left, right], 0)?;
    Ok(hunks)
}

/// Compares two versions of a file. A line that is exactly once in each version matches, or it
/// crosses a hunk that matches: it is before that hunk in one version and after it in the other.
/// Assumes that each hunk that differs has at most 64 lines of each version.
#[tactic(auto, using(crate::proofs::Shared::shared_steps))]
pub fn compare_shared_lines<'a>(
    alloc: Global,
    left: &'a [u8],
    right: &'a [u8],
) -> Result<Vec<DiffHunk<'a>>, AllocError>
    ensures { IfOk result (λ hunks. KeepsLines left.now right.now hunks.items) }
{
    let compared = diff_by_line(alloc, &[left, right], 0)?;
    Ok(compared)
}
