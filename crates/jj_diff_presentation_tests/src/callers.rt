//! Proved callers: contracts of unified diffs as a user states them.
ghost use Rattle.std.specs.Prelude.{◌≡◌, ◌≢◌, ℕ, List, [], ◌∷◌, take, All, IfOk, IsOk, MatchOption};
ghost use Rattle.jj_diff.specs.Ends.{IsCommonStart};
ghost use Rattle.jj_diff.specs.Tokens.{is_line_end};
ghost use Rattle.jj_diff_presentation.specs.Applying.{applied};
ghost use Rattle.jj_diff_presentation.specs.GitDiffs.{EndsWithPatch, IsTextual};
ghost use Rattle.jj_diff_presentation.specs.Hunks.{IsPatch};
ghost use Rattle.jj_diff_presentation.specs.Lines.{split_lines};
ghost use Rattle.jj_diff_presentation.specs.Words.{IsWordDiff};
ghost use Rattle.jj_diff_presentation.specs.declared.unified.hunks.UnifiedDiffHunk.{UnifiedDiffHunk};
ghost use Rattle.jj_diff_presentation_tests.specs.Compared.{StartsInContext, HasPartsApart};
ghost use Rattle.jj_diff_presentation_tests.specs.Outcomes.{IsOutOfMemory, IsWrongLine};

use jj_diff_presentation::unified::{
    ApplyError, DiffLine, DiffToken, FileMode, FileVersion, apply, diff_lines, push_git_diff,
    word_diff, write_unified_diff, write_word_diff_hunks,
};
use std::alloc::{AllocError, Global};

/// Writes the unified diff of two versions and applies it to the first. Returns the second version,
/// with any path and any number of context lines, unless memory runs out.
#[tactic(auto, using(crate::proofs::Outcomes::outcome_steps))]
pub fn round_trip(
    alloc: Global,
    path: &[u8],
    left: &[u8],
    right: &[u8],
    context: usize,
) -> Result<Vec<u8>, ApplyError>
    ensures same { IfOk result (λ bytes. bytes.items ≡ right.now) }
    ensures memory { IsOutOfMemory result }
{
    let text = match write_unified_diff(alloc, path, left, right, context) {
        Ok(text) => text,
        Err(error) => return Err(ApplyError::Memory(error)),
    };
    apply(alloc, left, &text)
}

/// Returns the patch of a file without NUL whose content has changed, as Git writes it: it ends
/// with the hunks from the old content to the new one.
pub fn file_patch(
    alloc: Global,
    path: &[u8],
    before: &[u8],
    after: &[u8],
    context: usize,
) -> Result<Vec<u8>, AllocError>
    ensures { before.now ≢ after.now → IsTextual before.now → IsTextual after.now
        → IfOk result (λ text. EndsWithPatch before.now after.now text.items) }
{
    let old = FileVersion {
        mode: FileMode::Normal,
        content: before,
    };
    let new = FileVersion {
        mode: FileMode::Normal,
        content: after,
    };
    let mut text = Vec::new(alloc);
    push_git_diff(alloc, &mut text, path, Some(old), Some(new), context)?;
    Ok(text)
}

/// Returns the lines that differ with three lines around them, compared word by word. Outside the
/// hunks both sides are equal, and equal sides have none.
pub fn changed_words(alloc: Global, left: &[u8], right: &[u8]) -> Result<Vec<u8>, AllocError>
    ensures hunks { IfOk result (λ text. (hunks : List UnifiedDiffHunk)
        × IsWordDiff hunks text.items
        × IsPatch (split_lines left.now) (split_lines right.now) hunks) }
    ensures same { left.now ≡ right.now → IfOk result (λ text. text.items ≡ []) }
{
    write_word_diff_hunks(alloc, left, right, 3)
}

/// Returns the number of the first line of a patch that is not as expected, and an excerpt of it,
/// unless the patch ends there. Returns `None` if the patch can be applied.
pub fn wrong_line(
    alloc: Global,
    left: &[u8],
    patch: &[u8],
) -> Result<Option<(usize, Option<String>)>, AllocError>
    ensures { IfOk result (λ wrong. MatchOption wrong (IsOk (applied left.now patch.now))
        (IsWrongLine left.now patch.now)) }
{
    match apply(alloc, left, patch) {
        Ok(_bytes) => Ok(None),
        Err(ApplyError::Memory(error)) => Err(error),
        Err(ApplyError::Fault(fault, found)) => Ok(Some((fault.line, found))),
    }
}

/// Compares two versions line by line. Lines that both start with come first, as context.
#[tactic(auto, using(crate::proofs::Compared::line_steps))]
pub fn compare_lines<'a>(
    alloc: Global,
    left: &'a [u8],
    right: &'a [u8],
) -> Result<Vec<DiffLine<'a>>, AllocError>
    ensures { IfOk result (λ lines. (n : ℕ)
        → IsCommonStart is_line_end (left.now ∷ right.now ∷ []) n
        → StartsInContext (split_lines (take n left.now)) lines.items) }
{
    let lines = diff_lines(alloc, left, right)?;
    Ok(lines)
}

/// Compares two versions word by word. The two parts of a token that differs start with different
/// words, and end with different ones.
#[tactic(auto, using(crate::proofs::Compared::word_steps))]
pub fn compare_tokens<'a>(
    alloc: Global,
    left: &'a [u8],
    right: &'a [u8],
) -> Result<Vec<DiffToken<'a>>, AllocError>
    ensures { IfOk result (λ tokens. All HasPartsApart tokens.items) }
{
    let tokens = word_diff(alloc, left, right)?;
    Ok(tokens)
}
