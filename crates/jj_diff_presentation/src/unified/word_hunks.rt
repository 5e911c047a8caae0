//! Differences of words, hunk by hunk, with lines of context around them.
ghost use Rattle.std.specs.Prelude.{◌≡◌, List, [], length, All, IfOk};
ghost use Rattle.std.specs.List.{concat};
ghost use Rattle.jj_diff_presentation.specs.Lines.{split_lines};
ghost use Rattle.jj_diff_presentation.specs.Scripts.{left_lines, right_lines};
ghost use Rattle.jj_diff_presentation.specs.Hunks.{HasRanges, IsPatch, HasContext};
ghost use Rattle.jj_diff_presentation.specs.Words.{AreWordsOf, IsWordDiff, IsWordHunk};
ghost use Rattle.jj_diff_presentation.specs.declared.unified.hunks.UnifiedDiffHunk.{UnifiedDiffHunk};

use super::hunks::{UnifiedDiffHunk, unified_diff_hunks};
use super::render::push_header;
use super::script::{DiffLine, DiffLineType};
use super::words::{word_diff, write_word_diff};
use std::alloc::{AllocError, Global};

// Returns the left lines as one byte string.
#[tactic(auto, using(crate::proofs::WordHunks::side_steps))]
fn left_of(alloc: Global, lines: &[DiffLine]) -> Result<Vec<u8>, AllocError>
    ensures { IfOk result (λ text. text.items ≡ concat (left_lines lines.now)) }
{
    let mut text = Vec::new(alloc);
    for line in lines {
        match line.line_type {
            DiffLineType::Context => text.extend_from_slice(line.content)?,
            DiffLineType::Removed => text.extend_from_slice(line.content)?,
            DiffLineType::Added => {}
        }
    }
    Ok(text)
}

// Returns the right lines as one byte string.
#[tactic(auto, using(crate::proofs::WordHunks::side_steps))]
fn right_of(alloc: Global, lines: &[DiffLine]) -> Result<Vec<u8>, AllocError>
    ensures { IfOk result (λ text. text.items ≡ concat (right_lines lines.now)) }
{
    let mut text = Vec::new(alloc);
    for line in lines {
        match line.line_type {
            DiffLineType::Context => text.extend_from_slice(line.content)?,
            DiffLineType::Removed => {}
            DiffLineType::Added => text.extend_from_slice(line.content)?,
        }
    }
    Ok(text)
}

// Returns the header and the marked words of a hunk.
#[tactic(auto, using(crate::proofs::WordHunks::hunk_steps))]
fn hunk_text(alloc: Global, hunk: &UnifiedDiffHunk) -> Result<Vec<u8>, AllocError>
    requires { HasRanges hunk.now }
    ensures { IfOk result (λ text. IsWordHunk hunk.now text.items) }
{
    let left = left_of(alloc, &hunk.lines)?;
    let right = right_of(alloc, &hunk.lines)?;
    let tokens = word_diff(alloc, &left, &right)?;
    let words = write_word_diff(alloc, &tokens)?;
    let mut text = Vec::new(alloc);
    push_header(&mut text, hunk)?;
    text.extend_from_slice(&words)?;
    Ok(text)
}

#[tactic(auto, using(crate::proofs::WordHunks::text_steps))]
fn text_of_hunks(alloc: Global, hunks: &[UnifiedDiffHunk]) -> Result<Vec<u8>, AllocError>
    requires { All HasRanges hunks.now }
    ensures { IfOk result (λ text. IsWordDiff hunks.now text.items) }
{
    let mut text = Vec::new(alloc);
    for hunk in hunks {
        let part = hunk_text(alloc, hunk)?;
        text.extend_from_slice(&part)?;
    }
    Ok(text)
}

/// Compares two byte strings line by line, and the lines of each hunk with `context` lines around
/// it word by word. Writes for each hunk its header and its lines with the marks of
/// `write_word_diff`, as `git diff --word-diff=plain` does.
pub fn write_word_diff_hunks(
    alloc: Global,
    left: &[u8],
    right: &[u8],
    context: usize,
) -> Result<Vec<u8>, AllocError>
    // It has the hunks of a comparison by lines. Without additions a hunk is its left lines, and
    // without removals its right ones.
    ensures text { IfOk result (λ text. (hunks : List UnifiedDiffHunk)
        × IsWordDiff hunks text.items
        × IsPatch (split_lines left.now) (split_lines right.now) hunks
        × HasContext context (length (split_lines left.now)) hunks) }
    // For equal sides it is empty.
    ensures identity { IfOk result (λ text. left.now ≡ right.now → text.items ≡ []) }
{
    let hunks = unified_diff_hunks(alloc, left, right, context)?;
    let text = text_of_hunks(alloc, &hunks)?;
    Ok(text)
}
