//! Unified diffs, as Git and GNU diff write them.
ghost use Rattle.std.specs.Prelude.{◌≡◌, ℕ, ◌+◌, ◌-◌, ◌^◌, ◌<◌, ◌≤◌, ◌++◌, List, length, All, IfOk, OnOk, Ok, []};
ghost use Rattle.jj_diff_presentation.specs.PatchText.{type_byte, line_text, lines_text, range_text, header_text, hunks_text, names_text, diff_text};
ghost use Rattle.jj_diff_presentation.specs.Hunks.{HasRanges, IsPatch, HasContext};
ghost use Rattle.jj_diff_presentation.specs.Lines.{split_lines};
ghost use Rattle.jj_diff_presentation.specs.Applying.{applied};
ghost use Rattle.jj_diff_presentation.specs.declared.unified.hunks.UnifiedDiffHunk.{UnifiedDiffHunk};

use super::hunks::{UnifiedDiffHunk, unified_diff_hunks};
use super::names::push_name_line;
use super::script::{DiffLine, DiffLineType};
use crate::lines::is_terminated;
use itoa::Buffer;
use std::alloc::{AllocError, Global};

fn type_byte(line_type: DiffLineType) -> u8
    ensures { result ≡ type_byte line_type }
{
    match line_type {
        DiffLineType::Context => b' ',
        DiffLineType::Removed => b'-',
        DiffLineType::Added => b'+',
    }
}

#[tactic(auto, using(crate::proofs::PatchText::line_steps))]
fn push_line(text: &mut Vec<u8>, line_type: DiffLineType, content: &[u8]) -> Result<(), AllocError>
    ensures { OnOk result
        (text.new.items ≡ text.old.items ++ line_text line_type content.now) }
{
    text.push(type_byte(line_type))?;
    text.extend_from_slice(content)?;
    if is_terminated(content) {
        return Ok(());
    }
    text.extend_from_slice(b"\n\\ No newline at end of file\n")
}

#[tactic(auto, using(crate::proofs::PatchText::lines_steps))]
fn push_lines(text: &mut Vec<u8>, lines: &[DiffLine]) -> Result<(), AllocError>
    ensures { OnOk result (text.new.items ≡ text.old.items ++ lines_text lines.now) }
{
    for line in lines {
        push_line(text, line.line_type, line.content)?;
    }
    Ok(())
}

#[tactic(auto, using(crate::proofs::PatchText::range_steps))]
fn push_range(text: &mut Vec<u8>, start: usize, len: usize) -> Result<(), AllocError>
    requires { start < 2 ^ 64 - 1 }
    ensures { OnOk result (text.new.items ≡ text.old.items ++ range_text start len) }
{
    let mut buffer = Buffer::new();
    let first = if len == 0 { start } else { start + 1 };
    text.extend_from_slice(buffer.format(first).as_bytes())?;
    if len == 1 {
        return Ok(());
    }
    text.push(b',')?;
    text.extend_from_slice(buffer.format(len).as_bytes())
}

pub(super) fn push_header(text: &mut Vec<u8>, hunk: &UnifiedDiffHunk) -> Result<(), AllocError>
    requires { HasRanges hunk.now }
    ensures { OnOk result (text.new.items ≡ text.old.items
        ++ header_text hunk.now.left_line_range hunk.now.right_line_range) }
{
    let left = &hunk.left_line_range;
    let right = &hunk.right_line_range;
    text.extend_from_slice(b"@@ -")?;
    push_range(text, left.start, left.end - left.start)?;
    text.extend_from_slice(b" +")?;
    push_range(text, right.start, right.end - right.start)?;
    text.extend_from_slice(b" @@\n")
}

#[tactic(auto, using(crate::proofs::PatchText::hunks_steps))]
pub(super) fn push_hunks(text: &mut Vec<u8>, hunks: &[UnifiedDiffHunk]) -> Result<(), AllocError>
    requires { All HasRanges hunks.now }
    ensures { OnOk result (text.new.items ≡ text.old.items ++ hunks_text hunks.now) }
{
    for hunk in hunks {
        push_header(text, hunk)?;
        push_lines(text, &hunk.lines)?;
    }
    Ok(())
}

fn push_names(text: &mut Vec<u8>, path: &[u8]) -> Result<(), AllocError>
    ensures { OnOk result (text.new.items ≡ text.old.items ++ names_text path.now) }
{
    push_name_line(text, b"--- ", b"a/", path)?;
    push_name_line(text, b"+++ ", b"b/", path)
}

// Returns the unified diff with these hunks.
#[tactic(auto, using(crate::proofs::PatchText::diff_steps))]
pub(super) fn text_of_hunks(
    alloc: Global,
    path: &[u8],
    hunks: &[UnifiedDiffHunk],
) -> Result<Vec<u8>, AllocError>
    requires { All HasRanges hunks.now }
    ensures { IfOk result (λ text. text.items ≡ diff_text path.now hunks.now) }
{
    let mut text = Vec::new(alloc);
    if hunks.is_empty() {
        return Ok(text);
    }
    push_names(&mut text, path)?;
    push_hunks(&mut text, hunks)?;
    Ok(text)
}

/// Returns the unified diff of two versions of a file, with `context` lines around each change, as
/// `git diff` and `diff -u` write it: nothing for equal versions. Like Git, puts a path that has
/// control characters, quotes, backslashes or bytes beyond ASCII in quotes, and a TAB after a path
/// that has a space.
pub fn write_unified_diff(
    alloc: Global,
    path: &[u8],
    left: &[u8],
    right: &[u8],
    context: usize,
) -> Result<Vec<u8>, AllocError>
    // It has the hunks of a comparison by lines.
    ensures text { IfOk result (λ text. (hunks : List UnifiedDiffHunk)
        × (text.items ≡ diff_text path.now hunks)
        × IsPatch (split_lines left.now) (split_lines right.now) hunks
        × HasContext context (length (split_lines left.now)) hunks) }
    // For equal versions it is empty.
    ensures identity { IfOk result (λ text. left.now ≡ right.now → text.items ≡ []) }
    // Applied to the left version it yields the right one.
    ensures round_trip { IfOk result (λ text. applied left.now text.items ≡ Ok right.now) }
{
    let hunks = unified_diff_hunks(alloc, left, right, context)?;
    let text = text_of_hunks(alloc, path, &hunks)?;
    Ok(text)
}
