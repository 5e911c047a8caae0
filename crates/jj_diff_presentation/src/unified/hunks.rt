//! Hunks of a unified diff: changes whose contexts touch are in one hunk.
ghost use Rattle.std.specs.Prelude.{◌≡◌, ℕ, ◌+◌, ◌-◌, ◌*◌, ◌^◌, ◌<◌, ◌≤◌, ◌↔◌, IsTrue, min, length, take, drop, IfOk, List, []};
ghost use Rattle.std.specs.List.{prefix_len, fold};
ghost use Rattle.jj_diff_presentation.specs.Lines.{split_lines};
ghost use Rattle.jj_diff_presentation.specs.Scripts.{left_lines, right_lines, is_context, AreContext};
ghost use Rattle.jj_diff_presentation.specs.Hunks.{IsPatch, HasContext, leading_context, trailing_context, IsHunkEnd};

use super::script::{DiffLine, DiffLineType, diff_lines};
use std::alloc::{AllocError, Global};
use std::cmp;
use std::ops::Range;

/// Changed lines and lines around them.
#[derive(Debug, Drop)]
pub struct UnifiedDiffHunk<'a> {
    /// The left lines of the hunk, counted from 0.
    pub left_line_range: Range<usize>,
    /// The right lines of the hunk, counted from 0.
    pub right_line_range: Range<usize>,
    pub lines: Vec<DiffLine<'a>>,
}

fn count_leading_context(lines: &[DiffLine]) -> usize
    ensures count { result ≡ leading_context lines.now }
    ensures bounded { result ≤ length lines.now }
{
    for (index, line) in lines.iter().enumerate() {
        if !line.is_context() {
            return index;
        }
    }
    lines.len()
}

fn count_left_lines(lines: &[DiffLine]) -> usize
    ensures count { result ≡ length (left_lines lines.now) }
    ensures bounded { result ≤ length lines.now }
{
    let mut count = 0;
    for line in lines {
        match line.line_type {
            DiffLineType::Context => count += 1,
            DiffLineType::Removed => count += 1,
            DiffLineType::Added => {}
        }
    }
    count
}

fn count_right_lines(lines: &[DiffLine]) -> usize
    ensures count { result ≡ length (right_lines lines.now) }
    ensures bounded { result ≤ length lines.now }
{
    let mut count = 0;
    for line in lines {
        match line.line_type {
            DiffLineType::Context => count += 1,
            DiffLineType::Removed => {}
            DiffLineType::Added => count += 1,
        }
    }
    count
}

// Returns the number of lines of the hunk whose first change is at index `first`. Changes with at
// most twice `context` lines between them are in one hunk.
#[tactic(auto, using(crate::proofs::Runs::hunk_end_steps))]
fn count_hunk_lines(lines: &[DiffLine], first: usize, context: usize) -> usize
    requires change { leading_context lines.now ≡ first }
    requires within { first < length lines.now }
    ensures within { result ≤ length lines.now }
    ensures after { first < result }
    ensures end { IsHunkEnd lines.now context result }
{
    let mut run = 0;
    for index in first + 1..lines.len() {
        if !lines[index].is_context() {
            run = 0;
        } else if run >= context && run - context >= context {
            return index - context;
        } else {
            run += 1;
        }
    }
    lines.len() - run.saturating_sub(context)
}

// Returns the hunk of these lines, after so many lines of both sides.
fn hunk_of_lines<'a>(
    alloc: Global,
    lines: &[DiffLine<'a>],
    left: usize,
    right: usize,
) -> Result<UnifiedDiffHunk<'a>, AllocError>
    requires left { left + length lines.now < 2 ^ 64 }
    requires right { right + length lines.now < 2 ^ 64 }
    ensures lines { IfOk result (λ hunk. hunk.lines.items ≡ lines.now) }
    ensures left_start { IfOk result (λ hunk. hunk.left_line_range.start ≡ left) }
    ensures right_start { IfOk result (λ hunk. hunk.right_line_range.start ≡ right) }
    ensures left_end { IfOk result (λ hunk. hunk.left_line_range.end
        ≡ hunk.left_line_range.start + length (left_lines hunk.lines.items)) }
    ensures right_end { IfOk result (λ hunk. hunk.right_line_range.end
        ≡ hunk.right_line_range.start + length (right_lines hunk.lines.items)) }
{
    let left_end = left + count_left_lines(lines);
    let right_end = right + count_right_lines(lines);
    let lines = Vec::from_slice(alloc, lines)?;
    Ok(UnifiedDiffHunk {
        left_line_range: left..left_end,
        right_line_range: right..right_end,
        lines,
    })
}

fn prefix<'a, 'b>(lines: &'b [DiffLine<'a>], len: usize) -> &'b [DiffLine<'a>]
    requires { len ≤ length lines.now }
    ensures { result.now ≡ take len lines.now }
{
    &lines[..len]
}

fn suffix<'a, 'b>(lines: &'b [DiffLine<'a>], index: usize) -> &'b [DiffLine<'a>]
    requires { index ≤ length lines.now }
    ensures { result.now ≡ drop index lines.now }
{
    &lines[index..]
}

/// Groups the lines of a diff into hunks with `context` lines around each change. Linear.
pub fn group_diff_lines<'a>(
    alloc: Global,
    lines: &[DiffLine<'a>],
    context: usize,
) -> Result<Vec<UnifiedDiffHunk<'a>>, AllocError>
    // The hunks are a patch from the left lines to the right ones.
    ensures patch { IfOk result
        (λ hunks. IsPatch (left_lines lines.now) (right_lines lines.now) hunks.items) }
    // Each hunk has as many lines of context as there are, up to `context`.
    ensures context { IfOk result
        (λ hunks. HasContext context (length (left_lines lines.now)) hunks.items) }
    // If all lines are context, there is no hunk.
    ensures identity { IfOk result (λ hunks. AreContext lines.now → hunks.items ≡ []) }
{
    let mut hunks = Vec::new(alloc);
    let mut rest = lines;
    let mut left = 0;
    let mut right = 0;
    'hunks: loop {
        let skipped = count_leading_context(rest);
        if skipped == rest.len() {
            return Ok(hunks);
        }
        let before = skipped.saturating_sub(context);
        let from = suffix(rest, before);
        let len = count_hunk_lines(from, skipped - before, context);
        let own = prefix(from, len);
        let hunk = hunk_of_lines(alloc, own, left + before, right + before)?;
        left = hunk.left_line_range.end;
        right = hunk.right_line_range.end;
        hunks.push(hunk)?;
        rest = suffix(from, len);
    }
}

/// Compares two byte strings line by line. Returns their differences with `context` lines around
/// them.
pub fn unified_diff_hunks<'a>(
    alloc: Global,
    left: &'a [u8],
    right: &'a [u8],
    context: usize,
) -> Result<Vec<UnifiedDiffHunk<'a>>, AllocError>
    // The hunks' lines are those of their ranges; outside the ranges both sides are equal.
    ensures patch { IfOk result
        (λ hunks. IsPatch (split_lines left.now) (split_lines right.now) hunks.items) }
    // Each hunk has a change, with exactly `context` lines around it where there are so many.
    ensures context { IfOk result
        (λ hunks. HasContext context (length (split_lines left.now)) hunks.items) }
    // Equal sides have no hunks.
    ensures identity { IfOk result (λ hunks. left.now ≡ right.now → hunks.items ≡ []) }
{
    let lines = diff_lines(alloc, left, right)?;
    let hunks = group_diff_lines(alloc, &lines, context)?;
    Ok(hunks)
}
