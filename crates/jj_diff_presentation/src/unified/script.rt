//! The lines of both sides of a diff in one list.
ghost use Rattle.std.specs.Prelude.{◌≡◌, ◌++◌, [], IfOk, OnOk, slice_index, All};
ghost use Rattle.std.specs.List.{slice_index_or};
ghost use Rattle.jj_diff.specs.Hunks.{AllMatch, IsHunk, row_of};
ghost use Rattle.jj_diff_presentation.specs.Lines.{split_lines};
ghost use Rattle.jj_diff_presentation.specs.Scripts.{left_lines, right_lines, on_left, on_right, is_context, AreComparedLines, AreContext, lines_of_kind, lines_of_parts, lines_of_type, script_of, typed_lines};

use crate::lines::split_first_line;
use jj_diff::diff::{DiffHunk, DiffHunkKind, diff_by_line};
use std::alloc::{AllocError, Global};

/// Which sides have a line.
#[derive(Copy, Clone, Debug, PartialEq, Eq, Drop)]
pub enum DiffLineType {
    /// Both sides.
    Context,
    /// Only the left side.
    Removed,
    /// Only the right side.
    Added,
}

/// A line of a diff. It includes its LF, which the last line of a side may lack.
#[derive(Copy, Clone, Debug, PartialEq, Eq, Drop)]
pub struct DiffLine<'a> {
    pub line_type: DiffLineType,
    pub content: &'a [u8],
}

impl DiffLine<'_> {
    pub(crate) fn is_context(&self) -> bool
        ensures { result ≡ is_context self.now }
    {
        match self.line_type {
            DiffLineType::Context => true,
            DiffLineType::Removed => false,
            DiffLineType::Added => false,
        }
    }
}

// Appends the lines of a byte string.
#[tactic(auto, using(crate::proofs::Scripts::script_steps))]
fn push_lines<'a>(
    lines: &mut Vec<DiffLine<'a>>,
    line_type: DiffLineType,
    text: &'a [u8],
) -> Result<(), AllocError>
    ensures left { OnOk result (left_lines lines.new.items
        ≡ left_lines lines.old.items ++ on_left line_type (split_lines text.now)) }
    ensures right { OnOk result (right_lines lines.new.items
        ≡ right_lines lines.old.items ++ on_right line_type (split_lines text.now)) }
    ensures context { OnOk result (line_type ≡ DiffLineType.Context
        → AreContext lines.old.items → AreContext lines.new.items) }
    ensures typed { OnOk result (typed_lines lines.new.items
        ≡ typed_lines lines.old.items ++ lines_of_type line_type (split_lines text.now)) }
{
    let mut rest = text;
    while !rest.is_empty() {
        let (line, after) = split_first_line(rest);
        lines.push(DiffLine {
            line_type,
            content: line,
        })?;
        rest = after;
    }
    Ok(())
}

// Appends the lines of a hunk.
fn push_hunk<'a>(lines: &mut Vec<DiffLine<'a>>, hunk: &DiffHunk<'a>) -> Result<(), AllocError>
    requires { IsHunk 2 hunk.now }
    ensures left { OnOk result (left_lines lines.new.items
        ≡ left_lines lines.old.items ++ split_lines (slice_index_or (row_of hunk.now) 0 [])) }
    ensures right { OnOk result (right_lines lines.new.items
        ≡ right_lines lines.old.items ++ split_lines (slice_index_or (row_of hunk.now) 1 [])) }
    ensures context { OnOk result (hunk.now.kind ≡ DiffHunkKind.Matching
        → AreContext lines.old.items → AreContext lines.new.items) }
    ensures typed { OnOk result (typed_lines lines.new.items ≡ typed_lines lines.old.items
        ++ lines_of_kind hunk.now.kind (split_lines (slice_index_or (row_of hunk.now) 0 []))
        (split_lines (slice_index_or (row_of hunk.now) 1 []))) }
{
    let left = hunk.contents[0];
    let right = hunk.contents[1];
    match hunk.kind {
        DiffHunkKind::Matching => {
            push_lines(lines, DiffLineType::Context, left)?;
            Ok(())
        }
        DiffHunkKind::Different => {
            push_lines(lines, DiffLineType::Removed, left)?;
            push_lines(lines, DiffLineType::Added, right)?;
            Ok(())
        }
    }
}

// Returns the lines of the hunks.
#[tactic(auto, using(crate::proofs::Parts::part_steps))]
fn lines_of_hunks<'a>(
    alloc: Global,
    hunks: &[DiffHunk<'a>],
) -> Result<Vec<DiffLine<'a>>, AllocError>
    requires { All (IsHunk 2) hunks.now }
    ensures left { IfOk result (λ lines. left_lines lines.items ≡ lines_of_parts 0 hunks.now) }
    ensures right { IfOk result (λ lines. right_lines lines.items ≡ lines_of_parts 1 hunks.now) }
    ensures context { IfOk result (λ lines. AllMatch hunks.now → AreContext lines.items) }
    ensures typed { IfOk result (λ lines. typed_lines lines.items ≡ script_of hunks.now) }
{
    let mut lines = Vec::new(alloc);
    for hunk in hunks {
        push_hunk(&mut lines, hunk)?;
    }
    Ok(lines)
}

/// Returns the lines of both sides: of each difference the removed lines, then the added ones.
pub fn diff_lines<'a>(
    alloc: Global,
    left: &'a [u8],
    right: &'a [u8],
) -> Result<Vec<DiffLine<'a>>, AllocError>
    // Context lines and removed lines are the lines of the left side.
    ensures left { IfOk result (λ lines. left_lines lines.items ≡ split_lines left.now) }
    // Context lines and added lines are the lines of the right side.
    ensures right { IfOk result (λ lines. right_lines lines.items ≡ split_lines right.now) }
    // Equal sides have no removed and no added lines.
    ensures context { IfOk result (λ lines. left.now ≡ right.now → AreContext lines.items) }
    // The lines are those of a comparison: lines that both sides start with, or end with, are
    // context, and of at most 64 changed lines none is once on each side.
    ensures compared { IfOk result
        (λ lines. AreComparedLines left.now right.now lines.items) }
{
    let hunks = diff_by_line(alloc, &[left, right], 0)?;
    let lines = lines_of_hunks(alloc, &hunks)?;
    Ok(lines)
}
