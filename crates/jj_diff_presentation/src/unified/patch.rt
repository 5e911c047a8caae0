//! Application of unified diffs, at the line numbers that they state.
ghost use Rattle.std.specs.Prelude.{◌≡◌, ℕ, ◌+◌, ◌-◌, ◌^◌, ◌<◌, ◌≤◌, ◌∷◌, [], length, take, drop, IfOk, OnOk, IsTrue, IsFalse, Some, None};
ghost use Rattle.jj_diff_presentation.specs.Lines.{split_lines};
ghost use Rattle.jj_diff_presentation.specs.Applying.{is_note, patch_lines, copied, with_header, with_left, with_right, with_hunk_line, with_line, then_right, missing, finished_unless, run, applied, outcome, PatchGives, RunGives};
ghost use Rattle.jj_diff_presentation.specs.Views.{header_view, state_view, IsBounded};

use super::header::{HunkHeader, parse_header};
use crate::lines::split_first_line;
use std::alloc::{AllocError, Global};
use std::error::Error;
use std::fmt;

/// The content that a patch has to have at a line.
#[derive(Copy, Clone, Debug, PartialEq, Eq, Drop)]
pub enum ExpectedInPatch {
    /// `--- ` and a name; lines before it are skipped.
    LeftName,
    /// `+++ ` and a name.
    RightName,
    /// `@@ -START,COUNT +START,COUNT @@`, where a count of 1 may be left out.
    HunkHeader,
    /// A hunk of lines that the file has, after those of the hunk before.
    LaterHunk,
    /// A line that begins with a space, `-` or `+`, of the numbers in the header.
    HunkLine,
    /// The next line of the file, after a space or `-`.
    LeftLine,
}

/// The first line of a patch, counted from 1, that is not the expected one. It is one more than the
/// number of lines if the patch ends early.
#[derive(Copy, Clone, Debug, PartialEq, Eq, Drop)]
pub struct PatchFault {
    pub line: usize,
    pub expected: ExpectedInPatch,
}

// Why a patch was not applied.
#[derive(Drop)]
pub(super) enum PatchError {
    Memory(AllocError),
    Fault(PatchFault),
}

impl ExpectedInPatch {
    /// Returns what was expected, in words.
    pub fn as_str(self) -> &'static str {
        match self {
            ExpectedInPatch::LeftName => "`--- ` and the name of the old version",
            ExpectedInPatch::RightName => "`+++ ` and the name of the new version",
            ExpectedInPatch::HunkHeader => "a hunk's header `@@ -START,COUNT +START,COUNT @@`",
            ExpectedInPatch::LaterHunk => {
                "a hunk of lines that the file has, after those of the hunk before"
            }
            ExpectedInPatch::HunkLine => {
                "a line that begins with ` `, `-` or `+`, of the numbers in the hunk's header"
            }
            ExpectedInPatch::LeftLine => "the next line of the file after ` ` or `-`",
        }
    }
}

impl fmt::Display for PatchFault {
    fn fmt<W: fmt::Write>(&self, f: &mut fmt::Formatter<W>) -> fmt::Result {
        let line = self.line;
        let expected = self.expected.as_str();
        write!(f, "line {line} of the patch: expected {expected}")
    }
}

impl Error for PatchFault {}

#[derive(Copy, Clone, Debug, PartialEq, Eq, Drop)]
enum PatchPart {
    Preamble,
    Names,
    Hunks,
}

// The rest of the file, the number of lines before it, the output, and the numbers of lines that
// the hunk still has on both sides.
#[derive(Drop)]
struct PatchState<'a> {
    part: PatchPart,
    rest: &'a [u8],
    position: usize,
    output: Vec<u8>,
    left: usize,
    right: usize,
}

fn is_note(text: &[u8]) -> bool
    ensures { result ≡ is_note text.now }
{
    text.starts_with(b"\\")
}

// Copies lines of the file. Returns false if there are fewer.
fn copy_lines(state: &mut PatchState, count: usize) -> Result<bool, AllocError>
    requires { IsBounded state.old }
    ensures copied { IfOk result (λ b. IsTrue b
        → copied count (state_view state.old) ≡ Some (state_view state.new)) }
    ensures fewer { IfOk result (λ b. IsFalse b
        → copied count (state_view state.old) ≡ None) }
    ensures bounded { OnOk result (IsBounded state.new) }
{
    for _ in 0..count {
        if state.rest.is_empty() {
            return Ok(false);
        }
        let (line, after) = split_first_line(state.rest);
        state.output.extend_from_slice(line)?;
        state.rest = after;
        state.position += 1;
    }
    Ok(true)
}

// Starts a hunk, after the lines before it.
fn start_hunk(
    state: &mut PatchState,
    header: Option<HunkHeader>,
) -> Result<Option<ExpectedInPatch>, AllocError>
    requires { IsBounded state.old }
    ensures step { IfOk result (λ fault. outcome (state_view state.new) fault
        ≡ with_header (state_view state.old) (header_view header)) }
    ensures bounded { OnOk result (IsBounded state.new) }
{
    match header {
        Some(header) => {
            if header.before < state.position {
                return Ok(Some(ExpectedInPatch::LaterHunk));
            }
            if !copy_lines(state, header.before - state.position)? {
                return Ok(Some(ExpectedInPatch::LaterHunk));
            }
            state.left = header.left;
            state.right = header.right;
            Ok(None)
        }
        None => Ok(Some(ExpectedInPatch::HunkHeader)),
    }
}

// Passes the next line of the file, which has to be this one.
fn pass_left_line(state: &mut PatchState, line: &[u8]) -> Option<ExpectedInPatch>
    requires { IsBounded state.old }
    ensures step { outcome (state_view state.new) result
        ≡ with_left (state_view state.old) line.now }
    ensures bounded { IsBounded state.new }
{
    if state.left == 0 {
        return Some(ExpectedInPatch::HunkLine);
    }
    if state.rest.is_empty() {
        return Some(ExpectedInPatch::LeftLine);
    }
    let (first, after) = split_first_line(state.rest);
    if first != line {
        return Some(ExpectedInPatch::LeftLine);
    }
    state.rest = after;
    state.position += 1;
    state.left -= 1;
    None
}

// Appends a line to the output.
fn push_right_line(
    state: &mut PatchState,
    line: &[u8],
) -> Result<Option<ExpectedInPatch>, AllocError>
    requires { IsBounded state.old }
    ensures step { IfOk result (λ fault. outcome (state_view state.new) fault
        ≡ with_right (state_view state.old) line.now) }
    ensures bounded { OnOk result (IsBounded state.new) }
{
    if state.right == 0 {
        return Ok(Some(ExpectedInPatch::HunkLine));
    }
    state.output.extend_from_slice(line)?;
    state.right -= 1;
    Ok(None)
}

fn push_context_line(
    state: &mut PatchState,
    line: &[u8],
) -> Result<Option<ExpectedInPatch>, AllocError>
    requires { IsBounded state.old }
    ensures step { IfOk result (λ fault. outcome (state_view state.new) fault
        ≡ then_right line.now (with_left (state_view state.old) line.now)) }
    ensures bounded { OnOk result (IsBounded state.new) }
{
    match pass_left_line(state, line) {
        Some(expected) => Ok(Some(expected)),
        None => push_right_line(state, line),
    }
}

#[tactic(auto, using(crate::proofs::Applying::hunk_line_steps))]
fn push_hunk_line(
    state: &mut PatchState,
    line: &[u8],
) -> Result<Option<ExpectedInPatch>, AllocError>
    requires { IsBounded state.old }
    ensures step { IfOk result (λ fault. outcome (state_view state.new) fault
        ≡ with_hunk_line (state_view state.old) line.now) }
    ensures bounded { OnOk result (IsBounded state.new) }
{
    if line.is_empty() {
        return Ok(Some(ExpectedInPatch::HunkLine));
    }
    let content = &line[1..];
    if line[0] == b' ' {
        push_context_line(state, content)
    } else if line[0] == b'-' {
        Ok(pass_left_line(state, content))
    } else if line[0] == b'+' {
        push_right_line(state, content)
    } else {
        Ok(Some(ExpectedInPatch::HunkLine))
    }
}

fn push_line(state: &mut PatchState, line: &[u8]) -> Result<Option<ExpectedInPatch>, AllocError>
    requires { IsBounded state.old }
    ensures step { IfOk result (λ fault. outcome (state_view state.new) fault
        ≡ with_line (state_view state.old) line.now) }
    ensures bounded { OnOk result (IsBounded state.new) }
{
    match state.part {
        PatchPart::Preamble => {
            if !line.starts_with(b"--- ") {
                return Ok(None);
            }
            state.part = PatchPart::Names;
            Ok(None)
        }
        PatchPart::Names => {
            if !line.starts_with(b"+++ ") {
                return Ok(Some(ExpectedInPatch::RightName));
            }
            state.part = PatchPart::Hunks;
            Ok(None)
        }
        PatchPart::Hunks => {
            if state.left == 0 && state.right == 0 {
                return start_hunk(state, parse_header(line));
            }
            push_hunk_line(state, line)
        }
    }
}

// A line of a patch without its LF if a note follows, the rest of the patch after the note, and how
// many lines that were.
#[derive(Drop)]
struct PatchLine<'a> {
    line: &'a [u8],
    rest: &'a [u8],
    count: usize,
}

#[tactic(auto, using(crate::proofs::Applying::patch_line_steps))]
fn split_patch_line(text: &[u8]) -> PatchLine
    requires { 0 < length text.now }
    ensures lines { (n : ℕ) → patch_lines n (split_lines text.now)
        ≡ (n, result.line.now) ∷ patch_lines (n + result.count) (split_lines result.rest.now) }
    ensures count { length (split_lines text.now)
        ≡ result.count + length (split_lines result.rest.now) }
    ensures shorter { length result.rest.now + result.count ≤ length text.now }
    ensures positive { 0 < result.count }
{
    let (line, rest) = split_first_line(text);
    if !is_note(rest) {
        return PatchLine {
            line,
            rest,
            count: 1,
        };
    }
    let (_note, after) = split_first_line(rest);
    PatchLine {
        line: &line[..line.len() - 1],
        rest: after,
        count: 2,
    }
}

// Applies the lines of a patch. Returns the number of the line after the last one.
#[tactic(auto, using(crate::proofs::Applying::run_steps))]
fn push_lines(state: &mut PatchState, patch: &[u8]) -> Result<usize, PatchError>
    requires { IsBounded state.old }
    ensures { RunGives result (run (state_view state.old) (patch_lines 1 (split_lines patch.now)))
        (state_view state.new) (length (split_lines patch.now) + 1) }
{
    let mut rest = patch;
    let mut number = 1;
    while !rest.is_empty() {
        let next = split_patch_line(rest);
        match push_line(state, next.line) {
            Ok(None) => {}
            Ok(Some(expected)) => {
                return Err(PatchError::Fault(PatchFault {
                    line: number,
                    expected,
                }));
            }
            Err(error) => return Err(PatchError::Memory(error)),
        }
        rest = next.rest;
        number += next.count;
    }
    Ok(number)
}

fn missing_at_end(state: &PatchState, number: usize) -> Option<ExpectedInPatch>
    ensures { result ≡ missing number (state_view state.now) }
{
    match state.part {
        PatchPart::Preamble => {
            if number == 1 {
                return None;
            }
            Some(ExpectedInPatch::LeftName)
        }
        PatchPart::Names => Some(ExpectedInPatch::RightName),
        PatchPart::Hunks => {
            if state.left == 0 && state.right == 0 {
                return None;
            }
            Some(ExpectedInPatch::HunkLine)
        }
    }
}

// Applies a unified diff of one file at the line numbers that it states.
pub(super) fn apply_patch(alloc: Global, left: &[u8], patch: &[u8]) -> Result<Vec<u8>, PatchError>
    ensures { PatchGives result (applied left.now patch.now) }
{
    let mut state = PatchState {
        part: PatchPart::Preamble,
        rest: left,
        position: 0,
        output: Vec::new(alloc),
        left: 0,
        right: 0,
    };
    let number = match push_lines(&mut state, patch) {
        Ok(number) => number,
        Err(error) => return Err(error),
    };
    match missing_at_end(&state, number) {
        Some(expected) => Err(PatchError::Fault(PatchFault {
            line: number,
            expected,
        })),
        None => {
            let PatchState { rest, output, .. } = state;
            let mut bytes = output;
            match bytes.extend_from_slice(rest) {
                Ok(()) => Ok(bytes),
                Err(error) => Err(PatchError::Memory(error)),
            }
        }
    }
}
