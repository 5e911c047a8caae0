//! Lists of paths, as `find` and `git ls-files` print them: which of their lines are in a set.
ghost use Rattle.std.specs.Prelude.{◌≡◌, ◌↔◌, ◌==◌, ◌<◌, ℕ, false, IsTrue, List, Some, count_by, length, map, position, slice_get, IfOk, IfErr};
ghost use Rattle.std.specs.List.{slice_split};
ghost use Rattle.jj_filesets.specs.Listing.{ends_in_return, ended_lines, invalid_count, is_invalid_line, is_quoted, line_fault, lines_of, path_fault, text_fault, separator, IsFaultOf, IsLineIn, IsListError, IsLineError, PrintsSet};
ghost use Rattle.jj_filesets.specs.Selection.{IsSelected};
ghost use Rattle.jj_filesets.specs.declared.listing.ListError.{ListError};

use crate::fileset::{FilesetExpression, is_file_in};
use crate::path_string::{is_absolute, is_path, is_relative, without_dot};
use jj_excerpts::excerpt;
use jj_paths::repo_path::{InvalidNewRepoPathError, RepoPath};
use std::alloc::{AllocError, AllocFailed, Global};
use thiserror::Error;

/// How a list is read.
#[derive(Clone, Copy, Debug, PartialEq, Eq)]
pub struct ListOptions {
    /// Lines end in NUL, not in LF, and are paths as they are.
    pub nul: bool,
    /// Lines that are no paths are skipped.
    pub skips_invalid: bool,
}

/// Why a line is no path relative to the root of a repository.
#[derive(Clone, Copy, Debug, PartialEq, Eq, Error)]
pub enum LineFault {
    /// The line is in double quotes, as git writes names with special characters.
    #[error("is quoted by git; use -z in both commands")]
    Quoted,
    /// The line ends in a carriage return.
    #[error("ends in a carriage return; the list has CRLF lines")]
    CarriageReturn,
    /// The line is not UTF-8.
    #[error("is not UTF-8")]
    NotUtf8,
    /// The line begins with a slash.
    #[error("is absolute; paths are relative to the root of the repository")]
    Absolute,
    /// A name is empty, `.` or `..`.
    #[error("has an empty name or one of the names . and ..")]
    InvalidName,
}

/// An error of a list.
#[derive(Debug, Drop, Error)]
pub enum ListError {
    /// The first line that is no path, counted from 1.
    #[error("line {number}: {excerpt} {fault}")]
    Line {
        number: usize,
        excerpt: String,
        fault: LineFault,
    },
    #[error("out of memory")]
    Memory,
}

impl From<AllocError> for ListError {
    ghost from_gives = { λ _ error. error ≡ ListError.Memory };

    fn from(_error: AllocError) -> Self {
        ListError::Memory
    }
}

impl<T: Drop> From<AllocFailed<T>> for ListError {
    ghost from_gives = { λ _ error. error ≡ ListError.Memory };

    fn from(_error: AllocFailed<T>) -> Self {
        ListError::Memory
    }
}

/// The lines of a list that are in a set.
#[derive(Debug, Drop)]
pub struct SelectedLines {
    /// The lines, each as it was read and with its end.
    pub output: Vec<u8>,
    /// How many lines are no paths.
    pub invalid: usize,
}

/// Returns the lines that are in the set: those that are paths, without `./` at their start, of
/// members of the set. A line that is empty is the root, which no list has. Fails with the first
/// line that is no path, unless the options skip such lines.
pub fn select_lines(
    alloc: Global,
    expression: &FilesetExpression,
    options: ListOptions,
    input: &[u8],
) -> Result<SelectedLines, ListError>
    // The output has exactly the lines that are paths of files in the set, unchanged and in order.
    ensures lines { IfOk result (λ selected.
        PrintsSet expression.now options.nul input.now selected.output.items) }
    // `invalid` is the number of lines that are no paths.
    ensures invalid { IfOk result (λ selected.
        selected.invalid ≡ invalid_count options.nul (lines_of options.nul input.now)) }
    // Unless such lines are skipped, there is none after a success.
    ensures strict { IfOk result (λ selected.
        options.skips_invalid ≡ false → selected.invalid ≡ 0) }
    // An error names the first line that is no path, which is not skipped, or memory ran out.
    ensures error { IfErr result (IsListError options input.now) }
{
    let separator = separator(options.nul);
    let lines = split_lines(alloc, separator, input)?;
    let invalid = check_lines(alloc, options, &lines)?;
    let found = lines_in(alloc, expression, options.nul, &lines)?;
    let output = ended_lines(alloc, separator, &found)?;
    Ok(SelectedLines { output, invalid })
}

fn separator(nul: bool) -> u8
    ensures { result ≡ separator nul }
{
    if nul { 0 } else { b'\n' }
}

// The part after the last separator is a line too.
fn split_lines(alloc: Global, separator: u8, input: &[u8]) -> Result<Vec<&[u8]>, AllocError>
    ensures { IfOk result (λ lines. map (λ line. line.now) lines.items
        ≡ slice_split (λ b. b == separator) input.now) }
{
    input.split(|byte| *byte == separator).collect(alloc)
}

// Returns how many lines are no paths, or the first of them.
fn check_lines(alloc: Global, options: ListOptions, lines: &[&[u8]]) -> Result<usize, ListError>
    ensures count { IfOk result (λ count.
        count ≡ invalid_count options.nul (map (λ line. line.now) lines.now)) }
    ensures strict { IfOk result (λ count. options.skips_invalid ≡ false → count ≡ 0) }
    ensures error { IfErr result (IsLineError options (map (λ line. line.now) lines.now)) }
{
    if options.skips_invalid {
        return Ok(invalid_count(options.nul, lines));
    }
    match first_invalid(options.nul, lines) {
        Some(index) => Err(line_error(alloc, options.nul, lines, index)),
        None => Ok(0),
    }
}

fn invalid_count(nul: bool, lines: &[&[u8]]) -> usize
    ensures { result ≡ count_by (λ line. is_invalid_line nul line.now) lines.now }
{
    lines
        .iter()
        .filter(|line| is_invalid_line(nul, line))
        .count()
}

fn first_invalid(nul: bool, lines: &[&[u8]]) -> Option<usize>
    ensures { result ≡ position (λ line. is_invalid_line nul line.now) lines.now }
{
    lines.iter().position(|line| is_invalid_line(nul, line))
}

fn line_error(alloc: Global, nul: bool, lines: &[&[u8]], index: usize) -> ListError
    requires { index < length lines.now }
    ensures { (line : List ℕ) → slice_get (map (λ line. line.now) lines.now) index ≡ Some line
        → (fault : LineFault) → line_fault nul line ≡ Some fault
        → IsFaultOf index line fault result }
{
    let line = lines[index];
    match (line_fault(nul, line), excerpt(alloc, line)) {
        (Some(fault), Ok(excerpt)) => ListError::Line {
            number: index + 1,
            excerpt,
            fault,
        },
        _ => ListError::Memory,
    }
}

fn is_invalid_line(nul: bool, line: &[u8]) -> bool
    ensures { result ≡ is_invalid_line nul line.now }
{
    line_fault(nul, line).is_some()
}

/// Returns why a line is no path, if it is none.
pub fn line_fault(nul: bool, line: &[u8]) -> Option<LineFault>
    ensures { result ≡ line_fault nul line.now }
{
    if nul {
        text_fault(without_dot(line))
    } else if is_quoted(line) {
        Some(LineFault::Quoted)
    } else if ends_in_return(line) {
        Some(LineFault::CarriageReturn)
    } else {
        text_fault(without_dot(line))
    }
}

fn is_quoted(line: &[u8]) -> bool
    ensures { result ≡ is_quoted line.now }
{
    let len = line.len();
    len > 1 && line[0] == b'"' && line[len - 1] == b'"'
}

fn ends_in_return(line: &[u8]) -> bool
    ensures { result ≡ ends_in_return line.now }
{
    let len = line.len();
    len > 0 && line[len - 1] == b'\r'
}

fn text_fault(path: &[u8]) -> Option<LineFault>
    ensures { result ≡ text_fault path.now }
{
    match str::from_utf8(path) {
        Ok(_) => path_fault(path),
        Err(_) => Some(LineFault::NotUtf8),
    }
}

fn path_fault(path: &[u8]) -> Option<LineFault>
    ensures { result ≡ path_fault path.now }
{
    if is_absolute(path) {
        Some(LineFault::Absolute)
    } else if is_relative(path) && is_path(path) {
        None
    } else {
        Some(LineFault::InvalidName)
    }
}

// Returns the lines in the set, in order.
fn lines_in<'a>(
    alloc: Global,
    expression: &FilesetExpression,
    nul: bool,
    lines: &[&'a [u8]],
) -> Result<Vec<&'a [u8]>, AllocError>
    ensures { IfOk result (λ found. IsSelected (IsLineIn expression.now nul)
        (map (λ line. line.now) lines.now) (map (λ line. line.now) found.items)) }
{
    let mut found = Vec::new(alloc);
    let mut stack = Vec::new(alloc);
    for line in lines {
        if is_line_in(alloc, expression, nul, *line, &mut stack)? {
            found.push(*line)?;
        }
    }
    Ok(found)
}

fn is_line_in(
    alloc: Global,
    expression: &FilesetExpression,
    nul: bool,
    line: &[u8],
    stack: &mut Vec<bool>,
) -> Result<bool, AllocError>
    ensures { IfOk result (λ yes. IsTrue yes ↔ IsLineIn expression.now nul line.now) }
{
    if is_invalid_line(nul, line) {
        return Ok(false);
    }
    let Ok(path) = str::from_utf8(without_dot(line)) else {
        return Ok(false);
    };
    match RepoPath::from_internal_string(alloc, path) {
        Ok(path) => is_file_in(path, expression, stack),
        Err(InvalidNewRepoPathError::Memory) => Err(AllocError),
        Err(InvalidNewRepoPathError::Invalid { value: _ }) => Ok(false),
    }
}

fn ended_lines(alloc: Global, separator: u8, lines: &[&[u8]]) -> Result<Vec<u8>, AllocError>
    ensures { IfOk result (λ output. output.items
        ≡ ended_lines separator (map (λ line. line.now) lines.now)) }
{
    let mut output = Vec::new(alloc);
    for line in lines {
        output.extend_from_slice(line)?;
        output.push(separator)?;
    }
    Ok(output)
}
