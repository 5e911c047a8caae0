//! Lines, comments and blocks of data.
ghost use Rattle.std.specs.Prelude.{◌≡◌, ◌≤◌, drop, false, length, true};
ghost use Rattle.std.specs.Option.{option_map};
ghost use Rattle.jj_fast_import.specs.Lines.{counted, data_at, delimited, end_of, Gives, line_after, line_at, optional, required, skip_lf, without_comments};

use crate::fault::{Expected, ParseError, Stop};
use crate::words::{number, split_once, strip};
use std::alloc::Global;

pub(crate) fn malformed(expected: Expected, left: usize) -> ParseError
    ensures { result ≡ ParseError.Stop (Stop.Malformed expected left) }
{
    ParseError::Stop(Stop::Malformed { expected, left })
}

pub(crate) const INCOMPLETE: ParseError = ParseError::Stop(Stop::Incomplete);

// Skips lines that begin with `#`.
pub(crate) fn skip_comments(bytes: &[u8]) -> &[u8]
    ensures { result.now ≡ without_comments false bytes.now }
{
    let mut within = false;
    let mut rest = bytes;
    while let Some((byte, after)) = rest.split_first() {
        if !within && *byte != b'#' {
            return rest;
        }
        within = *byte != b'\n';
        rest = after;
    }
    rest
}

// The next line without its line feed, and the bytes after it. `None` at the end of the stream.
#[tactic(auto, unfolding(crate::specs::Lines::line_at))]
pub(crate) fn line(at_end: bool, bytes: &[u8]) -> Result<Option<(&[u8], &[u8])>, ParseError>
    ensures { Gives (λ line. option_map (λ parts. (parts.0.now, parts.1.now)) line) result
        (line_at at_end bytes.now) }
{
    let lines = skip_comments(bytes);
    if lines.is_empty() {
        return if at_end { Ok(None) } else { Err(INCOMPLETE) };
    }
    match split_once(lines, b'\n') {
        Some(parts) => Ok(Some(parts)),
        None => Err(INCOMPLETE),
    }
}

// The bytes after `word` in the next line, and the bytes after the line. `None` and the same bytes
// if the line begins otherwise.
#[tactic(auto, unfolding(crate::specs::Lines::optional))]
pub(crate) fn optional<'a>(
    word: &[u8],
    at_end: bool,
    bytes: &'a [u8],
) -> Result<(Option<&'a [u8]>, &'a [u8]), ParseError>
    ensures { Gives (λ read. (option_map (λ rest. rest.now) read.0, read.1.now)) result
        (optional word.now at_end bytes.now) }
{
    let Some((text, rest)) = line(at_end, bytes)? else {
        return Ok((None, bytes));
    };
    match strip(text, word) {
        Some(argument) => Ok((Some(argument), rest)),
        None => Ok((None, bytes)),
    }
}

// The bytes after `word` in the next line, and the bytes after the line.
#[tactic(auto, unfolding(crate::specs::Lines::required))]
pub(crate) fn required<'a>(
    word: &[u8],
    expected: Expected,
    at_end: bool,
    bytes: &'a [u8],
) -> Result<(&'a [u8], &'a [u8]), ParseError>
    ensures { Gives (λ read. (read.0.now, read.1.now)) result
        (required word.now expected at_end bytes.now) }
{
    let Some((text, rest)) = line(at_end, bytes)? else {
        return Err(INCOMPLETE);
    };
    match strip(text, word) {
        Some(argument) => Ok((argument, rest)),
        None => Err(malformed(expected, bytes.len())),
    }
}

// Skips a line feed, if one is next.
#[tactic(auto, unfolding(crate::specs::Lines::skip_lf))]
pub(crate) fn skip_lf(at_end: bool, bytes: &[u8]) -> Result<&[u8], ParseError>
    ensures { Gives (λ rest. rest.now) result (skip_lf at_end bytes.now) }
{
    match bytes {
        [] => if at_end { Ok(bytes) } else { Err(INCOMPLETE) },
        [b'\n', rest @ ..] => Ok(rest),
        [_, ..] => Ok(bytes),
    }
}

// The bytes after a line `delimiter`, if the first line is that.
fn line_after<'a>(delimiter: &[u8], bytes: &'a [u8]) -> Option<&'a [u8]>
    ensures { option_map (λ rest. rest.now) result ≡ line_after delimiter.now bytes.now }
{
    strip(strip(bytes, delimiter)?, b"\n")
}

// The bytes after a line `delimiter` at `len`, if a line starts there.
fn end_at<'a>(delimiter: &[u8], is_start: bool, bytes: &'a [u8], len: usize) -> Option<&'a [u8]>
    requires { len ≤ length bytes.now }
    ensures { option_map (λ rest. rest.now) result
        ≡ end_of delimiter.now is_start (drop len bytes.now) }
{
    if is_start {
        line_after(delimiter, &bytes[len..])
    } else {
        None
    }
}

// The bytes before the first line `delimiter`, and those after it.
fn delimited<'a>(delimiter: &[u8], bytes: &'a [u8]) -> Result<(&'a [u8], &'a [u8]), ParseError>
    ensures { Gives (λ read. (read.0.now, read.1.now)) result
        (delimited delimiter.now bytes.now) }
{
    let mut len = 0;
    let mut is_start = true;
    while len < bytes.len() {
        if let Some(rest) = end_at(delimiter, is_start, bytes, len) {
            return Ok((&bytes[..len], rest));
        }
        is_start = bytes[len] == b'\n';
        len += 1;
    }
    Err(INCOMPLETE)
}

// The first `count` bytes, and those after them.
fn counted(count: u64, bytes: &[u8]) -> Result<(&[u8], &[u8]), ParseError>
    ensures { Gives (λ read. (read.0.now, read.1.now)) result (counted count bytes.now) }
{
    if count > bytes.len() as u64 {
        return Err(INCOMPLETE);
    }
    Ok(bytes.split_at(count as usize))
}

// The bytes of a block of data, and those after it.
#[tactic(auto, unfolding(crate::specs::Lines::data_at))]
pub(crate) fn block(at_end: bool, bytes: &[u8]) -> Result<(&[u8], &[u8]), ParseError>
    ensures { Gives (λ read. (read.0.now, read.1.now)) result (data_at at_end bytes.now) }
{
    let (size, rest) = required(b"data ", Expected::Data, at_end, bytes)?;
    if let Some(delimiter) = strip(size, b"<<") {
        if delimiter.is_empty() {
            return Err(malformed(Expected::Data, bytes.len()));
        }
        return delimited(delimiter, rest);
    }
    match number(size) {
        Some(count) => counted(count, rest),
        None => Err(malformed(Expected::Data, bytes.len())),
    }
}
