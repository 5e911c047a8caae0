//! Strings of an expression: words, quoted strings with escapes, and raw strings.
ghost use Rattle.std.specs.Prelude.{◌≡◌, ◌<◌, ◌≤◌, ◌+◌, ◌*◌, ◌%◌, length, IfOk};
ghost use Rattle.jj_filesets.specs.Strings.{is_space, is_word_byte, without_space, word, quoted, quoted_byte, escaped_byte, hex_value, raw, string_at, IsResultOf};

use crate::fileset::error::{FilesetParseError, FilesetParseErrorKind};
use std::alloc::Global;

// Where a quoted string is within an escape.
#[derive(Clone, Copy)]
pub(crate) enum Escape {
    Outside,
    Backslash,
    HighDigit,
    LowDigit(u8),
}

// The meaning of one byte of a quoted string.
pub(crate) enum QuotedByte {
    End,
    Literal(u8),
    Within(Escape),
    Invalid,
}

// Tab, line feed, vertical tab, form feed, carriage return and space.
pub(crate) fn is_space(byte: u8) -> bool
    ensures { result ≡ is_space byte }
{
    matches!(byte, 9..=13 | b' ')
}

// Skips the white space at the start.
pub(crate) fn skip_space(text: &[u8]) -> &[u8]
    ensures rest { result.now ≡ without_space text.now }
    ensures length { length result.now ≤ length text.now }
{
    let mut rest = text;
    while let Some((byte, after)) = rest.split_first() {
        if !is_space(*byte) {
            break;
        }
        rest = after;
    }
    rest
}

// A byte that is no white space, symbol, quote or colon.
pub(crate) fn is_word_byte(byte: u8) -> bool
    ensures { result ≡ is_word_byte byte }
{
    !is_space(byte)
        && byte != b'('
        && byte != b')'
        && byte != b'|'
        && byte != b'&'
        && byte != b'~'
        && byte != b':'
        && byte != b'"'
        && byte != b'\''
}

// Splits off the longest prefix of word bytes.
pub(crate) fn split_word(text: &[u8]) -> (&[u8], &[u8])
    ensures word { result.0.now ≡ (word text.now).0 }
    ensures rest { result.1.now ≡ (word text.now).1 }
    ensures lengths { length result.0.now + length result.1.now ≡ length text.now }
{
    let mut len = 0;
    while len < text.len() && is_word_byte(text[len]) {
        len += 1;
    }
    text.split_at(len)
}

// Reads the quoted string, raw string or word at the start. `total` is the length of the whole
// expression.
pub(crate) fn read_string<'a>(
    alloc: Global,
    total: usize,
    text: &'a [u8],
) -> Result<(Vec<u8>, &'a [u8]), FilesetParseError>
    requires { length text.now ≤ total }
    ensures string { IsResultOf (λ read. (read.0.items, read.1.now)) result
        (string_at total text.now) }
    ensures shorter { IfOk result (λ read. length read.1.now < length text.now) }
{
    let at = total - text.len();
    match text.split_first() {
        Some((b'"', rest)) => read_quoted(alloc, total, at, rest),
        Some((b'\'', rest)) => read_raw(alloc, at, rest),
        Some((byte, _)) if is_word_byte(*byte) => {
            let (word, rest) = split_word(text);
            Ok((Vec::from_slice(alloc, word)?, rest))
        }
        _ => Err(FilesetParseError::new(at, FilesetParseErrorKind::ExpectedString)),
    }
}

// Reads a raw string after its opening quote.
fn read_raw<'a>(
    alloc: Global,
    start: usize,
    text: &'a [u8],
) -> Result<(Vec<u8>, &'a [u8]), FilesetParseError>
    ensures string { IsResultOf (λ read. (read.0.items, read.1.now)) result (raw start text.now) }
    ensures shorter { IfOk result (λ read. length read.1.now < length text.now) }
{
    let mut bytes = Vec::new(alloc);
    let mut rest = text;
    while let Some((byte, after)) = rest.split_first() {
        if *byte == b'\'' {
            return Ok((bytes, after));
        }
        bytes.push(*byte)?;
        rest = after;
    }
    Err(FilesetParseError::new(start, FilesetParseErrorKind::UnclosedString))
}

// Reads a quoted string after its opening quote.
fn read_quoted<'a>(
    alloc: Global,
    total: usize,
    start: usize,
    text: &'a [u8],
) -> Result<(Vec<u8>, &'a [u8]), FilesetParseError>
    requires { length text.now ≤ total }
    ensures string { IsResultOf (λ read. (read.0.items, read.1.now)) result
        (quoted total start Escape.Outside text.now) }
    ensures shorter { IfOk result (λ read. length read.1.now < length text.now) }
{
    let mut bytes = Vec::new(alloc);
    let mut escape = Escape::Outside;
    let mut rest = text;
    while let Some((byte, after)) = rest.split_first() {
        match quoted_byte(escape, *byte) {
            QuotedByte::End => return Ok((bytes, after)),
            QuotedByte::Within(next) => escape = next,
            QuotedByte::Literal(literal) => {
                bytes.push(literal)?;
                escape = Escape::Outside;
            }
            QuotedByte::Invalid => {
                let at = total - rest.len();
                return Err(FilesetParseError::new(at, FilesetParseErrorKind::InvalidEscape));
            }
        }
        rest = after;
    }
    Err(FilesetParseError::new(start, FilesetParseErrorKind::UnclosedString))
}

// The transition function of the automaton of quoted strings.
fn quoted_byte(escape: Escape, byte: u8) -> QuotedByte
    ensures { result ≡ quoted_byte escape byte }
{
    match escape {
        Escape::Outside => match byte {
            b'"' => QuotedByte::End,
            b'\\' => QuotedByte::Within(Escape::Backslash),
            _ => QuotedByte::Literal(byte),
        },
        Escape::Backslash => escaped_byte(byte),
        Escape::HighDigit => match hex_value(byte) {
            Some(high) => QuotedByte::Within(Escape::LowDigit(high)),
            None => QuotedByte::Invalid,
        },
        Escape::LowDigit(high) => match hex_value(byte) {
            Some(low) => QuotedByte::Literal(byte_of(high, low)),
            None => QuotedByte::Invalid,
        },
    }
}

// The byte after a backslash.
fn escaped_byte(byte: u8) -> QuotedByte
    ensures { result ≡ escaped_byte byte }
{
    match byte {
        b'"' | b'\\' => QuotedByte::Literal(byte),
        b't' => QuotedByte::Literal(9),
        b'r' => QuotedByte::Literal(13),
        b'n' => QuotedByte::Literal(10),
        b'0' => QuotedByte::Literal(0),
        b'e' => QuotedByte::Literal(27),
        b'x' => QuotedByte::Within(Escape::HighDigit),
        _ => QuotedByte::Invalid,
    }
}

fn hex_value(byte: u8) -> Option<u8>
    ensures { result ≡ hex_value byte }
{
    match byte {
        b'0'..=b'9' => Some(byte - b'0'),
        b'a'..=b'f' => Some(byte - b'a' + 10),
        b'A'..=b'F' => Some(byte - b'A' + 10),
        _ => None,
    }
}

fn byte_of(high: u8, low: u8) -> u8
    ensures { result ≡ (16 * high + low) % 256 }
{
    ((16 * u16::from(high) + u16::from(low)) % 256) as u8
}
