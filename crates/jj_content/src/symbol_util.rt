//! Escaping and unescaping of double-quoted strings.
ghost use Rattle.std.specs.Prelude.{◌≡◌, ◌==◌, ℕ, ◌<◌, ◌++◌, None, IfOk, OnOk, MatchOption, is_ok, encode_utf8, find, flat_map, string_bytes};
ghost use Rattle.std.specs.Fmt.{WritesInCalls};
ghost use Rattle.jj_content.specs.Symbols.{letter_escapes, escaped_byte, escaped_string, quoted_string, letter_char, IsEscapeOf};

use crate::hex_util::hex_digit_char;
use std::alloc::{AllocError, Global};
use std::fmt;

// Returns the two-character escape of `c`, if it has one.
fn letter_escape(c: char) -> Option<&'static str>
    ensures { MatchOption result (find (λ e. e.0 == c) letter_escapes ≡ None)
        (λ escape. (c < 128) × (escaped_byte c ≡ escape.now)) }
{
    match c {
        '"' => Some("\\\""),
        '\\' => Some("\\\\"),
        '\t' => Some("\\t"),
        '\r' => Some("\\r"),
        '\n' => Some("\\n"),
        '\0' => Some("\\0"),
        _ => None,
    }
}

fn push_escaped(escaped: &mut String, c: char) -> Result<(), AllocError>
    ensures { OnOk result (string_bytes escaped.new ≡ string_bytes escaped.old
        ++ flat_map escaped_byte (encode_utf8 c)) }
{
    match letter_escape(c) {
        Some(escape) => escaped.push_str(escape),
        None if c.is_ascii_control() => {
            let byte = c as u8;
            escaped.push_str("\\x")?;
            escaped.push(hex_digit_char(byte >> 4))?;
            escaped.push(hex_digit_char(byte & 0xf))
        }
        None => escaped.push(c),
    }
}

fn escape_string_to_buf(escaped: &mut String, unescaped: &str) -> Result<(), AllocError>
    ensures { OnOk result (string_bytes escaped.new ≡ string_bytes escaped.old
        ++ escaped_string unescaped.now) }
{
    for c in unescaped.chars() {
        push_escaped(escaped, c)?;
    }
    Ok(())
}

/// Escapes a string for use between double quotes: `\"`, `\\`, `\t`, `\r`, `\n` and `\0`, and any
/// other ASCII control character as `\x` and two hex digits. All other characters are unchanged.
pub fn escape_string(alloc: Global, unescaped: &str) -> Result<String, AllocError>
    ensures { IfOk result (λ text. string_bytes text ≡ escaped_string unescaped.now) }
{
    let mut escaped = String::with_capacity(alloc, unescaped.len())?;
    escape_string_to_buf(&mut escaped, unescaped)?;
    Ok(escaped)
}

/// Returns the string in double quotes, escaped as by `escape_string`.
pub fn format_string(alloc: Global, unescaped: &str) -> Result<String, AllocError>
    ensures { IfOk result (λ text. string_bytes text ≡ quoted_string unescaped.now) }
{
    let mut escaped = String::with_capacity(alloc, unescaped.len() + 2)?;
    escaped.push('"')?;
    escape_string_to_buf(&mut escaped, unescaped)?;
    escaped.push('"')?;
    Ok(escaped)
}

fn write_escaped<W: fmt::Write>(writer: &mut W, c: char) -> fmt::Result
    ensures { OnOk result (WritesInCalls W.write_str_gives writer.old
        (flat_map escaped_byte (encode_utf8 c)) writer.new) }
{
    match letter_escape(c) {
        Some(escape) => writer.write_str(escape)?,
        None if c.is_ascii_control() => {
            let byte = c as u8;
            writer.write_str("\\x")?;
            writer.write_char(hex_digit_char(byte >> 4))?;
            writer.write_char(hex_digit_char(byte & 0xf))?;
        }
        None => writer.write_char(c)?,
    }
    Ok(())
}

/// Writes the string in double quotes, escaped as by `escape_string`. Does not allocate.
pub fn write_quoted<W: fmt::Write>(writer: &mut W, text: &str) -> fmt::Result
    ensures { OnOk result (WritesInCalls W.write_str_gives writer.old
        (quoted_string text.now) writer.new) }
{
    writer.write_char('"')?;
    for c in text.chars() {
        write_escaped(writer, c)?;
    }
    writer.write_char('"')?;
    Ok(())
}

fn unescape_letter(letter: u8) -> Option<char>
    ensures { result ≡ letter_char letter }
{
    match letter {
        b'"' => Some('"'),
        b'\\' => Some('\\'),
        b't' => Some('\t'),
        b'r' => Some('\r'),
        b'n' => Some('\n'),
        b'0' => Some('\0'),
        b'e' => Some('\x1b'),
        _ => None,
    }
}

/// Returns the character that an escape sequence represents: any escape that `escape_string`
/// writes, `\e`, or `\x` followed by an optional `+` and one or more hex digits of value at most
/// 255. Returns `None` for any other string.
pub fn unescape_char(escaped: &str) -> Option<char>
    ensures { MatchOption result ((c : ℕ) → ¬ (IsEscapeOf escaped.now c))
        (λ c. IsEscapeOf escaped.now c) }
{
    match escaped.as_bytes() {
        [b'\\', letter] => unescape_letter(*letter),
        [b'\\', b'x', ..] => match u8::from_str_radix(&escaped[2..], 16) {
            Ok(code) => Some(char::from(code)),
            Err(_) => None,
        },
        _ => None,
    }
}
