//! Paths in double quotes, escaped as in C: `\a \b \f \n \r \t \v \" \\`, and three octal digits.
ghost use Rattle.std.specs.Prelude.{◌≡◌, ◌<◌, IfOk, ℕ, Some};
ghost use Rattle.std.specs.Option.{option_map};
ghost use Rattle.jj_fast_import.specs.Quoting.{escaped_byte, octal_digit, quoted_byte, unquoted};

use std::alloc::{AllocError, Global};

// Where a quoted path is within an escape, with the octal digits so far.
#[derive(Clone, Copy)]
pub(crate) enum Escape {
    Outside,
    Backslash,
    FirstDigit(u8),
    SecondDigit(u8),
}

// The meaning of one byte of a quoted path.
pub(crate) enum QuotedByte {
    End,
    Literal(u8),
    Within(Escape),
    Invalid,
}

// The path after an opening quote, and the bytes after the closing one.
pub(crate) fn unquote(alloc: Global, text: &[u8]) -> Result<Option<(Vec<u8>, &[u8])>, AllocError>
    ensures { IfOk result (λ read. option_map (λ parts. (parts.0.items, parts.1.now)) read
        ≡ unquoted Escape.Outside text.now) }
{
    let mut bytes = Vec::new(alloc);
    let mut escape = Escape::Outside;
    let mut rest = text;
    while let Some((byte, after)) = rest.split_first() {
        match quoted_byte(escape, *byte) {
            QuotedByte::End => return Ok(Some((bytes, after))),
            QuotedByte::Within(next) => escape = next,
            QuotedByte::Literal(literal) => {
                bytes.push(literal)?;
                escape = Escape::Outside;
            }
            QuotedByte::Invalid => return Ok(None),
        }
        rest = after;
    }
    Ok(None)
}

// The transition function of the automaton of quoted paths.
fn quoted_byte(escape: Escape, byte: u8) -> QuotedByte
    ensures { result ≡ quoted_byte escape byte }
{
    match escape {
        Escape::Outside => match byte {
            b'"' => QuotedByte::End,
            b'\\' => QuotedByte::Within(Escape::Backslash),
            _ => QuotedByte::Literal(byte),
        },
        Escape::Backslash => escaped_byte(byte),
        Escape::FirstDigit(digits) => match octal_digit(byte) {
            Some(digit) => QuotedByte::Within(Escape::SecondDigit(digits % 8 * 8 + digit)),
            None => QuotedByte::Invalid,
        },
        Escape::SecondDigit(digits) => match octal_digit(byte) {
            Some(digit) => QuotedByte::Literal(digits % 32 * 8 + digit),
            None => QuotedByte::Invalid,
        },
    }
}

// The byte after a backslash.
fn escaped_byte(byte: u8) -> QuotedByte
    ensures { result ≡ escaped_byte byte }
{
    match byte {
        b'"' | b'\\' => QuotedByte::Literal(byte),
        b'a' => QuotedByte::Literal(7),
        b'b' => QuotedByte::Literal(8),
        b't' => QuotedByte::Literal(9),
        b'n' => QuotedByte::Literal(10),
        b'v' => QuotedByte::Literal(11),
        b'f' => QuotedByte::Literal(12),
        b'r' => QuotedByte::Literal(13),
        b'0'..=b'3' => QuotedByte::Within(Escape::FirstDigit(byte - b'0')),
        _ => QuotedByte::Invalid,
    }
}

fn octal_digit(byte: u8) -> Option<u8>
    ensures value { result ≡ octal_digit byte }
    ensures below { (d : ℕ) → result ≡ Some d → d < 8 }
{
    match byte {
        b'0'..=b'7' => Some(byte - b'0'),
        _ => None,
    }
}
