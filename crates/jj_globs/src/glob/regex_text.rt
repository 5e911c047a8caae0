//! Translation of a glob to a regular expression over bytes. Their equivalence is tested, not
//! proved.
use crate::glob::token::{ByteRange, Class, Options, Part, Token};
use std::alloc::{AllocError, Global};

// Translates the tokens. The `.` of the result has to match a line feed too.
pub(crate) fn regex_of_tokens(
    alloc: Global,
    tokens: &[Token],
    options: Options,
) -> Result<String, AllocError> {
    let mut text = String::from_str(alloc, "(?-u)")?;
    if options.icase {
        text.push_str("(?i)")?;
    }
    text.push('^')?;
    for token in tokens {
        match token {
            Token::Part(part) => push_part(&mut text, part, options)?,
            Token::Open => text.push_str("(?:")?,
            Token::Or => text.push('|')?,
            Token::Close => text.push(')')?,
        }
    }
    text.push('$')?;
    Ok(text)
}

fn push_part(text: &mut String, part: &Part, options: Options) -> Result<(), AllocError> {
    let plain = if options.separator { "[^/]" } else { "." };
    match part {
        Part::Byte(byte) => push_byte(text, *byte),
        Part::AnyByte => text.push_str(plain),
        Part::Star => {
            text.push_str(plain)?;
            text.push('*')
        }
        Part::LeadingDirs => text.push_str("(?:/?|.*/)"),
        Part::InnerDirs => text.push_str("(?:/|/.*/)"),
        Part::Below => text.push_str("/.*"),
        Part::Everything => text.push_str(".*"),
        Part::OneOf(class) => push_class(text, class),
    }
}

fn push_class(text: &mut String, class: &Class) -> Result<(), AllocError> {
    text.push_str(if class.is_negated() { "[^" } else { "[" })?;
    for range in class.ranges() {
        push_range(text, *range)?;
    }
    text.push(']')
}

fn push_range(text: &mut String, range: ByteRange) -> Result<(), AllocError> {
    push_byte(text, range.first)?;
    if range.first == range.last {
        return Ok(());
    }
    text.push('-')?;
    push_byte(text, range.last)
}

// Appends a literal byte, escaped if it is a metacharacter or not ASCII.
fn push_byte(text: &mut String, byte: u8) -> Result<(), AllocError> {
    match byte {
        b'\\'
        | b'.'
        | b'+'
        | b'*'
        | b'?'
        | b'('
        | b')'
        | b'|'
        | b'['
        | b']'
        | b'{'
        | b'}'
        | b'^'
        | b'$'
        | b'#'
        | b'&'
        | b'-'
        | b'~' => {
            text.push('\\')?;
            text.push(char::from(byte))
        }
        0..=127 => text.push(char::from(byte)),
        _ => write!(text, "\\x{byte:02x}"),
    }
}
