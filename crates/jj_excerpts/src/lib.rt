//! Excerpts of byte strings, as messages quote them.
#![tactic(auto)]

ghost use Rattle.std.specs.Prelude.{◌≡◌, ◌≤◌, IfOk, length, take, string_bytes};
ghost use Rattle.jj_excerpts.specs.Excerpts.{dots_after, excerpt_of, first_characters, is_continuation, shown};

use jj_content::symbol_util::format_string;
use std::alloc::{AllocError, Global};

/// The most characters of an excerpt.
pub const MAX_CHARACTERS: usize = 60;

// The most bytes of an excerpt: a character of UTF-8 has at most four.
const MAX_BYTES: usize = 240;

/// Returns the byte string in double quotes: at most its first `MAX_CHARACTERS` characters, escaped
/// as by `format_string`, with U+FFFD for bytes that are not UTF-8. Three dots after the quotes
/// mean that there is more.
pub fn excerpt(alloc: Global, bytes: &[u8]) -> Result<String, AllocError>
    // The string is the excerpt of these bytes: their first characters in double quotes, escaped.
    ensures { IfOk result (λ quoted. string_bytes quoted ≡ excerpt_of bytes.now) }
{
    let prefix = first_characters(bytes);
    let text = String::from_utf8_lossy(alloc, prefix)?;
    let mut quoted = format_string(alloc, text.as_str())?;
    quoted.push_str(dots_after(prefix, bytes))?;
    Ok(quoted)
}

fn first_characters(bytes: &[u8]) -> &[u8]
    ensures { result.now ≡ first_characters bytes.now }
{
    let limit = bytes.len().min(MAX_BYTES);
    let len = shown_len(&bytes[..limit]);
    &bytes[..len]
}

// Three dots, if the prefix is not the whole.
fn dots_after(prefix: &[u8], bytes: &[u8]) -> &'static str
    ensures { result.now ≡ dots_after prefix.now bytes.now }
{
    if prefix.len() < bytes.len() {
        "..."
    } else {
        ""
    }
}

// The length of the first characters.
fn shown_len(bytes: &[u8]) -> usize
    ensures shown { take result bytes.now ≡ shown MAX_CHARACTERS bytes.now }
    ensures within { result ≤ length bytes.now }
{
    let mut len = 0;
    let mut left = MAX_CHARACTERS;
    while len < bytes.len() {
        if !is_continuation(bytes[len]) {
            if left == 0 {
                break;
            }
            left -= 1;
        }
        len += 1;
    }
    len
}

// A byte of a character after its first one.
fn is_continuation(byte: u8) -> bool
    ensures { result ≡ is_continuation byte }
{
    matches!(byte, 0x80..=0xbf)
}
