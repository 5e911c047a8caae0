//! Escaping: a glob that matches one string only.
ghost use Rattle.std.specs.Prelude.{◌≡◌, ◌++◌, IfOk, OnOk, encode_utf8};
ghost use Rattle.std.specs.List.{flat_map};
ghost use Rattle.std.specs.String.{string_bytes};
ghost use Rattle.jj_globs.specs.GlobEscape.{MatchesOnly, literal_glob, escaped_byte, is_special};

use std::alloc::{AllocError, Global};

/// Returns whether the byte is one of `? * [ ] { } \`, which `escape` puts in brackets.
pub fn is_special(byte: u8) -> bool
    ensures { result ≡ is_special byte }
{
    matches!(byte, b'?' | b'*' | b'[' | b']' | b'{' | b'}' | b'\\')
}

// Appends the character, in brackets if it is special.
fn push_escaped(glob: &mut String, c: char) -> Result<(), AllocError>
    ensures { OnOk result (string_bytes glob.new ≡ string_bytes glob.old
        ++ flat_map escaped_byte (encode_utf8 c)) }
{
    match c {
        '?' => glob.push_str("[?]"),
        '*' => glob.push_str("[*]"),
        '[' => glob.push_str("[[]"),
        ']' => glob.push_str("[]]"),
        '{' => glob.push_str("[{]"),
        '}' => glob.push_str("[}]"),
        '\\' => glob.push_str("[\\]"),
        c => glob.push(c),
    }
}

/// Returns the string with each of `? * [ ] { } \` in brackets. Without `icase`, this glob matches
/// the string and nothing else: `a[?]` matches `a?` only.
pub fn escape(alloc: Global, text: &str) -> Result<String, AllocError>
    ensures text { IfOk result (λ glob. string_bytes glob ≡ literal_glob text.now) }
    ensures alone { IfOk result (λ glob. MatchesOnly (string_bytes glob) text.now) }
{
    let mut glob = String::with_capacity(alloc, text.len())?;
    for c in text.chars() {
        push_escaped(&mut glob, c)?;
    }
    Ok(glob)
}
