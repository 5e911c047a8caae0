//! Paths as Git prints them: in double quotes if they have control characters, quotes or
//! backslashes, which are escaped as in C.
use std::alloc::{AllocError, Global};

fn needs_quotes(path: &str) -> bool {
    for byte in path.bytes() {
        if byte < b' ' || matches!(byte, b'"' | b'\\' | 0x7f) {
            return true;
        }
    }
    false
}

// Appends a character of a path in quotes.
fn push_escaped(alloc: Global, output: &mut String, character: char) -> Result<(), AllocError> {
    match character {
        '\u{7}' => output.push_str("\\a"),
        '\u{8}' => output.push_str("\\b"),
        '\t' => output.push_str("\\t"),
        '\n' => output.push_str("\\n"),
        '\u{b}' => output.push_str("\\v"),
        '\u{c}' => output.push_str("\\f"),
        '\r' => output.push_str("\\r"),
        '"' => output.push_str("\\\""),
        '\\' => output.push_str("\\\\"),
        '\0'..='\u{1f}' | '\u{7f}' => {
            let code = u32::from(character);
            output.push_str(format!(in alloc; "\\{code:03o}")?.as_str())
        }
        _ => output.push(character),
    }
}

/// Appends a path as Git prints it with `core.quotePath=false`.
pub fn push_path(alloc: Global, output: &mut String, path: &str) -> Result<(), AllocError> {
    if !needs_quotes(path) {
        return output.push_str(path);
    }
    output.push('"')?;
    for character in path.chars() {
        push_escaped(alloc, output, character)?;
    }
    output.push('"')
}
