//! Names of files in the first two lines of a unified diff, quoted as Git quotes them.
ghost use Rattle.std.specs.Prelude.{◌≡◌, ◌==◌, ◌<◌, ◌++◌, OnOk};
ghost use Rattle.std.specs.List.{flat_map, list_all, list_any};
ghost use Rattle.jj_diff_presentation.specs.Names.{letter_of, escape_of, is_plain, quoted, side_name, tab_after, name_line};

use std::alloc::AllocError;

// The letter after a backslash, for the bytes that have one.
fn letter(byte: u8) -> Option<u8>
    ensures { result ≡ letter_of byte }
{
    match byte {
        b'"' | b'\\' => Some(byte),
        7 => Some(b'a'),
        8 => Some(b'b'),
        9 => Some(b't'),
        10 => Some(b'n'),
        11 => Some(b'v'),
        12 => Some(b'f'),
        13 => Some(b'r'),
        _ => None,
    }
}

fn push_escaped(text: &mut Vec<u8>, byte: u8) -> Result<(), AllocError>
    ensures { OnOk result (text.new.items ≡ text.old.items ++ escape_of byte) }
{
    if let Some(letter) = letter(byte) {
        text.extend_from_slice(&[b'\\', letter])
    } else if byte >= 32 && byte < 127 {
        text.extend_from_slice(&[byte])
    } else {
        let digits = [b'0' + byte / 64, b'0' + byte / 8 % 8, b'0' + byte % 8];
        text.extend_from_slice(&[b'\\', digits[0], digits[1], digits[2]])
    }
}

fn push_quoted(text: &mut Vec<u8>, side: &[u8], path: &[u8]) -> Result<(), AllocError>
    ensures { OnOk result (text.new.items ≡ text.old.items ++ quoted side.now path.now) }
{
    text.push(b'"')?;
    text.extend_from_slice(side)?;
    for byte in path {
        push_escaped(text, *byte)?;
    }
    text.push(b'"')?;
    Ok(())
}

fn is_plain(byte: u8) -> bool
    ensures { result ≡ is_plain byte }
{
    byte >= 32 && byte < 127 && byte != b'"' && byte != b'\\'
}

fn are_plain(path: &[u8]) -> bool
    ensures { result ≡ list_all is_plain path.now }
{
    path.iter().all(|byte| is_plain(*byte))
}

fn has_space(path: &[u8]) -> bool
    ensures { result ≡ list_any (λ b. b == 32) path.now }
{
    path.iter().any(|byte| *byte == b' ')
}

// Appends the name of a file after `side`, in quotes if it needs them.
pub(super) fn push_side_name(text: &mut Vec<u8>, side: &[u8], path: &[u8]) -> Result<(), AllocError>
    ensures { OnOk result (text.new.items ≡ text.old.items ++ side_name side.now path.now) }
{
    if !are_plain(path) {
        return push_quoted(text, side, path);
    }
    text.extend_from_slice(side)?;
    text.extend_from_slice(path)
}

fn push_tab(text: &mut Vec<u8>, path: &[u8]) -> Result<(), AllocError>
    ensures { OnOk result (text.new.items ≡ text.old.items ++ tab_after path.now) }
{
    if !has_space(path) {
        return Ok(());
    }
    text.push(b'\t')?;
    Ok(())
}

// Appends a line that names a file: `first`, the name after `side`, and a TAB if it has a space.
pub(super) fn push_name_line(
    text: &mut Vec<u8>,
    first: &[u8],
    side: &[u8],
    path: &[u8],
) -> Result<(), AllocError>
    ensures { OnOk result
        (text.new.items ≡ text.old.items ++ name_line first.now side.now path.now) }
{
    text.extend_from_slice(first)?;
    push_side_name(text, side, path)?;
    push_tab(text, path)?;
    text.push(b'\n')?;
    Ok(())
}
