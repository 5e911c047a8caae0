//! Changes of a commit.
ghost use Rattle.std.specs.Prelude.{◌≡◌, IfOk};
ghost use Rattle.std.specs.Option.{option_map};
ghost use Rattle.jj_fast_import.specs.Changes.{change_at, change_in, content_at, copy_at, delete_at, last_path, mode_of, modified_of, modify_at, note_at, path_before_space, reference_of, rename_at, two_paths};
ghost use Rattle.jj_fast_import.specs.Lines.{Gives};
ghost use Rattle.jj_fast_import.specs.Values.{change_value, content_value, reference_value};

use crate::command::{Change, Content, Mode, Reference};
use crate::fault::{Expected, ParseError};
use crate::lines::{block, line, malformed, skip_lf};
use crate::quoting::unquote;
use crate::words::{is_word, number, split_once, strip};
use std::alloc::{AllocError, Global};

// Parses `:NUMBER`, or any other name.
pub(crate) fn reference(alloc: Global, text: &[u8]) -> Result<Option<Reference>, AllocError>
    ensures { IfOk result (λ read. option_map reference_value read ≡ reference_of text.now) }
{
    match text {
        [] => Ok(None),
        [b':', digits @ ..] => Ok(number(digits).map(Reference::Mark)),
        [_, ..] => Ok(Some(Reference::Name(Vec::from_slice(alloc, text)?))),
    }
}

fn mode(text: &[u8]) -> Option<Mode>
    ensures { result ≡ mode_of text.now }
{
    if is_word(text, b"100644") || is_word(text, b"644") {
        Some(Mode::Normal)
    } else if is_word(text, b"100755") || is_word(text, b"755") {
        Some(Mode::Executable)
    } else if is_word(text, b"120000") {
        Some(Mode::Symlink)
    } else if is_word(text, b"160000") {
        Some(Mode::Gitlink)
    } else if is_word(text, b"040000") {
        Some(Mode::Directory)
    } else {
        None
    }
}

// Parses a path that ends the line: in quotes, or all bytes.
fn last_path(alloc: Global, text: &[u8]) -> Result<Option<Vec<u8>>, AllocError>
    ensures { IfOk result (λ read. option_map (λ path. path.items) read ≡ last_path text.now) }
{
    let Some(quoted) = strip(text, b"\"") else {
        return Ok(Some(Vec::from_slice(alloc, text)?));
    };
    match unquote(alloc, quoted)? {
        Some((path, [])) => Ok(Some(path)),
        _ => Ok(None),
    }
}

// Parses a path and the space after it: in quotes, or the bytes before the first space.
fn path_before_space(alloc: Global, text: &[u8]) -> Result<Option<(Vec<u8>, &[u8])>, AllocError>
    ensures { IfOk result (λ read. option_map (λ parts. (parts.0.items, parts.1.now)) read
        ≡ path_before_space text.now) }
{
    let Some(quoted) = strip(text, b"\"") else {
        return match split_once(text, b' ') {
            Some((path, rest)) => Ok(Some((Vec::from_slice(alloc, path)?, rest))),
            None => Ok(None),
        };
    };
    let Some((path, after)) = unquote(alloc, quoted)? else {
        return Ok(None);
    };
    match strip(after, b" ") {
        Some(rest) => Ok(Some((path, rest))),
        None => Ok(None),
    }
}

fn two_paths(alloc: Global, text: &[u8]) -> Result<Option<(Vec<u8>, Vec<u8>)>, AllocError>
    ensures { IfOk result (λ read. option_map (λ paths. (paths.0.items, paths.1.items)) read
        ≡ two_paths text.now) }
{
    let Some((from, rest)) = path_before_space(alloc, text)? else {
        return Ok(None);
    };
    match last_path(alloc, rest)? {
        Some(to) => Ok(Some((from, to))),
        None => Ok(None),
    }
}

// The content that a field names; its line is `left` bytes before the end of the input. `inline` is
// a block of data after the line.
#[tactic(auto, unfolding(crate::specs::Changes::content_at))]
fn content<'a>(
    alloc: Global,
    at_end: bool,
    expected: Expected,
    left: usize,
    text: &[u8],
    rest: &'a [u8],
) -> Result<(Content, &'a [u8]), ParseError>
    ensures { Gives (λ read. (content_value read.0, read.1.now)) result
        (content_at at_end expected left text.now rest.now) }
{
    if is_word(text, b"inline") {
        let (data, rest) = block(at_end, rest)?;
        let rest = skip_lf(at_end, rest)?;
        return Ok((Content::Inline(Vec::from_slice(alloc, data)?), rest));
    }
    match reference(alloc, text)? {
        Some(reference) => Ok((Content::Stored(reference), rest)),
        None => Err(malformed(expected, left)),
    }
}

// Parses `MODE CONTENT PATH`.
fn modified(alloc: Global, text: &[u8]) -> Result<Option<(Mode, &[u8], Vec<u8>)>, AllocError>
    ensures { IfOk result (λ read. option_map (λ parts. (parts.0, parts.1.now, parts.2.items)) read
        ≡ modified_of text.now) }
{
    let Some((mode_text, place)) = split_once(text, b' ') else {
        return Ok(None);
    };
    let Some(mode) = mode(mode_text) else {
        return Ok(None);
    };
    let Some((content, path_text)) = split_once(place, b' ') else {
        return Ok(None);
    };
    match last_path(alloc, path_text)? {
        Some(path) => Ok(Some((mode, content, path))),
        None => Ok(None),
    }
}

// `M MODE CONTENT PATH`, parsed after `M `; returns the bytes after the line too.
#[tactic(auto, unfolding(crate::specs::Changes::modify_at))]
fn modify<'a>(
    alloc: Global,
    at_end: bool,
    left: usize,
    text: &[u8],
    rest: &'a [u8],
) -> Result<(Change, &'a [u8]), ParseError>
    ensures { Gives (λ read. (change_value read.0, read.1.now)) result
        (modify_at at_end left text.now rest.now) }
{
    let Some((mode, content_text, path)) = modified(alloc, text)? else {
        return Err(malformed(Expected::Modify, left));
    };
    let (content, rest) = content(alloc, at_end, Expected::Modify, left, content_text, rest)?;
    let change = Change::Modify {
        mode,
        content,
        path,
    };
    Ok((change, rest))
}

// `D PATH`, parsed after `D `.
#[tactic(auto, unfolding(crate::specs::Changes::delete_at))]
fn delete<'a>(
    alloc: Global,
    left: usize,
    text: &[u8],
    rest: &'a [u8],
) -> Result<(Change, &'a [u8]), ParseError>
    ensures { Gives (λ read. (change_value read.0, read.1.now)) result
        (delete_at left text.now rest.now) }
{
    match last_path(alloc, text)? {
        Some(path) => Ok((Change::Delete { path }, rest)),
        None => Err(malformed(Expected::Delete, left)),
    }
}

// `R FROM TO`, parsed after `R `.
#[tactic(auto, unfolding(crate::specs::Changes::rename_at))]
fn rename<'a>(
    alloc: Global,
    left: usize,
    text: &[u8],
    rest: &'a [u8],
) -> Result<(Change, &'a [u8]), ParseError>
    ensures { Gives (λ read. (change_value read.0, read.1.now)) result
        (rename_at left text.now rest.now) }
{
    match two_paths(alloc, text)? {
        Some((from, to)) => Ok((Change::Rename { from, to }, rest)),
        None => Err(malformed(Expected::TwoPaths, left)),
    }
}

// `C FROM TO`, parsed after `C `.
#[tactic(auto, unfolding(crate::specs::Changes::copy_at))]
fn copy<'a>(
    alloc: Global,
    left: usize,
    text: &[u8],
    rest: &'a [u8],
) -> Result<(Change, &'a [u8]), ParseError>
    ensures { Gives (λ read. (change_value read.0, read.1.now)) result
        (copy_at left text.now rest.now) }
{
    match two_paths(alloc, text)? {
        Some((from, to)) => Ok((Change::Copy { from, to }, rest)),
        None => Err(malformed(Expected::TwoPaths, left)),
    }
}

// `N CONTENT COMMIT`, parsed after `N `.
#[tactic(auto, unfolding(crate::specs::Changes::note_at))]
fn note<'a>(
    alloc: Global,
    at_end: bool,
    left: usize,
    text: &[u8],
    rest: &'a [u8],
) -> Result<(Change, &'a [u8]), ParseError>
    ensures { Gives (λ read. (change_value read.0, read.1.now)) result
        (note_at at_end left text.now rest.now) }
{
    let Some((content_text, name)) = split_once(text, b' ') else {
        return Err(malformed(Expected::Note, left));
    };
    let Some(commit) = reference(alloc, name)? else {
        return Err(malformed(Expected::Note, left));
    };
    let (content, rest) = content(alloc, at_end, Expected::Note, left, content_text, rest)?;
    Ok((Change::NoteModify { content, commit }, rest))
}

// The change in a line and the bytes after it. `None` if the line is no change.
#[tactic(auto, unfolding(crate::specs::Changes::change_in))]
fn change_in<'a>(
    alloc: Global,
    at_end: bool,
    left: usize,
    text: &[u8],
    rest: &'a [u8],
) -> Result<Option<(Change, &'a [u8])>, ParseError>
    ensures { Gives (λ read. option_map (λ parts. (change_value parts.0, parts.1.now)) read) result
        (change_in at_end left text.now rest.now) }
{
    if let Some(text) = strip(text, b"M ") {
        return Ok(Some(modify(alloc, at_end, left, text, rest)?));
    }
    if let Some(text) = strip(text, b"D ") {
        return Ok(Some(delete(alloc, left, text, rest)?));
    }
    if let Some(text) = strip(text, b"R ") {
        return Ok(Some(rename(alloc, left, text, rest)?));
    }
    if let Some(text) = strip(text, b"C ") {
        return Ok(Some(copy(alloc, left, text, rest)?));
    }
    if let Some(text) = strip(text, b"N ") {
        return Ok(Some(note(alloc, at_end, left, text, rest)?));
    }
    if is_word(text, b"deleteall") {
        return Ok(Some((Change::DeleteAll, rest)));
    }
    Ok(None)
}

// The next change and the bytes after it. `None` if the next line is no change.
#[tactic(auto, unfolding(crate::specs::Changes::change_at))]
pub(crate) fn change(
    alloc: Global,
    at_end: bool,
    bytes: &[u8],
) -> Result<Option<(Change, &[u8])>, ParseError>
    ensures { Gives (λ read. option_map (λ parts. (change_value parts.0, parts.1.now)) read) result
        (change_at at_end bytes.now) }
{
    match line(at_end, bytes)? {
        Some((text, rest)) => change_in(alloc, at_end, bytes.len(), text, rest),
        None => Ok(None),
    }
}
