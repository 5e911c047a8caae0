//! Printer of commands, in the form of `git fast-export`, with a line feed after each block of
//! data.
ghost use Rattle.std.specs.Prelude.{◌≡◌, ◌++◌, ◌∷◌, [], OnOk, map, decimal, ◌+◌, ◌/◌, ◌%◌};
ghost use Rattle.std.specs.List.{flat_map, list_all};
ghost use Rattle.std.specs.Option.{option_map};
ghost use Rattle.jj_fast_import.specs.Quoting.{escape_of, is_plain, is_plain_path, letter_of, quoted};
ghost use Rattle.jj_fast_import.specs.Texts.{blob_text, change_text, command_text, commit_head, commit_text, content_name, data_text, from_text, inline_text, line, mark_text, merges_text, mode_text, modify_text, name_text, note_text, optional_person_text, optional_text, path_text, person_line_text, person_text, reference_line_text, reference_text, reset_text, tag_text, two_paths_text, zone_text};
ghost use Rattle.jj_fast_import.specs.Values.{blob_value, bytes_of, change_value, command_value, commit_value, content_value, person_value, reference_value, tag_value};

use crate::command::{Blob, Change, Command, Commit, Content, Mode, Person, Reference, Tag, Zone};
use itoa::Buffer;
use std::alloc::AllocError;

fn push_line(out: &mut Vec<u8>, word: &[u8], text: &[u8]) -> Result<(), AllocError>
    ensures { OnOk result (out.new.items ≡ out.old.items ++ line word.now text.now) }
{
    out.extend_from_slice(word)?;
    out.extend_from_slice(text)?;
    out.push(b'\n')?;
    Ok(())
}

fn push_number(out: &mut Vec<u8>, number: u64) -> Result<(), AllocError>
    ensures { OnOk result (out.new.items ≡ out.old.items ++ decimal number) }
{
    let mut digits = Buffer::new();
    out.extend_from_slice(digits.format(number).as_bytes())
}

fn push_mark(out: &mut Vec<u8>, mark: Option<u64>) -> Result<(), AllocError>
    ensures { OnOk result (out.new.items ≡ out.old.items ++ mark_text mark) }
{
    if let Some(mark) = mark {
        out.extend_from_slice(b"mark :")?;
        push_number(out, mark)?;
        out.push(b'\n')?;
    }
    Ok(())
}

fn push_optional(out: &mut Vec<u8>, word: &[u8], text: &Option<Vec<u8>>) -> Result<(), AllocError>
    ensures { OnOk result (out.new.items
        ≡ out.old.items ++ optional_text word.now (option_map bytes_of text.now)) }
{
    if let Some(text) = text {
        push_line(out, word, text)?;
    }
    Ok(())
}

fn push_two_digits(out: &mut Vec<u8>, number: u8) -> Result<(), AllocError>
    ensures { OnOk result (out.new.items
        ≡ out.old.items ++ (48 + number / 10 % 10) ∷ (48 + number % 10) ∷ []) }
{
    out.push(b'0' + number / 10 % 10)?;
    out.push(b'0' + number % 10)?;
    Ok(())
}

fn push_zone(out: &mut Vec<u8>, zone: Zone) -> Result<(), AllocError>
    ensures { OnOk result (out.new.items ≡ out.old.items ++ zone_text zone) }
{
    out.push(if zone.is_west { b'-' } else { b'+' })?;
    push_two_digits(out, zone.hours)?;
    push_two_digits(out, zone.minutes)
}

fn push_name(out: &mut Vec<u8>, name: &Option<Vec<u8>>) -> Result<(), AllocError>
    ensures { OnOk result (out.new.items
        ≡ out.old.items ++ name_text (option_map bytes_of name.now)) }
{
    if let Some(name) = name {
        out.extend_from_slice(name)?;
        out.push(b' ')?;
    }
    Ok(())
}

fn push_person(out: &mut Vec<u8>, person: &Person) -> Result<(), AllocError>
    ensures { OnOk result (out.new.items
        ≡ out.old.items ++ person_text (person_value person.now)) }
{
    push_name(out, &person.name)?;
    out.push(b'<')?;
    out.extend_from_slice(&person.email)?;
    out.extend_from_slice(b"> ")?;
    push_number(out, person.seconds)?;
    out.push(b' ')?;
    push_zone(out, person.zone)
}

fn push_person_line(out: &mut Vec<u8>, word: &[u8], person: &Person) -> Result<(), AllocError>
    ensures { OnOk result (out.new.items
        ≡ out.old.items ++ person_line_text word.now (person_value person.now)) }
{
    out.extend_from_slice(word)?;
    push_person(out, person)?;
    out.push(b'\n')?;
    Ok(())
}

fn push_optional_person(
    out: &mut Vec<u8>,
    word: &[u8],
    person: &Option<Person>,
) -> Result<(), AllocError>
    ensures { OnOk result (out.new.items
        ≡ out.old.items ++ optional_person_text word.now (option_map person_value person.now)) }
{
    if let Some(person) = person {
        push_person_line(out, word, person)?;
    }
    Ok(())
}

fn push_data(out: &mut Vec<u8>, data: &[u8]) -> Result<(), AllocError>
    ensures { OnOk result (out.new.items ≡ out.old.items ++ data_text data.now) }
{
    out.extend_from_slice(b"data ")?;
    push_number(out, data.len() as u64)?;
    out.push(b'\n')?;
    out.extend_from_slice(data)?;
    out.push(b'\n')?;
    Ok(())
}

fn push_reference(out: &mut Vec<u8>, reference: &Reference) -> Result<(), AllocError>
    ensures { OnOk result (out.new.items
        ≡ out.old.items ++ reference_text (reference_value reference.now)) }
{
    match reference {
        Reference::Mark(mark) => {
            out.push(b':')?;
            push_number(out, *mark)
        }
        Reference::Name(name) => out.extend_from_slice(name),
    }
}

fn push_reference_line(
    out: &mut Vec<u8>,
    word: &[u8],
    reference: &Reference,
) -> Result<(), AllocError>
    ensures { OnOk result (out.new.items
        ≡ out.old.items ++ reference_line_text word.now (reference_value reference.now)) }
{
    out.extend_from_slice(word)?;
    push_reference(out, reference)?;
    out.push(b'\n')?;
    Ok(())
}

fn push_from(out: &mut Vec<u8>, from: &Option<Reference>) -> Result<(), AllocError>
    ensures { OnOk result (out.new.items
        ≡ out.old.items ++ from_text (option_map reference_value from.now)) }
{
    if let Some(from) = from {
        push_reference_line(out, b"from ", from)?;
    }
    Ok(())
}

fn push_merges(out: &mut Vec<u8>, merges: &[Reference]) -> Result<(), AllocError>
    ensures { OnOk result (out.new.items
        ≡ out.old.items ++ merges_text (map reference_value merges.now)) }
{
    for merge in merges {
        push_reference_line(out, b"merge ", merge)?;
    }
    Ok(())
}

// A letter after a backslash, for the bytes that have one.
fn letter(byte: u8) -> Option<u8>
    ensures { result ≡ letter_of byte }
{
    match byte {
        b'"' | b'\\' => Some(byte),
        7 => Some(b'a'),
        8 => Some(b'b'),
        9 => Some(b't'),
        10 => Some(b'n'),
        11 => Some(b'v'),
        12 => Some(b'f'),
        13 => Some(b'r'),
        _ => None,
    }
}

fn push_escaped(out: &mut Vec<u8>, byte: u8) -> Result<(), AllocError>
    ensures { OnOk result (out.new.items ≡ out.old.items ++ escape_of byte) }
{
    if let Some(letter) = letter(byte) {
        out.extend_from_slice(&[b'\\', letter])
    } else if byte >= 32 && byte < 127 {
        out.extend_from_slice(&[byte])
    } else {
        let digits = [b'0' + byte / 64, b'0' + byte / 8 % 8, b'0' + byte % 8];
        out.extend_from_slice(&[b'\\', digits[0], digits[1], digits[2]])
    }
}

pub(crate) fn push_quoted(out: &mut Vec<u8>, path: &[u8]) -> Result<(), AllocError>
    ensures { OnOk result (out.new.items ≡ out.old.items ++ quoted path.now) }
{
    out.push(b'"')?;
    for byte in path {
        push_escaped(out, *byte)?;
    }
    out.push(b'"')?;
    Ok(())
}

fn is_plain(byte: u8) -> bool
    ensures { result ≡ is_plain byte }
{
    byte > 32 && byte < 127 && byte != b'"' && byte != b'\\'
}

fn are_plain(bytes: &[u8]) -> bool
    ensures { result ≡ list_all is_plain bytes.now }
{
    bytes.iter().all(|byte| is_plain(*byte))
}

fn is_plain_path(path: &[u8]) -> bool
    ensures { result ≡ is_plain_path path.now }
{
    !path.is_empty() && are_plain(path)
}

fn push_path(out: &mut Vec<u8>, path: &[u8]) -> Result<(), AllocError>
    ensures { OnOk result (out.new.items ≡ out.old.items ++ path_text path.now) }
{
    if is_plain_path(path) {
        out.extend_from_slice(path)
    } else {
        push_quoted(out, path)
    }
}

fn mode_text(mode: Mode) -> &'static [u8]
    ensures { result.now ≡ mode_text mode }
{
    match mode {
        Mode::Normal => b"100644",
        Mode::Executable => b"100755",
        Mode::Symlink => b"120000",
        Mode::Gitlink => b"160000",
        Mode::Directory => b"040000",
    }
}

fn push_content_name(out: &mut Vec<u8>, content: &Content) -> Result<(), AllocError>
    ensures { OnOk result (out.new.items
        ≡ out.old.items ++ content_name (content_value content.now)) }
{
    match content {
        Content::Stored(reference) => push_reference(out, reference),
        Content::Inline(_) => out.extend_from_slice(b"inline"),
    }
}

fn push_inline(out: &mut Vec<u8>, content: &Content) -> Result<(), AllocError>
    ensures { OnOk result (out.new.items
        ≡ out.old.items ++ inline_text (content_value content.now)) }
{
    match content {
        Content::Stored(_) => Ok(()),
        Content::Inline(data) => push_data(out, data),
    }
}

fn push_modify(
    out: &mut Vec<u8>,
    mode: Mode,
    content: &Content,
    path: &[u8],
) -> Result<(), AllocError>
    ensures { OnOk result (out.new.items
        ≡ out.old.items ++ modify_text mode (content_value content.now) path.now) }
{
    out.extend_from_slice(b"M ")?;
    out.extend_from_slice(mode_text(mode))?;
    out.push(b' ')?;
    push_content_name(out, content)?;
    out.push(b' ')?;
    push_path(out, path)?;
    out.push(b'\n')?;
    push_inline(out, content)
}

fn push_note(out: &mut Vec<u8>, content: &Content, commit: &Reference) -> Result<(), AllocError>
    ensures { OnOk result (out.new.items
        ≡ out.old.items ++ note_text (content_value content.now) (reference_value commit.now)) }
{
    out.extend_from_slice(b"N ")?;
    push_content_name(out, content)?;
    out.push(b' ')?;
    push_reference(out, commit)?;
    out.push(b'\n')?;
    push_inline(out, content)
}

fn push_path_line(out: &mut Vec<u8>, word: &[u8], path: &[u8]) -> Result<(), AllocError>
    ensures { OnOk result (out.new.items ≡ out.old.items ++ line word.now (path_text path.now)) }
{
    out.extend_from_slice(word)?;
    push_path(out, path)?;
    out.push(b'\n')?;
    Ok(())
}

fn push_two_paths(out: &mut Vec<u8>, word: &[u8], from: &[u8], to: &[u8]) -> Result<(), AllocError>
    ensures { OnOk result (out.new.items
        ≡ out.old.items ++ two_paths_text word.now from.now to.now) }
{
    out.extend_from_slice(word)?;
    push_path(out, from)?;
    out.push(b' ')?;
    push_path(out, to)?;
    out.push(b'\n')?;
    Ok(())
}

fn push_change(out: &mut Vec<u8>, change: &Change) -> Result<(), AllocError>
    ensures { OnOk result (out.new.items
        ≡ out.old.items ++ change_text (change_value change.now)) }
{
    match change {
        Change::Modify {
            mode,
            content,
            path,
        } => push_modify(out, *mode, content, path),
        Change::Delete { path } => push_path_line(out, b"D ", path),
        Change::Rename { from, to } => push_two_paths(out, b"R ", from, to),
        Change::Copy { from, to } => push_two_paths(out, b"C ", from, to),
        Change::DeleteAll => out.extend_from_slice(b"deleteall\n"),
        Change::NoteModify { content, commit } => push_note(out, content, commit),
    }
}

fn push_changes(out: &mut Vec<u8>, changes: &[Change]) -> Result<(), AllocError>
    ensures { OnOk result (out.new.items
        ≡ out.old.items ++ flat_map change_text (map change_value changes.now)) }
{
    for change in changes {
        push_change(out, change)?;
    }
    Ok(())
}

fn push_blob(out: &mut Vec<u8>, blob: &Blob) -> Result<(), AllocError>
    ensures { OnOk result (out.new.items ≡ out.old.items ++ blob_text (blob_value blob.now)) }
{
    out.extend_from_slice(b"blob\n")?;
    push_mark(out, blob.mark)?;
    push_optional(out, b"original-oid ", &blob.original_oid)?;
    push_data(out, &blob.data)
}

// The lines of a commit up to its message.
fn push_commit_head(out: &mut Vec<u8>, commit: &Commit) -> Result<(), AllocError>
    ensures { OnOk result (out.new.items
        ≡ out.old.items ++ commit_head (commit_value commit.now)) }
{
    push_line(out, b"commit ", &commit.ref_name)?;
    push_mark(out, commit.mark)?;
    push_optional(out, b"original-oid ", &commit.original_oid)?;
    push_optional_person(out, b"author ", &commit.author)?;
    push_person_line(out, b"committer ", &commit.committer)?;
    push_optional(out, b"encoding ", &commit.encoding)
}

fn push_commit(out: &mut Vec<u8>, commit: &Commit) -> Result<(), AllocError>
    ensures { OnOk result (out.new.items
        ≡ out.old.items ++ commit_text (commit_value commit.now)) }
{
    push_commit_head(out, commit)?;
    push_data(out, &commit.message)?;
    push_from(out, &commit.from)?;
    push_merges(out, &commit.merges)?;
    push_changes(out, &commit.changes)?;
    out.push(b'\n')?;
    Ok(())
}

fn push_tag(out: &mut Vec<u8>, tag: &Tag) -> Result<(), AllocError>
    ensures { OnOk result (out.new.items ≡ out.old.items ++ tag_text (tag_value tag.now)) }
{
    push_line(out, b"tag ", &tag.name)?;
    push_mark(out, tag.mark)?;
    push_reference_line(out, b"from ", &tag.from)?;
    push_optional(out, b"original-oid ", &tag.original_oid)?;
    push_optional_person(out, b"tagger ", &tag.tagger)?;
    push_data(out, &tag.message)
}

fn push_reset(
    out: &mut Vec<u8>,
    ref_name: &[u8],
    from: &Option<Reference>,
) -> Result<(), AllocError>
    ensures { OnOk result (out.new.items
        ≡ out.old.items ++ reset_text ref_name.now (option_map reference_value from.now)) }
{
    push_line(out, b"reset ", ref_name)?;
    push_from(out, from)?;
    out.push(b'\n')?;
    Ok(())
}

/// Appends a command to `out`. Paths are in quotes where Git would quote them, and if they have a
/// space. Linear in the length of the command.
pub fn push_command(out: &mut Vec<u8>, command: &Command) -> Result<(), AllocError>
    ensures { OnOk result (out.new.items
        ≡ out.old.items ++ command_text (command_value command.now)) }
{
    match command {
        Command::Blob(blob) => push_blob(out, blob),
        Command::Commit(commit) => push_commit(out, commit),
        Command::Tag(tag) => push_tag(out, tag),
        Command::Reset { ref_name, from } => push_reset(out, ref_name, from),
        Command::Feature(feature) => push_line(out, b"feature ", feature),
        Command::Option(option) => push_line(out, b"option ", option),
        Command::Progress(text) => {
            push_line(out, b"progress ", text)?;
            out.extend_from_slice(b"\n")
        }
        Command::Checkpoint => out.extend_from_slice(b"checkpoint\n\n"),
        Command::Done => out.extend_from_slice(b"done\n"),
    }
}
