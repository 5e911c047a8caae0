//! Parser of one command.
ghost use Rattle.std.specs.Prelude.{◌≡◌, ◌<◌, ◌^◌, ◌+◌, length, map};
ghost use Rattle.std.specs.Option.{option_map};
ghost use Rattle.jj_fast_import.specs.Changes.{change_at};
ghost use Rattle.jj_fast_import.specs.Commands.{blob_at, changes_at, command_at, command_in, commit_at, labels_at, many, mark_at, marked, merges_at, message_at, optional_bytes, optional_reference, other_in, parents_at, people_at, person_line, reference_line, reset_at, tag_at, text_at};
ghost use Rattle.jj_fast_import.specs.Lines.{Gives};
ghost use Rattle.jj_fast_import.specs.Values.{blob_value, bytes_of, change_value, command_value, commit_value, person_value, reference_value, tag_value};

use crate::changes::{change, reference};
use crate::command::{Blob, Change, Command, Commit, Person, Reference, Tag};
use crate::fault::{Expected, ParseError};
use crate::lines::{INCOMPLETE, block, line, malformed, optional, required, skip_lf};
use crate::people::person;
use crate::words::{is_word, number, strip};
use std::alloc::Global;

// Parses `:NUMBER`.
fn marked(text: &[u8]) -> Option<u64>
    ensures { result ≡ marked text.now }
{
    number(strip(text, b":")?)
}

// The mark of the next line, if it has one.
#[tactic(auto, unfolding(crate::specs::Commands::mark_at))]
fn mark(at_end: bool, bytes: &[u8]) -> Result<(Option<u64>, &[u8]), ParseError>
    ensures { Gives (λ read. (read.0, read.1.now)) result (mark_at at_end bytes.now) }
{
    let (text, rest) = optional(b"mark ", at_end, bytes)?;
    let Some(text) = text else {
        return Ok((None, rest));
    };
    match marked(text) {
        Some(mark) => Ok((Some(mark), rest)),
        None => Err(malformed(Expected::Mark, bytes.len())),
    }
}

// A copy of the bytes after `word`, if the next line begins with it.
#[tactic(auto, unfolding(crate::specs::Commands::optional_bytes))]
fn optional_bytes<'a>(
    alloc: Global,
    word: &[u8],
    at_end: bool,
    bytes: &'a [u8],
) -> Result<(Option<Vec<u8>>, &'a [u8]), ParseError>
    ensures { Gives (λ read. (option_map bytes_of read.0, read.1.now)) result
        (optional_bytes word.now at_end bytes.now) }
{
    let (text, rest) = optional(word, at_end, bytes)?;
    match text {
        Some(text) => Ok((Some(Vec::from_slice(alloc, text)?), rest)),
        None => Ok((None, rest)),
    }
}

// The lines `mark` and `original-oid`.
#[tactic(auto, unfolding(crate::specs::Commands::labels_at))]
fn labels(
    alloc: Global,
    at_end: bool,
    bytes: &[u8],
) -> Result<((Option<u64>, Option<Vec<u8>>), &[u8]), ParseError>
    ensures { Gives (λ read. ((read.0.0, option_map bytes_of read.0.1), read.1.now)) result
        (labels_at at_end bytes.now) }
{
    let (mark, rest) = mark(at_end, bytes)?;
    let (original_oid, rest) = optional_bytes(alloc, b"original-oid ", at_end, rest)?;
    Ok(((mark, original_oid), rest))
}

// The person of the next line, if it begins with `word`.
#[tactic(auto, unfolding(crate::specs::Commands::person_line))]
fn person_line<'a>(
    alloc: Global,
    word: &[u8],
    at_end: bool,
    bytes: &'a [u8],
) -> Result<(Option<Person>, &'a [u8]), ParseError>
    ensures { Gives (λ read. (option_map person_value read.0, read.1.now)) result
        (person_line word.now at_end bytes.now) }
{
    let (text, rest) = optional(word, at_end, bytes)?;
    let Some(text) = text else {
        return Ok((None, rest));
    };
    match person(alloc, text)? {
        Some(person) => Ok((Some(person), rest)),
        None => Err(malformed(Expected::Person, bytes.len())),
    }
}

// The lines `author` and `committer`.
#[tactic(auto, unfolding(crate::specs::Commands::people_at))]
fn people(
    alloc: Global,
    at_end: bool,
    bytes: &[u8],
) -> Result<((Option<Person>, Person), &[u8]), ParseError>
    ensures { Gives (λ read.
        ((option_map person_value read.0.0, person_value read.0.1), read.1.now)) result
        (people_at at_end bytes.now) }
{
    let (author, after) = person_line(alloc, b"author ", at_end, bytes)?;
    let (text, rest) = required(b"committer ", Expected::Committer, at_end, after)?;
    match person(alloc, text)? {
        Some(committer) => Ok(((author, committer), rest)),
        None => Err(malformed(Expected::Person, after.len())),
    }
}

// A block of data and a line feed that may follow it.
#[tactic(auto, unfolding(crate::specs::Commands::message_at))]
fn message(alloc: Global, at_end: bool, bytes: &[u8]) -> Result<(Vec<u8>, &[u8]), ParseError>
    ensures { Gives (λ read. (read.0.items, read.1.now)) result (message_at at_end bytes.now) }
{
    let (data, rest) = block(at_end, bytes)?;
    let rest = skip_lf(at_end, rest)?;
    Ok((Vec::from_slice(alloc, data)?, rest))
}

// The line `encoding`, if it is there, and the message.
#[tactic(auto, unfolding(crate::specs::Commands::text_at))]
fn text(
    alloc: Global,
    at_end: bool,
    bytes: &[u8],
) -> Result<((Option<Vec<u8>>, Vec<u8>), &[u8]), ParseError>
    ensures { Gives (λ read. ((option_map bytes_of read.0.0, read.0.1.items), read.1.now)) result
        (text_at at_end bytes.now) }
{
    let (encoding, rest) = optional_bytes(alloc, b"encoding ", at_end, bytes)?;
    let (message, rest) = message(alloc, at_end, rest)?;
    Ok(((encoding, message), rest))
}

// The reference of the next line, if it begins with `word`, and the bytes after the line.
#[tactic(auto, unfolding(crate::specs::Commands::reference_line))]
fn reference_line<'a>(
    alloc: Global,
    word: &[u8],
    expected: Expected,
    at_end: bool,
    bytes: &'a [u8],
) -> Result<Option<(Reference, &'a [u8])>, ParseError>
    ensures { Gives (λ read. option_map (λ parts. (reference_value parts.0, parts.1.now)) read)
        result (reference_line word.now expected at_end bytes.now) }
{
    let (text, rest) = optional(word, at_end, bytes)?;
    let Some(text) = text else {
        return Ok(None);
    };
    match reference(alloc, text)? {
        Some(reference) => Ok(Some((reference, rest))),
        None => Err(malformed(expected, bytes.len())),
    }
}

// The line `from`, if it is there.
#[tactic(auto, unfolding(crate::specs::Commands::optional_reference))]
fn from(alloc: Global, at_end: bool, bytes: &[u8]) -> Result<(Option<Reference>, &[u8]), ParseError>
    ensures { Gives (λ read. (option_map reference_value read.0, read.1.now)) result
        (optional_reference at_end bytes.now) }
{
    match reference_line(alloc, b"from ", Expected::From, at_end, bytes)? {
        Some((from, rest)) => Ok((Some(from), rest)),
        None => Ok((None, bytes)),
    }
}

// Lines `merge`, at most `limit`.
fn merges(
    alloc: Global,
    at_end: bool,
    limit: usize,
    bytes: &[u8],
) -> Result<(Vec<Reference>, &[u8]), ParseError>
    ensures { Gives (λ read. (map reference_value read.0.items, read.1.now)) result
        (merges_at at_end limit bytes.now) }
{
    let mut merges = Vec::new(alloc);
    let mut rest = bytes;
    for _ in 0..limit {
        let found = reference_line(alloc, b"merge ", Expected::Merge, at_end, rest)?;
        let Some((merge, after)) = found else {
            return Ok((merges, rest));
        };
        merges.push(merge)?;
        rest = after;
    }
    Ok((merges, rest))
}

// Changes, at most `limit`.
fn changes(
    alloc: Global,
    at_end: bool,
    limit: usize,
    bytes: &[u8],
) -> Result<(Vec<Change>, &[u8]), ParseError>
    ensures { Gives (λ read. (map change_value read.0.items, read.1.now)) result
        (changes_at at_end limit bytes.now) }
{
    let mut changes = Vec::new(alloc);
    let mut rest = bytes;
    for _ in 0..limit {
        let Some((change, after)) = change(alloc, at_end, rest)? else {
            return Ok((changes, rest));
        };
        changes.push(change)?;
        rest = after;
    }
    Ok((changes, rest))
}

// The lines `from` and `merge`.
#[tactic(auto, unfolding(crate::specs::Commands::parents_at))]
fn parents(
    alloc: Global,
    at_end: bool,
    bytes: &[u8],
) -> Result<((Option<Reference>, Vec<Reference>), &[u8]), ParseError>
    ensures { Gives (λ read. (
      (
        option_map reference_value read.0.0,
        map reference_value read.0.1.items,
      ),
      read.1.now,
    )) result (parents_at at_end bytes.now) }
{
    let (from, rest) = from(alloc, at_end, bytes)?;
    let (merges, rest) = merges(alloc, at_end, rest.len() + 1, rest)?;
    Ok(((from, merges), rest))
}

// A blob after its first line.
#[tactic(auto, unfolding(crate::specs::Commands::blob_at))]
fn blob(alloc: Global, at_end: bool, bytes: &[u8]) -> Result<(Blob, &[u8]), ParseError>
    ensures { Gives (λ read. (blob_value read.0, read.1.now)) result (blob_at at_end bytes.now) }
{
    let ((mark, original_oid), rest) = labels(alloc, at_end, bytes)?;
    let (data, rest) = message(alloc, at_end, rest)?;
    let blob = Blob {
        mark,
        original_oid,
        data,
    };
    Ok((blob, rest))
}

// A commit after its first line.
#[tactic(auto, unfolding(crate::specs::Commands::commit_at))]
fn commit<'a>(
    alloc: Global,
    at_end: bool,
    ref_name: &[u8],
    bytes: &'a [u8],
) -> Result<(Commit, &'a [u8]), ParseError>
    ensures { Gives (λ read. (commit_value read.0, read.1.now)) result
        (commit_at at_end ref_name.now bytes.now) }
{
    let ((mark, original_oid), rest) = labels(alloc, at_end, bytes)?;
    let ((author, committer), rest) = people(alloc, at_end, rest)?;
    let ((encoding, message), rest) = text(alloc, at_end, rest)?;
    let ((from, merges), rest) = parents(alloc, at_end, rest)?;
    let (changes, rest) = changes(alloc, at_end, rest.len() + 1, rest)?;
    let rest = skip_lf(at_end, rest)?;
    let commit = Commit {
        ref_name: Vec::from_slice(alloc, ref_name)?,
        mark,
        original_oid,
        author,
        committer,
        encoding,
        message,
        from,
        merges,
        changes,
    };
    Ok((commit, rest))
}

// A tag after its first line.
#[tactic(auto, unfolding(crate::specs::Commands::tag_at))]
fn tag<'a>(
    alloc: Global,
    at_end: bool,
    name: &[u8],
    bytes: &'a [u8],
) -> Result<(Tag, &'a [u8]), ParseError>
    ensures { Gives (λ read. (tag_value read.0, read.1.now)) result
        (tag_at at_end name.now bytes.now) }
{
    let (mark, after) = mark(at_end, bytes)?;
    let (text, rest) = required(b"from ", Expected::From, at_end, after)?;
    let Some(from) = reference(alloc, text)? else {
        return Err(malformed(Expected::From, after.len()));
    };
    let (original_oid, rest) = optional_bytes(alloc, b"original-oid ", at_end, rest)?;
    let (tagger, rest) = person_line(alloc, b"tagger ", at_end, rest)?;
    let (message, rest) = message(alloc, at_end, rest)?;
    let tag = Tag {
        name: Vec::from_slice(alloc, name)?,
        mark,
        from,
        original_oid,
        tagger,
        message,
    };
    Ok((tag, rest))
}

// A reset after its first line.
#[tactic(auto, unfolding(crate::specs::Commands::reset_at))]
fn reset<'a>(
    alloc: Global,
    at_end: bool,
    name: &[u8],
    bytes: &'a [u8],
) -> Result<(Command, &'a [u8]), ParseError>
    ensures { Gives (λ read. (command_value read.0, read.1.now)) result
        (reset_at at_end name.now bytes.now) }
{
    let (from, rest) = from(alloc, at_end, bytes)?;
    let rest = skip_lf(at_end, rest)?;
    let ref_name = Vec::from_slice(alloc, name)?;
    Ok((Command::Reset { ref_name, from }, rest))
}

// The command with this first line, which is no blob, commit, tag or reset.
#[tactic(auto, unfolding(crate::specs::Commands::other_in))]
fn other_in<'a>(
    alloc: Global,
    at_end: bool,
    left: usize,
    text: &[u8],
    rest: &'a [u8],
) -> Result<(Command, &'a [u8]), ParseError>
    ensures { Gives (λ read. (command_value read.0, read.1.now)) result
        (other_in at_end left text.now rest.now) }
{
    if let Some(feature) = strip(text, b"feature ") {
        return Ok((Command::Feature(Vec::from_slice(alloc, feature)?), rest));
    }
    if let Some(option) = strip(text, b"option ") {
        return Ok((Command::Option(Vec::from_slice(alloc, option)?), rest));
    }
    if let Some(progress) = strip(text, b"progress ") {
        let rest = skip_lf(at_end, rest)?;
        return Ok((Command::Progress(Vec::from_slice(alloc, progress)?), rest));
    }
    if is_word(text, b"checkpoint") {
        return Ok((Command::Checkpoint, skip_lf(at_end, rest)?));
    }
    if is_word(text, b"done") {
        return Ok((Command::Done, rest));
    }
    Err(malformed(Expected::Command, left))
}

// The command with this first line.
#[tactic(auto, unfolding(crate::specs::Commands::command_in))]
fn command_in<'a>(
    alloc: Global,
    at_end: bool,
    left: usize,
    text: &[u8],
    rest: &'a [u8],
) -> Result<(Command, &'a [u8]), ParseError>
    ensures { Gives (λ read. (command_value read.0, read.1.now)) result
        (command_in at_end left text.now rest.now) }
{
    if is_word(text, b"blob") {
        let (blob, rest) = blob(alloc, at_end, rest)?;
        return Ok((Command::Blob(blob), rest));
    }
    if let Some(ref_name) = strip(text, b"commit ") {
        let (commit, rest) = commit(alloc, at_end, ref_name, rest)?;
        return Ok((Command::Commit(commit), rest));
    }
    if let Some(name) = strip(text, b"tag ") {
        let (tag, rest) = tag(alloc, at_end, name, rest)?;
        return Ok((Command::Tag(tag), rest));
    }
    if let Some(name) = strip(text, b"reset ") {
        return reset(alloc, at_end, name, rest);
    }
    other_in(alloc, at_end, left, text, rest)
}

/// Parses the command that the bytes of a stream begin with. Returns it and the bytes after it, or
/// `None` if the stream has ended. `at_end`: whether the stream ends after the bytes. Comments
/// before a line are skipped. Fails with `Stop::Incomplete` if the bytes end before the command
/// does, with `Stop::Malformed` at the first line that the grammar does not allow, and with
/// `Memory` if memory runs out. Linear in the length of the command.
#[tactic(auto, unfolding(crate::specs::Commands::command_at))]
pub fn parse_command(
    alloc: Global,
    at_end: bool,
    bytes: &[u8],
) -> Result<Option<(Command, &[u8])>, ParseError>
    // The result, or the error, is the one that the grammar defines for these bytes, unless memory
    // runs out.
    ensures exact { Gives (λ read. option_map (λ parts. (command_value parts.0, parts.1.now)) read)
        result (command_at at_end bytes.now) }
{
    match line(at_end, bytes)? {
        Some((text, rest)) => Ok(Some(command_in(alloc, at_end, bytes.len(), text, rest)?)),
        None => Ok(None),
    }
}
