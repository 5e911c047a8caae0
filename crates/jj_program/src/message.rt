//! Messages of faults: the line and the field, which they quote, the expected form, and for common
//! mistakes the remedy.
ghost use Rattle.std.specs.Prelude.{◌≡◌, ◌-◌, ◌+◌, ◌^◌, ◌≤◌, ◌<◌, [], drop, get_or, length, IfOk, string_bytes};
ghost use Rattle.jj_program.specs.Lines.{fields_of, lines_of, texts_of};
ghost use Rattle.jj_program.specs.Messages.{count_text, ends_in_return, expected_text, fields_message, first_wrong, has_blank, hint_text, is_glob_place, is_separator, is_wrong, line_message, message_of, needs_tabs, place_of, place_text, remedy_text, sets_message, shape_named, starts_with_mark, text_message, unknown_text, utf8_message, words_text};

use crate::fault::{Fault, LineFault};
use crate::forms::{Field, Shape, form_of, is_dash};
use crate::graph_command::GRAPH_FORMS;
use crate::hash_command::HASH_FORMS;
use crate::lines::split_line;
use crate::merge_command::MERGE_FORMS;
use crate::program::Command;
use crate::walk_command::WALK_FORMS;
use itoa::Buffer;
use jj_excerpts::excerpt;
use jj_filter::failure::Failure;
use jj_matchers::matchers::PathGlobPattern;
use jj_paths::repo_path::RepoPath;
use std::alloc::{AllocError, Global};

// Returns the shape of the fields after a word, unless no line of the command begins with it.
fn shape_of(command: Command, word: &str) -> Option<Shape>
    ensures { result ≡ shape_named command word.now }
{
    match command {
        Command::Walk => Some(form_of(WALK_FORMS, word)?.0),
        Command::Merge => Some(form_of(MERGE_FORMS, word)?.0),
        Command::Graph => Some(form_of(GRAPH_FORMS, word)?.0),
        Command::Hash => Some(form_of(HASH_FORMS, word)?.0),
    }
}

fn is_valid<'t, F: Field<'t>>(alloc: Global, field: &'t str) -> Result<bool, AllocError>
    ensures { IfOk result (λ valid. valid ≡ F.kind.is_one field.now) }
{
    match F::parse(alloc, field) {
        Ok(_) => Ok(true),
        Err(Failure::Input(_)) => Ok(false),
        Err(_) => Err(AllocError),
    }
}

// Whether a field at this index of a line of this shape is a glob.
fn is_glob_place(shape: Option<Shape>, index: usize) -> bool
    ensures { result ≡ is_glob_place shape index }
{
    match shape {
        Some(Shape::Pairs) => index % 2 == 0,
        _ => false,
    }
}

fn is_separator(shape: Option<Shape>, field: &str) -> bool
    ensures { result ≡ is_separator shape field.now }
{
    match shape {
        Some(Shape::Dashed) => is_dash(field),
        _ => false,
    }
}

// Whether the field at this index of a line of this shape has a fault of this kind.
fn is_wrong(
    alloc: Global,
    shape: Option<Shape>,
    kind: LineFault,
    index: usize,
    field: &str,
) -> Result<bool, AllocError>
    ensures { IfOk result (λ wrong. wrong ≡ is_wrong shape kind index field.now) }
{
    match kind {
        LineFault::BadPath => {
            let is_path = is_valid::<RepoPath<'_>>(alloc, field)?;
            Ok(!is_glob_place(shape, index) && !is_path)
        }
        LineFault::BadGlob => {
            let is_glob = is_valid::<PathGlobPattern>(alloc, field)?;
            Ok(index % 2 == 0 && !is_glob)
        }
        LineFault::BadNumber => {
            let is_number = is_valid::<u64>(alloc, field)?;
            Ok(!is_separator(shape, field) && !is_number)
        }
        _ => Ok(true),
    }
}

// Returns the index of the first field after the word with a fault of this kind.
fn first_wrong(
    alloc: Global,
    shape: Option<Shape>,
    kind: LineFault,
    fields: &[&str],
) -> Result<usize, AllocError>
    ensures place { IfOk result (λ place.
        place ≡ first_wrong (is_wrong shape kind) 1 (drop 1 (texts_of fields.now))) }
    ensures within { IfOk result (λ place. place ≤ length fields.now) }
{
    for index in 1..fields.len() {
        if is_wrong(alloc, shape, kind, index, fields[index])? {
            return Ok(index);
        }
    }
    Ok(0)
}

// Returns the index of the field that the message quotes.
fn place_of(
    alloc: Global,
    command: Command,
    kind: LineFault,
    fields: &[&str],
) -> Result<usize, AllocError>
    ensures place { IfOk result (λ place. place ≡ place_of command kind (texts_of fields.now)) }
    ensures within { IfOk result (λ place. place ≤ length fields.now) }
{
    match kind {
        LineFault::UnknownCommand | LineFault::BadFieldCount | LineFault::EmptyStack => Ok(0),
        _ => first_wrong(alloc, shape_of(command, field_at(fields, 0)), kind, fields),
    }
}

fn field_at<'t>(fields: &[&'t str], index: usize) -> &'t str
    ensures { result.now ≡ get_or (texts_of fields.now) index [] }
{
    match fields.get(index) {
        Some(field) => field,
        None => "",
    }
}

fn unknown_text(command: Command) -> &'static str
    ensures { result.now ≡ unknown_text command }
{
    match command {
        Command::Walk => "not a word of walk",
        Command::Merge => "not a word of merge",
        Command::Graph => "not a word of graph",
        Command::Hash => "not a word of hash",
    }
}

fn words_text(command: Command) -> &'static str
    ensures { result.now ≡ words_text command }
{
    match command {
        Command::Walk => {
            "; expected mark, everything, nothing, files, prefix, globs, prefix-globs, \
                union, difference or intersection"
        }
        Command::Merge => "; expected simplify, keep or accept",
        Command::Graph => "; expected node, order, heads or common",
        Command::Hash => "; expected raw, text, list or merge",
    }
}

fn count_text(shape: Option<Shape>) -> &'static str
    ensures { result.now ≡ count_text shape }
{
    match shape {
        Some(Shape::Empty) => "expected no field after it",
        Some(Shape::One) => "expected one field after it",
        Some(Shape::NonEmpty) => "expected an ID after it",
        Some(Shape::Odd) => "expected an odd number of fields after it",
        Some(Shape::Pairs) => "expected pairs of a directory and a glob after it",
        Some(Shape::Dashed) => "expected IDs, one field \"-\" and IDs after it",
        _ => "expected fields after it",
    }
}

fn expected_text(command: Command, kind: LineFault, shape: Option<Shape>) -> &'static str
    ensures { result.now ≡ expected_text command kind shape }
{
    match kind {
        LineFault::UnknownCommand => unknown_text(command),
        LineFault::BadFieldCount => count_text(shape),
        LineFault::BadPath => "expected a path relative to the root, as a/b",
        LineFault::BadGlob => "expected a glob, as *.rs",
        LineFault::EmptyStack => "expected two sets before it",
        LineFault::BadNumber => "expected a number below 2^64 without leading zeros",
        LineFault::RepeatedNode => "expected one line for a node",
        LineFault::BadHex => "expected pairs of hex digits",
    }
}

// Whether the line begins with a byte order mark.
fn starts_with_mark(line: &[u8]) -> bool
    ensures { result ≡ starts_with_mark line.now }
{
    line.len() >= 3 && line[0] == 0xef && line[1] == 0xbb && line[2] == 0xbf
}

fn ends_in_return(line: &[u8]) -> bool
    ensures { result ≡ ends_in_return line.now }
{
    !line.is_empty() && line[line.len() - 1] == b'\r'
}

fn has_blank(string: &[u8]) -> bool
    ensures { result ≡ has_blank string.now }
{
    string.contains(&b' ')
}

// Whether a blank in the line may be meant as a TAB. Words have none; paths and globs may.
fn needs_tabs(kind: LineFault, word: &str, line: &str) -> bool
    ensures { result ≡ needs_tabs kind word.now line.now }
{
    match kind {
        LineFault::UnknownCommand => has_blank(word.as_bytes()),
        LineFault::BadFieldCount | LineFault::BadNumber | LineFault::BadHex => {
            has_blank(line.as_bytes())
        }
        _ => false,
    }
}

// For an unknown word, the command that knows it, or else the words of this one.
fn hint_text(command: Command, kind: LineFault, word: &str) -> &'static str
    ensures { result.now ≡ hint_text command kind word.now }
{
    if kind != LineFault::UnknownCommand {
        ""
    } else if shape_of(Command::Walk, word).is_some() {
        ", but of walk"
    } else if shape_of(Command::Merge, word).is_some() {
        ", but of merge"
    } else if shape_of(Command::Graph, word).is_some() {
        ", but of graph"
    } else if shape_of(Command::Hash, word).is_some() {
        ", but of hash"
    } else {
        words_text(command)
    }
}

fn remedy_text(command: Command, kind: LineFault, word: &str, line: &str) -> &'static str
    ensures { result.now ≡ remedy_text command kind word.now line.now }
{
    if starts_with_mark(line.as_bytes()) {
        "; a byte order mark is before it"
    } else if ends_in_return(line.as_bytes()) {
        "; lines end in LF, not in CRLF"
    } else if needs_tabs(kind, word, line) {
        "; fields are separated by TABs, not by blanks"
    } else {
        hint_text(command, kind, word)
    }
}

// Returns the line with this number, and its fields; the empty line if there is none.
fn line_at<'t>(
    alloc: Global,
    text: &'t str,
    number: usize,
) -> Result<(&'t str, Vec<&'t str>), AllocError>
    ensures line { IfOk result (λ found.
        found.0.now ≡ get_or (lines_of text.now) (number - 1) []) }
    ensures fields { IfOk result (λ found. texts_of found.1.items ≡ fields_of found.0.now) }
{
    let mut fields = Vec::new(alloc);
    let mut skipped = number.saturating_sub(1);
    let mut rest = text;
    loop {
        let end = split_line(&mut fields, rest)?;
        let line = &rest[..end];
        if skipped == 0 {
            return Ok((line, fields));
        }
        if end == rest.len() {
            split_line(&mut fields, "")?;
            return Ok(("", fields));
        }
        rest = &rest[end + 1..];
        skipped -= 1;
    }
}

// Returns the start of a message: the numbers of the line, and of the field with this index.
fn place_text(alloc: Global, number: usize, place: usize) -> Result<String, AllocError>
    requires { place + 1 < 2 ^ 64 }
    ensures { IfOk result (λ start. string_bytes start ≡ place_text number place) }
{
    let mut digits = Buffer::new();
    let mut start = String::from_str(alloc, "line ")?;
    start.push_str(digits.format(number))?;
    start.push_str(", field ")?;
    start.push_str(digits.format(place + 1))?;
    start.push_str(", ")?;
    Ok(start)
}

// Returns the message of a fault of the line with this number and these fields.
fn fields_message(
    alloc: Global,
    command: Command,
    number: usize,
    kind: LineFault,
    line: &str,
    fields: &[&str],
) -> Result<String, AllocError>
    ensures { IfOk result (λ message. string_bytes message
        ≡ fields_message command number kind line.now (texts_of fields.now)) }
{
    let word = field_at(fields, 0);
    let place = place_of(alloc, command, kind, fields)?;
    let quoted = excerpt(alloc, field_at(fields, place).as_bytes())?;
    let mut message = place_text(alloc, number, place)?;
    message.push_str(quoted.as_str())?;
    message.push_str(": ")?;
    message.push_str(expected_text(command, kind, shape_of(command, word)))?;
    message.push_str(remedy_text(command, kind, word, line))?;
    Ok(message)
}

// Returns the message of a fault of the line with this number.
fn line_message(
    alloc: Global,
    command: Command,
    text: &str,
    number: usize,
    kind: LineFault,
) -> Result<String, AllocError>
    ensures { IfOk result (λ message. string_bytes message
        ≡ line_message command number kind (get_or (lines_of text.now) (number - 1) [])) }
{
    let (line, fields) = line_at(alloc, text, number)?;
    fields_message(alloc, command, number, kind, line, &fields)
}

// Returns the message of a walk that leaves this many sets, which is not one.
fn sets_message(alloc: Global, count: usize) -> Result<String, AllocError>
    ensures { IfOk result (λ message. string_bytes message ≡ sets_message count) }
{
    if count == 0 {
        return String::from_str(
            alloc,
            "no set at the end of the input; lines as everything and files add one",
        );
    }
    let mut digits = Buffer::new();
    let mut message = String::from_str(alloc, digits.format(count))?;
    message.push_str(" sets at the end of the input; lines as union combine two")?;
    Ok(message)
}

fn utf8_message(alloc: Global, place: usize) -> Result<String, AllocError>
    ensures { IfOk result (λ message. string_bytes message ≡ utf8_message place) }
{
    let mut digits = Buffer::new();
    let mut message = String::from_str(alloc, "input is not UTF-8 at byte ")?;
    message.push_str(digits.format(place))?;
    Ok(message)
}

fn text_message(
    alloc: Global,
    command: Command,
    text: &str,
    fault: Fault,
) -> Result<String, AllocError>
    ensures { IfOk result (λ message.
        string_bytes message ≡ text_message command text.now fault) }
{
    match fault {
        Fault::NotUtf8 => utf8_message(alloc, 0),
        Fault::Matchers(count) => sets_message(alloc, count),
        Fault::Line { line, kind } => line_message(alloc, command, text, line, kind),
    }
}

// Returns the message of a fault of this input.
pub(crate) fn message_of(
    alloc: Global,
    command: Command,
    input: &[u8],
    fault: Fault,
) -> Result<String, AllocError>
    ensures { IfOk result (λ message.
        string_bytes message ≡ message_of command input.now fault) }
{
    match str::from_utf8(input) {
        Ok(text) => text_message(alloc, command, text, fault),
        Err(error) => utf8_message(alloc, error.valid_up_to()),
    }
}
