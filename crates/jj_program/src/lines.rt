//! The line loop that all commands share: splits the input into lines and fields, and passes each
//! nonempty line to the command. The format of output lines.
ghost use Rattle.std.specs.Prelude.{◌≡◌, ◌==◌, ◌||◌, ◌+◌, ◌++◌, ◌<◌, ◌≤◌, slice_index, length, map, false, List, ℕ, Result, IfOk, OnOk};
ghost use Rattle.std.specs.List.{before_first, position_or_len};
ghost use Rattle.jj_program.specs.declared.fault.LineFault.{LineFault};
ghost use Rattle.jj_program.specs.Lines.{lines_of, line_text, fields_of, after_line, after_lines, LeadsTo, texts_of};

use crate::fault::{Fault, LineFault};
use jj_filter::failure::Failure;
use memchr::memchr2;
use std::alloc::{AllocError, Global};

/// State of a command between two lines of its input.
pub trait Reading<'t> {
    /// The model of a state.
    ghost State: { Type 0 };

    /// The states that a value represents.
    ghost represents: { Self → State → Type 0 };

    /// The transition of a state at a line with these fields, or the line's fault.
    ghost step: { State → List (List ℕ) → Result State LineFault };

    /// Processes the fields of a line. After an error the value is not used again.
    fn take(&mut self, alloc: Global, fields: &[&'t str]) -> Result<(), Failure<LineFault>>
        ensures { (state : State) → represents self.old state
            → LeadsTo result (represents self.new) (step state (texts_of fields.now)) };
}

// Processes a line with these fields, unless it is empty.
fn take_line<'t, M: Reading<'t>>(
    alloc: Global,
    reading: &mut M,
    line_number: usize,
    line: &str,
    fields: &[&'t str],
) -> Result<(), Failure<Fault>>
    requires { texts_of fields.now ≡ fields_of line.now }
    ensures { (state : M.State) → M.represents reading.old state
        → LeadsTo result (M.represents reading.new) (after_line M.step line_number state line.now) }
{
    if line.is_empty() {
        return Ok(());
    }
    match reading.take(alloc, fields) {
        Ok(()) => Ok(()),
        Err(Failure::Input(kind)) => Err(Failure::Input(Fault::Line {
            line: line_number,
            kind,
        })),
        Err(_) => Err(Failure::Memory),
    }
}

/// Processes the lines of the input in order, and returns the first fault with its line number.
pub fn take_lines<'t, M: Reading<'t>>(
    alloc: Global,
    reading: &mut M,
    text: &'t str,
) -> Result<(), Failure<Fault>>
    ensures { (state : M.State) → M.represents reading.old state
        → LeadsTo result (M.represents reading.new)
        (after_lines M.step 1 state (lines_of text.now)) }
{
    // All lines share the list of fields, so that a line needs no allocation of its own.
    let mut fields = Vec::new(alloc);
    let mut rest = text;
    let mut line_number = 1;
    loop {
        let end = split_line(&mut fields, rest)?;
        take_line(alloc, reading, line_number, &rest[..end], &fields)?;
        if end == rest.len() {
            return Ok(());
        }
        rest = &rest[end + 1..];
        line_number += 1;
    }
}

// Replaces the contents of `fields` by the fields of the first line, and returns its length.
pub(crate) fn split_line<'t>(fields: &mut Vec<&'t str>, text: &'t str) -> Result<usize, AllocError>
    ensures fields { OnOk result (texts_of fields.new.items
        ≡ fields_of (before_first (λ b. b == 10) text.now)) }
    ensures length { IfOk result (λ length. length ≡ position_or_len (λ b. b == 10) text.now) }
{
    fields.clear();
    let bytes = text.as_bytes();
    let mut start = 0;
    loop {
        let end = start + field_len(&bytes[start..]);
        fields.push(&text[start..end])?;
        if end == bytes.len() || bytes[end] == b'\n' {
            return Ok(end);
        }
        start = end + 1;
    }
}

// Returns the number of bytes before the first TAB or LF. Most fields are short, so the first bytes
// are tested one by one, and only the others in vectors. The number of the first is a constant, so
// that their loop is unrolled.
fn field_len(bytes: &[u8]) -> usize
    ensures { result ≡ position_or_len (λ b. b == 9 || b == 10) bytes.now }
{
    if bytes.len() < 16 {
        return field_len_from(bytes, 0);
    }
    for index in 0..16 {
        if bytes[index] == b'\t' || bytes[index] == b'\n' {
            return index;
        }
    }
    field_len_from(bytes, 16)
}

// Returns the number of bytes before the first TAB or LF. None of the first `near` bytes is one.
fn field_len_from(bytes: &[u8], near: usize) -> usize
    requires within { near ≤ length bytes.now }
    requires none { (k : ℕ) → k < near
        → (slice_index bytes.now k == 9 || slice_index bytes.now k == 10) ≡ false }
    ensures { result ≡ position_or_len (λ b. b == 9 || b == 10) bytes.now }
{
    match memchr2(b'\t', b'\n', &bytes[near..]) {
        Some(index) => near + index,
        None => bytes.len(),
    }
}

/// Appends a line of TAB-separated fields to the output, the name first.
pub fn push_line(output: &mut Vec<u8>, name: &str, fields: &[&str]) -> Result<(), AllocError>
    ensures { OnOk result (output.new.items ≡ output.old.items
        ++ line_text name.now (map (λ field. field.now) fields.now)) }
{
    output.extend_from_slice(name.as_bytes())?;
    for field in fields {
        output.push(b'\t')?;
        output.extend_from_slice(field.as_bytes())?;
    }
    output.push(b'\n')?;
    Ok(())
}
