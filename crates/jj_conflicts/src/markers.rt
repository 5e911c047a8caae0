//! Marker lines: a run of a marker character, a label, and a note if the term does not end in LF.
ghost use Rattle.std.specs.Prelude.{◌≡◌, ◌≤◌, ◌++◌, ◌==◌, length, IfOk, OnOk};
ghost use Rattle.std.specs.List.{prefix_len};
ghost use Rattle.jj_conflicts.specs.Markers.{is_marker_byte, run_length, marker_of, has_note, is_shown, shown_label, note_if, marker_line};

use std::alloc::{AllocError, Global};

fn is_marker_byte(byte: u8) -> bool
    ensures { result ≡ is_marker_byte byte }
{
    byte == b'<'
        || byte == b'>'
        || byte == b'+'
        || byte == b'-'
        || byte == b'%'
        || byte == b'|'
        || byte == b'='
}

fn count_repeated(line: &[u8], byte: u8) -> usize
    ensures run { result ≡ prefix_len (λ c. c == byte) line.now }
    ensures bounded { result ≤ length line.now }
{
    for (index, c) in line.iter().enumerate() {
        if *c != byte {
            return index;
        }
    }
    line.len()
}

/// Returns how often a marker character is repeated at the start of a line.
#[tactic(auto, using(crate::proofs::MarkerSteps::run_empty, crate::proofs::MarkerSteps::run_other, crate::proofs::MarkerSteps::run_marked))]
pub fn run_length(line: &[u8]) -> usize
    ensures run { result ≡ run_length line.now }
    ensures bounded { result ≤ length line.now }
{
    if line.is_empty() {
        return 0;
    }
    if !is_marker_byte(line[0]) {
        return 0;
    }
    count_repeated(line, line[0])
}

/// Returns the marker character of a line that begins with at least `marker_len` of them and goes
/// on with white space, or else 0.
#[tactic(auto, using(crate::proofs::MarkerSteps::marker_none, crate::proofs::MarkerSteps::marker_short, crate::proofs::MarkerSteps::marker_text, crate::proofs::MarkerSteps::marker_end, crate::proofs::MarkerSteps::marker_space))]
pub fn marker_of(line: &[u8], marker_len: usize) -> u8
    ensures { result ≡ marker_of marker_len line.now }
{
    let run = run_length(line);
    if run == 0 || run < marker_len {
        return 0;
    }
    if run < line.len() && !line[run].is_ascii_whitespace() {
        return 0;
    }
    line[0]
}

/// Returns whether a marker line has the note that its term does not end in LF.
pub fn has_note(line: &[u8]) -> bool
    ensures { result ≡ has_note line.now }
{
    line.ends_with(b" (no terminating newline)\n")
}

#[tactic(auto, using(crate::proofs::StateLaws::not_shown_empty, crate::proofs::StateLaws::not_shown_newline, crate::proofs::StateLaws::shown_by_note))]
fn is_shown(alloc: Global, byte: u8, marker_len: usize, label: &[u8]) -> Result<bool, AllocError>
    ensures { IfOk result (λ shown. shown ≡ is_shown byte marker_len label.now) }
{
    if label.is_empty() {
        return Ok(false);
    }
    if label.contains(&b'\n') {
        return Ok(false);
    }
    let mut line = vec![in alloc; byte; marker_len]?;
    line.push(b' ')?;
    line.extend_from_slice(label)?;
    line.push(b'\n')?;
    Ok(!has_note(&line))
}

#[tactic(auto, using(crate::proofs::StateLaws::shown_pushed, crate::proofs::StateLaws::shown_left_out))]
fn push_label(
    alloc: Global,
    line: &mut Vec<u8>,
    byte: u8,
    marker_len: usize,
    label: &[u8],
) -> Result<(), AllocError>
    ensures { OnOk result (line.new.items
        ≡ line.old.items ++ shown_label byte marker_len label.now) }
{
    if !is_shown(alloc, byte, marker_len, label)? {
        return Ok(());
    }
    line.push(b' ')?;
    line.extend_from_slice(label)
}

fn push_note(line: &mut Vec<u8>, is_unterminated: bool) -> Result<(), AllocError>
    ensures { OnOk result (line.new.items ≡ line.old.items ++ note_if is_unterminated) }
{
    if !is_unterminated {
        return Ok(());
    }
    line.extend_from_slice(b" (no terminating newline)")
}

/// Appends a marker line. A label that contains LF, or ends as a note does, is left out.
pub fn push_marker_line(
    alloc: Global,
    text: &mut Vec<u8>,
    byte: u8,
    marker_len: usize,
    label: &[u8],
    is_unterminated: bool,
) -> Result<(), AllocError>
    ensures { OnOk result (text.new.items
        ≡ text.old.items ++ marker_line byte marker_len label.now is_unterminated) }
{
    let mut line = vec![in alloc; byte; marker_len]?;
    push_label(alloc, &mut line, byte, marker_len, label)?;
    push_note(&mut line, is_unterminated)?;
    line.push(b'\n')?;
    text.extend_from_slice(&line)
}
