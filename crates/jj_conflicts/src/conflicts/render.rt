//! Rendering of conflicts.
ghost use Rattle.std.specs.Prelude.{◌≡◌, ℕ, ◌+◌, ◌-◌, ◌^◌, ◌<◌, ◌≤◌, ◌++◌, ◌∷◌, [], List, length, map, string_bytes, drop, IfOk, OnOk, not, codes, false};
ghost use Rattle.jj_merges.specs.Labels.{labels_as_merge};
ghost use Rattle.jj_merges.specs.Merge.{IsOdd};
ghost use Rattle.jj_conflicts.specs.Lines.{is_terminated, terminated};
ghost use Rattle.jj_conflicts.specs.Contents.{contents, merge_contents};
ghost use Rattle.jj_conflicts.specs.Rendering.{label_at, term_byte, section, sections, conflict_label, snapshot_text, git_text, conflict_text, conflict_count, IsConflictText, IsRenderedFrom, IsRendered};
ghost use Rattle.jj_conflicts.specs.Markers.{longest_run, marker_line, marker_len_of_terms, chosen_marker_len};

use super::sections::{are_terminated, diff_sections};
use super::{ConflictMarkerStyle, MIN_CONFLICT_MARKER_LEN};
use crate::lines::{is_terminated, split_first_line};
use crate::markers::{push_marker_line, run_length};
use itoa::Buffer;
use jj_merges::conflict_labels::ConflictLabels;
use jj_merges::merge::Merge;
use std::alloc::{AllocError, Global};

/// Returns the label of a term, which is empty if there is none.
pub fn label_at(labels: &[String], index: usize) -> &[u8]
    ensures { result.now ≡ label_at (map string_bytes labels.now) index }
{
    match labels.get(index) {
        Some(label) => label.as_bytes(),
        None => b"",
    }
}

#[tactic(auto, using(crate::proofs::StateLaws::terminated_kept, crate::proofs::StateLaws::terminated_pushed))]
fn push_terminated(text: &mut Vec<u8>, term: &[u8]) -> Result<(), AllocError>
    ensures { OnOk result (text.new.items ≡ text.old.items ++ terminated term.now) }
{
    text.extend_from_slice(term)?;
    if is_terminated(term) {
        return Ok(());
    }
    text.push(b'\n')?;
    Ok(())
}

/// Appends a marker line and a term.
pub fn push_section(
    alloc: Global,
    text: &mut Vec<u8>,
    byte: u8,
    marker_len: usize,
    label: &[u8],
    term: &[u8],
) -> Result<(), AllocError>
    ensures { OnOk result (text.new.items
        ≡ text.old.items ++ section marker_len byte label.now term.now) }
{
    push_marker_line(alloc, text, byte, marker_len, label, !is_terminated(term))?;
    push_terminated(text, term)
}

// The character of the marker before a term.
fn term_byte(index: usize) -> u8
    ensures { result ≡ term_byte index }
{
    if index % 2 == 0 { b'+' } else { b'-' }
}

fn push_sections(
    alloc: Global,
    text: &mut Vec<u8>,
    marker_len: usize,
    labels: &[String],
    terms: &[Vec<u8>],
) -> Result<(), AllocError>
    ensures { OnOk result (text.new.items ≡ text.old.items
        ++ sections marker_len (map string_bytes labels.now) 0 (merge_contents terms.now)) }
{
    for (index, term) in terms.iter().enumerate() {
        let label = label_at(labels, index);
        push_section(alloc, text, term_byte(index), marker_len, label, term)?;
    }
    Ok(())
}

fn conflict_label(alloc: Global, number: usize, count: usize) -> Result<Vec<u8>, AllocError>
    ensures { IfOk result (λ label. label.items ≡ conflict_label number count) }
{
    let mut label = Vec::from_slice(alloc, b"Conflict ")?;
    let mut buffer = Buffer::new();
    label.extend_from_slice(buffer.format(number).as_bytes())?;
    label.extend_from_slice(b" of ")?;
    label.extend_from_slice(buffer.format(count).as_bytes())?;
    Ok(label)
}

fn push_start(
    alloc: Global,
    text: &mut Vec<u8>,
    marker_len: usize,
    number: usize,
    count: usize,
) -> Result<(), AllocError>
    ensures { OnOk result (text.new.items ≡ text.old.items
        ++ marker_line 60 marker_len (conflict_label number count) false) }
{
    let label = conflict_label(alloc, number, count)?;
    push_marker_line(alloc, text, b'<', marker_len, &label, false)
}

fn push_end(
    alloc: Global,
    text: &mut Vec<u8>,
    marker_len: usize,
    number: usize,
    count: usize,
) -> Result<(), AllocError>
    ensures { OnOk result (text.new.items ≡ text.old.items
        ++ marker_line 62 marker_len (conflict_label number count ++ codes " ends") false) }
{
    let mut label = conflict_label(alloc, number, count)?;
    label.extend_from_slice(b" ends")?;
    push_marker_line(alloc, text, b'>', marker_len, &label, false)
}

#[tactic(auto, using(crate::proofs::LoopLaws::appended_three))]
fn push_snapshot(
    alloc: Global,
    text: &mut Vec<u8>,
    marker_len: usize,
    labels: &[String],
    number: usize,
    count: usize,
    terms: &[Vec<u8>],
) -> Result<(), AllocError>
    ensures { OnOk result (text.new.items ≡ text.old.items ++ snapshot_text marker_len
        (map string_bytes labels.now) number count (merge_contents terms.now)) }
{
    push_start(alloc, text, marker_len, number, count)?;
    push_sections(alloc, text, marker_len, labels, terms)?;
    push_end(alloc, text, marker_len, number, count)
}

fn push_git(
    alloc: Global,
    text: &mut Vec<u8>,
    marker_len: usize,
    labels: &[String],
    left: &[u8],
    base: &[u8],
    right: &[u8],
) -> Result<(), AllocError>
    ensures { OnOk result (text.new.items ≡ text.old.items ++ git_text marker_len
        (map string_bytes labels.now) left.now base.now right.now) }
{
    push_section(alloc, text, b'<', marker_len, label_at(labels, 0), left)?;
    push_section(alloc, text, b'|', marker_len, label_at(labels, 1), base)?;
    push_marker_line(alloc, text, b'=', marker_len, b"", false)?;
    push_terminated(text, right)?;
    let label = label_at(labels, 2);
    push_marker_line(alloc, text, b'>', marker_len, label, !is_terminated(right))
}

#[tactic(auto, using(crate::proofs::DiffLoops::conflict_steps))]
fn diff_conflict(
    alloc: Global,
    marker_len: usize,
    labels: &[String],
    number: usize,
    count: usize,
    terms: &[Vec<u8>],
) -> Result<Vec<u8>, AllocError>
    requires { IsOdd (length terms.now) }
    ensures { IfOk result (λ text. IsConflictText ConflictMarkerStyle.Diff marker_len
        (map string_bytes labels.now) number count (merge_contents terms.now) text.items) }
{
    let mut text = Vec::new(alloc);
    if !are_terminated(terms) {
        push_snapshot(alloc, &mut text, marker_len, labels, number, count, terms)?;
        return Ok(text);
    }
    let sections = diff_sections(alloc, marker_len, labels, terms)?;
    push_start(alloc, &mut text, marker_len, number, count)?;
    text.extend_from_slice(&sections)?;
    push_end(alloc, &mut text, marker_len, number, count)?;
    Ok(text)
}

// Returns a conflict in Git's style, or as a snapshot if it does not have three terms.
#[tactic(auto, using(crate::proofs::LoopLaws::git_steps))]
fn git_conflict(
    alloc: Global,
    marker_len: usize,
    labels: &[String],
    number: usize,
    count: usize,
    terms: &[Vec<u8>],
) -> Result<Vec<u8>, AllocError>
    ensures { IfOk result (λ text. text.items ≡ conflict_text ConflictMarkerStyle.Git marker_len
        (map string_bytes labels.now) number count (merge_contents terms.now)) }
{
    let mut text = Vec::new(alloc);
    if terms.len() == 3 {
        push_git(
            alloc, &mut text, marker_len, labels, &terms[0], &terms[1], &terms[2],
        )?;
        return Ok(text);
    }
    push_snapshot(alloc, &mut text, marker_len, labels, number, count, terms)?;
    Ok(text)
}

fn conflict(
    alloc: Global,
    style: ConflictMarkerStyle,
    marker_len: usize,
    labels: &[String],
    number: usize,
    count: usize,
    terms: &[Vec<u8>],
) -> Result<Vec<u8>, AllocError>
    requires { IsOdd (length terms.now) }
    ensures { IfOk result (λ text. IsConflictText style marker_len
        (map string_bytes labels.now) number count (merge_contents terms.now) text.items) }
{
    match style {
        ConflictMarkerStyle::Diff => {
            let text = diff_conflict(alloc, marker_len, labels, number, count, terms)?;
            Ok(text)
        }
        ConflictMarkerStyle::Git => {
            let text = git_conflict(alloc, marker_len, labels, number, count, terms)?;
            Ok(text)
        }
        ConflictMarkerStyle::Snapshot => {
            let mut text = Vec::new(alloc);
            push_snapshot(alloc, &mut text, marker_len, labels, number, count, terms)?;
            Ok(text)
        }
    }
}

// Appends a hunk after `number` conflicts. Returns the number of conflicts after it.
#[tactic(auto, using(crate::proofs::LoopLaws::hunk_steps))]
fn push_hunk(
    alloc: Global,
    text: &mut Vec<u8>,
    style: ConflictMarkerStyle,
    marker_len: usize,
    labels: &[String],
    number: usize,
    count: usize,
    terms: &[Vec<u8>],
) -> Result<usize, AllocError>
    requires number { number < 2 ^ 64 - 1 }
    requires odd { IsOdd (length terms.now) }
    ensures appended { IfOk result (λ next. (rest : List (List (List ℕ))) (tail : List ℕ)
        → IsRenderedFrom style marker_len (map string_bytes labels.now) next count rest tail
        → (whole : List ℕ) × (IsRenderedFrom style marker_len (map string_bytes labels.now) number
        count (merge_contents terms.now ∷ rest) whole
        × (text.new.items ++ tail ≡ text.old.items ++ whole))) }
    ensures next { IfOk result (λ next. next ≤ number + 1) }
{
    if terms.len() == 1 {
        text.extend_from_slice(&terms[0])?;
        return Ok(number);
    }
    let next = number + 1;
    let conflict = conflict(alloc, style, marker_len, labels, next, count, terms)?;
    text.extend_from_slice(&conflict)?;
    Ok(next)
}

/// Returns the number of hunks with more than one term.
pub fn count_conflicts(hunks: &[Merge<Vec<u8>>]) -> usize
    ensures { result ≡ conflict_count (contents hunks.now) }
{
    let mut count = 0;
    for hunk in hunks {
        if !hunk.is_resolved() {
            count += 1;
        }
    }
    count
}

fn longest_run(text: &[u8]) -> usize
    ensures run { result ≡ longest_run text.now }
    ensures bounded { result ≤ length text.now }
{
    let mut longest = 0;
    let mut rest = text;
    while !rest.is_empty() {
        let (line, after) = split_first_line(rest);
        longest = longest.max(run_length(line));
        rest = after;
    }
    longest
}

fn marker_len_of_terms(terms: &[Vec<u8>], marker_len: usize) -> usize
    ensures { result ≡ marker_len_of_terms marker_len (merge_contents terms.now) }
{
    let mut marker_len = marker_len;
    for term in terms {
        marker_len = marker_len.max(longest_run(term) + 2);
    }
    marker_len
}

/// Returns a length for markers that no run of a marker character at the start of a line has:
/// `MIN_CONFLICT_MARKER_LEN`, or two more than the longest run, as the diff style puts a character
/// before a line. Linear.
pub fn choose_materialized_conflict_marker_len(hunks: &[Merge<Vec<u8>>]) -> usize
    ensures { result ≡ chosen_marker_len (contents hunks.now) }
{
    let mut marker_len = MIN_CONFLICT_MARKER_LEN;
    for hunk in hunks {
        marker_len = marker_len_of_terms(hunk.as_slice(), marker_len);
    }
    marker_len
}

/// Renders hunks of a merged file, with each conflict between markers of
/// `marker_len` characters. A term that does not end in LF gets one, and a note in its marker.
///
/// Labels are those of the terms: a label that is empty, contains LF, or ends as the note does is
/// left out. Linear.
#[tactic(auto, using(crate::proofs::LoopLaws::hunks_steps))]
pub fn materialize(
    alloc: Global,
    hunks: &[Merge<Vec<u8>>],
    labels: &ConflictLabels,
    style: ConflictMarkerStyle,
    marker_len: usize,
) -> Result<Vec<u8>, AllocError>
    // The string is a rendering of the hunks in this style, with these labels.
    ensures { IfOk result (λ text. IsRendered style marker_len
        (labels_as_merge labels.now) (contents hunks.now) text.items) }
{
    let labels = labels.as_merge().as_slice();
    let count = count_conflicts(hunks);
    let mut text = Vec::new(alloc);
    let mut number = 0;
    for hunk in hunks {
        let terms = hunk.as_slice();
        number = push_hunk(
            alloc, &mut text, style, marker_len, labels, number, count, terms,
        )?;
    }
    Ok(text)
}
