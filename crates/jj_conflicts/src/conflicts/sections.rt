//! Rendering of a conflict in the diff style: each base compared by lines with the side before
//! it, and the last side as it is.
ghost use Rattle.std.specs.Prelude.{◌≡◌, ℕ, ◌+◌, ◌^◌, ◌<◌, ◌≤◌, ◌++◌, [], ◌∷◌, List, length, map, drop, string_bytes, IfOk, OnOk, All};
ghost use Rattle.jj_diff.specs.Inputs.{bytes_of};
ghost use Rattle.jj_merges.specs.Merge.{IsOdd};
ghost use Rattle.jj_conflicts.specs.Contents.{merge_contents};
ghost use Rattle.jj_conflicts.specs.Lines.{split_lines};
ghost use Rattle.jj_conflicts.specs.Rendering.{label_at, prefixed, compared_text, diff_text, diff_label, IsDiffSection, AreSections, all_terminated};

use super::render::{label_at, push_section};
use crate::lines::{is_terminated, split_first_line};
use crate::markers::push_marker_line;
use jj_diff::diff::{DiffHunk, DiffHunkKind, diff_by_line};
use std::alloc::{AllocError, Global};

// Appends the lines with a character before each.
#[tactic(auto, using(crate::proofs::DiffLoops::prefixed_steps))]
fn push_prefixed(text: &mut Vec<u8>, byte: u8, lines: &[u8]) -> Result<(), AllocError>
    ensures { OnOk result (text.new.items ≡ text.old.items ++ prefixed byte lines.now) }
{
    let mut rest = lines;
    while !rest.is_empty() {
        let (line, after) = split_first_line(rest);
        text.push(byte)?;
        text.extend_from_slice(line)?;
        rest = after;
    }
    Ok(())
}

#[tactic(auto, using(crate::proofs::DiffLoops::compared_steps))]
fn push_compared(text: &mut Vec<u8>, kind: DiffHunkKind, row: &[&[u8]]) -> Result<(), AllocError>
    requires { length row.now ≡ 2 }
    ensures { OnOk result (text.new.items
        ≡ text.old.items ++ compared_text kind (bytes_of row.now)) }
{
    match kind {
        DiffHunkKind::Matching => push_prefixed(text, b' ', row[0]),
        DiffHunkKind::Different => {
            push_prefixed(text, b'-', row[0])?;
            push_prefixed(text, b'+', row[1])
        }
    }
}

#[tactic(auto, using(crate::proofs::DiffLoops::hunk_steps))]
fn push_hunks(text: &mut Vec<u8>, hunks: &[DiffHunk<'_>]) -> Result<(), AllocError>
    requires { All (λ hunk. length hunk.contents.items ≡ 2) hunks.now }
    ensures { OnOk result (text.new.items ≡ text.old.items ++ diff_text hunks.now) }
{
    for hunk in hunks {
        push_compared(text, hunk.kind, &hunk.contents)?;
    }
    Ok(())
}

#[tactic(auto, using(crate::proofs::DiffLoops::label_steps))]
fn diff_label(alloc: Global, base: &[u8], side: &[u8]) -> Result<Vec<u8>, AllocError>
    ensures { IfOk result (λ label. label.items ≡ diff_label base.now side.now) }
{
    if base.is_empty() {
        return Ok(Vec::new(alloc));
    }
    if side.is_empty() {
        return Ok(Vec::new(alloc));
    }
    let mut label = Vec::from_slice(alloc, b"from ")?;
    label.extend_from_slice(base)?;
    label.extend_from_slice(b" to ")?;
    label.extend_from_slice(side)?;
    Ok(label)
}

// Returns a comparison of a base with a side.
#[tactic(auto, using(crate::proofs::DiffLoops::section_steps))]
fn diff_section(
    alloc: Global,
    marker_len: usize,
    label: &[u8],
    base: &[u8],
    side: &[u8],
) -> Result<Vec<u8>, AllocError>
    ensures { IfOk result
        (λ text. IsDiffSection marker_len label.now base.now side.now text.items) }
{
    let hunks = diff_by_line(alloc, &[base, side], 0)?;
    let mut text = Vec::new(alloc);
    push_marker_line(alloc, &mut text, b'%', marker_len, label, false)?;
    push_hunks(&mut text, &hunks)?;
    Ok(text)
}

fn labeled_section(
    alloc: Global,
    marker_len: usize,
    labels: &[String],
    index: usize,
    base: &[u8],
    side: &[u8],
) -> Result<Vec<u8>, AllocError>
    requires { index + 1 < 2 ^ 64 }
    ensures { IfOk result (λ text. IsDiffSection marker_len
        (diff_label (label_at (map string_bytes labels.now) (index + 1))
        (label_at (map string_bytes labels.now) index)) base.now side.now text.items) }
{
    let base_label = label_at(labels, index + 1);
    let side_label = label_at(labels, index);
    let label = diff_label(alloc, base_label, side_label)?;
    diff_section(alloc, marker_len, &label, base, side)
}

/// Returns the sections of a conflict: each base compared with the side before it, and the last
/// side as it is.
#[tactic(auto, using(crate::proofs::DiffLoops::sections_steps))]
pub fn diff_sections(
    alloc: Global,
    marker_len: usize,
    labels: &[String],
    terms: &[Vec<u8>],
) -> Result<Vec<u8>, AllocError>
    requires { IsOdd (length terms.now) }
    ensures { IfOk result (λ text. AreSections marker_len (map string_bytes labels.now) 0
        (merge_contents terms.now) text.items) }
{
    let mut text = Vec::new(alloc);
    let mut index = 0;
    let mut rest = terms;
    while rest.len() > 1 {
        let section = labeled_section(alloc, marker_len, labels, index, &rest[1], &rest[0])?;
        text.extend_from_slice(&section)?;
        let (_, after) = rest.split_at(2);
        rest = after;
        index += 2;
    }
    push_section(
        alloc,
        &mut text,
        b'+',
        marker_len,
        label_at(labels, index),
        &rest[0],
    )?;
    Ok(text)
}

/// Returns whether each term is empty or ends in LF.
#[tactic(auto, using(crate::proofs::DiffLoops::terminated_steps))]
pub fn are_terminated(terms: &[Vec<u8>]) -> bool
    ensures { result ≡ all_terminated (merge_contents terms.now) }
{
    for term in terms {
        if !is_terminated(term) {
            return false;
        }
    }
    true
}
