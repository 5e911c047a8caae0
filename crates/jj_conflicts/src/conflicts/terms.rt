//! The terms of one conflict: a section for each, and marker lines between them.
ghost use Rattle.std.specs.Prelude.{◌≡◌, ℕ, ◌+◌, ◌<◌, false, length, IfOk, OnOk};
ghost use Rattle.std.specs.Option.{option_map};
ghost use Rattle.jj_conflicts.specs.Lines.{split_lines};
ghost use Rattle.jj_conflicts.specs.Contents.{merge_contents};
ghost use Rattle.jj_conflicts.specs.Parsing.{term_of, separator_byte, is_separator, with_separator, with_line, with_lines, first_term, has_sides, finished_terms, first_some, section_lines, terms_of};
ghost use Rattle.jj_conflicts.specs.Views.{terms_view};

use super::section_terms::parse_diff_sections;
use crate::lines::split_first_line;
use crate::markers::{has_note, marker_of};
use jj_merges::merge::Merge;
use smallvec::SmallVec;
use std::alloc::{AllocError, Global};
use std::mem;

#[derive(Drop)]
struct TermParser {
    finished: Vec<Vec<u8>>,
    current: Vec<u8>,
    is_noted: bool,
    is_valid: bool,
}

fn separator_byte(is_git: bool, finished: usize) -> u8
    ensures { result ≡ separator_byte is_git finished }
{
    if is_git {
        if finished == 0 {
            b'|'
        } else if finished == 1 {
            b'='
        } else {
            0
        }
    } else if finished % 2 == 0 {
        b'-'
    } else {
        b'+'
    }
}

fn is_separator(is_git: bool, byte: u8) -> bool
    ensures { result ≡ is_separator is_git byte }
{
    if is_git {
        byte == b'|' || byte == b'='
    } else {
        byte == b'+' || byte == b'-'
    }
}

fn has_sides(num_sides: usize, finished: usize) -> bool
    ensures { result ≡ has_sides num_sides finished }
{
    finished % 2 == 0 && finished / 2 + 1 == num_sides
}

/// Returns the term of a section's lines.
pub fn term_of(is_noted: bool, lines: Vec<u8>) -> Vec<u8>
    ensures { result.items ≡ term_of is_noted lines.items }
{
    let mut lines = lines;
    if is_noted {
        lines.truncate(lines.len().saturating_sub(1));
    }
    lines
}

impl TermParser {
    fn new(alloc: Global, line: &[u8]) -> Self
        ensures { terms_view result ≡ first_term line.now }
    {
        TermParser {
            finished: Vec::new(alloc),
            current: Vec::new(alloc),
            is_noted: has_note(line),
            is_valid: true,
        }
    }

    // Ends the current term at a marker line, which must be the expected one.
    #[tactic(auto, using(crate::proofs::StateLaws::separator_pushed, crate::proofs::StateLaws::separator_refused))]
    fn push_separator(
        &mut self,
        alloc: Global,
        is_git: bool,
        byte: u8,
        line: &[u8],
    ) -> Result<(), AllocError>
        ensures { OnOk result (terms_view self.new
            ≡ with_separator is_git byte (terms_view self.old) line.now) }
    {
        if byte != separator_byte(is_git, self.finished.len()) {
            self.is_valid = false;
            return Ok(());
        }
        let lines = mem::replace(&mut self.current, Vec::new(alloc));
        self.finished.push(term_of(self.is_noted, lines))?;
        self.is_noted = has_note(line);
        Ok(())
    }

    #[tactic(auto, using(crate::proofs::ParseLaws::separator_line, crate::proofs::ParseLaws::other_line))]
    fn push_line(
        &mut self,
        alloc: Global,
        marker_len: usize,
        is_git: bool,
        line: &[u8],
    ) -> Result<(), AllocError>
        ensures { OnOk result (terms_view self.new
            ≡ with_line marker_len is_git (terms_view self.old) line.now) }
    {
        let byte = marker_of(line, marker_len);
        if is_separator(is_git, byte) {
            self.push_separator(alloc, is_git, byte, line)
        } else {
            self.current.extend_from_slice(line)
        }
    }

    #[tactic(auto, using(crate::proofs::StateLaws::contents_push, crate::proofs::StateLaws::length_contents))]
    fn finish(
        self,
        num_sides: usize,
        is_git: bool,
        end: &[u8],
    ) -> Result<Option<Merge<Vec<u8>>>, AllocError>
        ensures { IfOk result (λ terms. option_map merge_contents terms
            ≡ finished_terms num_sides is_git (terms_view self) end.now) }
    {
        let TermParser {
            finished,
            current,
            is_noted,
            is_valid,
        } = self;
        if !is_valid || !has_sides(num_sides, finished.len()) {
            return Ok(None);
        }
        let is_noted = if is_git { has_note(end) } else { is_noted };
        let mut terms = finished;
        terms.push(term_of(is_noted, current))?;
        Ok(Some(Merge::from_vec(SmallVec::from_vec(terms))))
    }
}

#[tactic(auto, using(crate::proofs::ParseLaws::fold_step, crate::proofs::ParseLaws::fold_end))]
fn parse_sections(
    alloc: Global,
    marker_len: usize,
    num_sides: usize,
    is_git: bool,
    first: &[u8],
    rest: &[u8],
    end: &[u8],
) -> Result<Option<Merge<Vec<u8>>>, AllocError>
    ensures { IfOk result (λ terms. option_map merge_contents terms
        ≡ finished_terms num_sides is_git
        (with_lines marker_len is_git (first_term first.now) (split_lines rest.now)) end.now) }
{
    let mut terms = TermParser::new(alloc, first);
    let mut rest = rest;
    while !rest.is_empty() {
        let (line, after) = split_first_line(rest);
        terms.push_line(alloc, marker_len, is_git, line)?;
        rest = after;
    }
    terms.finish(num_sides, is_git, end)
}

// Parses the lines of a conflict whose first section is a side: in the snapshot style, or else in
// the diff style.
#[tactic(auto, using(crate::proofs::ParseLaws::first_steps))]
fn parse_after_side(
    alloc: Global,
    marker_len: usize,
    num_sides: usize,
    lines: &[u8],
    first: &[u8],
    rest: &[u8],
    end: &[u8],
) -> Result<Option<Merge<Vec<u8>>>, AllocError>
    ensures { IfOk result (λ terms. option_map merge_contents terms
        ≡ first_some (finished_terms num_sides false
        (with_lines marker_len false (first_term first.now) (split_lines rest.now)) end.now)
        (section_lines marker_len num_sides (split_lines lines.now))) }
{
    match parse_sections(alloc, marker_len, num_sides, false, first, rest, end)? {
        Some(terms) => Ok(Some(terms)),
        None => parse_diff_sections(alloc, marker_len, num_sides, lines),
    }
}

/// Parses the lines of a conflict: `pending` from the line that starts it, and the line that ends
/// it. Returns `None` if its markers are not in order or it does not have `num_sides` sides.
#[tactic(auto, using(crate::proofs::ParseLaws::no_lines, crate::proofs::ParseLaws::one_line_only, crate::proofs::ParseLaws::diff_lines, crate::proofs::ParseLaws::snapshot_lines, crate::proofs::ParseLaws::git_lines))]
pub fn parse_terms(
    alloc: Global,
    marker_len: usize,
    num_sides: usize,
    pending: &[u8],
    end: &[u8],
) -> Result<Option<Merge<Vec<u8>>>, AllocError>
    ensures { IfOk result (λ terms. option_map merge_contents terms
        ≡ terms_of marker_len num_sides (split_lines pending.now) end.now) }
{
    if pending.is_empty() {
        return Ok(None);
    }
    let (start, rest) = split_first_line(pending);
    if rest.is_empty() {
        return Ok(None);
    }
    let (line, sections) = split_first_line(rest);
    let byte = marker_of(line, marker_len);
    if byte == b'%' {
        return parse_diff_sections(alloc, marker_len, num_sides, rest);
    }
    if byte == b'+' {
        return parse_after_side(alloc, marker_len, num_sides, rest, line, sections, end);
    }
    parse_sections(alloc, marker_len, num_sides, true, start, rest, end)
}
