//! The terms of one conflict in the diff style: one side as it is, and comparisons of a base with a
//! side.
ghost use Rattle.std.specs.Prelude.{◌≡◌, ℕ, ◌+◌, ◌<◌, ◌++◌, ◌==◌, ◌&&◌, not, length, fold, IfOk, OnOk};
ghost use Rattle.std.specs.Option.{option_map};
ghost use Rattle.jj_conflicts.specs.Contents.{merge_contents};
ghost use Rattle.jj_conflicts.specs.Lines.{split_lines};
ghost use Rattle.jj_conflicts.specs.Parsing.{term_of, is_odd, is_section_byte, section_terms, done_terms, with_section, with_diff_line, with_section_line, no_sections, has_terms, sections_outcome, section_lines};
ghost use Rattle.jj_conflicts.specs.Views.{sections_view};

use super::terms::term_of;
use crate::lines::split_first_line;
use crate::markers::{has_note, marker_of};
use jj_merges::merge::Merge;
use smallvec::SmallVec;
use std::alloc::{AllocError, Global};
use std::mem;

#[derive(Drop)]
struct SectionParser {
    terms: Vec<Vec<u8>>,
    byte: u8,
    base: Vec<u8>,
    side: Vec<u8>,
    is_noted: bool,
    is_valid: bool,
}

fn has_terms(num_sides: usize, count: usize) -> bool
    ensures { result ≡ has_terms num_sides count }
{
    count % 2 == 1 && count / 2 + 1 == num_sides
}

// Whether a section with this marker may follow so many terms: one side is verbatim.
fn is_still_valid(is_valid: bool, byte: u8, count: usize) -> bool
    ensures { result ≡ (is_valid && not (byte == 43 && is_odd count)) }
{
    is_valid && !(byte == b'+' && count % 2 == 1)
}

// Appends the terms of a section.
#[tactic(auto, using(crate::proofs::SectionSteps::push_steps))]
fn push_terms(
    terms: &mut Vec<Vec<u8>>,
    byte: u8,
    base: Vec<u8>,
    side: Vec<u8>,
) -> Result<(), AllocError>
    ensures { OnOk result (merge_contents terms.new.items ≡ merge_contents terms.old.items
        ++ section_terms byte (is_odd (length terms.old.items)) base.items side.items) }
{
    if byte == 0 {
        return Ok(());
    }
    if byte == b'+' {
        terms.push(side)?;
        return Ok(());
    }
    if terms.len() % 2 == 1 {
        terms.push(base)?;
        terms.push(side)?;
        return Ok(());
    }
    terms.push(side)?;
    terms.push(base)?;
    Ok(())
}

impl SectionParser {
    // Ends the current section.
    fn finish_section(&mut self, alloc: Global) -> Result<(), AllocError>
        ensures terms { OnOk result
            (merge_contents self.new.terms.items ≡ done_terms (sections_view self.old)) }
        ensures valid { OnOk result (self.new.is_valid ≡ self.old.is_valid) }
    {
        let base = mem::replace(&mut self.base, Vec::new(alloc));
        let side = mem::replace(&mut self.side, Vec::new(alloc));
        let base = term_of(self.is_noted, base);
        let side = term_of(self.is_noted, side);
        push_terms(&mut self.terms, self.byte, base, side)
    }

    // Starts a section at a marker line.
    #[tactic(auto, using(crate::proofs::SectionSteps::start_steps))]
    fn start_section(&mut self, alloc: Global, byte: u8, line: &[u8]) -> Result<(), AllocError>
        ensures { OnOk result (sections_view self.new
            ≡ with_section (sections_view self.old) byte line.now) }
    {
        self.finish_section(alloc)?;
        self.is_valid = is_still_valid(self.is_valid, byte, self.terms.len());
        self.byte = byte;
        self.base = Vec::new(alloc);
        self.side = Vec::new(alloc);
        self.is_noted = has_note(line);
        Ok(())
    }

    #[tactic(auto, using(crate::proofs::SectionSteps::diff_steps))]
    fn push_diff_line(&mut self, line: &[u8]) -> Result<(), AllocError>
        ensures { OnOk result (sections_view self.new
            ≡ with_diff_line (sections_view self.old) line.now) }
    {
        if line.is_empty() {
            return Ok(());
        }
        let byte = line[0];
        let rest = &line[1..];
        if byte == b' ' {
            self.base.extend_from_slice(rest)?;
            self.side.extend_from_slice(rest)
        } else if byte == b'-' {
            self.base.extend_from_slice(rest)
        } else if byte == b'+' {
            self.side.extend_from_slice(rest)
        } else if byte == b'\n' {
            self.base.extend_from_slice(line)?;
            self.side.extend_from_slice(line)
        } else {
            self.is_valid = false;
            Ok(())
        }
    }

    #[tactic(auto, using(crate::proofs::SectionSteps::line_steps))]
    fn push_line(&mut self, alloc: Global, marker_len: usize, line: &[u8]) -> Result<(), AllocError>
        ensures { OnOk result (sections_view self.new
            ≡ with_section_line marker_len (sections_view self.old) line.now) }
    {
        let byte = marker_of(line, marker_len);
        if byte == b'%' {
            self.start_section(alloc, byte, line)
        } else if byte == b'+' {
            self.start_section(alloc, byte, line)
        } else if self.byte == b'+' {
            self.side.extend_from_slice(line)
        } else {
            self.push_diff_line(line)
        }
    }

    #[tactic(auto, using(crate::proofs::SectionSteps::finish_steps))]
    fn finish(self, alloc: Global, num_sides: usize) -> Result<Option<Merge<Vec<u8>>>, AllocError>
        ensures { IfOk result (λ terms. option_map merge_contents terms
            ≡ sections_outcome num_sides (sections_view self)) }
    {
        let mut parser = self;
        parser.finish_section(alloc)?;
        if !parser.is_valid {
            return Ok(None);
        }
        if !has_terms(num_sides, parser.terms.len()) {
            return Ok(None);
        }
        let SectionParser { terms, .. } = parser;
        Ok(Some(Merge::from_vec(SmallVec::from_vec(terms))))
    }
}

/// Parses the lines of a conflict in the diff style, without those that start and end it. Returns
/// `None` if they are malformed or do not have `num_sides` sides.
#[tactic(auto, using(crate::proofs::ParseLaws::fold_step, crate::proofs::ParseLaws::fold_end))]
pub fn parse_diff_sections(
    alloc: Global,
    marker_len: usize,
    num_sides: usize,
    lines: &[u8],
) -> Result<Option<Merge<Vec<u8>>>, AllocError>
    ensures { IfOk result (λ terms. option_map merge_contents terms
        ≡ section_lines marker_len num_sides (split_lines lines.now)) }
{
    let mut parser = SectionParser {
        terms: Vec::new(alloc),
        byte: 0,
        base: Vec::new(alloc),
        side: Vec::new(alloc),
        is_noted: false,
        is_valid: true,
    };
    let mut rest = lines;
    while !rest.is_empty() {
        let (line, after) = split_first_line(rest);
        parser.push_line(alloc, marker_len, line)?;
        rest = after;
    }
    parser.finish(alloc, num_sides)
}
