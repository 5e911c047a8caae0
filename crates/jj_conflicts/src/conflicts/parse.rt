//! Parsing of content with conflict markers, in one pass over its lines.
ghost use Rattle.std.specs.Prelude.{◌≡◌, ℕ, ◌+◌, ◌<◌, ◌++◌, [], length, IfOk, OnOk, IfSome, IsSome, ◌↔◌};
ghost use Rattle.std.specs.Option.{option_map};
ghost use Rattle.jj_conflicts.specs.Lines.{split_lines};
ghost use Rattle.jj_conflicts.specs.Contents.{contents, merge_contents};
ghost use Rattle.jj_conflicts.specs.Parsing.{resolved_hunk};
ghost use Rattle.jj_conflicts.specs.Rendering.{conflict_count};
ghost use Rattle.jj_conflicts.specs.Parsing.{with_conflict, after_start, with_text_line, all_hunks, parsed};
ghost use Rattle.jj_conflicts.specs.Views.{hunks_view};

use super::render::count_conflicts;
use super::terms::parse_terms;
use crate::lines::split_first_line;
use crate::markers::marker_of;
use jj_merges::merge::Merge;
use std::alloc::{AllocError, Global};
use std::mem;

#[derive(Drop)]
struct HunkParser {
    hunks: Vec<Merge<Vec<u8>>>,
    resolved: Vec<u8>,
    pending: Vec<u8>,
}

// Appends a resolved hunk, unless it is empty.
#[tactic(auto, using(crate::proofs::StateLaws::resolved_kept, crate::proofs::StateLaws::resolved_pushed))]
fn push_resolved(
    alloc: Global,
    hunks: &mut Vec<Merge<Vec<u8>>>,
    text: Vec<u8>,
) -> Result<(), AllocError>
    ensures { OnOk result (contents hunks.new.items
        ≡ contents hunks.old.items ++ resolved_hunk text.items) }
{
    if text.is_empty() {
        return Ok(());
    }
    hunks.push(Merge::resolved(alloc, text))?;
    Ok(())
}

impl HunkParser {
    // Ends a conflict. One that is malformed is content.
    #[tactic(auto, using(crate::proofs::StateLaws::hunks_push))]
    fn push_conflict(
        &mut self,
        alloc: Global,
        line: &[u8],
        terms: Option<Merge<Vec<u8>>>,
    ) -> Result<(), AllocError>
        ensures { OnOk result (hunks_view self.new ≡ with_conflict (hunks_view self.old) line.now
            (option_map merge_contents terms)) }
    {
        match terms {
            Some(terms) => {
                let text = mem::replace(&mut self.resolved, Vec::new(alloc));
                push_resolved(alloc, &mut self.hunks, text)?;
                self.hunks.push(terms)?;
            }
            None => {
                self.resolved.extend_from_slice(&self.pending)?;
                self.resolved.extend_from_slice(line)?;
            }
        }
        self.pending.clear();
        Ok(())
    }

    fn start_conflict(&mut self, line: &[u8]) -> Result<(), AllocError>
        ensures { OnOk result (hunks_view self.new ≡ after_start (hunks_view self.old) line.now) }
    {
        self.resolved.extend_from_slice(&self.pending)?;
        self.pending.clear();
        self.pending.extend_from_slice(line)
    }

    #[tactic(auto, using(crate::proofs::ParseLaws::start_line, crate::proofs::ParseLaws::resolved_line, crate::proofs::ParseLaws::end_line, crate::proofs::ParseLaws::inner_line))]
    fn push_line(
        &mut self,
        alloc: Global,
        marker_len: usize,
        num_sides: usize,
        line: &[u8],
    ) -> Result<(), AllocError>
        ensures { OnOk result (hunks_view self.new
            ≡ with_text_line marker_len num_sides (hunks_view self.old) line.now) }
    {
        let byte = marker_of(line, marker_len);
        if byte == b'<' {
            self.start_conflict(line)
        } else if self.pending.is_empty() {
            self.resolved.extend_from_slice(line)
        } else if byte == b'>' {
            let terms = parse_terms(alloc, marker_len, num_sides, &self.pending, line)?;
            self.push_conflict(alloc, line, terms)
        } else {
            self.pending.extend_from_slice(line)
        }
    }

    fn finish(self, alloc: Global) -> Result<Vec<Merge<Vec<u8>>>, AllocError>
        ensures { IfOk result (λ hunks. contents hunks.items ≡ all_hunks (hunks_view self)) }
    {
        let HunkParser {
            hunks,
            resolved,
            pending,
        } = self;
        let mut text = resolved;
        text.extend_from_slice(&pending)?;
        let mut all = hunks;
        push_resolved(alloc, &mut all, text)?;
        Ok(all)
    }
}

/// Parses content with conflict markers into hunks: resolved content, and conflicts of `num_sides`
/// sides.
///
/// A marker is a line that begins with `expected_marker_len` or more of its character and then has
/// white space. A conflict goes from the last `<<<<<<<` line before a `>>>>>>>` line to that line.
/// It is malformed, and stays resolved content, if its markers are not in the order of a style
/// (`+ - + ..` from the line after the first on, or `|` and `=`), or if it has another number of
/// sides. Content without a conflict is one resolved hunk, or none if it is empty. Linear.
#[tactic(auto, using(crate::proofs::ParseLaws::fold_step, crate::proofs::ParseLaws::fold_end))]
pub fn parse_hunks(
    alloc: Global,
    input: &[u8],
    num_sides: usize,
    expected_marker_len: usize,
) -> Result<Vec<Merge<Vec<u8>>>, AllocError>
    // The hunks are those that the state machine over the lines finds.
    ensures { IfOk result (λ hunks.
        contents hunks.items ≡ parsed expected_marker_len num_sides input.now) }
{
    let mut parser = HunkParser {
        hunks: Vec::new(alloc),
        resolved: Vec::new(alloc),
        pending: Vec::new(alloc),
    };
    let mut rest = input;
    while !rest.is_empty() {
        let (line, after) = split_first_line(rest);
        parser.push_line(alloc, expected_marker_len, num_sides, line)?;
        rest = after;
    }
    parser.finish(alloc)
}

/// Parses content as `parse_hunks` does. Returns `None` if it has no conflict.
pub fn parse_conflict(
    alloc: Global,
    input: &[u8],
    num_sides: usize,
    expected_marker_len: usize,
) -> Result<Option<Vec<Merge<Vec<u8>>>>, AllocError>
    // The hunks are those that the state machine over the lines finds.
    ensures hunks { IfOk result (λ o. IfSome o (λ hunks.
        contents hunks.items ≡ parsed expected_marker_len num_sides input.now)) }
    // There is a result exactly if one of them is a conflict.
    ensures found { IfOk result (λ o. IsSome o
        ↔ (0 < conflict_count (parsed expected_marker_len num_sides input.now))) }
{
    let hunks = parse_hunks(alloc, input, num_sides, expected_marker_len)?;
    if count_conflicts(&hunks) == 0 {
        return Ok(None);
    }
    Ok(Some(hunks))
}
