//! `ContentDiff`: the comparison of any number of inputs, by lines, by words or by both.
ghost use Rattle.std.specs.Prelude.{◌≡◌, ◌⊎◌, ◌≤◌, List, [], length, map, IfOk, OnOk, OnErr};
ghost use Rattle.std.specs.List.{slice_index_or};
ghost use Rattle.std.specs.Slice.Iter.{iter_rest};
ghost use Rattle.jj_diff.specs.Inputs.{AreEqual, AreEqualBy, bytes_of, side};
ghost use Rattle.jj_diff.specs.Tokens.{AreEndsToo, IsTokenizer, TokenEnds, is_line_end, is_word_end};
ghost use Rattle.jj_diff.specs.Hunks.{AllMatch, AreTrimmed, AreTrimmedBy, IsDiff, IsDiffBy, MatchesEnds, hunk_ranges, row_of};
ghost use Rattle.jj_diff.specs.Refined.{AreHunksOf, IsRefined, IsRefinedLines, KeepsEnds, KeepsMatches};

use super::compare::{CompareBytes, CompareBytesExactly};
use super::diff_by_line;
use super::hunks::{DiffHunk, compared_hunks, single_hunk};
use super::refine::refine_hunks;
use super::regions::find_compared_regions;
use super::rows::{offset_after, part_of};
use super::tokens::{Tokenizer, Words};
use std::alloc::{AllocError, Global};
use std::ops::Range;
use std::slice::Iter;

/// A comparison of any number of inputs.
#[derive(Drop)]
pub struct ContentDiff<'a> {
    /// The inputs.
    pub inputs: Vec<&'a [u8]>,
    /// The hunks, in order.
    pub hunks: Vec<DiffHunk<'a>>,
}

/// Iterates over hunks.
pub type DiffHunkIterator<'b, 'a> = Iter<'b, DiffHunk<'a>>;

// Returns where each hunk is in the input `text`, which consists of their parts.
#[tactic(auto, using(crate::proofs::HunkRanges::range_steps))]
fn ranges_within(
    alloc: Global,
    text: &[u8],
    hunks: &[DiffHunk],
    input: usize,
) -> Result<Vec<Range<usize>>, AllocError>
    requires { side input (map row_of hunks.now) ≡ text.now }
    ensures { IfOk result (λ ranges. ranges.items ≡ hunk_ranges input 0 hunks.now) }
{
    let mut ranges = Vec::with_capacity(alloc, hunks.len())?;
    let mut start = 0;
    for hunk in hunks {
        let end = offset_after(text, start, part_of(&hunk.contents, input).len());
        ranges.push(start..end)?;
        start = end;
    }
    Ok(ranges)
}

/// Returns the hunks of a comparison by words: lines are compared first, each input with the first,
/// and then the words of hunks that differ.
pub fn diff<'a>(alloc: Global, inputs: &[&'a [u8]]) -> Result<Vec<DiffHunk<'a>>, AllocError>
    // The hunks' parts of an input join to it, kinds alternate, matching parts are equal, no hunk
    // is empty in all inputs, and none starts or ends within a word.
    ensures diff { IfOk result (λ hunks. IsDiff is_word_end (bytes_of inputs.now) hunks.items) }
    // Hunks of a comparison by lines are refined: what matches there matches here.
    ensures refined { IfOk result (λ hunks. IsRefinedLines (bytes_of inputs.now) hunks.items) }
    // The lines that all inputs start with match, and of the other lines those that all end with.
    ensures ends { IfOk result
        (λ hunks. MatchesEnds is_line_end (bytes_of inputs.now) hunks.items) }
    // No hunk that differs starts or ends with a token that is equal in all inputs; one of at most
    // 64 tokens an input has no token that occurs once in each part.
    ensures trimmed { IfOk result (λ hunks. AreTrimmed is_word_end hunks.items) }
    // Equal inputs have no hunk that differs.
    ensures identity { IfOk result
        (λ hunks. AreEqual (bytes_of inputs.now) → AllMatch hunks.items) }
{
    let lines = diff_by_line(alloc, inputs, 0)?;
    let hunks = refine_hunks(alloc, &Words, &CompareBytesExactly, inputs, &lines)?;
    Ok(hunks)
}

impl<'a> ContentDiff<'a> {
    /// Compares the inputs line by line, each with the first.
    pub fn by_line(alloc: Global, inputs: &[&'a [u8]]) -> Result<ContentDiff<'a>, AllocError>
        ensures inputs { IfOk result (λ d. bytes_of d.inputs.items ≡ bytes_of inputs.now) }
        ensures diff { IfOk result
            (λ d. IsDiff is_line_end (bytes_of inputs.now) d.hunks.items) }
        ensures ends { IfOk result
            (λ d. MatchesEnds is_line_end (bytes_of inputs.now) d.hunks.items) }
        ensures trimmed { IfOk result (λ d. AreTrimmed is_line_end d.hunks.items) }
        ensures identity { IfOk result
            (λ d. AreEqual (bytes_of inputs.now) → AllMatch d.hunks.items) }
    {
        let hunks = diff_by_line(alloc, inputs, 0)?;
        let inputs = Vec::from_slice(alloc, inputs)?;
        Ok(ContentDiff { inputs, hunks })
    }

    /// Compares the inputs line by line, each with the first, and then the words of the hunks that
    /// differ. What matches by lines matches.
    pub fn by_word(alloc: Global, inputs: &[&'a [u8]]) -> Result<ContentDiff<'a>, AllocError>
        ensures inputs { IfOk result (λ d. bytes_of d.inputs.items ≡ bytes_of inputs.now) }
        ensures diff { IfOk result
            (λ d. IsDiff is_word_end (bytes_of inputs.now) d.hunks.items) }
        ensures refined { IfOk result
            (λ d. IsRefinedLines (bytes_of inputs.now) d.hunks.items) }
        ensures ends { IfOk result
            (λ d. MatchesEnds is_line_end (bytes_of inputs.now) d.hunks.items) }
        ensures trimmed { IfOk result (λ d. AreTrimmed is_word_end d.hunks.items) }
        ensures identity { IfOk result
            (λ d. AreEqual (bytes_of inputs.now) → AllMatch d.hunks.items) }
    {
        let hunks = diff(alloc, inputs)?;
        let inputs = Vec::from_slice(alloc, inputs)?;
        Ok(ContentDiff { inputs, hunks })
    }

    /// Compares the inputs token by token, each with the first: tokens that are equal under
    /// `compare` can match.
    pub fn for_tokenizer<T: Tokenizer, C: CompareBytes>(
        alloc: Global,
        inputs: &[&'a [u8]],
        tokenizer: &T,
        compare: &C,
    ) -> Result<ContentDiff<'a>, AllocError>
        ensures inputs { IfOk result (λ d. bytes_of d.inputs.items ≡ bytes_of inputs.now) }
        ensures diff { IfOk result (λ d.
            IsDiffBy C.canonical (T.is_end tokenizer.now) (bytes_of inputs.now) d.hunks.items) }
        ensures ends { IfOk result
            (λ d. MatchesEnds (T.is_end tokenizer.now) (bytes_of inputs.now) d.hunks.items) }
        // No hunk that differs starts or ends with a token that is equal in all inputs; one of at
        // most 64 tokens an input has no token that occurs once in each part under `compare`.
        ensures trimmed { IfOk result
            (λ d. AreTrimmedBy C.canonical (T.is_end tokenizer.now) d.hunks.items) }
        ensures identity { IfOk result
            (λ d. AreEqualBy C.canonical (bytes_of inputs.now) → AllMatch d.hunks.items) }
    {
        let regions = find_compared_regions(alloc, tokenizer, compare, inputs, 0)?;
        let hunks = compared_hunks(alloc, tokenizer, compare, inputs, &regions)?;
        let inputs = Vec::from_slice(alloc, inputs)?;
        Ok(ContentDiff { inputs, hunks })
    }

    /// Returns the inputs as one hunk, which matches if they are equal, or none if they are empty.
    pub fn unrefined(alloc: Global, inputs: &[&'a [u8]]) -> Result<ContentDiff<'a>, AllocError>
        ensures inputs { IfOk result (λ d. bytes_of d.inputs.items ≡ bytes_of inputs.now) }
        ensures diff { IfOk result (λ d. (is_end : TokenEnds) → IsTokenizer is_end
            → IsDiff is_end (bytes_of inputs.now) d.hunks.items) }
        ensures single { IfOk result (λ d. length d.hunks.items ≤ 1) }
        ensures identity { IfOk result
            (λ d. AreEqual (bytes_of inputs.now) → AllMatch d.hunks.items) }
    {
        let hunks = single_hunk(alloc, inputs)?;
        let inputs = Vec::from_slice(alloc, inputs)?;
        Ok(ContentDiff { inputs, hunks })
    }

    /// Compares the parts of each hunk that differs, token by token. Hunks that match stay as they
    /// are; adjacent ones are joined. Fails if memory runs out; the comparison is then unchanged.
    pub fn refine_changed_regions<T: Tokenizer, C: CompareBytes>(
        &mut self,
        alloc: Global,
        tokenizer: &T,
        compare: &C,
    ) -> Result<(), AllocError>
        ensures inputs { self.new.inputs.items ≡ self.old.inputs.items }
        // The hunks that differed are replaced by comparisons of their parts, which match where
        // they start and end alike.
        ensures refined { OnOk result
            (AreHunksOf (bytes_of self.old.inputs.items) self.old.hunks.items
            → IsRefined C.canonical (T.is_end tokenizer.now) self.old.hunks.items
            self.new.hunks.items) }
        // A comparison by tokens whose ends are ends of these tokens too, such as lines before
        // words, is one by these tokens.
        ensures diff { OnOk result ((before : TokenEnds)
            → AreEndsToo before (T.is_end tokenizer.now)
            → IsDiffBy C.canonical before (bytes_of self.old.inputs.items) self.old.hunks.items
            → IsDiffBy C.canonical (T.is_end tokenizer.now) (bytes_of self.old.inputs.items)
            self.new.hunks.items) }
        // A hunk that matched is part of one that matches.
        ensures kept { OnOk result
            (AreHunksOf (bytes_of self.old.inputs.items) self.old.hunks.items
            → KeepsMatches (length (bytes_of self.old.inputs.items)) self.old.hunks.items
            self.new.hunks.items) }
        ensures ends { OnOk result
            (AreHunksOf (bytes_of self.old.inputs.items) self.old.hunks.items
            → KeepsEnds self.old.hunks.items self.new.hunks.items) }
        ensures trimmed { OnOk result
            (AreHunksOf (bytes_of self.old.inputs.items) self.old.hunks.items
            → AreTrimmedBy C.canonical (T.is_end tokenizer.now) self.new.hunks.items) }
        ensures identity { OnOk result
            (AreHunksOf (bytes_of self.old.inputs.items) self.old.hunks.items
            → AllMatch self.old.hunks.items → AllMatch self.new.hunks.items) }
        ensures unchanged { OnErr result (self.new.hunks.items ≡ self.old.hunks.items) }
    {
        let hunks = refine_hunks(alloc, tokenizer, compare, &self.inputs, &self.hunks)?;
        self.hunks = hunks;
        Ok(())
    }

    /// Returns where each hunk is in input number `input`. The hunks have to be those of the
    /// inputs, as after each function that returns or refines a comparison.
    pub fn hunk_ranges(&self, alloc: Global, input: usize) -> Result<Vec<Range<usize>>, AllocError>
        requires { side input (map row_of self.now.hunks.items)
            ≡ slice_index_or (bytes_of self.now.inputs.items) input [] }
        ensures { IfOk result
            (λ ranges. ranges.items ≡ hunk_ranges input 0 self.now.hunks.items) }
    {
        let text = part_of(&self.inputs, input);
        ranges_within(alloc, text, &self.hunks, input)
    }

    /// Returns the hunks, in order.
    pub fn hunks(&self) -> DiffHunkIterator<'_, 'a>
        ensures { iter_rest result ≡ self.now.hunks.items }
    {
        self.hunks.iter()
    }
}
