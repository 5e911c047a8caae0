//! Ranges of lines, of words and of bytes between words.
ghost use Rattle.std.specs.Prelude.{◌≡◌, ◌==◌, ℕ, ◌<◌, length, filter, not, IfOk, slice_index};
ghost use Rattle.std.specs.List.{range_with_len};
ghost use Rattle.jj_diff.specs.Tokens.{is_line_end};
ghost use Rattle.jj_diff.specs.Ranges.{ranges_between, word_ranges, starts_with_word};

use super::tokens::{find_line_ends, find_word_ends, is_word_byte};
use std::alloc::{AllocError, Global};
use std::ops::Range;

// Returns the ranges that end at `ends`, without gaps.
#[tactic(auto, using(crate::proofs::TokenRanges::between_steps))]
fn ranges_of_ends(alloc: Global, ends: &[usize]) -> Result<Vec<Range<usize>>, AllocError>
    ensures { IfOk result (λ ranges. ranges.items ≡ ranges_between 0 ends.now) }
{
    let mut ranges = Vec::with_capacity(alloc, ends.len())?;
    let mut start = 0;
    for end in ends {
        ranges.push(start..*end)?;
        start = *end;
    }
    Ok(ranges)
}

/// Returns the range of each line. A line includes its LF, which the last one may lack.
pub fn find_line_ranges(alloc: Global, text: &[u8]) -> Result<Vec<Range<usize>>, AllocError>
    ensures { IfOk result (λ ranges. ranges.items
        ≡ ranges_between 0 (filter (is_line_end text.now) (range_with_len 1 (length text.now)))) }
{
    let ends = find_line_ends(alloc, text)?;
    ranges_of_ends(alloc, &ends)
}

fn starts_with_word(text: &[u8], range: &Range<usize>) -> bool
    ensures { result ≡ starts_with_word text.now range.now }
{
    range.start < text.len() && is_word_byte(text[range.start])
}

/// Returns the range of each word: a longest run of ASCII letters, digits, underscores and bytes of
/// other characters.
#[tactic(auto, using(crate::proofs::TokenRanges::filter_steps))]
pub fn find_word_ranges(alloc: Global, text: &[u8]) -> Result<Vec<Range<usize>>, AllocError>
    ensures { IfOk result (λ ranges. ranges.items
        ≡ filter (starts_with_word text.now) (word_ranges text.now)) }
{
    let ends = find_word_ends(alloc, text)?;
    let all = ranges_of_ends(alloc, &ends)?;
    let mut ranges = Vec::new(alloc);
    for range in &all {
        if starts_with_word(text, range) {
            ranges.push(range.start..range.end)?;
        }
    }
    Ok(ranges)
}

/// Returns the range of each byte that is in no word.
#[tactic(auto, using(crate::proofs::TokenRanges::filter_steps))]
pub fn find_nonword_ranges(alloc: Global, text: &[u8]) -> Result<Vec<Range<usize>>, AllocError>
    ensures { IfOk result (λ ranges. ranges.items
        ≡ filter (λ range. not (starts_with_word text.now range)) (word_ranges text.now)) }
{
    let ends = find_word_ends(alloc, text)?;
    let all = ranges_of_ends(alloc, &ends)?;
    let mut ranges = Vec::new(alloc);
    for range in &all {
        if !starts_with_word(text, range) {
            ranges.push(range.start..range.end)?;
        }
    }
    Ok(ranges)
}
