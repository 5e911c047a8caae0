//! Callers of `jj_diff` that look up where lines, words and other bytes are.
ghost use Rattle.std.specs.Prelude.{◌≡◌, ℕ, ◌<◌, All, Any, IfOk, filter, length, map, not, slice_index, true};
ghost use Rattle.std.specs.List.{range_with_len};
ghost use Rattle.jj_diff.specs.Tokens.{is_word_byte};
ghost use Rattle.contracts_diffs.specs.Ranges.{Ascends, Covers, HasIndex, IsLineAt, IsWordAt, byte_range};

use jj_diff::diff::{find_line_ranges, find_nonword_ranges, find_word_ranges};
use std::alloc::{AllocError, Global};
use std::ops::Range;

/// Returns where the lines of a file are.
#[tactic(auto, using(crate::proofs::TokenRanges::line_steps))]
pub fn lines_of(alloc: Global, text: &[u8]) -> Result<Vec<Range<usize>>, AllocError>
    // The ranges are the whole file, without gaps.
    ensures whole { IfOk result (λ ranges. Covers 0 (length text.now) ranges.items) }
    // Each one is a line, which ends with LF or with the file.
    ensures lines { IfOk result (λ ranges. All (IsLineAt text.now) ranges.items) }
{
    let ranges = find_line_ranges(alloc, text)?;
    Ok(ranges)
}

/// Returns where the words of a string are.
#[tactic(auto, using(crate::proofs::TokenRanges::word_steps))]
pub fn words_of(alloc: Global, text: &[u8]) -> Result<Vec<Range<usize>>, AllocError>
    // Each range is a longest run of letters, digits, underscores and bytes of other characters.
    ensures words { IfOk result (λ ranges. All (IsWordAt text.now) ranges.items) }
    // The ranges are in order.
    ensures ascending { IfOk result (λ ranges. Ascends 0 ranges.items) }
    // No byte of a word is missing.
    ensures complete { IfOk result (λ ranges. (k : ℕ) → k < length text.now
        → is_word_byte (slice_index text.now k) ≡ true → Any (HasIndex k) ranges.items) }
{
    let ranges = find_word_ranges(alloc, text)?;
    Ok(ranges)
}

/// Returns where the bytes of a string are that are in no word, such as spaces.
#[tactic(auto, using(crate::proofs::TokenRanges::other_steps))]
pub fn separators_of(alloc: Global, text: &[u8]) -> Result<Vec<Range<usize>>, AllocError>
    // Each byte that is in no word has a range of its own, in order.
    ensures { IfOk result (λ ranges. ranges.items ≡ map byte_range
        (filter (λ k. not (is_word_byte (slice_index text.now k)))
        (range_with_len 0 (length text.now)))) }
{
    let ranges = find_nonword_ranges(alloc, text)?;
    Ok(ranges)
}
