//! Rows: a part of each input, from one list of offsets to another.
ghost use Rattle.std.specs.Prelude.{◌≡◌, ℕ, ◌+◌, ◌-◌, ◌<◌, ◌≤◌, [], length, IfOk, IsTrue, IsFalse, slice_index};
ghost use Rattle.std.specs.List.{slice_index_or};
ghost use Rattle.jj_diff.specs.Inputs.{bytes_of, AreRanges, AreParts, AreEqualBy, IsNonempty, IsEmpty};
ghost use Rattle.jj_diff.specs.Ends.{IsWithin};
ghost use Rattle.jj_diff.specs.Hunks.{AreCuts, AreLimits, AreMoved, AreMovedBack, AreSums};

use super::compare::CompareBytes;
use super::tokens::{Tokenizer, is_cut};
use std::alloc::{AllocError, Global};

// Returns part number `index` of the row, or an empty one if there is none.
pub(super) fn part_of<'a>(row: &[&'a [u8]], index: usize) -> &'a [u8]
    ensures { result.now ≡ slice_index_or (bytes_of row.now) index [] }
{
    if index < row.len() { row[index] } else { &[] }
}

// Returns the offset at this index, or 0 if there is none.
pub(super) fn offset_at(offsets: &[usize], index: usize) -> usize
    ensures { result ≡ slice_index offsets.now index }
{
    if index < offsets.len() {
        offsets[index]
    } else {
        0
    }
}

// Returns the part of each input from `starts` to `ends`.
pub(super) fn parts<'a>(
    alloc: Global,
    inputs: &[&'a [u8]],
    starts: &[usize],
    ends: &[usize],
) -> Result<Vec<&'a [u8]>, AllocError>
    requires { AreRanges (bytes_of inputs.now) starts.now ends.now }
    ensures { IfOk result
        (λ row. AreParts (bytes_of inputs.now) starts.now ends.now (bytes_of row.items)) }
{
    let mut row = Vec::with_capacity(alloc, inputs.len())?;
    for index in 0..inputs.len() {
        let input = inputs[index];
        row.push(&input[starts[index]..ends[index]])?;
    }
    Ok(row)
}

pub(super) fn are_ranges(inputs: &[&[u8]], starts: &[usize], ends: &[usize]) -> bool
    ensures { IsTrue result → AreRanges (bytes_of inputs.now) starts.now ends.now }
{
    if starts.len() != inputs.len() || ends.len() != inputs.len() {
        return false;
    }
    for index in 0..inputs.len() {
        if starts[index] > ends[index] || ends[index] > inputs[index].len() {
            return false;
        }
    }
    true
}

pub(super) fn are_cuts<T: Tokenizer>(tokenizer: &T, inputs: &[&[u8]], offsets: &[usize]) -> bool
    requires len { length offsets.now ≡ length inputs.now }
    requires within { (i : ℕ) → i < length inputs.now
        → slice_index offsets.now i ≤ length (slice_index_or (bytes_of inputs.now) i []) }
    ensures { IsTrue result → AreCuts (T.is_end tokenizer.now) (bytes_of inputs.now) offsets.now }
{
    for index in 0..inputs.len() {
        if !is_cut(tokenizer, inputs[index], offsets[index]) {
            return false;
        }
    }
    true
}

// Whether the parts of the row are equal under the comparison.
pub(super) fn are_equal<C: CompareBytes>(compare: &C, row: &[&[u8]]) -> bool
    ensures equal { IsTrue result → AreEqualBy C.canonical (bytes_of row.now) }
    ensures different { IsFalse result → ¬ (AreEqualBy C.canonical (bytes_of row.now)) }
{
    for index in 1..row.len() {
        if !compare.eq(row[index], row[0]) {
            return false;
        }
    }
    true
}

pub(super) fn is_empty(row: &[&[u8]]) -> bool
    ensures empty { IsTrue result → IsEmpty (bytes_of row.now) }
    ensures nonempty { IsFalse result → IsNonempty (bytes_of row.now) }
{
    for index in 0..row.len() {
        if !row[index].is_empty() {
            return false;
        }
    }
    true
}

// Returns the offset of the last `len` bytes of each input.
pub(super) fn limits(alloc: Global, inputs: &[&[u8]], len: usize) -> Result<Vec<usize>, AllocError>
    requires { IsWithin (bytes_of inputs.now) len }
    ensures { IfOk result (λ v. AreLimits (bytes_of inputs.now) len v.items) }
{
    let mut result = Vec::with_capacity(alloc, inputs.len())?;
    for index in 0..inputs.len() {
        result.push(inputs[index].len() - len)?;
    }
    Ok(result)
}

// Returns the offset that is `len` bytes after `start`.
pub(super) fn offset_after(input: &[u8], start: usize, len: usize) -> usize
    requires { start + len ≤ length input.now }
    ensures { result ≡ start + len }
{
    start + len
}

// Returns the offsets that are `len` bytes after `starts`.
pub(super) fn moved(
    alloc: Global,
    inputs: &[&[u8]],
    starts: &[usize],
    len: usize,
) -> Result<Vec<usize>, AllocError>
    requires len { length starts.now ≡ length inputs.now }
    requires within { (i : ℕ) → i < length inputs.now
        → slice_index starts.now i + len ≤ length (slice_index_or (bytes_of inputs.now) i []) }
    ensures { IfOk result (λ v. AreMoved (bytes_of inputs.now) starts.now len v.items) }
{
    let mut result = Vec::with_capacity(alloc, inputs.len())?;
    for index in 0..inputs.len() {
        result.push(offset_after(inputs[index], starts[index], len))?;
    }
    Ok(result)
}

// Returns the sums of the offsets and `starts`.
pub(super) fn sums(
    alloc: Global,
    inputs: &[&[u8]],
    starts: &[usize],
    offsets: &[usize],
) -> Result<Vec<usize>, AllocError>
    requires len { length starts.now ≡ length inputs.now }
    requires offsets_len { length offsets.now ≡ length inputs.now }
    requires within { (i : ℕ) → i < length inputs.now → slice_index starts.now i
        + slice_index offsets.now i ≤ length (slice_index_or (bytes_of inputs.now) i []) }
    ensures { IfOk result (λ v. AreSums (bytes_of inputs.now) starts.now offsets.now v.items) }
{
    let mut result = Vec::with_capacity(alloc, inputs.len())?;
    for index in 0..inputs.len() {
        result.push(offset_after(inputs[index], starts[index], offsets[index]))?;
    }
    Ok(result)
}

// Returns the offsets that are `len` bytes before `ends`.
pub(super) fn moved_back(
    alloc: Global,
    inputs: &[&[u8]],
    ends: &[usize],
    len: usize,
) -> Result<Vec<usize>, AllocError>
    requires len { length ends.now ≡ length inputs.now }
    requires within { (i : ℕ) → i < length inputs.now → len ≤ slice_index ends.now i }
    ensures { IfOk result (λ v. AreMovedBack (bytes_of inputs.now) ends.now len v.items) }
{
    let mut result = Vec::with_capacity(alloc, inputs.len())?;
    for index in 0..inputs.len() {
        result.push(ends[index] - len)?;
    }
    Ok(result)
}
