//! Refinement of a comparison: hunks that differ are compared again by their parts, and adjacent
//! matching hunks are joined.
ghost use Rattle.std.specs.Prelude.{◌≡◌, ℕ, ◌+◌, ◌-◌, ◌<◌, ◌≤◌, ◌∷◌, [], length, map, take, drop, reverse, IfOk, OnOk, slice_index};
ghost use Rattle.std.specs.List.{slice_index_or};
ghost use Rattle.jj_diff.specs.Inputs.{bytes_of};
ghost use Rattle.jj_diff.specs.Refined.{AreAdjacent, AreHunksOf, AreRefinements, IsRefined, IsRefinement, StartAt, append_rows, join_first, joined, view_of};

use super::compare::CompareBytes;
use super::hunks::{DiffHunk, DiffHunkKind, compared_hunks};
use super::regions::find_compared_regions;
use super::rows::{limits, offset_at, part_of};
use super::tokens::Tokenizer;
use std::alloc::{AllocError, Global};

// Compares the parts of a hunk that differs. A hunk that matches stays as it is.
fn refine_hunk<'a, T: Tokenizer, C: CompareBytes>(
    alloc: Global,
    tokenizer: &T,
    compare: &C,
    hunk: &DiffHunk<'a>,
) -> Result<Vec<DiffHunk<'a>>, AllocError>
    ensures { IfOk result
        (λ hunks. IsRefinement C.canonical (T.is_end tokenizer.now) hunk.now hunks.items) }
{
    if hunk.kind == DiffHunkKind::Different {
        let regions = find_compared_regions(alloc, tokenizer, compare, &hunk.contents, 0)?;
        return compared_hunks(alloc, tokenizer, compare, &hunk.contents, &regions);
    }
    let contents = Vec::from_slice(alloc, &hunk.contents)?;
    let mut hunks = Vec::new(alloc);
    hunks.push(DiffHunk {
        kind: DiffHunkKind::Matching,
        contents,
    })?;
    Ok(hunks)
}

// Returns the refinements of the hunks, one after the other.
#[tactic(auto, using(crate::proofs::Joining::part_steps))]
fn hunk_refinements<'a, T: Tokenizer, C: CompareBytes>(
    alloc: Global,
    tokenizer: &T,
    compare: &C,
    hunks: &[DiffHunk<'a>],
) -> Result<Vec<DiffHunk<'a>>, AllocError>
    ensures { IfOk result
        (λ refined. AreRefinements C.canonical (T.is_end tokenizer.now) hunks.now refined.items) }
{
    let mut refined = Vec::new(alloc);
    for hunk in hunks {
        let mut parts = refine_hunk(alloc, tokenizer, compare, hunk)?;
        refined.append(&mut parts)?;
    }
    Ok(refined)
}

// Returns `first` and then `second` bytes of the input from `start` on, if it has so many.
fn part_at(input: &[u8], start: usize, first: usize, second: usize) -> &[u8]
    ensures { start + (first + second) ≤ length input.now
        → result.now ≡ take (first + second) (drop start input.now) }
{
    if start > input.len() {
        return &input[0..0];
    }
    let rest = &input[start..];
    if first > rest.len() || second > rest.len() - first {
        return &input[0..0];
    }
    &rest[..first + second]
}

// Returns the parts of the first row, which are at `starts`, each with that of the second row.
#[tactic(auto, using(crate::proofs::Joining::row_steps))]
fn joined_row<'a>(
    alloc: Global,
    inputs: &[&'a [u8]],
    starts: &[usize],
    first: &[&[u8]],
    second: &[&[u8]],
) -> Result<Vec<&'a [u8]>, AllocError>
    ensures { IfOk result (λ row. AreAdjacent (bytes_of inputs.now) starts.now (bytes_of first.now)
        (bytes_of second.now)
        → bytes_of row.items ≡ append_rows (bytes_of first.now) (bytes_of second.now)) }
{
    let mut row = Vec::with_capacity(alloc, inputs.len())?;
    for index in 0..inputs.len() {
        let first_len = part_of(first, index).len();
        let second_len = part_of(second, index).len();
        let start = offset_at(starts, index);
        row.push(part_at(inputs[index], start, first_len, second_len))?;
    }
    Ok(row)
}

// Appends a hunk to hunks in reverse order.
#[tactic(auto, using(crate::proofs::Joining::push_steps))]
fn push_copy<'a>(
    alloc: Global,
    hunk: &DiffHunk<'a>,
    reversed: &mut Vec<DiffHunk<'a>>,
) -> Result<(), AllocError>
    ensures { OnOk result (map view_of (reverse reversed.new.items)
        ≡ view_of hunk.now ∷ map view_of (reverse reversed.old.items)) }
{
    let contents = Vec::from_slice(alloc, &hunk.contents)?;
    reversed.push(DiffHunk {
        kind: hunk.kind,
        contents,
    })?;
    Ok(())
}

// Appends a hunk to those after it, which are in reverse order, or joins it with the first of them.
#[tactic(auto, using(crate::proofs::Joining::push_steps))]
fn push_joined<'a>(
    alloc: Global,
    inputs: &[&'a [u8]],
    starts: &[usize],
    hunk: &DiffHunk<'a>,
    reversed: &mut Vec<DiffHunk<'a>>,
) -> Result<(), AllocError>
    ensures { OnOk result (StartAt (bytes_of inputs.now) starts.now
        (view_of hunk.now ∷ map view_of (reverse reversed.old.items))
        → map view_of (reverse reversed.new.items)
        ≡ join_first (view_of hunk.now) (map view_of (reverse reversed.old.items))) }
{
    let Some(next) = reversed.pop() else {
        return push_copy(alloc, hunk, reversed);
    };
    if hunk.kind == DiffHunkKind::Matching && next.kind == DiffHunkKind::Matching {
        let contents = joined_row(alloc, inputs, starts, &hunk.contents, &next.contents)?;
        reversed.push(DiffHunk {
            kind: DiffHunkKind::Matching,
            contents,
        })?;
        return Ok(());
    }
    reversed.push(next)?;
    push_copy(alloc, hunk, reversed)
}

// Returns the offsets less the lengths of the parts.
#[tactic(auto, using(crate::proofs::Joining::row_steps))]
fn starts_before(alloc: Global, ends: &[usize], row: &[&[u8]]) -> Result<Vec<usize>, AllocError>
    ensures len { IfOk result (λ starts. length starts.items ≡ length ends.now) }
    ensures starts { IfOk result (λ starts. (i : ℕ) → i < length ends.now
        → slice_index starts.items i
        ≡ slice_index ends.now i - length (slice_index_or (bytes_of row.now) i [])) }
{
    let mut starts = Vec::with_capacity(alloc, ends.len())?;
    for index in 0..ends.len() {
        starts.push(ends[index].saturating_sub(part_of(row, index).len()))?;
    }
    Ok(starts)
}

// Joins adjacent hunks that match.
#[tactic(auto, using(crate::proofs::Joining::loop_steps))]
fn join_hunks<'a>(
    alloc: Global,
    inputs: &[&'a [u8]],
    hunks: &[DiffHunk<'a>],
) -> Result<Vec<DiffHunk<'a>>, AllocError>
    ensures { IfOk result (λ v. AreHunksOf (bytes_of inputs.now) hunks.now
        → map view_of v.items ≡ joined (map view_of hunks.now)) }
{
    let mut starts = limits(alloc, inputs, 0)?;
    let mut reversed = Vec::new(alloc);
    for count in 0..hunks.len() {
        let hunk = &hunks[hunks.len() - 1 - count];
        starts = starts_before(alloc, &starts, &hunk.contents)?;
        push_joined(alloc, inputs, &starts, hunk, &mut reversed)?;
    }
    reversed.reverse();
    Ok(reversed)
}

// Returns the hunks, of which each that differs is replaced by a comparison of its parts. Adjacent
// hunks that match are joined.
pub(super) fn refine_hunks<'a, T: Tokenizer, C: CompareBytes>(
    alloc: Global,
    tokenizer: &T,
    compare: &C,
    inputs: &[&'a [u8]],
    hunks: &[DiffHunk<'a>],
) -> Result<Vec<DiffHunk<'a>>, AllocError>
    ensures { IfOk result (λ refined. AreHunksOf (bytes_of inputs.now) hunks.now
        → IsRefined C.canonical (T.is_end tokenizer.now) hunks.now refined.items) }
{
    let parts = hunk_refinements(alloc, tokenizer, compare, hunks)?;
    let refined = join_hunks(alloc, inputs, &parts)?;
    Ok(refined)
}
