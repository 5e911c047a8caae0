//! Appends hunks from left to right: what matches waits until it is known how far it reaches.
ghost use Rattle.std.specs.Prelude.{◌≡◌, ◌⊎◌, ℕ, ◌+◌, ◌<◌, ◌≤◌, List, [], length, IfOk, OnOk, slice_index};
ghost use Rattle.std.specs.List.{slice_index_or};
ghost use Rattle.jj_diff.specs.Inputs.{bytes_of, AreRanges, AreParts, IsNonempty};
ghost use Rattle.jj_diff.specs.Hunks.{IsPrefixDiff, EndsIn, AreCuts, HasGap, IsMatch, IsProgress, AreTrimmedBy, IsTrimmedBy, IsTrimmedGap, AreSums, StartsWith, matched_start, matched_end};
ghost use Rattle.jj_diff.specs.Anchors.{HasFewTokens, IsCommonTokenBy};

use super::anchors::find_anchor;
use super::compare::CompareBytes;
use super::gaps::{Gap, trim_gap};
use super::hunks::{DiffHunk, DiffHunkKind, MatchedRegion};
use super::rows::{is_empty, parts, sums};
use super::tokens::Tokenizer;
use std::alloc::{AllocError, Global};

// Hunks up to the offsets `from`, after which the inputs match up to the offsets `at`.
#[derive(Drop)]
pub(super) struct Progress<'a> {
    pub(super) hunks: Vec<DiffHunk<'a>>,
    pub(super) from: Vec<usize>,
    pub(super) at: Vec<usize>,
}

// Appends a hunk that differs.
#[tactic(auto, using(crate::proofs::Rows::prefix_steps, crate::proofs::Progress::push_steps))]
fn push_different<'a, T: Tokenizer, C: CompareBytes>(
    tokenizer: &T,
    hunks: &mut Vec<DiffHunk<'a>>,
    inputs: &[&'a [u8]],
    starts: &[usize],
    ends: &[usize],
    row: Vec<&'a [u8]>,
) -> Result<(), AllocError>
    requires ranges { AreRanges (bytes_of inputs.now) starts.now ends.now }
    requires cuts { AreCuts (T.is_end tokenizer.now) (bytes_of inputs.now) ends.now }
    requires prefix { IsPrefixDiff C.canonical (T.is_end tokenizer.now) (bytes_of inputs.now)
        hunks.old.items starts.now }
    requires all_trimmed { AreTrimmedBy C.canonical (T.is_end tokenizer.now) hunks.old.items }
    requires last { EndsIn DiffHunkKind.Matching hunks.old.items }
    requires row { AreParts (bytes_of inputs.now) starts.now ends.now (bytes_of row.items) }
    requires nonempty { IsNonempty (bytes_of row.items) }
    requires trimmed { IsTrimmedBy C.canonical (T.is_end tokenizer.now) (bytes_of row.items) }
    ensures prefix { OnOk result (IsPrefixDiff C.canonical (T.is_end tokenizer.now)
        (bytes_of inputs.now) hunks.new.items ends.now) }
    ensures trimmed { OnOk result
        (AreTrimmedBy C.canonical (T.is_end tokenizer.now) hunks.new.items) }
    ensures last { OnOk result (EndsIn DiffHunkKind.Different hunks.new.items) }
    ensures start { OnOk result ((n : ℕ) → (at : List ℕ) → n ≤ matched_start hunks.old.items
        → StartsWith n hunks.new.items at) }
{
    hunks.push(DiffHunk {
        kind: DiffHunkKind::Different,
        contents: row,
    })?;
    Ok(())
}

// Appends a matching hunk, unless it is empty in all inputs.
#[tactic(auto, using(crate::proofs::Rows::prefix_steps, crate::proofs::Progress::push_steps))]
pub(super) fn push_matching<'a, T: Tokenizer, C: CompareBytes>(
    alloc: Global,
    tokenizer: &T,
    hunks: &mut Vec<DiffHunk<'a>>,
    inputs: &[&'a [u8]],
    starts: &[usize],
    ends: &[usize],
) -> Result<(), AllocError>
    requires some { 0 < length inputs.now }
    requires prefix { IsPrefixDiff C.canonical (T.is_end tokenizer.now) (bytes_of inputs.now)
        hunks.old.items starts.now }
    requires trimmed { AreTrimmedBy C.canonical (T.is_end tokenizer.now) hunks.old.items }
    requires last { EndsIn DiffHunkKind.Different hunks.old.items }
    requires pending { IsMatch C.canonical (T.is_end tokenizer.now) (bytes_of inputs.now) starts.now
        ends.now }
    ensures prefix { OnOk result (IsPrefixDiff C.canonical (T.is_end tokenizer.now)
        (bytes_of inputs.now) hunks.new.items ends.now) }
    ensures trimmed { OnOk result
        (AreTrimmedBy C.canonical (T.is_end tokenizer.now) hunks.new.items) }
    ensures last { OnOk result
        ((hunks.old.items ≡ []) ⊎ HasGap (bytes_of inputs.now) starts.now ends.now
        → EndsIn DiffHunkKind.Matching hunks.new.items) }
    ensures end { OnOk result
        ((n : ℕ) → slice_index starts.now 0 + n ≤ slice_index ends.now 0
        → n ≤ matched_end hunks.new.items) }
    ensures start { OnOk result ((n : ℕ) → StartsWith n hunks.old.items ends.now
        → n ≤ matched_start hunks.new.items) }
{
    let row = parts(alloc, inputs, starts, ends)?;
    if is_empty(&row) {
        return Ok(());
    }
    hunks.push(DiffHunk {
        kind: DiffHunkKind::Matching,
        contents: row,
    })?;
    Ok(())
}

// Appends what matches after the hunks, and then the gap as a hunk that differs.
#[tactic(auto)]
fn push_gap<'a, T: Tokenizer, C: CompareBytes>(
    alloc: Global,
    tokenizer: &T,
    hunks: &mut Vec<DiffHunk<'a>>,
    inputs: &[&'a [u8]],
    from: &[usize],
    gap: &Gap,
    row: Vec<&'a [u8]>,
) -> Result<(), AllocError>
    requires some { 0 < length inputs.now }
    requires prefix { IsPrefixDiff C.canonical (T.is_end tokenizer.now) (bytes_of inputs.now)
        hunks.old.items from.now }
    requires all_trimmed { AreTrimmedBy C.canonical (T.is_end tokenizer.now) hunks.old.items }
    requires last { EndsIn DiffHunkKind.Different hunks.old.items }
    requires pending { IsMatch C.canonical (T.is_end tokenizer.now) (bytes_of inputs.now) from.now
        gap.now.starts.items }
    requires gap { (hunks.old.items ≡ []) ⊎ HasGap (bytes_of inputs.now) from.now
        gap.now.starts.items }
    requires ranges { AreRanges (bytes_of inputs.now) gap.now.starts.items gap.now.ends.items }
    requires cuts { AreCuts (T.is_end tokenizer.now) (bytes_of inputs.now) gap.now.ends.items }
    requires row { AreParts (bytes_of inputs.now) gap.now.starts.items gap.now.ends.items
        (bytes_of row.items) }
    requires nonempty { IsNonempty (bytes_of row.items) }
    requires trimmed { IsTrimmedBy C.canonical (T.is_end tokenizer.now) (bytes_of row.items) }
    ensures prefix { OnOk result (IsPrefixDiff C.canonical (T.is_end tokenizer.now)
        (bytes_of inputs.now) hunks.new.items gap.now.ends.items) }
    ensures trimmed { OnOk result
        (AreTrimmedBy C.canonical (T.is_end tokenizer.now) hunks.new.items) }
    ensures last { OnOk result (EndsIn DiffHunkKind.Different hunks.new.items) }
    ensures start { OnOk result ((n : ℕ) → (at : List ℕ)
        → StartsWith n hunks.old.items gap.now.starts.items → StartsWith n hunks.new.items at) }
{
    push_matching::<T, C>(alloc, tokenizer, hunks, inputs, from, &gap.starts)?;
    push_different::<T, C>(tokenizer, hunks, inputs, &gap.starts, &gap.ends, row)?;
    Ok(())
}

// Returns where an anchor of the gap's row is in the inputs.
fn anchor_region(
    alloc: Global,
    inputs: &[&[u8]],
    gap: &Gap,
    anchor: &MatchedRegion,
) -> Result<MatchedRegion, AllocError>
    requires gap { length gap.now.starts.items ≡ length inputs.now }
    requires starts { length anchor.now.starts.items ≡ length inputs.now }
    requires ends { length anchor.now.ends.items ≡ length inputs.now }
    requires starts_within { (i : ℕ) → i < length inputs.now
        → slice_index gap.now.starts.items i + slice_index anchor.now.starts.items i
        ≤ length (slice_index_or (bytes_of inputs.now) i []) }
    requires ends_within { (i : ℕ) → i < length inputs.now
        → slice_index gap.now.starts.items i + slice_index anchor.now.ends.items i
        ≤ length (slice_index_or (bytes_of inputs.now) i []) }
    ensures starts { IfOk result (λ region. AreSums (bytes_of inputs.now) gap.now.starts.items
        anchor.now.starts.items region.starts.items) }
    ensures ends { IfOk result (λ region. AreSums (bytes_of inputs.now) gap.now.starts.items
        anchor.now.ends.items region.ends.items) }
{
    let from = gap.starts.as_slice();
    let first = anchor.starts.as_slice();
    let last = anchor.ends.as_slice();
    let starts = sums(alloc, inputs, from, first)?;
    let ends = sums(alloc, inputs, from, last)?;
    Ok(MatchedRegion { starts, ends })
}

impl<'a> Progress<'a> {
    // Moves on to what matches from `starts` to `ends`, over a gap that no anchor splits. The row
    // of the gap becomes a hunk that differs.
    #[tactic(auto)]
    fn pass<T: Tokenizer, C: CompareBytes>(
        &mut self,
        alloc: Global,
        tokenizer: &T,
        inputs: &[&'a [u8]],
        gap: Gap,
        row: Vec<&'a [u8]>,
        starts: &[usize],
        ends: &[usize],
    ) -> Result<(), AllocError>
        requires some { 0 < length inputs.now }
        requires progress { IsProgress C.canonical (T.is_end tokenizer.now) (bytes_of inputs.now)
            self.old.hunks.items self.old.from.items self.old.at.items }
        requires gap { (self.old.hunks.items ≡ []) ⊎ HasGap (bytes_of inputs.now)
            self.old.from.items self.old.at.items }
        requires ranges { AreRanges (bytes_of inputs.now) self.old.at.items starts.now }
        requires next { IsMatch C.canonical (T.is_end tokenizer.now) (bytes_of inputs.now)
            starts.now ends.now }
        requires trimmed { IsTrimmedGap (T.is_end tokenizer.now) (bytes_of inputs.now)
            self.old.at.items starts.now gap.starts.items gap.ends.items }
        requires row { AreParts (bytes_of inputs.now) gap.starts.items gap.ends.items
            (bytes_of row.items) }
        requires once { HasFewTokens (T.is_end tokenizer.now) (bytes_of row.items)
            → (token : List ℕ)
            → ¬ (IsCommonTokenBy C.canonical (T.is_end tokenizer.now) (bytes_of row.items) token) }
        ensures progress { OnOk result (IsProgress C.canonical (T.is_end tokenizer.now)
            (bytes_of inputs.now) self.new.hunks.items self.new.from.items self.new.at.items) }
        ensures at { OnOk result (self.new.at.items ≡ ends.now) }
        ensures from { OnOk result
            (AreRanges (bytes_of inputs.now) self.new.from.items starts.now) }
        ensures start { OnOk result ((n : ℕ)
            → StartsWith n self.old.hunks.items self.old.at.items
            → StartsWith n self.new.hunks.items self.new.at.items) }
    {
        let next = Vec::from_slice(alloc, ends)?;
        if is_empty(&row) {
            self.at = next;
            return Ok(());
        }
        push_gap::<T, C>(
            alloc,
            tokenizer,
            &mut self.hunks,
            inputs,
            &self.from,
            &gap,
            row,
        )?;
        self.from = gap.ends;
        self.at = next;
        Ok(())
    }

    // Moves on to what matches from `starts` to `ends`. What is before it, without the tokens that
    // all inputs start or end with there, is split at its anchors, and the rest of it becomes hunks
    // that differ.
    #[tactic(auto)]
    pub(super) fn advance<T: Tokenizer, C: CompareBytes>(
        &mut self,
        alloc: Global,
        tokenizer: &T,
        compare: &C,
        inputs: &[&'a [u8]],
        starts: &[usize],
        ends: &[usize],
    ) -> Result<(), AllocError>
        requires some { 0 < length inputs.now }
        requires progress { IsProgress C.canonical (T.is_end tokenizer.now) (bytes_of inputs.now)
            self.old.hunks.items self.old.from.items self.old.at.items }
        requires gap { (self.old.hunks.items ≡ []) ⊎ HasGap (bytes_of inputs.now)
            self.old.from.items self.old.at.items }
        requires ranges { AreRanges (bytes_of inputs.now) self.old.at.items starts.now }
        requires cuts { AreCuts (T.is_end tokenizer.now) (bytes_of inputs.now) starts.now }
        requires next { IsMatch C.canonical (T.is_end tokenizer.now) (bytes_of inputs.now)
            starts.now ends.now }
        ensures progress { OnOk result (IsProgress C.canonical (T.is_end tokenizer.now)
            (bytes_of inputs.now) self.new.hunks.items self.new.from.items self.new.at.items) }
        ensures at { OnOk result (self.new.at.items ≡ ends.now) }
        ensures from { OnOk result
            (AreRanges (bytes_of inputs.now) self.new.from.items starts.now) }
        ensures start { OnOk result ((n : ℕ)
            → StartsWith n self.old.hunks.items self.old.at.items
            → StartsWith n self.new.hunks.items self.new.at.items) }
    {
        let gap = trim_gap(alloc, tokenizer, inputs, &self.at, starts)?;
        let row = parts(alloc, inputs, &gap.starts, &gap.ends)?;
        let found = find_anchor(alloc, tokenizer, compare, &row)?;
        match found {
            Some(anchor) => {
                let region = anchor_region(alloc, inputs, &gap, &anchor)?;
                let first = region.starts.as_slice();
                let last = region.ends.as_slice();
                self.advance(alloc, tokenizer, compare, inputs, first, last)?;
                self.advance(alloc, tokenizer, compare, inputs, starts, ends)
            }
            None => self.pass::<T, C>(alloc, tokenizer, inputs, gap, row, starts, ends),
        }
    }
}
