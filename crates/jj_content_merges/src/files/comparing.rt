//! Rows of a three-way merge: the base is compared with each side, and cut where both match.
ghost use Rattle.std.specs.Prelude.{◌≡◌, ◌≢◌, ◌⊎◌, ◌<◌, ◌≤◌, ◌+◌, ℕ, List, [], ◌∷◌, length, nat_le, slice_index, IfOk, OnOk, IfSome, IfNone, IsTrue, IsFalse};
ghost use Rattle.jj_diff.specs.Inputs.{bytes_of};
ghost use Rattle.jj_diff.specs.Tokens.{is_line_end, IsCut};
ghost use Rattle.jj_merges.specs.declared.merge.SameChange.{SameChange};
ghost use Rattle.jj_content_merges.specs.Comparisons.{AreTight, IsAt, IsBefore, IsBeforeEnds, IsBehind, IsComparison, IsInside, IsMatching, IsSwept, IsTightSplit, hunk_start, matched_offset};
ghost use Rattle.jj_content_merges.specs.Files.{IsSplit};
ghost use Rattle.jj_content_merges.specs.Rows.{rows_of, IsNextRow, IsPrefixSplit};

use super::splitting::Splitter;
use jj_diff::diff::{DiffHunk, DiffHunkKind, Lines, Tokenizer, find_regions, hunks_from_start};
use std::alloc::{AllocError, Global};

// A walk along the hunks that compare the base with a side, at the start of a hunk.
#[derive(Drop)]
struct Comparison<'a> {
    inputs: (&'a [u8], &'a [u8]),
    hunks: Vec<DiffHunk<'a>>,
    index: usize,
    base: usize,
    other: usize,
}

// Returns the offset `len` bytes after `start`.
fn offset_after(text: &[u8], start: usize, len: usize) -> usize
    requires { start + len ≤ length text.now }
    ensures { result ≡ start + len }
{
    start + len
}

impl<'a> Comparison<'a> {
    fn new(alloc: Global, base: &'a [u8], other: &'a [u8]) -> Result<Comparison<'a>, AllocError>
        ensures at { IfOk result (λ walk. IsAt base.now other.now walk.hunks.items walk.index
            walk.base walk.other) }
        ensures base { IfOk result (λ walk. walk.inputs.0.now ≡ base.now) }
        ensures other { IfOk result (λ walk. walk.inputs.1.now ≡ other.now) }
        ensures index { IfOk result (λ walk. walk.index ≡ 0) }
    {
        let inputs = [base, other];
        let mut ends = Vec::with_capacity(alloc, 2)?;
        ends.push(Lines.find_ends(alloc, base)?)?;
        ends.push(Lines.find_ends(alloc, other)?)?;
        let regions = find_regions(alloc, &inputs, &ends, 0)?;
        let hunks = hunks_from_start(alloc, &Lines, &inputs, &regions)?;
        Ok(Comparison {
            inputs: (base, other),
            hunks,
            index: 0,
            base: 0,
            other: 0,
        })
    }

    fn is_done(&self) -> bool
        ensures { result ≡ nat_le (length self.now.hunks.items) self.now.index }
    {
        self.index >= self.hunks.len()
    }

    fn is_matching(&self) -> bool
        requires { self.now.index < length self.now.hunks.items }
        ensures yes { IsTrue result → IsMatching self.now.hunks.items self.now.index }
        ensures no { IsFalse result → ¬ (IsMatching self.now.hunks.items self.now.index) }
    {
        self.hunks[self.index].kind == DiffHunkKind::Matching
    }

    // Returns where the hunk ends in the base.
    fn base_end(&self) -> usize
        requires at { IsAt self.now.inputs.0.now self.now.inputs.1.now self.now.hunks.items
            self.now.index self.now.base self.now.other }
        requires index { self.now.index < length self.now.hunks.items }
        ensures { result ≡ hunk_start 0 self.now.hunks.items (self.now.index + 1) }
    {
        offset_after(
            self.inputs.0,
            self.base,
            self.hunks[self.index].contents[0].len(),
        )
    }

    fn other_end(&self) -> usize
        requires at { IsAt self.now.inputs.0.now self.now.inputs.1.now self.now.hunks.items
            self.now.index self.now.base self.now.other }
        requires index { self.now.index < length self.now.hunks.items }
        ensures { result ≡ hunk_start 1 self.now.hunks.items (self.now.index + 1) }
    {
        offset_after(
            self.inputs.1,
            self.other,
            self.hunks[self.index].contents[1].len(),
        )
    }

    // Returns the offset of the side that matches this offset of the base.
    fn other_at(&self, offset: usize) -> usize
        requires { IsInside self.now.inputs.0.now self.now.inputs.1.now self.now.hunks.items
            self.now.index self.now.base self.now.other offset }
        ensures { result ≡ matched_offset self.now.hunks.items self.now.index offset }
    {
        offset_after(self.inputs.1, self.other, offset - self.base)
    }

    // Moves on to the next hunk.
    fn advance(&mut self)
        requires at { IsAt self.old.inputs.0.now self.old.inputs.1.now self.old.hunks.items
            self.old.index self.old.base self.old.other }
        requires index { self.old.index < length self.old.hunks.items }
        ensures at { IsAt self.old.inputs.0.now self.old.inputs.1.now self.new.hunks.items
            self.new.index self.new.base self.new.other }
        ensures hunks { self.new.hunks.items ≡ self.old.hunks.items }
        ensures inputs { self.new.inputs ≡ self.old.inputs }
        ensures index { self.new.index ≡ self.old.index + 1 }
    {
        let base = self.base_end();
        let other = self.other_end();
        self.base = base;
        self.other = other;
        self.index += 1;
    }
}

// Appends the row that ends at this offset of the base, where both hunks match, unless it is empty.
fn push_to<'a>(
    alloc: Global,
    splitter: &mut Splitter<'a>,
    left: &Comparison<'a>,
    right: &Comparison<'a>,
    offset: usize,
) -> Result<(), AllocError>
    requires base { right.now.inputs.0.now ≡ left.now.inputs.0.now }
    requires left { IsInside left.now.inputs.0.now left.now.inputs.1.now left.now.hunks.items
        left.now.index left.now.base left.now.other offset }
    requires right { IsInside right.now.inputs.0.now right.now.inputs.1.now
        right.now.hunks.items right.now.index right.now.base right.now.other offset }
    requires split { IsPrefixSplit is_line_end
        (left.now.inputs.1.now ∷ left.now.inputs.0.now ∷ right.now.inputs.1.now ∷ [])
        (rows_of splitter.old.rows.items) splitter.old.at.items }
    requires left_behind { IsBehind left.now.hunks.items left.now.index
        (slice_index splitter.old.at.items 0) (slice_index splitter.old.at.items 1) }
    requires right_behind { IsBehind right.now.hunks.items right.now.index
        (slice_index splitter.old.at.items 2) (slice_index splitter.old.at.items 1) }
    requires reached { slice_index splitter.old.at.items 1 ≤ offset }
    requires cut { IsCut is_line_end left.now.inputs.0.now offset }
    ensures split { OnOk result (IsPrefixSplit is_line_end
        (left.now.inputs.1.now ∷ left.now.inputs.0.now ∷ right.now.inputs.1.now ∷ [])
        (rows_of splitter.new.rows.items) splitter.new.at.items) }
    ensures at { OnOk result (splitter.new.at.items
        ≡ matched_offset left.now.hunks.items left.now.index offset ∷ offset
        ∷ matched_offset right.now.hunks.items right.now.index offset ∷ []) }
    ensures rows { OnOk result (IsNextRow
        (left.now.inputs.1.now ∷ left.now.inputs.0.now ∷ right.now.inputs.1.now ∷ [])
        (rows_of splitter.old.rows.items) splitter.old.at.items splitter.new.at.items
        (rows_of splitter.new.rows.items)) }
{
    let inputs = [left.inputs.1, left.inputs.0, right.inputs.1];
    let ends = [left.other_at(offset), offset, right.other_at(offset)];
    splitter.advance(alloc, &Lines, &inputs, &ends)
}

// Returns the range of the base that both hunks have, if they match and it is not empty.
fn overlap(left: &Comparison<'_>, right: &Comparison<'_>) -> Option<(usize, usize)>
    requires left { IsAt left.now.inputs.0.now left.now.inputs.1.now left.now.hunks.items
        left.now.index left.now.base left.now.other }
    requires left_index { left.now.index < length left.now.hunks.items }
    requires right { IsAt right.now.inputs.0.now right.now.inputs.1.now right.now.hunks.items
        right.now.index right.now.base right.now.other }
    requires right_index { right.now.index < length right.now.hunks.items }
    ensures some { IfSome result (λ range. range.0 < range.1) }
    ensures left { IfSome result (λ range. IsMatching left.now.hunks.items left.now.index
        × (left.now.base ≤ range.0)
        × (range.1 ≤ hunk_start 0 left.now.hunks.items (left.now.index + 1))) }
    ensures right { IfSome result (λ range. IsMatching right.now.hunks.items right.now.index
        × (right.now.base ≤ range.0)
        × (range.1 ≤ hunk_start 0 right.now.hunks.items (right.now.index + 1))) }
    ensures start { IfSome result
        (λ range. (range.0 ≡ left.now.base) ⊎ (range.0 ≡ right.now.base)) }
    ensures end { IfSome result (λ range.
        (range.1 ≡ hunk_start 0 left.now.hunks.items (left.now.index + 1))
        ⊎ (range.1 ≡ hunk_start 0 right.now.hunks.items (right.now.index + 1))) }
    ensures none { IfNone result ((k : ℕ) → left.now.base ≤ k → right.now.base ≤ k
        → k < hunk_start 0 left.now.hunks.items (left.now.index + 1)
        → k < hunk_start 0 right.now.hunks.items (right.now.index + 1)
        → IsMatching left.now.hunks.items left.now.index
        → ¬ (IsMatching right.now.hunks.items right.now.index)) }
{
    if !left.is_matching() || !right.is_matching() {
        return None;
    }
    let start = left.base.max(right.base);
    let end = left.base_end().min(right.base_end());
    if start < end {
        return Some((start, end));
    }
    None
}

// Appends what is before the bytes of the base that both hunks have, and these bytes, if there are
// some and both hunks match.
fn push_overlap<'a>(
    alloc: Global,
    splitter: &mut Splitter<'a>,
    left: &Comparison<'a>,
    right: &Comparison<'a>,
) -> Result<(), AllocError>
    requires base { right.now.inputs.0.now ≡ left.now.inputs.0.now }
    requires left { IsAt left.now.inputs.0.now left.now.inputs.1.now left.now.hunks.items
        left.now.index left.now.base left.now.other }
    requires left_index { left.now.index < length left.now.hunks.items }
    requires right { IsAt right.now.inputs.0.now right.now.inputs.1.now right.now.hunks.items
        right.now.index right.now.base right.now.other }
    requires right_index { right.now.index < length right.now.hunks.items }
    requires swept { IsSwept left.now.inputs.1.now left.now.inputs.0.now right.now.inputs.1.now
        left.now.hunks.items right.now.hunks.items left.now.index right.now.index
        (IsBefore left.now.hunks.items right.now.hunks.items left.now.index right.now.index)
        (rows_of splitter.old.rows.items) splitter.old.at.items }
    ensures swept { OnOk result (IsSwept left.now.inputs.1.now left.now.inputs.0.now
        right.now.inputs.1.now left.now.hunks.items right.now.hunks.items left.now.index
        right.now.index
        (IsBeforeEnds left.now.hunks.items right.now.hunks.items left.now.index right.now.index)
        (rows_of splitter.new.rows.items) splitter.new.at.items) }
{
    match overlap(left, right) {
        None => Ok(()),
        Some((start, end)) => {
            push_to(alloc, splitter, left, right, start)?;
            push_to(alloc, splitter, left, right, end)?;
            Ok(())
        }
    }
}

// Appends the overlap of two hunks, and moves on from the one that ends first.
fn step<'a>(
    alloc: Global,
    splitter: &mut Splitter<'a>,
    left: &mut Comparison<'a>,
    right: &mut Comparison<'a>,
) -> Result<(), AllocError>
    requires base { right.old.inputs.0.now ≡ left.old.inputs.0.now }
    requires left { IsAt left.old.inputs.0.now left.old.inputs.1.now left.old.hunks.items
        left.old.index left.old.base left.old.other }
    requires left_index { left.old.index < length left.old.hunks.items }
    requires right { IsAt right.old.inputs.0.now right.old.inputs.1.now right.old.hunks.items
        right.old.index right.old.base right.old.other }
    requires right_index { right.old.index < length right.old.hunks.items }
    requires swept { IsSwept left.old.inputs.1.now left.old.inputs.0.now right.old.inputs.1.now
        left.old.hunks.items right.old.hunks.items left.old.index right.old.index
        (IsBefore left.old.hunks.items right.old.hunks.items left.old.index right.old.index)
        (rows_of splitter.old.rows.items) splitter.old.at.items }
    ensures left { OnOk result (IsAt left.old.inputs.0.now left.old.inputs.1.now
        left.new.hunks.items left.new.index left.new.base left.new.other) }
    ensures right { OnOk result (IsAt right.old.inputs.0.now right.old.inputs.1.now
        right.new.hunks.items right.new.index right.new.base right.new.other) }
    ensures kept { OnOk result ((left.new.hunks.items ≡ left.old.hunks.items)
        × (right.new.hunks.items ≡ right.old.hunks.items)
        × (left.new.inputs ≡ left.old.inputs) × (right.new.inputs ≡ right.old.inputs)) }
    ensures index { OnOk result
        (((left.new.index ≡ left.old.index + 1) × (right.new.index ≡ right.old.index))
        ⊎ ((left.new.index ≡ left.old.index) × (right.new.index ≡ right.old.index + 1))) }
    ensures swept { OnOk result (IsSwept left.old.inputs.1.now left.old.inputs.0.now
        right.old.inputs.1.now left.new.hunks.items right.new.hunks.items left.new.index
        right.new.index
        (IsBefore left.new.hunks.items right.new.hunks.items left.new.index right.new.index)
        (rows_of splitter.new.rows.items) splitter.new.at.items) }
{
    push_overlap(alloc, splitter, left, right)?;
    if left.base_end() <= right.base_end() {
        left.advance();
    } else {
        right.advance();
    }
    Ok(())
}

// Appends what is left once one of the comparisons is at its end.
fn finish<'a>(
    alloc: Global,
    splitter: Splitter<'a>,
    left: &Comparison<'a>,
    right: &Comparison<'a>,
) -> Result<Vec<Vec<&'a [u8]>>, AllocError>
    requires base { right.now.inputs.0.now ≡ left.now.inputs.0.now }
    requires left { IsAt left.now.inputs.0.now left.now.inputs.1.now left.now.hunks.items
        left.now.index left.now.base left.now.other }
    requires right { IsAt right.now.inputs.0.now right.now.inputs.1.now right.now.hunks.items
        right.now.index right.now.base right.now.other }
    requires done { (length left.now.hunks.items ≤ left.now.index)
        ⊎ (length right.now.hunks.items ≤ right.now.index) }
    requires swept { IsSwept left.now.inputs.1.now left.now.inputs.0.now right.now.inputs.1.now
        left.now.hunks.items right.now.hunks.items left.now.index right.now.index
        (IsBefore left.now.hunks.items right.now.hunks.items left.now.index right.now.index)
        (rows_of splitter.rows.items) splitter.at.items }
    ensures split { IfOk result (λ rows. IsSplit is_line_end (left.now.inputs.1.now
        ∷ left.now.inputs.0.now ∷ right.now.inputs.1.now ∷ []) (rows_of rows.items)) }
    ensures tight { IfOk result (λ rows. (same : SameChange)
        → AreTight same left.now.inputs.1.now left.now.inputs.0.now right.now.inputs.1.now
        (rows_of rows.items)) }
{
    let inputs = [left.inputs.1, left.inputs.0, right.inputs.1];
    let ends = [
        left.inputs.1.len(),
        left.inputs.0.len(),
        right.inputs.1.len(),
    ];
    let mut splitter = splitter;
    splitter.advance(alloc, &Lines, &inputs, &ends)?;
    Ok(splitter.rows)
}

/// Returns the rows of a three-way merge, in whole lines. A row resolves, as equal lines do, or it
/// has no line of the base that matches in comparisons with both sides. Linear but for the
/// comparisons.
pub fn split_by_comparisons<'a>(
    alloc: Global,
    left: &'a [u8],
    base: &'a [u8],
    right: &'a [u8],
) -> Result<Vec<Vec<&'a [u8]>>, AllocError>
    ensures split { IfOk result (λ rows. IsSplit is_line_end
        (left.now ∷ base.now ∷ right.now ∷ []) (rows_of rows.items)) }
    ensures tight { IfOk result (λ rows. (same : SameChange)
        → AreTight same left.now base.now right.now (rows_of rows.items)) }
{
    let mut lefts = Comparison::new(alloc, base, left)?;
    let mut rights = Comparison::new(alloc, base, right)?;
    let starts = vec![in alloc; 0; 3]?;
    let mut splitter = Splitter {
        rows: Vec::new(alloc),
        at: starts,
    };
    while !lefts.is_done() && !rights.is_done() {
        step(alloc, &mut splitter, &mut lefts, &mut rights)?;
    }
    let rows = finish(alloc, splitter, &lefts, &rights)?;
    Ok(rows)
}
