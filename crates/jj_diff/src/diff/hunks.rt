//! Hunks of N inputs: the common start, regions that a search found, and the common end. Each
//! region is checked, so that the contracts do not depend on the search.
ghost use Rattle.std.specs.Prelude.{◌≡◌, ◌⊎◌, ℕ, ◌+◌, ◌<◌, ◌≤◌, List, [], length, IfOk, OnOk, IsTrue, slice_index};
ghost use Rattle.jj_diff.specs.Inputs.{bytes_of, AreEqual, AreEqualBy, AreRanges, IsNonempty};
ghost use Rattle.jj_diff.specs.Tokens.{IsTokenizer, TokenEnds};
ghost use Rattle.jj_diff.specs.Ends.{IsCommonStart, IsCommonEnd};
ghost use Rattle.jj_diff.specs.Hunks.{IsDiff, IsDiffBy, MatchesEnds, AllMatch, AreTrimmed, AreTrimmedBy, AreStarts, AreLimits, AreCuts, IsMatch, IsProgress, IsRegion, HasGap, StartsWith, matched_start, matched_end};

use super::common::{common_end, common_start};
use super::compare::{CompareBytes, CompareBytesExactly};
use super::progress::{Progress, push_matching};
use super::rows::{are_cuts, are_equal, are_ranges, is_empty, limits, parts};
use super::search::at;
use super::tokens::Tokenizer;
use std::alloc::{AllocError, Global};

/// Whether a hunk has equal contents in all inputs.
#[derive(Copy, Clone, Debug, PartialEq, Eq, Drop)]
pub enum DiffHunkKind {
    Matching,
    Different,
}

/// A part of each input, in order.
#[derive(Drop)]
pub struct DiffHunk<'a> {
    pub kind: DiffHunkKind,
    pub contents: Vec<&'a [u8]>,
}

impl<'a> DiffHunk<'a> {
    /// Returns a hunk that matches. The caller says that the contents are equal.
    pub fn matching(contents: Vec<&'a [u8]>) -> DiffHunk<'a>
        ensures kind { result.kind ≡ DiffHunkKind.Matching }
        ensures contents { result.contents.items ≡ contents.entry.items }
    {
        DiffHunk {
            kind: DiffHunkKind::Matching,
            contents,
        }
    }

    /// Returns a hunk that differs.
    pub fn different(contents: Vec<&'a [u8]>) -> DiffHunk<'a>
        ensures kind { result.kind ≡ DiffHunkKind.Different }
        ensures contents { result.contents.items ≡ contents.entry.items }
    {
        DiffHunk {
            kind: DiffHunkKind::Different,
            contents,
        }
    }
}

/// A region that a search found to be equal in all inputs: where it starts and ends in each.
#[derive(Drop)]
pub struct MatchedRegion {
    pub starts: Vec<usize>,
    pub ends: Vec<usize>,
}

// Whether the region from `starts` to `ends` matches, is not empty, and is between `at` and
// `limits`.
#[tactic(auto, using(crate::proofs::Progress::region_steps))]
fn is_region<T: Tokenizer, C: CompareBytes>(
    alloc: Global,
    tokenizer: &T,
    compare: &C,
    inputs: &[&[u8]],
    at: &[usize],
    starts: &[usize],
    ends: &[usize],
    limits: &[usize],
) -> Result<bool, AllocError>
    ensures { IfOk result (λ fits. IsTrue fits → IsRegion C.canonical (T.is_end tokenizer.now)
        (bytes_of inputs.now) at.now starts.now ends.now limits.now) }
{
    if !are_ranges(inputs, at, starts)
        || !are_ranges(inputs, starts, ends)
        || !are_ranges(inputs, ends, limits)
    {
        return Ok(false);
    }
    if !are_cuts(tokenizer, inputs, starts) || !are_cuts(tokenizer, inputs, ends) {
        return Ok(false);
    }
    let row = parts(alloc, inputs, starts, ends)?;
    if is_empty(&row) || !are_equal(compare, &row) {
        return Ok(false);
    }
    Ok(true)
}

// Returns by how much a number exceeds its counterpart at most.
fn largest_excess(numbers: &[usize], others: &[usize]) -> usize {
    let mut excess: usize = 0;
    for index in 0..numbers.len() {
        excess = excess.max(numbers[index].saturating_sub(at(others, index)));
    }
    excess
}

// Returns what is left of the region between `starts` and `limits`. It is cut by as many bytes in
// each input, so that equal parts stay equal.
fn clip(
    alloc: Global,
    region: &MatchedRegion,
    starts: &[usize],
    limits: &[usize],
) -> Result<MatchedRegion, AllocError> {
    let before = largest_excess(starts, &region.starts);
    let after = largest_excess(&region.ends, limits);
    let mut clipped = MatchedRegion {
        starts: Vec::with_capacity(alloc, starts.len())?,
        ends: Vec::with_capacity(alloc, limits.len())?,
    };
    for start in &region.starts {
        clipped.starts.push(start.saturating_add(before))?;
    }
    for end in &region.ends {
        clipped.ends.push(end.saturating_sub(after))?;
    }
    Ok(clipped)
}

// Moves on to what is left of the region after what matches before it and before `limits`, unless
// that is empty or not equal in all inputs.
fn push_region<'a, T: Tokenizer, C: CompareBytes>(
    alloc: Global,
    tokenizer: &T,
    compare: &C,
    inputs: &[&'a [u8]],
    progress: &mut Progress<'a>,
    region: &MatchedRegion,
    limits: &[usize],
) -> Result<(), AllocError>
    requires some { 0 < length inputs.now }
    requires progress { IsProgress C.canonical (T.is_end tokenizer.now) (bytes_of inputs.now)
        progress.old.hunks.items progress.old.from.items progress.old.at.items }
    requires gap { (progress.old.hunks.items ≡ []) ⊎ HasGap (bytes_of inputs.now)
        progress.old.from.items progress.old.at.items }
    requires ranges { AreRanges (bytes_of inputs.now) progress.old.at.items limits.now }
    ensures progress { OnOk result (IsProgress C.canonical (T.is_end tokenizer.now)
        (bytes_of inputs.now) progress.new.hunks.items progress.new.from.items
        progress.new.at.items) }
    ensures gap { OnOk result ((progress.new.hunks.items ≡ []) ⊎ HasGap (bytes_of inputs.now)
        progress.new.from.items progress.new.at.items) }
    ensures ranges { OnOk result
        (AreRanges (bytes_of inputs.now) progress.new.at.items limits.now) }
    ensures start { OnOk result ((n : ℕ)
        → StartsWith n progress.old.hunks.items progress.old.at.items
        → StartsWith n progress.new.hunks.items progress.new.at.items) }
{
    let clipped = clip(alloc, region, progress.at.as_slice(), limits)?;
    let starts = clipped.starts.as_slice();
    let ends = clipped.ends.as_slice();
    let fits = is_region(
        alloc,
        tokenizer,
        compare,
        inputs,
        &progress.at,
        starts,
        ends,
        limits,
    )?;
    if !fits {
        return Ok(());
    }
    progress.advance(alloc, tokenizer, compare, inputs, starts, ends)?;
    Ok(())
}

// Moves on to the regions, in order, and then to the last `len` bytes.
fn push_regions<'a, T: Tokenizer, C: CompareBytes>(
    alloc: Global,
    tokenizer: &T,
    compare: &C,
    inputs: &[&'a [u8]],
    progress: &mut Progress<'a>,
    regions: &[MatchedRegion],
    len: usize,
) -> Result<(), AllocError>
    requires common { IsCommonEnd (T.is_end tokenizer.now) (bytes_of inputs.now) 0 len }
    requires progress { IsProgress C.canonical (T.is_end tokenizer.now) (bytes_of inputs.now)
        progress.old.hunks.items progress.old.from.items progress.old.at.items }
    requires gap { (progress.old.hunks.items ≡ []) ⊎ HasGap (bytes_of inputs.now)
        progress.old.from.items progress.old.at.items }
    requires ranges { (limits : List ℕ) → AreLimits (bytes_of inputs.now) len limits
        → AreRanges (bytes_of inputs.now) progress.old.at.items limits }
    ensures progress { OnOk result (IsProgress C.canonical (T.is_end tokenizer.now)
        (bytes_of inputs.now) progress.new.hunks.items progress.new.from.items
        progress.new.at.items) }
    ensures at { OnOk result (AreLimits (bytes_of inputs.now) 0 progress.new.at.items) }
    ensures from { OnOk result (slice_index progress.new.from.items 0 + len
        ≤ slice_index progress.new.at.items 0) }
    ensures start { OnOk result ((n : ℕ)
        → StartsWith n progress.old.hunks.items progress.old.at.items
        → StartsWith n progress.new.hunks.items progress.new.at.items) }
{
    let last_starts = limits(alloc, inputs, len)?;
    let last_ends = limits(alloc, inputs, 0)?;
    let starts = last_starts.as_slice();
    let ends = last_ends.as_slice();
    for region in regions {
        push_region(alloc, tokenizer, compare, inputs, progress, region, starts)?;
    }
    progress.advance(alloc, tokenizer, compare, inputs, starts, ends)?;
    Ok(())
}

// Returns what has been found once it is known that the first `len` bytes match.
#[tactic(auto, using(crate::proofs::HunkEnds::start_steps))]
fn progress_from<'a, T: Tokenizer>(
    alloc: Global,
    tokenizer: &T,
    inputs: &[&'a [u8]],
    len: usize,
) -> Result<Progress<'a>, AllocError>
    requires { IsCommonStart (T.is_end tokenizer.now) (bytes_of inputs.now) len }
    ensures hunks { IfOk result (λ progress. progress.hunks.items ≡ []) }
    ensures from { IfOk result
        (λ progress. AreStarts (bytes_of inputs.now) 0 progress.from.items) }
    ensures at { IfOk result
        (λ progress. AreStarts (bytes_of inputs.now) len progress.at.items) }
{
    let hunks = Vec::new(alloc);
    let from = vec![in alloc; 0; inputs.len()]?;
    let at = vec![in alloc; len; inputs.len()]?;
    Ok(Progress { hunks, from, at })
}

// Returns the hunks of equal inputs.
#[tactic(auto, using(crate::proofs::Rows::whole_steps, crate::proofs::HunkEnds::equal_steps))]
fn equal_hunks<'a, T: Tokenizer, C: CompareBytes>(
    alloc: Global,
    tokenizer: &T,
    inputs: &[&'a [u8]],
) -> Result<Vec<DiffHunk<'a>>, AllocError>
    requires { AreEqualBy C.canonical (bytes_of inputs.now) }
    ensures diff { IfOk result
        (λ hunks. IsDiffBy C.canonical (T.is_end tokenizer.now) (bytes_of inputs.now) hunks.items) }
    ensures ends { IfOk result
        (λ hunks. MatchesEnds (T.is_end tokenizer.now) (bytes_of inputs.now) hunks.items) }
    ensures matching { IfOk result (λ hunks. AllMatch hunks.items) }
{
    if is_empty(inputs) {
        return Ok(Vec::new(alloc));
    }
    let row = Vec::from_slice(alloc, inputs)?;
    let mut hunks = Vec::new(alloc);
    hunks.push(DiffHunk {
        kind: DiffHunkKind::Matching,
        contents: row,
    })?;
    Ok(hunks)
}

// Returns the hunks of unequal inputs.
#[tactic(auto, using(crate::proofs::HunkEnds::whole_steps))]
fn region_hunks<'a, T: Tokenizer, C: CompareBytes>(
    alloc: Global,
    tokenizer: &T,
    compare: &C,
    inputs: &[&'a [u8]],
    regions: &[MatchedRegion],
) -> Result<Vec<DiffHunk<'a>>, AllocError>
    requires { 0 < length inputs.now }
    ensures diff { IfOk result
        (λ hunks. IsDiffBy C.canonical (T.is_end tokenizer.now) (bytes_of inputs.now) hunks.items) }
    ensures ends { IfOk result
        (λ hunks. MatchesEnds (T.is_end tokenizer.now) (bytes_of inputs.now) hunks.items) }
    ensures trimmed { IfOk result
        (λ hunks. AreTrimmedBy C.canonical (T.is_end tokenizer.now) hunks.items) }
{
    let start = common_start(tokenizer, inputs);
    let end = common_end(tokenizer, inputs, start);
    let mut progress = progress_from(alloc, tokenizer, inputs, start)?;
    push_regions(
        alloc,
        tokenizer,
        compare,
        inputs,
        &mut progress,
        regions,
        end,
    )?;
    let mut hunks = progress.hunks;
    push_matching::<T, C>(
        alloc,
        tokenizer,
        &mut hunks,
        inputs,
        &progress.from,
        &progress.at,
    )?;
    Ok(hunks)
}

// Returns the hunks of unequal inputs. Tokens at the end match as the regions say.
#[tactic(auto, using(crate::proofs::HunkEnds::whole_steps))]
fn started_hunks<'a, T: Tokenizer, C: CompareBytes>(
    alloc: Global,
    tokenizer: &T,
    compare: &C,
    inputs: &[&'a [u8]],
    regions: &[MatchedRegion],
) -> Result<Vec<DiffHunk<'a>>, AllocError>
    requires { 0 < length inputs.now }
    ensures diff { IfOk result
        (λ hunks. IsDiffBy C.canonical (T.is_end tokenizer.now) (bytes_of inputs.now) hunks.items) }
    ensures start { IfOk result (λ hunks. (n : ℕ)
        → IsCommonStart (T.is_end tokenizer.now) (bytes_of inputs.now) n
        → n ≤ matched_start hunks.items) }
    ensures trimmed { IfOk result
        (λ hunks. AreTrimmedBy C.canonical (T.is_end tokenizer.now) hunks.items) }
{
    let start = common_start(tokenizer, inputs);
    let mut progress = progress_from(alloc, tokenizer, inputs, start)?;
    push_regions(alloc, tokenizer, compare, inputs, &mut progress, regions, 0)?;
    let mut hunks = progress.hunks;
    push_matching::<T, C>(
        alloc,
        tokenizer,
        &mut hunks,
        inputs,
        &progress.from,
        &progress.at,
    )?;
    Ok(hunks)
}

/// Returns the hunks of the inputs whose matching ones are the tokens that all inputs start with,
/// the regions, in order, and the tokens that all inputs end with, each as far as the tokens before
/// and after it are equal in all inputs. Of a region that overlaps what matches before it or the
/// last one only the rest counts. Ignores a region that is empty, is not equal in all inputs or
/// cuts a token. Inputs that are equal under the comparison are one matching hunk, or none if they
/// are empty.
#[tactic(auto, using(crate::proofs::HunkEnds::compared_steps))]
pub fn compared_hunks<'a, T: Tokenizer, C: CompareBytes>(
    alloc: Global,
    tokenizer: &T,
    compare: &C,
    inputs: &[&'a [u8]],
    regions: &[MatchedRegion],
) -> Result<Vec<DiffHunk<'a>>, AllocError>
    ensures diff { IfOk result
        (λ hunks. IsDiffBy C.canonical (T.is_end tokenizer.now) (bytes_of inputs.now) hunks.items) }
    ensures ends { IfOk result
        (λ hunks. MatchesEnds (T.is_end tokenizer.now) (bytes_of inputs.now) hunks.items) }
    ensures trimmed { IfOk result
        (λ hunks. AreTrimmedBy C.canonical (T.is_end tokenizer.now) hunks.items) }
    ensures identity { IfOk result
        (λ hunks. AreEqualBy C.canonical (bytes_of inputs.now) → AllMatch hunks.items) }
{
    if are_equal(compare, inputs) {
        let hunks = equal_hunks::<T, C>(alloc, tokenizer, inputs)?;
        return Ok(hunks);
    }
    let hunks = region_hunks(alloc, tokenizer, compare, inputs, regions)?;
    Ok(hunks)
}

// Returns the inputs as one hunk.
fn whole_hunk<'a>(
    alloc: Global,
    kind: DiffHunkKind,
    inputs: &[&'a [u8]],
) -> Result<Vec<DiffHunk<'a>>, AllocError>
    requires nonempty { IsNonempty (bytes_of inputs.now) }
    requires equal { kind ≡ DiffHunkKind.Matching → AreEqual (bytes_of inputs.now) }
    ensures diff { IfOk result (λ hunks. (is_end : TokenEnds) → IsTokenizer is_end
        → IsDiff is_end (bytes_of inputs.now) hunks.items) }
    ensures single { IfOk result (λ hunks. length hunks.items ≡ 1) }
    ensures kind { IfOk result (λ hunks. kind ≡ DiffHunkKind.Matching → AllMatch hunks.items) }
{
    let row = Vec::from_slice(alloc, inputs)?;
    let mut hunks = Vec::new(alloc);
    hunks.push(DiffHunk {
        kind,
        contents: row,
    })?;
    Ok(hunks)
}

/// Returns the inputs as one hunk, which matches if they are equal, or none if they are empty.
#[tactic(auto, using(crate::proofs::Rows::whole_steps))]
pub fn single_hunk<'a>(alloc: Global, inputs: &[&'a [u8]]) -> Result<Vec<DiffHunk<'a>>, AllocError>
    ensures diff { IfOk result (λ hunks. (is_end : TokenEnds) → IsTokenizer is_end
        → IsDiff is_end (bytes_of inputs.now) hunks.items) }
    ensures single { IfOk result (λ hunks. length hunks.items ≤ 1) }
    ensures identity { IfOk result
        (λ hunks. AreEqual (bytes_of inputs.now) → AllMatch hunks.items) }
{
    if is_empty(inputs) {
        return Ok(Vec::new(alloc));
    }
    if are_equal(&CompareBytesExactly, inputs) {
        let hunks = whole_hunk(alloc, DiffHunkKind::Matching, inputs)?;
        return Ok(hunks);
    }
    let hunks = whole_hunk(alloc, DiffHunkKind::Different, inputs)?;
    Ok(hunks)
}

/// Returns the hunks of the inputs under `CompareBytesExactly`. See `compared_hunks`.
pub fn hunks_of_regions<'a, T: Tokenizer>(
    alloc: Global,
    tokenizer: &T,
    inputs: &[&'a [u8]],
    regions: &[MatchedRegion],
) -> Result<Vec<DiffHunk<'a>>, AllocError>
    ensures diff { IfOk result
        (λ hunks. IsDiff (T.is_end tokenizer.now) (bytes_of inputs.now) hunks.items) }
    ensures ends { IfOk result
        (λ hunks. MatchesEnds (T.is_end tokenizer.now) (bytes_of inputs.now) hunks.items) }
    ensures trimmed { IfOk result (λ hunks. AreTrimmed (T.is_end tokenizer.now) hunks.items) }
    ensures identity { IfOk result
        (λ hunks. AreEqual (bytes_of inputs.now) → AllMatch hunks.items) }
{
    compared_hunks(alloc, tokenizer, &CompareBytesExactly, inputs, regions)
}

/// Returns the hunks of the inputs as `hunks_of_regions` does, but equal tokens at the end match as
/// the regions say. So an inserted token follows its equals, as in Git.
#[tactic(auto, using(crate::proofs::HunkEnds::compared_steps))]
pub fn hunks_from_start<'a, T: Tokenizer>(
    alloc: Global,
    tokenizer: &T,
    inputs: &[&'a [u8]],
    regions: &[MatchedRegion],
) -> Result<Vec<DiffHunk<'a>>, AllocError>
    // The hunks' parts of an input join to it, kinds alternate, matching parts are equal, no hunk
    // is empty in all inputs, and none starts or ends within a token.
    ensures diff { IfOk result
        (λ hunks. IsDiff (T.is_end tokenizer.now) (bytes_of inputs.now) hunks.items) }
    // The tokens that all inputs start with match.
    ensures start { IfOk result (λ hunks. (n : ℕ)
        → IsCommonStart (T.is_end tokenizer.now) (bytes_of inputs.now) n
        → n ≤ matched_start hunks.items) }
    // No hunk that differs starts or ends with a token that is equal in all inputs; one of at most
    // 64 tokens an input has no token that occurs once in each part.
    ensures trimmed { IfOk result (λ hunks. AreTrimmed (T.is_end tokenizer.now) hunks.items) }
    // Equal inputs have no hunk that differs.
    ensures identity { IfOk result
        (λ hunks. AreEqual (bytes_of inputs.now) → AllMatch hunks.items) }
{
    if are_equal(&CompareBytesExactly, inputs) {
        let hunks = equal_hunks::<T, CompareBytesExactly>(alloc, tokenizer, inputs)?;
        return Ok(hunks);
    }
    let hunks = started_hunks(alloc, tokenizer, &CompareBytesExactly, inputs, regions)?;
    Ok(hunks)
}
