//! Anchors: tokens that occur once in each part of a row under a comparison. Rows of many tokens
//! are not searched, since the search compares each token with each other one.
ghost use Rattle.std.specs.Prelude.{◌≡◌, ℕ, ◌+◌, ◌<◌, ◌≤◌, List, [], None, length, IfOk, IfSome, IsTrue, IsFalse};
ghost use Rattle.std.specs.List.{slice_index_or};
ghost use Rattle.jj_diff.specs.Inputs.{bytes_of};
ghost use Rattle.jj_diff.specs.Anchors.{token_offsets, token_at, StandsOnceAmong, StandsOnceInEach, AreOffsets, AreRowOffsets, AreTokenOffsets, AreFew, AreTokenRanges, HasFewTokens, IsAnchor, IsCommonTokenBy, lists_of};

use super::compare::CompareBytes;
use super::hunks::MatchedRegion;
use super::tokens::Tokenizer;
use std::alloc::{AllocError, Global};

// The most tokens that a part of a row has if the row is searched.
const MAX_TOKENS: usize = 64;

// Returns the offsets between tokens: 0 and the end of each.
fn find_offsets<T: Tokenizer>(
    alloc: Global,
    tokenizer: &T,
    text: &[u8],
) -> Result<Vec<usize>, AllocError>
    ensures { IfOk result
        (λ offsets. offsets.items ≡ token_offsets (T.is_end tokenizer.now) text.now) }
{
    let ends = tokenizer.find_ends(alloc, text)?;
    let mut offsets = Vec::new(alloc);
    offsets.push(0)?;
    offsets.extend_from_slice(&ends)?;
    Ok(offsets)
}

// Returns the offsets between the tokens of each part.
#[tactic(auto, using(crate::proofs::Anchors::offset_steps))]
pub(super) fn find_row_offsets<T: Tokenizer>(
    alloc: Global,
    tokenizer: &T,
    row: &[&[u8]],
) -> Result<Vec<Vec<usize>>, AllocError>
    ensures { IfOk result
        (λ v. AreTokenOffsets (T.is_end tokenizer.now) (bytes_of row.now) (lists_of v.items)) }
{
    let mut result = Vec::with_capacity(alloc, row.len())?;
    for index in 0..row.len() {
        let offsets = find_offsets(alloc, tokenizer, row[index])?;
        result.push(offsets)?;
    }
    Ok(result)
}

fn token_at<'a>(text: &'a [u8], offsets: &[usize], index: usize) -> &'a [u8]
    requires offsets { AreOffsets text.now offsets.now }
    requires index { index + 1 < length offsets.now }
    ensures { result.now ≡ token_at text.now offsets.now index }
{
    &text[offsets[index]..offsets[index + 1]]
}

// Returns the index of the first occurrence from index `start` on, or the number of tokens.
fn first_index<C: CompareBytes>(
    compare: &C,
    text: &[u8],
    offsets: &[usize],
    token: &[u8],
    start: usize,
) -> usize
    requires offsets { AreOffsets text.now offsets.now }
    requires start { start < length offsets.now }
    ensures within { result < length offsets.now }
    ensures start { start ≤ result }
    ensures found { result + 1 < length offsets.now
        → C.canonical (token_at text.now offsets.now result) ≡ C.canonical token.now }
    ensures before { (j : ℕ) → start ≤ j → j < result
        → ¬ (C.canonical (token_at text.now offsets.now j) ≡ C.canonical token.now) }
{
    for index in start..offsets.len() - 1 {
        if compare.eq(token_at(text, offsets, index), token) {
            return index;
        }
    }
    offsets.len() - 1
}

#[tactic(auto, using(crate::proofs::Anchors::once_steps))]
fn stands_once<C: CompareBytes>(compare: &C, text: &[u8], offsets: &[usize], token: &[u8]) -> bool
    requires { AreOffsets text.now offsets.now }
    ensures once { IsTrue result
        → StandsOnceAmong C.canonical text.now offsets.now (C.canonical token.now) }
    ensures not_once { IsFalse result
        → ¬ (StandsOnceAmong C.canonical text.now offsets.now (C.canonical token.now)) }
{
    let first = first_index(compare, text, offsets, token, 0);
    if first + 1 == offsets.len() {
        return false;
    }
    let second = first_index(compare, text, offsets, token, first + 1);
    second + 1 == offsets.len()
}

// Whether the token occurs once in each part.
fn stands_once_in_each<C: CompareBytes>(
    compare: &C,
    row: &[&[u8]],
    offsets: &[Vec<usize>],
    token: &[u8],
) -> bool
    requires { AreRowOffsets (bytes_of row.now) (lists_of offsets.now) }
    ensures once { IsTrue result
        → StandsOnceInEach C.canonical (bytes_of row.now) (lists_of offsets.now)
        (C.canonical token.now) }
    ensures not_once { IsFalse result
        → ¬ (StandsOnceInEach C.canonical (bytes_of row.now) (lists_of offsets.now)
        (C.canonical token.now)) }
{
    for index in 0..row.len() {
        if !stands_once(compare, row[index], &offsets[index], token) {
            return false;
        }
    }
    true
}

// Whether no part has more than `MAX_TOKENS` tokens.
#[tactic(auto, using(crate::proofs::Anchors::not_few))]
fn are_few(offsets: &[Vec<usize>]) -> bool
    ensures { IsFalse result → ¬ (AreFew (lists_of offsets.now)) }
{
    for index in 0..offsets.len() {
        if offsets[index].len() > MAX_TOKENS + 1 {
            return false;
        }
    }
    true
}

// Returns the index, in the first part, of the first token that occurs once in each part, or the
// number of tokens.
fn find_token<C: CompareBytes>(
    compare: &C,
    row: &[&[u8]],
    offsets: &[Vec<usize>],
    first: &[u8],
    first_offsets: &[usize],
) -> usize
    requires row { AreRowOffsets (bytes_of row.now) (lists_of offsets.now) }
    requires first { AreOffsets first.now first_offsets.now }
    ensures within { result < length first_offsets.now }
    ensures found { result + 1 < length first_offsets.now
        → StandsOnceInEach C.canonical (bytes_of row.now) (lists_of offsets.now)
        (C.canonical (token_at first.now first_offsets.now result)) }
    ensures none { result + 1 ≡ length first_offsets.now → (k : ℕ)
        → k + 1 < length first_offsets.now
        → ¬ (StandsOnceInEach C.canonical (bytes_of row.now) (lists_of offsets.now)
        (C.canonical (token_at first.now first_offsets.now k))) }
{
    for index in 0..first_offsets.len() - 1 {
        let token = token_at(first, first_offsets, index);
        if stands_once_in_each(compare, row, offsets, token) {
            return index;
        }
    }
    first_offsets.len() - 1
}

// Returns the index of a token that occurs once.
#[tactic(auto, using(crate::proofs::Anchors::once_found))]
fn index_of<C: CompareBytes>(compare: &C, text: &[u8], offsets: &[usize], token: &[u8]) -> usize
    requires offsets { AreOffsets text.now offsets.now }
    requires once { StandsOnceAmong C.canonical text.now offsets.now (C.canonical token.now) }
    ensures within { result + 1 < length offsets.now }
    ensures at { C.canonical (token_at text.now offsets.now result) ≡ C.canonical token.now }
{
    first_index(compare, text, offsets, token, 0)
}

// Returns where the token is in each part.
fn token_ranges<C: CompareBytes>(
    alloc: Global,
    compare: &C,
    row: &[&[u8]],
    offsets: &[Vec<usize>],
    token: &[u8],
) -> Result<MatchedRegion, AllocError>
    requires row { AreRowOffsets (bytes_of row.now) (lists_of offsets.now) }
    requires once { StandsOnceInEach C.canonical (bytes_of row.now) (lists_of offsets.now)
        (C.canonical token.now) }
    ensures { IfOk result (λ region. AreTokenRanges C.canonical (bytes_of row.now)
        (lists_of offsets.now) (C.canonical token.now) region.starts.items region.ends.items) }
{
    let mut starts = Vec::with_capacity(alloc, row.len())?;
    let mut ends = Vec::with_capacity(alloc, row.len())?;
    for index in 0..row.len() {
        let part = offsets[index].as_slice();
        let first = index_of(compare, row[index], part, token);
        starts.push(part[first])?;
        ends.push(part[first + 1])?;
    }
    Ok(MatchedRegion { starts, ends })
}

// Returns the offsets of one part.
#[tactic(auto, using(crate::proofs::Anchors::list_ref))]
fn offsets_of(offsets: &[Vec<usize>], index: usize) -> &[usize]
    requires { index < length offsets.now }
    ensures { result.now ≡ slice_index_or (lists_of offsets.now) index [] }
{
    offsets[index].as_slice()
}

// Returns where a token is that each part has once, if there is one.
fn find_token_ranges<T: Tokenizer, C: CompareBytes>(
    alloc: Global,
    tokenizer: &T,
    compare: &C,
    row: &[&[u8]],
    offsets: &[Vec<usize>],
) -> Result<Option<MatchedRegion>, AllocError>
    requires some { 0 < length row.now }
    requires tokens { AreTokenOffsets (T.is_end tokenizer.now) (bytes_of row.now)
        (lists_of offsets.now) }
    ensures anchor { IfOk result (λ found. IfSome found (λ region. IsAnchor C.canonical
        (T.is_end tokenizer.now) (bytes_of row.now) region.starts.items region.ends.items)) }
    ensures none { IfOk result (λ found. found ≡ None
        → (token : List ℕ)
        → ¬ (IsCommonTokenBy C.canonical (T.is_end tokenizer.now) (bytes_of row.now) token)) }
{
    let first = offsets_of(offsets, 0);
    let index = find_token(compare, row, offsets, row[0], first);
    if index + 1 == first.len() {
        return Ok(None);
    }
    let token = token_at(row[0], first, index);
    let region = token_ranges(alloc, compare, row, offsets, token)?;
    Ok(Some(region))
}

// Returns where a token is that each part of the row has once, if there is one and the parts
// have few tokens.
#[tactic(auto, using(crate::proofs::Anchors::no_few))]
pub(super) fn find_anchor<T: Tokenizer, C: CompareBytes>(
    alloc: Global,
    tokenizer: &T,
    compare: &C,
    row: &[&[u8]],
) -> Result<Option<MatchedRegion>, AllocError>
    requires { 0 < length row.now }
    ensures anchor { IfOk result (λ found. IfSome found (λ region. IsAnchor C.canonical
        (T.is_end tokenizer.now) (bytes_of row.now) region.starts.items region.ends.items)) }
    ensures none { IfOk result (λ found. found ≡ None
        → HasFewTokens (T.is_end tokenizer.now) (bytes_of row.now)
        → (token : List ℕ)
        → ¬ (IsCommonTokenBy C.canonical (T.is_end tokenizer.now) (bytes_of row.now) token)) }
{
    let offsets = find_row_offsets(alloc, tokenizer, row)?;
    if !are_few(&offsets) {
        return Ok(None);
    }
    let found = find_token_ranges(alloc, tokenizer, compare, row, &offsets)?;
    Ok(found)
}
