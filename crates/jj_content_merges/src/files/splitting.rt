//! Rows of whole tokens: the terms of a merge, cut where regions start and end that a search found
//! to be equal in all of them. Each cut is checked, so that the contracts do not depend on the
//! search.
ghost use Rattle.std.specs.Prelude.{◌≡◌, ℕ, ◌<◌, ◌≤◌, [], length, IfOk, OnOk, IsTrue};
ghost use Rattle.jj_diff.specs.Inputs.{bytes_of, AreRanges, AreParts};
ghost use Rattle.jj_diff.specs.Tokens.{IsCut};
ghost use Rattle.jj_diff.specs.Hunks.{AreCuts, AreLimits};
ghost use Rattle.jj_content_merges.specs.Files.{IsSplit};
ghost use Rattle.jj_content_merges.specs.Rows.{rows_of, IsNextRow, IsPrefixSplit};

use jj_diff::diff::{MatchedRegion, Tokenizer, find_regions};
use std::alloc::{AllocError, Global};

// Rows that end at the offsets `at`.
#[derive(Drop)]
pub(super) struct Splitter<'a> {
    pub(super) rows: Vec<Vec<&'a [u8]>>,
    pub(super) at: Vec<usize>,
}

// Whether no token is only partly in the prefix of this length.
fn is_cut<T: Tokenizer>(tokenizer: &T, input: &[u8], len: usize) -> bool
    requires { len ≤ length input.now }
    ensures { IsTrue result → IsCut (T.is_end tokenizer.now) input.now len }
{
    if len == 0 {
        return true;
    }
    tokenizer.is_end(input, len)
}

// Whether each input has whole tokens from its offset in `starts` to that in `ends`.
#[tactic(auto, using(crate::proofs::Splitting::split_steps))]
fn are_next<T: Tokenizer>(tokenizer: &T, inputs: &[&[u8]], starts: &[usize], ends: &[usize]) -> bool
    ensures ranges { IsTrue result → AreRanges (bytes_of inputs.now) starts.now ends.now }
    ensures cuts { IsTrue result → AreCuts (T.is_end tokenizer.now) (bytes_of inputs.now) ends.now }
{
    if starts.len() != inputs.len() || ends.len() != inputs.len() {
        return false;
    }
    for index in 0..inputs.len() {
        if starts[index] > ends[index] || ends[index] > inputs[index].len() {
            return false;
        }
        if !is_cut(tokenizer, inputs[index], ends[index]) {
            return false;
        }
    }
    true
}

// Returns the part of each input from `starts` to `ends`.
fn row_between<'a>(
    alloc: Global,
    inputs: &[&'a [u8]],
    starts: &[usize],
    ends: &[usize],
) -> Result<Vec<&'a [u8]>, AllocError>
    requires { AreRanges (bytes_of inputs.now) starts.now ends.now }
    ensures { IfOk result
        (λ row. AreParts (bytes_of inputs.now) starts.now ends.now (bytes_of row.items)) }
{
    let mut row = Vec::with_capacity(alloc, inputs.len())?;
    for index in 0..inputs.len() {
        let input = inputs[index];
        row.push(&input[starts[index]..ends[index]])?;
    }
    Ok(row)
}

// Returns the length of each input.
fn lengths(alloc: Global, inputs: &[&[u8]]) -> Result<Vec<usize>, AllocError>
    ensures { IfOk result (λ v. AreLimits (bytes_of inputs.now) 0 v.items) }
{
    let mut result = Vec::with_capacity(alloc, inputs.len())?;
    for index in 0..inputs.len() {
        result.push(inputs[index].len())?;
    }
    Ok(result)
}

impl<'a> Splitter<'a> {
    // Appends the row that ends at `ends`, unless it is empty.
    #[tactic(auto, using(crate::proofs::Splitting::split_steps))]
    pub(super) fn advance<T: Tokenizer>(
        &mut self,
        alloc: Global,
        tokenizer: &T,
        inputs: &[&'a [u8]],
        ends: &[usize],
    ) -> Result<(), AllocError>
        requires split { IsPrefixSplit (T.is_end tokenizer.now) (bytes_of inputs.now)
            (rows_of self.old.rows.items) self.old.at.items }
        requires ranges { AreRanges (bytes_of inputs.now) self.old.at.items ends.now }
        requires cuts { AreCuts (T.is_end tokenizer.now) (bytes_of inputs.now) ends.now }
        ensures split { OnOk result (IsPrefixSplit (T.is_end tokenizer.now) (bytes_of inputs.now)
            (rows_of self.new.rows.items) self.new.at.items) }
        ensures at { OnOk result (self.new.at.items ≡ ends.now) }
        ensures rows { OnOk result (IsNextRow (bytes_of inputs.now) (rows_of self.old.rows.items)
            self.old.at.items ends.now (rows_of self.new.rows.items)) }
    {
        if self.at.as_slice() == ends {
            return Ok(());
        }
        let row = row_between(alloc, inputs, &self.at, ends)?;
        let next = Vec::from_slice(alloc, ends)?;
        self.rows.push(row)?;
        self.at = next;
        Ok(())
    }

    // Appends the row that ends at `ends`, if tokens end there and it is not before the last ones.
    fn push<T: Tokenizer>(
        &mut self,
        alloc: Global,
        tokenizer: &T,
        inputs: &[&'a [u8]],
        ends: &[usize],
    ) -> Result<(), AllocError>
        requires { IsPrefixSplit (T.is_end tokenizer.now) (bytes_of inputs.now)
            (rows_of self.old.rows.items) self.old.at.items }
        ensures { OnOk result (IsPrefixSplit (T.is_end tokenizer.now) (bytes_of inputs.now)
            (rows_of self.new.rows.items) self.new.at.items) }
    {
        if !are_next(tokenizer, inputs, &self.at, ends) {
            return Ok(());
        }
        self.advance(alloc, tokenizer, inputs, ends)
    }
}

// Returns rows that are cut where the regions start and end.
#[tactic(auto, using(crate::proofs::Splitting::split_steps, crate::proofs::Splitting::start_steps))]
fn split_at_regions<'a, T: Tokenizer>(
    alloc: Global,
    tokenizer: &T,
    inputs: &[&'a [u8]],
    regions: &[MatchedRegion],
) -> Result<Vec<Vec<&'a [u8]>>, AllocError>
    ensures { IfOk result
        (λ rows. IsSplit (T.is_end tokenizer.now) (bytes_of inputs.now) (rows_of rows.items)) }
{
    let starts = vec![in alloc; 0; inputs.len()]?;
    let mut splitter = Splitter {
        rows: Vec::new(alloc),
        at: starts,
    };
    for region in regions {
        splitter.push(alloc, tokenizer, inputs, &region.starts)?;
        splitter.push(alloc, tokenizer, inputs, &region.ends)?;
    }
    let ends = lengths(alloc, inputs)?;
    splitter.advance(alloc, tokenizer, inputs, &ends)?;
    Ok(splitter.rows)
}

/// Returns rows of whole tokens. A row has equal tokens of all inputs, each of which matches the
/// same token of input `base`, or what is between such rows.
pub fn split_tokens<'a, T: Tokenizer>(
    alloc: Global,
    tokenizer: &T,
    inputs: &[&'a [u8]],
    base: usize,
) -> Result<Vec<Vec<&'a [u8]>>, AllocError>
    ensures { IfOk result
        (λ rows. IsSplit (T.is_end tokenizer.now) (bytes_of inputs.now) (rows_of rows.items)) }
{
    let mut ends = Vec::with_capacity(alloc, inputs.len())?;
    for index in 0..inputs.len() {
        ends.push(tokenizer.find_ends(alloc, inputs[index])?)?;
    }
    let regions = find_regions(alloc, inputs, &ends, base)?;
    let rows = split_at_regions(alloc, tokenizer, inputs, &regions)?;
    Ok(rows)
}
