//! Gaps between regions that match, without the tokens that all parts start or end with.
ghost use Rattle.std.specs.Prelude.{ℕ, ◌<◌, List, length, IfOk};
ghost use Rattle.jj_diff.specs.Inputs.{bytes_of, AreRanges};
ghost use Rattle.jj_diff.specs.Hunks.{AreCuts, IsTrimmedGap};

use super::common::{common_end, common_start};
use super::rows::{moved, moved_back, parts};
use super::tokens::Tokenizer;
use std::alloc::{AllocError, Global};

// Where a gap starts and ends in each input.
#[derive(Drop)]
pub(super) struct Gap {
    pub(super) starts: Vec<usize>,
    pub(super) ends: Vec<usize>,
}

// Returns what is between `starts` and `ends` without the tokens that all parts start with, and of
// the rest those that all parts end with.
#[tactic(auto, using(crate::proofs::Gaps::gap_steps))]
pub(super) fn trim_gap<T: Tokenizer>(
    alloc: Global,
    tokenizer: &T,
    inputs: &[&[u8]],
    starts: &[usize],
    ends: &[usize],
) -> Result<Gap, AllocError>
    requires some { 0 < length inputs.now }
    requires ranges { AreRanges (bytes_of inputs.now) starts.now ends.now }
    requires starts { AreCuts (T.is_end tokenizer.now) (bytes_of inputs.now) starts.now }
    requires ends { AreCuts (T.is_end tokenizer.now) (bytes_of inputs.now) ends.now }
    ensures { IfOk result (λ gap. IsTrimmedGap (T.is_end tokenizer.now) (bytes_of inputs.now)
        starts.now ends.now gap.starts.items gap.ends.items) }
{
    let row = parts(alloc, inputs, starts, ends)?;
    let first = common_start(tokenizer, &row);
    let last = common_end(tokenizer, &row, first);
    let gap_starts = moved(alloc, inputs, starts, first)?;
    let gap_ends = moved_back(alloc, inputs, ends, last)?;
    Ok(Gap {
        starts: gap_starts,
        ends: gap_ends,
    })
}
