//! Merges of merges: flattening. Terms are represented by their indices.
ghost use Rattle.std.specs.Prelude.{◌≡◌, ◌≤◌, length, true, IfOk, MatchResult};
ghost use Rattle.std.specs.List.{range_with_len};
ghost use Rattle.jj_merges.specs.Flatten.{flattened_terms};
ghost use Rattle.jj_merges.specs.Merge.{IsOdd};
ghost use Rattle.jj_core_c.specs.Buffers.{Fails, Writes};
ghost use Rattle.jj_core_c.specs.FlattenResults.{AreMerges, IsFlattenCause, IsMergeOfMerges, IsNested, IsTermsCause, indexed_merges, term_count};
ghost use Rattle.jj_core_c.specs.Pieces.{are_ends, pieces_of};
ghost use Rattle.jj_core_c.specs.Statuses.{Accepts, Returns};

use crate::buffers::write_indices;
use crate::error::{Error, status_of};
use crate::pieces::{are_ends, piece_at};
use jj_merges::merge::{Merge, MergeBuilder};
use smallvec::SmallVec;
use std::alloc::{AllocError, Global};

fn term_count(ends: &[usize]) -> usize
    ensures { result ≡ term_count ends.now }
{
    if ends.is_empty() {
        0
    } else {
        ends[ends.len() - 1]
    }
}

fn indices_below(alloc: Global, len: usize) -> Result<Vec<usize>, AllocError>
    ensures { IfOk result (λ indices. indices.items ≡ range_with_len 0 len) }
{
    (0..len).collect(alloc)
}

fn merge_of(alloc: Global, indices: &[usize]) -> Result<Merge<usize>, Error>
    ensures { MatchResult result (λ merge. (merge ≡ indices.now) × IsOdd (length indices.now))
        (IsTermsCause (IsOdd (length indices.now))) }
{
    if indices.len() % 2 == 0 {
        return Err(Error::Terms);
    }
    let indices = SmallVec::from_slice(alloc, indices)?;
    Ok(Merge::from_vec(indices))
}

// Divides indices into merges.
fn merges_of(alloc: Global, indices: &[usize], ends: &[usize]) -> Result<Vec<Merge<usize>>, Error>
    requires { are_ends (length indices.now) ends.now ≡ true }
    ensures { MatchResult result
        (λ merges. (merges.items ≡ pieces_of indices.now ends.now) × AreMerges merges.items)
        (IsTermsCause (AreMerges (pieces_of indices.now ends.now))) }
{
    let mut merges = Vec::new(alloc);
    for index in 0..ends.len() {
        let merge = merge_of(alloc, piece_at(indices, ends, index))?;
        merges.push(merge)?;
    }
    Ok(merges)
}

// Flattens a merge of these merges, of which there is an odd number.
fn flatten_merges(alloc: Global, merges: Vec<Merge<usize>>) -> Result<Merge<usize>, AllocError>
    requires { IsOdd (length merges.items) }
    ensures { IfOk result (λ merge. merge ≡ flattened_terms merges.items) }
{
    let mut builder = MergeBuilder::default(alloc);
    builder.extend(alloc, merges)?;
    builder.build().flatten(alloc)
}

// Returns the indices of the terms in the order of the flattened merge.
fn flattened_indices(alloc: Global, ends: &[usize]) -> Result<Merge<usize>, Error>
    requires { are_ends (term_count ends.now) ends.now ≡ true }
    ensures { MatchResult result (λ merge. (merge ≡ flattened_terms (indexed_merges ends.now))
        × IsNested (indexed_merges ends.now))
        (IsTermsCause (IsNested (indexed_merges ends.now))) }
{
    if ends.len() % 2 == 0 {
        return Err(Error::Terms);
    }
    let indices = indices_below(alloc, term_count(ends))?;
    let merges = merges_of(alloc, &indices, ends)?;
    Ok(flatten_merges(alloc, merges)?)
}

fn flatten(alloc: Global, ends: &[usize], order: &mut [usize]) -> Result<usize, Error>
    ensures { MatchResult result
        (Accepts (IsMergeOfMerges ends.now) (Writes order.old order.new
        (flattened_terms (indexed_merges ends.now))))
        (Fails order.old order.new (IsFlattenCause ends.now (length order.old))) }
{
    let len = term_count(ends);
    if !are_ends(len, ends) {
        return Err(Error::Ends);
    }
    if order.len() < len {
        return Err(Error::Length);
    }
    let merge = flattened_indices(alloc, ends)?;
    Ok(write_indices(order, merge.as_slice()))
}

/// Writes the indices of the terms of a merge of merges in the order of the flattened merge, where
/// `ends` has the index at which the terms of each merge end. Returns their number.
///
/// Errors: `Ends`, `Length`, `Terms`, `Memory`.
#[unsafe(no_mangle)]
pub extern "C" fn jj_merge_flatten(alloc: Global, ends: &[usize], order: &mut [usize]) -> i64
    ensures { Returns result
        (Accepts (IsMergeOfMerges ends.now) (Writes order.old order.new
        (flattened_terms (indexed_merges ends.now))))
        (Fails order.old order.new (IsFlattenCause ends.now (length order.old))) }
{
    status_of(flatten(alloc, ends, order))
}
