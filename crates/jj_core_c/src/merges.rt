//! Merges of byte strings: simplification, and trivial resolution.
ghost use Rattle.std.specs.Prelude.{◌≡◌, ◌<◌, ℕ, List, length, map, true, IfOk, IfNone, IfSome, MatchResult};
ghost use Rattle.std.specs.Cmp;
ghost use Rattle.std.specs.Cmp.Lexicographic.{on_texts_equal};
ghost use Rattle.std.specs.List.{range_with_len};
ghost use Rattle.std.specs.Ordering.{on};
ghost use Rattle.std.specs.Str.{bytes_eq};
ghost use Rattle.jj_merges.specs.Merge.{IsOdd};
ghost use Rattle.jj_merges.specs.Resolution.{ResolvesTo};
ghost use Rattle.jj_merges.specs.Simplify.{at_indices, simplified_indices};
ghost use Rattle.jj_core_c.specs.Buffers.{Fails, Writes};
ghost use Rattle.jj_core_c.specs.MergeResults.{IsMergeOf, IsResolveCause, IsSimplifyCause, ResolvesAt, same_change};
ghost use Rattle.jj_core_c.specs.MergeTerms.{term_eq};
ghost use Rattle.jj_core_c.specs.Pieces.{are_ends, pieces_of};
ghost use Rattle.jj_core_c.specs.Statuses.{Accepts, Returns};

use crate::buffers::write_indices;
use crate::error::{Error, status_of};
use crate::pieces::{are_ends, piece_at};
use jj_merges::merge::{Merge, SameChange, trivial_merge};
use smallvec::SmallVec;
use std::alloc::{AllocError, Global};

// A term of a merge with its index. Terms with the same bytes are equal.
#[derive(Clone, Copy, Default)]
struct Term<'a> {
    bytes: &'a [u8],
    index: usize,
}

impl PartialEq for Term<'_> {
    ghost use Rattle.jj_core_c.specs.MergeTerms.{term_eq};

    ghost eq = { term_eq };

    ghost laws = { Cmp.partial_equiv_from_equiv (on_texts_equal (λ term. term.bytes.now)) };

    fn eq(&self, other: &Self) -> bool {
        self.bytes == other.bytes
    }
}

impl Eq for Term<'_> {
    ghost laws = { on_texts_equal (λ term. term.bytes.now) };
}

fn indexed_terms<'a>(
    alloc: Global,
    bytes: &'a [u8],
    ends: &[usize],
) -> Result<Vec<Term<'a>>, AllocError>
    requires { are_ends (length bytes.now) ends.now ≡ true }
    ensures bytes { IfOk result (λ terms. map (λ term. term.bytes.now) terms.items
        ≡ pieces_of bytes.now ends.now) }
    ensures indices { IfOk result (λ terms. map (λ term. term.index) terms.items
        ≡ range_with_len 0 (length terms.items)) }
    ensures len { IfOk result (λ terms. length terms.items ≡ length ends.now) }
{
    let mut terms = Vec::with_capacity(alloc, ends.len())?;
    for index in 0..ends.len() {
        let bytes = piece_at(bytes, ends, index);
        terms.push(Term { bytes, index })?;
    }
    Ok(terms)
}

fn indices_of(alloc: Global, terms: &[Term<'_>]) -> Result<Vec<usize>, AllocError>
    ensures { IfOk result (λ indices. indices.items ≡ map (λ term. term.index) terms.now) }
{
    terms.iter().map(|term| term.index).collect(alloc)
}

// Returns the indices of the terms that remain.
fn remaining_indices(alloc: Global, bytes: &[u8], ends: &[usize]) -> Result<Vec<usize>, AllocError>
    requires divided { are_ends (length bytes.now) ends.now ≡ true }
    requires odd { IsOdd (length ends.now) }
    ensures { IfOk result (λ kept. kept.items
        ≡ simplified_indices bytes_eq (pieces_of bytes.now ends.now)) }
{
    let terms = indexed_terms(alloc, bytes, ends)?;
    let merge = Merge::from_vec(SmallVec::from_vec(terms));
    let simplified = merge.simplify(alloc)?;
    indices_of(alloc, simplified.as_slice())
}

fn simplify(alloc: Global, bytes: &[u8], ends: &[usize], kept: &mut [usize]) -> Result<usize, Error>
    ensures { MatchResult result
        (Accepts (IsMergeOf bytes.now ends.now) (Writes kept.old kept.new
        (simplified_indices bytes_eq (pieces_of bytes.now ends.now))))
        (Fails kept.old kept.new (IsSimplifyCause bytes.now ends.now (length kept.old))) }
{
    if !are_ends(bytes.len(), ends) {
        return Err(Error::Ends);
    }
    if ends.len() % 2 == 0 {
        return Err(Error::Terms);
    }
    let Ok(indices) = remaining_indices(alloc, bytes, ends) else {
        return Err(Error::Memory);
    };
    if kept.len() < indices.len() {
        return Err(Error::Length);
    }
    Ok(write_indices(kept, &indices))
}

fn resolved_index(terms: &[Term<'_>], same_change: SameChange) -> Option<usize>
    requires odd { IsOdd (length terms.now) }
    requires numbered { map (λ term. term.index) terms.now
        ≡ range_with_len 0 (length terms.now) }
    ensures in_range { IfSome result (λ index. index < length terms.now) }
    ensures resolved { IfSome result (ResolvesAt same_change
        (map (λ term. term.bytes.now) terms.now)) }
    ensures unresolved { IfNone result ((term : List ℕ)
        → ¬ (ResolvesTo bytes_eq same_change (map (λ term. term.bytes.now) terms.now) term)) }
{
    match trivial_merge(terms, same_change) {
        Some(found) => Some(found.index),
        None => None,
    }
}

// Returns the index of the term that the merge resolves to.
fn resolved_piece(
    alloc: Global,
    bytes: &[u8],
    ends: &[usize],
    same_change: SameChange,
) -> Result<Option<usize>, AllocError>
    requires divided { are_ends (length bytes.now) ends.now ≡ true }
    requires odd { IsOdd (length ends.now) }
    ensures in_range { IfOk result (λ found. IfSome found (λ index. index < length ends.now)) }
    ensures resolved { IfOk result (λ found. IfSome found
        (ResolvesAt same_change (pieces_of bytes.now ends.now))) }
    ensures unresolved { IfOk result (λ found. IfNone found ((term : List ℕ)
        → ¬ (ResolvesTo bytes_eq same_change (pieces_of bytes.now ends.now) term))) }
{
    let terms = indexed_terms(alloc, bytes, ends)?;
    Ok(resolved_index(&terms, same_change))
}

pub(crate) fn same_change_of(accept: bool) -> SameChange
    ensures { result ≡ same_change accept }
{
    if accept {
        SameChange::Accept
    } else {
        SameChange::Keep
    }
}

fn resolve(alloc: Global, bytes: &[u8], ends: &[usize], accept: bool) -> Result<usize, Error>
    ensures in_range { IfOk result (λ index. index < length ends.now) }
    ensures outcome { MatchResult result
        (Accepts (IsMergeOf bytes.now ends.now)
        (ResolvesAt (same_change accept) (pieces_of bytes.now ends.now)))
        (IsResolveCause (same_change accept) bytes.now ends.now) }
{
    if !are_ends(bytes.len(), ends) {
        return Err(Error::Ends);
    }
    if ends.len() % 2 == 0 {
        return Err(Error::Terms);
    }
    match resolved_piece(alloc, bytes, ends, same_change_of(accept)) {
        Ok(Some(index)) => Ok(index),
        Ok(None) => Err(Error::Conflict),
        Err(_) => Err(Error::Memory),
    }
}

/// Writes the indices of the terms that remain of a merge once each add is cancelled with an equal
/// remove, in the order of the simplified merge. Returns their number. O(n²) comparisons.
///
/// Errors: `Ends`, `Terms`, `Memory`, `Length`.
#[unsafe(no_mangle)]
pub extern "C" fn jj_merge_simplify(
    alloc: Global,
    bytes: &[u8],
    ends: &[usize],
    kept: &mut [usize],
) -> i64
    ensures { Returns result
        (Accepts (IsMergeOf bytes.now ends.now) (Writes kept.old kept.new
        (simplified_indices bytes_eq (pieces_of bytes.now ends.now))))
        (Fails kept.old kept.new (IsSimplifyCause bytes.now ends.now (length kept.old))) }
{
    status_of(simplify(alloc, bytes, ends, kept))
}

/// Returns the index of a term that a merge resolves to. With `accept`, sides that made the same
/// change resolve to it. At most 2 · n · d comparisons for n terms with d distinct values.
///
/// Errors: `Ends`, `Terms`, `Memory`, `Conflict`.
#[unsafe(no_mangle)]
pub extern "C" fn jj_merge_resolve(alloc: Global, bytes: &[u8], ends: &[usize], accept: bool) -> i64
    ensures { Returns result
        (Accepts (IsMergeOf bytes.now ends.now)
        (ResolvesAt (same_change accept) (pieces_of bytes.now ends.now)))
        (IsResolveCause (same_change accept) bytes.now ends.now) }
{
    status_of(resolve(alloc, bytes, ends, accept))
}
