//! Cancellation of adds with equal removes, computed over indices: the core of `simplify`.
ghost use Rattle.std.specs.Prelude.{◌≡◌, ℕ, ◌+◌, ◌<◌, length, All, IfOk, swap, remove, position, OnOk};
ghost use Rattle.std.specs.List.{position_or_len, AllZip};
ghost use Rattle.std.specs.Fn.{CalledAt};
ghost use Rattle.jj_merges.specs.Calls.{CallsReturn};
ghost use Rattle.jj_merges.specs.Merge.{IsOdd};
ghost use Rattle.jj_merges.specs.Merge as merge;
ghost use Rattle.jj_merges.specs.Simplify.{equal_at, split_indices, simplified_indices, at_indices};

use super::Merge;
use super::storage::Terms;
use std::alloc::{AllocError, Global};

// Returns the position in `removes` of the first one whose term equals the term at index `add`.
fn find_matching_remove<T: PartialEq>(values: &[T], add: usize, removes: &[usize]) -> Option<usize>
    requires add_in_range { add < length values.now }
    requires removes_in_range { All (λ p. p < length values.now) removes.now }
    ensures { result ≡ position (equal_at T.eq values.now add) removes.now }
{
    for (position, remove) in removes.iter().enumerate() {
        if values[add] == values[*remove] {
            return Some(position);
        }
    }
    None
}

// Drops the add at position `add_at` and the remove at position `remove_at`. The add after that
// remove moves to position `add_at`, so that the remaining diffs stay aligned.
fn cancel_pair(adds: &mut Vec<usize>, removes: &mut Vec<usize>, add_at: usize, remove_at: usize)
    requires add { add_at < length adds.old.items }
    requires next_add { remove_at + 1 < length adds.old.items }
    requires remove { remove_at < length removes.old.items }
    ensures adds { adds.new.items
        ≡ remove (swap adds.old.items add_at (remove_at + 1)) (remove_at + 1) }
    ensures removes { removes.new.items ≡ remove removes.old.items remove_at }
{
    adds.swap(add_at, remove_at + 1);
    adds.remove(remove_at + 1);
    removes.remove(remove_at);
}

// Returns the even and the odd numbers below `len`.
#[tactic(auto, using(crate::proofs::SideAppend::split_indices_steps))]
fn split_indices(alloc: Global, len: usize) -> Result<(Vec<usize>, Vec<usize>), AllocError>
    ensures adds { IfOk result (λ s. s.0.items ≡ (split_indices len).adds) }
    ensures removes { IfOk result (λ s. s.1.items ≡ (split_indices len).removes) }
{
    let mut adds = Vec::with_capacity(alloc, len / 2 + 1)?;
    let mut removes = Vec::with_capacity(alloc, len / 2)?;
    for index in 0..len {
        if index % 2 == 0 {
            adds.push(index)?;
        } else {
            removes.push(index)?;
        }
    }
    Ok((adds, removes))
}

#[tactic(auto, using(crate::proofs::CancelLoop::interleave_steps))]
fn interleave(alloc: Global, adds: &[usize], removes: &[usize]) -> Result<Vec<usize>, AllocError>
    requires { length adds.now ≡ length removes.now + 1 }
    ensures { IfOk result (λ indices. indices.items ≡ merge.interleave adds.now removes.now) }
{
    let mut indices = Vec::with_capacity(alloc, adds.len() + removes.len())?;
    for position in 0..removes.len() {
        indices.push(adds[position])?;
        indices.push(removes[position])?;
    }
    indices.push(adds[removes.len()])?;
    Ok(indices)
}

// Maps indices of the simplified merge to indices of `values`. Each add in turn is cancelled with
// the first equal remove. O(n²) comparisons.
pub(crate) fn simplified_indices<T: PartialEq>(
    alloc: Global,
    values: &[T],
) -> Result<Vec<usize>, AllocError>
    requires { IsOdd (length values.now) }
    ensures { IfOk result (λ indices. indices.items ≡ simplified_indices T.eq values.now) }
{
    let (mut adds, mut removes) = split_indices(alloc, values.len())?;
    let mut add_at = 0;
    while add_at < adds.len() {
        match find_matching_remove(values, adds[add_at], &removes) {
            Some(remove_at) => cancel_pair(&mut adds, &mut removes, add_at, remove_at),
            None => add_at += 1,
        }
    }
    interleave(alloc, &adds, &removes)
}

// Returns a merge of clones of the values at `indices`.
#[tactic(auto, using(crate::proofs::StorageLaws::is_merge_storage))]
pub(crate) fn clone_at_indices<T: Clone>(
    alloc: Global,
    values: &[T],
    indices: &[usize],
) -> Result<Merge<T>, AllocError>
    requires in_range { All (λ p. p < length values.now) indices.now }
    requires odd { IsOdd (length indices.now) }
    ensures { IfOk result (λ m. AllZip T.is_clone (at_indices values.now indices.now) m) }
{
    let mut terms = Terms::with_capacity(alloc, indices.len())?;
    for index in indices {
        terms.push_clone(alloc, &values[*index])?;
    }
    Ok(Merge { terms })
}

// Returns the simplified merge. A single value is cloned inline, without allocating indices.
pub(crate) fn clone_simplified<T: PartialEq + Clone>(
    alloc: Global,
    values: &[T],
) -> Result<Merge<T>, AllocError>
    requires { IsOdd (length values.now) }
    ensures { IfOk result (λ m. AllZip T.is_clone
        (at_indices values.now (simplified_indices T.eq values.now)) m) }
{
    if values.len() == 1 {
        let terms = Terms::from_slice(alloc, values)?;
        return Ok(Merge { terms });
    }
    let indices = simplified_indices(alloc, values)?;
    clone_at_indices(alloc, values, &indices)
}

pub(crate) fn collect_keys<'a, T, U: Drop, F: FnMut(&'a T) -> U>(
    alloc: Global,
    values: &'a [T],
    f: F,
) -> Result<Vec<U>, AllocError>
    requires { F.IsAlwaysCallable f }
    ensures { IfOk result (λ keys. (last : F)
        × CallsReturn (CalledAt F.FnMut) f values.now keys.items last) }
{
    let mut f = f;
    let mut keys = Vec::with_capacity(alloc, values.len())?;
    for value in values {
        keys.push(f(value))?;
    }
    Ok(keys)
}
