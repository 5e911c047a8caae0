//! `Merge<T>`, a conflict as an odd list of alternating signed terms: add, remove, add, and so on.
ghost use Rattle.std.specs.Prelude.{map, ◌≡◌, ℕ, ◌+◌, ◌-◌, ◌*◌, ◌/◌, ◌%◌, ◌<◌, ◌≤◌, List, [], ◌∷◌, length, slice_get, IsTrue, ◌↔◌, slice_index_or, MatchResult, MatchOption, IfOk, ◌^◌, codes};
ghost use Rattle.std.specs.Option.{option_copied};
ghost use Rattle.std.specs.Fn.{CalledAt};
ghost use Rattle.std.specs.Slice.Iter.{iter_rest, iter_mut_rest};
ghost use Rattle.std.specs.Borrow.{sem};
ghost use Rattle.jj_merges.specs.Calls.{CallsReturn};
ghost use Rattle.jj_merges.specs.Merge.{IsOdd, adds, removes, HaveSameCounts, IsDisjoint};
ghost use Rattle.std.specs.Cmp.{IsEquivalence};
ghost use Rattle.std.specs.List.{AllZip};
ghost use Rattle.jj_merges.specs.Simplify.{simplified_indices, at_indices};

mod builder;
pub(crate) mod cancellation;
mod changes;
mod contents;
mod diffs;
mod every_second;
mod flatten;
mod into_iter;
mod legacy;
mod options;
mod sides;
mod simplify;
mod standard;
mod storage;
mod termwise;
mod trivial;

pub use builder::MergeBuilder;
pub use diffs::Diff;
pub use every_second::EverySecond;
pub use into_iter::IntoIter;
pub use options::Present;
use smallvec::SmallVec;
use std::alloc::{AllocError, Global};
use std::default::MadeWith;
use std::marker::Model;
use std::slice;
use storage::{Terms, into_single};
pub use trivial::{three_way, trivial_merge};

/// How to resolve a merge whose sides all made the same change: `Keep` leaves it unresolved, and
/// `Accept` resolves it to that change.
#[derive(Copy, Clone, Debug, PartialEq, Eq, Drop)]
pub enum SameChange {
    Keep,
    Accept,
}

impl SameChange {
    /// Parses the configuration values `keep` and `accept`. Returns `None` for any other name.
    pub fn from_name(name: &str) -> Option<Self>
        ensures keep { (result ≡ Some SameChange.Keep) ↔ (name.now ≡ codes "keep") }
        ensures accept { (result ≡ Some SameChange.Accept) ↔ (name.now ≡ codes "accept") }
    {
        match name {
            "keep" => Some(SameChange::Keep),
            "accept" => Some(SameChange::Accept),
            _ => None,
        }
    }
}

/// A merge of n adds and n - 1 removes. With a single term it is resolved; with more it is a
/// conflict, in which each remove is a base of the adds around it: `[left, base, right]` is a
/// three-way merge.
///
/// Contracts see a merge as the list of its terms, so `length m` counts adds and removes. A single
/// term is stored inline, without an allocation.
#[derive(Drop)]
pub struct Merge<T> {
    pub(crate) terms: Terms<T>,
}

impl<T> Model for Merge<T> {
    ghost use Rattle.std.specs.Prelude.{List};
    ghost use Rattle.jj_merges.specs.Terms.{items, IsMergeStorage};

    ghost Value = { List T };

    ghost view = { λ m. items m.terms };

    ghost invariant = { λ m. IsMergeStorage m.terms };
}

impl<T> Merge<T> {
    ghost use Rattle.jj_merges.specs.Lends.{lends_slice, lends_iter};

    /// Creates a resolved merge. Does not allocate.
    pub fn resolved(_alloc: Global, value: T) -> Self
        ensures { result ≡ value ∷ [] }
    {
        Merge {
            terms: Terms::single(value),
        }
    }

    /// Returns the terms: adds at even indices, removes at odd ones.
    pub fn as_slice(&self) -> &[T]
        ensures terms { result.now ≡ self.now }
        ensures odd { IsOdd (length self.now) }
    {
        self.terms.as_slice()
    }

    /// Iterates over the terms in order.
    pub fn iter(&self) -> slice::Iter<'_, T>
        ensures { iter_rest result ≡ self.now }
    {
        self.as_slice().iter()
    }

    fn as_mut_slice(&mut self) -> &mut [T]
        ensures* writes_back { sem 𝓛 (lends_slice T.row self.entry result) }
        ensures terms { result.now ≡ self.old }
        ensures odd { IsOdd (length self.old) }
    {
        self.terms.as_mut_slice()
    }

    /// Iterates over mutable references to the terms in order.
    pub fn iter_mut(&mut self) -> slice::IterMut<'_, T>
        ensures* writes_back { sem 𝓛 (lends_iter T.row self.entry result) }
        ensures terms { iter_mut_rest result ≡ self.old }
    {
        self.as_mut_slice().iter_mut()
    }

    /// Returns the number of adds, which is one more than the number of removes.
    pub fn num_sides(&self) -> usize
        ensures terms { length self.now + 1 ≡ 2 * result }
        ensures adds { length (adds self.now) ≡ result }
        ensures removes { length (removes self.now) + 1 ≡ result }
    {
        self.as_slice().len() / 2 + 1
    }

    /// Returns whether there is only one term.
    pub fn is_resolved(&self) -> bool
        ensures { IsTrue result ↔ (length self.now ≡ 1) }
    {
        self.as_slice().len() == 1
    }

    /// Returns the first add.
    pub fn first(&self) -> &T
        ensures { slice_get self.now 0 ≡ Some result.now }
    {
        &self.as_slice()[0]
    }

    /// Returns the add at `index`, counting adds only, or `None` past the last one.
    #[tactic(auto, using(crate::proofs::Sides::side_elements))]
    pub fn get_add(&self, index: usize) -> Option<&T>
        ensures { option_copied result ≡ slice_get (adds self.now) index }
    {
        let terms = self.as_slice();
        if index > terms.len() / 2 {
            None
        } else {
            Some(&terms[index * 2])
        }
    }

    /// Returns the remove at `index`, counting removes only, or `None` past the last one.
    #[tactic(auto, using(crate::proofs::Sides::side_elements))]
    pub fn get_remove(&self, index: usize) -> Option<&T>
        ensures { option_copied result ≡ slice_get (removes self.now) index }
    {
        let terms = self.as_slice();
        if index >= terms.len() / 2 {
            None
        } else {
            Some(&terms[index * 2 + 1])
        }
    }

    /// Returns the value of a resolved merge, or `None` for a conflict.
    pub fn as_resolved(&self) -> Option<&T>
        ensures { MatchOption result (1 < length self.now) (λ x. self.now ≡ x.now ∷ []) }
    {
        match self.as_slice() {
            [value] => Some(value),
            _ => None,
        }
    }

    /// Returns the value of a resolved merge, or the merge unchanged for a conflict.
    pub fn into_resolved(self) -> Result<T, Self>
    where
        T: Drop,
        ensures { MatchResult result (λ x. self ≡ x ∷ []) (λ m. (m ≡ self) × (1 < length self)) }
    {
        let Merge { terms } = self;
        match terms {
            Terms::Inline(values) => Ok(into_single(values)),
            Terms::Heap(mut values) => {
                if values.len() > 1 {
                    return Err(Merge {
                        terms: Terms::Heap(values),
                    });
                }
                match values.pop() {
                    Some(value) => {
                        values.destroy_empty();
                        Ok(value)
                    }
                    None => unreachable!(),
                }
            }
        }
    }
}

impl<T: MadeWith<Global> + Drop> Merge<T> {
    /// Creates a merge of these terms, adds at even indices. Does not allocate.
    pub fn from_vec(values: SmallVec<T, 1>) -> Self
        requires { IsOdd (length values.items) }
        ensures { result ≡ values.items }
    {
        let mut values = values;
        if !values.spilled() {
            if let Some(value) = values.pop() {
                return Merge {
                    terms: Terms::single(value),
                };
            }
        }
        match values.into_vec() {
            Ok(values) => Merge {
                terms: Terms::Heap(values),
            },
            Err(_) => unreachable!(),
        }
    }
}
