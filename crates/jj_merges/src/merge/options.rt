//! Merges of optional values, such as files that exist only on some sides.
ghost use Rattle.std.specs.Prelude.{◌≡◌, ◌≢◌, ◌↔◌, [], ◌∷◌, List, length, IsTrue, None, Some, MatchOption};
ghost use Rattle.std.specs.Iterator.{YieldsFirstRef, item_count};
ghost use Rattle.std.specs.Option.{option_copied};
ghost use Rattle.jj_merges.specs.Merge.{adds, removes};
ghost use Rattle.jj_merges.specs.Options.{present, resolved_value};

use super::{EverySecond, Merge};
use std::alloc::Global;
use std::iter::FusedIterator;
use std::marker::Model;

/// Iterator over the present values of one side. Contracts see the list of values not yet yielded.
#[derive(Drop)]
pub struct Present<'a, T> {
    terms: EverySecond<'a, Option<T>>,
}

impl<'a, T> Model for Present<'a, T> {
    ghost Value = { List T };

    ghost view = { λ it. present it.terms };
}

impl<'a, T> Iterator for Present<'a, T> {
    type Item = &'a T;

    ghost next_gives = { YieldsFirstRef (λ rest. rest) };

    ghost remaining = { item_count (λ rest. rest) };

    fn next(&mut self) -> Option<&'a T> {
        while let Some(term) = self.terms.next() {
            if let Some(value) = term {
                return Some(value);
            }
        }
        None
    }
}

impl<T> FusedIterator for Present<'_, T> {}

impl<T> Merge<Option<T>> {
    /// Creates a merge that is resolved to `None`. Does not allocate.
    pub fn absent(alloc: Global) -> Self
        ensures { result ≡ None ∷ [] }
    {
        Merge::resolved(alloc, None)
    }

    /// Creates a merge that is resolved to a present value. Does not allocate.
    pub fn normal(alloc: Global, value: T) -> Self
        ensures { result ≡ Some value ∷ [] }
    {
        Merge::resolved(alloc, Some(value))
    }

    /// Returns whether the merge is resolved to `None`.
    pub fn is_absent(&self) -> bool
        ensures { IsTrue result ↔ (self.now ≡ None ∷ []) }
    {
        matches!(self.as_resolved(), Some(None))
    }

    /// The opposite of `is_absent`: a conflict, or resolved to a present value.
    pub fn is_present(&self) -> bool
        ensures { IsTrue result ↔ (self.now ≢ None ∷ []) }
    {
        !self.is_absent()
    }

    /// Returns the present value to which the merge is resolved, if any.
    pub fn as_normal(&self) -> Option<&T>
        ensures { option_copied result ≡ resolved_value self.now }
    {
        self.as_resolved()?.as_ref()
    }

    /// Iterates over the present removes in order.
    pub fn present_removes(&self) -> Present<'_, T>
        ensures { result ≡ present (removes self.now) }
    {
        Present {
            terms: self.removes(),
        }
    }

    /// Iterates over the present adds in order.
    pub fn present_adds(&self) -> Present<'_, T>
        ensures { result ≡ present (adds self.now) }
    {
        Present { terms: self.adds() }
    }
}
