//! Simplification of a merge by cancelling adds with equal removes, and its inverse, which writes
//! edited terms of the simplified merge back into the original.
ghost use Rattle.std.specs.Prelude.{◌≡◌, ◌≢◌, ℕ, ◌≤◌, List, All, length, slice_get, IsTrue, IfOk};
ghost use Rattle.std.specs.Fn.{CalledAt};
ghost use Rattle.std.specs.Cmp.{IsEquivalence};
ghost use Rattle.std.specs.List.{AllZip};
ghost use Rattle.jj_merges.specs.Calls.{CallsReturn};
ghost use Rattle.jj_merges.specs.Merge.{AreTermwiseEqual, HaveSameCounts, HaveSameSides, IsDisjoint};
ghost use Rattle.jj_merges.specs.Simplify.{simplified_indices, at_indices};

use super::{Merge, cancellation};
use std::alloc::{AllocError, Global};

impl<T: PartialEq + Clone> Merge<T> {
    /// Cancels each add with an equal remove. `[a, b, b, c, d]` simplifies to `[a, c, d]`.
    ///
    /// The adds are tried in order, each against the first equal remove. The add after that remove
    /// takes the cancelled add's index, so that the remaining diffs stay aligned. Simplifying twice
    /// changes nothing (`laws::simplified_indices_laws`). O(n²) comparisons.
    pub fn simplify(&self, alloc: Global) -> Result<Self, AllocError>
        // A clone equals its original.
        requires clones { (x y : T) → T.is_clone x y → IsTrue (T.eq x y) }
        // The result has clones of the terms that remain, in order.
        ensures terms { IfOk result (λ s. AllZip T.is_clone
            (at_indices self.now (simplified_indices T.eq self.now)) s) }
        // Each value has the signed count that it had.
        ensures counts { IfOk result (λ s. HaveSameCounts T.eq s self.now) }
        // No value is both added and removed.
        ensures disjoint { IfOk result (IsDisjoint T.eq) }
        // If equality is an equivalence, no merge with these counts is shorter.
        ensures minimal { IfOk result (λ s. IsEquivalence T.eq → (n : List T)
            → HaveSameCounts T.eq self.now n → length s ≤ length n) }
        // If equality is an equivalence, each merge with these counts in which no value is both
        // added and removed has these adds and removes up to order.
        ensures unique { IfOk result (λ s. IsEquivalence T.eq → (n : List T)
            → HaveSameCounts T.eq self.now n → IsDisjoint T.eq n → HaveSameSides T.eq s n) }
    {
        cancellation::clone_simplified(alloc, self.as_slice())
    }
}

impl<T: Clone> Merge<T> {
    /// Like `simplify`, but cancels terms whose keys, which `f` returns, are equal.
    pub fn simplify_by<'a, U: PartialEq + Drop, F: FnMut(&'a T) -> U>(
        &'a self,
        alloc: Global,
        f: F,
    ) -> Result<Self, AllocError>
        requires { F.IsAlwaysCallable f }
        ensures { IfOk result (λ s. (keys : List U) × (last : F)
            × CallsReturn (CalledAt F.FnMut) f self.now keys last
            × AllZip T.is_clone (at_indices self.now (simplified_indices U.eq keys)) s) }
    {
        let values = self.as_slice();
        let keys = cancellation::collect_keys(alloc, values, f)?;
        let indices = cancellation::simplified_indices(alloc, &keys)?;
        cancellation::clone_at_indices(alloc, values, &indices)
    }
}

impl<T: PartialEq + Drop> Merge<T> {
    /// Replaces the terms that `simplify` keeps by those of `simplified`, in order. The terms that
    /// cancel are unchanged.
    ///
    /// Use it to edit a conflict in its simplified form: simplify, edit the terms, and write them
    /// back. `simplified` must have as many terms as `simplify` returns. O(n²) comparisons.
    pub fn update_from_simplified(self, alloc: Global, simplified: Self) -> Result<Self, AllocError>
        requires { length simplified
            ≡ length (at_indices self (simplified_indices T.eq self)) }
        ensures updated { IfOk result (λ m. at_indices m (simplified_indices T.eq self)
            ≡ simplified) }
        ensures unchanged { IfOk result (λ m. (p : ℕ)
            → All (λ index. index ≢ p) (simplified_indices T.eq self)
            → slice_get m p ≡ slice_get self p) }
        ensures len { IfOk result (λ m. length m ≡ length self) }
        ensures counts { IfOk result (λ m. HaveSameCounts T.eq m simplified) }

        // Without an edit the result is the original merge.
        ensures round_trip { IfOk result (λ m. IsEquivalence T.eq
            → AreTermwiseEqual T.eq (at_indices self (simplified_indices T.eq self)) simplified
            → AreTermwiseEqual T.eq self m) }
    {
        let indices = cancellation::simplified_indices(alloc, self.as_slice())?;
        let Merge { terms } = self;
        let mut terms = terms;
        let mut updates = simplified.into_iter();
        for index in &indices {
            match updates.next() {
                Some(update) => terms.set(*index, update),
                None => unreachable!(),
            }
        }
        Ok(Merge { terms })
    }
}
