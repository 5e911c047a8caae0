//! Adding sides to a merge and removing them.
ghost use Rattle.std.specs.Prelude.{◌≡◌, ℕ, ◌+◌, ◌-◌, ◌*◌, ◌<◌, ◌≤◌, length, max, slice_get, IfOk, OnOk, OnErr, Some, ◌+ℤ◌, ◌-ℤ◌, [], ◌∷◌, Bool};
ghost use Rattle.std.specs.List.{AllClonesOf, AppendsClonesOf, swap_remove};
ghost use Rattle.jj_merges.specs.Counts.{HaveCountsOfClones, count_of_single};
ghost use Rattle.jj_merges.specs.Merge.{adds, max_sides, removes, signed_count};

use super::Merge;
use super::storage::Terms;
use std::alloc::{AllocError, Global};
use std::vec::VecCloneMethods;

impl<T> Merge<T> {
    /// Removes and returns the remove at `remove_index` and the add at `add_index`, each counted on
    /// its own side. The last remove and the last add take their indices. O(1).
    pub fn swap_remove(&mut self, remove_index: usize, add_index: usize) -> (T, T)
        requires remove { remove_index < length (removes self.old) }
        requires add { add_index < length (adds self.old) }
        ensures removed { slice_get (removes self.old) remove_index ≡ Some result.0 }
        ensures added { slice_get (adds self.old) add_index ≡ Some result.1 }
        ensures removes { removes self.new ≡ swap_remove (removes self.old) remove_index result.0 }
        ensures adds { adds self.new ≡ swap_remove (adds self.old) add_index result.1 }
        ensures counts { (eq : T → T → Bool) (v : T) → signed_count eq self.new v
            ≡ (signed_count eq self.old v -ℤ count_of_single eq result.1 v)
            +ℤ count_of_single eq result.0 v }
    {
        let len = self.as_slice().len();
        let add = self.terms.swap_remove(add_index * 2);
        let remove = self.terms.swap_remove(remove_index * 2 + 1);
        (remove, add)
    }
}

impl<T: Clone> Merge<T> {
    /// Creates a merge whose 2 * `num_sides` - 1 terms are `value` and clones of it.
    pub fn repeated(alloc: Global, value: T, num_sides: usize) -> Result<Self, AllocError>
        requires positive { 1 ≤ num_sides }
        requires within { num_sides ≤ max_sides }
        ensures terms { IfOk result (AllClonesOf T.is_clone value) }
        ensures len { IfOk result (λ m. length m + 1 ≡ 2 * num_sides) }
        ensures counts { IfOk result (HaveCountsOfClones T.is_clone (value ∷ [])) }
    {
        if num_sides == 1 {
            return Ok(Merge::resolved(alloc, value));
        }
        let mut terms = Vec::new(alloc);
        VecCloneMethods::resize(&mut terms, num_sides * 2 - 1, value)?;
        Ok(Merge {
            terms: Terms::Heap(terms),
        })
    }

    /// Pads the merge to `num_sides` sides with pairs of a remove and an add that are clones of
    /// `value`. Does nothing if there are as many sides already.
    pub fn pad_to(&mut self, alloc: Global, num_sides: usize, value: &T) -> Result<(), AllocError>
        requires { num_sides ≤ max_sides }
        ensures terms { OnOk result (AppendsClonesOf T.is_clone self.old self.new value.now) }
        ensures len { OnOk result (length self.new ≡ max (length self.old) (2 * num_sides - 1)) }
        ensures counts { OnOk result (HaveCountsOfClones T.is_clone self.old self.new) }
        ensures err { OnErr result (self.new ≡ self.old) }
    {
        if num_sides <= self.num_sides() {
            return Ok(());
        }
        self.terms.pad(alloc, num_sides * 2 - 1, value)
    }
}
