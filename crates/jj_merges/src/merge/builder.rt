//! Construction of merges from iterators of terms, of removes and adds, or of diffs.
ghost use Rattle.std.specs.Prelude.{◌≡◌, ◌+◌, ◌++◌, [], ◌∷◌, List, length, IfOk, OnOk, OnErr};
ghost use Rattle.std.specs.Cmp.Lexicographic.{pointwise, lists_per, lists_equiv};
ghost use Rattle.std.specs.Iterator.{Drains};
ghost use Rattle.std.specs.List.{AllZip};
ghost use Rattle.jj_merges.specs.Counts.{HaveCountsOfDiffs};
ghost use Rattle.jj_merges.specs.Merge.{IsOdd};
ghost use Rattle.jj_merges.specs.Terms.{items, InlineHasOne, IsMergeStorage};
ghost use Rattle.jj_merges.specs.Sources.{IsFiniteSource, YieldsAll, IsFiniteFrom, diff_terms};
ghost use Rattle.jj_merges.specs.Merge as merge;

use super::storage::Terms;
use super::{Diff, Merge};
use std::alloc::{AllocError, Global};
use std::fmt;
use std::marker::Model;

/// Collects the terms of a merge, adds and removes alternating. Contracts see the list of terms.
#[derive(Drop)]
pub struct MergeBuilder<T> {
    terms: Terms<T>,
}

impl<T> Model for MergeBuilder<T> {
    ghost Value = { List T };

    ghost view = { λ b. items b.terms };

    ghost invariant = { λ b. InlineHasOne b.terms };
}

impl<T: Drop> MergeBuilder<T> {
    /// Creates a builder without terms. Does not allocate.
    pub fn default(alloc: Global) -> Self
        ensures { result ≡ [] }
    {
        MergeBuilder {
            terms: Terms::new(alloc),
        }
    }

    /// Appends the items of `iter`. If memory runs out, the builder has the terms it had before.
    pub fn extend<U: IntoIterator<Item = T>>(
        &mut self,
        alloc: Global,
        iter: U,
    ) -> Result<(), AllocError>
        requires { IsFiniteSource U.IntoIterator U.IntoIter.Iterator iter }
        ensures ok { OnOk result ((xs : List T)
            × YieldsAll U.into_iter_gives U.IntoIter.next_gives iter xs
            × (self.new ≡ self.old ++ xs)) }
        ensures err { OnErr result (self.new ≡ self.old) }
    {
        let len = self.terms.as_slice().len();
        for term in iter {
            if let Err(error) = self.terms.push(alloc, term) {
                self.terms.truncate(alloc, len);
                return Err(error);
            }
        }
        Ok(())
    }

    /// Returns the merge of the collected terms, of which there must be an odd number.
    #[tactic(auto, using(crate::proofs::StorageLaws::is_merge_storage))]
    pub fn build(self) -> Merge<T>
        requires { IsOdd (length self) }
        ensures { result ≡ self }
    {
        let MergeBuilder { terms } = self;
        Merge { terms }
    }
}

impl<T: Clone> MergeBuilder<T> {
    /// Clones all terms. Their list is allocated with `alloc`.
    pub fn clone(&self, alloc: Global) -> Result<Self, AllocError>
        ensures { IfOk result (λ b. AllZip T.is_clone self.now b) }
    {
        let terms = Terms::from_slice(alloc, self.terms.as_slice())?;
        Ok(MergeBuilder { terms })
    }
}

impl<T: PartialEq> PartialEq for MergeBuilder<T> {
    ghost eq = { pointwise T.eq };

    ghost laws = { lists_per T.laws };

    fn eq(&self, other: &Self) -> bool {
        self.terms.as_slice() == other.terms.as_slice()
    }
}

impl<T: Eq> Eq for MergeBuilder<T> {
    ghost laws = { lists_equiv T.Eq.laws };
}

impl<T: fmt::Debug> fmt::Debug for MergeBuilder<T> {
    fn fmt<W: fmt::Write>(&self, f: &mut fmt::Formatter<W>) -> fmt::Result {
        f.debug_struct("MergeBuilder")
            .field("values", &self.terms.as_slice())
            .finish()
    }
}

impl<T: Drop> Merge<T> {
    /// Creates a merge from its removes and adds: `[base]` and `[left, right]` make the three-way
    /// merge `[left, base, right]`. Both iterators must be finite, and `adds` must yield one more.
    pub fn from_removes_adds<R: IntoIterator<Item = T>, A: IntoIterator<Item = T>>(
        alloc: Global,
        removes: R,
        adds: A,
    ) -> Result<Self, AllocError>
        requires removes_end { IsFiniteSource R.IntoIterator R.IntoIter.Iterator removes }
        requires adds_end { IsFiniteSource A.IntoIterator A.IntoIter.Iterator adds }
        requires one_more { (xs ys : List T)
            → YieldsAll R.into_iter_gives R.IntoIter.next_gives removes xs
            → YieldsAll A.into_iter_gives A.IntoIter.next_gives adds ys
            → length ys ≡ length xs + 1 }
        ensures removes { IfOk result (λ m. YieldsAll R.into_iter_gives R.IntoIter.next_gives
            removes (merge.removes m)) }
        ensures adds { IfOk result (λ m. YieldsAll A.into_iter_gives A.IntoIter.next_gives
            adds (merge.adds m)) }
    {
        let removes = removes.into_iter();
        let adds = adds.into_iter();
        let (room, _) = removes.size_hint();
        let mut terms = Terms::with_capacity(alloc, room.saturating_mul(2).saturating_add(1))?;
        push_interleaved(&mut terms, alloc, removes, adds)?;
        Ok(Merge { terms })
    }

    /// Creates a merge that applies `diffs` to `first_side`. The `before` of each diff is a remove,
    /// its `after` an add. `diffs` must be finite.
    pub fn from_diffs<U: IntoIterator<Item = Diff<T>>>(
        alloc: Global,
        first_side: T,
        diffs: U,
    ) -> Result<Self, AllocError>
        requires { IsFiniteSource U.IntoIterator U.IntoIter.Iterator diffs }
        ensures { IfOk result (λ m. (it : U.IntoIter) × (ds : List (Diff T))
            × U.into_iter_gives diffs it × Drains U.IntoIter.next_gives it ds
            × (m ≡ first_side ∷ diff_terms ds) × HaveCountsOfDiffs first_side ds m) }
    {
        let mut terms = Terms::single(first_side);
        for diff in diffs {
            let Diff { before, after } = diff;
            terms.push_pair(alloc, before, after)?;
        }
        Ok(Merge { terms })
    }
}

// Appends an add, a remove, and so on. Each add is pushed together with the remove after it, so the
// loop over the removes has one exit.
fn push_interleaved<T: Drop, R: Iterator<Item = T>, A: Iterator<Item = T>>(
    terms: &mut Terms<T>,
    alloc: Global,
    removes: R,
    adds: A,
) -> Result<(), AllocError>
    requires empty { (items terms.old ≡ []) × InlineHasOne terms.old }
    requires removes_end { IsFiniteFrom R.can_next R.remaining removes }
    requires adds_end { IsFiniteFrom A.can_next A.remaining adds }
    requires one_more { (xs ys : List T) → Drains R.next_gives removes xs
        → Drains A.next_gives adds ys → length ys ≡ length xs + 1 }
    ensures removes { OnOk result (Drains R.next_gives removes
        (merge.removes (items terms.new))) }
    ensures adds { OnOk result (Drains A.next_gives adds (merge.adds (items terms.new))) }
    ensures is_merge_storage { OnOk result (IsMergeStorage terms.new) }
{
    let mut adds = adds;
    let mut add = adds.next();
    for remove in removes {
        if let Some(value) = add {
            terms.push_pair(alloc, value, remove)?;
            add = adds.next();
        }
    }
    match add {
        Some(value) => terms.push(alloc, value)?,
        None => unreachable!(),
    }
    for _none in adds {}
    Ok(())
}
