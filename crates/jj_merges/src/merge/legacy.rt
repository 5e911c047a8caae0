//! Merges from the legacy form of conflicts: a list of removes and a list of adds, of any lengths.
ghost use Rattle.std.specs.Prelude.{◌≡◌, [], List, IfOk, OnOk};
ghost use Rattle.std.specs.Iterator.{Drains};
ghost use Rattle.jj_merges.specs.Counts.{HaveCountsOfPresent};
ghost use Rattle.jj_merges.specs.Legacy.{legacy_terms};
ghost use Rattle.jj_merges.specs.Sources.{IsFiniteSource, YieldsAll, IsFiniteFrom};
ghost use Rattle.jj_merges.specs.Merge as merge;
ghost use Rattle.jj_merges.specs.Options.{present};
ghost use Rattle.jj_merges.specs.Terms.{items, InlineHasOne, IsMergeStorage};

use super::Merge;
use super::storage::Terms;
use std::alloc::{AllocError, Global};

impl<T: Drop> Merge<Option<T>> {
    /// Creates a merge from any number of removes and adds. The shorter list is padded with `None`.
    /// `into_legacy_form` restores both lists.
    pub fn from_legacy_form<R: IntoIterator<Item = T>, A: IntoIterator<Item = T>>(
        alloc: Global,
        removes: R,
        adds: A,
    ) -> Result<Self, AllocError>
        requires removes_end { IsFiniteSource R.IntoIterator R.IntoIter.Iterator removes }
        requires adds_end { IsFiniteSource A.IntoIterator A.IntoIter.Iterator adds }

        // The present removes and adds are the two lists, which `into_legacy_form` returns.
        ensures terms { IfOk result (λ m. (xs : List T) × (ys : List T)
            × YieldsAll R.into_iter_gives R.IntoIter.next_gives removes xs
            × YieldsAll A.into_iter_gives A.IntoIter.next_gives adds ys × (m ≡ legacy_terms xs ys)
            × (present (merge.removes m) ≡ xs) × (present (merge.adds m) ≡ ys)) }
        ensures counts { IfOk result HaveCountsOfPresent }
    {
        let mut terms = Terms::new(alloc);
        push_legacy_terms(&mut terms, alloc, removes.into_iter(), adds.into_iter())?;
        Ok(Merge { terms })
    }
}

fn push_legacy_terms<T: Drop, R: Iterator<Item = T>, A: Iterator<Item = T>>(
    terms: &mut Terms<Option<T>>,
    alloc: Global,
    removes: R,
    adds: A,
) -> Result<(), AllocError>
    requires empty { (items terms.old ≡ []) × InlineHasOne terms.old }
    requires removes_end { IsFiniteFrom R.can_next R.remaining removes }
    requires adds_end { IsFiniteFrom A.can_next A.remaining adds }
    ensures terms { OnOk result ((xs : List T) × (ys : List T)
        × Drains R.next_gives removes xs × Drains A.next_gives adds ys
        × (items terms.new ≡ legacy_terms xs ys)) }
    ensures is_merge_storage { OnOk result (IsMergeStorage terms.new) }
{
    let mut adds = adds;
    let mut add = adds.next();
    for remove in removes {
        let has_more = add.is_some();
        terms.push_pair(alloc, add, Some(remove))?;
        add = if has_more { adds.next() } else { None };
    }
    let has_more = add.is_some();
    terms.push(alloc, add)?;
    if !has_more {
        return Ok(());
    }
    for add in adds {
        terms.push_pair(alloc, None, Some(add))?;
    }
    Ok(())
}
