//! Flattening of a merge of merges.
ghost use Rattle.std.specs.Prelude.{◌≡◌, ◌%◌, [], ◌∷◌, ◌++◌, Bool, List, length, IfOk, OnOk};
ghost use Rattle.jj_merges.specs.Flatten.{flattened_terms, inverse_terms, nested_count};
ghost use Rattle.jj_merges.specs.Merge.{signed_count};
ghost use Rattle.jj_merges.specs.Terms.{items, InlineHasOne};

use super::storage::Terms;
use super::{IntoIter, Merge};
use std::alloc::{AllocError, Global};

impl<T: Drop> Merge<Merge<T>> {
    /// Flattens a merge of merges into one merge. Added merges are appended as they are. A removed
    /// merge `[a0, r1, a1, .., rn, an]` is appended as `[a1, r1, .., an, rn, a0]`: its adds become
    /// removes and its removes adds, and each diff stays adjacent. O(n) moves.
    ///
    /// Signed counts are the added merges' minus the removed merges' (`counts`).
    pub fn flatten(self, alloc: Global) -> Result<Merge<T>, AllocError>
        // The terms are those of all merges in order, those of removed merges inverted.
        ensures terms { IfOk result (λ m. m ≡ flattened_terms self) }
        // The signed count of each value is the added merges' minus the removed merges'.
        ensures counts { IfOk result (λ m. (eq : T → T → Bool) (v : T)
            → signed_count eq m v ≡ nested_count eq self v) }
    {
        let len = self.as_slice().len();
        let mut merges = self.into_iter();
        match merges.next() {
            Some(first) => flatten_remaining(alloc, first, &mut merges),
            None => unreachable!(),
        }
    }
}

// Flattens `first` followed by the merges that are not yet yielded.
fn flatten_remaining<T: Drop>(
    alloc: Global,
    first: Merge<T>,
    merges: &mut IntoIter<Merge<T>>,
) -> Result<Merge<T>, AllocError>
    requires { length merges.old % 2 ≡ 0 }
    ensures terms { IfOk result (λ m. m ≡ flattened_terms (first ∷ merges.old)) }
    ensures counts { IfOk result (λ m. (eq : T → T → Bool) (v : T)
        → signed_count eq m v ≡ nested_count eq (first ∷ merges.old) v) }
{
    let first_len = first.as_slice().len();
    let Merge { terms } = first;
    let mut terms = terms;
    while let Some(remove) = merges.next() {
        append_inverse(&mut terms, alloc, remove)?;
        match merges.next() {
            Some(add) => append_merge(&mut terms, alloc, add)?,
            None => unreachable!(),
        }
    }
    Ok(Merge { terms })
}

fn append_merge<T: Drop>(
    terms: &mut Terms<T>,
    alloc: Global,
    add: Merge<T>,
) -> Result<(), AllocError>
    requires { InlineHasOne terms.old }
    ensures ok { OnOk result (items terms.new ≡ items terms.old ++ add) }
    ensures inline_has_one { InlineHasOne terms.new }
    ensures odd { length add % 2 ≡ 1 }
{
    let len = add.as_slice().len();
    for term in add {
        terms.push(alloc, term)?;
    }
    Ok(())
}

// Appends a removed merge with each diff reversed and the first add last.
fn append_inverse<T: Drop>(
    terms: &mut Terms<T>,
    alloc: Global,
    remove: Merge<T>,
) -> Result<(), AllocError>
    requires { InlineHasOne terms.old }
    ensures ok { OnOk result (items terms.new ≡ items terms.old ++ inverse_terms remove) }
    ensures inline_has_one { InlineHasOne terms.new }
    ensures odd { length remove % 2 ≡ 1 }
{
    let len = remove.as_slice().len();
    let mut rest = remove.into_iter();
    let Some(first) = rest.next() else {
        unreachable!();
    };
    while let Some(removed) = rest.next() {
        match rest.next() {
            Some(added) => terms.push_pair(alloc, added, removed)?,
            None => unreachable!(),
        }
    }
    terms.push(alloc, first)
}
