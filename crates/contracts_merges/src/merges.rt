//! Callers of `jj_merges`.
ghost use Rattle.std.specs.Prelude.{◌≡◌, ◌≢◌, ◌++◌, ◌⊎◌, ℕ, ◌≤◌, List, Bool, All, length, slice_get, IsTrue, IsFalse, IfOk, OnOk, OnErr, IfSome, IfNone, Contains};
ghost use Rattle.std.specs.Cmp.{IsEquivalence};
ghost use Rattle.std.specs.List.{AllZip};
ghost use Rattle.jj_merges.specs.Flatten.{flattened_terms, nested_count};
ghost use Rattle.jj_merges.specs.Merge.{IsOdd, HaveSameCounts, IsDisjoint, signed_count};
ghost use Rattle.jj_merges.specs.Resolution.{ResolvesTo};
ghost use Rattle.jj_merges.specs.Simplify.{simplified_indices, at_indices};
ghost use Rattle.jj_merges.specs.Sources.{IsFiniteSource, YieldsAll};

use jj_merges::merge::{Merge, MergeBuilder, SameChange, three_way, trivial_merge};
use std::alloc::{AllocError, Global};

/// `Merge::simplify`.
pub fn simplify<T: PartialEq + Clone>(
    merge: &Merge<T>,
    alloc: Global,
) -> Result<Merge<T>, AllocError>
    requires clones { (x y : T) → T.is_clone x y → IsTrue (T.eq x y) }
    ensures counts { IfOk result (λ s. HaveSameCounts T.eq s merge.now) }
    ensures disjoint { IfOk result (IsDisjoint T.eq) }
{
    merge.simplify(alloc)
}

/// `Merge::update_from_simplified`.
pub fn update_from_simplified<T: PartialEq + Drop>(
    merge: Merge<T>,
    alloc: Global,
    simplified: Merge<T>,
) -> Result<Merge<T>, AllocError>
    requires { length simplified ≡ length (at_indices merge (simplified_indices T.eq merge)) }
    ensures len { IfOk result (λ m. length m ≡ length merge) }
    ensures counts { IfOk result (λ m. HaveSameCounts T.eq m simplified) }
{
    merge.update_from_simplified(alloc, simplified)
}

/// `Merge::flatten`.
pub fn flatten<T: Drop>(merges: Merge<Merge<T>>, alloc: Global) -> Result<Merge<T>, AllocError>
    ensures { IfOk result (λ m. m ≡ flattened_terms merges) }
{
    let flat = merges.flatten(alloc)?;
    Ok(flat)
}

/// `trivial_merge`.
pub fn trivial<T: Eq>(values: &[T], same_change: SameChange) -> Option<&T>
    requires { IsOdd (length values.now) }
    ensures resolved { IfSome result (λ v. ResolvesTo T.eq same_change values.now v.now) }
    ensures unresolved { IfNone result ((v : T) → ¬ (ResolvesTo T.eq same_change values.now v)) }
{
    trivial_merge(values, same_change)
}

/// `three_way`.
pub fn three<'a, T: Eq>(base: &'a T, left: &'a T, right: &'a T) -> Option<&'a T>
    ensures resolved { IfSome result (λ v.
        (IsTrue (T.eq base.now left.now) × (v.now ≡ right.now))
        ⊎ (IsTrue (T.eq base.now right.now) × (v.now ≡ left.now))
        ⊎ (IsTrue (T.eq left.now right.now) × (v.now ≡ left.now))) }
    ensures conflict { IfNone result (IsFalse (T.eq base.now left.now)
        × IsFalse (T.eq base.now right.now) × IsFalse (T.eq left.now right.now)) }
{
    three_way(base, left, right)
}

/// `MergeBuilder::extend`.
pub fn extend<T: Drop, U: IntoIterator<Item = T>>(
    builder: &mut MergeBuilder<T>,
    alloc: Global,
    iter: U,
) -> Result<(), AllocError>
    requires { IsFiniteSource U.IntoIterator U.IntoIter.Iterator iter }
    ensures ok { OnOk result ((xs : List T)
        × YieldsAll U.into_iter_gives U.IntoIter.next_gives iter xs
        × (builder.new ≡ builder.old ++ xs)) }
    ensures err { OnErr result (builder.new ≡ builder.old) }
{
    builder.extend(alloc, iter)
}
