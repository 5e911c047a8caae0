//! Trivial resolution: the outcome of a merge that the signed counts of its terms decide, without
//! looking inside the values.
ghost use Rattle.std.specs.Prelude.{[], ◌∷◌, ◌⊎◌, ◌≡◌, ◌≢◌, ℕ, ◌+◌, ◌<◌, ◌↔◌, length, count_by, IsTrue, IsFalse, IfSome, IfNone, Contains};
ghost use Rattle.std.specs.List.{list_any};
ghost use Rattle.jj_merges.specs.Merge.{IsOdd, adds, removes};
ghost use Rattle.jj_merges.specs.Resolution.{ResolvesTo};
ghost use Rattle.jj_merges.specs.declared.merge.SameChange.{SameChange};

use super::{Merge, SameChange};

#[tactic(auto, using(crate::proofs::AddCounts::count_steps))]
fn count_adds<T: Eq>(values: &[T], value: &T) -> usize
    ensures { result ≡ count_by (T.eq value.now) (adds values.now) }
{
    let mut count = 0;
    for (index, term) in values.iter().enumerate() {
        if index % 2 == 0 && value == term {
            count += 1;
        }
    }
    count
}

// The removes are the adds of the list without its first term.
fn count_removes<T: Eq>(values: &[T], value: &T) -> usize
    ensures { result ≡ count_by (T.eq value.now) (removes values.now) }
{
    match values {
        [_, rest @ ..] => count_adds(rest, value),
        [] => 0,
    }
}

// Resolves a three-way merge with at most three comparisons.
fn resolve_three_way<'a, T: Eq>(
    first: &'a T,
    remove: &'a T,
    last: &'a T,
    same_change: SameChange,
) -> Option<&'a T>
    ensures member { IfSome result (λ v. (v.now ≡ first.now) ⊎ (v.now ≡ last.now)) }
    ensures resolved { IfSome result (λ v. ResolvesTo T.eq same_change
        (first.now ∷ remove.now ∷ last.now ∷ []) v.now) }
    ensures unresolved { IfNone result ((v : T)
        → ¬ (ResolvesTo T.eq same_change (first.now ∷ remove.now ∷ last.now ∷ []) v)) }
{
    if same_change == SameChange::Accept && first == last {
        return Some(first);
    }
    if first == remove {
        return Some(last);
    }
    if last == remove {
        return Some(first);
    }
    None
}

// Whether a term equals `value`, compared from the last one on. A long run of equal terms so takes
// one comparison for each; all prefixes of n terms with d distinct values take at most n * d.
fn contains_from_end<T: PartialEq>(values: &[T], value: &T) -> bool
    ensures { result ≡ list_any (T.eq value.now) values.now }
{
    for distance in 0..values.len() {
        let index = values.len() - 1 - distance;
        if *value == values[index] {
            return true;
        }
    }
    false
}

// Resolves a merge of any length. Each distinct value is counted once, at its first index. There is
// no `Hash` bound to build a map of counts, and no allocation.
fn resolve_by_counts<T: Eq>(values: &[T], same_change: SameChange) -> Option<&T>
    ensures member { IfSome result (λ v. Contains values.now v.now) }
    ensures resolved { IfSome result (λ v. ResolvesTo T.eq same_change values.now v.now) }
    ensures unresolved { IfNone result ((v : T) → ¬ (ResolvesTo T.eq same_change values.now v)) }
{
    let mut added: Option<&T> = None;
    let mut removed: Option<&T> = None;
    for (index, value) in values.iter().enumerate() {
        if contains_from_end(&values[..index], value) {
            continue;
        }
        let adds = count_adds(values, value);
        let removes = count_removes(values, value);
        if removes < adds {
            if added.is_some() || is_kept_duplicate(same_change, adds, removes) {
                return None;
            }
            added = Some(value);
        } else if adds < removes {
            if removed.is_some() || same_change == SameChange::Keep {
                return None;
            }
            removed = Some(value);
        }
    }
    added
}

// Whether several sides made this change, which `Keep` leaves unresolved.
fn is_kept_duplicate(same_change: SameChange, adds: usize, removes: usize) -> bool
    requires { removes < adds }
    ensures { IsTrue result ↔ ((same_change ≡ SameChange.Keep) × (adds ≢ removes + 1)) }
{
    same_change == SameChange::Keep && adds - removes != 1
}

/// Resolves the merge of `values` if their signed counts determine one outcome: adds cancel with
/// equal removes, and a single value must remain. If all sides made the same change, `Accept`
/// resolves to it. For example `[a, b, b]` resolves to `a`, and `[a, b, a]` only with `Accept`.
///
/// Returns `None` for a conflict. At most 2 * n * d comparisons for n terms with d distinct values;
/// does not allocate.
pub fn trivial_merge<T: Eq>(values: &[T], same_change: SameChange) -> Option<&T>
    requires { IsOdd (length values.now) }
    ensures member { IfSome result (λ v. Contains values.now v.now) }
    ensures resolved { IfSome result (λ v. ResolvesTo T.eq same_change values.now v.now) }
    ensures unresolved { IfNone result ((v : T) → ¬ (ResolvesTo T.eq same_change values.now v)) }
{
    match values {
        [value] => Some(value),
        [first, remove, last] => resolve_three_way(first, remove, last, same_change),
        _ => resolve_by_counts(values, same_change),
    }
}

/// Resolves a three-way merge of values: returns the side that changed if the other is equal to
/// `base`, and `left` if both sides are equal. For example `three_way("a", "a", "b")` and
/// `three_way("a", "b", "b")` are `"b"`.
///
/// Returns `None` for a conflict: all three differ. At most three comparisons; does not allocate.
/// `trivial_merge` of `[left, base, right]` with `SameChange::Keep` does not resolve equal changes.
pub fn three_way<'a, T: Eq>(base: &'a T, left: &'a T, right: &'a T) -> Option<&'a T>
    ensures resolved { IfSome result (λ v.
        (IsTrue (T.eq base.now left.now) × (v.now ≡ right.now))
        ⊎ (IsTrue (T.eq base.now right.now) × (v.now ≡ left.now))
        ⊎ (IsTrue (T.eq left.now right.now) × (v.now ≡ left.now))) }
    ensures conflict { IfNone result (IsFalse (T.eq base.now left.now)
        × IsFalse (T.eq base.now right.now) × IsFalse (T.eq left.now right.now)) }
{
    if base == left {
        return Some(right);
    }
    if base == right || left == right {
        return Some(left);
    }
    None
}

impl<T: Eq> Merge<T> {
    /// Resolves the merge if the signed counts of its terms determine one outcome, else returns
    /// `None`. See `trivial_merge`.
    pub fn resolve_trivial(&self, same_change: SameChange) -> Option<&T>
        // The value is one of the terms.
        ensures member { IfSome result (λ v. Contains self.now v.now) }
        // The signed counts of the terms determine this value.
        ensures resolved { IfSome result (λ v. ResolvesTo T.eq same_change self.now v.now) }
        // `None` is returned only if they determine no value.
        ensures unresolved { IfNone result ((v : T) → ¬ (ResolvesTo T.eq same_change self.now v)) }
    {
        trivial_merge(self.as_slice(), same_change)
    }
}
