//! Laws of merges. Each function does nothing, and its contract is the law.
ghost use Rattle.std.specs.Prelude.{◌≡◌, ◌<◌, ◌↔◌, ◌⊎◌, ◌∷◌, [], ℕ, IsTrue, List, length, slice_get};
ghost use Rattle.std.specs.List.{range_with_len};
ghost use Rattle.jj_merges.specs.Merge.{HaveSameCounts, IsDisjoint, IsOdd};
ghost use Rattle.jj_merges.specs.Simplify.{at_indices, simplified_indices};
ghost use Rattle.jj_merges.specs.Cancellation.{IsCancellation};
ghost use Rattle.jj_merges.specs.Resolution.{ResolvesTo};
ghost use Rattle.jj_merges.specs.declared.merge.SameChange.{SameChange};

use crate::merge::SameChange;

/// Laws of the indices that `Merge::simplify` keeps, and of the terms at these indices.
///
/// - `cancellation`: the dropped terms are pairs of an add and an equal remove.
/// - `len`: all indices are in range.
/// - `counts`: signed counts are unchanged.
/// - `disjoint`: no value remains on both sides.
/// - `idempotent`: a disjoint merge keeps all its terms in order.
/// - `aligned`: each remaining term keeps its label, in a list of one label for each term.
pub fn simplified_indices_laws<T: PartialEq>()
    ensures cancellation { (m : List T) → IsOdd (length m)
        → IsCancellation T.eq m (simplified_indices T.eq m) }
    ensures len { (m : List T) → IsOdd (length m)
        → length (at_indices m (simplified_indices T.eq m)) ≡ length (simplified_indices T.eq m) }
    ensures counts { (m : List T) → IsOdd (length m)
        → HaveSameCounts T.eq (at_indices m (simplified_indices T.eq m)) m }
    ensures disjoint { (m : List T) → IsOdd (length m)
        → IsDisjoint T.eq (at_indices m (simplified_indices T.eq m)) }
    ensures idempotent { (m : List T) → IsOdd (length m) → IsDisjoint T.eq m
        → simplified_indices T.eq m ≡ range_with_len 0 (length m) }
    ensures aligned { (m : List T) (labels : List (List ℕ)) → IsOdd (length m)
        → length labels ≡ length m → (k : ℕ)
        → k < length (at_indices m (simplified_indices T.eq m)) → (j : ℕ)
        × (slice_get (at_indices m (simplified_indices T.eq m)) k ≡ slice_get m j)
        × (slice_get (at_indices labels (simplified_indices T.eq m)) k ≡ slice_get labels j) }
{}

/// The values that a three-way merge `[left, base, right]` resolves to.
///
/// - `keep`: the side that changed, if the other is equal to the base.
/// - `accept`: also a change that both sides made.
pub fn three_way_laws<T: Eq>()
    ensures keep { (left base right v : T)
        → ResolvesTo T.eq SameChange.Keep (left ∷ base ∷ right ∷ []) v
        ↔ ((IsTrue (T.eq base left) × IsTrue (T.eq v right))
        ⊎ (IsTrue (T.eq base right) × IsTrue (T.eq v left))) }
    ensures accept { (left base right v : T)
        → ResolvesTo T.eq SameChange.Accept (left ∷ base ∷ right ∷ []) v
        ↔ ((IsTrue (T.eq base left) × IsTrue (T.eq v right))
        ⊎ (IsTrue (T.eq base right) × IsTrue (T.eq v left))
        ⊎ (IsTrue (T.eq left right) × IsTrue (T.eq v left))) }
{}
