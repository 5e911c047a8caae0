//! Proved callers: contracts of merges at concrete types.
ghost use Rattle.std.specs.Prelude.{◌≡◌, ◌≢◌, ℕ, ◌/◌, ◌<◌, ◌⊎◌, ◌∷◌, [], IfOk, MatchOption, length, map, nat_eq, slice_get};
ghost use Rattle.std.specs.Prelude.{string_bytes, string_eq};
ghost use Rattle.jj_merges.specs.Counts.{distinct, sum_if};
ghost use Rattle.jj_merges.specs.Merge.{HaveSameCounts, IsDisjoint, signed_count};
ghost use Rattle.jj_merges.specs.Resolution.{ResolvesTo};
ghost use Rattle.jj_merges_tests.specs.Edits.{IsEdited, simplified_strings};

use jj_merges::conflict_labels::ConflictLabels;
use jj_merges::laws::{simplified_indices_laws, three_way_laws};
use jj_merges::merge::{Merge, SameChange, three_way};
use std::alloc::{AllocError, Global};

/// Divides each term by ten. The signed count of a quotient is the sum of those of the distinct
/// terms that have it.
pub fn tens(alloc: Global, terms: &Merge<u32>) -> Result<Merge<u32>, AllocError>
    ensures { IfOk result (λ m. (w : ℕ) → signed_count nat_eq m w
        ≡ sum_if (signed_count nat_eq terms.now) (λ v. nat_eq w (v / 10))
        (distinct nat_eq terms.now)) }
{
    terms.map(alloc, |term: &u32| *term / 10)
}

/// Returns the lengths of the strings. The signed count of a length is the sum of those of the
/// distinct strings of that length.
pub fn lengths(alloc: Global, strings: &Merge<String>) -> Result<Merge<usize>, AllocError>
    ensures { IfOk result (λ m. (n : ℕ) → signed_count nat_eq m n
        ≡ sum_if (signed_count string_eq strings.now) (λ s. nat_eq n (length (string_bytes s)))
        (distinct string_eq strings.now)) }
{
    strings.map(alloc, |s: &String| s.len())
}

/// Resolves a conflict if its signed counts determine one string. Sides that made the same change
/// resolve to it.
pub fn resolve_accepting(strings: &Merge<String>) -> Option<&String>
    ensures { MatchOption result
        ((s : _) → ¬ (ResolvesTo string_eq SameChange.Accept strings.now s))
        (λ s. ResolvesTo string_eq SameChange.Accept strings.now s.now) }
{
    strings.resolve_trivial(SameChange::Accept)
}

/// Merges three strings: returns the side that changed, `ours` if both sides are equal, and `None`
/// if all three differ.
pub fn merge_strings<'a>(
    base: &'a String,
    ours: &'a String,
    theirs: &'a String,
) -> Option<&'a String>
    ensures { MatchOption result
        ((string_bytes base.now ≢ string_bytes ours.now)
        × (string_bytes base.now ≢ string_bytes theirs.now)
        × (string_bytes ours.now ≢ string_bytes theirs.now))
        (λ s. ((string_bytes base.now ≡ string_bytes ours.now) × (s.now ≡ theirs.now))
        ⊎ ((string_bytes base.now ≡ string_bytes theirs.now) × (s.now ≡ ours.now))
        ⊎ ((string_bytes ours.now ≡ string_bytes theirs.now) × (s.now ≡ ours.now))) }
{
    three_way(base, ours, theirs)
}

/// Resolves a conflict of strings without accepting equal changes: of three terms, the side that
/// changed, if the other is equal to the base.
pub fn resolve_keeping(strings: &Merge<String>) -> Option<&String>
    ensures { (left base right : _) → strings.now ≡ left ∷ base ∷ right ∷ [] → MatchOption result
        ((string_bytes base ≢ string_bytes left) × (string_bytes base ≢ string_bytes right))
        (λ s. ((string_bytes base ≡ string_bytes left) × (string_bytes s.now ≡ string_bytes right))
        ⊎ ((string_bytes base ≡ string_bytes right)
        × (string_bytes s.now ≡ string_bytes left))) }
{
    three_way_laws::<String>();
    strings.resolve_trivial(SameChange::Keep)
}

/// Cancels equal strings. Signed counts are unchanged, and no string remains on both sides.
pub fn simplify_strings(alloc: Global, strings: &Merge<String>) -> Result<Merge<String>, AllocError>
    ensures counts { IfOk result (λ m. HaveSameCounts string_eq m strings.now) }
    ensures disjoint { IfOk result (IsDisjoint string_eq) }
{
    strings.simplify(alloc)
}

/// Cancels equal strings of a conflict. Signed counts are unchanged, no string remains on both
/// sides, and each remaining string is one of the conflict's strings and keeps the label of that
/// one, unless no labels remain.
pub fn simplify_labeled(
    alloc: Global,
    labels: &ConflictLabels,
    strings: &Merge<String>,
) -> Result<(ConflictLabels, Merge<String>), AllocError>
    requires { (labels.now ≡ []) ⊎ (length labels.now ≡ length strings.now) }
    ensures counts { IfOk result (λ p. HaveSameCounts string_eq p.1 strings.now) }
    ensures disjoint { IfOk result (λ p. IsDisjoint string_eq p.1) }
    ensures aligned { IfOk result (λ p. (p.0 ≡ []) ⊎ ((k : ℕ) → k < length p.1 → (j : ℕ)
        × (slice_get (map string_bytes p.1) k ≡ slice_get (map string_bytes strings.now) j)
        × (slice_get p.0 k ≡ slice_get labels.now j))) }
{
    simplified_indices_laws::<String>();
    let _terms = strings.as_slice();
    labels.simplify_with(alloc, strings)
}

/// Writes edited terms of a conflict's simplified form into the conflict. The strings that cancel
/// stay where they are. Returns `None` if there are not as many terms as `simplify_strings`
/// returns.
pub fn write_edited(
    alloc: Global,
    strings: Merge<String>,
    edited: Merge<String>,
) -> Result<Option<Merge<String>>, AllocError>
    ensures { IfOk result (λ written. MatchOption written
        (length edited ≢ length (simplified_strings strings)) (IsEdited strings edited)) }
{
    let simplified = strings.simplify(alloc)?;
    if edited.as_slice().len() != simplified.as_slice().len() {
        return Ok(None);
    }
    Ok(Some(strings.update_from_simplified(alloc, edited)?))
}
