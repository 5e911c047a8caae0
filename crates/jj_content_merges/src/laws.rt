//! Laws of content merges. Each function does nothing, and its contract is the law.
ghost use Rattle.std.specs.Prelude.{◌≡◌, ◌+◌, ◌<◌, ◌∷◌, [], ℕ, List, length, true};
ghost use Rattle.std.specs.List.{slice_index_or};
ghost use Rattle.std.specs.Str.{bytes_eq};
ghost use Rattle.jj_merges.specs.Resolution.{ResolvesTo};
ghost use Rattle.jj_merges.specs.declared.merge.SameChange.{SameChange};
ghost use Rattle.jj_content_merges.specs.declared.files.FileMergeHunkLevel.{FileMergeHunkLevel};
ghost use Rattle.jj_content_merges.specs.Files.{IsContentMerge};
ghost use Rattle.jj_content_merges.specs.Hunks.{joined, merged_side, none_resolved};
ghost use Rattle.jj_content_merges.specs.Measures.{IsAdditive};

use jj_merges::merge::SameChange;

/// A three-way merge keeps each additive measure, as the number of LFs: that of the sides less that
/// of the base is the same before and after. So a merge without conflicts has as many lines as the
/// sides together less those of the base.
pub fn measure_laws()
    ensures { (f : List ℕ → ℕ) → IsAdditive f
        → (level : FileMergeHunkLevel) (left base right : List ℕ) (hunks : List (List (List ℕ)))
        → IsContentMerge level SameChange.Keep (left ∷ base ∷ right ∷ []) hunks
        → f (merged_side 0 hunks) + f (merged_side 2 hunks) + f base
        ≡ f left + f right + f (merged_side 1 hunks) }
{}

/// Joined hunks have the same sides. Where no hunk is resolved, they are the inputs.
pub fn side_laws()
    ensures joined { (i : ℕ) (hunks : List (List (List ℕ)))
        → merged_side i (joined hunks) ≡ merged_side i hunks }
    ensures unresolved { (level : FileMergeHunkLevel) (same : SameChange)
        (inputs : List (List ℕ)) (hunks : List (List (List ℕ)))
        → IsContentMerge level same inputs hunks → none_resolved hunks ≡ true
        → (i : ℕ) → i < length inputs → merged_side i hunks ≡ slice_index_or inputs i [] }
{}

/// A merge of three terms resolves to the side that changed, if the other one did not.
pub fn change_laws()
    // If the left side equals the base, the merge resolves to the right side.
    ensures right { (same : SameChange) (left base right : List ℕ) → left ≡ base
        → ResolvesTo bytes_eq same (left ∷ base ∷ right ∷ []) right }
    // If the right side equals the base, the merge resolves to the left side.
    ensures left { (same : SameChange) (left base right : List ℕ) → base ≡ right
        → ResolvesTo bytes_eq same (left ∷ base ∷ right ∷ []) left }
{}
