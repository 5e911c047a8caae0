//! Laws: empty functions whose contracts state properties of definitions, for use in proofs.
ghost use Rattle.std.specs.Prelude.{◌≡◌, ◌≢◌, ℕ, ◌<◌, List};
ghost use Rattle.jj_conflicts.specs.Conditions.{joined};
ghost use Rattle.jj_conflicts.specs.Rendering.{rendered, IsRendered};
ghost use Rattle.jj_conflicts.specs.Parsing.{parsed};
ghost use Rattle.jj_conflicts.specs.Conditions.{IsMergeOfLines, IsParsable, run_limit};
ghost use Rattle.jj_conflicts.specs.Markers.{chosen_marker_len};
ghost use Rattle.jj_conflicts.specs.declared.conflicts.ConflictMarkerStyle.{ConflictMarkerStyle};

use crate::conflicts::ConflictMarkerStyle;

/// Content rendered from hunks is parsed to these hunks, with adjacent resolved hunks joined, in
/// each style and with any labels: if no line of them is a marker, all conflicts have the same
/// number of sides, and resolved content before another hunk ends in LF.
pub fn rendered_hunks_are_parsed()
    ensures { (style : ConflictMarkerStyle) (marker_len sides : ℕ) (labels : List (List ℕ))
        (hunks : List (List (List ℕ))) (text : List ℕ) → 0 < marker_len
        → IsParsable (run_limit style marker_len) sides hunks
        → IsRendered style marker_len labels hunks text
        → parsed marker_len sides text ≡ joined hunks }
{}

/// In the snapshot style and in Git's style there is one rendering, byte for byte.
pub fn rendering_is_exact()
    ensures { (style : ConflictMarkerStyle) (marker_len : ℕ) (labels : List (List ℕ))
        (hunks : List (List (List ℕ))) (text : List ℕ) → style ≢ ConflictMarkerStyle.Diff
        → IsRendered style marker_len labels hunks text
        → text ≡ rendered style marker_len labels hunks }
{}

/// With the chosen marker length no line of the hunks is a marker, in any style.
pub fn chosen_marker_len_is_parsable()
    // With markers of the chosen length the hunks can be parsed, whatever their lines are.
    ensures len { (style : ConflictMarkerStyle) (sides : ℕ) (hunks : List (List (List ℕ)))
        → IsMergeOfLines sides hunks
        → IsParsable (run_limit style (chosen_marker_len hunks)) sides hunks }
    // The length is not 0.
    ensures positive { (hunks : List (List (List ℕ))) → 0 < chosen_marker_len hunks }
{}
