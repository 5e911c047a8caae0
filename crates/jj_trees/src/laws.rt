//! Laws of merges of trees. Each function does nothing, and its contract is the law.
ghost use Rattle.std.specs.Prelude.{◌≡◌, ◌≢◌, ℕ, ◌<◌, ◌≤◌, Bool, List, [], length, Option, All};
ghost use Rattle.jj_merges.specs.declared.merge.SameChange.{SameChange};
ghost use Rattle.jj_paths.specs.Paths.{Path, IsBelow};
ghost use Rattle.jj_backend.specs.Objects.{ById};
ghost use Rattle.jj_backend.specs.Trees.{Entries};
ghost use Rattle.jj_backend.specs.declared.backend.tree_value.TreeValue.{TreeValue};
ghost use Rattle.jj_trees.specs.TreeMerges.{HasOutcome, IsOpen, IsTreeMerge};
ghost use Rattle.jj_trees.specs.WrittenTrees.{IsPrefixFree, PathValues, values_to_write};

/// The paths with an outcome in a merge of trees, whichever values are chosen for the conflicts.
///
/// - `not_root`: none of them is the root.
/// - `apart`: none is below another.
/// - `prefix_free`: the paths that `write_back` writes are such paths, each once.
/// - `levels`: none has more names than levels of directories were merged.
///
/// So after `merge_trees`, `write_back` fails only out of memory or where a tree cannot be written.
pub fn merged_path_laws()
    ensures not_root { (trees : ById Entries) (eq : Option TreeValue → Option TreeValue → Bool)
        (same_change : SameChange) (values : List (Option TreeValue)) (path : Path)
        → HasOutcome trees eq same_change values path → path ≢ [] }
    ensures apart { (trees : ById Entries) (eq : Option TreeValue → Option TreeValue → Bool)
        (same_change : SameChange) (values : List (Option TreeValue)) (path base : Path)
        → HasOutcome trees eq same_change values path → HasOutcome trees eq same_change values base
        → IsBelow path base → path ≡ base }
    ensures prefix_free { (trees : ById Entries) (eq : Option TreeValue → Option TreeValue → Bool)
        (same_change : SameChange) (values : List (Option TreeValue)) (labels : List (List ℕ))
        (resolved : PathValues) (conflicts : List (Path × List (Option TreeValue) × List (List ℕ)))
        (chosen : List (Option TreeValue))
        → IsTreeMerge trees eq same_change values labels resolved conflicts
        → IsPrefixFree (values_to_write resolved conflicts chosen) }
    ensures levels { (trees : ById Entries) (eq : Option TreeValue → Option TreeValue → Bool)
        (same_change : SameChange) (values : List (Option TreeValue)) (labels : List (List ℕ))
        (resolved : PathValues) (conflicts : List (Path × List (Option TreeValue) × List (List ℕ)))
        (chosen : List (Option TreeValue)) (levels : ℕ)
        → IsTreeMerge trees eq same_change values labels resolved conflicts
        → ((path : Path) → IsOpen trees eq same_change values path → length path < levels)
        → All (λ v. length v.0 ≤ levels) (values_to_write resolved conflicts chosen) }
{}
