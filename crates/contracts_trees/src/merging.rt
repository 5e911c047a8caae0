//! Callers of the merges of `jj_trees`.
ghost use Rattle.std.specs.Prelude.{◌≡◌, ◌↔◌, ◌⊎◌, ℕ, List, [], length, Option, Contains, IfOk};
ghost use Rattle.jj_paths.specs.Paths.{Path};
ghost use Rattle.jj_backend.specs.declared.backend.tree_value.TreeValue.{TreeValue};
ghost use Rattle.jj_trees.specs.TreeMerges.{IsConflict, IsResolved, root_values};
ghost use Rattle.jj_trees.specs.WrittenTrees.{IsTreeOf, values_to_write};

use jj_backend::backend::{Backend, BackendResult, TreeId, TreeValue};
use jj_merges::conflict_labels::ConflictLabels;
use jj_merges::merge::{Merge, SameChange};
use jj_trees::tree_merge;
use jj_trees::tree_merge::TreeMerge;
use std::alloc::Global;
use std::num::NonZeroUsize;

/// `merge_trees_within`.
pub fn merge_trees_within<B: Backend>(
    alloc: Global,
    backend: &B,
    trees: &Merge<TreeId>,
    labels: &ConflictLabels,
    same_change: SameChange,
    levels: NonZeroUsize,
) -> BackendResult<TreeMerge>
    requires { (labels.now ≡ []) ⊎ (length labels.now ≡ length trees.now) }
    ensures resolved { IfOk result (λ m. (path : Path) (value : TreeValue) →
        Contains m.resolved.items (path, value)
        ↔ IsResolved (B.objects backend.now).trees ⟦<Option<TreeValue> as PartialEq>⟧.eq same_change
        (root_values trees.now) path value) }
    ensures conflicts { IfOk result (λ m.
        (path : Path) (terms : List (Option TreeValue)) (term_labels : List (List ℕ)) →
        Contains m.conflicts.items (path, terms, term_labels)
        ↔ IsConflict (B.objects backend.now).trees ⟦<Option<TreeValue> as PartialEq>⟧.eq same_change
        (root_values trees.now) labels.now path terms term_labels) }
{
    let merged = tree_merge::merge_trees_within(alloc, backend, trees, labels, same_change, levels);
    merged
}

/// `write_back`.
pub fn write_back<B: Backend>(
    alloc: Global,
    backend: &mut B,
    merge: &TreeMerge,
    chosen: &[Option<TreeValue>],
) -> BackendResult<TreeId>
    requires { length chosen.now ≡ length merge.now.conflicts.items }
    ensures { IfOk result (IsTreeOf (B.objects backend.new).trees (values_to_write
        merge.now.resolved.items merge.now.conflicts.items chosen.now)) }
{
    tree_merge::write_back(alloc, backend, merge, chosen)
}
