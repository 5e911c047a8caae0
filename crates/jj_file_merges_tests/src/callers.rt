//! Proved callers of merges of files.
ghost use Rattle.std.specs.Prelude.{◌≡◌, IfOk, Some, List, ℕ};
ghost use Rattle.jj_merges.specs.declared.merge.SameChange.TheVariants.{Accept};
ghost use Rattle.jj_paths.specs.Paths.{Path};
ghost use Rattle.jj_backend.specs.declared.backend.tree_value.TreeValue.{TreeValue};
ghost use Rattle.jj_backend.specs.declared.backend.tree_value.TreeValue.TheVariants.{Tree as Directory};
ghost use Rattle.jj_trees.specs.MemoryObjects.{objects_of};
ghost use Rattle.jj_trees.specs.TreeMerges.{IsResolved, root_values};
ghost use Rattle.jj_trees.specs.WrittenTrees.{stored_at};

use jj_backend::backend::{BackendResult, TreeId, TreeValue};
use jj_content_merges::files::{FileMergeHunkLevel, MergeOptions};
use jj_file_merges::trees::{FileMerge, merge_files};
use jj_merges::conflict_labels::ConflictLabels;
use jj_merges::merge::{Merge, SameChange};
use jj_trees::memory_backend::MemoryBackend;
use std::alloc::Global;

/// Merges trees in memory, and their files line by line. Each path that resolves has its value in
/// the tree that was written.
pub fn merge_lines(
    alloc: Global,
    backend: &mut MemoryBackend,
    trees: &Merge<TreeId>,
) -> BackendResult<FileMerge>
    ensures { IfOk result (λ merged. (path : Path) (value : TreeValue)
        → IsResolved (objects_of backend.old).trees ⟦<Option<TreeValue> as PartialEq>⟧.eq Accept
        (root_values trees.now) path value
        → stored_at (objects_of backend.new).trees (Some (Directory merged.tree)) path
        ≡ Some value) }
{
    let labels = ConflictLabels::unlabeled(alloc);
    let options = MergeOptions {
        hunk_level: FileMergeHunkLevel::Line,
        same_change: SameChange::Accept,
    };
    merge_files(alloc, backend, trees, &labels, &options, None)
}
