//! Proved callers: the nodes of a path tree in order.
ghost use Rattle.std.specs.Prelude.{◌≡◌, ◌↔◌, ◌∷◌, ℕ, List, [], Contains, IfOk, IsTrue, MatchOption, Some, map};
ghost use Rattle.std.specs.FinMap.Entries.{below_all};
ghost use Rattle.std.specs.List.Sorted.{IsStrictlySortedBy};
ghost use Rattle.jj_paths.specs.Names.{path_of};
ghost use Rattle.jj_paths.specs.Nodes.{all_nodes, node_at};
ghost use Rattle.jj_paths.specs.Paths.{Name, Path, name_cmp, path_cmp};
ghost use Rattle.jj_paths.specs.Tree.{Tree, children, get, value_at};

use jj_paths::laws::node_list_laws;
use jj_paths::repo_path::{RepoPath, RepoPathComponentBuf};
use jj_paths::repo_path_tree::RepoPathTree;
use std::alloc::{AllocError, Global};

/// Returns a tree with the counts of two paths. Its nodes in preorder, which `get` finds, are in
/// the order of their paths, so no path has two nodes.
pub fn count_two(
    alloc: Global,
    first: RepoPath<'_>,
    second: RepoPath<'_>,
) -> Result<RepoPathTree<u64>, AllocError>
    ensures ordered { IfOk result (λ counts.
        IsStrictlySortedBy path_cmp (map (λ found. found.path) (all_nodes counts))) }
    ensures listed { IfOk result (λ counts. (path : Path) → (node : Tree ℕ)
        → Contains (all_nodes counts) (node_at path node) ↔ (get counts path ≡ Some node)) }
    ensures second { IfOk result (λ counts. value_at counts (path_of second.entry) ≡ Some 2) }
{
    node_list_laws::<u64>();
    let mut counts: RepoPathTree<u64> = RepoPathTree::default(alloc);
    counts.set(first, 1)?;
    counts.set(second, 2)?;
    Ok(counts)
}

/// Returns the first child of the root: its name is less than that of each other child.
#[tactic(auto, using(crate::proofs::FirstChildren::first_steps))]
pub fn first_child(counts: &RepoPathTree<u64>) -> Option<&(RepoPathComponentBuf, RepoPathTree<u64>)>
    ensures { MatchOption result (children counts.now.branches ≡ [])
        (λ entry. (others : List (Name × Tree ℕ)) × (children counts.now.branches
        ≡ entry.now ∷ others) × IsTrue (below_all name_cmp entry.now.0 others)) }
{
    counts.entries().first()
}
