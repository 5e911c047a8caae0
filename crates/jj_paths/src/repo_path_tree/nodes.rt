//! Lookup, path iteration and insertion relative to a trie node, such as one from
//! `RepoPathTree::add`.
ghost use Rattle.std.specs.Prelude.{◌≡◌, IsSome, IfOk, MatchResult};
ghost use Rattle.std.specs.Option.{option_copied, option_map};
ghost use Rattle.std.specs.List.{All};
ghost use Rattle.std.specs.Iterator.{YieldsFirstBy, item_count};
ghost use Rattle.jj_paths.specs.Names.{path_of};
ghost use Rattle.jj_paths.specs.Children.{remaining_node_walk};
ghost use Rattle.jj_paths.specs.Tree.{Tree, get, put_value, nodes_on, nodes_from, nodes_below, IsOnPath, AddsDefaults, SetsValue};

use super::RepoPathNode;
use crate::repo_path::RepoPath;
use std::alloc::AllocError;

impl<V> RepoPathNode<V> {
    /// Returns the node at a path relative to this node: this node at the root path.
    pub fn get(&self, path: RepoPath<'_>) -> Option<&RepoPathNode<V>>
        ensures { option_copied result ≡ get self.now (path_of path.entry) }
    {
        match path.split_first() {
            None => Some(self),
            Some((name, rest)) => Some(self.child(name)?.get(rest)?.node()),
        }
    }

    // Returns the child at the first component, and the rest of the path.
    fn step<'b>(&self, path: RepoPath<'b>) -> Option<(&RepoPathNode<V>, RepoPath<'b>)>
        ensures { nodes_from (option_map (λ step. (step.0.now, path_of step.1)) result)
            ≡ nodes_below self.now (path_of path.entry) }
    {
        let (name, rest) = path.split_first()?;
        Some((self.child(name)?.node(), rest))
    }

    /// Iterates over the nodes on the way to a path, from this node to the deepest one there is,
    /// each with the rest of the path below it.
    pub fn walk_to<'a, 'b>(&'a self, path: RepoPath<'b>) -> RepoPathNodeWalk<'a, 'b, V>
        ensures on_the_way { remaining_node_walk result ≡ nodes_on self.now (path_of path.entry) }
        ensures parts { All (IsOnPath self.now (path_of path.entry)) (remaining_node_walk result) }
    {
        RepoPathNodeWalk {
            next: Some((self, path)),
        }
    }

    // Inserts the missing nodes on the path, with default values.
    fn extend(&mut self, path: RepoPath<'_>) -> Result<(), AllocError>
    where
        V: Default + Drop,
        ensures there { IfOk result (λ done. IsSome (get self.new (path_of path.entry))) }
        ensures extended { AddsDefaults V.is_default self.old (path_of path.entry) self.new }
    {
        if path.is_root() {
            return Ok(());
        }
        self.first_child_or_default(path)?.extend(path.rest())
    }

    /// Sets the value at a path relative to this node, and inserts the missing nodes on the way,
    /// with default values. After an allocation failure every value is unchanged, but nodes with
    /// default values may have been inserted on the way.
    pub fn set(&mut self, path: RepoPath<'_>, mut value: V) -> Result<(), AllocError>
    where
        V: Default + Drop,
        ensures as_map { IfOk result (λ done.
            SetsValue V.is_default self.old (path_of path.entry) value self.new) }
        ensures edited { MatchResult result (λ done. (t : Tree V)
            × AddsDefaults V.is_default self.old (path_of path.entry) t
            × IsSome (get t (path_of path.entry))
            × (self.new ≡ put_value t (path_of path.entry) value))
            (λ e. AddsDefaults V.is_default self.old (path_of path.entry) self.new) }
    {
        self.swap_value(path, &mut value)
    }

    // Swaps the value with the one at a path, and inserts missing nodes as `extend` does.
    fn swap_value(&mut self, path: RepoPath<'_>, value: &mut V) -> Result<(), AllocError>
    where
        V: Default + Drop,
        ensures edited { MatchResult result (λ done. (t : Tree V)
            × AddsDefaults V.is_default self.old (path_of path.entry) t
            × IsSome (get t (path_of path.entry))
            × (self.new ≡ put_value t (path_of path.entry) value.old))
            (λ e. AddsDefaults V.is_default self.old (path_of path.entry) self.new) }
    {
        if path.is_root() {
            self.swap(value);
            return Ok(());
        }
        self.first_child_or_default(path)?
            .swap_value(path.rest(), value)
    }
}

/// Iterates over the nodes on the way to a path, each with the rest of the path below it.
#[derive(Drop)]
pub struct RepoPathNodeWalk<'a, 'b, V> {
    next: Option<(&'a RepoPathNode<V>, RepoPath<'b>)>,
}

impl<'a, 'b, V> Iterator for RepoPathNodeWalk<'a, 'b, V> {
    type Item = (&'a RepoPathNode<V>, RepoPath<'b>);

    ghost next_gives = { YieldsFirstBy (λ step. (step.0.now, path_of step.1)) remaining_node_walk };

    ghost remaining = { item_count remaining_node_walk };

    fn next(&mut self) -> Option<(&'a RepoPathNode<V>, RepoPath<'b>)> {
        let (node, path) = self.next?;
        self.next = node.step(path);
        Some((node, path))
    }
}
