//! A trie of values keyed by repository paths: each node has a value and a vector of children,
//! sorted by name. The keys are closed under ancestors.
ghost use Rattle.std.specs.Prelude.{◌≡◌, ◌≢◌, Some, IsSome, [], ◌∷◌, IsTrue, IfOk, IfErr, MatchResult};
ghost use Rattle.std.specs.Borrow.{sem, Lends};
ghost use denote.Struct.Tuple.{Tuple};
ghost use Rattle.std.specs.Option.{option_copied, option_map};
ghost use Rattle.std.specs.List.{All};
ghost use Rattle.jj_paths.specs.Paths.{Name, Path, name_cmp, first_of, rest_of};
ghost use Rattle.jj_paths.specs.Names.{name_of, path_of};
ghost use Rattle.std.specs.FinMap.{is_sorted};
ghost use Rattle.std.specs.Iterator.{YieldsFirstBy, item_count};
ghost use Rattle.jj_paths.specs.Tree.{Tree, tree_of, branches_of, none, children, child, get, has_branches, put, put_value, update_child, put_below, nodes_on, nodes_below, nodes_from, IsOnPath, AddsDefaults, WritesAt, SetsValue, AddsDefaultChild, WritesAtChild, IsIndexOf, IsInsertionPoint, IsTreeClone};

mod nodes;

use crate::repo_path::{RepoPath, RepoPathComponent, RepoPathComponentBuf};
pub use nodes::RepoPathNodeWalk;
use std::alloc::{AllocError, Global};
use std::cmp::Ordering;
use std::marker::Model;
use std::{fmt, mem};

/// A trie that maps paths to values. With a path it contains all ancestors of it, so never less
/// than the root.
#[cycle(tree)]
#[derive(Drop)]
pub struct RepoPathTree<V> {
    node: RepoPathNode<V>,
}

/// A node of a trie: its value and its subtrees.
#[cycle(tree)]
pub struct RepoPathNode<V> {
    value: V,
    entries: Vec<(RepoPathComponentBuf, RepoPathTree<V>)>,
}

impl<V> Model for RepoPathTree<V> {
    ghost use Rattle.jj_paths.specs.Tree.{Tree, tree_code, branch_count};
    ghost use Rattle.std.specs.Prelude.{◌+◌, ◌*◌};
    ghost use Rattle.jj_paths.specs.Tree.{below_wrapper};

    ghost Value = { Tree V };

    ghost coded = { tree_code V.code };

    ghost view = { λ t. t.node };

    ghost size = { λ t. 2 * branch_count t.branches + 1 };

    ghost size_decreases = { λ t h. below_wrapper (branch_count t.node.branches) };
}

impl<V> Model for RepoPathNode<V> {
    ghost use Rattle.std.specs.Prelude.{IsTrue, ◌*◌};
    ghost use Rattle.std.specs.FinMap.{is_sorted};
    ghost use Rattle.jj_paths.specs.Paths.{name_cmp};
    ghost use Rattle.jj_paths.specs.Tree.{Tree, tree_of, tree_code, branches_of, branch_count, most_le-branch_count, weight_le-pair};

    ghost Value = { Tree V };

    ghost coded = { tree_code V.code };

    ghost view = { λ t. tree_of t.value (branches_of t.entries.items) };

    ghost invariant = { λ t. IsTrue (is_sorted name_cmp t.entries.items) };

    ghost size = { λ t. 2 * branch_count t.branches };

    ghost size_decreases = { λ t h. most_le-branch_count _ weight_le-pair t.entries.items };
}

/// Depth-first traversal with pointer reversal (Deutsch, Schorr and Waite), so that dropping a deep
/// tree takes constant stack and no memory. On the way down, the entry of the visited child stores
/// the entries above its parent instead of its own children: they lead back up.
impl<V: Drop> Drop for RepoPathNode<V> {
    fn drop(self) {
        let mut current = self.into_entries();
        let mut above = Vec::new(*current.allocator());
        loop {
            match current.pop() {
                Some((name, tree)) => {
                    let (value, below) = tree.into_parts();
                    let way_up = RepoPathTree::from_parts(value, above);
                    if let Err(_) = current.push((name, way_up)) {
                        unreachable!();
                    }
                    above = current;
                    current = below;
                }
                None => match above.pop() {
                    Some((_name, way_up)) => {
                        let (_value, further_up) = way_up.into_parts();
                        current.destroy_empty();
                        current = above;
                        above = further_up;
                    }
                    None => {
                        current.destroy_empty();
                        above.destroy_empty();
                        return;
                    }
                },
            }
        }
    }
}

impl<V> RepoPathNode<V> {
    fn into_entries(self) -> Vec<(RepoPathComponentBuf, RepoPathTree<V>)>
    where
        V: Drop,
        ensures by_name { IsTrue (is_sorted name_cmp result.items) }
    {
        let RepoPathNode {
            value: _value,
            entries,
        } = self;
        entries
    }

    fn into_parts(self) -> (V, Vec<(RepoPathComponentBuf, RepoPathTree<V>)>)
        ensures parts { self ≡ tree_of result.0 (branches_of result.1.items) }
        ensures by_name { IsTrue (is_sorted name_cmp result.1.items) }
    {
        let RepoPathNode { value, entries } = self;
        (value, entries)
    }
}

impl<V> RepoPathTree<V> {
    fn into_parts(self) -> (V, Vec<(RepoPathComponentBuf, RepoPathTree<V>)>)
        ensures parts { self ≡ tree_of result.0 (branches_of result.1.items) }
        ensures by_name { IsTrue (is_sorted name_cmp result.1.items) }
    {
        let RepoPathTree { node } = self;
        node.into_parts()
    }

    fn from_parts(
        value: V,
        entries: Vec<(RepoPathComponentBuf, RepoPathTree<V>)>,
    ) -> RepoPathTree<V>
        requires { IsTrue (is_sorted name_cmp entries.items) }
        ensures { result ≡ tree_of value (branches_of entries.items) }
    {
        RepoPathTree {
            node: RepoPathNode { value, entries },
        }
    }
}

impl<V> RepoPathNode<V> {
    ghost use Rattle.std.specs.Borrow.{sem, Lends};
    ghost use Rattle.jj_paths.specs.TreeLends.{LendsChild};
    ghost use Rattle.jj_paths.specs.contracts.repo_path_tree.RepoPathNode.{the_row};
    ghost use Rattle.jj_paths.specs.contracts.repo_path_tree.RepoPathTree as tree;
    ghost use Rattle.jj_paths.specs.Names.{name_of, path_of};
    ghost use Rattle.jj_paths.specs.Children.{remaining_children};

    /// Returns the value of the node.
    pub fn value(&self) -> &V
        ensures { result.now ≡ self.now.value }
    {
        &self.value
    }

    /// Sets the value of the node.
    pub fn set_value(&mut self, value: V)
    where
        V: Drop,
        ensures { self.new ≡ tree_of value self.old.branches }
    {
        self.value = value;
    }

    fn swap(&mut self, value: &mut V)
        ensures { self.new ≡ tree_of value.old self.old.branches }
    {
        mem::swap(&mut self.value, value);
    }

    /// Returns whether the node has children.
    pub fn has_children(&self) -> bool
        ensures { result ≡ has_branches self.now.branches }
    {
        !self.entries.is_empty()
    }

    /// Iterates over the children, in name order.
    pub fn children(&self) -> RepoPathTreeChildren<'_, V>
        ensures listed { remaining_children result ≡ children self.now.branches }
        ensures by_name { IsTrue (is_sorted name_cmp (children self.now.branches)) }
    {
        RepoPathTreeChildren {
            entries: self.entries.as_slice(),
        }
    }

    /// Returns the children as a slice, in name order, with their owned names.
    pub fn entries(&self) -> &[(RepoPathComponentBuf, RepoPathTree<V>)]
        ensures listed { result.now ≡ children self.now.branches }
        ensures by_name { IsTrue (is_sorted name_cmp (children self.now.branches)) }
    {
        self.entries.as_slice()
    }

    /// Returns the child with this name. O(log n) name comparisons for n children, and only one if
    /// no child has a greater name.
    pub fn child(&self, name: RepoPathComponent<'_>) -> Option<&RepoPathTree<V>>
        ensures { option_copied result ≡ child self.now.branches (name_of name.entry) }
    {
        match find_child(&self.entries, name) {
            Ok(at) => Some(&self.entries[at].1),
            Err(_) => None,
        }
    }

    /// Returns the value of the node, mutably.
    pub fn value_mut(&mut self) -> &mut V
        ensures* writes_back { sem 𝓛 (Lends (the_row V.row) V.row self.entry result
            (λ w. tree_of w self.old.branches)) }
        ensures value { result.now ≡ self.old.value }
    {
        &mut self.value
    }

    // Inserts a child with a default value if there is none with this name.
    fn child_or_default(
        &mut self,
        name: RepoPathComponent<'_>,
    ) -> Result<&mut RepoPathTree<V>, AllocError>
    where
        V: Default + Drop,
        ensures* loan { sem 𝓛
            (LendsChild V.row V.is_default self.entry (name_of name.entry) result) }
        ensures child { IfOk result (λ sub. (t : Tree V)
            × AddsDefaultChild V.is_default self.old (name_of name.entry) t
            × (child t.branches (name_of name.entry) ≡ Some sub.now)) }
    {
        match find_child(&self.entries, name) {
            Ok(at) => Ok(second_mut(&mut self.entries[at])),
            Err(at) => {
                let alloc = *self.entries.allocator();
                let tree = RepoPathTree::new(alloc, V::default());
                let owned = name.to_owned(alloc)?;
                self.entries.insert(at, (owned, tree))?;
                Ok(second_mut(&mut self.entries[at]))
            }
        }
    }

    // `child_or_default` for the first component of a path.
    #[inline(never)]
    fn first_child_or_default(
        &mut self,
        path: RepoPath<'_>,
    ) -> Result<&mut RepoPathTree<V>, AllocError>
    where
        V: Default + Drop,
        requires { path_of path ≢ [] }
        ensures* loan { sem 𝓛 (LendsChild V.row V.is_default self.entry
            (first_of (path_of path.entry)) result) }
        ensures child { IfOk result (λ sub. (t : Tree V)
            × AddsDefaultChild V.is_default self.old (first_of (path_of path.entry)) t
            × (child t.branches (first_of (path_of path.entry)) ≡ Some sub.now)) }
    {
        match path.split_first() {
            None => unreachable!(),
            Some((name, _rest)) => self.child_or_default(name),
        }
    }

    fn child_mut(&mut self, name: RepoPathComponent<'_>) -> &mut RepoPathTree<V>
        requires { IsSome (child self.old.branches (name_of name)) }
        ensures* writes_back { sem 𝓛 (Lends (the_row V.row) (tree.the_row V.row) self.entry result
            (λ w. tree_of self.old.value
            (update_child self.old.branches (name_of name.entry) (λ sub. w)))) }
        ensures value { child self.old.branches (name_of name.entry) ≡ Some result.now }
    {
        match find_child(&self.entries, name) {
            Ok(at) => second_mut(&mut self.entries[at]),
            Err(_) => unreachable!(),
        }
    }
}

impl<V> RepoPathNode<V> {
    ghost use Rattle.std.specs.Borrow.{sem, Lends};
    ghost use Rattle.jj_paths.specs.contracts.repo_path_tree.RepoPathNode.{the_row};
    ghost use Rattle.jj_paths.specs.contracts.repo_path_tree.RepoPathTree as tree;
    ghost use Rattle.jj_paths.specs.Names.{name_of, path_of};

    // Returns the child at the first component of a path.
    fn step_mut(&mut self, path: RepoPath<'_>) -> &mut RepoPathTree<V>
        requires { IsSome (get self.old (path_of path)) × (path_of path ≢ []) }
        ensures* writes_back { sem 𝓛 (Lends (the_row V.row) (tree.the_row V.row) self.entry result
            (put_below self.old (path_of path.entry))) }
        ensures value { (get self.old (path_of path.entry)
            ≡ get result.now (rest_of (path_of path.entry)))
            × ((w : Tree V) → put_below self.old (path_of path.entry)
            (put result.now (rest_of (path_of path.entry)) w)
            ≡ put self.old (path_of path.entry) w) }
    {
        match path.split_first() {
            None => unreachable!(),
            Some((name, _rest)) => self.child_mut(name),
        }
    }
}

impl<V> RepoPathTree<V> {
    ghost use Rattle.std.specs.Borrow.{sem, Lends};
    ghost use Rattle.jj_paths.specs.TreeLends.{LendsNodeAt};
    ghost use Rattle.jj_paths.specs.contracts.repo_path_tree.RepoPathTree.{the_row};
    ghost use Rattle.jj_paths.specs.contracts.repo_path_tree.RepoPathNode as node;
    ghost use Rattle.jj_paths.specs.Names.{name_of, path_of};
    ghost use Rattle.jj_paths.specs.Children.{remaining_children, remaining_walk};

    /// Creates a tree of the root only, with a default value.
    pub fn default(alloc: Global) -> RepoPathTree<V>
    where
        V: Default,
        ensures value { V.is_default result.value }
        ensures alone { result.branches ≡ none }
    {
        RepoPathTree::new(alloc, V::default())
    }

    // Creates a tree of a root without children.
    fn new(alloc: Global, value: V) -> RepoPathTree<V>
        ensures { result ≡ tree_of value none }
    {
        RepoPathTree {
            node: RepoPathNode {
                value,
                entries: Vec::new(alloc),
            },
        }
    }

    /// Returns the node of the root.
    pub fn node(&self) -> &RepoPathNode<V>
        ensures { result.now ≡ self.now }
    {
        &self.node
    }

    /// Returns the value of the root.
    pub fn value(&self) -> &V
        ensures { result.now ≡ self.now.value }
    {
        self.node.value()
    }

    /// Returns the value of the root, mutably.
    pub fn value_mut(&mut self) -> &mut V
        ensures* writes_back { sem 𝓛 (Lends (the_row V.row) V.row self.entry result
            (λ w. tree_of w self.old.branches)) }
        ensures value { result.now ≡ self.old.value }
    {
        self.own_node().value_mut()
    }

    /// Sets the value of the root.
    pub fn set_value(&mut self, value: V)
    where
        V: Drop,
        ensures { self.new ≡ tree_of value self.old.branches }
    {
        self.node.set_value(value);
    }

    /// Returns whether the root has children.
    pub fn has_children(&self) -> bool
        ensures { result ≡ has_branches self.now.branches }
    {
        self.node.has_children()
    }

    /// Iterates over the children of the root, in name order.
    pub fn children(&self) -> RepoPathTreeChildren<'_, V>
        ensures listed { remaining_children result ≡ children self.now.branches }
        ensures by_name { IsTrue (is_sorted name_cmp (children self.now.branches)) }
    {
        self.node.children()
    }

    /// Returns the children of the root as a slice, in name order, with their owned names.
    pub fn entries(&self) -> &[(RepoPathComponentBuf, RepoPathTree<V>)]
        ensures listed { result.now ≡ children self.now.branches }
        ensures by_name { IsTrue (is_sorted name_cmp (children self.now.branches)) }
    {
        self.node.entries()
    }

    /// Returns the child of the root with this name.
    pub fn child(&self, name: RepoPathComponent<'_>) -> Option<&RepoPathTree<V>>
        ensures { option_copied result ≡ child self.now.branches (name_of name.entry) }
    {
        self.node.child(name)
    }

    /// Returns the subtree at a path. O(k log n) name comparisons for k components and at most n
    /// children per node.
    pub fn get(&self, path: RepoPath<'_>) -> Option<&RepoPathTree<V>>
        ensures { option_copied result ≡ get self.now (path_of path.entry) }
    {
        let mut tree = self;
        let mut rest = path;
        while let Some((name, below)) = rest.split_first() {
            tree = tree.child(name)?;
            rest = below;
        }
        Some(tree)
    }

    // Returns the child at the first component, and the rest of the path.
    fn step<'b>(&self, path: RepoPath<'b>) -> Option<(&RepoPathTree<V>, RepoPath<'b>)>
        ensures { nodes_from (option_map (λ step. (step.0.now, path_of step.1)) result)
            ≡ nodes_below self.now (path_of path.entry) }
    {
        let (name, rest) = path.split_first()?;
        Some((self.child(name)?, rest))
    }

    /// Iterates over the subtrees on the way to a path, from this tree to the deepest one there is,
    /// each with the rest of the path below it.
    pub fn walk_to<'a, 'b>(&'a self, path: RepoPath<'b>) -> RepoPathTreeWalk<'a, 'b, V>
        ensures on_the_way { remaining_walk result ≡ nodes_on self.now (path_of path.entry) }
        ensures parts { All (IsOnPath self.now (path_of path.entry)) (remaining_walk result) }
    {
        RepoPathTreeWalk {
            next: Some((self, path)),
        }
    }

    fn own_node(&mut self) -> &mut RepoPathNode<V>
        ensures* writes_back { sem 𝓛 (Lends (the_row V.row) (node.the_row V.row) self.entry result
            (λ w. w)) }
        ensures value { result.now ≡ self.old }
    {
        &mut self.node
    }

    fn node_mut(&mut self, path: RepoPath<'_>) -> &mut RepoPathNode<V>
        requires { IsSome (get self.old (path_of path)) }
        ensures* writes_back { sem 𝓛 (Lends (the_row V.row) (node.the_row V.row) self.entry result
            (put self.old (path_of path.entry))) }
        ensures value { get self.old (path_of path.entry) ≡ Some result.now }
    {
        let node = self.own_node();
        if path.is_root() {
            return node;
        }
        node.step_mut(path).node_mut(path.rest())
    }

    // Inserts the missing nodes on the path, with default values.
    fn extend(&mut self, path: RepoPath<'_>) -> Result<(), AllocError>
    where
        V: Default + Drop,
        ensures there { IfOk result (λ done. IsSome (get self.new (path_of path.entry))) }
        ensures extended { AddsDefaults V.is_default self.old (path_of path.entry) self.new }
    {
        if path.is_root() {
            return Ok(());
        }
        self.node.first_child_or_default(path)?.extend(path.rest())
    }

    /// Returns the node at a path, mutably, and first inserts the missing nodes on the path, with
    /// default values. After an allocation failure every value is unchanged, but nodes with default
    /// values may have been inserted at ancestors of the path.
    pub fn add(&mut self, path: RepoPath<'_>) -> Result<&mut RepoPathNode<V>, AllocError>
    where
        V: Default + Drop,
        ensures* loan { sem 𝓛
            (LendsNodeAt V.row V.is_default self.entry (path_of path.entry) result) }
        ensures node { IfOk result (λ node. (t : Tree V)
            × AddsDefaults V.is_default self.old (path_of path.entry) t
            × (get t (path_of path.entry) ≡ Some node.now)) }
    {
        self.extend(path)?;
        Ok(self.node_mut(path))
    }

    /// Sets the value at a path, and inserts missing nodes as `add` does. After an allocation
    /// failure the tree is as after a failed `add`.
    pub fn set(&mut self, path: RepoPath<'_>, mut value: V) -> Result<(), AllocError>
    where
        V: Default + Drop,
        // The path has the value and all other values are unchanged; new ones are at most default
        // values at ancestors of the path.
        ensures as_map { IfOk result (λ done.
            SetsValue V.is_default self.old (path_of path.entry) value self.new) }
        // After an error all values are unchanged; new ones are at most default values at the path
        // and its ancestors.
        ensures edited { MatchResult result (λ done. (t : Tree V)
            × AddsDefaults V.is_default self.old (path_of path.entry) t
            × IsSome (get t (path_of path.entry))
            × (self.new ≡ put_value t (path_of path.entry) value))
            (λ e. AddsDefaults V.is_default self.old (path_of path.entry) self.new) }
    {
        self.swap_value(path, &mut value)
    }

    // Swaps the value with the one at a path, and inserts missing nodes as `add` does. The value is
    // passed by reference, since a recursion that moves a value is not compiled to a loop.
    fn swap_value(&mut self, path: RepoPath<'_>, value: &mut V) -> Result<(), AllocError>
    where
        V: Default + Drop,
        ensures edited { MatchResult result (λ done. (t : Tree V)
            × AddsDefaults V.is_default self.old (path_of path.entry) t
            × IsSome (get t (path_of path.entry))
            × (self.new ≡ put_value t (path_of path.entry) value.old))
            (λ e. AddsDefaults V.is_default self.old (path_of path.entry) self.new) }
    {
        if path.is_root() {
            self.node.swap(value);
            return Ok(());
        }
        self.node
            .first_child_or_default(path)?
            .swap_value(path.rest(), value)
    }
}

impl<V: Clone + Drop> RepoPathTree<V> {
    /// Clones the tree, in the allocator of the original.
    #[cycle(copies)]
    pub fn clone(&self) -> Result<RepoPathTree<V>, AllocError>
        ensures clones { IfOk result (IsTreeClone V.is_clone self.now) }
        ensures equal { IfOk result (λ copy. ((value copied : V) → V.is_clone value copied
            → copied ≡ value) → copy ≡ self.now) }
    {
        Ok(RepoPathTree {
            node: self.node.clone()?,
        })
    }
}

impl<V: Clone + Drop> RepoPathNode<V> {
    /// Clones the node and its subtrees.
    #[cycle(copies)]
    pub fn clone(&self) -> Result<RepoPathNode<V>, AllocError>
        ensures clones { IfOk result (IsTreeClone V.is_clone self.now) }
        ensures equal { IfOk result (λ copy. ((value copied : V) → V.is_clone value copied
            → copied ≡ value) → copy ≡ self.now) }
    {
        let value = self.value.clone()?;
        let mut entries = Vec::with_capacity(*self.entries.allocator(), self.entries.len())?;
        for (name, tree) in &self.entries {
            entries.push((name.clone()?, tree.clone()?))?;
        }
        Ok(RepoPathNode { value, entries })
    }
}

/// Trees are equal if they have the same paths with equal values.
impl<V: PartialEq> PartialEq for RepoPathTree<V> {
    ghost use Rattle.jj_paths.specs.Equal.{tree_eq, tree_per};

    ghost eq = { tree_eq V.eq };

    ghost laws = { tree_per V.laws };

    #[cycle(equals)]
    fn eq(&self, other: &RepoPathTree<V>) -> bool {
        self.node == other.node
    }
}

impl<V: Eq> Eq for RepoPathTree<V> {
    ghost use Rattle.jj_paths.specs.Equal.{tree_equiv};

    ghost laws = { tree_equiv V.Eq.laws };
}

impl<V: PartialEq> PartialEq for RepoPathNode<V> {
    ghost use Rattle.jj_paths.specs.Equal.{tree_eq, tree_per};

    ghost eq = { tree_eq V.eq };

    ghost laws = { tree_per V.laws };

    #[cycle(equals)]
    fn eq(&self, other: &RepoPathNode<V>) -> bool {
        if self.value != other.value {
            return false;
        }
        let (mine, theirs) = (self.entries.as_slice(), other.entries.as_slice());
        if mine.len() != theirs.len() {
            return false;
        }
        for (i, child) in mine.iter().enumerate() {
            let other_child = &theirs[i];
            if child.0 != other_child.0 || !child.1.eq(&other_child.1) {
                return false;
            }
        }
        true
    }
}

impl<V: Eq> Eq for RepoPathNode<V> {
    ghost use Rattle.jj_paths.specs.Equal.{tree_equiv};

    ghost laws = { tree_equiv V.Eq.laws };
}

/// The value of the root, then a map from the names of the children to their subtrees.
impl<V: fmt::Debug> fmt::Debug for RepoPathTree<V> {
    #[cycle(shown)]
    fn fmt<W: fmt::Write>(&self, f: &mut fmt::Formatter<W>) -> fmt::Result {
        self.node.fmt(f)
    }
}

impl<V: fmt::Debug> fmt::Debug for RepoPathNode<V> {
    #[cycle(shown)]
    fn fmt<W: fmt::Write>(&self, f: &mut fmt::Formatter<W>) -> fmt::Result {
        self.value.fmt(f)?;
        f.write_str(" ")?;
        let mut children = f.debug_map();
        for (name, tree) in &self.entries {
            children.entry(name, tree);
        }
        children.finish()
    }
}

/// Iterates over the children of a node, in name order.
#[derive(Drop)]
pub struct RepoPathTreeChildren<'a, V> {
    entries: &'a [(RepoPathComponentBuf, RepoPathTree<V>)],
}

impl<'a, V> Iterator for RepoPathTreeChildren<'a, V> {
    type Item = (RepoPathComponent<'a>, &'a RepoPathTree<V>);

    ghost next_gives = { YieldsFirstBy (λ child. (name_of child.0, child.1.now))
        (λ left. left.entries.now) };

    ghost remaining = { item_count (λ left. left.entries.now) };

    fn next(&mut self) -> Option<(RepoPathComponent<'a>, &'a RepoPathTree<V>)> {
        let (first, others) = self.entries.split_first()?;
        self.entries = others;
        Some((first.0.as_component(), &first.1))
    }
}

/// Iterates over the subtrees on the way to a path, each with the rest of the path below it.
#[derive(Drop)]
pub struct RepoPathTreeWalk<'a, 'b, V> {
    next: Option<(&'a RepoPathTree<V>, RepoPath<'b>)>,
}

impl<'a, 'b, V> Iterator for RepoPathTreeWalk<'a, 'b, V> {
    ghost use Rattle.jj_paths.specs.Children.{remaining_walk};

    type Item = (&'a RepoPathTree<V>, RepoPath<'b>);

    ghost next_gives = { YieldsFirstBy (λ step. (step.0.now, path_of step.1)) remaining_walk };

    ghost remaining = { item_count remaining_walk };

    fn next(&mut self) -> Option<(&'a RepoPathTree<V>, RepoPath<'b>)> {
        let (tree, path) = self.next?;
        self.next = tree.step(path);
        Some((tree, path))
    }
}

fn second_mut<A, B>(pair: &mut (A, B)) -> &mut B
    ensures* writes_back { sem 𝓛 (Lends (Tuple (A.row ∷ B.row ∷ [])) B.row pair.entry result
        (λ w. (pair.old.0, w))) }
    ensures value { result.now ≡ pair.old.1 }
{
    &mut pair.1
}

// The index of the name, or of its insertion point. Compares with the last name first, so that
// insertions in name order need one comparison each.
fn find_child<V>(
    entries: &[(RepoPathComponentBuf, RepoPathTree<V>)],
    name: RepoPathComponent<'_>,
) -> Result<usize, usize>
    requires { IsTrue (is_sorted name_cmp entries.now) }
    ensures found { IfOk result (λ at. IsIndexOf entries.now (name_of name.entry) at) }
    ensures absent { IfErr result (λ at. IsInsertionPoint entries.now (name_of name.entry) at) }
{
    let Some(last) = entries.last() else {
        return Err(0);
    };
    match last.0.as_component().cmp(&name) {
        Ordering::Less => Err(entries.len()),
        Ordering::Equal => Ok(entries.len() - 1),
        Ordering::Greater => search_children(entries, name),
    }
}

fn search_children<V>(
    entries: &[(RepoPathComponentBuf, RepoPathTree<V>)],
    name: RepoPathComponent<'_>,
) -> Result<usize, usize>
    requires { IsTrue (is_sorted name_cmp entries.now) }
    ensures found { IfOk result (λ at. IsIndexOf entries.now (name_of name.entry) at) }
    ensures absent { IfErr result (λ at. IsInsertionPoint entries.now (name_of name.entry) at) }
{
    entries.binary_search_by(
        move |entry| -> Ordering
            ensures { result ≡ name_cmp entry.now.0 (name_of name.entry) }
        { entry.0.as_component().cmp(&name) },
    )
}
