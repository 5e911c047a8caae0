//! Graphs as lists of neighbors in arrays. The nodes are numbers, and the neighbors of a node are
//! the list at its index; a number without a list has none. Sets and maps of nodes are sparse sets
//! without hashing, unless some node is far above the numbers of lists and of edges.
ghost use Rattle.std.specs.Prelude.{◌≡◌, ◌<◌, ◌↔◌, ℕ, [], All, Contains, IfOk, IsOkAnd, IsTrue, MatchBool, MatchOption, eqb, length, map};
ghost use Rattle.std.specs.Iterator.{YieldsFirst, item_count};
ghost use Rattle.std.specs.Iterator.Adapters.{copied_source};
ghost use Rattle.std.specs.List.{IsDistinct};
ghost use Rattle.std.specs.List.Sorted.{IsStrictlyIncreasing};
ghost use Rattle.std.specs.Slice.Iter.{iter_rest};
ghost use Rattle.jj_dag.specs.ArrayGraphs.{HasCycle, graph_of};
ghost use Rattle.jj_dag.specs.CommonNodes.{AreClosestCommon, HasNoCommonCycle};
ghost use Rattle.jj_dag.specs.Graph.{AreMaximalElements, IsAcyclicFrom, IsGreatestTopologicalOrder, OnCycleFrom, ReachedFrom};
ghost use Rattle.jj_dag.specs.NumberSets.{keys_of};
ghost use Rattle.jj_dag.specs.Orders.{IsWholePostorder};
ghost use Rattle.jj_dag.specs.Outcomes.{IfFails};
ghost use Rattle.jj_dag.specs.PackedLists.{lists_of};

use crate::closest_common::{NodeState, closest_common_nodes_in};
use crate::greatest_order::topo_order_reverse_ord_in;
use crate::maximal::heads_in;
use crate::node_set::NodeSet;
use crate::number_set::{NumberMap, NumberSet};
use crate::packed_lists::PackedLists;
use crate::topo_order::topo_order_forward_in;
use crate::walk_error::WalkError;
use std::alloc::{AllocError, Global};
use std::iter::Copied;
use std::marker::Model;
use std::slice;

/// A graph in arrays. Its value is the list of the lists of neighbors.
#[derive(Drop)]
pub struct ArrayGraph {
    lists: PackedLists,
    // Sets of nodes below it are dense: the number of lists and edges, and some more.
    dense_end: usize,
    // Whether all neighbors are below `dense_end`.
    has_dense_neighbors: bool,
}

impl Model for ArrayGraph {
    ghost use Rattle.std.specs.Prelude.{ℕ, List};
    ghost use Rattle.jj_dag.specs.PackedLists.{lists_of};

    ghost Value = { List (List ℕ) };

    ghost view = { λ graph. lists_of graph.lists };
}

// Iterates over nodes in the fallible form that `topo_order_reverse_ord_in` takes.
#[derive(Drop)]
struct SoundNodes<'a> {
    nodes: &'a [usize],
}

impl<'a> Iterator for SoundNodes<'a> {
    type Item = Result<usize, usize>;

    ghost use Rattle.jj_dag.specs.SoundNodes.{sound_left};

    ghost next_gives = { YieldsFirst sound_left };

    ghost remaining = { item_count sound_left };

    fn next(&mut self) -> Option<Result<usize, usize>> {
        let (node, others) = self.nodes.split_first()?;
        self.nodes = others;
        Some(Ok(*node))
    }
}

// Returns the neighbors of a node in the fallible form that `topo_order_reverse_ord_in` takes.
fn sound_items_of(graph: &ArrayGraph, node: usize) -> SoundNodes<'_>
    ensures { result.nodes.now ≡ graph_of graph.now node }
{
    SoundNodes {
        nodes: graph.neighbors_of(node),
    }
}

// Returns the neighbors of a node in the fallible form that `closest_common_nodes_in` takes.
fn sound_neighbors_of(
    graph: &ArrayGraph,
    node: usize,
) -> Result<Copied<slice::Iter<'_, usize>>, usize>
    ensures { IsOkAnd result (λ list. iter_rest (copied_source list) ≡ graph_of graph.now node) }
{
    Ok(graph.neighbors_of(node).iter().copied())
}

/// Sets and maps of nodes that several walks share. A walk clears them in constant time if its
/// nodes are small.
#[derive(Drop)]
pub struct Visited {
    pub(crate) heads: NumberSet,
    pub(crate) visited: NumberSet,
    pub(crate) known: NumberMap<NodeState>,
    index_of: NumberMap<usize>,
}

impl Visited {
    /// Creates empty sets and maps.
    pub fn new(alloc: Global) -> Visited {
        Visited {
            heads: NumberSet::new(alloc, true),
            visited: NumberSet::new(alloc, true),
            known: NumberMap::new(alloc, true),
            index_of: NumberMap::new(alloc, true),
        }
    }
}

// Returns a length of arrays that is in proportion to these counts.
fn dense_end(count1: usize, count2: usize) -> usize {
    count1.saturating_add(count2).saturating_add(1024)
}

pub(crate) fn are_below(end: usize, nodes: &[usize]) -> bool
    ensures { IsTrue result → All (λ node. node < end) nodes.now }
{
    nodes.iter().all(|node| *node < end)
}

impl ArrayGraph {
    /// The graph of these complete lists.
    pub fn new(lists: PackedLists) -> ArrayGraph
        ensures { result ≡ lists_of lists }
    {
        let numbers = lists.numbers();
        let dense_end = dense_end(lists.len(), numbers.len());
        let has_dense_neighbors = are_below(dense_end, numbers);
        ArrayGraph {
            lists,
            dense_end,
            has_dense_neighbors,
        }
    }

    /// Copies the lists. Fails if memory runs out.
    pub fn from_lists(alloc: Global, lists: &[Vec<usize>]) -> Result<ArrayGraph, AllocError>
        ensures { IfOk result (λ graph. graph ≡ map (λ list. list.items) lists.now) }
    {
        let mut packed = PackedLists::new(alloc);
        for list in lists {
            packed.push_list(list)?;
        }
        Ok(ArrayGraph::new(packed))
    }

    /// Returns the number of lists.
    pub fn len(&self) -> usize
        ensures { result ≡ length self.now }
    {
        self.lists.len()
    }

    /// Returns the neighbors of a node; none if it has no list.
    pub fn neighbors_of(&self, node: usize) -> &[usize]
        ensures { result.now ≡ graph_of self.now node }
    {
        if node < self.lists.len() {
            self.lists.list(node)
        } else {
            &[]
        }
    }

    // Returns whether arrays up to the greatest node that these starts reach are no longer than the
    // lists, the edges and the starts.
    pub(crate) fn has_dense_nodes(&self, starts: &[usize]) -> bool {
        self.has_dense_neighbors && are_below(dense_end(self.dense_end, starts.len()), starts)
    }

    // Returns the neighbors of all nodes.
    fn all_neighbors(&self) -> &[usize]
        ensures { (node neighbor : ℕ) → Contains (graph_of self.now node) neighbor
            → Contains result.now neighbor }
    {
        self.lists.numbers()
    }

    /// Returns the nodes that the starts reach in depth-first postorder: each after its neighbors.
    /// Fails with a node on a cycle if they reach one, and with `Memory` if memory runs out. Takes
    /// `O(n + e)` for n nodes and e edges.
    pub fn postorder(&self, alloc: Global, starts: &[usize]) -> Result<Vec<usize>, WalkError<usize>>
        ensures order { IfOk result (λ order.
            IsWholePostorder (graph_of self.now) starts.now order.items) }
        ensures cycle { IfFails result (OnCycleFrom (graph_of self.now) starts.now) }
    {
        let is_dense = self.has_dense_nodes(starts);
        let mut visiting = NumberSet::new(alloc, is_dense);
        let mut emitted = NumberSet::new(alloc, is_dense);
        topo_order_forward_in(
            alloc,
            &mut visiting,
            &mut emitted,
            starts.iter().copied(),
            |node: &usize| Ok(*node),
            |node: &usize| self.neighbors_of(*node).iter().copied(),
            |node: usize| node,
        )
    }

    /// Returns a node on a cycle that the starts reach, if they reach one. Fails if memory runs
    /// out. Takes `O(n + e)` for n nodes and e edges.
    pub fn find_cycle(&self, alloc: Global, starts: &[usize]) -> Result<Option<usize>, AllocError>
        ensures { IfOk result (λ found. MatchOption found
            (IsAcyclicFrom (graph_of self.now) starts.now)
            (OnCycleFrom (graph_of self.now) starts.now)) }
    {
        match self.postorder(alloc, starts) {
            Ok(_order) => Ok(None),
            Err(error) => match error {
                WalkError::Node(node) => Ok(Some(node)),
                WalkError::Memory => Err(AllocError),
            },
        }
    }

    /// Returns whether the graph has a cycle. Fails if memory runs out. Takes `O(n + e)`.
    pub fn has_cycle(&self, alloc: Global) -> Result<bool, AllocError>
        ensures { IfOk result (λ cyclic. MatchBool cyclic (HasCycle (graph_of self.now))
            (¬ (HasCycle (graph_of self.now)))) }
    {
        // A cycle passes through neighbors only.
        match self.find_cycle(alloc, self.all_neighbors())? {
            Some(_) => Ok(true),
            None => Ok(false),
        }
    }

    // Depth-first search: returns the nodes that the starts reach, each once. The set is empty
    // before, and has these nodes after.
    fn collect_reachable(
        &self,
        alloc: Global,
        visited: &mut NumberSet,
        starts: &[usize],
    ) -> Result<Vec<usize>, AllocError>
        requires { keys_of visited.old ≡ [] }
        ensures reached { IfOk result (λ found. (node : ℕ) → Contains found.items node
            ↔ ReachedFrom (graph_of self.now) starts.now node) }
        ensures once { IfOk result (λ found. IsDistinct eqb found.items) }
    {
        let mut pending = Vec::from_slice(alloc, starts)?;
        let mut found = Vec::new(alloc);
        while let Some(node) = pending.pop() {
            if visited.insert(node)? {
                found.push(node)?;
                pending.extend_from_slice(self.neighbors_of(node))?;
            }
        }
        Ok(found)
    }

    /// Returns the nodes that the starts reach, with the starts, in ascending order. Fails if
    /// memory runs out. Takes `O(n log n + e)`.
    pub fn reachable(
        &self,
        alloc: Global,
        visited: &mut Visited,
        starts: &[usize],
    ) -> Result<Vec<usize>, AllocError>
        ensures reached { IfOk result (λ found. (node : ℕ) → Contains found.items node
            ↔ ReachedFrom (graph_of self.now) starts.now node) }
        ensures ascending { IfOk result (λ found. IsStrictlyIncreasing found.items) }
    {
        visited.visited.clear(alloc, self.has_dense_nodes(starts));
        let mut found = self.collect_reachable(alloc, &mut visited.visited, starts)?;
        found.sort_unstable();
        Ok(found)
    }

    /// Returns the nodes that the starts reach in the lexicographically greatest topological order.
    /// Fails with a node on a cycle if they reach one, and if memory runs out. Takes
    /// `O(n log n + e)`.
    pub fn greatest_order(
        &self,
        alloc: Global,
        visited: &mut Visited,
        starts: &[usize],
    ) -> Result<Vec<usize>, WalkError<usize>>
        ensures order { IfOk result (λ order.
            IsGreatestTopologicalOrder (graph_of self.now) starts.now order.items) }
        ensures acyclic { IfOk result (λ _. IsAcyclicFrom (graph_of self.now) starts.now) }
        ensures cycle { IfFails result (OnCycleFrom (graph_of self.now) starts.now) }
    {
        visited.index_of.clear(alloc, self.has_dense_nodes(starts));
        let order = topo_order_reverse_ord_in(
            alloc,
            &mut visited.index_of,
            SoundNodes { nodes: starts },
            |node: &usize| Ok(*node),
            |node: &usize| sound_items_of(self, *node),
            |node: usize| node,
        );
        match order {
            Ok(order) => Ok(order),
            Err(error) => match error {
                WalkError::Memory => Err(WalkError::Memory),
                // They reach a cycle.
                WalkError::Node(_) => match self.find_cycle(alloc, starts)? {
                    Some(node) => Err(WalkError::Node(node)),
                    None => unreachable!(),
                },
            },
        }
    }

    /// Returns the starts that no other of them reaches, in ascending order. Fails if memory runs
    /// out. Takes `O(n log n + e)`.
    pub fn heads(
        &self,
        alloc: Global,
        visited: &mut Visited,
        starts: &[usize],
    ) -> Result<Vec<usize>, AllocError>
        ensures maximal { IfOk result (λ heads. IsAcyclicFrom (graph_of self.now) starts.now
            → AreMaximalElements (graph_of self.now) starts.now heads.items) }
        ensures ascending { IfOk result (λ heads. IsAcyclicFrom (graph_of self.now) starts.now
            → IsStrictlyIncreasing heads.items) }
    {
        let is_dense = self.has_dense_nodes(starts);
        visited.heads.clear(alloc, is_dense);
        visited.visited.clear(alloc, is_dense);
        heads_in(
            alloc,
            &mut visited.heads,
            &mut visited.visited,
            starts.iter().copied(),
            |node: &usize| Ok(*node),
            |node: &usize| self.neighbors_of(*node).iter().copied(),
        )?;
        let mut ascending = visited.heads.to_vec(alloc)?;
        ascending.sort_unstable();
        Ok(ascending)
    }

    /// Returns the nodes that both sets reach and that no other such node reaches, in ascending
    /// order. Fails if memory runs out.
    pub fn closest_common_nodes(
        &self,
        alloc: Global,
        visited: &mut Visited,
        set1: &[usize],
        set2: &[usize],
    ) -> Result<Vec<usize>, AllocError>
        ensures closest { IfOk result (λ found.
            HasNoCommonCycle (graph_of self.now) set1.now set2.now
            → AreClosestCommon (graph_of self.now) set1.now set2.now found.items) }
        ensures ascending { IfOk result (λ found.
            HasNoCommonCycle (graph_of self.now) set1.now set2.now
            → IsStrictlyIncreasing found.items) }
    {
        let is_dense = self.has_dense_nodes(set1) && self.has_dense_nodes(set2);
        visited.known.clear(alloc, is_dense);
        let found = closest_common_nodes_in(
            alloc,
            &mut visited.known,
            set1.iter().copied(),
            set2.iter().copied(),
            |node: &usize| Ok(*node),
            |node: &usize| sound_neighbors_of(self, *node),
        );
        match found {
            Ok(mut common) => {
                common.sort_unstable();
                Ok(common)
            }
            Err(error) => match error {
                WalkError::Memory => Err(AllocError),
                // No list of neighbors fails.
                WalkError::Node(_) => unreachable!(),
            },
        }
    }
}
