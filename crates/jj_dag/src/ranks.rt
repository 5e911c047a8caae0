//! Ranks of the nodes of an acyclic graph: each node ranks above its neighbors.
ghost use Rattle.std.specs.Prelude.{◌≡◌, ◌≤◌, ◌<◌, ◌+◌, ℕ, All, IfOk, IsTrue, eqb, get_or, length};
ghost use Rattle.std.specs.List.{Contains, IsDistinct};
ghost use Rattle.jj_dag.specs.ArrayGraphs.{HasCycle, graph_of};
ghost use Rattle.jj_dag.specs.Graph.{OnCycleFrom, StrictlyReaches};
ghost use Rattle.jj_dag.specs.Outcomes.{IfFails};
ghost use Rattle.jj_dag.specs.Ranks.{AreRanks, rank_in};

use crate::array_graph::{ArrayGraph, are_below};
use crate::walk_error::WalkError;
use std::alloc::{AllocError, Global};

/// How nodes rank.
#[derive(Drop)]
pub enum Ranks {
    /// By their numbers; all neighbors are smaller than their nodes.
    Ascending,
    /// By their numbers, the least first; all neighbors are greater than their nodes.
    Descending,
    /// By these ranks. A node without a list has none, and ranks last.
    Listed(Vec<usize>),
}

impl Ranks {
    /// Ranks the nodes of a graph. Fails with a node on a cycle if there is one, and with `Memory`
    /// if memory runs out. Takes `O(n + e)` for n nodes and e edges.
    pub fn new(alloc: Global, graph: &ArrayGraph) -> Result<Ranks, WalkError<usize>>
        ensures ranks { IfOk result (λ ranks. AreRanks (graph_of graph.now) (rank_in ranks)) }
        ensures cycle { IfFails result (λ node. StrictlyReaches (graph_of graph.now) node node) }
    {
        if has_smaller_neighbors(graph) {
            return Ok(Ranks::Ascending);
        }
        if has_greater_neighbors(graph) {
            return Ok(Ranks::Descending);
        }
        let starts = numbers_below(alloc, graph.len())?;
        let order = graph.postorder(alloc, &starts)?;
        let positions = positions_in(alloc, &order, graph.len())?;
        Ok(Ranks::Listed(positions))
    }

    /// Returns the rank of a node.
    pub fn rank(&self, node: usize) -> usize
        ensures { result ≡ rank_in self.now node }
    {
        match self {
            Ranks::Ascending => node,
            Ranks::Descending => usize::MAX - node,
            Ranks::Listed(ranks) => { if node < ranks.len() { ranks[node] } else { 0 } }
        }
    }

    /// Returns the least rank of these nodes.
    pub fn least_rank(&self, nodes: &[usize]) -> usize
        ensures { All (λ node. result ≤ rank_in self.now node) nodes.now }
    {
        let mut least = usize::MAX;
        for node in nodes {
            least = least.min(self.rank(*node));
        }
        least
    }
}

fn are_above(start: usize, nodes: &[usize]) -> bool
    ensures { IsTrue result → All (λ node. start < node) nodes.now }
{
    nodes.iter().all(|node| start < *node)
}

fn has_smaller_neighbors(graph: &ArrayGraph) -> bool
    ensures { IsTrue result → AreRanks (graph_of graph.now) (rank_in Ranks.Ascending) }
{
    for node in 0..graph.len() {
        if !are_below(node, graph.neighbors_of(node)) {
            return false;
        }
    }
    true
}

fn has_greater_neighbors(graph: &ArrayGraph) -> bool
    ensures { IsTrue result → AreRanks (graph_of graph.now) (rank_in Ranks.Descending) }
{
    for node in 0..graph.len() {
        if !are_above(node, graph.neighbors_of(node)) {
            return false;
        }
    }
    true
}

// Returns all numbers below `count`.
fn numbers_below(alloc: Global, count: usize) -> Result<Vec<usize>, AllocError>
    ensures { IfOk result (λ numbers. (k : ℕ) → k < count → Contains numbers.items k) }
{
    let mut numbers = Vec::new(alloc);
    for number in 0..count {
        numbers.push(number)?;
    }
    Ok(numbers)
}

// Returns the position of each number below `count` in the list, counted from 1, or 0.
fn positions_in(alloc: Global, list: &[usize], count: usize) -> Result<Vec<usize>, AllocError>
    requires { IsDistinct eqb list.now }
    ensures count { IfOk result (λ positions. length positions.items ≡ count) }
    ensures positions { IfOk result (λ positions. (k : ℕ) → k < length list.now
        → get_or list.now k 0 < count
        → get_or positions.items (get_or list.now k 0) 0 ≡ k + 1) }
{
    let mut positions: Vec<usize> = vec![in alloc; 0; count]?;
    for index in 0..list.len() {
        let number = list[index];
        if number < count {
            positions[number] = index + 1;
        }
    }
    Ok(positions)
}
