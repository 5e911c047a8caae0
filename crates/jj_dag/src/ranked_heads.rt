//! Heads of a ranked graph: depth-first search over the nodes that rank above the least start.
ghost use Rattle.std.specs.Prelude.{◌≡◌, ℕ, [], All, eqb, OnOk};
ghost use Rattle.std.specs.Set.{is_member};
ghost use Rattle.jj_dag.specs.ArrayGraphs.{graph_of};
ghost use Rattle.jj_dag.specs.Graph.{AreMaximalElements};
ghost use Rattle.jj_dag.specs.NumberSets.{keys_of};
ghost use Rattle.jj_dag.specs.PrunedSearches.{VisitsList};
ghost use Rattle.jj_dag.specs.Ranks.{AreRanks, rank_in};

use crate::array_graph::ArrayGraph;
use crate::node_set::NodeSet;
use crate::number_set::NumberSet;
use crate::ranks::Ranks;
use std::alloc::{AllocError, Global};

/// Leaves in the first set the starts that no other of them reaches. Both sets must be empty
/// before. Fails if memory runs out.
pub fn ranked_heads_in(
    alloc: Global,
    graph: &ArrayGraph,
    ranks: &Ranks,
    heads: &mut NumberSet,
    visited: &mut NumberSet,
    starts: &[usize],
) -> Result<(), AllocError>
    requires ranks { AreRanks (graph_of graph.now) (rank_in ranks.now) }
    requires no_heads { keys_of heads.old ≡ [] }
    requires none_visited { keys_of visited.old ≡ [] }
    ensures { OnOk result (AreMaximalElements (graph_of graph.now) starts.now
        (keys_of heads.new)) }
{
    insert_all(heads, starts)?;
    let least = ranks.least_rank(starts);
    let mut pending = Vec::from_slice(alloc, starts)?;
    while let Some(node) = pending.pop() {
        // A set never has 2^63 nodes, so the search ends.
        let _count = visited.len();
        if visited.insert(node)? {
            let neighbors = graph.neighbors_of(node);
            visit_neighbors(ranks, heads, &mut pending, neighbors, least)?;
        }
    }
    // No two keys of a set are equal.
    let _count = heads.len();
    Ok(())
}

// Inserts all nodes of a list into an empty set.
fn insert_all(set: &mut NumberSet, nodes: &[usize]) -> Result<(), AllocError>
    requires { keys_of set.old ≡ [] }
    ensures { OnOk result ((x : ℕ) → is_member eqb (keys_of set.new) x
        ≡ is_member eqb nodes.now x) }
{
    for node in nodes {
        set.insert(*node)?;
    }
    Ok(())
}

// Removes neighbors of a node from the heads, and makes those pending that rank above `least`.
fn visit_neighbors(
    ranks: &Ranks,
    heads: &mut NumberSet,
    pending: &mut Vec<usize>,
    neighbors: &[usize],
    least: usize,
) -> Result<(), AllocError>
    ensures { OnOk result (VisitsList (rank_in ranks.now) least neighbors.now
        (keys_of heads.old) (keys_of heads.new) pending.old.items pending.new.items) }
{
    for neighbor in neighbors {
        heads.remove(neighbor);
        if least < ranks.rank(*neighbor) {
            pending.push(*neighbor)?;
        }
    }
    Ok(())
}
