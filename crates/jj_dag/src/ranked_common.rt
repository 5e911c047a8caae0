//! Closest common nodes of a ranked graph: expands the pending node of the greatest rank while each
//! side has an open one.
ghost use Rattle.std.specs.Prelude.{◌≡◌, ◌<◌, ◌^◌, ◌&&◌, ◌++◌, ◌∷◌, ℕ, List, [], cond, eqb, IfOk, OnOk, not};
ghost use Rattle.std.specs.BinaryHeap.{heap_items};
ghost use Rattle.std.specs.List.{filter};
ghost use Rattle.jj_dag.specs.ArrayGraphs.{graph_of};
ghost use Rattle.jj_dag.specs.CommonNodes.{AreClosestCommon};
ghost use Rattle.jj_dag.specs.CommonSearch.{IsStarting};
ghost use Rattle.jj_dag.specs.Frontiers.{AreRanked, ListsOpen, model_of_pairs};
ghost use Rattle.jj_dag.specs.NodeStates.{sides_met, state_at};
ghost use Rattle.jj_dag.specs.NumberSets.{entries_of};
ghost use Rattle.jj_dag.specs.Ranks.{AreRanks, rank_in};

use crate::array_graph::ArrayGraph;
use crate::closest_common::{NodeState, Sides, state_of, take_queued};
use crate::frontier::Frontier;
use crate::number_set::NumberMap;
use crate::ranks::Ranks;
use std::alloc::{AllocError, Global};

/// Returns the nodes that both sets reach and that no other such node reaches. Stores the states of
/// nodes in the given map, which must be empty. Fails if memory runs out.
pub fn ranked_closest_in(
    alloc: Global,
    graph: &ArrayGraph,
    ranks: &Ranks,
    known: &mut NumberMap<NodeState>,
    set1: &[usize],
    set2: &[usize],
) -> Result<Vec<usize>, AllocError>
    requires ranks { AreRanks (graph_of graph.now) (rank_in ranks.now) }
    requires none_known { entries_of known.old ≡ [] }
    ensures { IfOk result (λ found.
        AreClosestCommon (graph_of graph.now) set1.now set2.now found.items) }
{
    let mut frontier = Frontier::new(alloc);
    frontier.relax_all(known, ranks, set1, Sides::LEFT)?;
    frontier.relax_all(known, ranks, set2, Sides::RIGHT)?;
    let common = search(alloc, graph, ranks, known, &mut frontier)?;
    closest_of(alloc, known, &common)
}

// Expands pending nodes until a side has no open one. Returns the common nodes that were expanded.
fn search(
    alloc: Global,
    graph: &ArrayGraph,
    ranks: &Ranks,
    known: &mut NumberMap<NodeState>,
    frontier: &mut Frontier,
) -> Result<Vec<usize>, AllocError>
    requires ranks { AreRanks (graph_of graph.now) (rank_in ranks.now) }
    requires ranked { AreRanked (rank_in ranks.now) (heap_items frontier.old.pending) }
    requires listed { ListsOpen (state_at eqb (entries_of known.old)) frontier.old.left.items
        frontier.old.right.items }
    requires small { sides_met (entries_of known.old) < 2 ^ 64 }
    ensures { IfOk result (λ common. (set1 set2 : List ℕ)
        → IsStarting (model_of_pairs (graph_of graph.now)) set1 set2
        (heap_items frontier.old.pending) (state_at eqb (entries_of known.old))
        → AreClosestCommon (graph_of graph.now) set1 set2
        (filter (λ node. not (state_at eqb (entries_of known.new) node).sides.below)
        common.items)) }
{
    let mut common = Vec::new(alloc);
    while let Some(node) = frontier.pop(known) {
        let sides = take_queued(known, &node);
        let neighbors = graph.neighbors_of(node);
        frontier.relax_all(known, ranks, neighbors, sides.propagated())?;
        keep_common(&mut common, sides, node)?;
    }
    Ok(common)
}

// Appends a node that both sets reach.
fn keep_common(common: &mut Vec<usize>, sides: Sides, node: usize) -> Result<(), AllocError>
    ensures { OnOk result (common.new.items ≡ cond (sides.left && sides.right)
        (common.old.items ++ node ∷ []) common.old.items) }
{
    if sides.is_common() {
        common.push(node)?;
    }
    Ok(())
}

// Returns the nodes that no common node is known to reach.
fn closest_of(
    alloc: Global,
    known: &NumberMap<NodeState>,
    common: &[usize],
) -> Result<Vec<usize>, AllocError>
    ensures { IfOk result (λ closest. closest.items
        ≡ filter (λ node. not (state_at eqb (entries_of known.now) node).sides.below) common.now) }
{
    let mut closest = Vec::new(alloc);
    for node in common {
        if !state_of(known, node).sides.below {
            closest.push(*node)?;
        }
    }
    Ok(closest)
}
