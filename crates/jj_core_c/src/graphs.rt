//! Graphs: topological orders, heads, and closest common nodes.
ghost use Rattle.std.specs.Prelude.{◌≡◌, length, MatchResult};
ghost use Rattle.jj_dag.specs.ArrayGraphs.{HasCycle};
ghost use Rattle.jj_dag.specs.Graph.{IsGreatestTopologicalOrder};
ghost use Rattle.jj_core_c.specs.ArrayGraphs.{AreArrays, AreAscendingCommon, AreAscendingHeads, AreBelow, IsAcyclicGraph, IsGraphCause, IsWalkCause, WritesFound, graph_of};
ghost use Rattle.jj_core_c.specs.Buffers.{Fails};
ghost use Rattle.jj_core_c.specs.Pieces.{pieces_of};
ghost use Rattle.jj_core_c.specs.Statuses.{Accepts, Returns};

use crate::array_graph::{are_all_nodes, are_nodes, graph_of};
use crate::buffers::write_indices;
use crate::error::{Error, status_of};
use crate::pieces::are_ends;
use jj_dag::array_graph::Visited;
use jj_dag::ranked_graph::RankedGraph;
use jj_dag::walk_error::WalkError;
use std::alloc::Global;

// Checks the arrays of a graph, and that it is acyclic.
pub(crate) fn acyclic_graph(
    alloc: Global,
    targets: &[usize],
    ends: &[usize],
) -> Result<RankedGraph, Error>
    ensures { MatchResult result
        (λ graph. (graph ≡ pieces_of targets.now ends.now)
        × (¬ (HasCycle (graph_of targets.now ends.now))) × AreArrays targets.now ends.now)
        (IsGraphCause targets.now ends.now) }
{
    if !are_ends(targets.len(), ends) {
        return Err(Error::Ends);
    }
    if !are_nodes(ends.len(), targets) {
        return Err(Error::Node);
    }
    let lists = graph_of(alloc, targets, ends)?;
    let graph = RankedGraph::new(alloc, lists)?;
    if graph.has_cycle() {
        return Err(Error::Cycle);
    }
    Ok(graph)
}

fn write_order(
    alloc: Global,
    targets: &[usize],
    ends: &[usize],
    nodes: &[usize],
    order: &mut [usize],
) -> Result<usize, Error>
    ensures { MatchResult result
        (Accepts (IsAcyclicGraph targets.now ends.now
        × AreBelow (length ends.now) nodes.now)
        (WritesFound (IsGreatestTopologicalOrder (graph_of targets.now ends.now) nodes.now)
        order.old order.new))
        (Fails order.old order.new (IsWalkCause targets.now ends.now
        (AreBelow (length ends.now) nodes.now)
        (IsGreatestTopologicalOrder (graph_of targets.now ends.now) nodes.now)
        (length order.old))) }
{
    let graph = acyclic_graph(alloc, targets, ends)?;
    if !are_nodes(ends.len(), nodes) {
        return Err(Error::Node);
    }
    let plain = graph.graph();
    let found = match plain.greatest_order(alloc, &mut Visited::new(alloc), nodes) {
        Ok(found) => found,
        Err(error) => match error {
            WalkError::Node(_) => return Err(Error::Cycle),
            WalkError::Memory => return Err(Error::Memory),
        },
    };
    if order.len() < found.len() {
        return Err(Error::Length);
    }
    Ok(write_indices(order, &found))
}

fn write_heads(
    alloc: Global,
    targets: &[usize],
    ends: &[usize],
    nodes: &[usize],
    heads: &mut [usize],
) -> Result<usize, Error>
    ensures { MatchResult result
        (Accepts (IsAcyclicGraph targets.now ends.now
        × AreBelow (length ends.now) nodes.now)
        (WritesFound (AreAscendingHeads (graph_of targets.now ends.now) nodes.now)
        heads.old heads.new))
        (Fails heads.old heads.new (IsWalkCause targets.now ends.now
        (AreBelow (length ends.now) nodes.now)
        (AreAscendingHeads (graph_of targets.now ends.now) nodes.now)
        (length heads.old))) }
{
    let graph = acyclic_graph(alloc, targets, ends)?;
    if !are_nodes(ends.len(), nodes) {
        return Err(Error::Node);
    }
    let found = graph.heads(alloc, &mut Visited::new(alloc), nodes)?;
    if heads.len() < found.len() {
        return Err(Error::Length);
    }
    Ok(write_indices(heads, &found))
}

fn write_common(
    alloc: Global,
    targets: &[usize],
    ends: &[usize],
    set1: &[usize],
    set2: &[usize],
    common: &mut [usize],
) -> Result<usize, Error>
    ensures { MatchResult result
        (Accepts (IsAcyclicGraph targets.now ends.now
        × (AreBelow (length ends.now) set1.now × AreBelow (length ends.now) set2.now))
        (WritesFound (AreAscendingCommon (graph_of targets.now ends.now) set1.now set2.now)
        common.old common.new))
        (Fails common.old common.new (IsWalkCause targets.now ends.now
        (AreBelow (length ends.now) set1.now × AreBelow (length ends.now) set2.now)
        (AreAscendingCommon (graph_of targets.now ends.now) set1.now set2.now)
        (length common.old))) }
{
    let graph = acyclic_graph(alloc, targets, ends)?;
    if !are_all_nodes(ends.len(), set1, set2) {
        return Err(Error::Node);
    }
    let found = graph.closest_common_nodes(alloc, &mut Visited::new(alloc), set1, set2)?;
    if common.len() < found.len() {
        return Err(Error::Length);
    }
    Ok(write_indices(common, &found))
}

/// Writes the nodes that are reachable from `nodes`, each before its targets; the next one is
/// always the greatest possible. Returns their number. O(n log n + targets).
///
/// Errors: `Ends`, `Node`, `Cycle`, `Memory`, `Length`.
#[unsafe(no_mangle)]
pub extern "C" fn jj_graph_order(
    alloc: Global,
    targets: &[usize],
    ends: &[usize],
    nodes: &[usize],
    order: &mut [usize],
) -> i64
    ensures { Returns result
        (Accepts (IsAcyclicGraph targets.now ends.now
        × AreBelow (length ends.now) nodes.now)
        (WritesFound (IsGreatestTopologicalOrder (graph_of targets.now ends.now) nodes.now)
        order.old order.new))
        (Fails order.old order.new (IsWalkCause targets.now ends.now
        (AreBelow (length ends.now) nodes.now)
        (IsGreatestTopologicalOrder (graph_of targets.now ends.now) nodes.now)
        (length order.old))) }
{
    status_of(write_order(alloc, targets, ends, nodes, order))
}

/// Writes those of the nodes that are reachable from no other of them, in ascending order. Returns
/// their number.
///
/// Errors: `Ends`, `Node`, `Cycle`, `Memory`, `Length`.
#[unsafe(no_mangle)]
pub extern "C" fn jj_graph_heads(
    alloc: Global,
    targets: &[usize],
    ends: &[usize],
    nodes: &[usize],
    heads: &mut [usize],
) -> i64
    ensures { Returns result
        (Accepts (IsAcyclicGraph targets.now ends.now
        × AreBelow (length ends.now) nodes.now)
        (WritesFound (AreAscendingHeads (graph_of targets.now ends.now) nodes.now)
        heads.old heads.new))
        (Fails heads.old heads.new (IsWalkCause targets.now ends.now
        (AreBelow (length ends.now) nodes.now)
        (AreAscendingHeads (graph_of targets.now ends.now) nodes.now)
        (length heads.old))) }
{
    status_of(write_heads(alloc, targets, ends, nodes, heads))
}

/// Writes the nodes that both sets reach and that no other such node reaches, in ascending order.
/// Returns their number.
///
/// Errors: `Ends`, `Node`, `Cycle`, `Memory`, `Length`.
#[unsafe(no_mangle)]
pub extern "C" fn jj_graph_common(
    alloc: Global,
    targets: &[usize],
    ends: &[usize],
    set1: &[usize],
    set2: &[usize],
    common: &mut [usize],
) -> i64
    ensures { Returns result
        (Accepts (IsAcyclicGraph targets.now ends.now
        × (AreBelow (length ends.now) set1.now × AreBelow (length ends.now) set2.now))
        (WritesFound (AreAscendingCommon (graph_of targets.now ends.now) set1.now set2.now)
        common.old common.new))
        (Fails common.old common.new (IsWalkCause targets.now ends.now
        (AreBelow (length ends.now) set1.now × AreBelow (length ends.now) set2.now)
        (AreAscendingCommon (graph_of targets.now ends.now) set1.now set2.now)
        (length common.old))) }
{
    status_of(write_common(alloc, targets, ends, set1, set2, common))
}
