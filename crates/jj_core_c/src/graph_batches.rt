//! Many questions to one graph: a call reads the graph and checks it once.
ghost use Rattle.std.specs.Prelude.{◌≡◌, ◌∷◌, [], IfOk, List, MatchResult, length, ℕ};
ghost use Rattle.jj_dag.specs.ArrayGraphs.{HasCycle};
ghost use Rattle.jj_dag.specs.ArrayGraphs.{graph_of as lists_graph};
ghost use Rattle.jj_core_c.specs.ArrayGraphs.{AreAscendingHeads, AreBelow, IsAcyclicGraph, WritesFound, graph_of};
ghost use Rattle.jj_core_c.specs.GraphBatches.{AreCommonOfEach, AreHeadsOfEach, ArePairs, AreSets, FailsBoth, IsBatchCause, Joins, WritesJoined};
ghost use Rattle.jj_core_c.specs.Statuses.{Accepts, Returns};

use crate::array_graph::{are_all_nodes, are_nodes};
use crate::error::{Error, status_of};
use crate::graphs::acyclic_graph;
use crate::joined_lists::{JoinedLists, write_joined};
use crate::pieces::{are_ends, piece_at};
use jj_dag::array_graph::Visited;
use jj_dag::ranked_graph::RankedGraph;
use std::alloc::{AllocError, Global};

// Returns the heads of each set of nodes.
fn heads_of_each(
    alloc: Global,
    graph: &RankedGraph,
    nodes: &[usize],
    ends: &[usize],
) -> Result<JoinedLists, AllocError>
    requires sets { AreSets nodes.now ends.now }
    requires acyclic { ¬ (HasCycle (lists_graph graph.now)) }
    ensures { IfOk result (λ lists. (found : List (List ℕ)) × Joins found lists
        × AreHeadsOfEach (lists_graph graph.now) nodes.now ends.now found) }
{
    let mut visited = Visited::new(alloc);
    let mut lists = JoinedLists::new(alloc);
    for index in 0..ends.len() {
        let heads = graph.heads(alloc, &mut visited, piece_at(nodes, ends, index))?;
        lists.push(heads.as_slice())?;
    }
    Ok(lists)
}

// Returns the closest common nodes of each pair of sets.
fn common_of_each(
    alloc: Global,
    graph: &RankedGraph,
    set1: &[usize],
    ends1: &[usize],
    set2: &[usize],
    ends2: &[usize],
) -> Result<JoinedLists, AllocError>
    requires pairs { ArePairs set1.now ends1.now set2.now ends2.now }
    requires acyclic { ¬ (HasCycle (lists_graph graph.now)) }
    ensures { IfOk result (λ lists. (found : List (List ℕ)) × Joins found lists
        × AreCommonOfEach (lists_graph graph.now) set1.now ends1.now set2.now ends2.now found) }
{
    let mut visited = Visited::new(alloc);
    let mut lists = JoinedLists::new(alloc);
    for index in 0..ends1.len() {
        let nodes1 = piece_at(set1, ends1, index);
        let nodes2 = piece_at(set2, ends2, index);
        let common = graph.closest_common_nodes(alloc, &mut visited, nodes1, nodes2)?;
        lists.push(common.as_slice())?;
    }
    Ok(lists)
}

fn write_heads_each(
    alloc: Global,
    targets: &[usize],
    ends: &[usize],
    nodes: &[usize],
    node_ends: &[usize],
    heads: &mut [usize],
    head_ends: &mut [usize],
) -> Result<usize, Error>
    ensures { MatchResult result
        (Accepts (IsAcyclicGraph targets.now ends.now × (AreSets nodes.now node_ends.now
        × AreBelow (length ends.now) nodes.now))
        (WritesJoined (AreHeadsOfEach (graph_of targets.now ends.now) nodes.now node_ends.now)
        heads.old heads.new head_ends.old head_ends.new))
        (FailsBoth heads.old heads.new head_ends.old head_ends.new
        (IsBatchCause targets.now ends.now (AreSets nodes.now node_ends.now)
        (AreBelow (length ends.now) nodes.now)
        (AreHeadsOfEach (graph_of targets.now ends.now) nodes.now node_ends.now)
        (length heads.old) (length head_ends.old))) }
{
    let graph = acyclic_graph(alloc, targets, ends)?;
    if !are_ends(nodes.len(), node_ends) {
        return Err(Error::Ends);
    }
    if !are_nodes(ends.len(), nodes) {
        return Err(Error::Node);
    }
    let lists = heads_of_each(alloc, &graph, nodes, node_ends)?;
    write_joined(&lists, heads, head_ends)
}

fn write_common_each(
    alloc: Global,
    targets: &[usize],
    ends: &[usize],
    set1: &[usize],
    ends1: &[usize],
    set2: &[usize],
    ends2: &[usize],
    common: &mut [usize],
    common_ends: &mut [usize],
) -> Result<usize, Error>
    ensures { MatchResult result
        (Accepts (IsAcyclicGraph targets.now ends.now
        × (ArePairs set1.now ends1.now set2.now ends2.now
        × (AreBelow (length ends.now) set1.now × AreBelow (length ends.now) set2.now)))
        (WritesJoined (AreCommonOfEach (graph_of targets.now ends.now) set1.now ends1.now
        set2.now ends2.now) common.old common.new common_ends.old common_ends.new))
        (FailsBoth common.old common.new common_ends.old common_ends.new
        (IsBatchCause targets.now ends.now (ArePairs set1.now ends1.now set2.now ends2.now)
        (AreBelow (length ends.now) set1.now × AreBelow (length ends.now) set2.now)
        (AreCommonOfEach (graph_of targets.now ends.now) set1.now ends1.now set2.now ends2.now)
        (length common.old) (length common_ends.old))) }
{
    let graph = acyclic_graph(alloc, targets, ends)?;
    if !are_ends(set1.len(), ends1) || !are_ends(set2.len(), ends2) {
        return Err(Error::Ends);
    }
    if ends1.len() != ends2.len() {
        return Err(Error::Ends);
    }
    if !are_all_nodes(ends.len(), set1, set2) {
        return Err(Error::Node);
    }
    let lists = common_of_each(alloc, &graph, set1, ends1, set2, ends2)?;
    write_joined(&lists, common, common_ends)
}

// Writes the heads of all nodes by the call for many sets; the proved caller of the exported batch.
pub(crate) fn heads_of_all(
    alloc: Global,
    targets: &[usize],
    ends: &[usize],
    nodes: &[usize],
    node_ends: &[usize],
    heads: &mut [usize],
    head_ends: &mut [usize],
) -> i64
    requires { node_ends.now ≡ length nodes.now ∷ [] }
    ensures { Returns result
        (Accepts (IsAcyclicGraph targets.now ends.now × AreBelow (length ends.now) nodes.now)
        (WritesFound (AreAscendingHeads (graph_of targets.now ends.now) nodes.now)
        heads.old heads.new))
        (λ _. heads.new ≡ heads.old) }
{
    jj_graph_heads_each(alloc, targets, ends, nodes, node_ends, heads, head_ends)
}

/// Writes for each set of nodes those that are reachable from no other of the set, in ascending
/// order, and the index at which those of each set end. Returns the number of all. The graph is
/// checked once.
///
/// Errors: `Ends`, `Node`, `Cycle`, `Memory`, `Length`.
#[unsafe(no_mangle)]
pub extern "C" fn jj_graph_heads_each(
    alloc: Global,
    targets: &[usize],
    ends: &[usize],
    nodes: &[usize],
    node_ends: &[usize],
    heads: &mut [usize],
    head_ends: &mut [usize],
) -> i64
    // On success the arrays are an acyclic graph, and the heads of each set and their ends are
    // written; else both buffers are unchanged, and the status names a cause.
    ensures { Returns result
        (Accepts (IsAcyclicGraph targets.now ends.now × (AreSets nodes.now node_ends.now
        × AreBelow (length ends.now) nodes.now))
        (WritesJoined (AreHeadsOfEach (graph_of targets.now ends.now) nodes.now node_ends.now)
        heads.old heads.new head_ends.old head_ends.new))
        (FailsBoth heads.old heads.new head_ends.old head_ends.new
        (IsBatchCause targets.now ends.now (AreSets nodes.now node_ends.now)
        (AreBelow (length ends.now) nodes.now)
        (AreHeadsOfEach (graph_of targets.now ends.now) nodes.now node_ends.now)
        (length heads.old) (length head_ends.old))) }
{
    status_of(write_heads_each(alloc, targets, ends, nodes, node_ends, heads, head_ends))
}

/// Writes for each pair of sets the nodes that both reach and that no other such node reaches, in
/// ascending order, and the index at which those of each pair end. Returns the number of all. The
/// graph is checked once.
///
/// Errors: `Ends` (also if the lists have not as many sets), `Node`, `Cycle`, `Memory`, `Length`.
#[unsafe(no_mangle)]
pub extern "C" fn jj_graph_common_each(
    alloc: Global,
    targets: &[usize],
    ends: &[usize],
    set1: &[usize],
    ends1: &[usize],
    set2: &[usize],
    ends2: &[usize],
    common: &mut [usize],
    common_ends: &mut [usize],
) -> i64
    // On success the arrays are an acyclic graph, and the closest common nodes of each pair and
    // their ends are written; else both buffers are unchanged, and the status names a cause.
    ensures { Returns result
        (Accepts (IsAcyclicGraph targets.now ends.now
        × (ArePairs set1.now ends1.now set2.now ends2.now
        × (AreBelow (length ends.now) set1.now × AreBelow (length ends.now) set2.now)))
        (WritesJoined (AreCommonOfEach (graph_of targets.now ends.now) set1.now ends1.now
        set2.now ends2.now) common.old common.new common_ends.old common_ends.new))
        (FailsBoth common.old common.new common_ends.old common_ends.new
        (IsBatchCause targets.now ends.now (ArePairs set1.now ends1.now set2.now ends2.now)
        (AreBelow (length ends.now) set1.now × AreBelow (length ends.now) set2.now)
        (AreCommonOfEach (graph_of targets.now ends.now) set1.now ends1.now set2.now ends2.now)
        (length common.old) (length common_ends.old))) }
{
    status_of(write_common_each(
        alloc,
        targets,
        ends,
        set1,
        ends1,
        set2,
        ends2,
        common,
        common_ends,
    ))
}
