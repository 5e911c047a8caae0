//! Proved callers of `ArrayGraph` over adjacency lists: the neighbors of node `n` are `lists[n]`.
ghost use Rattle.std.specs.Prelude.{◌↔◌, ℕ, IfOk};
ghost use Rattle.std.specs.List.{Contains};
ghost use Rattle.jj_dag.specs.CommonNodes.{AreClosestCommon, HasNoCommonCycle};
ghost use Rattle.jj_dag.specs.Graph.{AreMaximalElements, IsAcyclicFrom, IsGreatestTopologicalOrder, OnCycleFrom, ReachedFrom};
ghost use Rattle.jj_dag.specs.Outcomes.{IfFails};
ghost use Rattle.jj_walks_tests.specs.Adjacency.{graph_of};

use jj_dag::array_graph::{ArrayGraph, Visited};
use jj_dag::walk_error::WalkError;
use std::alloc::{AllocError, Global};

/// Returns the nodes of `nodes` that no other of them reaches.
pub fn head_nodes(
    alloc: Global,
    lists: &[Vec<usize>],
    nodes: &[usize],
) -> Result<Vec<usize>, AllocError>
    ensures { IfOk result (λ heads. IsAcyclicFrom (graph_of lists.now) nodes.now
        → AreMaximalElements (graph_of lists.now) nodes.now heads.items) }
{
    let graph = ArrayGraph::from_lists(alloc, lists)?;
    graph.heads(alloc, &mut Visited::new(alloc), nodes)
}

/// Returns the nodes that both sets reach and that no other such node reaches.
pub fn closest_nodes(
    alloc: Global,
    lists: &[Vec<usize>],
    set1: &[usize],
    set2: &[usize],
) -> Result<Vec<usize>, AllocError>
    ensures { IfOk result (λ found. HasNoCommonCycle (graph_of lists.now) set1.now set2.now
        → AreClosestCommon (graph_of lists.now) set1.now set2.now found.items) }
{
    let graph = ArrayGraph::from_lists(alloc, lists)?;
    graph.closest_common_nodes(alloc, &mut Visited::new(alloc), set1, set2)
}

/// Returns the nodes that the starts reach in the lexicographically greatest topological order.
/// Fails with a node on a cycle if they reach one.
pub fn greatest_order(
    alloc: Global,
    lists: &[Vec<usize>],
    starts: &[usize],
) -> Result<Vec<usize>, WalkError<usize>>
    ensures order { IfOk result (λ order.
        IsGreatestTopologicalOrder (graph_of lists.now) starts.now order.items) }
    ensures cycle { IfFails result (OnCycleFrom (graph_of lists.now) starts.now) }
{
    let graph = ArrayGraph::from_lists(alloc, lists)?;
    graph.greatest_order(alloc, &mut Visited::new(alloc), starts)
}

/// Returns the nodes that the starts reach.
pub fn reachable_nodes(
    alloc: Global,
    lists: &[Vec<usize>],
    starts: &[usize],
) -> Result<Vec<usize>, AllocError>
    ensures { IfOk result (λ found. (node : ℕ) → Contains found.items node
        ↔ ReachedFrom (graph_of lists.now) starts.now node) }
{
    let graph = ArrayGraph::from_lists(alloc, lists)?;
    graph.reachable(alloc, &mut Visited::new(alloc), starts)
}

#[cfg(test)]
mod tests {
    use super::*;
    use std::test::Fail;

    const FAR: usize = 1 << 60;

    // An array up to the greatest of these numbers would not fit into memory.
    #[test]
    fn nodes_may_be_far_apart(rt: HostRuntime) -> Result<(), Fail> {
        let alloc = rt.alloc();
        let lists = vec![in alloc; vec![in alloc; FAR, 1]?, vec![in alloc; usize::MAX]?]?;
        let order = [FAR, 0, 1, usize::MAX];
        match greatest_order(alloc, &lists, &[1, 0]) {
            Ok(found) => assert!(rt; found.as_slice() == [0, FAR, 1, usize::MAX].as_slice()),
            Err(_) => assert!(rt; false),
        }
        assert!(rt; head_nodes(alloc, &lists, &order)?.as_slice() == [0].as_slice());
        let common = closest_nodes(alloc, &lists, &[0, FAR], &[FAR, 1])?;
        assert!(rt; common.as_slice() == [1, FAR].as_slice());
        let reached = reachable_nodes(alloc, &lists, &[1])?;
        assert!(rt; reached.as_slice() == [1, usize::MAX].as_slice());
        Ok(())
    }
}
