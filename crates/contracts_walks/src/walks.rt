//! Callers of `jj_walks`.
ghost use Rattle.std.specs.Prelude.{◌≡◌, ◌⊎◌, [], List, Option, Result, IfOk, IsTrue, OnErr, OnOk, false, map};
ghost use Rattle.jj_dag.specs.ClosureGraph.{InEachModel, IsMadeBesideCycle, IsNeighborsError, graph_of_items, list_of_items};
ghost use Rattle.jj_dag.specs.Outcomes.{IfFails};
ghost use Rattle.jj_dag.specs.Walk.{DrainsTo};
ghost use Rattle.jj_walks.specs.Chunks.{IsNextChunk};
ghost use Rattle.jj_walks.specs.Expansions.{IsRun};
ghost use Rattle.jj_walks.specs.Grouped.{Prioritized};
ghost use Rattle.jj_walks.specs.GroupedSteps.{CanRead, Steps as GroupedSteps};
ghost use Rattle.jj_walks.specs.LazySteps.{CanGo, Steps as LazySteps};
ghost use Rattle.jj_walks.specs.NodeLists.{list_of_nodes};
ghost use Rattle.jj_walks.specs.PendingNodes.{Adds};

use jj_walks::dag_walk::{self, WalkError};
use jj_walks::dag_walk_async::{TopoOrderReverseLazy, topo_order_reverse_chunked as take_chunk};
use jj_walks::graph::{GraphNode, GroupedGraphError, GroupedNodes, TopoGroupedGraph};
use smallvec::SmallVec;
use std::alloc::{AllocError, Global};
use std::default::MadeWith;
use std::hash::Hash;

/// `topo_order_reverse_chunked`.
pub fn next_chunk<T, ID: Hash + Eq + Drop, E: Drop, NI, F, N, C>(
    alloc: Global,
    start: &mut Vec<T>,
    id_fn: F,
    neighbors_fn: N,
    cycle_fn: C,
) -> Result<SmallVec<T, 1>, WalkError<E>>
where
    T: Ord + MadeWith<Global> + Drop,
    NI: IntoIterator<Item = Result<T, E>, IntoIter: Drop>,
    F: Fn(&T) -> Result<ID, AllocError> + Drop,
    N: FnMut(&T) -> NI + Drop,
    C: FnOnce(T) -> E + Drop,
    requires graph { (graph_of_items ID.eq F.Fn N.FnMut NI.IntoIterator NI.IntoIter.Iterator id_fn
        neighbors_fn).walkable }
    requires cycle_fn { C.IsAlwaysCallable cycle_fn }
    ensures chunk { IfOk result (λ chunk. InEachModel
        (graph_of_items ID.eq F.Fn N.FnMut NI.IntoIterator NI.IntoIter.Iterator id_fn neighbors_fn)
        (list_of_nodes start.old.items)
        (λ g starts. IsNextChunk g.graph starts (map g.node chunk.items)
        (map g.node start.new.items))) }
    ensures error { IfFails result (λ e. IsNeighborsError
        (graph_of_items ID.eq F.Fn N.FnMut NI.IntoIterator NI.IntoIter.Iterator id_fn neighbors_fn)
        (list_of_nodes start.old.items) e
        ⊎ IsMadeBesideCycle (C.post cycle_fn)
        (graph_of_items ID.eq F.Fn N.FnMut NI.IntoIterator NI.IntoIter.Iterator id_fn neighbors_fn)
        (list_of_nodes start.old.items) e) }
{
    let chunk = take_chunk(alloc, start, id_fn, neighbors_fn, cycle_fn);
    chunk
}

/// `collect_dfs_ok`.
pub fn collect_dfs_ok<T: Drop, ID: Hash + Eq + Drop, E: Drop, II, NI, F, N>(
    alloc: Global,
    start: II,
    id_fn: F,
    neighbors_fn: N,
) -> Result<Vec<Result<T, E>>, AllocError>
where
    II: IntoIterator<Item = Result<T, E>, IntoIter: Drop>,
    NI: IntoIterator<Item = Result<T, E>, IntoIter: Drop>,
    F: Fn(&T) -> Result<ID, AllocError> + Drop,
    N: FnMut(&T) -> NI + Drop,
    requires graph { (graph_of_items ID.eq F.Fn N.FnMut NI.IntoIterator NI.IntoIter.Iterator
        id_fn neighbors_fn).walkable }
    requires start { (list_of_items II.IntoIterator II.IntoIter.Iterator start).finite }
    ensures { IfOk result (λ items. (starts : List (Result T E))
        × DrainsTo II.into_iter_gives II.IntoIter.next_gives start starts
        × IsRun ID.eq F.Fn N.FnMut (DrainsTo NI.into_iter_gives NI.IntoIter.next_gives)
        id_fn neighbors_fn starts items.items) }
{
    let items = dag_walk::collect_dfs_ok(alloc, start, id_fn, neighbors_fn)?;
    Ok(items)
}

/// `Iterator::next` of `TopoOrderReverseLazy`.
pub fn next_lazy<T: Ord + Drop, ID: Hash + Eq + Drop, E: Drop, NI, F, N, C>(
    order: &mut TopoOrderReverseLazy<T, ID, E, F, N, C>,
) -> Option<Result<T, WalkError<E>>>
where
    NI: IntoIterator<Item = Result<T, E>, IntoIter: Drop>,
    F: Fn(&T) -> Result<ID, AllocError>,
    N: FnMut(&T) -> NI,
    C: FnMut(T) -> E,
    requires { order.old.has_ended ≡ false → CanGo ID.eq F.Fn N.FnMut NI.IntoIterator
        NI.IntoIter.Iterator C.FnMut order.old.order }
    ensures { LazySteps ID.eq F.Fn N.FnMut NI.IntoIterator NI.IntoIter.Iterator C.FnMut
        order.old result order.new }
{
    order.next()
}

/// `TopoGroupedGraph::prioritize_branch`.
pub fn prioritize_branch<N: Drop, ID: Hash + Eq + Clone + Drop, E: Drop, S, F>(
    graph: &mut TopoGroupedGraph<N, ID, S, F>,
    id: ID,
) -> Result<(), AllocError>
where
    S: Iterator<Item = Result<GraphNode<N, ID>, E>> + Drop,
    F: Fn(&N) -> &ID + Drop,
    requires { (i j : ID) → ID.is_clone i j → IsTrue (ID.eq i j) }
    ensures { OnOk result (Adds ID.eq (Prioritized id) graph.old.pending graph.new.pending) }
{
    graph.prioritize_branch(id)
}

/// `Iterator::next` of `GroupedNodes`.
pub fn next_grouped<N: Drop, ID: Hash + Eq + Clone + Drop, E: Drop, S, F>(
    nodes: &mut GroupedNodes<N, ID, S, F>,
) -> Option<Result<GraphNode<N, ID>, GroupedGraphError<E>>>
where
    S: Iterator<Item = Result<GraphNode<N, ID>, E>> + Drop,
    F: Fn(&N) -> &ID + Drop,
    requires { nodes.old.has_ended ≡ false
        → CanRead F.Fn ID.eq ID.is_clone S.can_next S.remaining nodes.old.graph }
    ensures { GroupedSteps F.Fn ID.eq S.next_gives nodes.old result nodes.new }
{
    nodes.next()
}
