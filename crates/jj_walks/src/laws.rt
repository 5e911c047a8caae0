//! Laws of walks. Each function does nothing, and its contract is the law.
//!
//! The laws of `dag_walk` and `dag_walk_async` are about closures that define one graph and do not
//! fail. Each has the clauses of a call as premises, and states the result in terms of graphs.
ghost use Rattle.std.specs.Prelude.{List, Result};
ghost use Rattle.std.specs.Global.{Global};
ghost use Rattle.std.specs.HashSet.{HashSet};
ghost use Rattle.std.specs.declared.vec.Vec.{Vec};
ghost use Rattle.smallvec.specs.SmallVec.{SmallVec};
ghost use Rattle.jj_dag.specs.ClosureGraph.{graph_of, graph_of_items, graph_of_lists, list_of, list_of_items};
ghost use Rattle.jj_dag.specs.declared.walk_error.WalkError.{WalkError};
ghost use Rattle.jj_walks.specs.GraphLaws.{ChunkIsNext, ClosestAreMaximal, HeadsAreMaximal, OkOrderIsTopological, OkReverseIsTopological, OrderIsGreatest, OrderIsTopological, PlainHeadsAreMaximal, ReverseIsTopological, YieldsOkPreorder, YieldsPreorder, YieldsTopologicalOrder};
ghost use Rattle.jj_walks.specs.declared.depth_first.DepthFirst.{DepthFirst};
ghost use Rattle.jj_walks.specs.declared.depth_first.DepthFirstOk.{DepthFirstOk};
ghost use Rattle.jj_walks.specs.declared.topo_order_lazy.TopoOrderReverseLazy.{TopoOrderReverseLazy};
ghost use Rattle.jj_walks.specs.GroupedLaw.{FailsForCause, YieldsGroupedOrders};
ghost use Rattle.jj_walks.specs.NodeLists.{list_of_nodes};

use crate::graph::GraphNode;
use std::alloc::AllocError;
use std::convert::Infallible;
use std::hash::Hash;

/// Over an acyclic graph `topo_order_reverse_ord` returns the greatest topological order of the
/// nodes that the starts reach, which is the lexicographically greatest one if they are numbered in
/// the order of their values, or fails out of memory.
pub fn topo_order_reverse_ord_is_greatest<T: Ord, ID: Hash + Eq, E, II, NI, F, N, C>()
where
    II: IntoIterator<Item = Result<T, E>>,
    NI: IntoIterator<Item = Result<T, E>>,
    F: Fn(&T) -> Result<ID, AllocError>,
    N: FnMut(&T) -> NI,
    C: FnOnce(T) -> E,
    ensures { (start : II) (id_fn : F) (neighbors_fn : N) (cycle_fn : C)
        (result : Result (Vec T Global) (WalkError E)) → OrderIsGreatest
        (graph_of_items ID.eq F.Fn N.FnMut NI.IntoIterator NI.IntoIter.Iterator id_fn neighbors_fn)
        (list_of_items II.IntoIterator II.IntoIter.Iterator start) T.cmp (C.post cycle_fn) result }
{}

/// Over an acyclic graph `topo_order_forward` returns the reverse of a topological order of the
/// nodes that the starts reach, or fails out of memory.
pub fn topo_order_forward_is_topological<T, ID: Hash + Eq, E, II, NI, F, N, C>()
where
    II: IntoIterator<Item = T>,
    NI: IntoIterator<Item = T>,
    F: Fn(&T) -> Result<ID, AllocError>,
    N: FnMut(&T) -> NI,
    C: FnOnce(T) -> E,
    ensures { (start : II) (id_fn : F) (neighbors_fn : N) (cycle_fn : C)
        (result : Result (Vec T Global) (WalkError E)) → OrderIsTopological {E = E}
        (graph_of ID.eq F.Fn N.FnMut NI.IntoIterator NI.IntoIter.Iterator id_fn neighbors_fn)
        (list_of II.IntoIterator II.IntoIter.Iterator start) (C.post cycle_fn) result }
{}

/// Over an acyclic graph `topo_order_reverse` returns a topological order of the nodes that the
/// starts reach, or fails out of memory.
pub fn topo_order_reverse_is_topological<T, ID: Hash + Eq, E, II, NI, F, N, C>()
where
    II: IntoIterator<Item = T>,
    NI: IntoIterator<Item = T>,
    F: Fn(&T) -> Result<ID, AllocError>,
    N: FnMut(&T) -> NI,
    C: FnOnce(T) -> E,
    ensures { (start : II) (id_fn : F) (neighbors_fn : N) (cycle_fn : C)
        (result : Result (Vec T Global) (WalkError E)) → ReverseIsTopological {E = E}
        (graph_of ID.eq F.Fn N.FnMut NI.IntoIterator NI.IntoIter.Iterator id_fn neighbors_fn)
        (list_of II.IntoIterator II.IntoIter.Iterator start) (C.post cycle_fn) result }
{}

/// Over an acyclic graph of which no node fails `topo_order_forward_ok` returns the reverse of a
/// topological order of the nodes that the starts reach, or fails out of memory.
pub fn topo_order_forward_ok_is_topological<T, ID: Hash + Eq, E, II, NI, F, N, C>()
where
    II: IntoIterator<Item = Result<T, E>>,
    NI: IntoIterator<Item = Result<T, E>>,
    F: Fn(&T) -> Result<ID, AllocError>,
    N: FnMut(&T) -> NI,
    C: FnOnce(T) -> E,
    ensures { (start : II) (id_fn : F) (neighbors_fn : N) (cycle_fn : C)
        (result : Result (Vec T Global) (WalkError E)) → OkOrderIsTopological
        (graph_of_items ID.eq F.Fn N.FnMut NI.IntoIterator NI.IntoIter.Iterator id_fn neighbors_fn)
        (list_of_items II.IntoIterator II.IntoIter.Iterator start) (C.post cycle_fn) result }
{}

/// Over an acyclic graph of which no node fails `topo_order_reverse_ok` returns a topological order
/// of the nodes that the starts reach, or fails out of memory.
pub fn topo_order_reverse_ok_is_topological<T, ID: Hash + Eq, E, II, NI, F, N, C>()
where
    II: IntoIterator<Item = Result<T, E>>,
    NI: IntoIterator<Item = Result<T, E>>,
    F: Fn(&T) -> Result<ID, AllocError>,
    N: FnMut(&T) -> NI,
    C: FnOnce(T) -> E,
    ensures { (start : II) (id_fn : F) (neighbors_fn : N) (cycle_fn : C)
        (result : Result (Vec T Global) (WalkError E)) → OkReverseIsTopological
        (graph_of_items ID.eq F.Fn N.FnMut NI.IntoIterator NI.IntoIter.Iterator id_fn neighbors_fn)
        (list_of_items II.IntoIterator II.IntoIter.Iterator start) (C.post cycle_fn) result }
{}

/// Over an acyclic graph `heads` of `dag_walk` returns exactly the starts that no other start
/// reaches, each once, or fails out of memory. `S` is the hasher of the set.
pub fn plain_heads_are_maximal<T: Hash + Eq, ID: Hash + Eq, S, II, NI, F, N>()
where
    II: IntoIterator<Item = T>,
    NI: IntoIterator<Item = T>,
    F: Fn(&T) -> Result<ID, AllocError>,
    N: FnMut(&T) -> NI,
    ensures { (start : II) (id_fn : F) (neighbors_fn : N)
        (result : Result (HashSet T S) AllocError) → PlainHeadsAreMaximal {E = Infallible}
        (graph_of ID.eq F.Fn N.FnMut NI.IntoIterator NI.IntoIter.Iterator id_fn neighbors_fn)
        (list_of II.IntoIterator II.IntoIter.Iterator start) T.eq result }
{}

/// Over an acyclic graph of which no node fails `heads_ok` returns exactly the starts that no other
/// start reaches, each once, or fails out of memory. `S` is the hasher of the set.
pub fn heads_ok_are_maximal<T: Hash + Eq, ID: Hash + Eq, E, S, II, NI, F, N>()
where
    II: IntoIterator<Item = Result<T, E>>,
    NI: IntoIterator<Item = Result<T, E>>,
    F: Fn(&T) -> Result<ID, AllocError>,
    N: FnMut(&T) -> NI,
    ensures { (start : II) (id_fn : F) (neighbors_fn : N)
        (result : Result (HashSet T S) (WalkError E)) → HeadsAreMaximal
        (graph_of_items ID.eq F.Fn N.FnMut NI.IntoIterator NI.IntoIter.Iterator id_fn neighbors_fn)
        (list_of_items II.IntoIterator II.IntoIter.Iterator start) T.eq result }
{}

/// Over an acyclic graph `heads` of `dag_walk_async` returns exactly the starts that no other start
/// reaches, each once, or fails out of memory. `S` is the hasher of the set.
pub fn heads_are_maximal<T: Hash + Eq, ID: Hash + Eq, E, S, II, NI, F, N>()
where
    II: IntoIterator<Item = T>,
    NI: IntoIterator<Item = T>,
    F: Fn(&T) -> Result<ID, AllocError>,
    N: FnMut(&T) -> Result<NI, E>,
    ensures { (start : II) (id_fn : F) (neighbors_fn : N)
        (result : Result (HashSet T S) (WalkError E)) → HeadsAreMaximal
        (graph_of_lists ID.eq F.Fn N.FnMut NI.IntoIterator NI.IntoIter.Iterator id_fn neighbors_fn)
        (list_of II.IntoIterator II.IntoIter.Iterator start) T.eq result }
{}

/// Where no common node is on a cycle, `closest_common_nodes` returns exactly the nodes that both
/// sets reach and that no other such node reaches, each once, or fails out of memory.
pub fn closest_common_nodes_are_maximal<T, ID: Hash + Eq, E, II1, II2, NI, F, N>()
where
    II1: IntoIterator<Item = T>,
    II2: IntoIterator<Item = T>,
    NI: IntoIterator<Item = T>,
    F: Fn(&T) -> Result<ID, AllocError>,
    N: FnMut(&T) -> Result<NI, E>,
    ensures { (set1 : II1) (set2 : II2) (id_fn : F) (neighbors_fn : N)
        (result : Result (Vec T Global) (WalkError E)) → ClosestAreMaximal
        (graph_of_lists ID.eq F.Fn N.FnMut NI.IntoIterator NI.IntoIter.Iterator id_fn neighbors_fn)
        (list_of II1.IntoIterator II1.IntoIter.Iterator set1)
        (list_of II2.IntoIterator II2.IntoIter.Iterator set2) result }
{}

/// Over an acyclic graph `topo_order_reverse_chunked` returns the next chunk of a topological
/// order, or fails out of memory.
pub fn topo_order_reverse_chunked_is_next<T, ID: Hash + Eq, E, NI, F, N, C>()
where
    NI: IntoIterator<Item = Result<T, E>>,
    F: Fn(&T) -> Result<ID, AllocError>,
    N: FnMut(&T) -> NI,
    C: FnOnce(T) -> E,
    ensures { (start left : List T) (id_fn : F) (neighbors_fn : N) (cycle_fn : C)
        (result : Result (SmallVec T) (WalkError E)) → ChunkIsNext
        (graph_of_items ID.eq F.Fn N.FnMut NI.IntoIterator NI.IntoIter.Iterator id_fn neighbors_fn)
        (list_of_nodes start) (C.post cycle_fn) left result }
{}

/// Each complete run of `dfs` without an error yields the depth-first preorder of the nodes that
/// the starts reach.
pub fn dfs_yields_preorder<T, ID: Hash + Eq, II, NI, F, N>()
where
    II: IntoIterator<Item = T>,
    NI: IntoIterator<Item = T>,
    F: Fn(&T) -> Result<ID, AllocError>,
    N: FnMut(&T) -> NI,
    ensures { (start : II) (id_fn : F) (neighbors_fn : N) (it : DepthFirst T ID F N)
        (yielded : List T) → YieldsPreorder {E = AllocError} F.Fn N.FnMut ID.eq NI.into_iter_gives
        NI.IntoIter.next_gives NI.IntoIter.can_next NI.IntoIter.remaining
        (graph_of ID.eq F.Fn N.FnMut NI.IntoIterator NI.IntoIter.Iterator id_fn neighbors_fn)
        (list_of II.IntoIterator II.IntoIter.Iterator start) it yielded }
{}

/// Each complete run of `dfs_ok` without an error yields the depth-first preorder of the nodes that
/// the starts reach.
pub fn dfs_ok_yields_preorder<T, ID: Hash + Eq, E, II, NI, F, N>()
where
    II: IntoIterator<Item = Result<T, E>>,
    NI: IntoIterator<Item = Result<T, E>>,
    F: Fn(&T) -> Result<ID, AllocError>,
    N: FnMut(&T) -> NI,
    ensures { (start : II) (id_fn : F) (neighbors_fn : N) (it : DepthFirstOk T ID E F N)
        (yielded : List T) → YieldsOkPreorder F.Fn N.FnMut ID.eq NI.into_iter_gives
        NI.IntoIter.next_gives NI.IntoIter.can_next NI.IntoIter.remaining
        II.IntoIterator II.IntoIter.Iterator id_fn neighbors_fn start it yielded }
{}

/// Each complete run of `topo_order_reverse_lazy` without an error yields a topological order of
/// the nodes that the starts reach, and these reach no cycle.
pub fn topo_order_reverse_lazy_yields_order<T: Ord, ID: Hash + Eq, E, II, NI, F, N, C>()
where
    II: IntoIterator<Item = Result<T, E>>,
    NI: IntoIterator<Item = Result<T, E>>,
    F: Fn(&T) -> Result<ID, AllocError>,
    N: FnMut(&T) -> NI,
    C: FnMut(T) -> E,
    ensures { (start : II) (id_fn : F) (neighbors_fn : N) (cycle_fn : C)
        (it : TopoOrderReverseLazy T ID E F N C) (yielded : List T) → YieldsTopologicalOrder ID.eq
        F.Fn N.FnMut NI.IntoIterator NI.IntoIter.Iterator C.FnMut
        (list_of_items II.IntoIterator II.IntoIter.Iterator start) id_fn neighbors_fn cycle_fn it
        yielded }
{}

/// Each complete run of a grouped graph without an error yields a grouped order of its input, if
/// the input is in topological order: each node once, children before parents, each node followed
/// by the last of its targets that is ready, if one is. The first node reaches the id that was
/// prioritized first. A run fails only where the input does, where an id comes twice, where the
/// input is in no topological order or lacks a node that was prioritized, or out of memory.
pub fn grouped_graphs_yield_grouped_orders<N, ID: Hash + Eq, E, S, F>()
where
    S: Iterator<Item = Result<GraphNode<N, ID>, E>>,
    F: Fn(&N) -> &ID,
    // If the input is in topological order, a complete run without an error yields a grouped order
    // of its nodes.
    ensures order { YieldsGroupedOrders F.Fn ID.eq S.next_gives }
    // A run fails only with an error of the input, at an id that comes twice, if the input is in no
    // topological order or lacks a node that was prioritized, or out of memory.
    ensures error { FailsForCause F.Fn ID.eq S.next_gives }
{}
