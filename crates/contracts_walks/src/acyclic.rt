//! Walks over an acyclic graph: the laws of the walks, each applied to a call.
ghost use Rattle.std.specs.Prelude.{◌≡◌, ◌++◌, ℕ, List, IfErr, IfOk, IsTrue, Ok, map};
ghost use Rattle.std.specs.List.{slice_index_or};
ghost use Rattle.jj_dag.specs.ClosureGraph.{InEachModel, graph_of, graph_of_items, graph_of_lists, list_of, list_of_items};
ghost use Rattle.jj_dag.specs.CommonNodes.{AreClosestCommon, HasNoCommonCycle};
ghost use Rattle.jj_dag.specs.Graph.{AreMaximalElements, IsAcyclicFrom, IsPreorder, IsTopologicalOrder};
ghost use Rattle.jj_dag.specs.GreatestOrder.{IsGreatestOrder};
ghost use Rattle.jj_dag.specs.Walk.{GraphModel, IsEqualityOfNodes};
ghost use Rattle.jj_walks.specs.Chunks.{IsNextChunk};
ghost use Rattle.jj_walks.specs.GraphLaws.{DefinesGraph, IsOkOrMemory, YieldsStarts};
ghost use Rattle.jj_walks.specs.NodeLists.{list_of_nodes};
ghost use Rattle.contracts_walks.specs.Adjacency.{graph_of_rows, row_at};

use jj_walks::dag_walk::{self, WalkError};
use jj_walks::dag_walk_async;
use jj_walks::laws::{
    closest_common_nodes_are_maximal, dfs_yields_preorder, heads_ok_are_maximal,
    topo_order_reverse_chunked_is_next, topo_order_reverse_is_topological,
    topo_order_reverse_ord_is_greatest,
};
use smallvec::SmallVec;
use std::alloc::{AllocError, Global};
use std::collections::HashSet;
use std::default::MadeWith;
use std::hash::{BuildHasherDefault, FoldHasher, Hash};

/// Returns a topological order of an acyclic graph that the closures define. The only error is out
/// of memory.
pub fn children_first<T: Drop, ID: Hash + Eq + Clone + Drop, E: Drop, II, NI, F, N, C>(
    alloc: Global,
    start: II,
    id_fn: F,
    neighbors_fn: N,
    cycle_fn: C,
) -> Result<Vec<T>, WalkError<E>>
where
    II: IntoIterator<Item = T, IntoIter: Drop> + Drop,
    NI: IntoIterator<Item = T, IntoIter: Drop>,
    F: Fn(&T) -> Result<ID, AllocError> + Drop,
    N: FnMut(&T) -> NI + Drop,
    C: FnOnce(T) -> E + Drop,
    requires graph { (graph_of ID.eq F.Fn {E = E} N.FnMut NI.IntoIterator NI.IntoIter.Iterator
        id_fn neighbors_fn).walkable }
    requires start { (list_of {E = E} II.IntoIterator II.IntoIter.Iterator start).finite }
    requires clones { (x y : ID) → ID.is_clone x y → IsTrue (ID.eq x y) }
    requires cycle_fn { C.IsAlwaysCallable cycle_fn }
    ensures { (g : GraphModel T ID) (starts : List ℕ) → DefinesGraph {E = E} g
        (graph_of ID.eq F.Fn N.FnMut NI.IntoIterator NI.IntoIter.Iterator id_fn neighbors_fn) starts
        → YieldsStarts {E = E} g (list_of II.IntoIterator II.IntoIter.Iterator start) starts
        → IsAcyclicFrom g.graph starts
        → IsOkOrMemory result (λ v. IsTopologicalOrder g.graph starts (map g.node v.items)) }
{
    topo_order_reverse_is_topological::<T, ID, E, II, NI, F, N, C>();
    let order = dag_walk::topo_order_reverse(alloc, start, id_fn, neighbors_fn, cycle_fn);
    order
}

/// Returns the greatest topological order of an acyclic graph that the closures define, of which
/// no node fails. The only error is out of memory.
pub fn greatest_first<T: Ord + Drop, ID, E: Drop, II, NI, F, N, C>(
    alloc: Global,
    start: II,
    id_fn: F,
    neighbors_fn: N,
    cycle_fn: C,
) -> Result<Vec<T>, WalkError<E>>
where
    ID: Hash + Eq + Clone + Drop,
    II: IntoIterator<Item = Result<T, E>, IntoIter: Drop> + Drop,
    NI: IntoIterator<Item = Result<T, E>, IntoIter: Drop>,
    F: Fn(&T) -> Result<ID, AllocError> + Drop,
    N: FnMut(&T) -> NI + Drop,
    C: FnOnce(T) -> E + Drop,
    requires graph { (graph_of_items ID.eq F.Fn N.FnMut NI.IntoIterator NI.IntoIter.Iterator id_fn
        neighbors_fn).walkable }
    requires cycle_fn { C.IsAlwaysCallable cycle_fn }
    requires start { (list_of_items II.IntoIterator II.IntoIter.Iterator start).finite }
    requires clones { (x y : ID) → ID.is_clone x y → IsTrue (ID.eq x y) }
    ensures { (g : GraphModel T ID) (starts : List ℕ) → DefinesGraph g
        (graph_of_items ID.eq F.Fn N.FnMut NI.IntoIterator NI.IntoIter.Iterator id_fn neighbors_fn)
        starts → YieldsStarts g (list_of_items II.IntoIterator II.IntoIter.Iterator start) starts
        → IsAcyclicFrom g.graph starts
        → IsOkOrMemory result (λ v. IsGreatestOrder T.cmp g starts v.items) }
{
    topo_order_reverse_ord_is_greatest::<T, ID, E, II, NI, F, N, C>();
    let order = dag_walk_async::topo_order_reverse_ord(alloc, start, id_fn, neighbors_fn, cycle_fn);
    order
}

/// Returns the starts that no other start reaches in an acyclic graph that the closures define, of
/// which no node fails. The only error is out of memory.
pub fn maximal_starts<T: Hash + Eq + Clone + Drop, ID: Hash + Eq + Drop, E: Drop, II, NI, F, N>(
    alloc: Global,
    start: II,
    id_fn: F,
    neighbors_fn: N,
) -> Result<HashSet<T>, WalkError<E>>
where
    II: IntoIterator<Item = Result<T, E>, IntoIter: Drop> + Drop,
    NI: IntoIterator<Item = Result<T, E>, IntoIter: Drop>,
    F: Fn(&T) -> Result<ID, AllocError> + Drop,
    N: FnMut(&T) -> NI + Drop,
    requires graph { (graph_of_items ID.eq F.Fn N.FnMut NI.IntoIterator NI.IntoIter.Iterator
        id_fn neighbors_fn).walkable }
    requires start { (list_of_items II.IntoIterator II.IntoIter.Iterator start).finite }
    requires clones { (x y : T) → T.is_clone x y → IsTrue (T.eq x y) }
    ensures { (g : GraphModel T ID) (starts : List ℕ) → DefinesGraph g
        (graph_of_items ID.eq F.Fn N.FnMut NI.IntoIterator NI.IntoIter.Iterator id_fn neighbors_fn)
        starts → YieldsStarts g (list_of_items II.IntoIterator II.IntoIter.Iterator start) starts
        → IsAcyclicFrom g.graph starts → IsEqualityOfNodes g T.eq
        → IsOkOrMemory result (λ heads.
        AreMaximalElements g.graph starts (map g.node heads.keys)) }
{
    heads_ok_are_maximal::<T, ID, E, BuildHasherDefault<FoldHasher>, II, NI, F, N>();
    let heads = dag_walk::heads_ok(alloc, start, id_fn, neighbors_fn);
    heads
}

/// Returns the common nodes that no other common node reaches, in a graph without a common node on
/// a cycle that the closures define. The only error is out of memory.
pub fn closest_common<T: Ord + Drop, ID: Hash + Eq + Drop, E: Drop, II1, II2, NI, F, N>(
    alloc: Global,
    set1: II1,
    set2: II2,
    id_fn: F,
    neighbors_fn: N,
) -> Result<Vec<T>, WalkError<E>>
where
    II1: IntoIterator<Item = T, IntoIter: Drop>,
    II2: IntoIterator<Item = T, IntoIter: Drop> + Drop,
    NI: IntoIterator<Item = T, IntoIter: Drop>,
    F: Fn(&T) -> Result<ID, AllocError> + Drop,
    N: FnMut(&T) -> Result<NI, E> + Drop,
    requires graph { (graph_of_lists ID.eq F.Fn N.FnMut NI.IntoIterator NI.IntoIter.Iterator id_fn
        neighbors_fn).walkable }
    requires set1 { (list_of {E = E} II1.IntoIterator II1.IntoIter.Iterator set1).finite }
    requires set2 { (list_of {E = E} II2.IntoIterator II2.IntoIter.Iterator set2).finite }
    ensures { (g : GraphModel T ID) (nodes1 nodes2 : List ℕ) → DefinesGraph g
        (graph_of_lists ID.eq F.Fn N.FnMut NI.IntoIterator NI.IntoIter.Iterator id_fn neighbors_fn)
        (nodes1 ++ nodes2)
        → YieldsStarts {E = E} g (list_of II1.IntoIterator II1.IntoIter.Iterator set1) nodes1
        → YieldsStarts {E = E} g (list_of II2.IntoIterator II2.IntoIter.Iterator set2) nodes2
        → HasNoCommonCycle g.graph nodes1 nodes2 → IsOkOrMemory result (λ v.
        AreClosestCommon g.graph nodes1 nodes2 (map g.node v.items)) }
{
    closest_common_nodes_are_maximal::<T, ID, E, II1, II2, NI, F, N>();
    let found = dag_walk_async::closest_common_nodes(alloc, set1, set2, id_fn, neighbors_fn);
    found
}

/// Returns the next chunk of a topological order of an acyclic graph that the closures define, of
/// which no node fails. The only error is out of memory.
pub fn next_in_order<T, ID: Hash + Eq + Drop, E: Drop, NI, F, N, C>(
    alloc: Global,
    start: &mut Vec<T>,
    id_fn: F,
    neighbors_fn: N,
    cycle_fn: C,
) -> Result<SmallVec<T, 1>, WalkError<E>>
where
    T: Ord + MadeWith<Global> + Drop,
    NI: IntoIterator<Item = Result<T, E>, IntoIter: Drop>,
    F: Fn(&T) -> Result<ID, AllocError> + Drop,
    N: FnMut(&T) -> NI + Drop,
    C: FnOnce(T) -> E + Drop,
    requires graph { (graph_of_items ID.eq F.Fn N.FnMut NI.IntoIterator NI.IntoIter.Iterator id_fn
        neighbors_fn).walkable }
    requires cycle_fn { C.IsAlwaysCallable cycle_fn }
    ensures { (g : GraphModel T ID) (starts : List ℕ) → DefinesGraph g
        (graph_of_items ID.eq F.Fn N.FnMut NI.IntoIterator NI.IntoIter.Iterator id_fn neighbors_fn)
        starts → YieldsStarts {E = E} g (list_of_nodes start.old.items) starts
        → IsAcyclicFrom g.graph starts → IsOkOrMemory result (λ chunk.
        IsNextChunk g.graph starts (map g.node chunk.items) (map g.node start.new.items)) }
{
    topo_order_reverse_chunked_is_next::<T, ID, E, NI, F, N, C>();
    let chunk = dag_walk_async::topo_order_reverse_chunked(
        alloc,
        start,
        id_fn,
        neighbors_fn,
        cycle_fn,
    );
    chunk
}

/// Returns the nodes that the starts reach, in depth-first preorder.
pub fn preorder<T: Drop, ID: Hash + Eq + Drop, II, NI, F, N>(
    alloc: Global,
    start: II,
    id_fn: F,
    neighbors_fn: N,
) -> Result<Vec<T>, AllocError>
where
    II: IntoIterator<Item = T, IntoIter: Drop>,
    NI: IntoIterator<Item = T, IntoIter: Drop>,
    F: Fn(&T) -> Result<ID, AllocError> + Drop,
    N: FnMut(&T) -> NI + Drop,
    requires graph { (graph_of ID.eq F.Fn {E = AllocError} N.FnMut NI.IntoIterator
        NI.IntoIter.Iterator id_fn neighbors_fn).walkable }
    requires start { (list_of {E = AllocError} II.IntoIterator II.IntoIter.Iterator start).finite }
    ensures { IfOk result (λ nodes. InEachModel {E = AllocError}
        (graph_of ID.eq F.Fn N.FnMut NI.IntoIterator NI.IntoIter.Iterator id_fn neighbors_fn)
        (list_of II.IntoIterator II.IntoIter.Iterator start)
        (λ g starts. IsPreorder g.graph starts (map g.node nodes.items))) }
{
    dfs_yields_preorder::<T, ID, II, NI, F, N>();
    let walk = dag_walk::dfs(alloc, start, id_fn, neighbors_fn)?;
    let mut nodes = Vec::new(alloc);
    for item in walk {
        nodes.push(item?)?;
    }
    Ok(nodes)
}

// The neighbors of a node; none past the last row.
fn row_at(rows: &[Vec<usize>], node: usize) -> &[usize]
    ensures { result.now ≡ row_at rows.now node }
{
    match rows.get(node) {
        Some(row) => row.as_slice(),
        None => &[],
    }
}

/// Orders the nodes that the starts reach in an acyclic graph. Row i of an adjacency list has the
/// neighbors of node i.
pub fn order_of_rows(
    alloc: Global,
    rows: &[Vec<usize>],
    starts: &[usize],
) -> Result<Vec<usize>, WalkError<usize>>
    requires { IsAcyclicFrom (graph_of_rows rows.now) starts.now }
    // Each node that a start reaches is in the order once, before its neighbors.
    ensures order { IfOk result
        (λ order. IsTopologicalOrder (graph_of_rows rows.now) starts.now order.items) }
    // The only error is out of memory.
    ensures error { IfErr result (λ e. e ≡ WalkError.Memory) }
{
    let order = children_first(
        alloc,
        starts.iter().copied(),
        |node: &usize| Ok(*node),
        |node: &usize| row_at(rows, *node).iter().copied(),
        |node: usize| node,
    );
    order
}
