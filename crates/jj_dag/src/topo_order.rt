//! Topological orders: postorder and reverse postorder of a depth-first search. The functions `_ok`
//! are over items that may fail.
ghost use Rattle.std.specs.Prelude.{◌≡◌, ◌⊎◌, [], IfOk, map, reverse, IsTrue};
ghost use Rattle.jj_dag.specs.ClosureGraph.{InEachModel, IsCycleError, IsInputError, graph_of, graph_of_items, list_of, list_of_items};
ghost use Rattle.jj_dag.specs.Orders.{IsWholePostorder};
ghost use Rattle.jj_dag.specs.Outcomes.{IfFails};

use crate::all_ok::AllOk;
use crate::forward::{Stop, walk_forward};
use crate::node_set::NodeSet;
use crate::walk_error::WalkError;
use std::alloc::{AllocError, Global};
use std::collections::HashSet;
use std::convert::Infallible;
use std::hash::Hash;
use std::marker::PhantomData;

/// Returns the nodes that the starts reach, each once and after its neighbors; later starts and
/// later neighbors come first. Fails with `Node(cycle_fn(node))` of some node on a cycle if one is
/// reached, and with `Memory` if memory runs out. Calls `neighbors_fn` once for each node, and
/// takes `O(n + e)` for n nodes and e edges.
pub fn topo_order_forward<T: Drop, ID: Hash + Eq + Clone + Drop, E, II, NI, F, N, C>(
    alloc: Global,
    start: II,
    id_fn: F,
    neighbors_fn: N,
    cycle_fn: C,
) -> Result<Vec<T>, WalkError<E>>
where
    II: IntoIterator<Item = T, IntoIter: Drop> + Drop,
    NI: IntoIterator<Item = T, IntoIter: Drop>,
    F: Fn(&T) -> Result<ID, AllocError> + Drop,
    N: FnMut(&T) -> NI + Drop,
    C: FnOnce(T) -> E + Drop,
    requires graph { (graph_of ID.eq F.Fn {E = E} N.FnMut NI.IntoIterator NI.IntoIter.Iterator
        id_fn neighbors_fn).walkable }
    requires start { (list_of {E = E} II.IntoIterator II.IntoIter.Iterator start).finite }
    requires clones { (x y : ID) → ID.is_clone x y → IsTrue (ID.eq x y) }
    requires cycle_fn { C.IsAlwaysCallable cycle_fn }
    ensures order { IfOk result (λ v. InEachModel {E = E}
        (graph_of ID.eq F.Fn N.FnMut NI.IntoIterator NI.IntoIter.Iterator id_fn neighbors_fn)
        (list_of II.IntoIterator II.IntoIter.Iterator start)
        (λ g starts. IsWholePostorder g.graph starts (map g.node v.items))) }
    ensures cycle { IfFails result (IsCycleError {E = E} (C.post cycle_fn)
        (graph_of ID.eq F.Fn N.FnMut NI.IntoIterator NI.IntoIter.Iterator id_fn neighbors_fn)
        (list_of II.IntoIterator II.IntoIter.Iterator start)) }
{
    let mut visiting: HashSet<ID> = HashSet::new(alloc);
    let mut emitted: HashSet<ID> = HashSet::new(alloc);
    topo_order_forward_in(
        alloc,
        &mut visiting,
        &mut emitted,
        start,
        id_fn,
        neighbors_fn,
        cycle_fn,
    )
}

/// Like [`topo_order_forward`], but stores the ids of the nodes on the current path and of the
/// emitted nodes in the given sets, which must be empty; a caller that reuses them allocates once.
pub fn topo_order_forward_in<T: Drop, ID: Eq + Clone + Drop, E, V, II, NI, F, N, C>(
    alloc: Global,
    visiting: &mut V,
    emitted: &mut V,
    start: II,
    id_fn: F,
    mut neighbors_fn: N,
    cycle_fn: C,
) -> Result<Vec<T>, WalkError<E>>
where
    V: NodeSet<ID>,
    II: IntoIterator<Item = T, IntoIter: Drop> + Drop,
    NI: IntoIterator<Item = T, IntoIter: Drop>,
    F: Fn(&T) -> Result<ID, AllocError> + Drop,
    N: FnMut(&T) -> NI + Drop,
    C: FnOnce(T) -> E + Drop,
    requires graph { (graph_of ID.eq F.Fn {E = E} N.FnMut NI.IntoIterator NI.IntoIter.Iterator
        id_fn neighbors_fn).walkable }
    requires start { (list_of {E = E} II.IntoIterator II.IntoIter.Iterator start).finite }
    requires clones { (x y : ID) → ID.is_clone x y → IsTrue (ID.eq x y) }
    requires cycle_fn { C.IsAlwaysCallable cycle_fn }
    requires none_visiting { V.keys visiting.old ≡ [] }
    requires none_emitted { V.keys emitted.old ≡ [] }
    ensures order { IfOk result (λ v. InEachModel {E = E}
        (graph_of ID.eq F.Fn N.FnMut NI.IntoIterator NI.IntoIter.Iterator id_fn neighbors_fn)
        (list_of II.IntoIterator II.IntoIter.Iterator start)
        (λ g starts. IsWholePostorder g.graph starts (map g.node v.items))) }
    ensures cycle { IfFails result (IsCycleError {E = E} (C.post cycle_fn)
        (graph_of ID.eq F.Fn N.FnMut NI.IntoIterator NI.IntoIter.Iterator id_fn neighbors_fn)
        (list_of II.IntoIterator II.IntoIter.Iterator start)) }
{
    let start = AllOk {
        items: start.into_iter(),
        error: PhantomData,
    };
    let order: Result<Vec<T>, Stop<T, Infallible>> = walk_forward(
        alloc,
        visiting,
        emitted,
        start,
        id_fn,
        move |node: &T| AllOk {
            items: neighbors_fn(node).into_iter(),
            error: PhantomData,
        },
    );
    match order {
        Ok(order) => Ok(order),
        Err(stop) => match stop {
            Stop::Memory => Err(WalkError::Memory),
            Stop::Failed(never) => match never {},
            Stop::Cycle(node) => Err(WalkError::Node(cycle_fn(node))),
        },
    }
}

/// Returns the nodes that the starts reach, each once and before its neighbors: the reverse of
/// `topo_order_forward`, with its errors.
pub fn topo_order_reverse<T: Drop, ID: Hash + Eq + Clone + Drop, E, II, NI, F, N, C>(
    alloc: Global,
    start: II,
    id_fn: F,
    neighbors_fn: N,
    cycle_fn: C,
) -> Result<Vec<T>, WalkError<E>>
where
    II: IntoIterator<Item = T, IntoIter: Drop> + Drop,
    NI: IntoIterator<Item = T, IntoIter: Drop>,
    F: Fn(&T) -> Result<ID, AllocError> + Drop,
    N: FnMut(&T) -> NI + Drop,
    C: FnOnce(T) -> E + Drop,
    requires graph { (graph_of ID.eq F.Fn {E = E} N.FnMut NI.IntoIterator NI.IntoIter.Iterator
        id_fn neighbors_fn).walkable }
    requires start { (list_of {E = E} II.IntoIterator II.IntoIter.Iterator start).finite }
    requires clones { (x y : ID) → ID.is_clone x y → IsTrue (ID.eq x y) }
    requires cycle_fn { C.IsAlwaysCallable cycle_fn }
    ensures order { IfOk result (λ v. InEachModel {E = E}
        (graph_of ID.eq F.Fn N.FnMut NI.IntoIterator NI.IntoIter.Iterator id_fn neighbors_fn)
        (list_of II.IntoIterator II.IntoIter.Iterator start)
        (λ g starts. IsWholePostorder g.graph starts (reverse (map g.node v.items)))) }
    ensures cycle { IfFails result (IsCycleError {E = E} (C.post cycle_fn)
        (graph_of ID.eq F.Fn N.FnMut NI.IntoIterator NI.IntoIter.Iterator id_fn neighbors_fn)
        (list_of II.IntoIterator II.IntoIter.Iterator start)) }
{
    let mut order = topo_order_forward(alloc, start, id_fn, neighbors_fn, cycle_fn)?;
    order.reverse();
    Ok(order)
}

/// Returns the nodes that the starts reach, each once and after its neighbors; later starts and
/// later neighbors come first. Fails with `Node` of the error of the first item that failed, with
/// `Node(cycle_fn(node))` of some node on a cycle if one is reached before, and with `Memory` if
/// memory runs out. Takes `O(n + e)` for n nodes and e edges.
pub fn topo_order_forward_ok<T: Drop, ID: Hash + Eq + Clone + Drop, E: Drop, II, NI, F, N, C>(
    alloc: Global,
    start: II,
    id_fn: F,
    neighbors_fn: N,
    cycle_fn: C,
) -> Result<Vec<T>, WalkError<E>>
where
    II: IntoIterator<Item = Result<T, E>, IntoIter: Drop> + Drop,
    NI: IntoIterator<Item = Result<T, E>, IntoIter: Drop>,
    F: Fn(&T) -> Result<ID, AllocError> + Drop,
    N: FnMut(&T) -> NI + Drop,
    C: FnOnce(T) -> E + Drop,
    requires graph { (graph_of_items ID.eq F.Fn N.FnMut NI.IntoIterator NI.IntoIter.Iterator
        id_fn neighbors_fn).walkable }
    requires start { (list_of_items II.IntoIterator II.IntoIter.Iterator start).finite }
    requires clones { (x y : ID) → ID.is_clone x y → IsTrue (ID.eq x y) }
    requires cycle_fn { C.IsAlwaysCallable cycle_fn }
    ensures order { IfOk result (λ v. InEachModel
        (graph_of_items ID.eq F.Fn N.FnMut NI.IntoIterator NI.IntoIter.Iterator id_fn neighbors_fn)
        (list_of_items II.IntoIterator II.IntoIter.Iterator start)
        (λ g starts. IsWholePostorder g.graph starts (map g.node v.items))) }
    ensures error { IfFails result (λ e. IsInputError
        (graph_of_items ID.eq F.Fn N.FnMut NI.IntoIterator NI.IntoIter.Iterator id_fn neighbors_fn)
        (list_of_items II.IntoIterator II.IntoIter.Iterator start) e
        ⊎ IsCycleError (C.post cycle_fn)
        (graph_of_items ID.eq F.Fn N.FnMut NI.IntoIterator NI.IntoIter.Iterator id_fn neighbors_fn)
        (list_of_items II.IntoIterator II.IntoIter.Iterator start) e) }
{
    let mut visiting: HashSet<ID> = HashSet::new(alloc);
    let mut emitted: HashSet<ID> = HashSet::new(alloc);
    match walk_forward(
        alloc,
        &mut visiting,
        &mut emitted,
        start,
        id_fn,
        neighbors_fn,
    ) {
        Ok(order) => Ok(order),
        Err(stop) => match stop {
            Stop::Memory => Err(WalkError::Memory),
            Stop::Failed(error) => Err(WalkError::Node(error)),
            Stop::Cycle(node) => Err(WalkError::Node(cycle_fn(node))),
        },
    }
}

/// Returns the nodes that the starts reach, each once and before its neighbors: the reverse of
/// `topo_order_forward_ok`, with its errors.
pub fn topo_order_reverse_ok<T: Drop, ID: Hash + Eq + Clone + Drop, E: Drop, II, NI, F, N, C>(
    alloc: Global,
    start: II,
    id_fn: F,
    neighbors_fn: N,
    cycle_fn: C,
) -> Result<Vec<T>, WalkError<E>>
where
    II: IntoIterator<Item = Result<T, E>, IntoIter: Drop> + Drop,
    NI: IntoIterator<Item = Result<T, E>, IntoIter: Drop>,
    F: Fn(&T) -> Result<ID, AllocError> + Drop,
    N: FnMut(&T) -> NI + Drop,
    C: FnOnce(T) -> E + Drop,
    requires graph { (graph_of_items ID.eq F.Fn N.FnMut NI.IntoIterator NI.IntoIter.Iterator
        id_fn neighbors_fn).walkable }
    requires start { (list_of_items II.IntoIterator II.IntoIter.Iterator start).finite }
    requires clones { (x y : ID) → ID.is_clone x y → IsTrue (ID.eq x y) }
    requires cycle_fn { C.IsAlwaysCallable cycle_fn }
    ensures order { IfOk result (λ v. InEachModel
        (graph_of_items ID.eq F.Fn N.FnMut NI.IntoIterator NI.IntoIter.Iterator id_fn neighbors_fn)
        (list_of_items II.IntoIterator II.IntoIter.Iterator start)
        (λ g starts. IsWholePostorder g.graph starts (reverse (map g.node v.items)))) }
    ensures error { IfFails result (λ e. IsInputError
        (graph_of_items ID.eq F.Fn N.FnMut NI.IntoIterator NI.IntoIter.Iterator id_fn neighbors_fn)
        (list_of_items II.IntoIterator II.IntoIter.Iterator start) e
        ⊎ IsCycleError (C.post cycle_fn)
        (graph_of_items ID.eq F.Fn N.FnMut NI.IntoIterator NI.IntoIter.Iterator id_fn neighbors_fn)
        (list_of_items II.IntoIterator II.IntoIter.Iterator start) e) }
{
    let mut order = topo_order_forward_ok(alloc, start, id_fn, neighbors_fn, cycle_fn)?;
    order.reverse();
    Ok(order)
}
