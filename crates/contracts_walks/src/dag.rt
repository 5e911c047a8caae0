//! Callers of `jj_dag`.
ghost use Rattle.std.specs.Prelude.{◌≡◌, ◌⊎◌, IfOk, IsTrue, eqb, false, map};
ghost use Rattle.std.specs.Set.{is_member};
ghost use Rattle.jj_dag.specs.ClosureGraph.{InEachModel, InEachModelOfTwo, IsCycleError, IsInputError, IsMadeBesideCycle, IsNeighborsErrorOfTwo, graph_of_items, graph_of_lists, list_of, list_of_items};
ghost use Rattle.jj_dag.specs.Found.{AreClosestNodes, AreHeads};
ghost use Rattle.jj_dag.specs.GreatestOrder.{IsGreatestOrder};
ghost use Rattle.jj_dag.specs.Orders.{IsWholePostorder};
ghost use Rattle.jj_dag.specs.NodeSets.{Updates};
ghost use Rattle.jj_dag.specs.Outcomes.{IfFails};

use jj_dag::dag_walk::{self, WalkError};
use jj_dag::dag_walk_async;
use jj_dag::dense_set::DenseSet;
use jj_dag::node_set::NodeSet;
use std::alloc::{AllocError, Global};
use std::collections::HashSet;
use std::hash::Hash;

/// `heads_ok`.
pub fn heads_ok<T: Hash + Eq + Clone + Drop, ID: Hash + Eq + Drop, E: Drop, II, NI, F, N>(
    alloc: Global,
    start: II,
    id_fn: F,
    neighbors_fn: N,
) -> Result<HashSet<T>, WalkError<E>>
where
    II: IntoIterator<Item = Result<T, E>, IntoIter: Drop> + Drop,
    NI: IntoIterator<Item = Result<T, E>, IntoIter: Drop>,
    F: Fn(&T) -> Result<ID, AllocError> + Drop,
    N: FnMut(&T) -> NI + Drop,
    requires graph { (graph_of_items ID.eq F.Fn N.FnMut NI.IntoIterator NI.IntoIter.Iterator
        id_fn neighbors_fn).walkable }
    requires start { (list_of_items II.IntoIterator II.IntoIter.Iterator start).finite }
    requires clones { (x y : T) → T.is_clone x y → IsTrue (T.eq x y) }
    ensures heads { IfOk result (λ heads. InEachModel
        (graph_of_items ID.eq F.Fn N.FnMut NI.IntoIterator NI.IntoIter.Iterator id_fn neighbors_fn)
        (list_of_items II.IntoIterator II.IntoIter.Iterator start)
        (λ g starts. AreHeads T.eq g starts heads.keys)) }
    ensures error { IfFails result (IsInputError
        (graph_of_items ID.eq F.Fn N.FnMut NI.IntoIterator NI.IntoIter.Iterator id_fn neighbors_fn)
        (list_of_items II.IntoIterator II.IntoIter.Iterator start)) }
{
    let found = dag_walk::heads_ok(alloc, start, id_fn, neighbors_fn);
    found
}

/// `closest_common_nodes`.
pub fn closest_common_nodes<T: Ord + Drop, ID: Hash + Eq + Drop, E: Drop, II1, II2, NI, F, N>(
    alloc: Global,
    set1: II1,
    set2: II2,
    id_fn: F,
    neighbors_fn: N,
) -> Result<Vec<T>, WalkError<E>>
where
    II1: IntoIterator<Item = T, IntoIter: Drop>,
    II2: IntoIterator<Item = T, IntoIter: Drop> + Drop,
    NI: IntoIterator<Item = T, IntoIter: Drop>,
    F: Fn(&T) -> Result<ID, AllocError> + Drop,
    N: FnMut(&T) -> Result<NI, E> + Drop,
    requires graph { (graph_of_lists ID.eq F.Fn N.FnMut NI.IntoIterator NI.IntoIter.Iterator id_fn
        neighbors_fn).walkable }
    requires set1 { (list_of {E = E} II1.IntoIterator II1.IntoIter.Iterator set1).finite }
    requires set2 { (list_of {E = E} II2.IntoIterator II2.IntoIter.Iterator set2).finite }
    ensures closest { IfOk result (λ v. InEachModelOfTwo
        (graph_of_lists ID.eq F.Fn N.FnMut NI.IntoIterator NI.IntoIter.Iterator id_fn neighbors_fn)
        (list_of II1.IntoIterator II1.IntoIter.Iterator set1)
        (list_of II2.IntoIterator II2.IntoIter.Iterator set2)
        (λ g nodes1 nodes2. AreClosestNodes g nodes1 nodes2 v.items)) }
    ensures error { IfFails result (IsNeighborsErrorOfTwo
        (graph_of_lists ID.eq F.Fn N.FnMut NI.IntoIterator NI.IntoIter.Iterator id_fn neighbors_fn)
        (list_of II1.IntoIterator II1.IntoIter.Iterator set1)
        (list_of II2.IntoIterator II2.IntoIter.Iterator set2)) }
{
    let found = dag_walk_async::closest_common_nodes(alloc, set1, set2, id_fn, neighbors_fn);
    found
}

/// `topo_order_forward_ok`.
pub fn topo_order_forward_ok<T: Drop, ID: Hash + Eq + Clone + Drop, E: Drop, II, NI, F, N, C>(
    alloc: Global,
    start: II,
    id_fn: F,
    neighbors_fn: N,
    cycle_fn: C,
) -> Result<Vec<T>, WalkError<E>>
where
    II: IntoIterator<Item = Result<T, E>, IntoIter: Drop> + Drop,
    NI: IntoIterator<Item = Result<T, E>, IntoIter: Drop>,
    F: Fn(&T) -> Result<ID, AllocError> + Drop,
    N: FnMut(&T) -> NI + Drop,
    C: FnOnce(T) -> E + Drop,
    requires graph { (graph_of_items ID.eq F.Fn N.FnMut NI.IntoIterator NI.IntoIter.Iterator
        id_fn neighbors_fn).walkable }
    requires start { (list_of_items II.IntoIterator II.IntoIter.Iterator start).finite }
    requires clones { (x y : ID) → ID.is_clone x y → IsTrue (ID.eq x y) }
    requires cycle_fn { C.IsAlwaysCallable cycle_fn }
    ensures order { IfOk result (λ v. InEachModel
        (graph_of_items ID.eq F.Fn N.FnMut NI.IntoIterator NI.IntoIter.Iterator id_fn neighbors_fn)
        (list_of_items II.IntoIterator II.IntoIter.Iterator start)
        (λ g starts. IsWholePostorder g.graph starts (map g.node v.items))) }
    ensures error { IfFails result (λ e. IsInputError
        (graph_of_items ID.eq F.Fn N.FnMut NI.IntoIterator NI.IntoIter.Iterator id_fn neighbors_fn)
        (list_of_items II.IntoIterator II.IntoIter.Iterator start) e
        ⊎ IsCycleError (C.post cycle_fn)
        (graph_of_items ID.eq F.Fn N.FnMut NI.IntoIterator NI.IntoIter.Iterator id_fn neighbors_fn)
        (list_of_items II.IntoIterator II.IntoIter.Iterator start) e) }
{
    let found = dag_walk::topo_order_forward_ok(alloc, start, id_fn, neighbors_fn, cycle_fn);
    found
}

/// `topo_order_reverse_ord`.
pub fn topo_order_reverse_ord<T: Ord + Drop, ID, E: Drop, II, NI, F, N, C>(
    alloc: Global,
    start: II,
    id_fn: F,
    neighbors_fn: N,
    cycle_fn: C,
) -> Result<Vec<T>, WalkError<E>>
where
    ID: Hash + Eq + Clone + Drop,
    II: IntoIterator<Item = Result<T, E>, IntoIter: Drop> + Drop,
    NI: IntoIterator<Item = Result<T, E>, IntoIter: Drop>,
    F: Fn(&T) -> Result<ID, AllocError> + Drop,
    N: FnMut(&T) -> NI + Drop,
    C: FnOnce(T) -> E + Drop,
    requires graph { (graph_of_items ID.eq F.Fn N.FnMut NI.IntoIterator NI.IntoIter.Iterator id_fn
        neighbors_fn).walkable }
    requires cycle_fn { C.IsAlwaysCallable cycle_fn }
    requires start { (list_of_items II.IntoIterator II.IntoIter.Iterator start).finite }
    requires clones { (x y : ID) → ID.is_clone x y → IsTrue (ID.eq x y) }
    ensures order { IfOk result (λ v. InEachModel
        (graph_of_items ID.eq F.Fn N.FnMut NI.IntoIterator NI.IntoIter.Iterator id_fn neighbors_fn)
        (list_of_items II.IntoIterator II.IntoIter.Iterator start)
        (λ g starts. IsGreatestOrder T.cmp g starts v.items)) }
    ensures error { IfFails result (λ e. IsInputError
        (graph_of_items ID.eq F.Fn N.FnMut NI.IntoIterator NI.IntoIter.Iterator id_fn neighbors_fn)
        (list_of_items II.IntoIterator II.IntoIter.Iterator start) e
        ⊎ IsMadeBesideCycle (C.post cycle_fn)
        (graph_of_items ID.eq F.Fn N.FnMut NI.IntoIterator NI.IntoIter.Iterator id_fn neighbors_fn)
        (list_of_items II.IntoIterator II.IntoIter.Iterator start) e) }
{
    let found = dag_walk_async::topo_order_reverse_ord(alloc, start, id_fn, neighbors_fn, cycle_fn);
    found
}

/// `NodeSet::remove` of `DenseSet`.
pub fn remove(set: &mut DenseSet, number: usize) -> bool
    ensures removed { result ≡ is_member eqb set.old number }
    ensures updates { Updates eqb set.old set.new number false }
{
    set.remove(&number)
}
