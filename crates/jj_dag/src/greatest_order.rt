//! The lexicographically greatest topological order: Kahn's algorithm with a max-heap.
ghost use Rattle.std.specs.Prelude.{◌≡◌, ◌⊎◌, ℕ, ◌<◌, ◌∷◌, ◌++◌, [], map, length, slice_index, slice_index_or, slice_set, IfOk, IsSome, OnOk, MatchOption};
ghost use Rattle.std.specs.List.{Contains, filter_map};
ghost use Rattle.std.specs.List.Sorted.{IsPermutation};
ghost use Rattle.std.specs.BinaryHeap.{heap_items, KeepsHeap};
ghost use Rattle.std.specs.Ordering.{nat_cmp, ordering_then};
ghost use Rattle.jj_dag.specs.Collecting.{IsFilled, index_in, neighbor_indices};
ghost use Rattle.jj_dag.specs.ClosureGraph.{InEachModel, IsInputError, IsMadeBesideCycle, graph_of_items, list_of_items};
ghost use Rattle.jj_dag.specs.GreatestOrder.{IsGreatestOrder};
ghost use Rattle.jj_dag.specs.NodeMaps.{UpdatesEntry};
ghost use Rattle.jj_dag.specs.Outcomes.{IfFails};
ghost use Rattle.jj_dag.specs.PackedLists.{lists_of};
ghost use Rattle.jj_dag.specs.ReadyNodes.{TakesGreatestFirst, in_degree, index_graph};

use crate::closures::Closures;
use crate::collect_ok::collect_ok;
use crate::node_map::NodeMap;
use crate::packed_lists::PackedLists;
use crate::walk_error::WalkError;
use std::alloc::{AllocError, Global};
use std::collections::{BinaryHeap, HashMap};
use std::hash::Hash;
use std::mem;

/// Returns the nodes that the starts reach, each before its neighbors; the next node is always the
/// greatest whose children all came before. Fails with `Node` of the error of a failed start or
/// neighbor, with `Node` of `cycle_fn` of some node that the starts reach if they reach a cycle,
/// and with `Memory` if memory runs out. Takes `O(n log n + e)` for n nodes and e edges.
pub fn topo_order_reverse_ord<T: Ord + Drop, ID: Hash + Eq + Drop, E: Drop, II, NI, F, N, C>(
    alloc: Global,
    start: II,
    id_fn: F,
    neighbors_fn: N,
    cycle_fn: C,
) -> Result<Vec<T>, WalkError<E>>
where
    II: IntoIterator<Item = Result<T, E>, IntoIter: Drop>,
    NI: IntoIterator<Item = Result<T, E>, IntoIter: Drop>,
    F: Fn(&T) -> Result<ID, AllocError> + Drop,
    N: FnMut(&T) -> NI + Drop,
    C: FnOnce(T) -> E + Drop,
    // The closures may be called for any node, and return lists that end.
    requires graph { (graph_of_items ID.eq F.Fn N.FnMut NI.IntoIterator NI.IntoIter.Iterator id_fn
        neighbors_fn).walkable }
    // `cycle_fn` may be called with any node.
    requires cycle_fn { C.IsAlwaysCallable cycle_fn }
    // The list of starts ends.
    requires start { (list_of_items II.IntoIterator II.IntoIter.Iterator start).finite }
    // In each graph that the closures implement, the order has the nodes that the starts reach,
    // each once and before its neighbors, and they reach no cycle; where another such order first
    // differs, its value there is not greater.
    ensures order { IfOk result (λ v. InEachModel
        (graph_of_items ID.eq F.Fn N.FnMut NI.IntoIterator NI.IntoIter.Iterator id_fn neighbors_fn)
        (list_of_items II.IntoIterator II.IntoIter.Iterator start)
        (λ g starts. IsGreatestOrder T.cmp g starts v.items)) }
    // An error but `Memory` is that of a failed start, or one that may be returned for a node that
    // the starts reach, or that of `cycle_fn` for such a node, if a cycle is reachable.
    ensures error { IfFails result (λ e. IsInputError
        (graph_of_items ID.eq F.Fn N.FnMut NI.IntoIterator NI.IntoIter.Iterator id_fn neighbors_fn)
        (list_of_items II.IntoIterator II.IntoIter.Iterator start) e
        ⊎ IsMadeBesideCycle (C.post cycle_fn)
        (graph_of_items ID.eq F.Fn N.FnMut NI.IntoIterator NI.IntoIter.Iterator id_fn neighbors_fn)
        (list_of_items II.IntoIterator II.IntoIter.Iterator start) e) }
{
    let mut index_of: HashMap<ID, usize> = HashMap::new(alloc);
    topo_order_reverse_ord_in(alloc, &mut index_of, start, id_fn, neighbors_fn, cycle_fn)
}

/// Like [`topo_order_reverse_ord`], but stores the index of each id in the given map, which must be
/// empty; a caller that reuses it allocates once.
pub fn topo_order_reverse_ord_in<T: Ord + Drop, ID: Eq + Drop, E: Drop, M, II, NI, F, N, C>(
    alloc: Global,
    index_of: &mut M,
    start: II,
    id_fn: F,
    neighbors_fn: N,
    cycle_fn: C,
) -> Result<Vec<T>, WalkError<E>>
where
    M: NodeMap<ID, usize>,
    II: IntoIterator<Item = Result<T, E>, IntoIter: Drop>,
    NI: IntoIterator<Item = Result<T, E>, IntoIter: Drop>,
    F: Fn(&T) -> Result<ID, AllocError> + Drop,
    N: FnMut(&T) -> NI + Drop,
    C: FnOnce(T) -> E + Drop,
    requires graph { (graph_of_items ID.eq F.Fn N.FnMut NI.IntoIterator NI.IntoIter.Iterator id_fn
        neighbors_fn).walkable }
    requires cycle_fn { C.IsAlwaysCallable cycle_fn }
    requires start { (list_of_items II.IntoIterator II.IntoIter.Iterator start).finite }
    requires none_indexed { M.entries index_of.old ≡ [] }
    ensures order { IfOk result (λ v. InEachModel
        (graph_of_items ID.eq F.Fn N.FnMut NI.IntoIterator NI.IntoIter.Iterator id_fn neighbors_fn)
        (list_of_items II.IntoIterator II.IntoIter.Iterator start)
        (λ g starts. IsGreatestOrder T.cmp g starts v.items)) }
    ensures error { IfFails result (λ e. IsInputError
        (graph_of_items ID.eq F.Fn N.FnMut NI.IntoIterator NI.IntoIter.Iterator id_fn neighbors_fn)
        (list_of_items II.IntoIterator II.IntoIter.Iterator start) e
        ⊎ IsMadeBesideCycle (C.post cycle_fn)
        (graph_of_items ID.eq F.Fn N.FnMut NI.IntoIterator NI.IntoIter.Iterator id_fn neighbors_fn)
        (list_of_items II.IntoIterator II.IntoIter.Iterator start) e) }
{
    let nodes = collect_ok(alloc, start)?;
    let mut graph = Closures {
        id_fn,
        neighbors_fn,
    };
    let found = graph.collect(alloc, index_of, nodes)?;
    let (order, left) = found.into_greatest_order(alloc, index_of)?;
    match left {
        Some(node) => Err(WalkError::Node(cycle_fn(node))),
        None => Ok(order),
    }
}

// Moves the node at this index, if it is still pending, to the ready nodes.
fn make_ready<T: Ord + Drop>(
    pending: &mut Vec<Option<T>>,
    ready: &mut BinaryHeap<(T, usize)>,
    index: usize,
) -> Result<(), AllocError>
    requires { index < length pending.old.items }
    ensures pending { OnOk result (pending.new.items ≡ slice_set pending.old.items index None) }
    ensures ready { OnOk result (MatchOption (slice_index_or pending.old.items index None)
        (heap_items ready.new ≡ heap_items ready.old)
        (λ x. IsPermutation ((x, index) ∷ heap_items ready.old) (heap_items ready.new))) }
    ensures heap_order { OnOk result (KeepsHeap
        (λ x y. ordering_then (T.cmp x.0 y.0) (nat_cmp x.1 y.1)) (heap_items ready.old)
        (heap_items ready.new)) }
{
    if let Some(node) = mem::replace(&mut pending[index], None) {
        ready.push((node, index))?;
    }
    Ok(())
}

/// Adjacency lists of ids: the nodes that a walk visited, in that order, and the ids of the
/// neighbors of each. A map beside it has the index of each id.
#[derive(Drop)]
pub struct IndexedGraph<T, ID> {
    pub nodes: Vec<Option<T>>,
    pub neighbor_ids: Vec<Vec<ID>>,
}

impl<T: Drop, ID: Eq + Drop> IndexedGraph<T, ID> {
    /// Creates an empty graph.
    pub fn new(alloc: Global) -> Self
        ensures nodes { result.nodes.items ≡ [] }
        ensures ids { result.neighbor_ids.items ≡ [] }
    {
        IndexedGraph {
            nodes: Vec::new(alloc),
            neighbor_ids: Vec::new(alloc),
        }
    }

    /// Appends a node with the ids of its neighbors, and stores its index in the map. Fails if
    /// memory runs out.
    pub fn add_node<M: NodeMap<ID, usize>>(
        &mut self,
        index_of: &mut M,
        node: T,
        id: ID,
        neighbor_ids: Vec<ID>,
    ) -> Result<(), AllocError>
        ensures nodes { OnOk result (self.new.nodes.items
            ≡ self.old.nodes.items ++ Some node ∷ []) }
        ensures ids { OnOk result (self.new.neighbor_ids.items
            ≡ self.old.neighbor_ids.items ++ neighbor_ids ∷ []) }
        ensures indices { OnOk result (UpdatesEntry ID.eq (M.entries index_of.old)
            (M.entries index_of.new) id (length self.old.nodes.items)) }
    {
        index_of.insert(id, self.nodes.len())?;
        self.nodes.push(Some(node))?;
        self.neighbor_ids.push(neighbor_ids)?;
        Ok(())
    }
}

impl<T: Ord + Drop, ID: Eq + Drop> IndexedGraph<T, ID> {
    /// Returns the nodes in the greatest topological order by Kahn's algorithm, and a node that is
    /// left if there is a cycle. Fails if memory runs out.
    pub fn into_greatest_order<M: NodeMap<ID, usize>>(
        self,
        alloc: Global,
        index_of: &M,
    ) -> Result<(Vec<T>, Option<T>), AllocError>
        requires { IsFilled (index_in ID.eq (M.entries index_of.now)) self }
        ensures { IfOk result (TakesGreatestFirst T.cmp self.nodes.items
            (neighbor_indices (index_in ID.eq (M.entries index_of.now)) self)) }
    {
        let IndexedGraph {
            nodes,
            neighbor_ids,
        } = self;
        let (targets, indegrees) = link(alloc, index_of, &neighbor_ids)?;
        take_greatest_first(alloc, nodes, &targets, indegrees)
    }
}

// Returns the indices of the neighbors of each node, and the in-degree of each index.
fn link<ID: Eq + Drop, M: NodeMap<ID, usize>>(
    alloc: Global,
    index_of: &M,
    neighbor_ids: &[Vec<ID>],
) -> Result<(PackedLists, Vec<usize>), AllocError>
    requires { (i : ID) (k : ℕ) → index_in ID.eq (M.entries index_of.now) i ≡ Some k
        → k < length neighbor_ids.now }
    ensures targets { IfOk result (λ r. lists_of r.0
        ≡ map (λ v. filter_map (index_in ID.eq (M.entries index_of.now)) v.items)
        neighbor_ids.now) }
    ensures counts { IfOk result (λ r. length r.1.items ≡ length neighbor_ids.now) }
    ensures indegrees { IfOk result (λ r. (k : ℕ) → k < length neighbor_ids.now
        → slice_index r.1.items k ≡ in_degree (lists_of r.0) k) }
{
    let mut indegrees: Vec<usize> = vec![in alloc; 0; neighbor_ids.len()]?;
    let mut targets = PackedLists::new(alloc);
    for ids in neighbor_ids {
        for id in ids {
            if let Some(index) = index_of.get(id) {
                // More edges than a `usize` counts do not fit into memory.
                let Some(count) = indegrees[index].checked_add(1) else {
                    return Err(AllocError);
                };
                indegrees[index] = count;
                targets.push(index)?;
            }
        }
        targets.finish_list()?;
    }
    Ok((targets, indegrees))
}

// Kahn's algorithm with a max-heap. Returns the order and, if nodes on or below a cycle are left,
// one of them.
fn take_greatest_first<T: Ord + Drop>(
    alloc: Global,
    mut pending: Vec<Option<T>>,
    targets: &PackedLists,
    mut indegrees: Vec<usize>,
) -> Result<(Vec<T>, Option<T>), AllocError>
    requires present { (k : ℕ) → k < length pending.items
        → IsSome (slice_index_or pending.items k None) }
    requires lists { length (lists_of targets.now) ≡ length pending.items }
    requires counts { length indegrees.items ≡ length pending.items }
    requires within { (a b : ℕ) → Contains (index_graph (lists_of targets.now) a) b
        → b < length pending.items }
    requires indegrees { (k : ℕ) → k < length pending.items
        → slice_index indegrees.items k ≡ in_degree (lists_of targets.now) k }
    ensures { IfOk result (TakesGreatestFirst T.cmp pending.items (lists_of targets.now)) }
{
    let mut ready = BinaryHeap::new(alloc);
    for index in 0..indegrees.len() {
        if indegrees[index] == 0 {
            make_ready(&mut pending, &mut ready, index)?;
        }
    }
    let mut order = Vec::new(alloc);
    while let Some((node, index)) = ready.pop() {
        order.push(node)?;
        for target in targets.list(index) {
            let target = *target;
            indegrees[target] -= 1;
            if indegrees[target] == 0 {
                make_ready(&mut pending, &mut ready, target)?;
            }
        }
    }
    for left in 0..pending.len() {
        if pending[left].is_some() {
            return Ok((order, pending.swap_remove(left)));
        }
    }
    Ok((order, None))
}
