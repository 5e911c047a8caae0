//! Closest common nodes (merge bases): a best-first search with a max-heap that labels each node
//! with the sets that reach it.
ghost use Rattle.std.specs.Prelude.{◌≡◌, ◌+◌, ◌≤◌, ◌<◌, ◌^◌, ◌&&◌, ◌∷◌, ◌++◌, [], IfOk, IsTrue, Ok, Err, OnOk, MatchBool, cond, map};
ghost use Rattle.std.specs.Iterator.{IsFiniteIterable};
ghost use Rattle.std.specs.BinaryHeap.{KeepsHeap, heap_items, heap_len};
ghost use Rattle.std.specs.Fn.{CalledAt};
ghost use Rattle.std.specs.List.Sorted.{IsPermutation};
ghost use Rattle.indexmap.specs.IndexMap.{insert_entry};
ghost use Rattle.jj_dag.specs.ClosureGraph.{InEachModelOfTwo, IsNeighborsErrorOfTwo, ReturnsId, graph_of_lists, list_of, IsWalkable};
ghost use Rattle.jj_dag.specs.Found.{AreClosestNodes, FindsClosestCommon};
ghost use Rattle.jj_dag.specs.CommonSearch.{SearchesCommon};
ghost use Rattle.jj_dag.specs.NodeStates.{RelaxesAll, state_at, union_of_sides, adds_side, state_with, becomes_pending, no_longer_pending, propagated, sides_met, closest_of};
ghost use Rattle.jj_dag.specs.Outcomes.{IfFails};

use crate::node_map::NodeMap;
use crate::walk_error::WalkError;
use indexmap::IndexMap;
use std::alloc::{AllocError, Global};
use std::collections::{BinaryHeap, HashMap};
use std::hash::Hash;

/// Whether the first set, the second set, and another common node are known to reach a node.
#[derive(Clone, Copy)]
pub struct Sides {
    pub left: bool,
    pub right: bool,
    pub below: bool,
}

/// The sets that are known to reach a node, and whether it is pending.
#[derive(Clone, Copy)]
pub struct NodeState {
    pub sides: Sides,
    pub is_pending: bool,
}

impl Sides {
    /// The first set reaches the node.
    pub const LEFT: Sides = Sides {
        left: true,
        right: false,
        below: false,
    };

    /// The second set reaches the node.
    pub const RIGHT: Sides = Sides {
        left: false,
        right: true,
        below: false,
    };

    /// Returns whether both sets reach the node.
    pub fn is_common(self) -> bool
        ensures { result ≡ (self.left && self.right) }
    {
        self.left && self.right
    }

    /// Returns the sides that a node passes to its neighbors: those of a common node are below it.
    pub fn propagated(self) -> Sides
        ensures { result ≡ propagated self }
    {
        Sides {
            left: self.left,
            right: self.right,
            below: self.is_common(),
        }
    }

    fn union(self, added: Sides) -> Sides
        ensures { result ≡ union_of_sides self added }
    {
        Sides {
            left: self.left || added.left,
            right: self.right || added.right,
            below: self.below || added.below,
        }
    }

    // Returns whether `added` has another set.
    fn adds_side(self, added: Sides) -> bool
        ensures { result ≡ adds_side self added }
    {
        (added.left && !self.left) || (added.right && !self.right)
    }
}

impl NodeState {
    /// Returns the state with more sides. If another set reaches the node now, it is pending.
    pub fn with_sides(self, added: Sides) -> NodeState
        ensures { result ≡ state_with self added }
    {
        NodeState {
            sides: self.sides.union(added),
            is_pending: self.is_pending || self.sides.adds_side(added),
        }
    }

    // Returns whether the node becomes pending by `added`.
    fn becomes_pending(self, added: Sides) -> bool
        ensures { result ≡ becomes_pending self added }
    {
        self.sides.adds_side(added) && !self.is_pending
    }
}

/// Returns the state of the node with this id.
pub fn state_of<ID: Eq, M: NodeMap<ID, NodeState>>(known: &M, id: &ID) -> NodeState
    ensures { result ≡ state_at ID.eq (M.entries known.now) id.now }
{
    match known.get(id) {
        Some(state) => state,
        None => NodeState {
            sides: Sides {
                left: false,
                right: false,
                below: false,
            },
            is_pending: false,
        },
    }
}

/// Adds to the state of a node. If another set reaches it now, it becomes pending. Fails if memory
/// runs out.
pub fn relax<T: Ord + Drop, ID: Eq + Drop, M: NodeMap<ID, NodeState>>(
    known: &mut M,
    pending: &mut BinaryHeap<T>,
    node: T,
    id: ID,
    sides: Sides,
) -> Result<(), AllocError>
    ensures known { OnOk result ((i : ID) → state_at ID.eq (M.entries known.new) i
        ≡ cond (ID.eq id i) (state_with (state_at ID.eq (M.entries known.old) id) sides)
        (state_at ID.eq (M.entries known.old) i)) }
    ensures pending { OnOk result (MatchBool
        (becomes_pending (state_at ID.eq (M.entries known.old) id) sides)
        (IsPermutation (node ∷ heap_items pending.old) (heap_items pending.new))
        (heap_items pending.new ≡ heap_items pending.old)) }
    ensures heap_order { KeepsHeap T.cmp (heap_items pending.old) (heap_items pending.new) }
    ensures balance { OnOk result (sides_met (M.entries known.old) + heap_len pending.new
        ≤ sides_met (M.entries known.new) + heap_len pending.old) }
    ensures small { OnOk result (sides_met (M.entries known.new) < 2 ^ 64) }
{
    let state = state_of(known, &id);
    known.insert(id, state.with_sides(sides))?;
    // A map never has 2^63 ids, so the search ends.
    let _count = known.len();
    if state.becomes_pending(sides) {
        pending.push(node)?;
    }
    Ok(())
}

/// Returns the state of a pending node, and makes the node no longer pending.
pub fn take_queued<ID: Eq, M: NodeMap<ID, NodeState>>(known: &mut M, id: &ID) -> Sides
    ensures sides { result ≡ (state_at ID.eq (M.entries known.old) id.now).sides }
    ensures known { IsTrue (state_at ID.eq (M.entries known.old) id.now).is_pending → (i : ID)
        → state_at ID.eq (M.entries known.new) i ≡ cond (ID.eq id.now i)
        (no_longer_pending (state_at ID.eq (M.entries known.old) id.now))
        (state_at ID.eq (M.entries known.old) i) }
    ensures side_count { sides_met (M.entries known.new) ≡ sides_met (M.entries known.old) }
{
    match known.get(id) {
        Some(state) => {
            let sides = state.sides;
            known.update(
                id,
                NodeState {
                    sides,
                    is_pending: false,
                },
            );
            sides
        }
        None => Sides {
            left: false,
            right: false,
            below: false,
        },
    }
}

// Adds a node that both sets reach to the candidates.
fn keep_common<T: Drop, ID: Hash + Eq + Drop>(
    common: &mut IndexMap<ID, T>,
    sides: Sides,
    node: T,
    id: ID,
) -> Result<(), AllocError>
    ensures { OnOk result (common.new.entries ≡ cond (sides.left && sides.right)
        (insert_entry ID.eq common.old.entries id node) common.old.entries) }
{
    if sides.is_common() {
        common.insert(id, node)?;
    }
    Ok(())
}

// Returns the candidates that no other common node is known to reach.
fn closest<T: Drop, ID: Hash + Eq + Drop, M: NodeMap<ID, NodeState>>(
    alloc: Global,
    known: &M,
    common: IndexMap<ID, T>,
) -> Result<Vec<T>, AllocError>
    ensures { IfOk result (λ v. v.items ≡ closest_of (state_at ID.eq (M.entries known.now))
        common.entries) }
{
    let mut closest = Vec::new(alloc);
    for (id, node) in common {
        if !state_of(known, &id).sides.below {
            closest.push(node)?;
        }
    }
    Ok(closest)
}

/// Returns the nodes that both sets reach and that no other such node reaches, each once. The
/// greatest pending node is expanded next, at most once for one set and once for both; the search
/// ends early if one node is pending, both sets reach it, and no root (a node without neighbors)
/// was found. Fails with `Node` of the error of the first list that failed, and with `Memory` if
/// memory runs out. Takes `O(n log n + e)` for n nodes and e edges.
pub fn closest_common_nodes<T: Ord + Drop, ID: Hash + Eq + Drop, E: Drop, II1, II2, NI, F, N>(
    alloc: Global,
    set1: II1,
    set2: II2,
    id_fn: F,
    neighbors_fn: N,
) -> Result<Vec<T>, WalkError<E>>
where
    II1: IntoIterator<Item = T, IntoIter: Drop>,
    II2: IntoIterator<Item = T, IntoIter: Drop> + Drop,
    NI: IntoIterator<Item = T, IntoIter: Drop>,
    F: Fn(&T) -> Result<ID, AllocError> + Drop,
    N: FnMut(&T) -> Result<NI, E> + Drop,
    // The closures may be called for any node, and return lists that end.
    requires graph { (graph_of_lists ID.eq F.Fn N.FnMut NI.IntoIterator NI.IntoIter.Iterator id_fn
        neighbors_fn).walkable }
    // The list of the first set ends.
    requires set1 { (list_of {E = E} II1.IntoIterator II1.IntoIter.Iterator set1).finite }
    // The list of the second set ends.
    requires set2 { (list_of {E = E} II2.IntoIterator II2.IntoIter.Iterator set2).finite }
    // In each graph that the closures implement, the nodes are exactly those that both sets reach
    // and that no other such node reaches, each once, if no cycle is reached from both sets.
    ensures closest { IfOk result (λ v. InEachModelOfTwo
        (graph_of_lists ID.eq F.Fn N.FnMut NI.IntoIterator NI.IntoIter.Iterator id_fn neighbors_fn)
        (list_of II1.IntoIterator II1.IntoIter.Iterator set1)
        (list_of II2.IntoIterator II2.IntoIter.Iterator set2)
        (λ g nodes1 nodes2. AreClosestNodes g nodes1 nodes2 v.items)) }
    // An error but `Memory` is one that may be returned for a node that one of the sets reaches.
    ensures error { IfFails result (IsNeighborsErrorOfTwo
        (graph_of_lists ID.eq F.Fn N.FnMut NI.IntoIterator NI.IntoIter.Iterator id_fn neighbors_fn)
        (list_of II1.IntoIterator II1.IntoIter.Iterator set1)
        (list_of II2.IntoIterator II2.IntoIter.Iterator set2)) }
{
    let mut known: HashMap<ID, NodeState> = HashMap::new(alloc);
    closest_common_nodes_in(alloc, &mut known, set1, set2, id_fn, neighbors_fn)
}

/// Like [`closest_common_nodes`], but stores the states of nodes in the given map, which must be
/// empty; a caller that reuses it allocates once.
pub fn closest_common_nodes_in<T: Ord + Drop, ID: Hash + Eq + Drop, E: Drop, M, II1, II2, NI, F, N>(
    alloc: Global,
    known: &mut M,
    set1: II1,
    set2: II2,
    id_fn: F,
    mut neighbors_fn: N,
) -> Result<Vec<T>, WalkError<E>>
where
    M: NodeMap<ID, NodeState>,
    II1: IntoIterator<Item = T, IntoIter: Drop>,
    II2: IntoIterator<Item = T, IntoIter: Drop> + Drop,
    NI: IntoIterator<Item = T, IntoIter: Drop>,
    F: Fn(&T) -> Result<ID, AllocError> + Drop,
    N: FnMut(&T) -> Result<NI, E> + Drop,
    requires graph { (graph_of_lists ID.eq F.Fn N.FnMut NI.IntoIterator NI.IntoIter.Iterator id_fn
        neighbors_fn).walkable }
    requires set1 { (list_of {E = E} II1.IntoIterator II1.IntoIter.Iterator set1).finite }
    requires set2 { (list_of {E = E} II2.IntoIterator II2.IntoIter.Iterator set2).finite }
    requires none_known { M.entries known.old ≡ [] }
    ensures closest { IfOk result (λ v. InEachModelOfTwo
        (graph_of_lists ID.eq F.Fn N.FnMut NI.IntoIterator NI.IntoIter.Iterator id_fn neighbors_fn)
        (list_of II1.IntoIterator II1.IntoIter.Iterator set1)
        (list_of II2.IntoIterator II2.IntoIter.Iterator set2)
        (λ g nodes1 nodes2. AreClosestNodes g nodes1 nodes2 v.items)) }
    ensures error { IfFails result (IsNeighborsErrorOfTwo
        (graph_of_lists ID.eq F.Fn N.FnMut NI.IntoIterator NI.IntoIter.Iterator id_fn neighbors_fn)
        (list_of II1.IntoIterator II1.IntoIter.Iterator set1)
        (list_of II2.IntoIterator II2.IntoIter.Iterator set2)) }
{
    let common = common_nodes(alloc, known, set1, set2, &id_fn, &mut neighbors_fn)?;
    Ok(closest(alloc, known, common)?)
}

// Adds to the state of each node of a list. Returns whether the list is empty.
fn relax_all<T: Ord + Drop, ID: Eq + Drop, M, I, F>(
    known: &mut M,
    pending: &mut BinaryHeap<T>,
    nodes: I,
    id_fn: &F,
    sides: Sides,
) -> Result<bool, AllocError>
where
    M: NodeMap<ID, NodeState>,
    I: IntoIterator<Item = T, IntoIter: Drop>,
    F: Fn(&T) -> Result<ID, AllocError>,
    requires id_fn { F.IsAlwaysCallable id_fn.now }
    requires nodes { IsFiniteIterable I.into_iter_gives I.IntoIter.can_next I.IntoIter.remaining
        nodes }
    ensures states { IfOk result (RelaxesAll ID.eq (ReturnsId F.Fn id_fn.now) I.into_iter_gives
        I.IntoIter.next_gives nodes sides (state_at ID.eq (M.entries known.old))
        (state_at ID.eq (M.entries known.new)) (heap_items pending.old) (heap_items pending.new)) }
    ensures balance { OnOk result (sides_met (M.entries known.old) + heap_len pending.new
        ≤ sides_met (M.entries known.new) + heap_len pending.old) }
    ensures small { OnOk result (sides_met (M.entries known.old) < 2 ^ 64
        → sides_met (M.entries known.new) < 2 ^ 64) }
{
    let mut empty = true;
    for node in nodes {
        empty = false;
        let id = id_fn(&node)?;
        relax(known, pending, node, id, sides)?;
    }
    Ok(empty)
}

// Adds to the state of each neighbor of a node. Returns whether there is none.
fn relax_neighbors<T: Ord + Drop, ID: Eq + Drop, E: Drop, M, NI, F, N>(
    known: &mut M,
    pending: &mut BinaryHeap<T>,
    id_fn: &F,
    neighbors_fn: &mut N,
    node: &T,
    sides: Sides,
) -> Result<bool, WalkError<E>>
where
    M: NodeMap<ID, NodeState>,
    NI: IntoIterator<Item = T, IntoIter: Drop>,
    F: Fn(&T) -> Result<ID, AllocError>,
    N: FnMut(&T) -> Result<NI, E>,
    requires { IsWalkable F.Fn N.FnMut (λ r. IfOk r (IsFiniteIterable NI.into_iter_gives
        NI.IntoIter.can_next NI.IntoIter.remaining)) id_fn.now neighbors_fn.old }
    ensures graph { IsWalkable F.Fn N.FnMut (λ r. IfOk r (IsFiniteIterable NI.into_iter_gives
        NI.IntoIter.can_next NI.IntoIter.remaining)) id_fn.now neighbors_fn.new }
    ensures states { IfOk result (λ empty. (list : NI)
        × CalledAt N.FnMut neighbors_fn.old node.now (Ok list) neighbors_fn.new
        × RelaxesAll ID.eq (ReturnsId F.Fn id_fn.now) NI.into_iter_gives NI.IntoIter.next_gives
        list sides (state_at ID.eq (M.entries known.old)) (state_at ID.eq (M.entries known.new))
        (heap_items pending.old) (heap_items pending.new) empty) }
    ensures balance { OnOk result (sides_met (M.entries known.old) + heap_len pending.new
        ≤ sides_met (M.entries known.new) + heap_len pending.old) }
    ensures small { OnOk result (sides_met (M.entries known.old) < 2 ^ 64
        → sides_met (M.entries known.new) < 2 ^ 64) }
    ensures error { IfFails result (λ error.
        CalledAt N.FnMut neighbors_fn.old node.now (Err error) neighbors_fn.new) }
{
    match neighbors_fn(node) {
        Ok(list) => Ok(relax_all(known, pending, list, id_fn, sides)?),
        Err(error) => Err(WalkError::Node(error)),
    }
}

// Expands the greatest pending node until the search ends, and collects those that both sets
// reach.
fn search<T: Ord + Drop, ID: Hash + Eq + Drop, E: Drop, M, NI, F, N>(
    known: &mut M,
    common: &mut IndexMap<ID, T>,
    pending: &mut BinaryHeap<T>,
    id_fn: &F,
    neighbors_fn: &mut N,
) -> Result<(), WalkError<E>>
where
    M: NodeMap<ID, NodeState>,
    NI: IntoIterator<Item = T, IntoIter: Drop>,
    F: Fn(&T) -> Result<ID, AllocError>,
    N: FnMut(&T) -> Result<NI, E>,
    requires graph { IsWalkable F.Fn N.FnMut (λ r. IfOk r (IsFiniteIterable NI.into_iter_gives
        NI.IntoIter.can_next NI.IntoIter.remaining)) id_fn.now neighbors_fn.old }
    requires small { sides_met (M.entries known.old) < 2 ^ 64 }
    requires none { common.old.entries ≡ [] }
    ensures { SearchesCommon (graph_of_lists ID.eq F.Fn N.FnMut NI.IntoIterator
        NI.IntoIter.Iterator id_fn.now neighbors_fn.old) (state_at ID.eq (M.entries known.old))
        (heap_items pending.old) result
        (λ _. closest_of (state_at ID.eq (M.entries known.new)) common.new.entries) }
{
    let mut root_met = false;
    while let Some(node) = pending.pop() {
        let id = id_fn(&node)?;
        let sides = take_queued(known, &id);
        if sides.is_common() && pending.is_empty() && !root_met {
            common.insert(id, node)?;
            return Ok(());
        }
        let above = sides.propagated();
        let is_root = relax_neighbors(known, pending, id_fn, neighbors_fn, &node, above)?;
        root_met |= is_root;
        keep_common(common, sides, node, id)?;
    }
    Ok(())
}

// Returns the common nodes that the search finds, by id and in the order found.
fn common_nodes<T: Ord + Drop, ID: Hash + Eq + Drop, E: Drop, M, II1, II2, NI, F, N>(
    alloc: Global,
    known: &mut M,
    set1: II1,
    set2: II2,
    id_fn: &F,
    neighbors_fn: &mut N,
) -> Result<IndexMap<ID, T>, WalkError<E>>
where
    M: NodeMap<ID, NodeState>,
    II1: IntoIterator<Item = T, IntoIter: Drop>,
    II2: IntoIterator<Item = T, IntoIter: Drop> + Drop,
    NI: IntoIterator<Item = T, IntoIter: Drop>,
    F: Fn(&T) -> Result<ID, AllocError>,
    N: FnMut(&T) -> Result<NI, E>,
    requires graph { IsWalkable F.Fn N.FnMut (λ r. IfOk r (IsFiniteIterable NI.into_iter_gives
        NI.IntoIter.can_next NI.IntoIter.remaining)) id_fn.now neighbors_fn.old }
    requires set1 { IsFiniteIterable II1.into_iter_gives II1.IntoIter.can_next
        II1.IntoIter.remaining set1 }
    requires set2 { IsFiniteIterable II2.into_iter_gives II2.IntoIter.can_next
        II2.IntoIter.remaining set2 }
    requires none_known { M.entries known.old ≡ [] }
    ensures { FindsClosestCommon (graph_of_lists ID.eq F.Fn N.FnMut NI.IntoIterator
        NI.IntoIter.Iterator id_fn.now neighbors_fn.old)
        (list_of II1.IntoIterator II1.IntoIter.Iterator set1)
        (list_of II2.IntoIterator II2.IntoIter.Iterator set2) result
        (λ common. closest_of (state_at ID.eq (M.entries known.new)) common.entries) }
{
    let mut common = IndexMap::new(alloc);
    let mut pending = BinaryHeap::new(alloc);
    relax_all(known, &mut pending, set1, id_fn, Sides::LEFT)?;
    relax_all(known, &mut pending, set2, id_fn, Sides::RIGHT)?;
    search(known, &mut common, &mut pending, id_fn, neighbors_fn)?;
    Ok(common)
}
