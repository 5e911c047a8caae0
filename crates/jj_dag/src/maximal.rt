//! Heads (maximal elements): breadth-first search that removes each node that it reaches from the
//! starts.
ghost use Rattle.std.specs.Prelude.{◌≡◌, ◌⊎◌, ◌+◌, ◌≤◌, ◌++◌, ◌∷◌, [], true, false, IfOk, OnOk, IfSome, IfNone, IsTrue, length};
ghost use Rattle.std.specs.Iterator.{IsFiniteIterable};
ghost use Rattle.std.specs.Fn.{CalledAt};
ghost use Rattle.std.specs.List.{Contains};
ghost use Rattle.std.specs.Set.{is_member};
ghost use Rattle.jj_dag.specs.FallibleGraphs.{FailsAfterNodes};
ghost use Rattle.jj_dag.specs.ClosureGraph.{InEachModel, IsInputError, ReturnsId, graph_of, graph_of_items, list_of, list_of_items, IsWalkable};
ghost use Rattle.jj_dag.specs.Found.{AreHeads};
ghost use Rattle.jj_dag.specs.HeadsSearch.{LeavesHeads, VisitsAll, TakesStarts};
ghost use Rattle.jj_dag.specs.NodeSets.{Updates};
ghost use Rattle.jj_dag.specs.Outcomes.{IfFails};

use crate::all_ok::AllOk;
use crate::node_set::NodeSet;
use crate::walk_error::WalkError;
use std::alloc::{AllocError, Global};
use std::collections::{HashSet, VecDeque};
use std::convert::Infallible;
use std::hash::Hash;
use std::marker::PhantomData;

/// Removes a neighbor from the heads, and makes it pending if its id is new.
pub fn visit_neighbor<T: Eq + Drop, ID: Eq + Drop, H: NodeSet<T>, V: NodeSet<ID>>(
    heads: &mut H,
    visited: &mut V,
    queue: &mut VecDeque<T>,
    neighbor: T,
    id: ID,
) -> Result<(), AllocError>
    ensures heads { Updates T.eq (H.keys heads.old) (H.keys heads.new) neighbor false }
    ensures keys { (x : T) → Contains (H.keys heads.new) x → Contains (H.keys heads.old) x }
    ensures visited { OnOk result (Updates ID.eq (V.keys visited.old) (V.keys visited.new) id
        true) }
    ensures known { OnOk result (is_member ID.eq (V.keys visited.old) id ≡ true
        → queue.new.items ≡ queue.old.items) }
    ensures new { OnOk result (is_member ID.eq (V.keys visited.old) id ≡ false
        → queue.new.items ≡ queue.old.items ++ neighbor ∷ []) }
    ensures grows { OnOk result (length queue.old.items ≤ length queue.new.items) }
    ensures balance { OnOk result (length (V.keys visited.new) + length queue.old.items
        ≡ length (V.keys visited.old) + length queue.new.items) }
{
    heads.remove(&neighbor);
    if visited.insert(id)? {
        queue.push_back(neighbor)?;
    }
    Ok(())
}

/// Returns the next node to expand. Within a level there is one; after a level there is none if no
/// node is pending, or if one is and no root was found.
pub fn pop_in_level<T>(queue: &mut VecDeque<T>, level: &mut usize, root_met: bool) -> Option<T>
    ensures first { IfSome result (λ node. queue.old.items ≡ node ∷ queue.new.items) }
    ensures few { IfNone result (length queue.old.items ≤ 1) }
    ensures rootless { IfNone result (IsTrue root_met → queue.old.items ≡ []) }
{
    if *level == 0 {
        *level = queue.len();
        if *level < 2 && !root_met {
            return None;
        }
    }
    let node = queue.pop_front()?;
    *level -= 1;
    Some(node)
}

/// Returns the nodes of `start` that no other of them reaches. The search ends early after a level
/// if one node is pending and no root (a node without neighbors) was found. Fails if memory runs
/// out. Takes `O(n + e)` for n nodes and e edges.
pub fn heads<T: Hash + Eq + Clone + Drop, ID: Hash + Eq + Drop, II, NI, F, N>(
    alloc: Global,
    start: II,
    id_fn: F,
    neighbors_fn: N,
) -> Result<HashSet<T>, AllocError>
where
    II: IntoIterator<Item = T, IntoIter: Drop> + Drop,
    NI: IntoIterator<Item = T, IntoIter: Drop>,
    F: Fn(&T) -> Result<ID, AllocError> + Drop,
    N: FnMut(&T) -> NI + Drop,
    requires graph { (graph_of ID.eq F.Fn {E = Infallible} N.FnMut NI.IntoIterator
        NI.IntoIter.Iterator id_fn neighbors_fn).walkable }
    requires start { (list_of {E = Infallible} II.IntoIterator II.IntoIter.Iterator start).finite }
    requires clones { (x y : T) → T.is_clone x y → IsTrue (T.eq x y) }
    ensures heads { IfOk result (λ heads. InEachModel {E = Infallible}
        (graph_of ID.eq F.Fn N.FnMut NI.IntoIterator NI.IntoIter.Iterator id_fn neighbors_fn)
        (list_of II.IntoIterator II.IntoIter.Iterator start)
        (λ g starts. AreHeads T.eq g starts heads.keys)) }
{
    let mut heads = HashSet::new(alloc);
    let mut visited: HashSet<ID> = HashSet::new(alloc);
    heads_in(alloc, &mut heads, &mut visited, start, id_fn, neighbors_fn)?;
    Ok(heads)
}

/// Like [`heads`], but stores the heads in the first set and the visited ids in the second. Both
/// sets must be empty; a caller that reuses them allocates once.
pub fn heads_in<T: Eq + Clone + Drop, ID: Eq + Drop, H, V, II, NI, F, N>(
    alloc: Global,
    heads: &mut H,
    visited: &mut V,
    start: II,
    id_fn: F,
    mut neighbors_fn: N,
) -> Result<(), AllocError>
where
    H: NodeSet<T>,
    V: NodeSet<ID>,
    II: IntoIterator<Item = T, IntoIter: Drop> + Drop,
    NI: IntoIterator<Item = T, IntoIter: Drop>,
    F: Fn(&T) -> Result<ID, AllocError> + Drop,
    N: FnMut(&T) -> NI + Drop,
    requires graph { (graph_of ID.eq F.Fn {E = Infallible} N.FnMut NI.IntoIterator
        NI.IntoIter.Iterator id_fn neighbors_fn).walkable }
    requires start { (list_of {E = Infallible} II.IntoIterator II.IntoIter.Iterator start).finite }
    requires clones { (x y : T) → T.is_clone x y → IsTrue (T.eq x y) }
    requires no_heads { H.keys heads.old ≡ [] }
    requires none_visited { V.keys visited.old ≡ [] }
    ensures heads { OnOk result (InEachModel {E = Infallible}
        (graph_of ID.eq F.Fn N.FnMut NI.IntoIterator NI.IntoIter.Iterator id_fn neighbors_fn)
        (list_of II.IntoIterator II.IntoIter.Iterator start)
        (λ g starts. AreHeads T.eq g starts (H.keys heads.new))) }
{
    let start = AllOk {
        items: start.into_iter(),
        error: PhantomData,
    };
    let found: Result<(), WalkError<Infallible>> = heads_ok_in(
        alloc,
        heads,
        visited,
        start,
        id_fn,
        move |node: &T| AllOk {
            items: neighbors_fn(node).into_iter(),
            error: PhantomData,
        },
    );
    match found {
        Ok(()) => Ok(()),
        Err(error) => match error {
            WalkError::Memory => Err(AllocError),
            WalkError::Node(never) => match never {},
        },
    }
}

/// Like [`heads`], but over items that may fail. Fails with `Node` of the error of the first item
/// that failed, and with `Memory` if memory runs out. Reads no item that comes after the end of the
/// search.
pub fn heads_ok<T: Hash + Eq + Clone + Drop, ID: Hash + Eq + Drop, E: Drop, II, NI, F, N>(
    alloc: Global,
    start: II,
    id_fn: F,
    neighbors_fn: N,
) -> Result<HashSet<T>, WalkError<E>>
where
    II: IntoIterator<Item = Result<T, E>, IntoIter: Drop> + Drop,
    NI: IntoIterator<Item = Result<T, E>, IntoIter: Drop>,
    F: Fn(&T) -> Result<ID, AllocError> + Drop,
    N: FnMut(&T) -> NI + Drop,
    // The closures may be called for any node, and return lists that end.
    requires graph { (graph_of_items ID.eq F.Fn N.FnMut NI.IntoIterator NI.IntoIter.Iterator
        id_fn neighbors_fn).walkable }
    // The list of starts ends.
    requires start { (list_of_items II.IntoIterator II.IntoIter.Iterator start).finite }
    // A clone equals its original.
    requires clones { (x y : T) → T.is_clone x y → IsTrue (T.eq x y) }
    // In each graph that the closures implement, the heads are exactly the starts that no other
    // start reaches, if the starts reach no cycle and equal values are one node.
    ensures heads { IfOk result (λ heads. InEachModel
        (graph_of_items ID.eq F.Fn N.FnMut NI.IntoIterator NI.IntoIter.Iterator id_fn neighbors_fn)
        (list_of_items II.IntoIterator II.IntoIter.Iterator start)
        (λ g starts. AreHeads T.eq g starts heads.keys)) }
    // An error but `Memory` is that of a failed start, or one that may be returned for a node that
    // the starts reach.
    ensures error { IfFails result (IsInputError
        (graph_of_items ID.eq F.Fn N.FnMut NI.IntoIterator NI.IntoIter.Iterator id_fn neighbors_fn)
        (list_of_items II.IntoIterator II.IntoIter.Iterator start)) }
{
    let mut heads = HashSet::new(alloc);
    let mut visited: HashSet<ID> = HashSet::new(alloc);
    heads_ok_in(alloc, &mut heads, &mut visited, start, id_fn, neighbors_fn)?;
    Ok(heads)
}

// Like `heads_ok`, but stores the heads in the first set and the visited ids in the second. Both
// sets must be empty.
fn heads_ok_in<T: Eq + Clone + Drop, ID: Eq + Drop, E: Drop, H, V, II, NI, F, N>(
    alloc: Global,
    heads: &mut H,
    visited: &mut V,
    start: II,
    id_fn: F,
    mut neighbors_fn: N,
) -> Result<(), WalkError<E>>
where
    H: NodeSet<T>,
    V: NodeSet<ID>,
    II: IntoIterator<Item = Result<T, E>, IntoIter: Drop> + Drop,
    NI: IntoIterator<Item = Result<T, E>, IntoIter: Drop>,
    F: Fn(&T) -> Result<ID, AllocError> + Drop,
    N: FnMut(&T) -> NI + Drop,
    requires graph { (graph_of_items ID.eq F.Fn N.FnMut NI.IntoIterator NI.IntoIter.Iterator
        id_fn neighbors_fn).walkable }
    requires start { (list_of_items II.IntoIterator II.IntoIter.Iterator start).finite }
    requires clones { (x y : T) → T.is_clone x y → IsTrue (T.eq x y) }
    requires no_heads { H.keys heads.old ≡ [] }
    requires none_visited { V.keys visited.old ≡ [] }
    ensures heads { OnOk result (InEachModel
        (graph_of_items ID.eq F.Fn N.FnMut NI.IntoIterator NI.IntoIter.Iterator id_fn neighbors_fn)
        (list_of_items II.IntoIterator II.IntoIter.Iterator start)
        (λ g starts. AreHeads T.eq g starts (H.keys heads.new))) }
    ensures error { IfFails result (IsInputError
        (graph_of_items ID.eq F.Fn N.FnMut NI.IntoIterator NI.IntoIter.Iterator id_fn neighbors_fn)
        (list_of_items II.IntoIterator II.IntoIter.Iterator start)) }
{
    let mut queue = VecDeque::new(alloc);
    add_starts(heads, visited, &mut queue, start, &id_fn)?;
    expand_all(heads, visited, &mut queue, &id_fn, &mut neighbors_fn)
}

// Makes a start a head and pending, and its id visited.
fn add_start<T: Eq + Clone + Drop, ID: Eq + Drop, H: NodeSet<T>, V: NodeSet<ID>>(
    heads: &mut H,
    visited: &mut V,
    queue: &mut VecDeque<T>,
    node: T,
    id: ID,
) -> Result<(), AllocError>
    requires clones { (x y : T) → T.is_clone x y → IsTrue (T.eq x y) }
    ensures visited { OnOk result (Updates ID.eq (V.keys visited.old) (V.keys visited.new) id
        true) }
    ensures heads { OnOk result (Updates T.eq (H.keys heads.old) (H.keys heads.new) node true) }
    ensures keys { OnOk result ((x : T) → Contains (H.keys heads.new) x
        → Contains (H.keys heads.old) x ⊎ (T.eq node x ≡ true)) }
    ensures queue { OnOk result (queue.new.items ≡ queue.old.items ++ node ∷ []) }
{
    visited.insert(id)?;
    heads.insert(node.clone()?)?;
    queue.push_back(node)?;
    Ok(())
}

// Adds each start that equals no earlier one.
fn add_starts<T: Eq + Clone + Drop, ID: Eq + Drop, E: Drop, H, V, II, F>(
    heads: &mut H,
    visited: &mut V,
    queue: &mut VecDeque<T>,
    start: II,
    id_fn: &F,
) -> Result<(), WalkError<E>>
where
    H: NodeSet<T>,
    V: NodeSet<ID>,
    II: IntoIterator<Item = Result<T, E>, IntoIter: Drop>,
    F: Fn(&T) -> Result<ID, AllocError>,
    requires id_fn { F.IsAlwaysCallable id_fn.now }
    requires start { IsFiniteIterable II.into_iter_gives II.IntoIter.can_next II.IntoIter.remaining
        start }
    requires clones { (x y : T) → T.is_clone x y → IsTrue (T.eq x y) }
    requires no_heads { H.keys heads.old ≡ [] }
    requires none_visited { V.keys visited.old ≡ [] }
    requires none_queued { queue.old.items ≡ [] }
    ensures starts { OnOk result (TakesStarts T.eq ID.eq (ReturnsId F.Fn id_fn.now)
        II.into_iter_gives II.IntoIter.next_gives start (H.keys heads.new) (V.keys visited.new)
        queue.new.items) }
    ensures failed { IfFails result (FailsAfterNodes II.into_iter_gives II.IntoIter.next_gives
        start) }
{
    for item in start {
        let node = match item {
            Ok(node) => node,
            Err(error) => return Err(WalkError::Node(error)),
        };
        if heads.contains(&node) {
            continue;
        }
        let id = id_fn(&node)?;
        add_start(heads, visited, queue, node, id)?;
    }
    Ok(())
}

// Removes each neighbor of a node from the heads. Returns whether there is none.
fn visit_neighbors<T: Eq + Drop, ID: Eq + Drop, E: Drop, H, V, NI, F, N>(
    heads: &mut H,
    visited: &mut V,
    queue: &mut VecDeque<T>,
    id_fn: &F,
    neighbors_fn: &mut N,
    node: &T,
) -> Result<bool, WalkError<E>>
where
    H: NodeSet<T>,
    V: NodeSet<ID>,
    NI: IntoIterator<Item = Result<T, E>, IntoIter: Drop>,
    F: Fn(&T) -> Result<ID, AllocError>,
    N: FnMut(&T) -> NI,
    requires graph { IsWalkable F.Fn N.FnMut (IsFiniteIterable NI.into_iter_gives
        NI.IntoIter.can_next NI.IntoIter.remaining) id_fn.now neighbors_fn.old }
    ensures graph { OnOk result (IsWalkable F.Fn N.FnMut (IsFiniteIterable NI.into_iter_gives
        NI.IntoIter.can_next NI.IntoIter.remaining) id_fn.now neighbors_fn.new) }
    ensures met { IfOk result (λ empty. (list : NI)
        × CalledAt N.FnMut neighbors_fn.old node.now list neighbors_fn.new
        × VisitsAll T.eq ID.eq (ReturnsId F.Fn id_fn.now) NI.into_iter_gives
        NI.IntoIter.next_gives list (H.keys heads.old) (H.keys heads.new) (V.keys visited.old)
        (V.keys visited.new) queue.old.items queue.new.items empty) }
    ensures grows { OnOk result (length queue.old.items ≤ length queue.new.items) }
    ensures balance { OnOk result (length (V.keys visited.new) + length queue.old.items
        ≡ length (V.keys visited.old) + length queue.new.items) }
    ensures error { IfFails result (λ error. (list : NI)
        × CalledAt N.FnMut neighbors_fn.old node.now list neighbors_fn.new
        × FailsAfterNodes NI.into_iter_gives NI.IntoIter.next_gives list error) }
{
    let mut empty = true;
    for neighbor in neighbors_fn(node) {
        empty = false;
        let neighbor = match neighbor {
            Ok(neighbor) => neighbor,
            Err(error) => return Err(WalkError::Node(error)),
        };
        let id = id_fn(&neighbor)?;
        visit_neighbor(heads, visited, queue, neighbor, id)?;
    }
    Ok(empty)
}

// Expands the pending nodes, level by level, and removes their neighbors from the heads.
fn expand_all<T: Eq + Drop, ID: Eq + Drop, E: Drop, H, V, NI, F, N>(
    heads: &mut H,
    visited: &mut V,
    queue: &mut VecDeque<T>,
    id_fn: &F,
    neighbors_fn: &mut N,
) -> Result<(), WalkError<E>>
where
    H: NodeSet<T>,
    V: NodeSet<ID>,
    NI: IntoIterator<Item = Result<T, E>, IntoIter: Drop>,
    F: Fn(&T) -> Result<ID, AllocError>,
    N: FnMut(&T) -> NI,
    requires graph { IsWalkable F.Fn N.FnMut (IsFiniteIterable NI.into_iter_gives
        NI.IntoIter.can_next NI.IntoIter.remaining) id_fn.now neighbors_fn.old }
    ensures { LeavesHeads T.eq ID.eq (graph_of_items ID.eq F.Fn N.FnMut NI.IntoIterator
        NI.IntoIter.Iterator id_fn.now neighbors_fn.old) (H.keys heads.old) (V.keys visited.old)
        queue.old.items result (H.keys heads.new) }
{
    let mut root_met = false;
    let mut level = 0;
    while let Some(node) = pop_in_level(queue, &mut level, root_met) {
        // A set never has 2^63 ids, so the walk ends.
        let _count = visited.len();
        let is_root = visit_neighbors(heads, visited, queue, id_fn, neighbors_fn, &node)?;
        root_met |= is_root;
    }
    // No two keys of a set are equal.
    let _count = heads.len();
    Ok(())
}
