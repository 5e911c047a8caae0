//! Postorder by depth-first search with an explicit stack, over items that may fail.
ghost use Rattle.std.specs.Prelude.{◌≡◌, ◌+◌, ◌≤◌, ◌<◌, ◌^◌, ◌++◌, ◌∷◌, [], List, Ok, Err, true, false, map, length, IfErr, OnOk, IsTrue};
ghost use Rattle.std.specs.Fn.{CalledAt, AlwaysReturns};
ghost use Rattle.std.specs.Iterator.{Drains, IsFinite, Yields, IsFiniteIterable};
ghost use Rattle.std.specs.Set.{is_member};
ghost use Rattle.jj_dag.specs.ClosureGraph.{graph_of_items, list_of_items, IsWalkable};
ghost use Rattle.jj_dag.specs.FallibleGraphs.{FailsAfterNodes};
ghost use Rattle.jj_dag.specs.NodeSets.{Updates};
ghost use Rattle.jj_dag.specs.Stops.{IfCycle, IfFailed, UnwindsFrom, WalksForward};
ghost use Rattle.jj_dag.specs.Walk.{DrainsTo};
ghost use Rattle.jj_dag.specs.declared.forward.Stop.{Stop};

use crate::node_set::NodeSet;
use std::alloc::{AllocError, AllocFailed, Global};

/// The error of a depth-first search.
#[derive(Drop)]
pub enum Stop<T, E> {
    /// Memory ran out.
    Memory,
    /// An item failed.
    Failed(E),
    /// The node is on a cycle.
    Cycle(T),
}

impl<T, E> From<AllocError> for Stop<T, E> {
    ghost from_gives = { λ _ error. error ≡ Stop.Memory };

    fn from(_error: AllocError) -> Self {
        Stop::Memory
    }
}

impl<X: Drop, T, E> From<AllocFailed<X>> for Stop<T, E> {
    ghost from_gives = { λ _ error. error ≡ Stop.Memory };

    fn from(_error: AllocFailed<X>) -> Self {
        Stop::Memory
    }
}

/// Returns the nodes that the starts reach, each once and after its neighbors; later starts and
/// later neighbors come first. Stops at the first failed item and at the first cycle. The sets,
/// which must be empty, get the ids of the nodes on the path and of the nodes in the order.
pub fn walk_forward<T: Drop, ID: Eq + Clone + Drop, E: Drop, V, II, NI, F, N>(
    alloc: Global,
    visiting: &mut V,
    emitted: &mut V,
    start: II,
    id_fn: F,
    mut neighbors_fn: N,
) -> Result<Vec<T>, Stop<T, E>>
where
    V: NodeSet<ID>,
    II: IntoIterator<Item = Result<T, E>, IntoIter: Drop> + Drop,
    NI: IntoIterator<Item = Result<T, E>, IntoIter: Drop>,
    F: Fn(&T) -> Result<ID, AllocError> + Drop,
    N: FnMut(&T) -> NI + Drop,
    requires graph { IsWalkable F.Fn N.FnMut (IsFiniteIterable NI.into_iter_gives
        NI.IntoIter.can_next NI.IntoIter.remaining) id_fn neighbors_fn }
    requires start { IsFiniteIterable II.into_iter_gives II.IntoIter.can_next II.IntoIter.remaining
        start }
    requires clones { (x y : ID) → ID.is_clone x y → IsTrue (ID.eq x y) }
    requires none_visiting { V.keys visiting.old ≡ [] }
    requires none_emitted { V.keys emitted.old ≡ [] }
    ensures { WalksForward (graph_of_items ID.eq F.Fn N.FnMut NI.IntoIterator NI.IntoIter.Iterator
        id_fn neighbors_fn) (list_of_items II.IntoIterator II.IntoIter.Iterator start) result }
{
    let mut stack: Vec<(T, bool)> = Vec::new(alloc);
    push_all(&mut stack, start.into_iter())?;
    unwind(
        alloc,
        visiting,
        emitted,
        &mut stack,
        &id_fn,
        &mut neighbors_fn,
    )
}

// Pushes the nodes of these items on the stack.
fn push_all<T: Drop, E: Drop, I>(stack: &mut Vec<(T, bool)>, items: I) -> Result<(), Stop<T, E>>
where
    I: Iterator<Item = Result<T, E>> + Drop,
    requires can { I.can_next items }
    requires finite { IsFinite (I.remaining items) }
    ensures nodes { OnOk result ((xs : List T) × Drains I.next_gives items (map (λ x. Ok x) xs)
        × (stack.new.items ≡ stack.old.items ++ map (λ x. (x, false)) xs)) }
    ensures failed { IfErr result (λ stop. IfFailed stop (λ error. (xs : List T) × (t : I)
        × Yields I.next_gives items (map (λ x. Ok x) xs ++ Err error ∷ []) t)) }
    ensures acyclic { IfErr result (λ stop. IfCycle stop (λ _. ⊥)) }
{
    for item in items {
        match item {
            Ok(node) => stack.push((node, false))?,
            Err(error) => return Err(Stop::Failed(error)),
        }
    }
    Ok(())
}

// Appends a node, all of whose neighbors were emitted, to the order.
fn finish<T: Drop, ID: Eq + Drop, V: NodeSet<ID>>(
    visiting: &mut V,
    emitted: &mut V,
    order: &mut Vec<T>,
    node: T,
    id: ID,
) -> Result<(), AllocError>
    ensures visiting { OnOk result (Updates ID.eq (V.keys visiting.old) (V.keys visiting.new) id
        false) }
    ensures emitted { OnOk result (Updates ID.eq (V.keys emitted.old) (V.keys emitted.new) id
        true) }
    ensures order { OnOk result (order.new.items ≡ order.old.items ++ node ∷ []) }
    ensures count { OnOk result (length (V.keys visiting.old)
        ≤ length (V.keys visiting.new) + 1) }
{
    visiting.remove(&id);
    emitted.insert(id)?;
    order.push(node)?;
    Ok(())
}

// Pushes a node, and its neighbors above it, unless it is being visited: then it is on a cycle.
fn enter<T: Drop, ID: Eq + Clone + Drop, E: Drop, V, NI, N>(
    stack: &mut Vec<(T, bool)>,
    visiting: &mut V,
    neighbors_fn: &mut N,
    node: T,
    id: &ID,
) -> Result<(), Stop<T, E>>
where
    V: NodeSet<ID>,
    NI: IntoIterator<Item = Result<T, E>, IntoIter: Drop>,
    N: FnMut(&T) -> NI,
    requires neighbors_fn { N.IsAlwaysCallable neighbors_fn.old }
    requires lists { AlwaysReturns N.FnMut (λ a r. IsFiniteIterable NI.into_iter_gives
        NI.IntoIter.can_next NI.IntoIter.remaining r) neighbors_fn.old }
    requires clones { (x y : ID) → ID.is_clone x y → IsTrue (ID.eq x y) }
    ensures neighbors_fn { OnOk result (N.IsAlwaysCallable neighbors_fn.new) }
    ensures lists { OnOk result (AlwaysReturns N.FnMut (λ a r. IsFiniteIterable NI.into_iter_gives
        NI.IntoIter.can_next NI.IntoIter.remaining r) neighbors_fn.new) }
    ensures neighbors { OnOk result ((list : NI) × (xs : List T)
        × CalledAt N.FnMut neighbors_fn.old node list neighbors_fn.new
        × DrainsTo NI.into_iter_gives NI.IntoIter.next_gives list (map (λ x. Ok x) xs)
        × (stack.new.items
        ≡ (stack.old.items ++ (node, true) ∷ []) ++ map (λ x. (x, false)) xs)) }
    ensures first { OnOk result (is_member ID.eq (V.keys visiting.old) id.now ≡ false) }
    ensures visiting { OnOk result (Updates ID.eq (V.keys visiting.old) (V.keys visiting.new)
        id.now true) }
    ensures count { OnOk result (length (V.keys visiting.new)
        ≡ length (V.keys visiting.old) + 1) }
    ensures small { OnOk result (length (V.keys visiting.old) < 2 ^ 63) }
    ensures failed { IfErr result (λ stop. IfFailed stop (λ error. (list : NI)
        × CalledAt N.FnMut neighbors_fn.old node list neighbors_fn.new
        × FailsAfterNodes NI.into_iter_gives NI.IntoIter.next_gives list error)) }
    ensures cycle { IfErr result (λ stop. IfCycle stop (λ x. (x ≡ node)
        × (is_member ID.eq (V.keys visiting.old) id.now ≡ true))) }
{
    // A set never has 2^63 ids, so the walk ends.
    let _count = visiting.len();
    if !visiting.insert(id.clone()?)? {
        return Err(Stop::Cycle(node));
    }
    let neighbors = neighbors_fn(&node).into_iter();
    stack.push((node, true))?;
    push_all(stack, neighbors)
}

// Searches from the nodes on the stack until it is empty. Returns their postorder.
fn unwind<T: Drop, ID: Eq + Clone + Drop, E: Drop, V, NI, F, N>(
    alloc: Global,
    visiting: &mut V,
    emitted: &mut V,
    stack: &mut Vec<(T, bool)>,
    id_fn: &F,
    neighbors_fn: &mut N,
) -> Result<Vec<T>, Stop<T, E>>
where
    V: NodeSet<ID>,
    NI: IntoIterator<Item = Result<T, E>, IntoIter: Drop>,
    F: Fn(&T) -> Result<ID, AllocError>,
    N: FnMut(&T) -> NI,
    requires graph { IsWalkable F.Fn N.FnMut (IsFiniteIterable NI.into_iter_gives
        NI.IntoIter.can_next NI.IntoIter.remaining) id_fn.now neighbors_fn.old }
    requires clones { (x y : ID) → ID.is_clone x y → IsTrue (ID.eq x y) }
    requires none_visiting { V.keys visiting.old ≡ [] }
    requires none_emitted { V.keys emitted.old ≡ [] }
    ensures { UnwindsFrom (graph_of_items ID.eq F.Fn N.FnMut NI.IntoIterator NI.IntoIter.Iterator
        id_fn.now neighbors_fn.old) stack.old.items result }
{
    let mut order = Vec::new(alloc);
    while let Some((node, neighbors_visited)) = stack.pop() {
        let id = id_fn(&node)?;
        if emitted.contains(&id) {
            continue;
        }
        if neighbors_visited {
            finish(visiting, emitted, &mut order, node, id)?;
            continue;
        }
        enter(stack, visiting, neighbors_fn, node, &id)?;
    }
    Ok(order)
}
