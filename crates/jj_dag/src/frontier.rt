//! The frontier of a search for common nodes that expands the pending node of the greatest rank,
//! and lists of nodes for the test whether a side has open ones.
ghost use Rattle.std.specs.Prelude.{◌≡◌, ◌⊎◌, ◌+◌, ◌≤◌, ◌<◌, ◌^◌, ◌∷◌, ℕ, [], All, true, false, eqb, map, IfSome, IfNone, OnOk, OnSome};
ghost use Rattle.std.specs.BinaryHeap.{IsHeap, IsHeap-prop, heap_items, heap_len};
ghost use Rattle.std.specs.List.{Contains};
ghost use Rattle.std.specs.List.Sorted.{IsPermutation};
ghost use Rattle.std.specs.Ordering.{nat_cmp, ordering_then};
ghost use Rattle.jj_dag.specs.Frontiers.{HasNoneOpen, ListsOpen, left_side, right_side};
ghost use Rattle.jj_dag.specs.Frontiers.{is_open as is_open_from};
ghost use Rattle.jj_dag.specs.NodeStates.{RelaxesNode, RelaxesNodes, sides_met, state_at};
ghost use Rattle.jj_dag.specs.NumberSets.{entries_of};
ghost use Rattle.jj_dag.specs.Ranks.{rank_in};

use crate::closest_common::{NodeState, Sides, relax, state_of};
use crate::node_map::NodeMap;
use crate::number_set::NumberMap;
use crate::ranks::Ranks;
use std::alloc::{AllocError, Global};
use std::collections::BinaryHeap;

/// The pending nodes of a search, and those that may be open.
#[derive(Drop)]
pub struct Frontier {
    // Ranks and nodes.
    pub pending: BinaryHeap<(usize, usize)>,
    // All nodes that are open from the left, and others.
    pub left: Vec<usize>,
    // All nodes that are open from the right, and others.
    pub right: Vec<usize>,
    ghost heap_order: { IsHeap (λ x y. ordering_then (nat_cmp x.0 y.0) (nat_cmp x.1 y.1))
        (heap_items pending) } by { IsHeap-prop _ _ },
}

// Returns whether a node is pending, reached from this side, and not known to be below a common
// node.
fn is_open(state: NodeState, side: Sides) -> bool
    ensures { result ≡ is_open_from state side }
{
    ((side.left && state.sides.left) || (side.right && state.sides.right))
        && state.is_pending
        && !state.sides.below
}

// Appends a node if it became open from this side.
fn push_open(
    nodes: &mut Vec<usize>,
    node: usize,
    before: NodeState,
    after: NodeState,
    side: Sides,
) -> Result<(), AllocError>
    ensures { OnOk result (((n : ℕ) → Contains nodes.old.items n → Contains nodes.new.items n)
        × (is_open_from after side ≡ true
        → (is_open_from before side ≡ true) ⊎ Contains nodes.new.items node)) }
{
    if is_open(after, side) && !is_open(before, side) {
        nodes.push(node)?;
    }
    Ok(())
}

// Removes nodes from the end of the list until the last one is open from this side. Returns whether
// there is one.
fn has_open(known: &NumberMap<NodeState>, nodes: &mut Vec<usize>, side: Sides) -> bool
    ensures kept { (n : ℕ) → Contains nodes.old.items n
        → is_open_from (state_at eqb (entries_of known.now) n) side ≡ true
        → Contains nodes.new.items n }
    ensures none { result ≡ false → nodes.new.items ≡ [] }
{
    while let Some(node) = nodes.last() {
        if is_open(state_of(known, node), side) {
            return true;
        }
        nodes.pop();
    }
    false
}

impl Frontier {
    /// Creates an empty frontier.
    pub fn new(alloc: Global) -> Frontier
        ensures pending { heap_items result.pending ≡ [] }
        ensures left { result.left.items ≡ [] }
        ensures right { result.right.items ≡ [] }
    {
        Frontier {
            pending: BinaryHeap::new(alloc),
            left: Vec::new(alloc),
            right: Vec::new(alloc),
        }
    }

    // Adds to the state of a node.
    fn relax(
        &mut self,
        known: &mut NumberMap<NodeState>,
        rank: usize,
        node: usize,
        sides: Sides,
    ) -> Result<(), AllocError>
        ensures relaxed { OnOk result (RelaxesNode eqb sides (rank, node) node
            (state_at eqb (entries_of known.old)) (state_at eqb (entries_of known.new))
            (heap_items self.old.pending) (heap_items self.new.pending)) }
        ensures listed { OnOk result (ListsOpen (state_at eqb (entries_of known.old))
            self.old.left.items self.old.right.items
            → ListsOpen (state_at eqb (entries_of known.new))
            self.new.left.items self.new.right.items) }
        ensures balance { OnOk result (sides_met (entries_of known.old) + heap_len self.new.pending
            ≤ sides_met (entries_of known.new) + heap_len self.old.pending) }
        ensures small { OnOk result (sides_met (entries_of known.new) < 2 ^ 64) }
    {
        let before = state_of(known, &node);
        relax(known, &mut self.pending, (rank, node), node, sides)?;
        let after = before.with_sides(sides);
        push_open(&mut self.left, node, before, after, Sides::LEFT)?;
        push_open(&mut self.right, node, before, after, Sides::RIGHT)
    }

    /// Adds to the state of each node of a list.
    pub fn relax_all(
        &mut self,
        known: &mut NumberMap<NodeState>,
        ranks: &Ranks,
        nodes: &[usize],
        sides: Sides,
    ) -> Result<(), AllocError>
        ensures relaxed { OnOk result (RelaxesNodes eqb (λ entry node. node ≡ entry.1) sides
            (state_at eqb (entries_of known.old)) (heap_items self.old.pending)
            (map (λ node. (rank_in ranks.now node, node)) nodes.now)
            (state_at eqb (entries_of known.new)) (heap_items self.new.pending)) }
        ensures listed { OnOk result (ListsOpen (state_at eqb (entries_of known.old))
            self.old.left.items self.old.right.items
            → ListsOpen (state_at eqb (entries_of known.new))
            self.new.left.items self.new.right.items) }
        ensures balance { OnOk result (sides_met (entries_of known.old) + heap_len self.new.pending
            ≤ sides_met (entries_of known.new) + heap_len self.old.pending) }
        ensures small { OnOk result (sides_met (entries_of known.old) < 2 ^ 64
            → sides_met (entries_of known.new) < 2 ^ 64) }
    {
        for node in nodes {
            self.relax(known, ranks.rank(*node), *node, sides)?;
        }
        Ok(())
    }

    /// Removes and returns the pending node of the greatest rank, unless a side has no open node.
    pub fn pop(&mut self, known: &NumberMap<NodeState>) -> Option<usize>
        ensures some { IfSome result (λ node. (rank : ℕ)
            × IsPermutation (heap_items self.old.pending)
            ((rank, node) ∷ heap_items self.new.pending)
            × All (λ entry. entry.0 ≤ rank) (heap_items self.new.pending)) }
        ensures len { OnSome result (heap_len self.new.pending + 1 ≡ heap_len self.old.pending) }
        ensures listed { ListsOpen (state_at eqb (entries_of known.now))
            self.old.left.items self.old.right.items
            → ListsOpen (state_at eqb (entries_of known.now))
            self.new.left.items self.new.right.items }
        ensures none { IfNone result (ListsOpen (state_at eqb (entries_of known.now))
            self.old.left.items self.old.right.items
            → HasNoneOpen (state_at eqb (entries_of known.now)) left_side
            ⊎ (HasNoneOpen (state_at eqb (entries_of known.now)) right_side
            ⊎ (heap_items self.old.pending ≡ []))) }
        ensures kept { IfNone result (heap_items self.new.pending
            ≡ heap_items self.old.pending) }
    {
        if !has_open(known, &mut self.left, Sides::LEFT) {
            return None;
        }
        if !has_open(known, &mut self.right, Sides::RIGHT) {
            return None;
        }
        let (_rank, node) = self.pending.pop()?;
        Some(node)
    }
}
