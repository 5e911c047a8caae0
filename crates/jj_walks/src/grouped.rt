//! Grouped topological order, children first: Kahn's algorithm with a stack, so that the last ready
//! target comes next and branches stay together.
ghost use Rattle.std.specs.Prelude.{◌≡◌, ◌+◌, ◌<◌, ◌∷◌, [], None, Some, Ok, IfOk, IfErr, IsSome, IsTrue, OnOk, OnErr, true, false};
ghost use Rattle.std.specs.HashMap.{hash_map_len};
ghost use Rattle.std.specs.Iterator.{at_most, size};
ghost use Rattle.jj_walks.specs.Grouped.{Entry, History, Prioritized, Read};
ghost use Rattle.jj_walks.specs.GroupedSteps.{CanRead, ReturnsNext, IsCause, IsEntryOf, Item, as_item};
ghost use Rattle.jj_walks.specs.PendingNodes.{Adds, Keeps, KeepsOn};
ghost use Rattle.jj_walks.specs.declared.grouped.GroupedGraphError.{GroupedGraphError};

use crate::ended::item_or_end;
use crate::graph::GraphNode;
use crate::pending_nodes::{PendingNodes, Ready};
use std::alloc::{AllocError, AllocFailed, Global};
use std::error::Error;
use std::fmt;
use std::hash::Hash;

/// The error of a grouped graph. A node is pending from when it was read until it is yielded. An id
/// is required from when it was prioritized, or an edge to it that is not missing was read, until
/// its node is yielded.
#[derive(Debug, PartialEq, Eq, Drop)]
pub enum GroupedGraphError<E> {
    /// An error of the input.
    Input(E),
    /// The input yielded an id while a node with this id was pending.
    DuplicateId,
    /// The input has ended without the node of a required id.
    MissingNode,
    /// The input is not in topological order: each pending node has a pending child.
    NotChildFirst,
    /// Memory ran out.
    Memory,
}

/// A graph of an input in topological order, children first, that yields branches one by one. Reads
/// a node of the input only when no pending node is ready.
#[derive(Debug, Clone, Drop)]
pub struct TopoGroupedGraph<N, ID: Hash + Eq, S, F> {
    input: S,
    as_id: F,
    pending: PendingNodes<N, ID>,
}

/// Iterates over the nodes of a grouped graph, children first. An error is the last item.
#[derive(Drop)]
pub struct GroupedNodes<N, ID: Hash + Eq, S, F> {
    graph: TopoGroupedGraph<N, ID, S, F>,
    has_ended: bool,
}

impl<N: Drop, ID: Hash + Eq + Clone + Drop, E: Drop, S, F> TopoGroupedGraph<N, ID, S, F>
where
    S: Iterator<Item = Result<GraphNode<N, ID>, E>> + Drop,
    F: Fn(&N) -> &ID + Drop,
{
    /// Creates a graph of this input. `as_id` returns a reference to a node's id. Reads nothing.
    pub fn new(alloc: Global, input: S, as_id: F) -> Self
        ensures input { result.input ≡ input }
        ensures as_id { result.as_id ≡ as_id }
        ensures pending { Keeps ID.eq [] result.pending }
    {
        TopoGroupedGraph {
            input,
            as_id,
            pending: PendingNodes::new(alloc),
        }
    }

    /// Puts the branch that leads to this id first, or after those prioritized before. Fails if
    /// memory runs out; the graph is then as it was.
    pub fn prioritize_branch(&mut self, id: ID) -> Result<(), AllocError>
        requires clones { (i j : ID) → ID.is_clone i j → IsTrue (ID.eq i j) }
        ensures prioritized { OnOk result (Adds ID.eq (Prioritized id) self.old.pending
            self.new.pending) }
        ensures on_error { OnErr result (KeepsOn ID.eq self.old.pending self.new.pending) }
        ensures input { self.new.input ≡ self.old.input }
        ensures as_id { self.new.as_id ≡ self.old.as_id }
    {
        self.pending.prioritize(id)
    }

    /// Returns an iterator over the nodes.
    pub fn stream(self) -> GroupedNodes<N, ID, S, F>
        ensures graph { result.graph ≡ self }
        ensures has_ended { result.has_ended ≡ false }
    {
        GroupedNodes {
            graph: self,
            has_ended: false,
        }
    }

    fn next_node(&mut self) -> Result<Option<GraphNode<N, ID>>, GroupedGraphError<E>>
        requires { CanRead F.Fn ID.eq ID.is_clone S.can_next S.remaining self.old }
        ensures can_read { IfOk result (λ o. IsSome o
            → CanRead F.Fn ID.eq ID.is_clone S.can_next S.remaining self.new) }
        ensures left { IfOk result (λ o. IsSome o
            → size (S.remaining self.new.input) + hash_map_len self.new.pending.nodes < size
            (S.remaining self.old.input) + hash_map_len self.old.pending.nodes) }
        ensures next { (h : History N ID) → Keeps ID.eq h self.old.pending
            → ReturnsNext F.Fn ID.eq S.next_gives h self.old (as_item result) self.new }
    {
        'reading: loop {
            let is_unread = match self.pending.pop_ready()? {
                Ready::Node(node) => return Ok(Some(node)),
                Ready::Unread => true,
                Ready::Nothing => false,
            };
            match self.read_next() {
                Ok(true) => {}
                Ok(false) if is_unread => return Err(GroupedGraphError::MissingNode),
                Ok(false) if self.pending.is_empty() => return Ok(None),
                Ok(false) => return Err(GroupedGraphError::NotChildFirst),
                Err(error) => return Err(error),
            }
        }
    }

    // Reads a node of the input. Returns `false` if the input has ended.
    fn read_next(&mut self) -> Result<bool, GroupedGraphError<E>>
        requires { CanRead F.Fn ID.eq ID.is_clone S.can_next S.remaining self.old }
        ensures as_id { self.new.as_id ≡ self.old.as_id }
        ensures can_read { IfOk result (λ more. more ≡ true
            → CanRead F.Fn ID.eq ID.is_clone S.can_next S.remaining self.new) }
        ensures left { IfOk result (λ more. more ≡ true
            → (size (S.remaining self.new.input) < size (S.remaining self.old.input))
            × (hash_map_len self.new.pending.nodes ≡ hash_map_len self.old.pending.nodes + 1)) }
        ensures read { IfOk result (λ more. more ≡ true → (item : Item N ID) × (e : Entry N ID)
            × S.next_gives self.old.input (Some (Ok item)) self.new.input
            × IsEntryOf F.Fn ID.eq self.old.as_id item e
            × Adds ID.eq (Read e) self.old.pending self.new.pending) }
        ensures ended { IfOk result (λ more. more ≡ false → S.next_gives self.old.input None
            self.new.input × (self.new.pending ≡ self.old.pending)) }
        ensures error { IfErr result (λ error.
            ((h : History N ID) → Keeps ID.eq h self.old.pending
            → IsCause F.Fn ID.eq S.next_gives self.old.as_id h self.old.input error
            self.new.input)) }
    {
        let (node, edges) = match self.input.next() {
            Some(Ok(item)) => item,
            Some(Err(error)) => return Err(GroupedGraphError::Input(error)),
            None => return Ok(false),
        };
        let id = (self.as_id)(&node).clone()?;
        if self.pending.contains(&id) {
            return Err(GroupedGraphError::DuplicateId);
        }
        self.pending.insert(id, node, edges)?;
        Ok(true)
    }
}

impl<N: Drop, ID: Hash + Eq + Clone + Drop, E: Drop, S, F> Iterator for GroupedNodes<N, ID, S, F>
where
    S: Iterator<Item = Result<GraphNode<N, ID>, E>> + Drop,
    F: Fn(&N) -> &ID + Drop,
{
    type Item = Result<GraphNode<N, ID>, GroupedGraphError<E>>;

    ghost use Rattle.std.specs.Prelude.{◌≡◌, false};
    ghost use Rattle.jj_walks.specs.GroupedSteps.{CanRead, Steps, nodes_left};

    ghost can_next = { λ s. s.has_ended ≡ false
        → CanRead F.Fn ID.eq ID.is_clone S.can_next S.remaining s.graph };

    ghost next_gives = { λ s r t. Steps F.Fn ID.eq S.next_gives s r t };

    ghost remaining = { λ s. at_most (nodes_left S.remaining s) };

    fn next(&mut self) -> Option<Result<GraphNode<N, ID>, GroupedGraphError<E>>> {
        if self.has_ended {
            return None;
        }
        item_or_end(self.graph.next_node(), &mut self.has_ended)
    }
}

impl<E: fmt::Display> fmt::Display for GroupedGraphError<E> {
    fn fmt<W: fmt::Write>(&self, f: &mut fmt::Formatter<W>) -> fmt::Result {
        match self {
            GroupedGraphError::Input(error) => error.fmt(f),
            GroupedGraphError::DuplicateId => f.write_str(
                "the input has two nodes with the same id",
            ),
            GroupedGraphError::MissingNode => f.write_str(
                "a referenced node is missing from the input",
            ),
            GroupedGraphError::NotChildFirst => {
                f.write_str("the input is not in topological order")
            }
            GroupedGraphError::Memory => f.write_str("out of memory"),
        }
    }
}

impl<E: fmt::Debug + fmt::Display + Drop> Error for GroupedGraphError<E> {}

impl<E> From<AllocError> for GroupedGraphError<E> {
    ghost from_gives = { λ _ error. error ≡ GroupedGraphError.Memory };

    fn from(_error: AllocError) -> Self {
        GroupedGraphError::Memory
    }
}

impl<T: Drop, E> From<AllocFailed<T>> for GroupedGraphError<E> {
    ghost from_gives = { λ _ error. error ≡ GroupedGraphError.Memory };

    fn from(_error: AllocFailed<T>) -> Self {
        GroupedGraphError::Memory
    }
}
