//! State of Kahn's algorithm for a grouped graph: pending nodes and in-degrees.
ghost use Rattle.std.specs.Prelude.{◌≡◌, ◌↔◌, ◌+◌, ◌-◌, ◌||◌, ◌∷◌, ◌++◌, [], List, IfOk, OnOk, OnErr, IsTrue, None, true, is_some, count_by, if◌then◌else◌};
ghost use Rattle.std.specs.HashMap.{get, hash_map_len};
ghost use Rattle.std.specs.List.{list_any};
ghost use Rattle.std.specs.VecDeque.{deque_items};
ghost use Rattle.jj_walks.specs.Candidates.{count_at, has_id};
ghost use Rattle.jj_walks.specs.Grouped.{History, Prioritized, Read, pending_nodes, leads_to};
ghost use Rattle.jj_walks.specs.PendingNodes.{Adds, Keeps, KeepsOn, TakesNext, len_after};

use crate::candidates::Candidates;
use crate::graph::{GraphEdge, GraphNode};
use std::alloc::{AllocError, Global};
use std::collections::HashMap;
use std::hash::Hash;

/// The pending nodes, and the in-degrees of the ids that are pending or required.
#[derive(Debug, Clone, Drop)]
pub struct PendingNodes<N, ID: Hash + Eq> {
    nodes: HashMap<ID, GraphNode<N, ID>>,
    /// For each pending or required id, the number of edges from pending nodes to it.
    counts: HashMap<ID, usize>,
    candidates: Candidates<ID>,
}

/// The next node, or the reason why none is ready.
#[derive(Drop)]
pub enum Ready<N, ID> {
    Node(GraphNode<N, ID>),
    /// A required id without a pending child, whose node is not pending.
    Unread,
    /// Each id has a pending child.
    Nothing,
}

impl<N: Drop, ID: Hash + Eq + Clone + Drop> PendingNodes<N, ID> {
    /// Creates an empty collection.
    pub fn new(alloc: Global) -> Self
        ensures { Keeps ID.eq [] result }
    {
        PendingNodes {
            nodes: HashMap::new(alloc),
            counts: HashMap::new(alloc),
            candidates: Candidates::new(alloc),
        }
    }

    /// Returns whether no node is pending.
    pub fn is_empty(&self) -> bool
        ensures { (h : History N ID) → Keeps ID.eq h self.now → IsTrue result
            ↔ (pending_nodes ID.eq h ≡ []) }
    {
        self.nodes.is_empty()
    }

    /// Returns whether the node of the id is pending.
    pub fn contains(&self, id: &ID) -> bool
        ensures { result ≡ is_some (get ID.eq self.now.nodes id.now) }
    {
        self.nodes.contains_key(id)
    }

    /// Makes the id required, and a head. Fails if memory runs out.
    pub fn prioritize(&mut self, id: ID) -> Result<(), AllocError>
        requires clones { (i j : ID) → ID.is_clone i j → IsTrue (ID.eq i j) }
        ensures prioritized { OnOk result (Adds ID.eq (Prioritized id) self.old self.new) }
        ensures on_error { OnErr result (KeepsOn ID.eq self.old self.new) }
        ensures nodes { self.new.nodes ≡ self.old.nodes }
    {
        self.candidates.push_head(id.clone()?)?;
        if let Err(error) = count_none(&mut self.counts, id) {
            self.candidates.drop_head();
            return Err(error);
        }
        Ok(())
    }

    /// Inserts a node that was read. Fails if memory runs out.
    pub fn insert(&mut self, id: ID, node: N, edges: Vec<GraphEdge<ID>>) -> Result<(), AllocError>
        requires clones { (i j : ID) → ID.is_clone i j → IsTrue (ID.eq i j) }
        requires absent { get ID.eq self.old.nodes id ≡ None }
        ensures pending { OnOk result (Adds ID.eq (Read (record {
          id = id;
          node = node;
          edges = edges.items;
        })) self.old self.new) }
        ensures len { OnOk result (hash_map_len self.new.nodes ≡ hash_map_len self.old.nodes + 1) }
    {
        count_edges(&mut self.counts, &edges)?;
        self.candidates.remember(&id, &edges)?;
        list_head(&mut self.counts, &mut self.candidates, &id)?;
        self.nodes.insert(id, (node, edges))?;
        Ok(())
    }

    /// Removes and returns the node that comes next, if one is ready. Fails if memory runs out.
    pub fn pop_ready(&mut self) -> Result<Ready<N, ID>, AllocError>
        requires clones { (i j : ID) → ID.is_clone i j → IsTrue (ID.eq i j) }
        ensures taken { IfOk result (λ ready. (h : History N ID) → Keeps ID.eq h self.old
            → TakesNext ID.eq h ready self.new) }
        ensures len { IfOk result (λ ready. hash_map_len self.old.nodes
            ≡ len_after ready (hash_map_len self.new.nodes)) }
    {
        let Some(id) = self.candidates.take(&self.counts)? else {
            return Ok(Ready::Nothing);
        };
        let Some((node, edges)) = self.nodes.remove(&id) else {
            self.candidates.push(id)?;
            return Ok(Ready::Unread);
        };
        self.counts.remove(&id);
        uncount_edges(&mut self.counts, &edges);
        self.candidates.push_targets(&edges)?;
        Ok(Ready::Node((node, edges)))
    }
}

// Makes the id a head if it has no count yet.
fn list_head<ID: Hash + Eq + Clone + Drop>(
    counts: &mut HashMap<ID, usize>,
    candidates: &mut Candidates<ID>,
    id: &ID,
) -> Result<(), AllocError>
    requires clones { (i j : ID) → ID.is_clone i j → IsTrue (ID.eq i j) }
    ensures counts { OnOk result ((i : ID) → count_at ID.eq counts.new i
        ≡ count_at ID.eq counts.old i) }
    ensures known { OnOk result ((i : ID) → is_some (get ID.eq counts.new i)
        ≡ (ID.eq id.now i || is_some (get ID.eq counts.old i))) }
    ensures ids { candidates.new.ids ≡ candidates.old.ids }
    ensures blocked { candidates.new.blocked ≡ candidates.old.blocked }
    ensures children { candidates.new.children ≡ candidates.old.children }
    ensures heads { OnOk result ((more : List ID)
        × (deque_items candidates.new.heads ≡ deque_items candidates.old.heads ++ more)) }
    ensures kept { OnOk result ((i : ID) → has_id ID.eq (deque_items candidates.old.heads) i ≡ true
        → has_id ID.eq (deque_items candidates.new.heads) i ≡ true) }
    ensures head { OnOk result ((i : ID) → ID.eq id.now i ≡ true
        → (is_some (get ID.eq counts.old i) || has_id ID.eq (deque_items candidates.new.heads) i)
        ≡ true) }
{
    if counts.contains_key(id) {
        return Ok(());
    }
    counts.insert(id.clone()?, 0)?;
    candidates.push_head(id.clone()?)?;
    Ok(())
}

// Sets the in-degree of the id to 0 if it has none yet.
fn count_none<ID: Hash + Eq + Drop>(
    counts: &mut HashMap<ID, usize>,
    id: ID,
) -> Result<(), AllocError>
    ensures counts { OnOk result ((i : ID) → count_at ID.eq counts.new i
        ≡ count_at ID.eq counts.old i) }
    ensures known { OnOk result ((i : ID) → is_some (get ID.eq counts.new i)
        ≡ (ID.eq id i || is_some (get ID.eq counts.old i))) }
    ensures on_error { OnErr result ((i : ID) → get ID.eq counts.new i ≡ get ID.eq counts.old i) }
{
    if counts.contains_key(&id) {
        return Ok(());
    }
    counts.insert(id, 0)?;
    Ok(())
}

// Adds 1 to the in-degree of the target of each edge.
fn count_edges<ID: Hash + Eq + Clone + Drop>(
    counts: &mut HashMap<ID, usize>,
    edges: &[GraphEdge<ID>],
) -> Result<(), AllocError>
    requires clones { (i j : ID) → ID.is_clone i j → IsTrue (ID.eq i j) }
    ensures counts { OnOk result ((i : ID) → count_at ID.eq counts.new i
        ≡ count_at ID.eq counts.old i + count_by (leads_to ID.eq i) edges.now) }
    ensures known { OnOk result ((i : ID) → is_some (get ID.eq counts.new i)
        ≡ (list_any (leads_to ID.eq i) edges.now || is_some (get ID.eq counts.old i))) }
{
    for edge in edges {
        if !edge.is_missing() {
            count_up(counts, edge.target.clone()?)?;
        }
    }
    Ok(())
}

// Subtracts 1 from the in-degree of the target of each edge.
fn uncount_edges<ID: Hash + Eq + Drop>(counts: &mut HashMap<ID, usize>, edges: &[GraphEdge<ID>])
    ensures counts { (i : ID) → count_at ID.eq counts.new i
        ≡ count_at ID.eq counts.old i - count_by (leads_to ID.eq i) edges.now }
    ensures known { (i : ID) → is_some (get ID.eq counts.new i) ≡ is_some (get ID.eq counts.old i) }
{
    for edge in edges {
        if !edge.is_missing() {
            count_down(counts, &edge.target);
        }
    }
}

fn count_up<ID: Hash + Eq + Drop>(counts: &mut HashMap<ID, usize>, id: ID) -> Result<(), AllocError>
    ensures counts { OnOk result ((i : ID) → count_at ID.eq counts.new i
        ≡ count_at ID.eq counts.old i + (if ID.eq id i then 1 else 0)) }
    ensures known { OnOk result ((i : ID) → is_some (get ID.eq counts.new i)
        ≡ (ID.eq id i || is_some (get ID.eq counts.old i))) }
{
    let count = match counts.get(&id) {
        Some(count) => *count,
        None => 0,
    };
    // More edges than a `usize` counts do not fit into memory.
    let Some(more) = count.checked_add(1) else {
        return Err(AllocError);
    };
    counts.insert(id, more)?;
    Ok(())
}

fn count_down<ID: Hash + Eq + Drop>(counts: &mut HashMap<ID, usize>, id: &ID)
    ensures counts { (i : ID) → count_at ID.eq counts.new i
        ≡ count_at ID.eq counts.old i - (if ID.eq id.now i then 1 else 0) }
    ensures known { (i : ID) → is_some (get ID.eq counts.new i) ≡ is_some (get ID.eq counts.old i) }
{
    if let Some(count) = counts.get_mut(id) {
        *count = (*count).saturating_sub(1);
    }
}
