//! The reverse of a graph: adjacency lists of incoming edges.
ghost use Rattle.std.specs.Prelude.{◌≡◌, [], IfOk, if◌then◌else◌};
ghost use Rattle.std.specs.Iterator.{IsFinite};
ghost use Rattle.jj_walks.specs.ListsByKey.{items_at};
ghost use Rattle.jj_dag.specs.Outcomes.{IfFails};
ghost use Rattle.jj_walks.specs.Reversing.{ReturnsReversed, InputFails};

use crate::graph::{GraphEdge, GraphNode};
use crate::lists::push_at;
use jj_dag::walk_error::WalkError;
use std::alloc::Global;
use std::collections::HashMap;
use std::hash::Hash;

// The edges that lead to each id.
type Incoming<ID> = HashMap<ID, Vec<GraphEdge<ID>>>;

/// Returns the nodes from the last to the first, each with an edge to the id of each node that has
/// an edge to it, in the order of the input. Drops edges to ids that no node has; of several nodes
/// with one id, the last has all edges. Fails with `Node` of the first error of the input, and with
/// `Memory` if memory runs out. Takes `O(n + e)` for n nodes and e edges.
pub fn reverse_graph<N, ID: Hash + Eq + Clone + Drop, E: Drop, I, F>(
    alloc: Global,
    input: I,
    as_id: F,
) -> Result<Vec<GraphNode<N, ID>>, WalkError<E>>
where
    N: Drop,
    I: Iterator<Item = Result<GraphNode<N, ID>, E>> + Drop,
    F: Fn(&N) -> &ID + Drop,
    requires as_id { F.IsAlwaysCallable as_id }
    requires callable { I.can_next input }
    requires finite { IsFinite (I.remaining input) }
    ensures reversed { IfOk result (ReturnsReversed F.Fn I.next_gives ID.is_clone ID.eq input
        as_id) }
    ensures error { IfFails result (InputFails I.next_gives input) }
{
    let mut nodes = Vec::new(alloc);
    let mut incoming = HashMap::new(alloc);
    for item in input {
        let (node, edges) = match item {
            Ok(item) => item,
            Err(error) => return Err(WalkError::Node(error)),
        };
        for edge in edges {
            let GraphEdge { target, edge_type } = edge;
            let source = as_id(&node).clone()?;
            let back = GraphEdge {
                target: source,
                edge_type,
            };
            push_at(&mut incoming, target, back)?;
        }
        nodes.push(node)?;
    }
    let mut reversed = Vec::new(alloc);
    while let Some(node) = nodes.pop() {
        let edges = take_edges(alloc, &mut incoming, as_id(&node));
        reversed.push((node, edges))?;
    }
    Ok(reversed)
}

// Removes and returns the edges that lead to the id.
fn take_edges<ID: Hash + Eq + Drop>(
    alloc: Global,
    incoming: &mut Incoming<ID>,
    id: &ID,
) -> Vec<GraphEdge<ID>>
    ensures taken { result.items ≡ items_at ID.eq incoming.old id.now }
    ensures left { (q : ID) → items_at ID.eq incoming.new q
        ≡ (if ID.eq id.now q then [] else items_at ID.eq incoming.old q) }
{
    match incoming.remove(id) {
        Some(edges) => edges,
        None => Vec::new(alloc),
    }
}
