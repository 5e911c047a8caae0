//! Topological order in chunks: best-first look-ahead, and Kahn's algorithm within a chunk.
ghost use Rattle.std.specs.Prelude.{◌≡◌, ◌⊎◌, [], map, IfOk, OnErr};
ghost use Rattle.jj_dag.specs.ClosureGraph.{InEachModel, IsMadeBesideCycle, IsNeighborsError, graph_of_items};
ghost use Rattle.jj_dag.specs.Outcomes.{IfFails};
ghost use Rattle.jj_walks.specs.Chunks.{IsNextChunk};
ghost use Rattle.jj_walks.specs.NodeLists.{list_of_nodes};

use crate::look_ahead::{Chunk, take_chunk};
use jj_dag::closures::Closures;
use jj_dag::walk_error::WalkError;
use smallvec::SmallVec;
use std::alloc::{AllocError, Global};
use std::default::MadeWith;
use std::hash::Hash;
use std::mem;

/// Returns the next chunk of a topological order of the nodes reachable from `start`, and replaces
/// `start` by the starts of the next chunk.
///
/// `start` is empty at the end; it has at most one node after a chunk of several starts, and the
/// neighbors of the node after a chunk of one. From several starts the greatest pending node is
/// expanded until one pending node is left that all expanded ones reach. Takes `O(n log n + e)` for
/// n nodes of the chunk with e edges. Fails with `Node` of the error of the first failed item, with
/// `Node` of `cycle_fn` of some reachable node if a cycle is found, and with `Memory` if memory
/// runs out. After an error `start` is empty.
pub fn topo_order_reverse_chunked<T, ID: Hash + Eq + Drop, E: Drop, NI, F, N, C>(
    alloc: Global,
    start: &mut Vec<T>,
    id_fn: F,
    neighbors_fn: N,
    cycle_fn: C,
) -> Result<SmallVec<T, 1>, WalkError<E>>
where
    T: Ord + MadeWith<Global> + Drop,
    NI: IntoIterator<Item = Result<T, E>, IntoIter: Drop>,
    F: Fn(&T) -> Result<ID, AllocError> + Drop,
    N: FnMut(&T) -> NI + Drop,
    C: FnOnce(T) -> E + Drop,
    // The closures may be called for any node, and return lists that end.
    requires graph { (graph_of_items ID.eq F.Fn N.FnMut NI.IntoIterator NI.IntoIter.Iterator id_fn
        neighbors_fn).walkable }
    // `cycle_fn` may be called with any node.
    requires cycle_fn { C.IsAlwaysCallable cycle_fn }
    // In each graph that the closures implement, the chunk is in topological order if no cycle is
    // reachable, and the nodes reachable from the old starts are the chunk and those reachable from
    // the new ones.
    ensures chunk { IfOk result (λ chunk. InEachModel
        (graph_of_items ID.eq F.Fn N.FnMut NI.IntoIterator NI.IntoIter.Iterator id_fn neighbors_fn)
        (list_of_nodes start.old.items)
        (λ g starts. IsNextChunk g.graph starts (map g.node chunk.items)
        (map g.node start.new.items))) }
    // An error but `Memory` is one that `neighbors_fn` may return for a node that the starts reach,
    // or that of `cycle_fn` for such a node, if a cycle is reachable.
    ensures error { IfFails result (λ e. IsNeighborsError
        (graph_of_items ID.eq F.Fn N.FnMut NI.IntoIterator NI.IntoIter.Iterator id_fn neighbors_fn)
        (list_of_nodes start.old.items) e
        ⊎ IsMadeBesideCycle (C.post cycle_fn)
        (graph_of_items ID.eq F.Fn N.FnMut NI.IntoIterator NI.IntoIter.Iterator id_fn neighbors_fn)
        (list_of_nodes start.old.items) e) }
    // After an error no start is left.
    ensures ended { OnErr result (start.new.items ≡ []) }
{
    let mut graph = Closures {
        id_fn,
        neighbors_fn,
    };
    let mut taken = mem::replace(start, Vec::new(alloc));
    if taken.len() > 1 {
        let Chunk { nodes, left, stuck } = take_chunk(&mut graph, alloc, taken)?;
        return match stuck {
            Some(node) => Err(WalkError::Node(cycle_fn(node))),
            None => {
                *start = left;
                Ok(SmallVec::from_vec(nodes))
            }
        };
    }
    let Some(node) = taken.pop() else {
        return Ok(SmallVec::new(alloc));
    };
    let neighbors = graph.neighbors(alloc, &node)?;
    let mut chunk = SmallVec::new(alloc);
    chunk.push(node)?;
    *start = neighbors;
    Ok(chunk)
}
