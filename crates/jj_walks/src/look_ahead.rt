//! Look-ahead of the chunked order: best-first exploration until one pending node is left that all
//! explored nodes reach.
ghost use Rattle.std.specs.Prelude.{◌≡◌, ◌≤◌, ◌∷◌, [], length, true, IfSome, IfNone};
ghost use Rattle.std.specs.Iterator.{IsFiniteIterable};
ghost use Rattle.std.specs.List.Sorted.{IsPermutation};
ghost use Rattle.std.specs.BinaryHeap.{heap_items};
ghost use Rattle.jj_dag.specs.ClosureGraph.{IsWalkable};
ghost use Rattle.jj_dag.specs.Collecting.{index_in};
ghost use Rattle.jj_walks.specs.Exploring.{ExploresFrom, TakesChunk};

use jj_dag::closures::{Closures, ids_of};
use jj_dag::greatest_order::IndexedGraph;
use jj_dag::walk_error::WalkError;
use std::alloc::{AllocError, Global};
use std::collections::{BinaryHeap, HashMap};
use std::hash::Hash;

// Pops the greatest pending node. Returns `None` if none is pending, or if only one is after some
// were explored and no root (a node without neighbors) was found.
fn next_to_explore<T: Ord>(
    frontier: &mut BinaryHeap<T>,
    explored: usize,
    root_met: bool,
) -> Option<T>
    ensures taken { IfSome result (λ node.
        IsPermutation (heap_items frontier.old) (node ∷ heap_items frontier.new)) }
    ensures same { IfNone result (heap_items frontier.new ≡ heap_items frontier.old) }
    ensures few { IfNone result (length (heap_items frontier.old) ≤ 1) }
    ensures rootless { IfNone result (root_met ≡ true → heap_items frontier.old ≡ []) }
    ensures begun { IfNone result (explored ≡ 0 → heap_items frontier.old ≡ []) }
{
    if frontier.len() > 1 || explored == 0 || root_met {
        return frontier.pop();
    }
    None
}

/// A chunk: some of the reachable nodes, the starts of the next chunk, and a node on or below a
/// cycle if there is one.
#[derive(Drop)]
pub struct Chunk<T> {
    pub nodes: Vec<T>,
    pub left: Vec<T>,
    pub stuck: Option<T>,
}

// Expands the greatest pending node until at most one remains and no root was found. Stores the
// indices of the expanded nodes in the map, which must be empty.
fn explore<F, N, T: Ord + Drop, ID: Hash + Eq + Drop, E: Drop, NI>(
    closures: &mut Closures<F, N>,
    alloc: Global,
    index_of: &mut HashMap<ID, usize>,
    start: Vec<T>,
) -> Result<(IndexedGraph<T, ID>, Vec<T>), WalkError<E>>
where
    NI: IntoIterator<Item = Result<T, E>, IntoIter: Drop>,
    F: Fn(&T) -> Result<ID, AllocError>,
    N: FnMut(&T) -> NI,
    requires graph { IsWalkable F.Fn N.FnMut (IsFiniteIterable NI.into_iter_gives
        NI.IntoIter.can_next NI.IntoIter.remaining) closures.old.id_fn closures.old.neighbors_fn }
    requires none_indexed { index_of.old.entries ≡ [] }
    ensures { ExploresFrom ID.eq F.Fn N.FnMut NI.IntoIterator NI.IntoIter.Iterator closures.old
        closures.new start.items (index_in ID.eq index_of.new.entries) result }
{
    let mut frontier = BinaryHeap::from(start);
    let mut found = IndexedGraph::new(alloc);
    let mut root_met = false;
    while let Some(node) = next_to_explore(&mut frontier, found.nodes.len(), root_met) {
        let id = (closures.id_fn)(&node)?;
        if index_of.contains_key(&id) {
            continue;
        }
        let neighbors = closures.neighbors(alloc, &node)?;
        let ids = ids_of(alloc, &closures.id_fn, &neighbors)?;
        root_met |= ids.is_empty();
        found.add_node(index_of, node, id, ids)?;
        frontier.append(&mut BinaryHeap::from(neighbors))?;
    }
    Ok((found, frontier.into_vec()))
}

/// Returns the chunk of several starts: all starts, and every node explored before one pending node
/// is left that they all reach. Fails with `Node` of the error of the first failed item, and with
/// `Memory` if memory runs out.
pub fn take_chunk<F, N, T: Ord + Drop, ID: Hash + Eq + Drop, E: Drop, NI>(
    closures: &mut Closures<F, N>,
    alloc: Global,
    start: Vec<T>,
) -> Result<Chunk<T>, WalkError<E>>
where
    NI: IntoIterator<Item = Result<T, E>, IntoIter: Drop>,
    F: Fn(&T) -> Result<ID, AllocError>,
    N: FnMut(&T) -> NI,
    requires { IsWalkable F.Fn N.FnMut (IsFiniteIterable NI.into_iter_gives NI.IntoIter.can_next
        NI.IntoIter.remaining) closures.old.id_fn closures.old.neighbors_fn }
    ensures { TakesChunk ID.eq F.Fn N.FnMut NI.IntoIterator NI.IntoIter.Iterator closures.old
        closures.new start.items result }
{
    let mut index_of = HashMap::new(alloc);
    let (found, left) = explore(closures, alloc, &mut index_of, start)?;
    let (nodes, stuck) = found.into_greatest_order(alloc, &index_of)?;
    Ok(Chunk { nodes, left, stuck })
}
