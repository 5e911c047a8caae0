//! The closures of a graph, and collection of the reachable nodes by depth-first search.
ghost use Rattle.std.specs.Prelude.{◌≡◌, [], IfOk};
ghost use Rattle.std.specs.Iterator.{IsFiniteIterable};
ghost use Rattle.std.specs.List.{AllZip};
ghost use Rattle.jj_dag.specs.Collecting.{index_in};
ghost use Rattle.jj_dag.specs.Expanding.{CollectsFrom, ListsNode};
ghost use Rattle.jj_dag.specs.ClosureGraph.{ReturnsId, IsWalkable};

use crate::collect_ok::collect_ok;
use crate::greatest_order::IndexedGraph;
use crate::node_map::NodeMap;
use crate::walk_error::WalkError;
use std::alloc::{AllocError, Global};

/// The closures that define a graph.
#[derive(Drop)]
pub struct Closures<F, N> {
    pub id_fn: F,
    pub neighbors_fn: N,
}

/// Returns the ids of these nodes, in their order. Fails if memory runs out.
pub fn ids_of<T, ID: Drop, F: Fn(&T) -> Result<ID, AllocError>>(
    alloc: Global,
    id_fn: &F,
    nodes: &[T],
) -> Result<Vec<ID>, AllocError>
    requires { F.IsAlwaysCallable id_fn.now }
    ensures { IfOk result (λ ids. AllZip (ReturnsId F.Fn id_fn.now) nodes.now ids.items) }
{
    let mut ids = Vec::new(alloc);
    for node in nodes {
        let id = id_fn(node)?;
        ids.push(id)?;
    }
    Ok(ids)
}

impl<F, N> Closures<F, N> {
    /// Returns the neighbors of a node. Fails with `Node` of the error of the first item that
    /// failed, and with `Memory` if memory runs out.
    pub fn neighbors<T: Drop, ID: Eq + Drop, E: Drop, NI>(
        &mut self,
        alloc: Global,
        node: &T,
    ) -> Result<Vec<T>, WalkError<E>>
    where
        NI: IntoIterator<Item = Result<T, E>, IntoIter: Drop>,
        F: Fn(&T) -> Result<ID, AllocError>,
        N: FnMut(&T) -> NI,
        requires { IsWalkable F.Fn N.FnMut (IsFiniteIterable NI.into_iter_gives NI.IntoIter.can_next
            NI.IntoIter.remaining) self.old.id_fn self.old.neighbors_fn }
        ensures { ListsNode ID.eq F.Fn N.FnMut NI.IntoIterator NI.IntoIter.Iterator self.old
            self.new node.now result }
    {
        collect_ok(alloc, (self.neighbors_fn)(node))
    }

    /// Returns all nodes that the starts reach, in the order of visits: the last start and the last
    /// neighbor first. Stores their indices in the map, which must be empty. Fails with `Node` of
    /// the error of the first item that failed, and with `Memory` if memory runs out.
    pub fn collect<T: Drop, ID: Eq + Drop, E: Drop, M, NI>(
        &mut self,
        alloc: Global,
        index_of: &mut M,
        start: Vec<T>,
    ) -> Result<IndexedGraph<T, ID>, WalkError<E>>
    where
        M: NodeMap<ID, usize>,
        NI: IntoIterator<Item = Result<T, E>, IntoIter: Drop>,
        F: Fn(&T) -> Result<ID, AllocError>,
        N: FnMut(&T) -> NI,
        requires graph { IsWalkable F.Fn N.FnMut (IsFiniteIterable NI.into_iter_gives
            NI.IntoIter.can_next NI.IntoIter.remaining) self.old.id_fn self.old.neighbors_fn }
        requires none_indexed { M.entries index_of.old ≡ [] }
        ensures { CollectsFrom ID.eq F.Fn N.FnMut NI.IntoIterator NI.IntoIter.Iterator self.old
            start.items (index_in ID.eq (M.entries index_of.new)) result }
    {
        let mut stack = start;
        let mut found = IndexedGraph::new(alloc);
        while let Some(node) = stack.pop() {
            let id = (self.id_fn)(&node)?;
            if index_of.get(&id).is_some() {
                continue;
            }
            let mut neighbors = self.neighbors(alloc, &node)?;
            let ids = ids_of(alloc, &self.id_fn, &neighbors)?;
            found.add_node(index_of, node, id, ids)?;
            stack.append(&mut neighbors)?;
        }
        Ok(found)
    }
}
