//! Depth-first search with an explicit stack, as an iterator; also over items that may fail.
ghost use Rattle.std.specs.Prelude.{[], IfOk};
ghost use Rattle.std.specs.Iterator.{IsFiniteIterable, at_most};
ghost use Rattle.jj_dag.specs.ClosureGraph.{InEachModel, IsWalkable, graph_of, graph_of_items, list_of, list_of_items};
ghost use Rattle.jj_walks.specs.DfsOkSteps.{StartsWalk};
ghost use Rattle.jj_walks.specs.DfsSteps.{IsLeftOf};

use crate::next_item::next_item;
use crate::sources::items_of;
use jj_dag::walk_error::WalkError;
use std::alloc::{AllocError, Global};
use std::collections::HashSet;
use std::convert::Infallible;
use std::hash::Hash;

/// Iterates over the nodes of a depth-first search in preorder.
#[derive(Drop)]
pub struct DepthFirst<T, ID: Hash + Eq, F, N> {
    work: Vec<T>,
    visited: HashSet<ID>,
    id_fn: F,
    neighbors_fn: N,
}

impl<T: Drop, ID: Hash + Eq + Drop, NI, F, N> Iterator for DepthFirst<T, ID, F, N>
where
    NI: IntoIterator<Item = T, IntoIter: Drop>,
    F: Fn(&T) -> Result<ID, AllocError>,
    N: FnMut(&T) -> NI,
{
    type Item = Result<T, AllocError>;

    ghost use Rattle.std.specs.Iterator.{IsFiniteIterable};
    ghost use Rattle.jj_dag.specs.ClosureGraph.{IsWalkable};
    ghost use Rattle.jj_walks.specs.DfsSteps.{Steps, items_left};

    ghost can_next = { λ s. IsWalkable F.Fn N.FnMut (IsFiniteIterable NI.into_iter_gives
        NI.IntoIter.can_next NI.IntoIter.remaining) s.id_fn s.neighbors_fn };

    ghost next_gives = { λ s r t.
        Steps F.Fn N.FnMut ID.eq NI.into_iter_gives NI.IntoIter.next_gives NI.IntoIter.can_next
        NI.IntoIter.remaining s r t };

    ghost remaining = { λ s. at_most (items_left s) };

    fn next(&mut self) -> Option<Result<T, AllocError>> {
        let item = next_item(
            &mut self.work,
            &mut self.visited,
            &|node: T| -> Result<T, Infallible> { Ok(node) },
            &self.id_fn,
            &mut self.neighbors_fn,
        )?;
        match item {
            Ok(node) => Some(Ok(node)),
            Err(error) => match error {
                WalkError::Memory => Some(Err(AllocError)),
                WalkError::Node(never) => match never {},
            },
        }
    }
}

/// Returns an iterator over the nodes that `start` reaches, in depth-first preorder; later starts
/// and later neighbors come first. An error of the iterator is that memory ran out, and its last
/// item. Takes `O(n + e)` in all for n nodes and e edges. Fails if memory runs out while the starts
/// are collected.
pub fn dfs<T: Drop, ID: Hash + Eq + Drop, II, NI, F, N>(
    alloc: Global,
    start: II,
    id_fn: F,
    neighbors_fn: N,
) -> Result<DepthFirst<T, ID, F, N>, AllocError>
where
    II: IntoIterator<Item = T, IntoIter: Drop>,
    NI: IntoIterator<Item = T, IntoIter: Drop>,
    F: Fn(&T) -> Result<ID, AllocError> + Drop,
    N: FnMut(&T) -> NI + Drop,
    requires graph { (graph_of ID.eq F.Fn {E = AllocError} N.FnMut NI.IntoIterator
        NI.IntoIter.Iterator id_fn neighbors_fn).walkable }
    requires start { (list_of {E = AllocError} II.IntoIterator II.IntoIter.Iterator start).finite }
    ensures can_walk { IfOk result (λ it. IsWalkable F.Fn N.FnMut (IsFiniteIterable
        NI.into_iter_gives NI.IntoIter.can_next NI.IntoIter.remaining) it.id_fn it.neighbors_fn) }
    ensures walk { IfOk result (λ it. InEachModel {E = AllocError}
        (graph_of ID.eq F.Fn N.FnMut NI.IntoIterator NI.IntoIter.Iterator id_fn neighbors_fn)
        (list_of II.IntoIterator II.IntoIter.Iterator start)
        (λ g starts. IsLeftOf F.Fn N.FnMut g ID.eq NI.into_iter_gives NI.IntoIter.next_gives
        starts [] it)) }
{
    let work = items_of(alloc, start)?;
    Ok(DepthFirst {
        work,
        visited: HashSet::new(alloc),
        id_fn,
        neighbors_fn,
    })
}

/// Iterates over the items of a depth-first search in preorder, errors among them.
#[derive(Drop)]
pub struct DepthFirstOk<T, ID: Hash + Eq, E, F, N> {
    work: Vec<Result<T, E>>,
    visited: HashSet<ID>,
    id_fn: F,
    neighbors_fn: N,
}

impl<T: Drop, ID: Hash + Eq + Drop, E: Drop, NI, F, N> Iterator for DepthFirstOk<T, ID, E, F, N>
where
    NI: IntoIterator<Item = Result<T, E>, IntoIter: Drop>,
    F: Fn(&T) -> Result<ID, AllocError>,
    N: FnMut(&T) -> NI,
{
    type Item = Result<T, WalkError<E>>;

    ghost use Rattle.std.specs.Iterator.{IsFiniteIterable};
    ghost use Rattle.jj_dag.specs.ClosureGraph.{IsWalkable};
    ghost use Rattle.jj_walks.specs.DfsOkSteps.{Steps, items_left};

    ghost can_next = { λ s. IsWalkable F.Fn N.FnMut (IsFiniteIterable NI.into_iter_gives
        NI.IntoIter.can_next NI.IntoIter.remaining) s.id_fn s.neighbors_fn };

    ghost next_gives = { λ s r t.
        Steps F.Fn N.FnMut ID.eq NI.into_iter_gives NI.IntoIter.next_gives NI.IntoIter.can_next
        NI.IntoIter.remaining s r t };

    ghost remaining = { λ s. at_most (items_left s) };

    fn next(&mut self) -> Option<Result<T, WalkError<E>>> {
        next_item(
            &mut self.work,
            &mut self.visited,
            &|item: Result<T, E>| -> Result<T, E> { item },
            &self.id_fn,
            &mut self.neighbors_fn,
        )
    }
}

/// Returns an iterator like `dfs` over items that may fail. It yields a failed item as `Node` of
/// its error and goes on; `Memory`, that memory ran out, is its last item. Fails if memory runs out
/// while the starts are collected.
pub fn dfs_ok<T: Drop, ID: Hash + Eq + Drop, E: Drop, II, NI, F, N>(
    alloc: Global,
    start: II,
    id_fn: F,
    neighbors_fn: N,
) -> Result<DepthFirstOk<T, ID, E, F, N>, AllocError>
where
    II: IntoIterator<Item = Result<T, E>, IntoIter: Drop>,
    NI: IntoIterator<Item = Result<T, E>, IntoIter: Drop>,
    F: Fn(&T) -> Result<ID, AllocError> + Drop,
    N: FnMut(&T) -> NI + Drop,
    // The closures may be called for any node, and return lists that end.
    requires graph { (graph_of_items ID.eq F.Fn N.FnMut NI.IntoIterator NI.IntoIter.Iterator
        id_fn neighbors_fn).walkable }
    // The list of starts ends.
    requires start { (list_of_items II.IntoIterator II.IntoIter.Iterator start).finite }
    // The closures of the iterator may be called, and return finite lists.
    ensures can_walk { IfOk result (λ it. IsWalkable F.Fn N.FnMut (IsFiniteIterable
        NI.into_iter_gives NI.IntoIter.can_next NI.IntoIter.remaining) it.id_fn it.neighbors_fn) }
    // The iterator is a depth-first search from the starts, before its first step.
    ensures walk { IfOk result (StartsWalk F.Fn N.FnMut ID.eq NI.into_iter_gives
        NI.IntoIter.next_gives II.IntoIterator II.IntoIter.Iterator id_fn neighbors_fn start) }
{
    let work = items_of(alloc, start)?;
    Ok(DepthFirstOk {
        work,
        visited: HashSet::new(alloc),
        id_fn,
        neighbors_fn,
    })
}
