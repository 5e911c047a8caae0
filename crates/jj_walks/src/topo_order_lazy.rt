//! Lazily produced topological order, each node before its neighbors, as an iterator over chunks.
ghost use Rattle.std.specs.Prelude.{IfOk};
ghost use Rattle.std.specs.Iterator.{at_most};
ghost use Rattle.jj_dag.specs.ClosureGraph.{graph_of_items, list_of_items};
ghost use Rattle.jj_walks.specs.LazySteps.{StartsOrder};

use crate::ended::item_or_end;
use crate::lazy_order::LazyOrder;
use jj_dag::closures::Closures;
use jj_dag::walk_error::WalkError;
use std::alloc::{AllocError, Global};
use std::collections::HashSet;
use std::hash::Hash;

/// Iterates over the nodes of a topological order. An error is the last item.
#[derive(Drop)]
pub struct TopoOrderReverseLazy<T, ID: Hash + Eq, E, F, N, C> {
    order: LazyOrder<T, ID, E, F, N, C>,
    has_ended: bool,
}

impl<T, ID, E, NI, F, N, C> Iterator for TopoOrderReverseLazy<T, ID, E, F, N, C>
where
    T: Ord + Drop,
    ID: Hash + Eq + Drop,
    E: Drop,
    NI: IntoIterator<Item = Result<T, E>, IntoIter: Drop>,
    F: Fn(&T) -> Result<ID, AllocError>,
    N: FnMut(&T) -> NI,
    C: FnMut(T) -> E,
{
    type Item = Result<T, WalkError<E>>;

    ghost use Rattle.std.specs.Prelude.{◌≡◌, false};
    ghost use Rattle.jj_walks.specs.LazySteps.{CanGo, Steps, items_left};

    ghost can_next = { λ s. s.has_ended ≡ false → CanGo ID.eq F.Fn N.FnMut NI.IntoIterator
        NI.IntoIter.Iterator C.FnMut s.order };

    ghost next_gives = { λ s r t. Steps ID.eq F.Fn N.FnMut NI.IntoIterator NI.IntoIter.Iterator
        C.FnMut s r t };

    ghost remaining = { λ s. at_most (items_left s) };

    fn next(&mut self) -> Option<Result<T, WalkError<E>>> {
        if self.has_ended {
            return None;
        }
        item_or_end(self.order.next_node(), &mut self.has_ended)
    }
}

/// Returns an iterator over the nodes that the starts reach, each before its neighbors. While
/// several nodes are left, the greatest is expanded, until only one is left, which all expanded
/// nodes reach. Its last item is an error where a start or a neighbor failed (`Node` of the
/// error), a cycle is reachable (`Node` of `cycle_fn` of some reachable node) or memory ran out
/// (`Memory`). Fails if memory runs out while the starts are collected.
pub fn topo_order_reverse_lazy<T: Ord + Drop, ID: Hash + Eq + Drop, E: Drop, II, NI, F, N, C>(
    alloc: Global,
    start: II,
    id_fn: F,
    neighbors_fn: N,
    cycle_fn: C,
) -> Result<TopoOrderReverseLazy<T, ID, E, F, N, C>, AllocError>
where
    II: IntoIterator<Item = Result<T, E>, IntoIter: Drop>,
    NI: IntoIterator<Item = Result<T, E>, IntoIter: Drop>,
    F: Fn(&T) -> Result<ID, AllocError> + Drop,
    N: FnMut(&T) -> NI + Drop,
    C: FnMut(T) -> E + Drop,
    requires graph { (graph_of_items ID.eq F.Fn N.FnMut NI.IntoIterator NI.IntoIter.Iterator id_fn
        neighbors_fn).walkable }
    requires cycle_fn { C.IsAlwaysCallable cycle_fn }
    requires start { (list_of_items II.IntoIterator II.IntoIter.Iterator start).finite }
    ensures { IfOk result (StartsOrder ID.eq F.Fn N.FnMut NI.IntoIterator NI.IntoIter.Iterator
        C.FnMut (list_of_items II.IntoIterator II.IntoIter.Iterator start) id_fn neighbors_fn
        cycle_fn) }
{
    let mut nodes = Vec::new(alloc);
    let mut failed = None;
    for item in start {
        match item {
            Ok(node) => nodes.push(node)?,
            Err(error) => {
                nodes.clear();
                failed = Some(error);
                break;
            }
        }
    }
    let order = LazyOrder {
        alloc,
        graph: Closures {
            id_fn,
            neighbors_fn,
        },
        cycle_fn,
        ready: Vec::new(alloc),
        start: nodes,
        emitted: HashSet::new(alloc),
        failed,
    };
    Ok(TopoOrderReverseLazy {
        order,
        has_ended: false,
    })
}
