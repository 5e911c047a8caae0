//! Collection of the items of a depth-first search whose items may fail.
ghost use Rattle.std.specs.Prelude.{IfOk, List, Result};
ghost use Rattle.jj_dag.specs.ClosureGraph.{graph_of_items, list_of_items};
ghost use Rattle.jj_dag.specs.Walk.{DrainsTo};
ghost use Rattle.jj_walks.specs.Expansions.{IsRun};

use crate::depth_first::dfs_ok;
use jj_dag::walk_error::WalkError;
use std::alloc::{AllocError, Global};
use std::hash::Hash;

/// Collects the items of `dfs_ok`, with the error of each failed one. Fails if memory runs out.
pub fn collect_dfs_ok<T: Drop, ID: Hash + Eq + Drop, E: Drop, II, NI, F, N>(
    alloc: Global,
    start: II,
    id_fn: F,
    neighbors_fn: N,
) -> Result<Vec<Result<T, E>>, AllocError>
where
    II: IntoIterator<Item = Result<T, E>, IntoIter: Drop>,
    NI: IntoIterator<Item = Result<T, E>, IntoIter: Drop>,
    F: Fn(&T) -> Result<ID, AllocError> + Drop,
    N: FnMut(&T) -> NI + Drop,
    requires graph { (graph_of_items ID.eq F.Fn N.FnMut NI.IntoIterator NI.IntoIter.Iterator
        id_fn neighbors_fn).walkable }
    requires start { (list_of_items II.IntoIterator II.IntoIter.Iterator start).finite }
    ensures { IfOk result (λ items. (starts : List (Result T E))
        × DrainsTo II.into_iter_gives II.IntoIter.next_gives start starts
        × IsRun ID.eq F.Fn N.FnMut (DrainsTo NI.into_iter_gives NI.IntoIter.next_gives)
        id_fn neighbors_fn starts items.items) }
{
    let walk = dfs_ok(alloc, start, id_fn, neighbors_fn)?;
    let mut items = Vec::new(alloc);
    for item in walk {
        let found = match item {
            Ok(node) => Ok(node),
            Err(WalkError::Node(error)) => Err(error),
            Err(WalkError::Memory) => return Err(AllocError),
        };
        items.push(found)?;
    }
    Ok(items)
}
