//! The nodes of a list of items that may fail.
ghost use Rattle.std.specs.Prelude.{IfOk, Ok, map};
ghost use Rattle.std.specs.Iterator.{IsFiniteIterable};
ghost use Rattle.jj_dag.specs.FallibleGraphs.{FailsAfterNodes};
ghost use Rattle.jj_dag.specs.Outcomes.{IfFails};
ghost use Rattle.jj_dag.specs.Walk.{DrainsTo};

use crate::walk_error::WalkError;
use std::alloc::Global;

/// Returns the nodes of the items. Fails with `Node` of the error of the first item that failed,
/// and with `Memory` if memory runs out.
pub fn collect_ok<T: Drop, E: Drop, L>(alloc: Global, items: L) -> Result<Vec<T>, WalkError<E>>
where
    L: IntoIterator<Item = Result<T, E>, IntoIter: Drop>,
    requires { IsFiniteIterable L.into_iter_gives L.IntoIter.can_next L.IntoIter.remaining items }
    ensures nodes { IfOk result (λ v. DrainsTo L.into_iter_gives L.IntoIter.next_gives items
        (map (λ x. Ok x) v.items)) }
    ensures failed { IfFails result (FailsAfterNodes L.into_iter_gives L.IntoIter.next_gives
        items) }
{
    let mut nodes = Vec::new(alloc);
    for item in items {
        match item {
            Ok(node) => nodes.push(node)?,
            Err(error) => return Err(WalkError::Node(error)),
        }
    }
    Ok(nodes)
}
