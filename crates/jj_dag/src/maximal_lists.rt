//! Heads where a list of neighbors may fail as a whole.
ghost use Rattle.std.specs.Prelude.{IfOk, Result, IsTrue};
ghost use Rattle.jj_dag.specs.ClosureGraph.{InEachModel, IsInputError, graph_of_lists, list_of};
ghost use Rattle.jj_dag.specs.Found.{AreHeads};
ghost use Rattle.jj_dag.specs.ListOrError.{IteratesOver};
ghost use Rattle.jj_dag.specs.Outcomes.{IfFails};

use crate::all_ok::AllOk;
use crate::list_or_error::as_list_or_error;
use crate::maximal::heads_ok;
use crate::walk_error::WalkError;
use std::alloc::{AllocError, Global};
use std::collections::HashSet;
use std::hash::Hash;
use std::marker::PhantomData;

/// Returns the nodes of `start` that no other of them reaches. Fails with `Node` of the error of
/// the first list that failed, and with `Memory` if memory runs out. Takes `O(n + e)` for n nodes
/// and e edges.
pub fn heads<T: Hash + Eq + Clone + Drop, ID: Hash + Eq + Drop, E: Drop, II, NI, F, N>(
    alloc: Global,
    start: II,
    id_fn: F,
    mut neighbors_fn: N,
) -> Result<HashSet<T>, WalkError<E>>
where
    II: IntoIterator<Item = T, IntoIter: Drop> + Drop,
    NI: IntoIterator<Item = T, IntoIter: Drop>,
    F: Fn(&T) -> Result<ID, AllocError> + Drop,
    N: FnMut(&T) -> Result<NI, E> + Drop,
    requires graph { (graph_of_lists ID.eq F.Fn N.FnMut NI.IntoIterator NI.IntoIter.Iterator id_fn
        neighbors_fn).walkable }
    requires start { (list_of {E = E} II.IntoIterator II.IntoIter.Iterator start).finite }
    requires clones { (x y : T) → T.is_clone x y → IsTrue (T.eq x y) }
    ensures heads { IfOk result (λ heads. InEachModel
        (graph_of_lists ID.eq F.Fn N.FnMut NI.IntoIterator NI.IntoIter.Iterator id_fn neighbors_fn)
        (list_of II.IntoIterator II.IntoIter.Iterator start)
        (λ g starts. AreHeads T.eq g starts heads.keys)) }
    ensures error { IfFails result (IsInputError
        (graph_of_lists ID.eq F.Fn N.FnMut NI.IntoIterator NI.IntoIter.Iterator id_fn neighbors_fn)
        (list_of II.IntoIterator II.IntoIter.Iterator start)) }
{
    let start = AllOk {
        items: start.into_iter(),
        error: PhantomData,
    };
    let items_fn = move |node: &T|
        requires { N.IsAlwaysCallable neighbors_fn }
        ensures { (outcome : Result NI E)
            × N.step neighbors_fn.entry node.entry outcome neighbors_fn.exit
            × IteratesOver NI.into_iter_gives outcome result }
    { as_list_or_error(neighbors_fn(node)) };
    heads_ok(alloc, start, id_fn, items_fn)
}
