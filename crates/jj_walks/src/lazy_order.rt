//! State of a lazily produced topological order: the ready nodes of a chunk and the starts of the
//! next.
ghost use Rattle.std.specs.Prelude.{◌≡◌, ◌+◌, ◌<◌, ◌^◌, ◌++◌, ◌∷◌, length, [], None, Some, Err, IfOk, IfErr, IsSome, OnOk};
ghost use Rattle.std.specs.HashSet.{hash_set_len};
ghost use Rattle.jj_dag.specs.declared.walk_error.WalkError.TheVariants.{Memory, Node};
ghost use Rattle.jj_dag.specs.Errors.{IfNode};
ghost use Rattle.jj_walks.specs.GroupedSteps.{as_item};
ghost use Rattle.jj_walks.specs.LazySteps.{CanGo, FailsNext, HasCause, Refills, YieldsOn};

use crate::look_ahead::{Chunk, take_chunk};
use jj_dag::closures::Closures;
use jj_dag::walk_error::WalkError;
use std::alloc::{AllocError, Global};
use std::collections::HashSet;
use std::hash::Hash;
use std::mem;

/// The rest of a topological order.
#[derive(Drop)]
pub struct LazyOrder<T, ID: Hash + Eq, E, F, N, C> {
    pub alloc: Global,
    pub graph: Closures<F, N>,
    pub cycle_fn: C,
    /// The nodes that come next, in reverse.
    pub ready: Vec<T>,
    /// The starts of the next chunk.
    pub start: Vec<T>,
    /// The ids of the nodes that were yielded.
    pub emitted: HashSet<ID>,
    /// The error that comes after the ready nodes.
    pub failed: Option<E>,
}

impl<T: Ord + Drop, ID: Hash + Eq + Drop, E: Drop, NI, F, N, C> LazyOrder<T, ID, E, F, N, C>
where
    NI: IntoIterator<Item = Result<T, E>, IntoIter: Drop>,
    F: Fn(&T) -> Result<ID, AllocError>,
    N: FnMut(&T) -> NI,
    C: FnMut(T) -> E,
{
    /// Returns the next node, or `None` after the last. Fails with `Node` of the error of a failed
    /// item, with `Node` of `cycle_fn` of a node on a cycle or below one, and with `Memory` if
    /// memory runs out.
    pub fn next_node(&mut self) -> Result<Option<T>, WalkError<E>>
        requires { CanGo ID.eq F.Fn N.FnMut NI.IntoIterator NI.IntoIter.Iterator C.FnMut self.old }
        ensures can_go { IfOk result (λ o. IsSome o → CanGo ID.eq F.Fn N.FnMut NI.IntoIterator
            NI.IntoIter.Iterator C.FnMut self.new) }
        ensures count { IfOk result (λ o. IsSome o
            → hash_set_len self.new.emitted ≡ hash_set_len self.old.emitted + 1) }
        ensures small { hash_set_len self.old.emitted < 2 ^ 63 }
        ensures yields { YieldsOn ID.eq F.Fn N.FnMut NI.IntoIterator NI.IntoIter.Iterator C.FnMut
            self.old (as_item result) self.new }
        ensures failed { (error : E) → FailsNext error self.old → result ≡ Err (Node error) }
    {
        // The order ends, since a set contains fewer than 2^63 ids.
        let _count = self.emitted.len();
        self.refill()?;
        let Some(node) = self.ready.pop() else {
            return Ok(None);
        };
        let id = (self.graph.id_fn)(&node)?;
        if self.emitted.insert(id)? {
            return Ok(Some(node));
        }
        Err(WalkError::Node((self.cycle_fn)(node)))
    }

    // Refills `ready` with the next chunk if it is empty.
    fn refill(&mut self) -> Result<(), WalkError<E>>
        requires { CanGo ID.eq F.Fn N.FnMut NI.IntoIterator NI.IntoIter.Iterator C.FnMut self.old }
        ensures can_go { OnOk result (CanGo ID.eq F.Fn N.FnMut NI.IntoIterator NI.IntoIter.Iterator
            C.FnMut self.new) }
        ensures emitted { self.new.emitted ≡ self.old.emitted }
        ensures refilled { OnOk result (Refills ID.eq F.Fn N.FnMut NI.IntoIterator
            NI.IntoIter.Iterator C.FnMut self.old self.new) }
        ensures cause { IfErr result (λ e. IfNode e (HasCause ID.eq F.Fn N.FnMut NI.IntoIterator
            NI.IntoIter.Iterator C.FnMut self.old)) }
        ensures failed { (error : E) → FailsNext error self.old → result ≡ Err (Node error) }
    {
        if !self.ready.is_empty() {
            return Ok(());
        }
        if let Some(error) = mem::replace(&mut self.failed, None) {
            return Err(WalkError::Node(error));
        }
        if self.start.len() > 1 {
            return self.look_ahead();
        }
        let Some(node) = self.start.pop() else {
            return Ok(());
        };
        match self.graph.neighbors(self.alloc, &node) {
            Ok(neighbors) => self.make_ready(node, neighbors, None),
            Err(WalkError::Node(error)) => {
                self.make_ready(node, Vec::new(self.alloc), Some(error))
            }
            Err(WalkError::Memory) => Err(WalkError::Memory),
        }
    }

    fn make_ready(&mut self, node: T, start: Vec<T>, failed: Option<E>) -> Result<(), WalkError<E>>
        ensures ready { OnOk result (self.new.ready.items ≡ self.old.ready.items ++ node ∷ []) }
        ensures start { self.new.start ≡ start }
        ensures failed { self.new.failed ≡ failed }
        ensures emitted { self.new.emitted ≡ self.old.emitted }
        ensures graph { self.new.graph ≡ self.old.graph }
        ensures cycle_fn { self.new.cycle_fn ≡ self.old.cycle_fn }
        ensures error { IfErr result (λ e. e ≡ Memory) }
    {
        self.start = start;
        self.failed = failed;
        self.ready.push(node)?;
        Ok(())
    }

    fn look_ahead(&mut self) -> Result<(), WalkError<E>>
        requires can_go { CanGo ID.eq F.Fn N.FnMut NI.IntoIterator NI.IntoIter.Iterator C.FnMut
            self.old }
        requires ready { self.old.ready.items ≡ [] }
        requires failed { self.old.failed ≡ None }
        requires start { 1 < length self.old.start.items }
        ensures can_go { OnOk result (CanGo ID.eq F.Fn N.FnMut NI.IntoIterator NI.IntoIter.Iterator
            C.FnMut self.new) }
        ensures emitted { self.new.emitted ≡ self.old.emitted }
        ensures refilled { OnOk result (Refills ID.eq F.Fn N.FnMut NI.IntoIterator
            NI.IntoIter.Iterator C.FnMut self.old self.new) }
        ensures cause { IfErr result (λ e. IfNode e (HasCause ID.eq F.Fn N.FnMut NI.IntoIterator
            NI.IntoIter.Iterator C.FnMut self.old)) }
    {
        let start = mem::replace(&mut self.start, Vec::new(self.alloc));
        let Chunk { nodes, left, stuck } = take_chunk(&mut self.graph, self.alloc, start)?;
        match stuck {
            Some(node) => Err(WalkError::Node((self.cycle_fn)(node))),
            None => {
                self.ready = nodes;
                self.ready.reverse();
                self.start = left;
                Ok(())
            }
        }
    }
}
