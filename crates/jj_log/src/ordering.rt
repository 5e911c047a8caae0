//! Topological order of numbered commits.
ghost use Rattle.std.specs.Prelude.{◌≡◌, ◌<◌, ℕ, length, map, IfOk, IfErr};
ghost use Rattle.std.specs.List.{Contains};
ghost use Rattle.jj_log.specs.Failures.{IsOrderError};
ghost use Rattle.jj_log.specs.Orders.{IsCommitOrder};

use crate::commits::NumberedCommit;
use crate::fault::LogError;
use jj_dag::array_graph::{ArrayGraph, Visited};
use jj_dag::packed_lists::PackedLists;
use jj_dag::walk_error::WalkError;
use std::alloc::{AllocError, Global};

// Returns the graph of the parents.
fn graph_of_parents(alloc: Global, commits: &[NumberedCommit]) -> Result<ArrayGraph, AllocError>
    ensures { IfOk result (λ graph. graph ≡ map (λ commit. commit.parents.items) commits.now) }
{
    let mut lists = PackedLists::new(alloc);
    for commit in commits {
        lists.push_list(&commit.parents)?;
    }
    Ok(ArrayGraph::new(lists))
}

// Returns all numbers below `count`.
fn numbers_below(alloc: Global, count: usize) -> Result<Vec<usize>, AllocError>
    ensures { IfOk result (λ numbers. (k : ℕ) → k < count → Contains numbers.items k) }
{
    let mut numbers = Vec::new(alloc);
    for number in 0..count {
        numbers.push(number)?;
    }
    Ok(numbers)
}

/// Returns the numbers of the commits and of those missing, each once and before its parents; where
/// there is a choice, the greatest first. Fails with `Cycle` of a commit on a cycle of parents, and
/// with `Memory` if memory runs out.
pub fn order_commits(alloc: Global, commits: &[NumberedCommit]) -> Result<Vec<usize>, LogError>
    ensures order { IfOk result (λ order. IsCommitOrder commits.now order.items) }
    ensures error { IfErr result (IsOrderError commits.now) }
{
    let starts = numbers_below(alloc, commits.len())?;
    let graph = graph_of_parents(alloc, commits)?;
    match graph.greatest_order(alloc, &mut Visited::new(alloc), &starts) {
        Ok(order) => Ok(order),
        Err(error) => match error {
            WalkError::Memory => Err(LogError::Memory),
            WalkError::Node(number) => Err(LogError::Cycle(number)),
        },
    }
}
