//! The nodes of a log in grouped topological order, branch by branch.
ghost use Rattle.std.specs.Prelude.{◌≡◌, ◌⊎◌, IfOk, IfErr, OnOk, List, map};
ghost use Rattle.jj_log.specs.Failures.{IsOrderError};
ghost use Rattle.jj_log.specs.LogItems.{AddsVisible, AreItemsOf, AreVisibleItems, StopsWith, YieldsItems};
ghost use Rattle.jj_log.specs.Logs.{IsGroupedLog, IsLog, LogNode};
ghost use Rattle.jj_log.specs.Orders.{IsCommitOrder};
ghost use Rattle.jj_log.specs.Targets.{KnowsTargets};
ghost use Rattle.jj_walks.specs.GroupedSteps.{CanRead};
ghost use Rattle.jj_walks.specs.PendingNodes.{listed_item};
ghost use Rattle.jj_walks.specs.declared.grouped.GroupedGraphError.TheVariants.{Memory};

use crate::commits::{NumberedCommit, is_visible_at};
use crate::fault::LogError;
use crate::ordering::order_commits;
use crate::targets::{all_targets, edges_of, list_at};
use jj_dag::dense_set::DenseSet;
use jj_walks::graph::{GraphNode, GroupedGraphError, GroupedNodes, TopoGroupedGraph};
use std::alloc::{AllocError, Global};
use std::convert::Infallible;
use std::hash::Hash;

type Items = Vec<Result<GraphNode<usize>, Infallible>>;

// Appends a commit with its edges, unless it is elided. Overwrites `parents`.
fn push_visible(
    alloc: Global,
    commits: &[NumberedCommit],
    targets: &[Vec<usize>],
    parents: &mut DenseSet,
    items: &mut Items,
    number: usize,
) -> Result<(), AllocError>
    requires { KnowsTargets commits.now targets.now (λ n. Unit {0}) }
    ensures { OnOk result
        (AddsVisible commits.now number items.old.items items.new.items) }
{
    if !is_visible_at(commits, number) {
        return Ok(());
    }
    let edges = edges_of(alloc, commits, parents, number, list_at(targets, number))?;
    items.push(Ok((number, edges)))?;
    Ok(())
}

// Returns the visible commits of a topological order with their edges, as items of which none
// fails.
fn visible_items(
    alloc: Global,
    commits: &[NumberedCommit],
    order: &[usize],
) -> Result<Items, AllocError>
    requires { IsCommitOrder commits.now order.now }
    ensures { IfOk result (λ items. AreVisibleItems commits.now order.now items.items) }
{
    let targets = all_targets(alloc, commits, order)?;
    let mut parents = DenseSet::new(alloc);
    let mut items = Vec::new(alloc);
    for number in order {
        push_visible(alloc, commits, &targets, &mut parents, &mut items, *number)?;
    }
    Ok(items)
}

fn number_of(number: &usize) -> &usize
    ensures { result.now ≡ number.now }
{
    number
}

// Collects the nodes of a grouped graph.
fn collect_nodes<N: Drop, ID: Hash + Eq + Clone + Drop, E: Drop, S, F>(
    alloc: Global,
    nodes: GroupedNodes<N, ID, S, F>,
) -> Result<Vec<GraphNode<N, ID>>, GroupedGraphError<E>>
where
    S: Iterator<Item = Result<GraphNode<N, ID>, E>> + Drop,
    F: Fn(&N) -> &ID + Drop,
    requires { CanRead F.Fn ID.eq ID.is_clone S.can_next S.remaining nodes.graph }
    ensures nodes { IfOk result (λ found. YieldsItems F.Fn ID.eq S.next_gives nodes found.items) }
    ensures error { IfErr result (λ error. (error ≡ Memory)
        ⊎ StopsWith F.Fn ID.eq S.next_gives nodes error) }
{
    let mut found = Vec::new(alloc);
    for item in nodes {
        let node = item?;
        found.push(node)?;
    }
    Ok(found)
}

// Groups nodes in topological order by branches. Fails if memory runs out.
fn group(
    alloc: Global,
    commits: &[NumberedCommit],
    items: Items,
) -> Result<Vec<GraphNode<usize>>, AllocError>
    requires child_first { (nodes : List LogNode) × AreItemsOf nodes items.items
        × IsLog commits.now nodes }
    ensures { IfOk result (λ order. IsGroupedLog commits.now (map listed_item order.items)) }
{
    // Only the contract mentions commits.
    let _ = commits;
    let graph = TopoGroupedGraph::new(alloc, items.into_iter(), number_of);
    match collect_nodes(alloc, graph.stream()) {
        Ok(order) => Ok(order),
        Err(error) => {
            prove!(matches!(&error, GroupedGraphError::Memory));
            Err(AllocError)
        }
    }
}

/// Returns the visible commits with their edges, each before its ancestors, and branches together:
/// a commit is followed by the last of the targets of its edges whose children all came before, if
/// one is. Takes `O(n log n + e (1 + t))` for n commits with e parents, if no elided commit has
/// more than t targets. Fails with `Cycle` of a commit on a cycle of parents, and with `Memory` if
/// memory runs out.
pub fn log_nodes(
    alloc: Global,
    commits: &[NumberedCommit],
) -> Result<Vec<GraphNode<usize>>, LogError>
    ensures log { IfOk result (λ nodes. IsGroupedLog commits.now (map listed_item nodes.items)) }
    ensures error { IfErr result (IsOrderError commits.now) }
{
    let order = order_commits(alloc, commits)?;
    let items = visible_items(alloc, commits, &order)?;
    Ok(group(alloc, commits, items)?)
}
