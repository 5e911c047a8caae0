//! The ancestors of some commits in grouped topological order, branch by branch.
ghost use Rattle.std.specs.Prelude.{◌≡◌, ◌⊎◌, IfErr, IfOk, None, map};
ghost use Rattle.std.specs.Str.{bytes_eq};
ghost use Rattle.jj_dag.specs.Outcomes.{IfFails};
ghost use Rattle.jj_walks.specs.GroupedOrders.{IsGroupedOrder, IsWhole};
ghost use Rattle.jj_walks.specs.GroupedSteps.{CanRead};
ghost use Rattle.jj_walks.specs.declared.grouped.GroupedGraphError.TheVariants.{Memory};
ghost use Rattle.jj_store_walks.specs.Histories.{IsGroupedHistory, IsHistoryError};
ghost use Rattle.jj_store_walks.specs.Logs.{AreLogItems, StopsWith, YieldsLogNodes, direct_edges, log_nodes};

use crate::order::{HistoryError, history_order};
use crate::read_commit::ReadCommit;
use jj_backend::backend::{Backend, CommitId};
use jj_dag::walk_error::WalkError;
use jj_walks::graph::{GraphEdge, GraphNode, GroupedGraphError, GroupedNodes, TopoGroupedGraph};
use std::alloc::{AllocError, Global};
use std::hash::Hash;

// Returns direct edges to these ids.
fn direct_edges(alloc: Global, ids: &[CommitId]) -> Result<Vec<GraphEdge<CommitId>>, AllocError>
    ensures { IfOk result (λ edges. edges.items ≡ direct_edges ids.now) }
{
    let mut edges = Vec::new(alloc);
    for id in ids {
        edges.push(GraphEdge::direct(id.clone()?))?;
    }
    Ok(edges)
}

fn edges_of(alloc: Global, commit: &ReadCommit) -> Result<Vec<GraphEdge<CommitId>>, AllocError>
    ensures { IfOk result (λ edges. edges.items ≡ direct_edges commit.now.commit.parents) }
{
    direct_edges(alloc, &commit.commit.parents)
}

// Returns the commits with edges to their parents, as items of which none fails.
fn log_items(
    alloc: Global,
    commits: Vec<ReadCommit>,
) -> Result<Vec<Result<GraphNode<ReadCommit, CommitId>, HistoryError>>, AllocError>
    ensures { IfOk result (λ items. AreLogItems commits.items items.items) }
{
    let mut items = Vec::new(alloc);
    for commit in commits {
        let edges = edges_of(alloc, &commit)?;
        items.push(Ok((commit, edges)))?;
    }
    Ok(items)
}

fn commit_id(commit: &ReadCommit) -> &CommitId
    ensures { result.now ≡ commit.now.id }
{
    &commit.id
}

// Collects the nodes of a grouped graph.
fn collect_nodes<N: Drop, ID: Hash + Eq + Clone + Drop, E: Drop, S, F>(
    alloc: Global,
    nodes: GroupedNodes<N, ID, S, F>,
) -> Result<Vec<N>, GroupedGraphError<E>>
where
    S: Iterator<Item = Result<GraphNode<N, ID>, E>> + Drop,
    F: Fn(&N) -> &ID + Drop,
    requires { CanRead F.Fn ID.eq ID.is_clone S.can_next S.remaining nodes.graph }
    ensures nodes { IfOk result (λ found.
        YieldsLogNodes F.Fn ID.eq S.next_gives nodes found.items) }
    ensures error { IfErr result (λ error. (error ≡ Memory)
        ⊎ StopsWith F.Fn ID.eq S.next_gives nodes error) }
{
    let mut found = Vec::new(alloc);
    for item in nodes {
        let (node, _edges) = item?;
        found.push(node)?;
    }
    Ok(found)
}

// Groups commits in topological order by branches. Fails if memory runs out.
fn group(alloc: Global, commits: Vec<ReadCommit>) -> Result<Vec<ReadCommit>, AllocError>
    requires child_first { IsWhole bytes_eq (log_nodes commits.items) }
    ensures { IfOk result (λ order. IsGroupedOrder bytes_eq (log_nodes commits.items) None
        (log_nodes order.items)) }
{
    let items = log_items(alloc, commits)?;
    let graph = TopoGroupedGraph::new(alloc, items.into_iter(), commit_id);
    match collect_nodes(alloc, graph.stream()) {
        Ok(order) => Ok(order),
        Err(error) => {
            prove!(matches!(&error, GroupedGraphError::Memory));
            Err(AllocError)
        }
    }
}

/// Returns the ancestors of `ids`, each once and before its own ancestors, and branches together:
/// a commit is followed by the last of its parents whose children all came before, if one is. Fails
/// with `Node` of `Read` of the error of a failed read or of `Cycle` of some ancestor if there is a
/// cycle, and with `Memory` if memory runs out.
pub fn grouped_history<B: Backend>(
    alloc: Global,
    store: &B,
    ids: &[CommitId],
) -> Result<Vec<ReadCommit>, WalkError<HistoryError>>
    // The commits are the ancestors of `ids`, each once, grouped by branches.
    ensures order { IfOk result (λ order.
        IsGroupedHistory (B.objects store.now) ids.now order.items) }
    // An error but `Memory` is that of a failed read of such an ancestor, or of a cycle.
    ensures error { IfFails result (IsHistoryError (B.objects store.now) (B.may_fail store.now)
        ids.now) }
{
    let commits = history_order(alloc, store, ids)?;
    Ok(group(alloc, commits)?)
}
