//! Callers over the graph of a list of commits: its branches, the prioritized one first, and its
//! reverse.
ghost use Rattle.std.specs.Prelude.{◌≡◌, ◌⊎◌, List, IfOk, IfErr, Ok, Some, eqb, map, true};
ghost use Rattle.std.specs.List.{IsDistinct};
ghost use denote.Ref.{Bor};
ghost use Rattle.jj_walks.specs.declared.grouped.GroupedGraphError.TheVariants.{Memory};
ghost use Rattle.jj_walks.specs.GroupedOrders.{IsGroupedOrder, IsWhole, has_node};
ghost use Rattle.jj_walks_tests.specs.declared.commits.Commit.{Commit as commit};
ghost use Rattle.jj_walks_tests.specs.Branches.{ImplementsCommits, nodes_of, parent_edge, parent_edges};
ghost use Rattle.jj_walks_tests.specs.Children.{HaveChildren};
ghost use Rattle.jj_walks_tests.specs.Commits.{ids_of};

use crate::commits::{Commit, commit_of};
use jj_walks::graph::{
    GraphEdge, GraphNode, GroupedGraphError, TopoGroupedGraph, WalkError, reverse_graph,
};
use std::alloc::{AllocError, Global};

// The edge to a parent; missing if the list has no such commit.
fn parent_edge(commits: &[Commit], id: u64) -> GraphEdge<u64>
    ensures { result ≡ parent_edge commits.now id }
{
    match commit_of(commits, id) {
        Some(_) => GraphEdge::direct(id),
        None => GraphEdge::missing(id),
    }
}

fn parent_edges(
    alloc: Global,
    commits: &[Commit],
    commit: &Commit,
) -> Result<Vec<GraphEdge<u64>>, AllocError>
    ensures { IfOk result (λ edges. edges.items ≡ parent_edges commits.now commit.now) }
{
    let mut edges = Vec::new(alloc);
    for parent in &commit.parents {
        edges.push(parent_edge(commits, *parent))?;
    }
    Ok(edges)
}

// The commits with their edges, as an infallible input.
fn commit_items<'a>(
    alloc: Global,
    commits: &'a [Commit],
) -> Result<Vec<Result<GraphNode<&'a Commit, u64>, u64>>, AllocError>
    ensures { IfOk result (λ items. (shown : List (Bor commit))
        × (map (λ c. c.now) shown ≡ commits.now)
        × ImplementsCommits commits.now shown items.items) }
{
    let mut items = Vec::new(alloc);
    for commit in commits {
        let edges = parent_edges(alloc, commits, commit)?;
        items.push(Ok((commit, edges)))?;
    }
    Ok(items)
}

fn commit_id<'a, 'b>(commit: &'b &'a Commit) -> &'b u64
    ensures { result.now ≡ commit.now.now.id }
{
    &commit.id
}

/// Returns the commits, each after its children, with branches together: a commit is followed by
/// the last of its parents that is ready, if one is. The first commit reaches the prioritized one.
/// If each commit precedes its parents in the list, and the prioritized one is in it, the only
/// error is out of memory.
pub fn grouped_commits<'a>(
    alloc: Global,
    commits: &'a [Commit],
    required: u64,
) -> Result<Vec<&'a Commit>, GroupedGraphError<u64>>
    ensures order { IfOk result (λ order. (shown : List (Bor commit))
        × (map (λ c. c.now) shown ≡ commits.now)
        × (IsWhole eqb (nodes_of commits.now shown) → IsGroupedOrder eqb
        (nodes_of commits.now shown) (Some required) (nodes_of commits.now order.items))) }
    ensures error { IfErr result (λ error. (error ≡ Memory) ⊎ ((shown : List (Bor commit))
        × (map (λ c. c.now) shown ≡ commits.now) × (IsWhole eqb (nodes_of commits.now shown)
        → has_node eqb (nodes_of commits.now shown) required ≡ true → ⊥))) }
{
    let input = commit_items(alloc, commits)?;
    let mut graph = TopoGroupedGraph::new(alloc, input.into_iter(), commit_id);
    graph.prioritize_branch(required)?;
    let mut order = Vec::new(alloc);
    for item in graph.stream() {
        let (commit, _edges) = item?;
        order.push(commit)?;
    }
    Ok(order)
}

/// Returns the commits from the last to the first, each with edges to its children in the list.
/// Fails if memory runs out.
pub fn children_of<'a>(
    alloc: Global,
    commits: &'a [Commit],
) -> Result<Vec<GraphNode<&'a Commit, u64>>, WalkError<u64>>
    requires { IsDistinct eqb (ids_of commits.now) }
    ensures { IfOk result (λ nodes. HaveChildren commits.now nodes.items) }
{
    let input = commit_items(alloc, commits)?;
    reverse_graph(alloc, input.into_iter(), commit_id)
}

#[cfg(test)]
mod tests {
    use super::grouped_commits;
    use crate::commits::Commit;
    use jj_content_tests::retry::passes;
    use jj_walks::graph::GroupedGraphError;
    use std::alloc::{AllocError, Global};
    use std::process::Abort;
    use std::test::Fail;

    fn commit(alloc: Global, id: u64, parents: &[u64]) -> Result<Commit, AllocError> {
        Ok(Commit {
            time: 0,
            id,
            parents: parents.to_vec(alloc)?,
            text: String::new(alloc),
        })
    }

    /// 4 over 2, 3 over 1, 2 over 1.
    fn two_branches(alloc: Global) -> Result<Vec<Commit>, AllocError> {
        let mut commits = Vec::new(alloc);
        commits.push(commit(alloc, 4, &[2])?)?;
        commits.push(commit(alloc, 3, &[1])?)?;
        commits.push(commit(alloc, 2, &[1])?)?;
        commits.push(commit(alloc, 1, &[])?)?;
        Ok(commits)
    }

    /// The branch of 3 comes first if 3 is prioritized.
    #[test]
    fn the_wanted_branch_comes_first(rt: HostRuntime) -> Result<(), Fail> {
        passes(&rt, |rt, alloc| {
            let commits = two_branches(alloc)?;
            let order = match grouped_commits(alloc, &commits, 3) {
                Ok(order) => order,
                Err(GroupedGraphError::Memory) => return Err(AllocError),
                Err(_) => {
                    assert!(rt; false, "an error of a graph without fault");
                    return Ok(());
                }
            };
            let mut ids = Vec::new(alloc);
            for commit in &order {
                ids.push(commit.id)?;
            }
            assert_eq!(rt; ids.as_slice(), [3, 4, 2, 1].as_slice());
            Ok(())
        })
    }
}
