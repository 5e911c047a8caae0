//! Callers over a map from ids to lists of ids: their contracts follow from the walks' own.
ghost use Rattle.std.specs.Prelude.{◌≡◌, IfOk};
ghost use Rattle.jj_dag.specs.Graph.{IsPreorder};
ghost use Rattle.jj_walks_tests.specs.GraphOfMap.{graph_of, neighbors_in};

use jj_content_tests::fallible_iterators::collect_fallible;
use jj_walks::dag_walk::dfs;
use std::alloc::{AllocError, Global};
use std::collections::HashMap;

// The neighbors that the map lists, none where it has no entry.
fn listed(graph: &HashMap<u64, Vec<u64>>, id: u64) -> &[u64]
    ensures { result.now ≡ neighbors_in graph.now id }
{
    match graph.get(&id) {
        Some(neighbors) => neighbors.as_slice(),
        None => &[],
    }
}

/// The preorder of the map's graph.
pub fn preorder_of_map(
    alloc: Global,
    graph: &HashMap<u64, Vec<u64>>,
    starts: &[u64],
) -> Result<Vec<u64>, AllocError>
    ensures { IfOk result (λ v. IsPreorder (graph_of graph.now) starts.now v.items) }
{
    let walk = dfs(
        alloc,
        starts.iter().copied(),
        |id: &u64| Ok(*id),
        |id: &u64| listed(graph, *id).iter().copied(),
    )?;
    collect_fallible(alloc, walk)
}
