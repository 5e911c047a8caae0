//! Requests on depth-first walks, orders, heads and closest common nodes.
use crate::graphs::{
    FailingGraph, Item, Order, cycle, id, items_of, neighbors, neighbors_or_error, put_order,
    put_sorted,
};
use jj_walks::dag_walk::{
    WalkError, dfs, dfs_ok, heads, heads_ok, topo_order_forward, topo_order_forward_ok,
    topo_order_reverse, topo_order_reverse_ok,
};
use jj_walks::dag_walk_async::{self, closest_common_nodes, topo_order_reverse_ord};
use rows::request::Request;
use rows::row_error::RowError;
use rows::values::Values;
use std::alloc::{AllocError, Global};
use std::collections::HashSet;

fn preorder(alloc: Global, graph: &str, start: &str) -> Result<Vec<char>, AllocError> {
    let below = |node: &char| neighbors(graph, *node).chars();
    let mut order = Vec::new(alloc);
    for node in dfs(alloc, start.chars(), id, below)? {
        order.push(node?)?;
    }
    Ok(order)
}

// Errors appear in order, after a `!`.
fn preorder_ok(
    alloc: Global,
    graph: &FailingGraph,
    start: &[Item],
) -> Result<Vec<char>, AllocError> {
    let below = |node: &char| graph.items(*node).iter().copied();
    let mut order = Vec::new(alloc);
    for item in dfs_ok(alloc, start.iter().copied(), id, below)? {
        match item {
            Ok(node) => order.push(node)?,
            Err(WalkError::Node(error)) => {
                order.push('!')?;
                order.push(error)?;
            }
            Err(WalkError::Memory) => return Err(AllocError),
        }
    }
    Ok(order)
}

fn forward(alloc: Global, graph: &str, start: &str) -> Order {
    let below = |node: &char| neighbors(graph, *node).chars();
    topo_order_forward(alloc, start.chars(), id, below, cycle)
}

fn reverse(alloc: Global, graph: &str, start: &str) -> Order {
    let below = |node: &char| neighbors(graph, *node).chars();
    topo_order_reverse(alloc, start.chars(), id, below, cycle)
}

fn maximal(alloc: Global, graph: &str, start: &str) -> Result<HashSet<char>, AllocError> {
    let below = |node: &char| neighbors(graph, *node).chars();
    heads(alloc, start.chars(), id, below)
}

fn maximal_lists(
    alloc: Global,
    graph: &str,
    start: &str,
) -> Result<HashSet<char>, WalkError<char>> {
    let below = |node: &char| neighbors_or_error(graph, *node);
    dag_walk_async::heads(alloc, start.chars(), id, below)
}

fn closest(alloc: Global, graph: &str, set1: &str, set2: &str) -> Order {
    let below = |node: &char| neighbors_or_error(graph, *node);
    closest_common_nodes(alloc, set1.chars(), set2.chars(), id, below)
}

fn forward_ok(alloc: Global, graph: &FailingGraph, start: &[Item]) -> Order {
    let below = |node: &char| graph.items(*node).iter().copied();
    topo_order_forward_ok(alloc, start.iter().copied(), id, below, cycle)
}

fn reverse_ok(alloc: Global, graph: &FailingGraph, start: &[Item]) -> Order {
    let below = |node: &char| graph.items(*node).iter().copied();
    topo_order_reverse_ok(alloc, start.iter().copied(), id, below, cycle)
}

fn maximal_ok(
    alloc: Global,
    graph: &FailingGraph,
    start: &[Item],
) -> Result<HashSet<char>, WalkError<char>> {
    let below = |node: &char| graph.items(*node).iter().copied();
    heads_ok(alloc, start.iter().copied(), id, below)
}

fn greatest(alloc: Global, graph: &FailingGraph, start: &[Item]) -> Order {
    let below = |node: &char| graph.items(*node).iter().copied();
    topo_order_reverse_ord(alloc, start.iter().copied(), id, below, cycle)
}

fn listed(
    alloc: Global,
    nodes: Result<HashSet<char>, WalkError<char>>,
) -> Result<Vec<char>, WalkError<char>> {
    match nodes {
        Ok(nodes) => Ok(nodes.iter().copied().collect(alloc)?),
        Err(error) => Err(error),
    }
}

fn call_plain(
    alloc: Global,
    name: &str,
    request: &Request,
    values: &mut Values,
) -> Result<(), RowError> {
    let fields = request.group(0);
    let (start, graph) = (fields.string(0), fields.string(1));
    match name {
        "dfs" => put_order(alloc, values, Ok(preorder(alloc, graph, start)?)),
        "forward" => put_order(alloc, values, forward(alloc, graph, start)),
        "reverse" => put_order(alloc, values, reverse(alloc, graph, start)),
        "heads-lists" => put_sorted(
            alloc,
            values,
            listed(alloc, maximal_lists(alloc, graph, start)),
        ),
        _ => put_sorted(
            alloc,
            values,
            listed(alloc, Ok(maximal(alloc, graph, start)?)),
        ),
    }
}

fn call_failing(
    alloc: Global,
    name: &str,
    request: &Request,
    values: &mut Values,
) -> Result<(), RowError> {
    let fields = request.group(0);
    let start = items_of(alloc, fields.string(0))?;
    let graph = FailingGraph::parse(alloc, fields.string(1))?;
    match name {
        "dfs-ok" => put_order(
            alloc,
            values,
            Ok(preorder_ok(alloc, &graph, start.as_slice())?),
        ),
        "forward-ok" => put_order(alloc, values, forward_ok(alloc, &graph, start.as_slice())),
        "reverse-ok" => put_order(alloc, values, reverse_ok(alloc, &graph, start.as_slice())),
        "greatest" => put_order(alloc, values, greatest(alloc, &graph, start.as_slice())),
        _ => put_sorted(
            alloc,
            values,
            listed(alloc, maximal_ok(alloc, &graph, start.as_slice())),
        ),
    }
}

fn call_closest(alloc: Global, request: &Request, values: &mut Values) -> Result<(), RowError> {
    let fields = request.group(0);
    let nodes = closest(alloc, fields.string(2), fields.string(0), fields.string(1));
    put_sorted(alloc, values, nodes)
}

/// Runs the request of this name, if it is one of this module.
pub fn call(alloc: Global, name: &str, request: &Request, values: &mut Values) -> bool {
    let called = match name {
        "dfs" | "forward" | "reverse" | "heads" | "heads-lists" => {
            call_plain(alloc, name, request, values)
        }
        "dfs-ok" | "forward-ok" | "reverse-ok" | "heads-ok" | "greatest" => {
            call_failing(alloc, name, request, values)
        }
        "closest-common" => call_closest(alloc, request, values),
        _ => return false,
    };
    values.record(called);
    true
}
