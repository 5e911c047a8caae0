//! Requests on lazy and chunked topological orders.
ghost use Rattle.std.specs.Iterator.{IsFinite};

use crate::graphs::{FailingGraph, Item, cycle, id, items_of, put_error, put_nodes};
use jj_walks::dag_walk::WalkError;
use jj_walks::dag_walk_async::{topo_order_reverse_chunked, topo_order_reverse_lazy};
use rows::request::Request;
use rows::row_error::RowError;
use rows::values::Values;
use smallvec::SmallVec;
use std::alloc::{AllocError, Global};

// The nodes that an order yields, and the error with which it ends.
fn all_of<W>(alloc: Global, order: W) -> Result<(Vec<char>, Option<char>), AllocError>
where
    W: Iterator<Item = Result<char, WalkError<char>>> + Drop,
    requires callable { W.can_next order }
    requires finite { IsFinite (W.remaining order) }
{
    let mut given = Vec::new(alloc);
    let mut error = None;
    for item in order {
        match item {
            Ok(node) => given.push(node)?,
            Err(WalkError::Node(node)) => error = Some(node),
            Err(WalkError::Memory) => return Err(AllocError),
        }
    }
    Ok((given, error))
}

fn ordered(
    alloc: Global,
    graph: &FailingGraph,
    start: &[Item],
) -> Result<(Vec<char>, Option<char>), AllocError> {
    let below = |node: &char| graph.items(*node).iter().copied();
    all_of(
        alloc,
        topo_order_reverse_lazy(alloc, start.iter().copied(), id, below, cycle)?,
    )
}

// The nodes, and then the error, if there is one.
fn lazy(alloc: Global, request: &Request, values: &mut Values) -> Result<(), RowError> {
    let fields = request.group(0);
    let start = items_of(alloc, fields.string(0))?;
    let graph = FailingGraph::parse(alloc, fields.string(1))?;
    let (nodes, error) = ordered(alloc, &graph, start.as_slice())?;
    put_nodes(alloc, values, &nodes);
    if let Some(error) = error {
        put_error(values, error);
    }
    Ok(())
}

// Whether the node is in the list after this index.
fn stands_behind(order: &[char], index: usize, node: char) -> bool {
    for (other_index, other) in order.iter().enumerate() {
        if other_index > index && *other == node {
            return true;
        }
    }
    false
}

// Whether each node precedes its neighbors.
fn is_topological(graph: &FailingGraph, order: &[char]) -> bool {
    for (index, node) in order.iter().enumerate() {
        for item in graph.items(*node) {
            if let Ok(neighbor) = item {
                if !stands_behind(order, index, *neighbor) {
                    return false;
                }
            }
        }
    }
    true
}

// Whether each node precedes its neighbors, and the nodes in ascending order.
fn lazy_sorted(alloc: Global, request: &Request, values: &mut Values) -> Result<(), RowError> {
    let fields = request.group(0);
    let start = items_of(alloc, fields.string(0))?;
    let graph = FailingGraph::parse(alloc, fields.string(1))?;
    let (mut nodes, error) = ordered(alloc, &graph, start.as_slice())?;
    values.flag(error.is_none() && is_topological(&graph, &nodes));
    nodes.sort_unstable();
    put_nodes(alloc, values, &nodes);
    Ok(())
}

fn next_chunk(
    alloc: Global,
    graph: &FailingGraph,
    start: &mut Vec<char>,
) -> Result<SmallVec<char, 1>, WalkError<char>> {
    topo_order_reverse_chunked(
        alloc,
        start,
        id,
        |node: &char| graph.items(*node).iter().copied(),
        cycle,
    )
}

// Appends a chunk, and the starts that it leaves; returns whether the walk goes on.
fn put_chunk(
    alloc: Global,
    graph: &FailingGraph,
    start: &mut Vec<char>,
    values: &mut Values,
) -> Result<bool, RowError> {
    let goes_on = match next_chunk(alloc, graph, start) {
        Ok(chunk) => {
            let mut nodes = chunk.as_slice().to_vec(alloc)?;
            nodes.sort_unstable();
            put_nodes(alloc, values, &nodes);
            !nodes.is_empty()
        }
        Err(WalkError::Node(error)) => {
            put_error(values, error);
            false
        }
        Err(WalkError::Memory) => return Err(RowError::Memory),
    };
    put_nodes(alloc, values, start.as_slice());
    Ok(goes_on)
}

// Each chunk in ascending order with the starts that it leaves, up to the first empty one or an
// error.
fn chunked(alloc: Global, request: &Request, values: &mut Values) -> Result<(), RowError> {
    let fields = request.group(0);
    let mut start = fields.string(0).chars().collect(alloc)?;
    let graph = FailingGraph::parse(alloc, fields.string(1))?;
    for _turn in 0..100u32 {
        if !put_chunk(alloc, &graph, &mut start, values)? {
            return Ok(());
        }
    }
    Err(RowError::Unreadable("too many chunks"))
}

/// Runs the request of this name, if it is one of this module.
pub fn call(alloc: Global, name: &str, request: &Request, values: &mut Values) -> bool {
    let called = match name {
        "lazy" => lazy(alloc, request, values),
        "lazy-sorted" => lazy_sorted(alloc, request, values),
        "chunked" => chunked(alloc, request, values),
        _ => return false,
    };
    values.record(called);
    true
}
