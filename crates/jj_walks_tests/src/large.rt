//! Walks over graphs of many nodes: a chain, a fan, and a history full of merges. The head of a
//! graph is its greatest node, which reaches all others.
use jj_walks::dag_walk::{WalkError, heads, topo_order_forward};
use jj_walks::dag_walk_async::{
    closest_common_nodes, topo_order_reverse_chunked, topo_order_reverse_lazy,
};
use jj_walks::graph::{GraphEdge, GraphNode, GroupedGraphError, TopoGroupedGraph};
use std::alloc::{AllocError, Global};
use std::collections::HashSet;
use std::ops::Range;

/// The shape of the graph below the head.
#[derive(Clone, Copy)]
pub enum Shape {
    /// Each node over the next lesser one.
    Chain,
    /// The head over all others.
    Fan,
    /// Each node over the three next lesser ones.
    Merges,
}

// The neighbors of a node.
fn below(shape: Shape, head: u64, node: u64) -> Range<u64> {
    match shape {
        Shape::Chain => node.saturating_sub(1)..node,
        Shape::Fan if node == head => 0..node,
        Shape::Fan => 0..0,
        Shape::Merges => node.saturating_sub(3)..node,
    }
}

/// The nodes reachable from the head in postorder.
pub fn forward(alloc: Global, shape: Shape, head: u64) -> Result<Vec<u64>, WalkError<u64>> {
    topo_order_forward(
        alloc,
        head..head.saturating_add(1),
        |node: &u64| Ok(*node),
        |node: &u64| below(shape, head, *node),
        |node: u64| node,
    )
}

/// The maximal elements of the nodes below the head.
pub fn maximal(alloc: Global, shape: Shape, head: u64) -> Result<HashSet<u64>, AllocError> {
    heads(
        alloc,
        0..head,
        |node: &u64| Ok(*node),
        |node: &u64| below(shape, head, *node),
    )
}

/// The lazy order of the nodes reachable from the head.
pub fn lazy(alloc: Global, shape: Shape, head: u64) -> Result<Vec<u64>, WalkError<u64>> {
    let nodes = topo_order_reverse_lazy(
        alloc,
        [Ok(head)].iter().copied(),
        |node: &u64| Ok(*node),
        |node: &u64| below(shape, head, *node).map(|other: u64| -> Result<u64, u64> { Ok(other) }),
        |node: u64| node,
    )?;
    let mut order = Vec::new(alloc);
    for node in nodes {
        order.push(node?)?;
    }
    Ok(order)
}

// Appends the next chunk to the order, and returns whether there was one.
fn chunk(
    alloc: Global,
    shape: Shape,
    head: u64,
    start: &mut Vec<u64>,
    order: &mut Vec<u64>,
) -> Result<bool, WalkError<u64>> {
    let nodes = topo_order_reverse_chunked(
        alloc,
        start,
        |node: &u64| Ok(*node),
        |node: &u64| below(shape, head, *node).map(|other: u64| -> Result<u64, u64> { Ok(other) }),
        |node: u64| node,
    )?;
    for node in nodes.iter() {
        order.push(*node)?;
    }
    Ok(!nodes.is_empty())
}

/// The order of the nodes reachable from the head, chunk by chunk.
pub fn chunked(alloc: Global, shape: Shape, head: u64) -> Result<Vec<u64>, WalkError<u64>> {
    let mut start = Vec::new(alloc);
    start.push(head)?;
    let mut order = Vec::new(alloc);
    for _turn in 0..=head {
        if !chunk(alloc, shape, head, &mut start, &mut order)? {
            break;
        }
    }
    Ok(order)
}

/// The nodes with their edges, the greatest first.
pub fn input_of(
    alloc: Global,
    shape: Shape,
    head: u64,
) -> Result<Vec<Result<GraphNode<u64, u64>, u64>>, AllocError> {
    let mut input = Vec::new(alloc);
    for node in (0..=head).rev() {
        let mut edges = Vec::new(alloc);
        for other in below(shape, head, node) {
            edges.push(GraphEdge::direct(other))?;
        }
        input.push(Ok((node, edges)))?;
    }
    Ok(input)
}

fn number(node: &u64) -> &u64 {
    node
}

/// The grouped order of an input.
pub fn grouped(
    alloc: Global,
    input: Vec<Result<GraphNode<u64, u64>, u64>>,
) -> Result<Vec<u64>, GroupedGraphError<u64>> {
    let graph = TopoGroupedGraph::new(alloc, input.into_iter(), number);
    let mut order = Vec::new(alloc);
    for item in graph.stream() {
        let (node, _edges) = item?;
        order.push(node)?;
    }
    Ok(order)
}

/// The closest common nodes of two nodes.
pub fn closest(
    alloc: Global,
    shape: Shape,
    head: u64,
    nodes: (u64, u64),
) -> Result<Vec<u64>, WalkError<u64>> {
    let (first, second) = nodes;
    closest_common_nodes(
        alloc,
        first..first.saturating_add(1),
        second..second.saturating_add(1),
        |node: &u64| Ok(*node),
        |node: &u64| -> Result<Range<u64>, u64> { Ok(below(shape, head, *node)) },
    )
}

#[cfg(test)]
mod tests {
    use super::*;
    use crate::outcomes::found;
    use std::process::Abort;
    use std::test::Fail;

    const HEAD: u64 = 20_000;

    const SHAPES: &[Shape] = &[Shape::Chain, Shape::Fan, Shape::Merges];

    /// Asserts that an order has all nodes and, but for the fan, each before the next lesser one.
    fn is_whole<R: Abort>(rt: &R, shape: Shape, order: &[u64]) {
        assert_eq!(rt; order.len(), 20_001);
        let mut expected = HEAD;
        for node in order {
            if matches!(shape, Shape::Fan) {
                assert!(rt; *node <= HEAD);
            } else {
                assert_eq!(rt; *node, expected);
                expected = expected.saturating_sub(1);
            }
        }
    }

    #[test]
    fn long_forward_orders(rt: HostRuntime) -> Result<(), Fail> {
        let alloc = rt.alloc();
        for shape in SHAPES {
            let order = forward(alloc, *shape, HEAD).or_else(|_| forward(alloc, *shape, HEAD));
            let mut order = found(&rt, order)?;
            order.reverse();
            is_whole(&rt, *shape, &order);
        }
        Ok(())
    }

    #[test]
    fn many_maximal_nodes(rt: HostRuntime) -> Result<(), Fail> {
        let alloc = rt.alloc();
        for shape in SHAPES {
            let nodes = maximal(alloc, *shape, HEAD).or_else(|_| maximal(alloc, *shape, HEAD))?;
            let expected = if matches!(shape, Shape::Fan) {
                20_000
            } else {
                1
            };
            assert_eq!(rt; nodes.len(), expected);
            assert!(rt; nodes.contains(&(HEAD - 1)));
        }
        Ok(())
    }

    #[test]
    fn long_lazy_and_chunked_orders(rt: HostRuntime) -> Result<(), Fail> {
        let alloc = rt.alloc();
        for shape in SHAPES {
            let order = lazy(alloc, *shape, HEAD).or_else(|_| lazy(alloc, *shape, HEAD));
            is_whole(&rt, *shape, &found(&rt, order)?);
            let order = chunked(alloc, *shape, HEAD).or_else(|_| chunked(alloc, *shape, HEAD));
            is_whole(&rt, *shape, &found(&rt, order)?);
        }
        Ok(())
    }

    /// The grouped order of the nodes.
    fn shown(alloc: Global, shape: Shape) -> Result<Vec<u64>, GroupedGraphError<u64>> {
        grouped(alloc, input_of(alloc, shape, HEAD)?)
    }

    #[test]
    fn long_grouped_orders(rt: HostRuntime) -> Result<(), Fail> {
        let alloc = rt.alloc();
        for shape in SHAPES {
            match shown(alloc, *shape).or_else(|_| shown(alloc, *shape)) {
                Ok(order) => is_whole(&rt, *shape, &order),
                Err(GroupedGraphError::Memory) => return Err(AllocError.into()),
                Err(_error) => assert!(rt; false, "the input is in order"),
            }
        }
        Ok(())
    }

    #[test]
    fn long_ways_to_common_nodes(rt: HostRuntime) -> Result<(), Fail> {
        let alloc = rt.alloc();
        for shape in SHAPES {
            for lesser in [0, 1, HEAD - 1] {
                let nodes = closest(alloc, *shape, HEAD, (HEAD, lesser)).or_else(|_| closest(
                    alloc,
                    *shape,
                    HEAD,
                    (HEAD, lesser),
                ));
                let nodes = found(&rt, nodes)?;
                assert_eq!(rt; nodes.as_slice(), [lesser].as_slice());
            }
        }
        Ok(())
    }
}
