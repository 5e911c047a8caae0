//! Requests on grouped orders and reversed graphs.
//!
//! A graph is the nodes in their order, each with the targets of its edges: `C:A,~B,?Z A:` has C
//! with a direct edge to A, an indirect one to B and a missing one to Z, and A. `!X` is an input
//! that fails with X. A node may have a mark after its id, which is no part of the id: `A1:`.
use crate::graphs::{put_error, put_nodes};
use jj_walks::dag_walk::WalkError;
use jj_walks::graph::{GraphEdge, GraphNode, GroupedGraphError, TopoGroupedGraph, reverse_graph};
use rows::request::Request;
use rows::row_error::RowError;
use rows::values::Values;
use std::alloc::{AllocError, Global};

// An id, and a mark that is no part of it.
type Node = (char, char);

type Input = Vec<Result<GraphNode<Node, char>, char>>;

fn node_of(name: &str) -> Node {
    let mut letters = name.chars();
    let id = letters.next().unwrap_or(' ');
    (id, letters.next().unwrap_or(' '))
}

fn edges_of(alloc: Global, list: &str) -> Result<Vec<GraphEdge<char>>, AllocError> {
    let mut edges = Vec::new(alloc);
    for target in list.split(',') {
        if let Some(rest) = target.strip_prefix('~') {
            edges.push(GraphEdge::indirect(node_of(rest).0))?;
        } else if let Some(rest) = target.strip_prefix('?') {
            edges.push(GraphEdge::missing(node_of(rest).0))?;
        } else if !target.is_empty() {
            edges.push(GraphEdge::direct(node_of(target).0))?;
        }
    }
    Ok(edges)
}

fn input_of(alloc: Global, graph: &str) -> Result<Input, AllocError> {
    let mut input = Vec::new(alloc);
    for line in graph.split(' ') {
        if let Some(error) = line.strip_prefix('!') {
            input.push(Err(node_of(error).0))?;
        } else if let Some((name, list)) = line.split_once(':') {
            input.push(Ok((node_of(name), edges_of(alloc, list)?)))?;
        }
    }
    Ok(input)
}

fn letter(node: &Node) -> &char {
    &node.0
}

// The ids of the nodes that a grouped graph yields, and the error with which it ends.
fn grouped_order(
    alloc: Global,
    graph: &str,
    prioritized: &str,
) -> Result<(Vec<char>, Option<GroupedGraphError<char>>), AllocError> {
    let mut grouped = TopoGroupedGraph::new(alloc, input_of(alloc, graph)?.into_iter(), letter);
    for id in prioritized.chars() {
        grouped.prioritize_branch(id)?;
    }
    let mut order = Vec::new(alloc);
    let mut end = None;
    for item in grouped.stream() {
        match item {
            Ok((node, _edges)) => order.push(node.0)?,
            Err(GroupedGraphError::Memory) => return Err(AllocError),
            Err(error) => end = Some(error),
        }
    }
    Ok((order, end))
}

fn grouped(alloc: Global, request: &Request, values: &mut Values) -> Result<(), RowError> {
    let fields = request.group(0);
    let (order, end) = grouped_order(alloc, fields.string(1), fields.string(0))?;
    put_nodes(alloc, values, &order);
    match &end {
        None => {}
        Some(GroupedGraphError::Input(error)) => put_error(values, *error),
        Some(error) => values.debug(error),
    }
    Ok(())
}

fn edge_mark(edge: &GraphEdge<char>) -> &'static str {
    if edge.is_missing() {
        return "?";
    }
    if edge.is_indirect() { "~" } else { "" }
}

fn push_node(string: &mut String, node: &GraphNode<Node, char>) -> Result<(), AllocError> {
    let ((id, mark), edges) = node;
    string.push(*id)?;
    if *mark != ' ' {
        string.push(*mark)?;
    }
    string.push(':')?;
    let mut is_first = true;
    for edge in edges {
        if !is_first {
            string.push(',')?;
        }
        is_first = false;
        string.push_str(edge_mark(edge))?;
        string.push(edge.target)?;
    }
    Ok(())
}

fn reversed_of(alloc: Global, graph: &str) -> Result<String, WalkError<char>> {
    let nodes = reverse_graph(alloc, input_of(alloc, graph)?.into_iter(), letter)?;
    let mut string = String::new(alloc);
    for node in &nodes {
        if !string.is_empty() {
            string.push(' ')?;
        }
        push_node(&mut string, node)?;
    }
    Ok(string)
}

fn reversed(alloc: Global, request: &Request, values: &mut Values) -> Result<(), RowError> {
    match reversed_of(alloc, request.group(0).string(0)) {
        Ok(string) => values.string(string.as_str()),
        Err(WalkError::Node(error)) => put_error(values, error),
        Err(WalkError::Memory) => return Err(RowError::Memory),
    }
    Ok(())
}

/// Runs the request of this name, if it is one of this module.
pub fn call(alloc: Global, name: &str, request: &Request, values: &mut Values) -> bool {
    let called = match name {
        "grouped" => grouped(alloc, request, values),
        "reverse-graph" => reversed(alloc, request, values),
        _ => return false,
    };
    values.record(called);
    true
}
