//! Graphs of characters, and results of walks over them.
use jj_dag::walk_error::WalkError;
use rows::row_error::RowError;
use rows::values::Values;
use std::alloc::{AllocError, Global};
use std::str::Chars;

/// A node, or an error.
pub type Item = Result<char, char>;

/// The nodes of a walk, or its error.
pub type Order = Result<Vec<char>, WalkError<char>>;

/// Returns the neighbors of a node as a string.
pub fn neighbors<'a>(graph: &'a str, node: char) -> &'a str {
    for line in graph.split(' ') {
        if let Some((name, list)) = line.split_once(':') {
            if name.starts_with(node) {
                return list;
            }
        }
    }
    ""
}

/// Returns the neighbors of a node; fails with the node if its list begins with `!`.
pub fn neighbors_or_error<'a>(graph: &'a str, node: char) -> Result<Chars<'a>, char> {
    let list = neighbors(graph, node);
    if list.starts_with('!') {
        return Err(node);
    }
    Ok(list.chars())
}

/// Parses a list of items.
pub fn items_of(alloc: Global, list: &str) -> Result<Vec<Item>, RowError> {
    let mut items = Vec::new(alloc);
    let mut fails = false;
    for letter in list.chars() {
        if letter == '!' {
            fails = true;
        } else {
            items.push(if fails { Err(letter) } else { Ok(letter) })?;
            fails = false;
        }
    }
    Ok(items)
}

/// Nodes with their items.
#[derive(Drop)]
pub struct FailingGraph {
    lists: Vec<(char, Vec<Item>)>,
}

impl FailingGraph {
    /// Parses a graph.
    pub fn parse(alloc: Global, graph: &str) -> Result<FailingGraph, RowError> {
        let mut lists = Vec::new(alloc);
        for line in graph.split(' ') {
            if let Some((name, list)) = line.split_once(':') {
                if let Some(node) = name.chars().next() {
                    lists.push((node, items_of(alloc, list)?))?;
                }
            }
        }
        Ok(FailingGraph { lists })
    }

    /// Returns the items of a node.
    pub fn items(&self, node: char) -> &[Item] {
        for (name, items) in &self.lists {
            if *name == node {
                return items.as_slice();
            }
        }
        &[]
    }
}

/// Returns the id of a node: the node itself.
pub fn id(node: &char) -> Result<char, AllocError> {
    Ok(*node)
}

/// The error of any node on or below a cycle; which node is unspecified.
pub fn cycle(_node: char) -> char {
    '*'
}

fn string_of(alloc: Global, nodes: &[char]) -> Result<String, AllocError> {
    let mut string = String::new(alloc);
    for node in nodes {
        string.push(*node)?;
    }
    Ok(string)
}

/// Appends nodes as one string.
pub fn put_nodes(alloc: Global, values: &mut Values, nodes: &[char]) {
    values.allocated(string_of(alloc, nodes));
}

/// Appends an error.
pub fn put_error(values: &mut Values, error: char) {
    values.word("error");
    values.display(&error);
}

/// Appends `ok` and the nodes, or `error` and the error.
pub fn put_order(alloc: Global, values: &mut Values, order: Order) -> Result<(), RowError> {
    match order {
        Ok(nodes) => {
            values.word("ok");
            put_nodes(alloc, values, &nodes);
            Ok(())
        }
        Err(WalkError::Memory) => Err(RowError::Memory),
        Err(WalkError::Node(error)) => {
            put_error(values, error);
            Ok(())
        }
    }
}

/// Appends `ok` and the nodes in ascending order, or `error` and the error.
pub fn put_sorted(alloc: Global, values: &mut Values, order: Order) -> Result<(), RowError> {
    match order {
        Ok(mut nodes) => {
            nodes.sort_unstable();
            put_order(alloc, values, Ok(nodes))
        }
        Err(error) => put_order(alloc, values, Err(error)),
    }
}
