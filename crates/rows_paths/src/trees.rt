//! Requests on path trees of numbers. The first group builds a tree: `a/b=2` sets the value at a
//! path, `a>b=2` at the path `b` relative to the node `a`; `a/b:2` and `a/b*2` set the value of the
//! node that `add` returns, and `a/b` only adds the node.
use crate::parsing::{parse_name, parse_path, path_at};
use jj_paths::repo_path::RepoPath;
use jj_paths::repo_path_tree::RepoPathTree;
use rows::request::{Fields, Request};
use rows::row_error::{RowError, agree};
use rows::values::Values;
use std::alloc::Global;

/// Runs the request of this name. Returns `false` if this module has no such request.
pub fn call(alloc: Global, name: &str, request: &Request, values: &mut Values) -> bool {
    let called = match name {
        "tree" => tree(alloc, request, values),
        "tree-get" => tree_get(alloc, request, values),
        "tree-walk" => tree_walk(alloc, request, values),
        "tree-children" => tree_children(alloc, request, values),
        "tree-equal" => tree_equal(alloc, request, values),
        "tree-root" => tree_root(alloc, request, values),
        "tree-copy" => tree_copy(alloc, request, values),
        _ => return false,
    };
    values.record(called);
    true
}

fn number(text: &str) -> Result<u64, RowError> {
    match text.parse::<u64>() {
        Ok(number) => Ok(number),
        Err(_) => Err(RowError::Unreadable("number")),
    }
}

fn set_value(
    alloc: Global,
    tree: &mut RepoPathTree<u64>,
    path: &str,
    value: &str,
) -> Result<(), RowError> {
    tree.set(parse_path(alloc, path)?, number(value)?)?;
    Ok(())
}

fn set_node_value(
    alloc: Global,
    tree: &mut RepoPathTree<u64>,
    path: &str,
    value: &str,
) -> Result<(), RowError> {
    let value = number(value)?;
    tree.add(parse_path(alloc, path)?)?.set_value(value);
    Ok(())
}

fn write_value(
    alloc: Global,
    tree: &mut RepoPathTree<u64>,
    path: &str,
    value: &str,
) -> Result<(), RowError> {
    let value = number(value)?;
    *tree.add(parse_path(alloc, path)?)?.value_mut() = value;
    Ok(())
}

fn set_below(
    alloc: Global,
    tree: &mut RepoPathTree<u64>,
    dir: &str,
    step: &str,
) -> Result<(), RowError> {
    let Some((path, value)) = step.split_once('=') else {
        return Err(RowError::Unreadable("step"));
    };
    let value = number(value)?;
    let path = parse_path(alloc, path)?;
    tree.add(parse_path(alloc, dir)?)?.set(path, value)?;
    Ok(())
}

fn add_node(alloc: Global, tree: &mut RepoPathTree<u64>, path: &str) -> Result<(), RowError> {
    tree.add(parse_path(alloc, path)?)?;
    Ok(())
}

fn apply(alloc: Global, tree: &mut RepoPathTree<u64>, step: &str) -> Result<(), RowError> {
    if let Some((dir, step)) = step.split_once('>') {
        return set_below(alloc, tree, dir, step);
    }
    if let Some((path, value)) = step.split_once('=') {
        return set_value(alloc, tree, path, value);
    }
    if let Some((path, value)) = step.split_once(':') {
        return set_node_value(alloc, tree, path, value);
    }
    if let Some((path, value)) = step.split_once('*') {
        return write_value(alloc, tree, path, value);
    }
    add_node(alloc, tree, step)
}

fn tree_of(alloc: Global, fields: &Fields) -> Result<RepoPathTree<u64>, RowError> {
    let mut tree: RepoPathTree<u64> = RepoPathTree::default(alloc);
    for index in 0..fields.len() {
        apply(alloc, &mut tree, fields.string(index))?;
    }
    Ok(tree)
}

fn tree(alloc: Global, request: &Request, values: &mut Values) -> Result<(), RowError> {
    let tree = tree_of(alloc, request.group(0))?;
    values.debug(&tree);
    values.allocated(format!(in alloc; "{tree:#?}"));
    Ok(())
}

fn put_value(values: &mut Values, found: Option<&RepoPathTree<u64>>) {
    match found {
        None => values.word("none"),
        Some(tree) => values.number(*tree.value()),
    }
}

// Checks `get` of the tree against `get` of its root node.
fn nodes_agree(tree: &RepoPathTree<u64>, path: RepoPath<'_>) -> bool {
    match (tree.get(path), tree.node().get(path)) {
        (Some(below), Some(node)) => below.node() == node,
        (None, None) => true,
        _ => false,
    }
}

// Appends the values at the paths of the second group.
fn tree_get(alloc: Global, request: &Request, values: &mut Values) -> Result<(), RowError> {
    let paths = request.group(1);
    let tree = tree_of(alloc, request.group(0))?;
    for index in 0..paths.len() {
        let path = path_at(alloc, paths, index)?;
        put_value(values, tree.get(path));
        agree(nodes_agree(&tree, path), "node")?;
    }
    Ok(())
}

fn tree_walk(alloc: Global, request: &Request, values: &mut Values) -> Result<(), RowError> {
    let path = path_at(alloc, request.group(1), 0)?;
    let tree = tree_of(alloc, request.group(0))?;
    for (below, rest) in tree.walk_to(path) {
        values.number(*below.value());
        values.string(rest.as_internal_file_string());
    }
    agree(walks_agree(&tree, path), "walk of nodes")
}

// Checks `walk_to` of the tree against `walk_to` of its root node.
fn walks_agree(tree: &RepoPathTree<u64>, path: RepoPath<'_>) -> bool {
    let mut nodes = tree.node().walk_to(path);
    for (below, rest) in tree.walk_to(path) {
        match nodes.next() {
            Some((node, left)) if node == below.node() && left == rest => {}
            _ => return false,
        }
    }
    nodes.next().is_none()
}

// Appends the children of a path with their values.
fn tree_children(alloc: Global, request: &Request, values: &mut Values) -> Result<(), RowError> {
    let path = path_at(alloc, request.group(1), 0)?;
    let tree = tree_of(alloc, request.group(0))?;
    match tree.get(path) {
        None => values.word("none"),
        Some(node) => {
            put_children(values, node);
            children_agree(alloc, node)?;
        }
    }
    Ok(())
}

fn put_children(values: &mut Values, tree: &RepoPathTree<u64>) {
    values.flag(tree.has_children());
    for (name, child) in tree.children() {
        values.string(name.as_internal_str());
        values.number(*child.value());
    }
}

// Checks the children against the entries and against lookup by name.
fn children_agree(alloc: Global, tree: &RepoPathTree<u64>) -> Result<(), RowError> {
    let mut count = 0usize;
    for (name, child) in tree.children() {
        count = count.saturating_add(1);
        let found = tree.child(parse_name(alloc, name.as_internal_str())?);
        agree(found.is_some_and(|found| found == child), "child")?;
    }
    agree(tree.entries().len() == count, "entries")
}

fn tree_equal(alloc: Global, request: &Request, values: &mut Values) -> Result<(), RowError> {
    let first = tree_of(alloc, request.group(0))?;
    let second = tree_of(alloc, request.group(1))?;
    values.flag(first == second);
    agree((first != second) != (first == second), "comparisons")
}

// Sets the value at the root, and then increments it.
fn tree_root(alloc: Global, request: &Request, values: &mut Values) -> Result<(), RowError> {
    let value = request.group(1).number(0);
    let mut tree = tree_of(alloc, request.group(0))?;
    tree.set_value(value);
    let root = tree.value_mut();
    *root = root.saturating_add(1);
    values.debug(&tree);
    agree(*tree.value() == value.saturating_add(1), "value")
}

fn set_text(
    alloc: Global,
    tree: &mut RepoPathTree<Option<String>>,
    step: &str,
) -> Result<(), RowError> {
    match step.split_once('=') {
        None => tree.set(parse_path(alloc, step)?, None)?,
        Some((path, text)) => {
            let path = parse_path(alloc, path)?;
            let text = String::from_str(alloc, text)?;
            tree.set(path, Some(text))?;
        }
    }
    Ok(())
}

fn set_texts(
    alloc: Global,
    tree: &mut RepoPathTree<Option<String>>,
    fields: &Fields,
) -> Result<(), RowError> {
    for index in 0..fields.len() {
        set_text(alloc, tree, fields.string(index))?;
    }
    Ok(())
}

// Clones a tree of strings, and then changes the original.
fn tree_copy(alloc: Global, request: &Request, values: &mut Values) -> Result<(), RowError> {
    let steps = request.group(1);
    let mut tree: RepoPathTree<Option<String>> = RepoPathTree::default(alloc);
    set_texts(alloc, &mut tree, request.group(0))?;
    let copy = tree.clone()?;
    set_texts(alloc, &mut tree, steps)?;
    values.debug(&copy);
    values.debug(&tree);
    Ok(())
}
