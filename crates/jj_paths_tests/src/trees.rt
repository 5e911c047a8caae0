//! Tests of path trees: after an allocation failure, and deep ones.
use crate::fixtures::{equals, path};
use jj_content_tests::retry::{Passed, passes};
use jj_paths::repo_path_tree::RepoPathTree;
use std::alloc::{AllocError, Global};
use std::process::Abort;
use std::test::Fail;

fn add_values<R: Abort>(rt: &R, alloc: Global, tree: &mut RepoPathTree<u32>) -> Passed {
    tree.set(path(rt, alloc, "a/b"), 2)?;
    tree.add(path(rt, alloc, "a"))?.set_value(1);
    *tree.add(path(rt, alloc, "c/d"))?.value_mut() = 3;
    Ok(())
}

// The value is 1 at `a`, 2 at `a/b`, 3 at `c/d`, and by default 0 at the root and at `c`.
fn small_tree<R: Abort>(rt: &R, alloc: Global) -> Result<RepoPathTree<u32>, AllocError> {
    let mut tree: RepoPathTree<u32> = RepoPathTree::default(alloc);
    add_values(rt, alloc, &mut tree)?;
    Ok(tree)
}

// Returns the value at a path, or 99 if the tree has no node there.
fn value_at<R: Abort>(rt: &R, alloc: Global, tree: &RepoPathTree<u32>, text: &str) -> u32 {
    match tree.get(path(rt, alloc, text)) {
        Some(found) => *found.value(),
        None => 99,
    }
}

// The values of `small_tree`.
static SMALL: [(&str, u32); 6] = [
    ("", 0),
    ("a", 1),
    ("a/b", 2),
    ("c", 0),
    ("c/d", 3),
    ("b", 99),
];

fn has_values<R: Abort>(rt: &R, alloc: Global, tree: &RepoPathTree<u32>, values: &[(&str, u32)]) {
    for row in values {
        equals(rt, &(row.0, value_at(rt, alloc, tree, row.0)), row);
    }
}

// Builds the small tree, and tries again after an injected allocation failure.
fn retry_small_tree<R: Abort>(rt: &R, alloc: Global) -> RepoPathTree<u32> {
    match small_tree(rt, alloc) {
        Ok(tree) => tree,
        Err(AllocError) => match small_tree(rt, alloc) {
            Ok(tree) => tree,
            Err(AllocError) => panic!(rt; "allocation failed twice"),
        },
    }
}

static ADDED: [(&str, u32); 2] = [("a/b/c", 0), ("a/b/c/d", 4)];

// A failed `add` changes no value, and the nodes that it inserted have the default value.
#[test]
fn failed_adds(rt: HostRuntime) {
    let alloc = rt.alloc();
    let mut tree = retry_small_tree(&rt, alloc);
    let added = path(&rt, alloc, "a/b/c/d");
    match tree.add(added) {
        Ok(node) => node.set_value(4),
        Err(_) => {
            let value = value_at(&rt, alloc, &tree, "a/b/c/d");
            assert!(&rt; value == 99 || value == 0);
            assert!(&rt; tree.set(added, 4).is_ok());
        }
    }
    has_values(&rt, alloc, &tree, &SMALL);
    has_values(&rt, alloc, &tree, &ADDED);
}

// Returns the string of a path of 8,001 components.
fn deep_text(alloc: Global) -> Result<String, AllocError> {
    let mut text = String::from_str(alloc, "a")?;
    for _ in 0u32..8000 {
        text.push_str("/a")?;
    }
    Ok(text)
}

fn check_deep<R: Abort>(rt: &R, alloc: Global) -> Passed {
    let text = deep_text(alloc)?;
    let deep = path(rt, alloc, text.as_str());
    let mut tree: RepoPathTree<u32> = RepoPathTree::default(alloc);
    tree.set(deep, 3)?;
    equals(rt, &value_at(rt, alloc, &tree, text.as_str()), &3);
    Ok(())
}

// Dropping a deep tree does not overflow the stack.
#[test]
fn deep_trees(rt: HostRuntime) -> Result<(), Fail> {
    passes(&rt, check_deep)
}
