//! Requests that compare and hash paths and names.
use crate::parsing::{name_at, path_at};
use jj_paths::repo_path::{RepoPath, RepoPathBuf, RepoPathComponent, RepoPathComponentBuf};
use rows::request::{Fields, Request};
use rows::row_error::{RowError, agree};
use rows::values::Values;
use std::alloc::{AllocError, Global};
use std::cmp::Ordering;
use std::collections::HashSet;
use std::hash::Hash;

/// Runs the request of this name. Returns `false` if this module has no such request.
pub fn call(alloc: Global, name: &str, request: &Request, values: &mut Values) -> bool {
    let called = match name {
        "path-order" => path_order(alloc, request, values),
        "path-name-order" => name_order(alloc, request, values),
        "path-set" => path_set(alloc, request, values),
        "path-name-set" => name_set(alloc, request, values),
        _ => return false,
    };
    values.record(called);
    true
}

// Appends how the first value compares with the second one.
fn put_order<T: Ord>(values: &mut Values, first: &T, second: &T) -> Result<Ordering, RowError> {
    let order = first.cmp(second);
    values.word(match order {
        Ordering::Less => "less",
        Ordering::Equal => "equal",
        Ordering::Greater => "greater",
    });
    agree(
        (first == second) == (order == Ordering::Equal)
            && (first < second) == (order == Ordering::Less)
            && second.cmp(first) == order.reverse(),
        "comparisons",
    )?;
    Ok(order)
}

fn path_order(alloc: Global, request: &Request, values: &mut Values) -> Result<(), RowError> {
    let fields = request.group(0);
    let first = path_at(alloc, fields, 0)?;
    let second = path_at(alloc, fields, 1)?;
    let order = put_order(values, &first, &second)?;
    let owned = first.to_owned(alloc)?.cmp(&second.to_owned(alloc)?);
    agree(owned == order, "owned paths")
}

fn name_order(alloc: Global, request: &Request, values: &mut Values) -> Result<(), RowError> {
    let fields = request.group(0);
    let first = name_at(alloc, fields, 0)?;
    let second = name_at(alloc, fields, 1)?;
    let order = put_order(values, &first, &second)?;
    let owned = first.to_owned(alloc)?.cmp(&second.to_owned(alloc)?);
    agree(owned == order, "owned names")
}

fn owned_paths(alloc: Global, paths: &[RepoPath<'_>]) -> Result<HashSet<RepoPathBuf>, AllocError> {
    let mut set = HashSet::new(alloc);
    for path in paths {
        set.insert((*path).to_owned(alloc)?)?;
    }
    Ok(set)
}

fn collect_set<T: Eq + Hash + Copy + Drop>(
    alloc: Global,
    items: &[T],
) -> Result<HashSet<T>, AllocError> {
    let mut set = HashSet::new(alloc);
    for item in items {
        set.insert(*item)?;
    }
    Ok(set)
}

fn paths_of(alloc: Global, fields: &Fields) -> Result<Vec<RepoPath<'_>>, RowError> {
    let mut paths = Vec::new(alloc);
    for index in 0..fields.len() {
        paths.push(path_at(alloc, fields, index)?)?;
    }
    Ok(paths)
}

fn names_of(alloc: Global, fields: &Fields) -> Result<Vec<RepoPathComponent<'_>>, RowError> {
    let mut names = Vec::new(alloc);
    for index in 0..fields.len() {
        names.push(name_at(alloc, fields, index)?)?;
    }
    Ok(names)
}

// Appends the number of distinct paths, and whether the path of the second group is among them.
fn path_set(alloc: Global, request: &Request, values: &mut Values) -> Result<(), RowError> {
    let path = path_at(alloc, request.group(1), 0)?;
    let paths = paths_of(alloc, request.group(0))?;
    let borrowed = collect_set(alloc, paths.as_slice())?;
    values.index(borrowed.len());
    values.flag(borrowed.contains(&path));
    let owned = owned_paths(alloc, paths.as_slice())?;
    let is_there = owned.contains(&path.to_owned(alloc)?);
    agree(
        owned.len() == borrowed.len() && is_there == borrowed.contains(&path),
        "owned paths",
    )
}

fn owned_names(
    alloc: Global,
    names: &[RepoPathComponent<'_>],
) -> Result<HashSet<RepoPathComponentBuf>, AllocError> {
    let mut set = HashSet::new(alloc);
    for name in names {
        set.insert((*name).to_owned(alloc)?)?;
    }
    Ok(set)
}

// Appends the number of distinct names.
fn name_set(alloc: Global, request: &Request, values: &mut Values) -> Result<(), RowError> {
    let names = names_of(alloc, request.group(0))?;
    let borrowed = collect_set(alloc, names.as_slice())?;
    values.index(borrowed.len());
    let owned = owned_names(alloc, names.as_slice())?;
    agree(owned.len() == borrowed.len(), "owned names")
}
