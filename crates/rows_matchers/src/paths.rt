//! Parser of paths and names in fields: paths in their internal form, the root as `.`.
use jj_paths::repo_path::{RepoPath, RepoPathComponent, RepoPathComponentBuf};
use rows::request::Fields;
use rows::row_error::RowError;
use std::alloc::{AllocError, Global};
use std::collections::{BTreeSet, HashSet};

pub(crate) fn parse_path(alloc: Global, text: &str) -> Result<RepoPath<'_>, RowError> {
    match RepoPath::from_internal_string(alloc, if text == "." { "" } else { text }) {
        Ok(path) => Ok(path),
        Err(_) => Err(RowError::Unreadable("path")),
    }
}

// Parses the paths in the fields from `start`.
pub(crate) fn parse_paths(
    alloc: Global,
    fields: &Fields,
    start: usize,
) -> Result<Vec<RepoPath<'_>>, RowError> {
    let mut paths = Vec::new(alloc);
    for index in start..fields.len() {
        paths.push(parse_path(alloc, fields.string(index))?)?;
    }
    Ok(paths)
}

// Parses a set of names, joined by `/`; `-` is the empty set.
pub(crate) fn parse_names(
    alloc: Global,
    joined: &str,
) -> Result<HashSet<RepoPathComponentBuf>, RowError> {
    let mut names = HashSet::new(alloc);
    if joined != "-" {
        for name in parse_path(alloc, joined)?.components() {
            names.insert(name.to_owned(alloc)?)?;
        }
    }
    Ok(names)
}

// Parses a set of names as `parse_names` does, sorted and borrowed.
pub(crate) fn parse_sorted_names(
    alloc: Global,
    joined: &str,
) -> Result<BTreeSet<RepoPathComponent<'_>>, RowError> {
    let mut names = BTreeSet::new(alloc);
    if joined != "-" {
        for name in parse_path(alloc, joined)?.components() {
            names.insert(name)?;
        }
    }
    Ok(names)
}

// Joins the sorted names by `/`; `-` is the empty set.
pub(crate) fn join_names(
    alloc: Global,
    names: &HashSet<RepoPathComponentBuf>,
) -> Result<String, AllocError> {
    let mut sorted = Vec::new(alloc);
    for name in names.iter() {
        sorted.push(name.as_component())?;
    }
    sorted.sort_unstable();
    let mut joined = String::new(alloc);
    for name in &sorted {
        if !joined.is_empty() {
            joined.push('/')?;
        }
        joined.push_str(name.as_internal_str())?;
    }
    if joined.is_empty() {
        joined.push('-')?;
    }
    Ok(joined)
}
