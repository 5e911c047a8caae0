//! Requests that split paths, and iterate over components and ancestors.
use crate::parsing::path_at;
use jj_paths::repo_path::{RepoPath, RepoPathComponent, RepoPathComponentsIter};
use rows::request::Request;
use rows::row_error::{RowError, agree};
use rows::values::Values;
use std::alloc::Global;

/// Runs the request of this name. Returns `false` if this module has no such request.
pub fn call(alloc: Global, name: &str, request: &Request, values: &mut Values) -> bool {
    let called = match name {
        "path-parent" => path_parent(alloc, request, values),
        "path-split" => path_split(alloc, request, values),
        "path-split-first" => path_split_first(alloc, request, values),
        "path-components" => path_components(alloc, request, values),
        "path-ancestors" => path_ancestors(alloc, request, values),
        "path-strip" => path_strip(alloc, request, values),
        "path-common" => path_common(alloc, request, values),
        _ => return false,
    };
    values.record(called);
    true
}

// Appends `none`, or `some` and the path.
fn put_option(values: &mut Values, path: Option<RepoPath<'_>>) {
    values.option_string(path.map(|path: RepoPath<'_>| path.as_internal_file_string()));
}

fn path_parent(alloc: Global, request: &Request, values: &mut Values) -> Result<(), RowError> {
    let path = path_at(alloc, request.group(0), 0)?;
    put_option(values, path.parent());
    agree(
        path.is_root() == path.parent().is_none() && (path == RepoPath::root()) == path.is_root(),
        "the root",
    )
}

fn path_split(alloc: Global, request: &Request, values: &mut Values) -> Result<(), RowError> {
    let path = path_at(alloc, request.group(0), 0)?;
    match path.split() {
        None => values.word("none"),
        Some((parent, name)) => {
            values.word("some");
            values.string(parent.as_internal_file_string());
            values.string(name.as_internal_str());
        }
    }
    Ok(())
}

fn path_split_first(alloc: Global, request: &Request, values: &mut Values) -> Result<(), RowError> {
    let path = path_at(alloc, request.group(0), 0)?;
    match path.split_first() {
        None => values.word("none"),
        Some((name, rest)) => {
            values.word("some");
            values.string(name.as_internal_str());
            values.string(rest.as_internal_file_string());
        }
    }
    Ok(())
}

// Appends a name, or `-` for none.
fn put_name(values: &mut Values, name: Option<RepoPathComponent<'_>>) {
    match name {
        None => values.word("-"),
        Some(name) => values.string(name.as_internal_str()),
    }
}

// Calls `next_back` for each `<`, and `next` for any other character.
fn path_components(alloc: Global, request: &Request, values: &mut Values) -> Result<(), RowError> {
    let fields = request.group(0);
    let mut names = path_at(alloc, fields, 0)?.components();
    for end in fields.string(1).chars() {
        take_from(values, &mut names, end);
    }
    Ok(())
}

fn take_from(values: &mut Values, names: &mut RepoPathComponentsIter<'_>, end: char) {
    let name = if end == '<' {
        names.next_back()
    } else {
        names.next()
    };
    put_name(values, name);
    values.string(names.as_path().as_internal_file_string());
}

fn path_ancestors(alloc: Global, request: &Request, values: &mut Values) -> Result<(), RowError> {
    let path = path_at(alloc, request.group(0), 0)?;
    for ancestor in path.ancestors() {
        values.string(ancestor.as_internal_file_string());
    }
    Ok(())
}

fn path_strip(alloc: Global, request: &Request, values: &mut Values) -> Result<(), RowError> {
    let fields = request.group(0);
    let path = path_at(alloc, fields, 0)?;
    let base = path_at(alloc, fields, 1)?;
    let rest = path.strip_prefix(base);
    put_option(values, rest);
    agree(path.starts_with(base) == rest.is_some(), "starts_with")
}

fn path_common(alloc: Global, request: &Request, values: &mut Values) -> Result<(), RowError> {
    let fields = request.group(0);
    let path = path_at(alloc, fields, 0)?;
    let (common, rest) = path.split_common_prefix(path_at(alloc, fields, 1)?);
    values.string(common.as_internal_file_string());
    values.string(rest.as_internal_file_string());
    Ok(())
}
