//! Requests that parse and join paths and names.
use crate::parsing::{name_at, path_at};
use jj_paths::repo_path::{
    InvalidNewRepoPathError, RepoPath, RepoPathBuf, RepoPathComponent, RepoPathComponentBuf,
};
use rows::request::{Fields, Request};
use rows::row_error::{RowError, agree};
use rows::values::Values;
use std::alloc::{AllocError, Global};
use std::fmt;

/// Runs the request of this name. Returns `false` if this module has no such request.
pub fn call(alloc: Global, name: &str, request: &Request, values: &mut Values) -> bool {
    let called = match name {
        "path" => path(alloc, request, values),
        "path-name" => path_name(alloc, request, values),
        "path-directory" => path_directory(alloc, request, values),
        "path-join" => path_join(alloc, request, values),
        _ => return false,
    };
    values.record(called);
    true
}

// Writes what a string was parsed to, or the error.
fn put_parsed<T: fmt::Debug>(
    values: &mut Values,
    parsed: &Result<T, InvalidNewRepoPathError>,
) -> Result<(), RowError> {
    match parsed {
        Ok(value) => {
            values.word("ok");
            values.debug(value);
            Ok(())
        }
        Err(InvalidNewRepoPathError::Memory) => Err(RowError::Memory),
        Err(error) => {
            values.word("error");
            values.display(error);
            Ok(())
        }
    }
}

// Whether memory ran out before a string was parsed.
fn is_out_of_memory<T>(parsed: &Result<T, InvalidNewRepoPathError>) -> bool {
    matches!(parsed, Err(InvalidNewRepoPathError::Memory))
}

fn borrowed_path(alloc: Global, text: &str) -> Result<RepoPathBuf, InvalidNewRepoPathError> {
    let path = RepoPath::from_internal_string(alloc, text)?;
    Ok(path.to_owned(alloc)?)
}

fn path(alloc: Global, request: &Request, values: &mut Values) -> Result<(), RowError> {
    let text = request.group(0).only_string();
    let owned = RepoPathBuf::from_internal_string(String::from_str(alloc, text)?);
    put_parsed(values, &owned)?;
    let borrowed = borrowed_path(alloc, text);
    if is_out_of_memory(&borrowed) {
        return Err(RowError::Memory);
    }
    agree(borrowed == owned, "borrowed and owned paths")?;
    match owned {
        Ok(path) => copies_agree(path, text),
        Err(_error) => Ok(()),
    }
}

// Checks a path against its clone and its string.
fn copies_agree(path: RepoPathBuf, text: &str) -> Result<(), RowError> {
    let copy = path.clone()?;
    let is_text = path.as_path().as_internal_file_string() == text;
    let is_same = copy == path && copy.as_path() == path.as_path();
    let string = path.into_internal_string();
    agree(
        is_text && is_same && string.as_str() == text,
        "copies of a path",
    )
}

fn borrowed_name(
    alloc: Global,
    text: &str,
) -> Result<RepoPathComponentBuf, InvalidNewRepoPathError> {
    let name = RepoPathComponent::new(alloc, text)?;
    Ok(name.to_owned(alloc)?)
}

fn path_name(alloc: Global, request: &Request, values: &mut Values) -> Result<(), RowError> {
    let text = request.group(0).only_string();
    let owned = RepoPathComponentBuf::new(String::from_str(alloc, text)?);
    put_parsed(values, &owned)?;
    let borrowed = borrowed_name(alloc, text);
    if is_out_of_memory(&borrowed) {
        return Err(RowError::Memory);
    }
    agree(borrowed == owned, "borrowed and owned names")?;
    match owned {
        Ok(name) => name_copies_agree(name, text),
        Err(_error) => Ok(()),
    }
}

// Checks a name against its clone and its string.
fn name_copies_agree(name: RepoPathComponentBuf, text: &str) -> Result<(), RowError> {
    let copy = name.clone()?;
    let is_text = name.as_internal_str() == text && name.as_component().as_internal_str() == text;
    agree(
        is_text && copy == name && copy.as_component() == name.as_component(),
        "copies of a name",
    )
}

fn path_directory(alloc: Global, request: &Request, values: &mut Values) -> Result<(), RowError> {
    let path = path_at(alloc, request.group(0), 0)?;
    values.allocated(path.to_internal_dir_string(alloc));
    Ok(())
}

// Parses the names in the fields after the first one.
fn names_of(alloc: Global, fields: &Fields) -> Result<Vec<RepoPathComponent<'_>>, RowError> {
    let mut names = Vec::new(alloc);
    for index in 1..fields.len() {
        names.push(name_at(alloc, fields, index)?)?;
    }
    Ok(names)
}

fn join_names(
    alloc: Global,
    base: RepoPath<'_>,
    names: &[RepoPathComponent<'_>],
) -> Result<RepoPathBuf, AllocError> {
    let mut path = base.to_owned(alloc)?;
    for name in names {
        path = path.as_path().join(alloc, *name)?;
    }
    Ok(path)
}

fn extend_with_names(
    alloc: Global,
    base: RepoPath<'_>,
    names: &[RepoPathComponent<'_>],
) -> Result<RepoPathBuf, AllocError> {
    let mut path = base.to_owned(alloc)?;
    path.extend(names.iter().copied())?;
    Ok(path)
}

// Appends the components of a path to the root.
fn rebuild(alloc: Global, path: RepoPath<'_>) -> Result<RepoPathBuf, AllocError> {
    let mut again = RepoPathBuf::root(alloc);
    again.extend(path.components())?;
    Ok(again)
}

fn path_join(alloc: Global, request: &Request, values: &mut Values) -> Result<(), RowError> {
    let fields = request.group(0);
    let base = path_at(alloc, fields, 0)?;
    let names = names_of(alloc, fields)?;
    let path = join_names(alloc, base, names.as_slice())?;
    values.string(path.as_path().as_internal_file_string());
    let longer = extend_with_names(alloc, base, names.as_slice())?;
    let again = rebuild(alloc, path.as_path())?;
    agree(longer == path && again == path, "join and extend")
}
