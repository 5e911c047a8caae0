//! Requests on paths of the file system.
use crate::parsing::path_at;
use jj_files::file_util::{
    IoResultExt, PathError, expand_home_path, normalize_path, path_from_bytes, path_to_bytes,
    relative_path, slash_path,
};
use jj_paths::repo_path::{
    InvalidRepoPathComponentError, InvalidRepoPathError, RelativePathParseError, RepoPathBuf,
};
use rows::request::Request;
use rows::row_error::{RowError, agree};
use rows::values::Values;
use std::alloc::Global;
use std::io;
use std::io::ErrorKind;

/// Runs the request of this name. Returns `false` if this module has no such request.
pub fn call(alloc: Global, name: &str, request: &Request, values: &mut Values) -> bool {
    let called = match name {
        "fs-path" => fs_path(alloc, request, values),
        "fs-relative-path" => fs_relative_path(alloc, request, values),
        "fs-normalize" => fs_normalize(alloc, request, values),
        "fs-relative" => fs_relative(alloc, request, values),
        "fs-home" => fs_home(alloc, request, values),
        "fs-bytes" => fs_bytes(request, values),
        "fs-slashes" => fs_slashes(request, values),
        "fs-error" => fs_error(alloc, request, values),
        _ => return false,
    };
    values.record(called);
    true
}

// Appends an error of a path, and its cause.
fn put_path_error(values: &mut Values, error: &InvalidRepoPathError) -> Result<(), RowError> {
    match error {
        InvalidRepoPathError::Memory => Err(RowError::Memory),
        InvalidRepoPathError::Invalid { path: _, source } => {
            values.word("error");
            values.display(error);
            put_name_error(values, source)
        }
    }
}

fn put_name_error(
    values: &mut Values,
    error: &InvalidRepoPathComponentError,
) -> Result<(), RowError> {
    match error {
        InvalidRepoPathComponentError::Memory => Err(RowError::Memory),
        InvalidRepoPathComponentError::Invalid { component: _ } => {
            values.display(error);
            Ok(())
        }
    }
}

fn fs_path(alloc: Global, request: &Request, values: &mut Values) -> Result<(), RowError> {
    let fields = request.group(0);
    let base = fields.string(1);
    let path = path_at(alloc, fields, 0)?;
    values.allocated(path.to_fs_path_unchecked(alloc, base));
    match path.to_fs_path(alloc, base) {
        Ok(text) => {
            values.word("ok");
            values.string(text.as_str());
            Ok(())
        }
        Err(error) => put_path_error(values, &error),
    }
}

// Appends the error's message, and checks the path that it contains.
fn put_relative_error(
    values: &mut Values,
    error: &RelativePathParseError,
    bytes: &[u8],
) -> Result<(), RowError> {
    let kept = match error {
        RelativePathParseError::Memory => return Err(RowError::Memory),
        RelativePathParseError::InvalidComponent { component: _, path } => path.as_slice(),
        RelativePathParseError::InvalidUtf8 { path } => path.as_slice(),
    };
    values.word("error");
    values.display(error);
    agree(kept == bytes, "bytes of the error")
}

fn fs_relative_path(alloc: Global, request: &Request, values: &mut Values) -> Result<(), RowError> {
    let bytes = request.group(0).only_bytes();
    match RepoPathBuf::from_relative_path(alloc, bytes) {
        Ok(path) => {
            values.word("ok");
            values.string(path.as_path().as_internal_file_string());
            Ok(())
        }
        Err(error) => put_relative_error(values, &error, bytes),
    }
}

fn fs_normalize(alloc: Global, request: &Request, values: &mut Values) -> Result<(), RowError> {
    let path = request.group(0).only_string();
    values.allocated(normalize_path(alloc, path));
    Ok(())
}

fn fs_relative(alloc: Global, request: &Request, values: &mut Values) -> Result<(), RowError> {
    let fields = request.group(0);
    let from = fields.string(0);
    let to = fields.string(1);
    values.allocated(relative_path(alloc, from, to));
    Ok(())
}

// The second field, the home directory, is optional.
fn fs_home(alloc: Global, request: &Request, values: &mut Values) -> Result<(), RowError> {
    let fields = request.group(0);
    let path = fields.string(0);
    let home = if fields.len() > 1 {
        Some(fields.string(1))
    } else {
        None
    };
    values.allocated(expand_home_path(alloc, path, home));
    Ok(())
}

fn fs_bytes(request: &Request, values: &mut Values) -> Result<(), RowError> {
    let bytes = request.group(0).only_bytes();
    match path_from_bytes(bytes) {
        Ok(path) => {
            values.word("ok");
            values.string(path);
            agree(path_to_bytes(path) == bytes, "bytes of a path")
        }
        Err(error) => {
            values.word("error");
            values.display(&error);
            Ok(())
        }
    }
}

fn fs_slashes(request: &Request, values: &mut Values) -> Result<(), RowError> {
    values.string(slash_path(request.group(0).only_string()));
    Ok(())
}

// The message of an error at a path.
fn fs_error(alloc: Global, request: &Request, values: &mut Values) -> Result<(), RowError> {
    let path = request.group(0).only_string();
    let failed: io::Result<()> = Err(io::Error::from(ErrorKind::NotFound));
    match failed.context(alloc, path) {
        Ok(()) => values.word("ok"),
        Err(PathError::Memory) => return Err(RowError::Memory),
        Err(error) => values.display(&error),
    }
    Ok(())
}
