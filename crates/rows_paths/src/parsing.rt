//! Paths and names in the arguments of a request.
use jj_paths::repo_path::{InvalidNewRepoPathError, RepoPath, RepoPathComponent};
use rows::request::Fields;
use rows::row_error::RowError;
use std::alloc::Global;

fn error_of(error: InvalidNewRepoPathError, what: &'static str) -> RowError {
    match error {
        InvalidNewRepoPathError::Invalid { value: _ } => RowError::Unreadable(what),
        InvalidNewRepoPathError::Memory => RowError::Memory,
    }
}

/// Parses a path.
pub fn parse_path(alloc: Global, text: &str) -> Result<RepoPath<'_>, RowError> {
    match RepoPath::from_internal_string(alloc, text) {
        Ok(path) => Ok(path),
        Err(error) => Err(error_of(error, "path")),
    }
}

/// Parses a name.
pub fn parse_name(alloc: Global, text: &str) -> Result<RepoPathComponent<'_>, RowError> {
    match RepoPathComponent::new(alloc, text) {
        Ok(name) => Ok(name),
        Err(error) => Err(error_of(error, "name")),
    }
}

/// Parses the path in the field at `index`, or in the only field of the group.
pub fn path_at(alloc: Global, fields: &Fields, index: usize) -> Result<RepoPath<'_>, RowError> {
    if index == 0 {
        return parse_path(alloc, fields.only_string());
    }
    parse_path(alloc, fields.string(index))
}

/// Parses the name in the field at `index`.
pub fn name_at(
    alloc: Global,
    fields: &Fields,
    index: usize,
) -> Result<RepoPathComponent<'_>, RowError> {
    parse_name(alloc, fields.string(index))
}
