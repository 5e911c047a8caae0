//! Why a command of a stream could not be imported.
use jj_backend::backend::BackendError;
use std::alloc::{AllocError, AllocFailed};
use thiserror::Error;

/// An error of importing a command. Names that are quoted are those of the stream.
#[derive(Debug, Drop, Error)]
pub enum ImportError {
    #[error("out of memory")]
    Memory,
    /// The backend failed.
    #[error("{0}")]
    Store(BackendError),
    /// No earlier command has the mark.
    #[error("`{field} :{mark}`: expected the mark of an earlier command")]
    UnknownMark { field: &'static str, mark: u64 },
    /// An earlier command has the mark.
    #[error("`mark :{mark}`: expected a mark that no earlier command has")]
    RepeatedMark { mark: u64 },
    /// The mark is that of a blob.
    #[error("`{field} :{mark}`: expected a commit, not a blob")]
    NoCommit { field: &'static str, mark: u64 },
    /// The mark is that of a commit.
    #[error("`{field} :{mark}`: expected a blob, not a commit")]
    NoBlob { field: &'static str, mark: u64 },
    /// No ref and no earlier commit has the name.
    #[error("`{field} {name}`: expected a mark, a ref or the id of an earlier commit")]
    UnknownName { field: &'static str, name: String },
    /// The path is absolute, has an empty component or one that is `.` or `..`, or is empty where a
    /// file is expected.
    #[error("`{field} {path}`: expected a relative path without `.`, `..` and `//`")]
    InvalidPath { field: &'static str, path: String },
    /// A path and a path below it are those of files of one commit.
    #[error("`M {path}`: the path is that of a file and of a directory")]
    FileAndDirectory { path: String },
    /// There is nothing at the path that is renamed or copied.
    #[error("`{field} {path}`: expected the path of a file or a directory")]
    MissingPath { field: &'static str, path: String },
    /// The target of a symbolic link is not UTF-8.
    #[error("`{field}`: expected UTF-8")]
    NoUtf8 { field: &'static str },
    /// The time, in milliseconds, is no number of 64 bits.
    #[error("`{field}`: the time is out of range")]
    InvalidTime { field: &'static str },
    /// The first parent is a commit whose tree is in conflict.
    #[error("`from`: the tree of the parent is in conflict")]
    Conflict,
    /// A command or a change that is not imported.
    #[error("`{field}` is not supported")]
    Unsupported { field: &'static str },
}

impl From<AllocError> for ImportError {
    fn from(_error: AllocError) -> Self {
        ImportError::Memory
    }
}

impl<T: Drop> From<AllocFailed<T>> for ImportError {
    fn from(_error: AllocFailed<T>) -> Self {
        ImportError::Memory
    }
}

impl From<BackendError> for ImportError {
    fn from(error: BackendError) -> Self {
        match error {
            BackendError::Memory => ImportError::Memory,
            error => ImportError::Store(error),
        }
    }
}
