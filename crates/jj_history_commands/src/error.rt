//! Errors of commands.
use jj_backend::backend::BackendError;
use jj_dag::walk_error::WalkError;
use jj_filesets::fileset::FilesetParseError;
use jj_history::error::{ContentError, DrawingError, RevisionError};
use jj_store_walks::HistoryError;
use std::alloc::{AllocError, AllocFailed};
use thiserror::Error;

/// Why a command has no output. `quoted` is an operand, in double quotes and escaped.
#[derive(Debug, Drop, Error)]
pub enum CommandError {
    #[error("out of memory")]
    Memory,
    /// The backend failed.
    #[error("{0}")]
    Store(BackendError),
    #[error("{0}")]
    Revision(RevisionError),
    #[error("{0}")]
    Drawing(DrawingError),
    #[error("the history has a cycle")]
    Cycle,
    /// The contents of a commit, or of a path of it, cannot be returned.
    #[error("{quoted}: {error}")]
    Content {
        quoted: String,
        error: ContentError,
    },
    #[error("{quoted}: no path; expected names separated by `/`")]
    Path {
        quoted: String,
    },
    #[error("{quoted}: {error}")]
    Fileset {
        quoted: String,
        error: FilesetParseError,
    },
    /// There are no refs.
    #[error("the database has no commits; `import` reads some")]
    Empty,
}

impl From<AllocError> for CommandError {
    fn from(_error: AllocError) -> Self {
        CommandError::Memory
    }
}

impl<T: Drop> From<AllocFailed<T>> for CommandError {
    fn from(_error: AllocFailed<T>) -> Self {
        CommandError::Memory
    }
}

impl From<BackendError> for CommandError {
    fn from(error: BackendError) -> Self {
        match error {
            BackendError::Memory => CommandError::Memory,
            error => CommandError::Store(error),
        }
    }
}

impl From<RevisionError> for CommandError {
    fn from(error: RevisionError) -> Self {
        CommandError::Revision(error)
    }
}

impl From<DrawingError> for CommandError {
    fn from(error: DrawingError) -> Self {
        CommandError::Drawing(error)
    }
}

impl From<WalkError<BackendError>> for CommandError {
    fn from(error: WalkError<BackendError>) -> Self {
        match error {
            WalkError::Node(error) => CommandError::from(error),
            WalkError::Memory => CommandError::Memory,
        }
    }
}

impl From<WalkError<HistoryError>> for CommandError {
    fn from(error: WalkError<HistoryError>) -> Self {
        match error {
            WalkError::Node(HistoryError::Read(error)) => CommandError::from(error),
            WalkError::Node(HistoryError::Cycle(_)) => CommandError::Cycle,
            WalkError::Memory => CommandError::Memory,
        }
    }
}
