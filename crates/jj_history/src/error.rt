//! Errors of questions about a history.
use jj_backend::backend::BackendError;
use jj_log::fault::LogError;
use std::alloc::{AllocError, AllocFailed};
use thiserror::Error;

/// Why a revision names no commit. `quoted` is the revision, in double quotes and escaped.
#[derive(Debug, Drop, Error)]
pub enum RevisionError {
    #[error("out of memory")]
    Memory,
    #[error("{quoted}: no ref and no commit has this name; expected a ref, or at least 4 digits of an ID")]
    Unknown { quoted: String },
    #[error("{quoted}: several commits have IDs with this prefix; expected more digits")]
    Ambiguous { quoted: String },
}

impl From<AllocError> for RevisionError {
    ghost use Rattle.std.specs.Prelude.{◌≡◌};
    ghost use Rattle.jj_history.specs.declared.error.RevisionError.TheVariants.{Memory};

    ghost from_gives = { λ _ error. error ≡ Memory };

    fn from(_error: AllocError) -> Self {
        RevisionError::Memory
    }
}

/// Why the contents at a path of a commit cannot be returned.
#[derive(Debug, Drop, Error)]
pub enum ContentError {
    #[error("out of memory")]
    Memory,
    #[error("{0}")]
    Store(BackendError),
    /// The tree of the commit has several sides.
    #[error("the tree of the commit is in conflict")]
    Conflict,
    #[error("the commit has no file at this path")]
    Missing,
    #[error("this path is a directory; expected a file")]
    Directory,
    #[error("this path is a submodule; expected a file")]
    Submodule,
}

impl From<AllocError> for ContentError {
    ghost use Rattle.std.specs.Prelude.{◌≡◌};
    ghost use Rattle.jj_history.specs.declared.error.ContentError.TheVariants.{Memory};

    ghost from_gives = { λ _ error. error ≡ Memory };

    fn from(_error: AllocError) -> Self {
        ContentError::Memory
    }
}

impl<T: Drop> From<AllocFailed<T>> for ContentError {
    fn from(_error: AllocFailed<T>) -> Self {
        ContentError::Memory
    }
}

impl From<BackendError> for ContentError {
    ghost use Rattle.jj_history.specs.FileContents.{IsFailure};

    ghost from_gives = { λ _ error. IsFailure error };

    fn from(error: BackendError) -> Self {
        match error {
            BackendError::Memory => ContentError::Memory,
            error => ContentError::Store(error),
        }
    }
}

/// Why a log cannot be drawn.
#[derive(Debug, Drop, Error)]
pub enum DrawingError {
    #[error("out of memory")]
    Memory,
    #[error("the history has a cycle")]
    Cycle,
    /// A row of the log needs more columns than are allowed.
    #[error("the log needs more than {columns} columns")]
    TooWide { columns: usize },
}

impl From<AllocError> for DrawingError {
    fn from(_error: AllocError) -> Self {
        DrawingError::Memory
    }
}

// Returns the error of drawing a log in at most so many columns.
pub(crate) fn drawing_error(error: LogError, columns: usize) -> DrawingError {
    match error {
        LogError::Memory => DrawingError::Memory,
        LogError::TooWide(_) => DrawingError::TooWide { columns },
        _ => DrawingError::Cycle,
    }
}
