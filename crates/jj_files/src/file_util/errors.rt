//! Errors of input and output, with the path or the cause.
ghost use Rattle.std.specs.Prelude.{◌≡◌, Result};
ghost use Rattle.std.specs.declared.io.Error.{Error};
ghost use Rattle.jj_files.specs.PathErrors.{AddsPath, IsAtPath};
ghost use Rattle.jj_files.specs.declared.file_util.errors.PathError.{PathError};

use std::alloc::{AllocError, AllocFailed, Global};
use std::io;
use std::marker::Model;
use thiserror::Error;

/// The category of a cause.
#[derive(Clone, Copy, Debug, PartialEq, Eq)]
pub enum SourceKind {
    /// Input or output failed.
    Io,
    /// The data that was read is malformed.
    Data,
    Other,
}

/// The cause of an error: its category and a message.
#[derive(Debug, Drop, Error)]
#[error("{message}")]
pub struct SourceError {
    pub kind: SourceKind,
    pub message: String,
}

impl Model for SourceError {
    ghost use Rattle.std.specs.Prelude.{string_bytes};
    ghost use Rattle.jj_files.specs.Causes.{Cause};

    ghost Value = { Cause };

    ghost view = { λ e. record { kind = e.kind; message = string_bytes e.message } };
}

/// An error at a path, or out of memory.
#[derive(Debug, Drop, Error)]
pub enum PathError {
    #[error("Cannot access {path}")]
    Invalid { path: String, source: io::Error },
    #[error("out of memory")]
    Memory,
}

impl From<AllocError> for PathError {
    ghost from_gives = { λ _ error. error ≡ PathError.Memory };

    fn from(_error: AllocError) -> Self {
        PathError::Memory
    }
}

impl<T: Drop> From<AllocFailed<T>> for PathError {
    ghost from_gives = { λ _ error. error ≡ PathError.Memory };

    fn from(_error: AllocFailed<T>) -> Self {
        PathError::Memory
    }
}

impl PathError {
    fn new(alloc: Global, path: &str, source: io::Error) -> PathError
        ensures { IsAtPath path.now source result }
    {
        match String::from_str(alloc, path) {
            Ok(path) => PathError::Invalid { path, source },
            Err(_) => PathError::Memory,
        }
    }
}

/// Adds a path to an error of input or output.
pub trait IoResultExt<T> {
    /// The result without a path.
    ghost outcome: { Self → Result T Error };

    /// Turns an error into `Invalid` with `path`, or into `Memory` if the path cannot be copied.
    /// Does not change a success.
    fn context(self, alloc: Global, path: &str) -> Result<T, PathError>
        ensures { AddsPath path.now (outcome self) result };
}

impl<T> IoResultExt<T> for io::Result<T> {
    ghost outcome = { λ r. r };

    fn context(self, alloc: Global, path: &str) -> Result<T, PathError> {
        match self {
            Ok(value) => Ok(value),
            Err(error) => Err(PathError::new(alloc, path, error)),
        }
    }
}
