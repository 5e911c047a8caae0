//! Errors of creating, opening, reading and writing a backend.
ghost use Rattle.std.specs.Prelude.{◌≡◌};
ghost use Rattle.jj_backend.specs.declared.backend.errors.BackendError.{BackendError};

use jj_files::file_util::SourceError;
use jj_ids::object_id::FileId;
use jj_paths::repo_path::RepoPathBuf;
use std::alloc::{AllocError, AllocFailed};
use std::str::Utf8Error;
use thiserror::Error;

/// An error of creating a backend.
#[derive(Debug, Drop, Error)]
#[error(transparent)]
pub struct BackendInitError(pub SourceError);

/// An error of opening a backend.
#[derive(Debug, Drop, Error)]
#[error(transparent)]
pub struct BackendLoadError(pub SourceError);

/// An error of reading or writing an object. `object_type` is the name of the type of the object's
/// id, and `hash` is the id in hexadecimal.
#[derive(Debug, Drop, Error)]
pub enum BackendError {
    #[error("Invalid hash length for object of type {object_type} (expected {expected} bytes, got {actual} bytes): {hash}")]
    InvalidHashLength {
        expected: usize,
        actual: usize,
        object_type: String,
        hash: String,
    },
    #[error("Invalid UTF-8 for object {hash} of type {object_type}")]
    InvalidUtf8 {
        object_type: String,
        hash: String,
        source: Utf8Error,
    },
    #[error("Object {hash} of type {object_type} not found")]
    ObjectNotFound {
        object_type: String,
        hash: String,
        source: Option<SourceError>,
    },
    #[error("Error when reading object {hash} of type {object_type}")]
    ReadObject {
        object_type: String,
        hash: String,
        source: SourceError,
    },
    #[error("Access denied to read object {hash} of type {object_type}")]
    ReadAccessDenied {
        object_type: String,
        hash: String,
        source: SourceError,
    },
    #[error("Error when reading file content for file {path} with id {id}", path = .path.as_path().as_internal_file_string())]
    ReadFile {
        path: RepoPathBuf,
        id: FileId,
        source: SourceError,
    },
    #[error("Could not write object of type {object_type}")]
    WriteObject {
        object_type: &'static str,
        source: SourceError,
    },
    #[error(transparent)]
    Other(SourceError),
    #[error("{0}")]
    Unsupported(String),
    #[error("out of memory")]
    Memory,
}

impl From<AllocError> for BackendError {
    ghost from_gives = { λ _ error. error ≡ BackendError.Memory };

    fn from(_error: AllocError) -> Self {
        BackendError::Memory
    }
}

impl<T: Drop> From<AllocFailed<T>> for BackendError {
    ghost from_gives = { λ _ error. error ≡ BackendError.Memory };

    fn from(_error: AllocFailed<T>) -> Self {
        BackendError::Memory
    }
}

/// The result of a backend call.
pub type BackendResult<T> = Result<T, BackendError>;
