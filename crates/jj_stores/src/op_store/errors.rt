//! Errors of reading and writing views and operations.
ghost use Rattle.std.specs.Prelude.{◌≡◌};
ghost use Rattle.jj_stores.specs.declared.op_store.errors.OpStoreError.{OpStoreError};

use jj_files::file_util::SourceError;
use std::alloc::{AllocError, AllocFailed};
use thiserror::Error;

/// An error of reading or writing a view or an operation. `object_type` is the name of the type of
/// the object's id, and `hash` is the id in hexadecimal.
#[derive(Debug, Drop, Error)]
pub enum OpStoreError {
    #[error("Object {hash} of type {object_type} not found")]
    ObjectNotFound {
        object_type: String,
        hash: String,
        source: Option<SourceError>,
    },
    #[error("Error when reading object {hash} of type {object_type}")]
    ReadObject {
        object_type: String,
        hash: String,
        source: SourceError,
    },
    #[error("Could not write object of type {object_type}")]
    WriteObject {
        object_type: &'static str,
        source: SourceError,
    },
    #[error(transparent)]
    Other(SourceError),
    #[error("out of memory")]
    Memory,
}

impl From<AllocError> for OpStoreError {
    ghost from_gives = { λ _ error. error ≡ OpStoreError.Memory };

    fn from(_error: AllocError) -> Self {
        OpStoreError::Memory
    }
}

impl<T: Drop> From<AllocFailed<T>> for OpStoreError {
    ghost from_gives = { λ _ error. error ≡ OpStoreError.Memory };

    fn from(_error: AllocFailed<T>) -> Self {
        OpStoreError::Memory
    }
}

/// The result of a call of an operation store.
pub type OpStoreResult<T> = Result<T, OpStoreError>;
