//! Errors of signing data and of verifying signatures.
ghost use Rattle.std.specs.Prelude.{◌≡◌};
ghost use Rattle.jj_backend.specs.declared.signing.SignError.{SignError};

use jj_files::file_util::SourceError;
use std::alloc::{AllocError, AllocFailed};
use thiserror::Error;

/// An error of signing data or of verifying a signature.
#[derive(Debug, Drop, Error)]
pub enum SignError {
    #[error("Invalid signature")]
    InvalidSignatureFormat,
    #[error("Signing error")]
    Backend(SourceError),
    #[error("out of memory")]
    Memory,
}

impl From<AllocError> for SignError {
    ghost from_gives = { λ _ error. error ≡ SignError.Memory };

    fn from(_error: AllocError) -> Self {
        SignError::Memory
    }
}

impl<T: Drop> From<AllocFailed<T>> for SignError {
    ghost from_gives = { λ _ error. error ≡ SignError.Memory };

    fn from(_error: AllocFailed<T>) -> Self {
        SignError::Memory
    }
}

/// The result of signing data or of verifying a signature.
pub type SignResult<T> = Result<T, SignError>;
