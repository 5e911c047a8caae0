//! Syntax errors of globs.
ghost use Rattle.std.specs.Prelude.{◌≡◌};
ghost use Rattle.jj_globs.specs.declared.glob.error.GlobError.{GlobError};

use std::alloc::{AllocError, AllocFailed};
use thiserror::Error;

/// An error of `Glob::parse`: the first syntax error from left to right, or `Memory`.
#[derive(Debug, Drop, PartialEq, Eq, Error)]
pub enum GlobError {
    #[error("unclosed character class; missing ']'")]
    UnclosedClass,
    #[error("invalid range; its end is below its start")]
    InvalidRange,
    #[error("invalid range; a bound is no ASCII character")]
    NonAsciiRange,
    #[error("unopened alternate group; missing '{{' (maybe escape '}}' with '[}}]'?)")]
    UnopenedAlternates,
    #[error("unclosed alternate group; missing '}}' (maybe escape '{{' with '[{{]'?)")]
    UnclosedAlternates,
    #[error("dangling '\\'")]
    DanglingEscape,
    #[error("out of memory")]
    Memory,
}

impl From<AllocError> for GlobError {
    ghost from_gives = { λ _ error. error ≡ GlobError.Memory };

    fn from(_error: AllocError) -> Self {
        GlobError::Memory
    }
}

impl<T: Drop> From<AllocFailed<T>> for GlobError {
    ghost from_gives = { λ _ error. error ≡ GlobError.Memory };

    fn from(_error: AllocFailed<T>) -> Self {
        GlobError::Memory
    }
}
