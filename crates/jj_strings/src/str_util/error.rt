//! Errors of parsing a string pattern.
ghost use Rattle.std.specs.Prelude.{◌≡◌};
ghost use Rattle.jj_strings.specs.declared.str_util.error.StringPatternParseError.{StringPatternParseError};

use jj_globs::glob::GlobError;
use std::alloc::{AllocError, AllocFailed};
use thiserror::Error;

/// An error of parsing a string pattern.
#[derive(Debug, Drop, Error)]
pub enum StringPatternParseError {
    /// No kind has this name.
    #[error("Invalid string pattern kind `{0}:`")]
    InvalidKind(String),
    #[error(transparent)]
    GlobPattern(GlobError),
    #[error(transparent)]
    Regex(regex::Error),
    #[error("out of memory")]
    Memory,
}

impl From<AllocError> for StringPatternParseError {
    ghost from_gives = { λ _ error. error ≡ StringPatternParseError.Memory };

    fn from(_error: AllocError) -> Self {
        StringPatternParseError::Memory
    }
}

impl<T: Drop> From<AllocFailed<T>> for StringPatternParseError {
    ghost from_gives = { λ _ error. error ≡ StringPatternParseError.Memory };

    fn from(_error: AllocFailed<T>) -> Self {
        StringPatternParseError::Memory
    }
}

impl From<GlobError> for StringPatternParseError {
    ghost use Rattle.std.specs.Prelude.{◌≡◌};
    ghost use Rattle.jj_strings.specs.PatternErrors.{of_glob_error};

    ghost from_gives = { λ given error. error ≡ of_glob_error given };

    fn from(error: GlobError) -> Self {
        match error {
            GlobError::Memory => StringPatternParseError::Memory,
            error => StringPatternParseError::GlobPattern(error),
        }
    }
}

impl From<regex::Error> for StringPatternParseError {
    ghost use Rattle.std.specs.Prelude.{◌≡◌};
    ghost use Rattle.jj_strings.specs.PatternErrors.{of_regex_error};

    ghost from_gives = { λ given error. error ≡ of_regex_error given };

    fn from(error: regex::Error) -> Self {
        match error {
            regex::Error::OutOfMemory => StringPatternParseError::Memory,
            error => StringPatternParseError::Regex(error),
        }
    }
}
