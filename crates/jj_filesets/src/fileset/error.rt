//! Errors of parsing an expression.
ghost use Rattle.std.specs.Prelude.{◌≡◌};
ghost use Rattle.jj_filesets.specs.declared.fileset.error.FilesetParseError.{FilesetParseError};

use jj_globs::glob::GlobError;
use std::alloc::{AllocError, AllocFailed};
use thiserror::Error;

/// The cause of a `FilesetParseError::Syntax`.
#[derive(Debug, Drop, PartialEq, Eq, Error)]
pub enum FilesetParseErrorKind {
    /// A quoted string without its closing quote; at the opening quote.
    #[error("unclosed string")]
    UnclosedString,
    /// An unknown escape, or one with a missing hex digit; at the first wrong byte.
    #[error("invalid escape")]
    InvalidEscape,
    /// No string after the colon of a pattern.
    #[error("expected a string")]
    ExpectedString,
    /// An unknown word before a colon.
    #[error("unknown kind of pattern; a path with a colon is in quotes")]
    InvalidPatternKind,
    /// An unknown word before a parenthesis.
    #[error("unknown function; a path with parentheses is in quotes")]
    NoSuchFunction,
    /// A function that is called with an argument; at the argument.
    #[error("expected no arguments")]
    InvalidArguments,
    /// A string with `\x` escapes that is not UTF-8.
    #[error("string is not UTF-8")]
    NotUtf8,
    /// A string that is no path relative to the root, after `./` at its start and `/` at its end
    /// are dropped: absolute, or with an empty name, `.` or `..`.
    #[error("expected a path relative to the root, as a/b")]
    InvalidPath,
    /// A string that is no glob.
    #[error("invalid glob: {0}")]
    InvalidGlob(GlobError),
    /// An operator, a closing parenthesis or the end instead of an operand.
    #[error("expected an operand")]
    ExpectedOperand,
    /// An operand or an opening parenthesis after an operand.
    #[error("expected an operator; a path with blanks is in quotes")]
    ExpectedOperator,
    /// A closing parenthesis without an opening one.
    #[error("unopened parenthesis")]
    UnopenedParenthesis,
    /// An opening parenthesis without a closing one; at the innermost.
    #[error("unclosed parenthesis")]
    UnclosedParenthesis,
}

/// An error of `FilesetExpression::parse`. `at` is an offset in bytes.
#[derive(Debug, Drop, PartialEq, Eq, Error)]
pub enum FilesetParseError {
    #[error("at {at}: {kind}")]
    Syntax {
        at: usize,
        kind: FilesetParseErrorKind,
    },
    #[error("out of memory")]
    Memory,
}

impl FilesetParseError {
    pub(super) fn new(at: usize, kind: FilesetParseErrorKind) -> FilesetParseError
        ensures { result ≡ FilesetParseError.Syntax at kind }
    {
        FilesetParseError::Syntax { at, kind }
    }
}

impl From<AllocError> for FilesetParseError {
    ghost from_gives = { λ _ error. error ≡ FilesetParseError.Memory };

    fn from(_error: AllocError) -> Self {
        FilesetParseError::Memory
    }
}

impl<T: Drop> From<AllocFailed<T>> for FilesetParseError {
    ghost from_gives = { λ _ error. error ≡ FilesetParseError.Memory };

    fn from(_error: AllocFailed<T>) -> Self {
        FilesetParseError::Memory
    }
}
