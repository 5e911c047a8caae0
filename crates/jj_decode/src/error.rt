//! Errors of decoding.
ghost use Rattle.std.specs.Prelude.{◌≡◌};
ghost use Rattle.jj_decode.specs.declared.error.DecodeError.TheVariants.{Memory, Malformed};
ghost use Rattle.jj_decode.specs.declared.error.Malformation.TheVariants.{Truncated, UnknownTag, InvalidUtf8, UnorderedKeys, InvalidValue};

use std::alloc::{AllocError, AllocFailed};
use thiserror::Error;

/// The cause of a `DecodeError::Malformed`.
#[derive(Clone, Copy, Debug, PartialEq, Eq, Error)]
pub enum Malformation {
    /// Bytes that end within an integer, or before the items or bytes that a count announces; at
    /// the integer.
    #[error("truncated")]
    Truncated,
    /// A tag of a bool, an option or an enum that none of its variants has; at the tag.
    #[error("unknown tag")]
    UnknownTag,
    /// A string that is not UTF-8; at its length.
    #[error("string is not UTF-8")]
    InvalidUtf8,
    /// A key of a map or member of a set that is not greater than the one before, at the key; or a
    /// tree whose names do not ascend, at its length.
    #[error("keys do not ascend")]
    UnorderedKeys,
    /// A string or a list that a type rejects, such as a path with an empty component or a merge of
    /// two terms; at its length.
    #[error("invalid value")]
    InvalidValue,
    /// Bytes after the value; at the first of them.
    #[error("unexpected bytes after the value")]
    TrailingBytes,
}

/// An error of decoding. `offset` counts bytes from the start of the input.
#[derive(Clone, Copy, Debug, PartialEq, Eq, Error)]
pub enum DecodeError {
    #[error("out of memory")]
    Memory,
    /// No value has this content.
    #[error("at {offset}: {reason}")]
    Malformed { reason: Malformation, offset: usize },
}

impl DecodeError {
    /// Returns `Malformation::Truncated` at an offset.
    pub fn truncated(offset: usize) -> DecodeError
        ensures { result ≡ Malformed Truncated offset }
    {
        DecodeError::Malformed {
            reason: Malformation::Truncated,
            offset,
        }
    }

    /// Returns `Malformation::UnknownTag` at an offset.
    pub fn unknown_tag(offset: usize) -> DecodeError
        ensures { result ≡ Malformed UnknownTag offset }
    {
        DecodeError::Malformed {
            reason: Malformation::UnknownTag,
            offset,
        }
    }

    /// Returns `Malformation::InvalidUtf8` at an offset.
    pub fn invalid_utf8(offset: usize) -> DecodeError
        ensures { result ≡ Malformed InvalidUtf8 offset }
    {
        DecodeError::Malformed {
            reason: Malformation::InvalidUtf8,
            offset,
        }
    }

    /// Returns `Malformation::UnorderedKeys` at an offset.
    pub fn unordered_keys(offset: usize) -> DecodeError
        ensures { result ≡ Malformed UnorderedKeys offset }
    {
        DecodeError::Malformed {
            reason: Malformation::UnorderedKeys,
            offset,
        }
    }

    /// Returns `Malformation::InvalidValue` at an offset.
    pub fn invalid_value(offset: usize) -> DecodeError
        ensures { result ≡ Malformed InvalidValue offset }
    {
        DecodeError::Malformed {
            reason: Malformation::InvalidValue,
            offset,
        }
    }
}

impl From<AllocError> for DecodeError {
    ghost from_gives = { λ _ error. error ≡ Memory };

    fn from(_failure: AllocError) -> DecodeError {
        DecodeError::Memory
    }
}

impl<T: Drop> From<AllocFailed<T>> for DecodeError {
    ghost from_gives = { λ _ error. error ≡ Memory };

    fn from(_failure: AllocFailed<T>) -> DecodeError {
        DecodeError::Memory
    }
}
