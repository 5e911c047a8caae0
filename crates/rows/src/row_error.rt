//! Reasons why a request has no result.
ghost use Rattle.std.specs.Prelude.{IfOk, IsTrue};

use std::alloc::{AllocError, AllocFailed};

/// Why a request has no result.
#[derive(Debug, Drop)]
pub enum RowError {
    /// An allocation failed.
    Memory,
    /// The request cannot be parsed.
    Unreadable(&'static str),
    /// The arguments violate a precondition of the called function.
    Precondition(&'static str),
    /// Two calls that must agree return different values.
    Disagreement(&'static str),
}

impl From<AllocError> for RowError {
    fn from(_error: AllocError) -> RowError {
        RowError::Memory
    }
}

impl<T: Drop> From<AllocFailed<T>> for RowError {
    fn from(_error: AllocFailed<T>) -> RowError {
        RowError::Memory
    }
}

/// Fails with `Precondition` unless a called function's precondition is true.
pub fn needs(holds: bool, precondition: &'static str) -> Result<(), RowError>
    ensures { IfOk result (λ _done. IsTrue holds) }
{
    if holds {
        Ok(())
    } else {
        Err(RowError::Precondition(precondition))
    }
}

/// Fails with `Disagreement` unless two calls agree.
pub fn agree(is_same: bool, what: &'static str) -> Result<(), RowError> {
    if is_same {
        Ok(())
    } else {
        Err(RowError::Disagreement(what))
    }
}
