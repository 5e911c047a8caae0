//! The errors of the exports, and the statuses that the exports return.
ghost use Rattle.std.specs.Prelude.{◌≡◌, ◌<◌, ◌^◌, IfOk};
ghost use Rattle.jj_core_c.specs.Statuses.{code_of, status_of};
ghost use Rattle.jj_core_c.specs.declared.error.Error.{Error};

use std::alloc::{AllocError, AllocFailed};

/// The cause of a negative status.
#[derive(Clone, Copy)]
pub enum Error {
    /// An allocation failed.
    Memory,
    /// A list of ends descends, or exceeds the length of the list that it divides.
    Ends,
    /// A buffer for results is too short.
    Length,
    /// A string is not well-formed UTF-8, hex, or a glob.
    Syntax,
    /// A merge has an even number of terms.
    Terms,
    /// A merge resolves to no term.
    Conflict,
    /// A node is not below the number of nodes.
    Node,
    /// The graph has a cycle.
    Cycle,
    /// A string is no repository path.
    Path,
    /// A string is no expression of a file set.
    Expression,
    /// No id matches a prefix.
    NoMatch,
    /// Several ids match a prefix.
    Ambiguous,
}

impl From<AllocError> for Error {
    ghost from_gives = { λ _ error. error ≡ Error.Memory };

    fn from(_error: AllocError) -> Self {
        Error::Memory
    }
}

impl<T: Drop> From<AllocFailed<T>> for Error {
    ghost from_gives = { λ _ error. error ≡ Error.Memory };

    fn from(_error: AllocFailed<T>) -> Self {
        Error::Memory
    }
}

// Returns the status of an error.
fn code(error: Error) -> i64
    ensures { result ≡ code_of error }
{
    match error {
        Error::Memory => -1,
        Error::Ends => -2,
        Error::Length => -3,
        Error::Syntax => -4,
        Error::Terms => -5,
        Error::Conflict => -6,
        Error::Node => -7,
        Error::Cycle => -8,
        Error::Path => -9,
        Error::Expression => -10,
        Error::NoMatch => -11,
        Error::Ambiguous => -12,
    }
}

// Returns the status of an outcome: the result itself, or the status of the error.
pub(crate) fn status_of(outcome: Result<usize, Error>) -> i64
    requires { IfOk outcome (λ n. n < 2 ^ 63) }
    ensures { result ≡ status_of outcome }
{
    match outcome {
        Ok(n) => n as i64,
        Err(error) => code(error),
    }
}
