//! Why a command could not be read.
ghost use Rattle.std.specs.Prelude.{◌≡◌};
ghost use Rattle.jj_fast_import.specs.declared.fault.ParseError.TheVariants.{Memory};

use std::alloc::{AllocError, AllocFailed};

/// A form that the grammar expects where a stream has another.
#[derive(Clone, Copy, Debug, PartialEq, Eq)]
pub enum Expected {
    Command,
    /// `mark :NUMBER`
    Mark,
    /// `NAME <EMAIL> SECONDS +hhmm`
    Person,
    /// A line `committer`.
    Committer,
    /// `data COUNT` or `data <<DELIMITER`
    Data,
    /// `from :MARK` or `from COMMIT`
    From,
    /// `merge :MARK` or `merge COMMIT`
    Merge,
    /// `M MODE :MARK PATH`, with an object ID or `inline` instead of the mark
    Modify,
    /// `D PATH`
    Delete,
    /// `R FROM TO` or `C FROM TO`
    TwoPaths,
    /// `N :MARK COMMIT`, with an object ID or `inline` instead of the mark
    Note,
}

impl Expected {
    /// The form, as messages name it.
    pub fn as_str(self) -> &'static str {
        match self {
            Expected::Command => "a command",
            Expected::Mark => "`mark :NUMBER`",
            Expected::Person => "`NAME <EMAIL> SECONDS +hhmm`",
            Expected::Committer => "a line `committer`",
            Expected::Data => "`data COUNT` or `data <<DELIMITER`",
            Expected::From => "`from :MARK` or `from COMMIT`",
            Expected::Merge => "`merge :MARK` or `merge COMMIT`",
            Expected::Modify => "`M MODE :MARK PATH`",
            Expected::Delete => "`D PATH`",
            Expected::TwoPaths => "two paths",
            Expected::Note => "`N :MARK COMMIT`",
        }
    }
}

/// Why bytes do not begin with a command.
#[derive(Clone, Copy, Debug, PartialEq, Eq)]
pub enum Stop {
    /// They end within a command or before one.
    Incomplete,
    /// A line is not what the grammar expects. `left` is the number of bytes from its start on.
    Malformed { expected: Expected, left: usize },
}

/// An error of parsing a command.
#[derive(Debug, Drop)]
pub enum ParseError {
    /// Memory ran out.
    Memory,
    Stop(Stop),
}

impl From<AllocError> for ParseError {
    ghost from_gives = { λ _ error. error ≡ Memory };

    fn from(_error: AllocError) -> ParseError {
        ParseError::Memory
    }
}

impl<T: Drop> From<AllocFailed<T>> for ParseError {
    ghost from_gives = { λ _ error. error ≡ Memory };

    fn from(_error: AllocFailed<T>) -> ParseError {
        ParseError::Memory
    }
}
