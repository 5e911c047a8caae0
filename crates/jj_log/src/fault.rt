//! Error types of the log.
ghost use Rattle.std.specs.Prelude.{◌≡◌, IfOk, string_bytes};
ghost use Rattle.jj_filter.specs.Runs.{IsInputFailure};
ghost use Rattle.jj_log.specs.Reports.{IsFaultAt, fault_text, line_fault_text, quoted_part};
ghost use Rattle.jj_log.specs.declared.fault.LogError.{LogError};

use itoa::Buffer;
use jj_excerpts::excerpt;
use jj_filter::failure::Failure;
use jj_filter::report::Report;
use std::alloc::{AllocError, AllocFailed, Global};

/// An error in a line of the input.
#[derive(Clone, Copy, Debug, PartialEq, Eq)]
pub enum LineFault {
    /// The line ends in a carriage return.
    CarriageReturn,
    /// The line has no TAB.
    MissingParents,
    /// The name is empty or has a blank.
    BadName,
    /// An earlier line has the name.
    RepeatedName,
    /// The commit is its own ancestor.
    Cycle,
    /// The row of the commit needs more columns than are allowed.
    TooWide,
}

/// An error of a list of commits. A number is the index of a commit.
#[derive(Clone, Copy, Debug, PartialEq, Eq)]
pub enum LogError {
    /// Memory ran out.
    Memory,
    /// A later commit has the name of this one.
    RepeatedName(usize),
    /// This commit is its own ancestor.
    Cycle(usize),
    /// The row of this commit needs more columns than are allowed.
    TooWide(usize),
}

/// An error of an input.
#[derive(Debug, Drop)]
pub enum Fault {
    NotUtf8,
    /// The input is not of fields that end in NUL, three a commit, from this offset on.
    Fields {
        at: usize,
    },
    /// `quoted` is the line, or the name of its commit, as the message quotes it.
    Line {
        line: usize,
        kind: LineFault,
        quoted: String,
    },
}

impl LineFault {
    fn as_str(self) -> &'static str
        ensures { result.now ≡ line_fault_text self }
    {
        match self {
            LineFault::CarriageReturn => "ends in a carriage return; the input has CRLF lines",
            LineFault::MissingParents => "no TAB after the name; TABs separate fields",
            LineFault::BadName => "no name, or one with a blank",
            LineFault::RepeatedName => "repeated name",
            LineFault::Cycle => "cycle of parents",
            LineFault::TooWide => "more columns than --columns allows",
        }
    }
}

// Quotes a string for the message of a fault.
fn quoted(alloc: Global, string: &str) -> Result<String, AllocError>
    ensures { IfOk result (λ quoted. string_bytes quoted ≡ quoted_part string.now) }
{
    let mut quoted = String::from_str(alloc, ", ")?;
    quoted.push_str(excerpt(alloc, string.as_bytes())?.as_str())?;
    quoted.push_str(": ")?;
    Ok(quoted)
}

// Returns the fault of a line, which quotes the string.
pub(crate) fn fault_at(alloc: Global, line: usize, kind: LineFault, string: &str) -> Failure<Fault>
    ensures { IsInputFailure (IsFaultAt line kind string.now) result }
{
    match quoted(alloc, string) {
        Ok(quoted) => Failure::Input(Fault::Line { line, kind, quoted }),
        Err(_) => Failure::Memory,
    }
}

impl Report for Fault {
    ghost text = { fault_text };

    ghost status = { λ _. 1 };

    fn parts<'a>(&'a self, digits: &'a mut Buffer) -> (&'a str, &'a str, &'a str, &'a str) {
        match self {
            Fault::NotUtf8 => ("input is not UTF-8", "", "", ""),
            Fault::Fields { at } => (
                "byte ",
                digits.format(*at),
                ": expected three fields a commit, each ended by NUL",
                ", as of git log -z --format=%h%x00%p%x00%s",
            ),
            Fault::Line { line, kind, quoted } => {
                (
                    "line ",
                    digits.format(*line),
                    quoted.as_str(),
                    kind.as_str(),
                )
            }
        }
    }

    fn status(&self) -> u8 {
        1
    }
}

impl From<AllocError> for LogError {
    ghost from_gives = { λ _ error. error ≡ LogError.Memory };

    fn from(_error: AllocError) -> Self {
        LogError::Memory
    }
}

impl<T: Drop> From<AllocFailed<T>> for LogError {
    ghost from_gives = { λ _ error. error ≡ LogError.Memory };

    fn from(_error: AllocFailed<T>) -> Self {
        LogError::Memory
    }
}
