//! Faults of expressions and of lists, and their messages.
ghost use Rattle.std.specs.Prelude.{◌≡◌, string_bytes};
ghost use Rattle.jj_filesets_cli.specs.declared.fault.CommandError.{CommandError};

use itoa::Buffer;
use jj_filesets::fileset::FilesetParseErrorKind;
use jj_filesets::listing::LineFault;
use jj_filter::report::Report;
use std::alloc::{AllocError, AllocFailed};
use thiserror::Error;

// A fault of the expression, which is quoted beginning at the offset `at`.
#[derive(Debug, Drop, Error)]
#[error("expression at byte {at}, {place}: {kind}")]
pub(crate) struct ExpressionFault {
    pub(crate) at: usize,
    pub(crate) place: String,
    pub(crate) kind: FilesetParseErrorKind,
}

// The first line of a list that is no path, and the message about it.
#[derive(Debug, Drop)]
pub(crate) struct ListFault {
    pub(crate) number: usize,
    pub(crate) excerpt: String,
    pub(crate) kind: LineFault,
    pub(crate) message: String,
}

impl Report for ListFault {
    ghost text = { λ fault. string_bytes fault.message };

    ghost status = { λ _. 1 };

    fn parts<'a>(&'a self, _digits: &'a mut Buffer) -> (&'a str, &'a str, &'a str, &'a str) {
        (self.message.as_str(), "", "", "")
    }

    fn status(&self) -> u8 {
        1
    }
}

// Why no list is read.
#[derive(Debug, Drop)]
pub(crate) enum CommandError {
    Memory,
    // The expression is wrong; the message about it.
    Usage {
        fault: ExpressionFault,
        message: String,
    },
}

impl Report for CommandError {
    ghost use Rattle.jj_filesets_cli.specs.Runs.{command_error_status, command_error_text};

    ghost text = { command_error_text };

    ghost status = { command_error_status };

    fn parts<'a>(&'a self, _digits: &'a mut Buffer) -> (&'a str, &'a str, &'a str, &'a str) {
        match self {
            CommandError::Memory => ("out of memory", "", "", ""),
            CommandError::Usage { fault: _, message } => (message.as_str(), "", "", ""),
        }
    }

    fn status(&self) -> u8 {
        match self {
            CommandError::Memory => 1,
            CommandError::Usage { .. } => 2,
        }
    }
}

impl From<AllocError> for CommandError {
    ghost from_gives = { λ _ error. error ≡ CommandError.Memory };

    fn from(_error: AllocError) -> Self {
        CommandError::Memory
    }
}

impl<T: Drop> From<AllocFailed<T>> for CommandError {
    ghost from_gives = { λ _ error. error ≡ CommandError.Memory };

    fn from(_error: AllocFailed<T>) -> Self {
        CommandError::Memory
    }
}
