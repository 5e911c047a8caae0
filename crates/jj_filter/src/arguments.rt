//! Command-line arguments.
ghost use Rattle.std.specs.Prelude.{codes};
ghost use Rattle.jj_filter.specs.Reports.{arguments_error_status, arguments_error_text};

use crate::report::Report;
use itoa::Buffer;
use std::env;
use std::io::ErrorKind;
use std::rt::Env;

/// The version of the programs: that of the Rust crate, and the number of the port of it.
pub const VERSION: &str = "0.46.0-4";

/// Why there are no arguments.
#[derive(Clone, Copy, Debug, PartialEq, Eq)]
pub enum ArgumentsError {
    Memory,
    NotUtf8,
}

impl Report for ArgumentsError {
    ghost text = { arguments_error_text };

    ghost status = { arguments_error_status };

    fn parts<'a>(&'a self, _digits: &'a mut Buffer) -> (&'a str, &'a str, &'a str, &'a str) {
        match self {
            ArgumentsError::Memory => ("out of memory", "", "", ""),
            ArgumentsError::NotUtf8 => ("an argument is not UTF-8", "", "", ""),
        }
    }

    fn status(&self) -> u8 {
        match self {
            ArgumentsError::Memory => 1,
            ArgumentsError::NotUtf8 => 2,
        }
    }
}

/// Returns the command-line arguments, without the program's name.
pub fn arguments(rt: &(impl Env + AllocGlobal)) -> Result<Vec<String>, ArgumentsError> {
    let words = match env::args(rt) {
        Ok(words) => words.skip(1).collect(rt.alloc()),
        Err(error) if error.kind() == ErrorKind::OutOfMemory => return Err(ArgumentsError::Memory),
        Err(_) => return Err(ArgumentsError::NotUtf8),
    };
    words.map_err(|_| ArgumentsError::Memory)
}
