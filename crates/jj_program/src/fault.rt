//! Faults of an input.
ghost use Rattle.std.specs.Prelude.{◌≡◌, ◌++◌, Some, string_bytes};

use itoa::Buffer;
use jj_filter::report::Report;
use std::error::Error;
use std::fmt;

/// An error in a line of the input. A line with several errors is reported with the first of these.
#[derive(Clone, Copy, Debug, PartialEq, Eq)]
pub enum LineFault {
    UnknownCommand,
    BadFieldCount,
    BadPath,
    BadGlob,
    EmptyStack,
    BadNumber,
    RepeatedNode,
    BadHex,
}

/// An error of an input. `Matchers` counts the sets left on the stack of a walk.
#[derive(Clone, Copy, Debug, PartialEq, Eq)]
pub enum Fault {
    NotUtf8,
    Matchers(usize),
    Line { line: usize, kind: LineFault },
}

/// A fault with its message: the line and the field, which it quotes, and the expected form.
#[derive(Debug, Drop, PartialEq, Eq)]
pub struct FaultReport {
    pub fault: Fault,
    pub message: String,
}

impl Report for FaultReport {
    ghost text = { λ report. string_bytes report.message };

    ghost status = { λ _. 1 };

    fn parts<'a>(&'a self, _digits: &'a mut Buffer) -> (&'a str, &'a str, &'a str, &'a str) {
        (self.message.as_str(), "", "", "")
    }

    fn status(&self) -> u8 {
        1
    }
}

impl fmt::Display for FaultReport {
    ghost output = { λ report. Some (string_bytes report.message) };

    fn fmt<W: fmt::Write>(&self, f: &mut fmt::Formatter<W>) -> fmt::Result {
        f.write_str(self.message.as_str())
    }
}

impl Error for FaultReport {}
