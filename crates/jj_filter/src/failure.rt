//! Why a run of a filter failed.
ghost use Rattle.std.specs.Prelude.{◌≡◌, ◌++◌, ℕ, List};
ghost use Rattle.jj_filter.specs.Reports.{failure_status, failure_text};
ghost use Rattle.jj_filter.specs.declared.failure.Failure.{Failure};

use crate::report::Report;
use itoa::Buffer;
use std::alloc::{AllocError, AllocFailed};

/// A failure of a run. `F` is a fault of the input.
#[derive(Clone, Copy, Debug, Drop, PartialEq, Eq)]
pub enum Failure<F> {
    ReadInput,
    Memory,
    /// `is_closed` is whether the reader of the output has closed it, as `head` does.
    WriteOutput { is_closed: bool },
    Input(F),
}

impl<F: Drop> From<AllocError> for Failure<F> {
    ghost from_gives = { λ _ failure. failure ≡ Failure.Memory };

    fn from(_error: AllocError) -> Self {
        Failure::Memory
    }
}

impl<F: Drop, T: Drop> From<AllocFailed<T>> for Failure<F> {
    ghost from_gives = { λ _ failure. failure ≡ Failure.Memory };

    fn from(_error: AllocFailed<T>) -> Self {
        Failure::Memory
    }
}

impl<F: Report> Report for Failure<F> {
    ghost text = { failure_text F.text };

    ghost status = { failure_status F.status };

    fn parts<'a>(&'a self, digits: &'a mut Buffer) -> (&'a str, &'a str, &'a str, &'a str) {
        match self {
            Failure::ReadInput => ("cannot read input", "", "", ""),
            Failure::Memory => ("out of memory", "", "", ""),
            Failure::WriteOutput { is_closed: true } => ("", "", "", ""),
            Failure::WriteOutput { is_closed: false } => ("cannot write output", "", "", ""),
            Failure::Input(fault) => fault.parts(digits),
        }
    }

    fn status(&self) -> u8 {
        match self {
            Failure::Input(fault) => fault.status(),
            _ => 1,
        }
    }
}
