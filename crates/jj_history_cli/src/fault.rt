//! Errors of the program.
use jj_history_commands::error::CommandError;
use jj_history_merges::error::MergeError;
use jj_import::error::ImportError;
use jj_import::names::NamesError;
use jj_import::stream::StreamError;
use jj_sqlite::error::OpenError;
use std::alloc::{AllocError, AllocFailed};
use thiserror::Error;

#[derive(Debug, Drop, Error)]
pub(crate) enum Fault {
    #[error("out of memory")]
    Memory,
    #[error("{0}")]
    Database(OpenError),
    #[error("{0}")]
    Names(NamesError),
    #[error("cannot read standard input")]
    Read,
    #[error("standard input, line {line}: expected at most 65536 bytes")]
    LongLine { line: u64 },
    #[error("cannot write output")]
    Write,
    // The reader of the output is gone.
    #[error("the output is closed")]
    Closed,
    #[error("standard input, {0}")]
    Stream(StreamError),
    #[error("{0}")]
    Import(ImportError),
    #[error("{0}")]
    Command(CommandError),
    #[error("{0}")]
    Merge(MergeError),
}

impl From<OpenError> for Fault {
    fn from(error: OpenError) -> Self {
        match error {
            OpenError::Memory => Fault::Memory,
            error => Fault::Database(error),
        }
    }
}

impl From<AllocError> for Fault {
    fn from(_error: AllocError) -> Self {
        Fault::Memory
    }
}

impl<T: Drop> From<AllocFailed<T>> for Fault {
    fn from(_error: AllocFailed<T>) -> Self {
        Fault::Memory
    }
}
