//! Errors of opening a backend.
use jj_backend::backend::BackendError;
use jj_decode::error::Malformation;
use jj_mirror::error::ReplayError;
use jj_mirror::object_log::ObjectKind;
use sqlite::ErrorCode;
use std::alloc::{AllocError, AllocFailed};
use thiserror::Error;

/// An error of opening a backend that is stored in SQLite. An `id` is that of the log's entry.
#[derive(Debug, Drop, Error)]
pub enum OpenError {
    #[error("out of memory")]
    Memory,
    /// SQLite cannot read or create the table of the log, or a column of a row has a value that is
    /// not of its type.
    #[error("{0}")]
    Sqlite(sqlite::Error),
    /// The database is another program's: it has tables, indexes or views, and no table of a log.
    #[error("the database has no table `object_log`: it is another program's")]
    Foreign,
    /// The entry after the first `count` is missing: the next row has another number.
    #[error("the log ends after entry {count} and was longer; restore a backup")]
    Gap {
        count: usize,
    },
    /// The log has `count` entries, and SQLite counted another number: the last ones are missing.
    #[error("the log ends after entry {count}, and SQLite counted another number; restore a backup")]
    Lost {
        count: usize,
    },
    /// An entry whose id is not the digest of its object.
    #[error("an object of the log is not the one that its id names")]
    WrongObject {
        kind: ObjectKind,
        id: Vec<u8>,
    },
    /// An entry whose kind is unknown.
    #[error("the log has an object of an unknown kind")]
    UnknownKind {
        id: Vec<u8>,
    },
    /// An entry whose bytes are not the content of an object of its kind, or the target of a
    /// symbolic link that is not UTF-8. `offset` counts bytes from the start.
    #[error("an object of the log is malformed at {offset}: {reason}")]
    Malformed {
        kind: ObjectKind,
        id: Vec<u8>,
        reason: Malformation,
        offset: usize,
    },
    /// An entry of a commit without parents, or of an object whose digest a different object has.
    #[error("{0}")]
    Backend(BackendError),
}

impl From<AllocError> for OpenError {
    ghost use Rattle.std.specs.Prelude.{◌≡◌};
    ghost use Rattle.jj_sqlite.specs.declared.error.OpenError.TheVariants.{Memory};

    ghost from_gives = { λ _ error. error ≡ Memory };

    fn from(_failure: AllocError) -> Self {
        OpenError::Memory
    }
}

impl<T: Drop> From<AllocFailed<T>> for OpenError {
    ghost use Rattle.std.specs.Prelude.{◌≡◌};
    ghost use Rattle.jj_sqlite.specs.declared.error.OpenError.TheVariants.{Memory};

    ghost from_gives = { λ _ error. error ≡ Memory };

    fn from(_failure: AllocFailed<T>) -> Self {
        OpenError::Memory
    }
}

impl From<sqlite::Error> for OpenError {
    ghost use Rattle.std.specs.Prelude.{◌≡◌};
    ghost use Rattle.jj_sqlite.specs.Opening.{sqlite_error};

    ghost from_gives = { λ cause error. error ≡ sqlite_error cause };

    fn from(error: sqlite::Error) -> Self {
        match error {
            sqlite::Error::SqliteFailure(ErrorCode::OutOfMemory) => OpenError::Memory,
            error => OpenError::Sqlite(error),
        }
    }
}

impl From<ReplayError> for OpenError {
    ghost use Rattle.std.specs.Prelude.{◌≡◌};
    ghost use Rattle.jj_sqlite.specs.Opening.{open_error};

    ghost from_gives = { λ cause error. error ≡ open_error cause };

    fn from(error: ReplayError) -> Self {
        match error {
            ReplayError::Memory => OpenError::Memory,
            ReplayError::Malformed {
                kind,
                id,
                reason,
                offset,
            } => OpenError::Malformed {
                kind,
                id,
                reason,
                offset,
            },
            ReplayError::WrongObject { kind, id } => OpenError::WrongObject { kind, id },
            ReplayError::Backend(error) => OpenError::Backend(error),
        }
    }
}
