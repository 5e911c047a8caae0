//! Errors of replaying a log.
use crate::object_log::ObjectKind;
use jj_backend::backend::BackendError;
use jj_decode::error::Malformation;
use std::alloc::AllocError;
use thiserror::Error;

/// An error of replaying a log. A `kind` and an `id` are those of the entry that failed.
#[derive(Debug, Drop, Error)]
pub enum ReplayError {
    #[error("out of memory")]
    Memory,
    /// The bytes are not the content of an object of this kind, or the target of a symbolic link is
    /// not UTF-8. `offset` counts bytes from the start.
    #[error("a logged object is malformed at {offset}: {reason}")]
    Malformed {
        kind: ObjectKind,
        id: Vec<u8>,
        reason: Malformation,
        offset: usize,
    },
    /// The id is not the digest of the object.
    #[error("a logged object is not the one that its id names")]
    WrongObject {
        kind: ObjectKind,
        id: Vec<u8>,
    },
    /// The object is a commit without parents, or a different object has its digest.
    #[error("{0}")]
    Backend(BackendError),
}

impl From<AllocError> for ReplayError {
    ghost use Rattle.std.specs.Prelude.{◌≡◌};
    ghost use Rattle.jj_mirror.specs.declared.error.ReplayError.TheVariants.{Memory};

    ghost from_gives = { λ _ error. error ≡ Memory };

    fn from(_failure: AllocError) -> Self {
        ReplayError::Memory
    }
}

impl From<BackendError> for ReplayError {
    ghost use Rattle.std.specs.Prelude.{◌≡◌};
    ghost use Rattle.jj_mirror.specs.Replays.{replay_error};

    ghost from_gives = { λ cause error. error ≡ replay_error cause };

    fn from(error: BackendError) -> Self {
        match error {
            BackendError::Memory => ReplayError::Memory,
            error => ReplayError::Backend(error),
        }
    }
}
