//! Errors of merges.
use jj_backend::backend::BackendError;
use jj_dag::walk_error::WalkError;
use jj_history_commands::error::CommandError;
use std::alloc::{AllocError, AllocFailed};
use thiserror::Error;

/// Why two commits were not merged.
#[derive(Debug, Drop, Error)]
pub enum MergeError {
    #[error("out of memory")]
    Memory,
    /// A revision names no commit, or its tree cannot be merged.
    #[error("{0}")]
    Command(CommandError),
    /// The backend failed.
    #[error("{0}")]
    Store(BackendError),
    /// `names` has the merge bases, each after a blank.
    #[error("several merge bases:{names}; expected one")]
    SeveralBases { names: String },
    #[error("no merge base; expected one")]
    NoBase,
}

impl From<AllocError> for MergeError {
    fn from(_error: AllocError) -> Self {
        MergeError::Memory
    }
}

impl<T: Drop> From<AllocFailed<T>> for MergeError {
    fn from(_error: AllocFailed<T>) -> Self {
        MergeError::Memory
    }
}

impl From<BackendError> for MergeError {
    fn from(error: BackendError) -> Self {
        match error {
            BackendError::Memory => MergeError::Memory,
            error => MergeError::Store(error),
        }
    }
}

impl From<CommandError> for MergeError {
    fn from(error: CommandError) -> Self {
        match error {
            CommandError::Memory => MergeError::Memory,
            error => MergeError::Command(error),
        }
    }
}

impl From<WalkError<BackendError>> for MergeError {
    fn from(error: WalkError<BackendError>) -> Self {
        match error {
            WalkError::Node(error) => MergeError::from(error),
            WalkError::Memory => MergeError::Memory,
        }
    }
}
