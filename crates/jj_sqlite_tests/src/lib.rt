//! Proved callers of `jj_sqlite`.
#![tactic(auto)]

pub mod batches;
pub mod callers;
pub mod crashes;
pub mod stored_files;
