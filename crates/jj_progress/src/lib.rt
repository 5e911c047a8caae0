//! Progress of a long read on standard error.
#![tactic(auto)]

pub mod read_progress;
