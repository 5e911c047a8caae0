//! Merges of two commits of a history, over any backend.
#![tactic(auto)]

pub mod command;
pub mod error;
pub mod merging;
pub mod report;
