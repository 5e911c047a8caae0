//! Proved callers of tree builders.
#![tactic(auto)]

pub mod callers;
