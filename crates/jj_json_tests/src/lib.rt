//! Callers of conversions to JSON.
#![tactic(auto)]

pub mod callers;
