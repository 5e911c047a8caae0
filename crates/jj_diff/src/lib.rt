//! Comparison of byte strings, and content merges based on it.
#![tactic(auto)]

pub mod diff;
