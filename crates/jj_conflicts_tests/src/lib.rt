//! Tests and proved callers of jj_conflicts.
#![tactic(auto)]

#[cfg(test)]
pub mod callers;
pub mod merges;
#[cfg(test)]
mod text_tests;
