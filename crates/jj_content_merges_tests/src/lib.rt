//! Tests and proved callers of jj_content_merges.
#![tactic(auto)]

#[cfg(test)]
pub mod callers;
#[cfg(test)]
mod merge_tests;
