//! Tests and proved callers of jj_content.
#![tactic(auto)]

#[cfg(test)]
pub mod callers;
#[cfg(test)]
mod content;
pub mod fallible_iterators;
#[cfg(test)]
mod recorder;
pub mod records;
pub mod retry;
#[cfg(test)]
mod retry_tests;
