//! Proved callers of jj_merges, and tests of calls that do not allocate.
#![tactic(auto)]

#[cfg(test)]
pub mod callers;
#[cfg(test)]
mod no_allocation;
