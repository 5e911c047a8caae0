//! Proved callers of jj_diff_presentation, and tests.
#![tactic(auto)]

#[cfg(test)]
mod apply_tests;
pub mod callers;
#[cfg(test)]
mod render_tests;
