//! Proved callers and tests of `jj_mirror`.
#![tactic(auto)]

#[cfg(test)]
pub mod callers;
#[cfg(test)]
mod error_tests;
#[cfg(test)]
pub mod logs;
#[cfg(test)]
mod mirrored_tests;
#[cfg(test)]
mod replay_tests;
