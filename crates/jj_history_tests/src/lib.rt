//! A proved caller of `resolve`.
#![tactic(auto)]

#[cfg(test)]
pub mod callers;
