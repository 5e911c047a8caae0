//! Callers that restate the contracts of walks over stores; mutations are edits of their bodies.
#![tactic(auto)]

pub mod history;
pub mod questions;
