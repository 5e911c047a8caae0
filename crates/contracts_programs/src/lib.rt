//! Callers that restate the contracts of `jj_program`; the mutations are edits of their bodies.
#![tactic(auto)]

pub mod engine;
mod memory;
