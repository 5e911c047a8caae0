//! Callers that restate the contracts of `jj_sqlite`; the mutations are edits of their bodies.
#![tactic(auto)]

pub mod log;
