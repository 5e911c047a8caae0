//! Callers that restate the contracts of `jj_log`; the mutations are edits of their bodies.
#![tactic(auto)]

pub mod log;
