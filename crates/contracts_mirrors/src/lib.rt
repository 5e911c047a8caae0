//! Callers that restate the contracts of logs of written objects and of their replay; the mutations
//! are edits of their bodies.
#![tactic(auto)]

pub mod mirror;
pub mod replay;
