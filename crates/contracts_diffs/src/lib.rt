//! Callers that restate the contracts of `jj_diff`. A body that a caller's contract rejects is also
//! rejected by the contract of the called function: so the mutations of that library are edits of
//! these bodies.
#![tactic(auto)]

pub mod changes;
pub mod fields;
pub mod files;
pub mod hunks;
pub mod positions;
pub mod words;
