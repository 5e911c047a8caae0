//! Callers that restate the contracts of the libraries of records, stores and trees; the mutations
//! of these libraries are edits of their bodies.
#![tactic(auto)]

pub mod decoding;
pub mod memory;
pub mod merging;
pub mod records;
pub mod stores;
