//! Callers that restate the contracts of the libraries of bytes, names, paths and merges. A
//! body that a caller's contract rejects is also rejected by the contract of the called function,
//! which implies the caller's: so the mutations of these libraries are edits of these bodies.
#![tactic(auto)]

pub mod content;
pub mod files;
pub mod ids;
pub mod merges;
pub mod paths;
