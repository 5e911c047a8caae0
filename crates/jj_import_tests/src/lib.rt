//! A proved caller of the import of a stream.
#![tactic(auto)]

pub mod callers;
