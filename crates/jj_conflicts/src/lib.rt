//! Conflicts of file contents, rendered with markers and parsed.
#![tactic(auto)]

pub mod conflicts;
pub mod laws;
mod lines;
mod markers;
