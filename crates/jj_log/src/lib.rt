//! A log of commits as a graph of characters.
#![tactic(auto)]

pub mod arguments;
pub mod commits;
pub mod drawing;
pub mod fault;
pub mod fields;
pub mod glyphs;
pub mod grouping;
pub mod input;
pub mod layout;
mod lines;
pub mod log;
pub mod numbering;
pub mod ordering;
mod output;
pub mod program;
pub mod style;
pub mod targets;
pub mod writing;
