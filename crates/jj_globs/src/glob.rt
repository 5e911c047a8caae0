//! Globs over byte strings: a parser, a compiler to an NFA (Thompson's construction), and its
//! simulation with bit sets.
mod actions;
mod bit_tables;
mod byte_set;
mod class;
mod compiler;
mod error;
mod escaping;
mod parser;
mod pattern;
mod prefix;
mod regex_text;
mod simulation;
mod state_set;
mod step;
mod suffix;
mod symbol;
mod token;
mod trie;

pub use error::GlobError;
pub use escaping::{escape, is_special};
pub use pattern::Glob;
