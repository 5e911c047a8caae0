//! Globs over byte strings: parser, compiler and matcher, and laws of their grammar.
#![tactic(auto)]

pub mod glob;
pub mod laws;
