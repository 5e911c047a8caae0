//! The stream of `git fast-import`: its commands, a parser and a printer.
#![tactic(auto)]

mod changes;
pub mod command;
pub mod fault;
pub mod laws;
mod lines;
pub mod parsing;
mod people;
pub mod printing;
mod quoting;
pub mod reader;
mod words;
