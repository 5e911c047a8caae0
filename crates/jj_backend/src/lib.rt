//! Commits, trees and file values, and the interface of the backends that store them.
#![tactic(auto)]

pub mod backend;
pub mod signing;
