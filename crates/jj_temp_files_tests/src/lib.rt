//! Proved callers of temporary files, and tests on the file system of the process and on one whose
//! calls fail.
#![tactic(auto)]

pub mod callers;
#[cfg(test)]
mod failing;
#[cfg(test)]
mod kills;
pub mod memory_disk;
#[cfg(test)]
mod on_disk;
