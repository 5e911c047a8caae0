//! Proved callers and tests of `jj_stores`, and an in-memory store of views and operations.
#![tactic(auto)]

#[cfg(test)]
pub mod callers;
#[cfg(test)]
pub mod garbage;
#[cfg(test)]
pub mod memory_op_store;
#[cfg(test)]
mod op_store_tests;
