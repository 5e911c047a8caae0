//! Requests of the conformance table on times, commits, copy histories, verifications of signatures
//! and errors of stores. Ids are in hexadecimal.
#![tactic(auto)]

pub mod arguments;
mod commits;
mod errors;
pub mod recorded;
mod signatures;
mod times;

use rows::request::Request;
use rows::values::Values;
use std::alloc::Global;

/// Runs the request of this name. Returns `false` if this crate has no such request.
pub fn call(alloc: Global, name: &str, request: &Request, values: &mut Values) -> bool {
    times::call(alloc, name, request, values)
        || commits::call(alloc, name, request, values)
        || errors::call(alloc, name, request, values)
        || signatures::call(alloc, name, request, values)
}
