//! Requests of the conformance table on values of trees, the backend in memory and tree merges.
#![tactic(auto)]

mod stores;
mod trees;
mod values;

use rows::request::Request;
use rows::values::Values;
use std::alloc::Global;

/// Runs the request of this name. Returns `false` if this crate has no such request.
pub fn call(alloc: Global, name: &str, request: &Request, values: &mut Values) -> bool {
    values::call(alloc, name, request, values)
        || trees::call(alloc, name, request, values)
        || stores::call(alloc, name, request, values)
}
