//! Requests of the conformance table on merges and conflict labels.
#![tactic(auto)]

mod labels;
mod merges;

use rows::request::Request;
use rows::values::Values;
use std::alloc::Global;

/// Runs the request of this name. Returns `false` if this crate has no such request.
pub fn call(alloc: Global, name: &str, request: &Request, values: &mut Values) -> bool {
    merges::call(alloc, name, request, values) || labels::call(alloc, name, request, values)
}
