//! Requests of the conformance table on globs, matchers and pruned walks.
#![tactic(auto)]

mod globs;
mod matchers;
mod paths;
mod visits;

use rows::request::Request;
use rows::values::Values;
use std::alloc::Global;

/// Runs the request of this name. Returns `false` if this crate has no such request.
pub fn call(alloc: Global, name: &str, request: &Request, values: &mut Values) -> bool {
    globs::call(alloc, name, request, values)
        || visits::call(alloc, name, request, values)
        || matchers::call(alloc, name, request, values)
}
