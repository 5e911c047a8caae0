//! Requests of the conformance table on comparisons, unified diffs, merges of contents and rendered
//! conflicts.
#![tactic(auto)]

mod conflicts;
mod diffs;
mod merges;
mod patches;

use rows::request::Request;
use rows::values::Values;
use std::alloc::Global;

/// Runs the request of this name. Returns `false` if this crate has no such request.
pub fn call(alloc: Global, name: &str, request: &Request, values: &mut Values) -> bool {
    diffs::call(alloc, name, request, values)
        || patches::call(alloc, name, request, values)
        || merges::call(alloc, name, request, values)
        || conflicts::call(alloc, name, request, values)
}
