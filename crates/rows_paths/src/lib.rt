//! Requests of the conformance table on repository paths, path trees and file-system paths.
#![tactic(auto)]

mod fs_paths;
mod orders;
mod parsing;
mod paths;
mod splitting;
mod trees;

use rows::request::Request;
use rows::values::Values;
use std::alloc::Global;

/// Runs the request of this name. Returns `false` if this crate has no such request.
pub fn call(alloc: Global, name: &str, request: &Request, values: &mut Values) -> bool {
    paths::call(alloc, name, request, values)
        || splitting::call(alloc, name, request, values)
        || orders::call(alloc, name, request, values)
        || fs_paths::call(alloc, name, request, values)
        || trees::call(alloc, name, request, values)
}
