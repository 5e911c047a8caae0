//! Requests on hexadecimal encoding, symbols, ids, names, string patterns and content.
#![tactic(auto)]

mod content;
mod hex;
mod ids;
mod names;
mod patterns;

use rows::request::Request;
use rows::values::Values;
use std::alloc::Global;

/// Runs the request `name`. Returns `false` if this crate has no such request.
pub fn call(alloc: Global, name: &str, request: &Request, values: &mut Values) -> bool {
    hex::call(alloc, name, request, values)
        || ids::call(alloc, name, request, values)
        || names::call(alloc, name, request, values)
        || content::call(alloc, name, request, values)
        || patterns::call(alloc, name, request, values)
}
