//! Requests of the conformance table on refs, views, operations and signers. Ids are in
//! hexadecimal.
#![tactic(auto)]

mod joins;
mod operations;
mod refs;
mod signers;
mod views;

use rows::request::Request;
use rows::values::Values;
use std::alloc::Global;

/// Runs the request of this name. Returns `false` if this crate has no such request.
pub fn call(alloc: Global, name: &str, request: &Request, values: &mut Values) -> bool {
    refs::call(alloc, name, request, values)
        || views::call(alloc, name, request, values)
        || joins::call(alloc, name, request, values)
        || operations::call(alloc, name, request, values)
        || signers::call(alloc, name, request, values)
}
