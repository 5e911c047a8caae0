//! Requests of the conformance table on graph walks.
//!
//! Nodes are characters, and so are errors. A graph is a string: `B:A C:BA` has the edges from B to
//! A, from C to B and from C to A, in this order. In a list of items `!X` is one that fails with X;
//! where lists may fail as a whole, the list of a node that begins with `!` fails with the node.
#![tactic(auto)]

mod graphs;
mod grouped;
mod lazy;
mod orders;

use rows::request::Request;
use rows::values::Values;
use std::alloc::Global;

/// Runs the request of this name. Returns `false` if this crate has no such request.
pub fn call(alloc: Global, name: &str, request: &Request, values: &mut Values) -> bool {
    orders::call(alloc, name, request, values)
        || lazy::call(alloc, name, request, values)
        || grouped::call(alloc, name, request, values)
}
