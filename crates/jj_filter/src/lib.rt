//! Programs as Unix filters: bytes in, a pure computation, bytes out or one reported failure, and
//! an exit status.
#![tactic(auto)]

pub mod arguments;
pub mod failure;
pub mod filter;
pub mod report;
