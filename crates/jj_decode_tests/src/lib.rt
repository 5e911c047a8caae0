//! Tests and proved callers of jj_decode.
#![tactic(auto)]

#[cfg(test)]
pub mod callers;
#[cfg(test)]
mod error_tests;
#[cfg(test)]
mod record_error_tests;
#[cfg(test)]
mod record_tests;
#[cfg(test)]
mod records;
#[cfg(test)]
pub mod round_trips;
#[cfg(test)]
mod value_tests;
