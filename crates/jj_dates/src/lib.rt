//! Conversion of timestamps from and to dates.
#![tactic(auto)]

pub mod timestamp;
