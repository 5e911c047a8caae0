//! Rows of a conformance table: the arguments of a request, and the values of its result.
//!
//! A request is a name and its arguments, each preceded by a TAB. A field `|` ends a group of
//! arguments; an empty group has no field. In a field `\t`, `\n`, `\r`, `\\` and `\xHH` represent
//! one byte, and `\e` none, so that a group `\e` has one empty field. In an optional string `~` is
//! `None`, and `=s` is the string `s`.
#![tactic(auto)]

pub mod request;
pub mod row_error;
pub mod values;
