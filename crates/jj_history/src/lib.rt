//! Questions about the history in a store, over any backend: the commits that revisions name,
//! heads, merge bases, a log, the files of commits and their contents.
#![tactic(auto)]

pub mod ancestry;
pub mod contents;
pub mod describing;
pub mod drawing;
pub mod error;
pub mod names;
pub mod quoting;
pub mod revisions;
