//! A language of file sets in the style of Jujutsu's, as `src/** & ~tests`.
#![tactic(auto)]

pub mod fileset;
pub mod laws;
pub mod listing;
mod path_string;
