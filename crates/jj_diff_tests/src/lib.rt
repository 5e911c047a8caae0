//! Tests of jj_diff.
#![tactic(auto)]

#[cfg(test)]
mod compare_tests;
#[cfg(test)]
mod hunk_tests;
#[cfg(test)]
mod tokenizer_tests;
