//! Sets of strings: patterns, expressions, matchers, and searches in lines and maps.
#![tactic(auto)]

pub mod str_util;
