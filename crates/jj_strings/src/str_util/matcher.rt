//! String matchers: compiled sets of strings.
ghost use Rattle.std.specs.Prelude.{◌≡◌, ◌↔◌, ℕ, List, IsTrue, IsErr, IfOk, string_bytes};

use crate::str_util::compiled::CompiledExpression;
use crate::str_util::predicate::BytePredicate;
use std::alloc::{AllocError, Global};
use std::fmt;

/// A compiled set of strings.
#[derive(Drop)]
pub enum StringMatcher {
    /// Matches every string.
    All,
    /// Matches this string only.
    Exact(String),
    /// Matches the strings of the expression.
    Expr(CompiledExpression),
    /// Matches the strings that the caller's predicate accepts.
    Fn(BytePredicate),
}

impl StringMatcher {
    ghost use Rattle.jj_strings.specs.StringMatchers.{InMatcher, MayAllocate};

    /// Creates a matcher of every string.
    pub fn all() -> Self
        ensures { (bytes : List ℕ) → InMatcher result bytes }
    {
        StringMatcher::All
    }

    /// Creates a matcher of this string only.
    pub fn exact(text: String) -> Self
        ensures { (bytes : List ℕ) → InMatcher result bytes ↔ (bytes ≡ string_bytes text) }
    {
        StringMatcher::Exact(text)
    }

    /// Returns whether the string matches. Allocates, and so can fail, only if the matcher contains
    /// a regular expression, whose search is created anew at each call: for many strings, create a
    /// `searcher`, which keeps it.
    pub fn is_match(&self, alloc: Global, haystack: &str) -> Result<bool, AllocError>
        // The string matches exactly if it is in the set of the matcher.
        ensures matches { IfOk result (λ yes. IsTrue yes ↔ InMatcher self.now haystack.now) }
        // Memory runs out only for a matcher that contains a regular expression.
        ensures memory { IsErr result → MayAllocate self.now }
    {
        self.is_match_bytes(alloc, haystack.as_bytes())
    }

    /// Returns whether the byte string matches. Allocates, and so can fail, only if the matcher
    /// contains a regular expression, whose search is created anew at each call: for many strings,
    /// create a `searcher`, which keeps it.
    pub fn is_match_bytes(&self, alloc: Global, haystack: &[u8]) -> Result<bool, AllocError>
        ensures matches { IfOk result (λ yes. IsTrue yes ↔ InMatcher self.now haystack.now) }
        ensures memory { IsErr result → MayAllocate self.now }
    {
        match self {
            StringMatcher::All => Ok(true),
            StringMatcher::Exact(needle) => Ok(haystack == needle.as_bytes()),
            StringMatcher::Expr(expression) => expression.is_match(alloc, haystack),
            StringMatcher::Fn(predicate) => Ok(predicate.accepts_from(haystack)),
        }
    }
}

impl fmt::Debug for StringMatcher {
    fn fmt<W: fmt::Write>(&self, f: &mut fmt::Formatter<W>) -> fmt::Result {
        match self {
            StringMatcher::All => f.write_str("All"),
            StringMatcher::Exact(text) => f.debug_tuple("Exact").field(text).finish(),
            StringMatcher::Expr(expression) => f.debug_tuple("Expr").field(expression).finish(),
            StringMatcher::Fn(_) => f.debug_tuple("Fn").finish_non_exhaustive(),
        }
    }
}
