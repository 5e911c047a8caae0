//! Matching of many strings with one matcher.
ghost use Rattle.std.specs.Prelude.{◌≡◌, ◌↔◌, IsTrue, IsErr, IfOk};

use crate::str_util::expression_searcher::ExpressionSearcher;
use crate::str_util::matcher::StringMatcher;
use std::alloc::{AllocError, Global};

// A searcher of an expression, or another matcher.
#[derive(Drop)]
pub(crate) enum SearcherKind<'m> {
    Expression(ExpressionSearcher<'m>),
    Matcher(&'m StringMatcher),
}

/// A matcher for many strings, with the state of the searches for its regular expressions.
#[derive(Drop)]
pub struct StringSearcher<'m> {
    kind: SearcherKind<'m>,
    alloc: Global,
}

impl StringMatcher {
    ghost use Rattle.jj_strings.specs.Searchers.{searcher_matcher};

    /// Creates a searcher. Matching allocates only if the matcher contains a regular expression.
    pub fn searcher(&self, alloc: Global) -> StringSearcher<'_>
        ensures { searcher_matcher result ≡ self.now }
    {
        let kind = match self {
            StringMatcher::Expr(expression) => SearcherKind::Expression(expression.searcher()),
            _ => SearcherKind::Matcher(self),
        };
        StringSearcher { kind, alloc }
    }
}

impl<'m> StringSearcher<'m> {
    ghost use Rattle.jj_strings.specs.StringMatchers.{InMatcher, MayAllocate};
    ghost use Rattle.jj_strings.specs.Searchers.{searcher_matcher};

    /// Returns whether the string matches. After an allocation failure the call may be repeated.
    pub fn is_match(&mut self, haystack: &str) -> Result<bool, AllocError>
        ensures matches { IfOk result (λ yes. IsTrue yes
            ↔ InMatcher (searcher_matcher self.old) haystack.now) }
        ensures memory { IsErr result → MayAllocate (searcher_matcher self.old) }
        ensures unchanged { searcher_matcher self.new ≡ searcher_matcher self.old }
    {
        self.is_match_bytes(haystack.as_bytes())
    }

    /// Returns whether the byte string matches. After an allocation failure the call may be
    /// repeated.
    pub fn is_match_bytes(&mut self, haystack: &[u8]) -> Result<bool, AllocError>
        ensures matches { IfOk result (λ yes. IsTrue yes
            ↔ InMatcher (searcher_matcher self.old) haystack.now) }
        ensures memory { IsErr result → MayAllocate (searcher_matcher self.old) }
        ensures unchanged { searcher_matcher self.new ≡ searcher_matcher self.old }
    {
        match &mut self.kind {
            SearcherKind::Expression(expression) => expression.is_match(self.alloc, haystack),
            SearcherKind::Matcher(matcher) => matcher.is_match_bytes(self.alloc, haystack),
        }
    }
}
