//! Evaluation of an expression with reusable searches: each regular expression has a matcher that
//! keeps its memory between strings.
ghost use Rattle.std.specs.Prelude.{◌≡◌, ◌↔◌, IsTrue, IsErr, IfOk};

use crate::str_util::compiled::{CompiledExpression, CompiledPattern};
use regex::bytes::Matcher;
use std::alloc::{AllocError, Global};

// An expression with a matcher for each of its regular expressions.
#[derive(Drop)]
pub(crate) enum ExpressionSearch<'m> {
    // A pattern other than a regular expression.
    Text(&'m CompiledPattern),
    // The matcher of a regular expression.
    Regex(Matcher<'m>),
    // The complement.
    NotIn(Box<ExpressionSearch<'m>>),
    // The union.
    Union(Box<(ExpressionSearch<'m>, ExpressionSearch<'m>)>),
    // The intersection.
    Intersection(Box<(ExpressionSearch<'m>, ExpressionSearch<'m>)>),
}

impl CompiledExpression {
    ghost use Rattle.jj_strings.specs.CompiledViews.{source_expression};
    ghost use Rattle.jj_strings.specs.StringSets.{HasRegex};
    ghost use Rattle.jj_strings.specs.Searches.{IsSearchOf};

    // Whether the expression contains a regular expression.
    pub(crate) fn has_regex(&self) -> bool
        ensures { IsTrue result ↔ HasRegex (source_expression self.now) }
    {
        match self {
            CompiledExpression::Pattern(pattern) => pattern.as_regex().is_some(),
            CompiledExpression::NotIn(inner) => inner.has_regex(),
            CompiledExpression::Union(left, right) => left.has_regex() || right.has_regex(),
            CompiledExpression::Intersection(left, right) => left.has_regex() || right.has_regex(),
        }
    }

    // Creates the matchers.
    pub(crate) fn search(&self, alloc: Global) -> Result<ExpressionSearch<'_>, AllocError>
        ensures { IfOk result (λ search. IsSearchOf search (source_expression self.now)) }
    {
        match self {
            CompiledExpression::Pattern(pattern) => match pattern.as_regex() {
                Some(regex) => Ok(ExpressionSearch::Regex(regex.matcher(alloc)?)),
                None => Ok(ExpressionSearch::Text(&**pattern)),
            },
            CompiledExpression::NotIn(inner) => {
                let inner = Box::new(alloc, inner.search(alloc)?)?;
                Ok(ExpressionSearch::NotIn(inner))
            }
            CompiledExpression::Union(left, right) => {
                let sides = (left.search(alloc)?, right.search(alloc)?);
                Ok(ExpressionSearch::Union(Box::new(alloc, sides)?))
            }
            CompiledExpression::Intersection(left, right) => {
                let sides = (left.search(alloc)?, right.search(alloc)?);
                Ok(ExpressionSearch::Intersection(Box::new(alloc, sides)?))
            }
        }
    }
}

impl<'m> ExpressionSearch<'m> {
    ghost use Rattle.jj_strings.specs.StringSets.{InExpression, Expression};
    ghost use Rattle.jj_strings.specs.Searches.{IsSearchOf};

    // Whether the expression matches the bytes.
    pub(crate) fn is_match(&mut self, bytes: &[u8]) -> bool
        ensures matches { (e : Expression) → IsSearchOf self.old e → IsTrue result
            ↔ InExpression e bytes.now }
        ensures unchanged { (e : Expression) → IsSearchOf self.old e → IsSearchOf self.new e }
    {
        match self {
            ExpressionSearch::Text(pattern) => pattern.is_match_without_regex(bytes),
            ExpressionSearch::Regex(matcher) => matcher.is_match(bytes),
            ExpressionSearch::NotIn(inner) => !inner.is_match(bytes),
            ExpressionSearch::Union(sides) => sides.0.is_match(bytes) || sides.1.is_match(bytes),
            ExpressionSearch::Intersection(sides) => sides.0.is_match(bytes)
                && sides.1.is_match(bytes),
        }
    }
}
