//! Compilation of patterns and expressions to matchers.
ghost use Rattle.std.specs.Prelude.{IfOk};
ghost use Rattle.jj_strings.specs.PatternViews.{pattern_of};
ghost use Rattle.jj_strings.specs.ExpressionViews.{expression_of};
ghost use Rattle.jj_strings.specs.StringSets.{InPattern, IsRegex, InExpression, HasRegex};
ghost use Rattle.jj_strings.specs.MatcherForms.{pattern_form, expression_form};
ghost use Rattle.jj_strings.specs.StringMatchers.{IsMatcherOf, IsParsedPattern, IsParsedExpression};

use crate::str_util::expression::StringExpression;
use crate::str_util::matcher::StringMatcher;
use crate::str_util::pattern::StringPattern;
use std::alloc::{AllocError, Global};

impl StringPattern {
    /// Compiles the pattern: to `All` if `is_all`, to `Exact` if exact, else to an expression. For
    /// an empty regular expression this is proved only if it was parsed from a string.
    pub fn to_matcher(&self, alloc: Global) -> Result<StringMatcher, AllocError>
        ensures { let pattern = pattern_of self.now in IfOk result (IsMatcherOf
            (IsParsedPattern pattern) (InPattern pattern) (pattern_form pattern)
            (IsRegex pattern)) }
    {
        if self.is_all() {
            return Ok(StringMatcher::All);
        }
        if let Some(text) = self.as_exact() {
            return Ok(StringMatcher::Exact(String::from_str(alloc, text)?));
        }
        Ok(StringMatcher::Expr(self.compile(alloc)?))
    }
}

impl StringExpression {
    /// Compiles the expression. A single pattern is compiled as `StringPattern::to_matcher` does.
    pub fn to_matcher(&self, alloc: Global) -> Result<StringMatcher, AllocError>
        ensures { let expression = expression_of self.now in IfOk result (IsMatcherOf
            (IsParsedExpression expression) (InExpression expression)
            (expression_form expression) (HasRegex expression)) }
    {
        match self {
            StringExpression::Pattern(pattern) => pattern.to_matcher(alloc),
            _ => Ok(StringMatcher::Expr(self.compile(alloc)?)),
        }
    }
}
