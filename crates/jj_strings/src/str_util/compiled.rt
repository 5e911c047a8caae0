//! Compiled patterns and expressions: syntax trees with a search table for each long
//! case-insensitive substring, evaluated with short-circuiting.
ghost use Rattle.std.specs.Prelude.{◌≡◌, ◌↔◌, IsTrue, IsErr, IfOk};
ghost use Rattle.jj_strings.specs.PatternViews.{pattern_of};
ghost use Rattle.jj_strings.specs.LongNeedles.{HasBorders};

use crate::str_util::caseless_search::{LONG, contains_ignore_case};
use crate::str_util::expression::StringExpression;
use crate::str_util::kmp::border_table;
use crate::str_util::pattern::StringPattern;
use bstr::ByteSlice;
use regex::bytes::Regex;
use std::alloc::{AllocError, Global};
use std::fmt;

/// A compiled pattern, with the Knuth-Morris-Pratt table of a long case-insensitive substring.
#[derive(Drop)]
pub struct CompiledPattern {
    pattern: StringPattern,
    borders: Vec<usize>,
    ghost tabled: { HasBorders (pattern_of pattern) borders.items },
}

/// A compiled expression.
#[derive(Debug, Drop)]
pub enum CompiledExpression {
    /// Matches the strings of the pattern.
    Pattern(Box<CompiledPattern>),
    /// Matches all other strings.
    NotIn(Box<CompiledExpression>),
    /// Matches the strings of either operand.
    Union(Box<CompiledExpression>, Box<CompiledExpression>),
    /// Matches the strings of both operands.
    Intersection(Box<CompiledExpression>, Box<CompiledExpression>),
}

// Returns the table of a long case-insensitive substring; of any other pattern, an empty one.
fn table_for(alloc: Global, pattern: &StringPattern) -> Result<Vec<usize>, AllocError>
    ensures { IfOk result (λ borders. HasBorders (pattern_of pattern.now) borders.items) }
{
    match pattern {
        StringPattern::SubstringI(text) => {
            if text.len() <= LONG {
                return Ok(Vec::new(alloc));
            }
            border_table(alloc, text.as_bytes())
        }
        _ => Ok(Vec::new(alloc)),
    }
}

impl CompiledPattern {
    ghost use Rattle.jj_strings.specs.StringSets.{InPattern, IsRegex, IsRegexIn};
    ghost use Rattle.jj_strings.specs.CompiledViews.{source_pattern};

    // Compiles the pattern.
    pub(crate) fn new(alloc: Global, pattern: StringPattern) -> Result<CompiledPattern, AllocError>
        ensures { IfOk result (λ compiled. source_pattern compiled ≡ pattern_of pattern) }
    {
        let borders = table_for(alloc, &pattern)?;
        Ok(CompiledPattern { pattern, borders })
    }

    // Whether the pattern matches the bytes. Allocates only for a regular expression.
    pub(crate) fn is_match(&self, alloc: Global, bytes: &[u8]) -> Result<bool, AllocError>
        ensures matches { IfOk result (λ yes. IsTrue yes
            ↔ InPattern (source_pattern self.now) bytes.now) }
        ensures memory { IsErr result → IsRegex (source_pattern self.now) }
    {
        match self.as_regex() {
            Some(regex) => Ok(regex.matcher(alloc)?.is_match(bytes)),
            None => Ok(self.is_match_without_regex(bytes)),
        }
    }

    // Returns the regular expression of a pattern that is one.
    pub(crate) fn as_regex(&self) -> Option<&Regex>
        ensures { IsRegexIn result (source_pattern self.now) }
    {
        match &self.pattern {
            StringPattern::Regex(regex) => Some(&**regex),
            StringPattern::RegexI(regex) => Some(&**regex),
            _ => None,
        }
    }

    // Whether a pattern other than a regular expression matches the bytes.
    pub(crate) fn is_match_without_regex(&self, bytes: &[u8]) -> bool
        ensures { (IsRegex (source_pattern self.now) → ⊥) → IsTrue result
            ↔ InPattern (source_pattern self.now) bytes.now }
    {
        match &self.pattern {
            StringPattern::Exact(text) => bytes == text.as_bytes(),
            StringPattern::ExactI(text) => bytes.eq_ignore_ascii_case(text.as_bytes()),
            StringPattern::Substring(text) => bytes.contains_str(text.as_bytes()),
            StringPattern::SubstringI(text) => {
                contains_ignore_case(bytes, text.as_bytes(), self.borders.as_slice())
            }
            StringPattern::Glob(pattern) => pattern.is_match(bytes),
            StringPattern::GlobI(pattern) => pattern.is_match(bytes),
            StringPattern::Regex(_) => false,
            StringPattern::RegexI(_) => false,
        }
    }
}

impl fmt::Debug for CompiledPattern {
    fn fmt<W: fmt::Write>(&self, f: &mut fmt::Formatter<W>) -> fmt::Result {
        self.pattern.fmt(f)
    }
}

impl StringExpression {
    ghost use Rattle.jj_strings.specs.ExpressionViews.{expression_of};
    ghost use Rattle.jj_strings.specs.CompiledViews.{source_expression};

    // Compiles the expression. A pattern is cloned, which shares a parsed glob or regular
    // expression.
    pub(crate) fn compile(&self, alloc: Global) -> Result<CompiledExpression, AllocError>
        ensures { IfOk result (λ compiled. source_expression compiled ≡ expression_of self.now) }
    {
        match self {
            StringExpression::Pattern(pattern) => pattern.compile(alloc),
            StringExpression::NotIn(inner) => {
                let inner = Box::new(alloc, inner.compile(alloc)?)?;
                Ok(CompiledExpression::NotIn(inner))
            }
            StringExpression::Union(left, right) => {
                let left = Box::new(alloc, left.compile(alloc)?)?;
                let right = Box::new(alloc, right.compile(alloc)?)?;
                Ok(CompiledExpression::Union(left, right))
            }
            StringExpression::Intersection(left, right) => {
                let left = Box::new(alloc, left.compile(alloc)?)?;
                let right = Box::new(alloc, right.compile(alloc)?)?;
                Ok(CompiledExpression::Intersection(left, right))
            }
        }
    }
}

impl StringPattern {
    ghost use Rattle.jj_strings.specs.StringSets.{of_pattern};
    ghost use Rattle.jj_strings.specs.CompiledViews.{source_expression};

    // Compiles the pattern to an expression.
    pub(crate) fn compile(&self, alloc: Global) -> Result<CompiledExpression, AllocError>
        ensures { IfOk result (λ compiled. source_expression compiled
            ≡ of_pattern (pattern_of self.now)) }
    {
        let pattern = CompiledPattern::new(alloc, self.clone()?)?;
        Ok(CompiledExpression::Pattern(Box::new(alloc, pattern)?))
    }
}

impl CompiledExpression {
    ghost use Rattle.jj_strings.specs.StringSets.{InExpression, HasRegex};
    ghost use Rattle.jj_strings.specs.CompiledViews.{source_expression};

    // Whether the expression matches the bytes. Allocates only for regular expressions.
    pub(crate) fn is_match(&self, alloc: Global, bytes: &[u8]) -> Result<bool, AllocError>
        ensures matches { IfOk result (λ yes. IsTrue yes
            ↔ InExpression (source_expression self.now) bytes.now) }
        ensures memory { IsErr result → HasRegex (source_expression self.now) }
    {
        match self {
            CompiledExpression::Pattern(pattern) => pattern.is_match(alloc, bytes),
            CompiledExpression::NotIn(inner) => Ok(!inner.is_match(alloc, bytes)?),
            CompiledExpression::Union(left, right) => {
                if left.is_match(alloc, bytes)? {
                    return Ok(true);
                }
                right.is_match(alloc, bytes)
            }
            CompiledExpression::Intersection(left, right) => {
                if !left.is_match(alloc, bytes)? {
                    return Ok(false);
                }
                right.is_match(alloc, bytes)
            }
        }
    }
}
