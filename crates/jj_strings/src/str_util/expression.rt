//! Set expressions: complements, unions and intersections of string patterns.
ghost use Rattle.std.specs.Prelude.{◌≡◌, ◌++◌, IfOk, OnOk, map, string_bytes};

use crate::str_util::pattern::StringPattern;
use std::alloc::{AllocError, Global};
use std::vec::IntoIter;

/// A set of strings, as a syntax tree over patterns.
#[derive(Debug, Drop)]
pub enum StringExpression {
    /// The strings that the pattern matches.
    Pattern(Box<StringPattern>),
    /// All other strings.
    NotIn(Box<StringExpression>),
    /// The strings of either.
    Union(Box<StringExpression>, Box<StringExpression>),
    /// The strings of both.
    Intersection(Box<StringExpression>, Box<StringExpression>),
}

impl StringExpression {
    ghost use Rattle.std.specs.Vec.Iter.{into_iter_items};
    ghost use Rattle.jj_strings.specs.StringSets.{IsUnionOf, all_exact_strings, everything, nothing, of_pattern, exact, substring, not_in, union, intersection};
    ghost use Rattle.jj_strings.specs.PatternViews.{pattern_of};
    ghost use Rattle.jj_strings.specs.ExpressionViews.{expression_of};

    /// Creates the empty set.
    pub fn none(alloc: Global) -> Result<Self, AllocError>
        ensures { IfOk result (λ e. expression_of e ≡ nothing) }
    {
        StringExpression::all(alloc)?.negated(alloc)
    }

    /// Creates the set of all strings.
    pub fn all(alloc: Global) -> Result<Self, AllocError>
        ensures { IfOk result (λ e. expression_of e ≡ everything) }
    {
        StringExpression::pattern(alloc, StringPattern::all(alloc))
    }

    /// Creates the set of strings that the pattern matches.
    pub fn pattern(alloc: Global, pattern: StringPattern) -> Result<Self, AllocError>
        ensures { IfOk result (λ e. expression_of e ≡ of_pattern (pattern_of pattern)) }
    {
        Ok(StringExpression::Pattern(Box::new(alloc, pattern)?))
    }

    /// Creates the set of this string only.
    pub fn exact(alloc: Global, text: String) -> Result<Self, AllocError>
        ensures { IfOk result (λ e. expression_of e ≡ of_pattern (exact (string_bytes text))) }
    {
        StringExpression::pattern(alloc, StringPattern::exact(text))
    }

    /// Creates the set of strings that contain this one.
    pub fn substring(alloc: Global, text: String) -> Result<Self, AllocError>
        ensures { IfOk result (λ e. expression_of e ≡ of_pattern (substring (string_bytes text))) }
    {
        StringExpression::pattern(alloc, StringPattern::substring(text))
    }

    /// Returns the complement.
    pub fn negated(self, alloc: Global) -> Result<Self, AllocError>
        ensures { IfOk result (λ e. expression_of e ≡ not_in (expression_of self)) }
    {
        Ok(StringExpression::NotIn(Box::new(alloc, self)?))
    }

    /// Returns the union.
    pub fn union(self, alloc: Global, other: Self) -> Result<Self, AllocError>
        ensures { IfOk result (λ e. expression_of e
            ≡ union (expression_of self) (expression_of other)) }
    {
        let left = Box::new(alloc, self)?;
        let right = Box::new(alloc, other)?;
        Ok(StringExpression::Union(left, right))
    }

    /// Returns the union of a list, as a balanced tree: its depth is logarithmic in the length. An
    /// empty list results in `none`, and a single expression in itself.
    pub fn union_all(alloc: Global, expressions: Vec<Self>) -> Result<Self, AllocError>
        ensures { IfOk result (λ e. IsUnionOf (map expression_of expressions.items)
            (expression_of e)) }
    {
        let mut left = expressions;
        if left.len() < 2 {
            return match left.pop() {
                Some(only) => Ok(only),
                None => StringExpression::none(alloc),
            };
        }
        let right = left.split_off(left.len() / 2)?;
        let left = StringExpression::union_all(alloc, left)?;
        let right = StringExpression::union_all(alloc, right)?;
        left.union(alloc, right)
    }

    /// Returns the intersection.
    pub fn intersection(self, alloc: Global, other: Self) -> Result<Self, AllocError>
        ensures { IfOk result (λ e. expression_of e
            ≡ intersection (expression_of self) (expression_of other)) }
    {
        let left = Box::new(alloc, self)?;
        let right = Box::new(alloc, other)?;
        Ok(StringExpression::Intersection(left, right))
    }

    /// Iterates over the strings of the exact patterns from left to right, also below a complement.
    /// Collects them at once.
    pub fn exact_strings(&self, alloc: Global) -> Result<IntoIter<&str>, AllocError>
        ensures { IfOk result (λ texts. map (λ text. text.now) (into_iter_items texts)
            ≡ all_exact_strings (expression_of self.now)) }
    {
        let mut texts = Vec::new(alloc);
        self.push_exact_strings(&mut texts)?;
        Ok(texts.into_iter())
    }

    // Appends the strings of the exact patterns.
    fn push_exact_strings<'a>(&'a self, texts: &mut Vec<&'a str>) -> Result<(), AllocError>
        ensures { OnOk result (map (λ text. text.now) texts.new.items
            ≡ map (λ text. text.now) texts.old.items
            ++ all_exact_strings (expression_of self.now)) }
    {
        match self {
            StringExpression::Pattern(pattern) => {
                if let Some(text) = pattern.as_exact() {
                    texts.push(text)?;
                }
                Ok(())
            }
            StringExpression::NotIn(inner) => inner.push_exact_strings(texts),
            StringExpression::Union(left, right) => {
                left.push_exact_strings(texts)?;
                right.push_exact_strings(texts)
            }
            StringExpression::Intersection(left, right) => {
                left.push_exact_strings(texts)?;
                right.push_exact_strings(texts)
            }
        }
    }

    // Clones the tree, with the allocators of its boxes.
    fn clone_tree(&self) -> Result<StringExpression, AllocError>
        ensures { IfOk result (λ copy. expression_of copy ≡ expression_of self.now) }
    {
        match self {
            StringExpression::Pattern(pattern) => Ok(StringExpression::Pattern(pattern.clone()?)),
            StringExpression::NotIn(inner) => inner.clone_tree()?.negated(*Box::allocator(inner)),
            StringExpression::Union(left, right) => {
                let right_copy = right.clone_tree()?;
                left.clone_tree()?.union(*Box::allocator(left), right_copy)
            }
            StringExpression::Intersection(left, right) => {
                let right_copy = right.clone_tree()?;
                left.clone_tree()?
                    .intersection(*Box::allocator(left), right_copy)
            }
        }
    }
}

impl Clone for StringExpression {
    ghost use Rattle.jj_strings.specs.ExpressionViews.{expression_of};

    ghost is_clone = { λ expression copy. expression_of copy ≡ expression_of expression };

    fn clone(&self) -> Result<StringExpression, AllocError> {
        self.clone_tree()
    }
}
