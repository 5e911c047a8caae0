//! Callers that restate the contracts of `jj_strings`; the mutations are edits of their bodies.
#![tactic(auto)]

ghost use Rattle.std.specs.Prelude.{◌≡◌, ◌↔◌, IfOk, IsErr, IsTrue};
ghost use Rattle.jj_strings.specs.ExpressionViews.{expression_of};
ghost use Rattle.jj_strings.specs.StringMatchers.{InMatcher, MayAllocate};
ghost use Rattle.jj_strings.specs.StringSets.{union};

use jj_strings::str_util::{StringExpression, StringMatcher};
use std::alloc::{AllocError, Global};

/// `StringExpression::union`.
pub fn union_of(
    alloc: Global,
    first: StringExpression,
    second: StringExpression,
) -> Result<StringExpression, AllocError>
    ensures { IfOk result (λ e. expression_of e
        ≡ union (expression_of first) (expression_of second)) }
{
    first.union(alloc, second)
}

/// `StringMatcher::is_match_bytes`.
pub fn is_match(alloc: Global, matcher: &StringMatcher, bytes: &[u8]) -> Result<bool, AllocError>
    ensures matched { IfOk result (λ yes. IsTrue yes ↔ InMatcher matcher.now bytes.now) }
    ensures memory { IsErr result → MayAllocate matcher.now }
{
    matcher.is_match_bytes(alloc, bytes)
}
