//! Parser of character classes such as `[a-z]` or `[!.]`.
ghost use Rattle.std.specs.Prelude.{◌≡◌, ◌≢◌, ◌<◌, ℕ, List, [], ◌∷◌, ◌++◌, map, length, MatchOption, MatchResult, IfOk, IfErr, ◌≤◌};
ghost use Rattle.jj_globs.specs.GlobSyntax.{symbol_of, lexemes, items, first_item, single, class, syntax_error, range_error};
ghost use Rattle.jj_globs.specs.GlobParsing.{IsParsedClass, IsSyntaxError};

use crate::glob::error::GlobError;
use crate::glob::symbol::{Symbol, next_symbol};
use crate::glob::token::{ByteRange, Class};
use std::alloc::Global;

// Parses a class after its `[`. Returns it and the remaining pattern.
pub(crate) fn parse_class<'a>(alloc: Global, text: &'a [u8]) -> Result<(Class, &'a [u8]), GlobError>
    ensures parsed { MatchResult result
        (λ parsed. IsParsedClass (lexemes (Symbol.OpenBracket ∷ map symbol_of text.now))
        parsed.0 parsed.1.now)
        (λ error. IsSyntaxError error (lexemes (Symbol.OpenBracket ∷ map symbol_of text.now))) }
    ensures shorter { IfOk result (λ parsed. length parsed.1.now ≤ length text.now) }
{
    let Some((symbol, rest)) = next_symbol(text) else {
        return Err(GlobError::UnclosedClass);
    };
    match symbol {
        Symbol::Bang => parse_items(alloc, true, rest),
        Symbol::Caret => parse_items(alloc, true, rest),
        _ => parse_items(alloc, false, text),
    }
}

// Parses the items of a class up to its `]`. The first item is literal, whatever it is.
fn parse_items<'a>(
    alloc: Global,
    negated: bool,
    text: &'a [u8],
) -> Result<(Class, &'a [u8]), GlobError>
    ensures parsed { MatchResult result
        (λ parsed. IsParsedClass (first_item negated (map symbol_of text.now))
        parsed.0 parsed.1.now)
        (λ error. IsSyntaxError error (first_item negated (map symbol_of text.now))) }
    ensures shorter { IfOk result (λ parsed. length parsed.1.now ≤ length text.now) }
{
    let Some((first, mut rest)) = next_symbol(text) else {
        return Err(GlobError::UnclosedClass);
    };
    let mut ranges = Vec::new(alloc);
    let mut range = ByteRange::one(first.byte());
    while let Some((symbol, after)) = next_symbol(rest) {
        rest = after;
        match symbol {
            Symbol::CloseBracket => {
                ranges.push(range)?;
                return Ok((Class::new(negated, ranges), rest));
            }
            Symbol::Dash => {
                let Some((bound, after)) = next_symbol(rest) else {
                    return Err(GlobError::UnclosedClass);
                };
                rest = after;
                match bound {
                    Symbol::CloseBracket => {
                        ranges.push(range)?;
                        ranges.push(ByteRange::one(b'-'))?;
                        return Ok((Class::new(negated, ranges), rest));
                    }
                    bound => range = byte_range(range.first, bound.byte())?,
                }
            }
            item => {
                ranges.push(range)?;
                range = ByteRange::one(item.byte());
            }
        }
    }
    Err(GlobError::UnclosedClass)
}

// Fails if a bound is not ASCII or the range is empty.
fn byte_range(first: u8, last: u8) -> Result<ByteRange, GlobError>
    ensures { MatchResult result
        (λ range. (range ≡ record { first = first; last = last })
        × ((good : _) → range_error first last good ≡ good))
        (λ error. (good : _) → IsSyntaxError error (range_error first last good)) }
{
    if first >= 128 || last >= 128 {
        Err(GlobError::NonAsciiRange)
    } else if last < first {
        Err(GlobError::InvalidRange)
    } else {
        Ok(ByteRange { first, last })
    }
}
