//! Single-pass parser of globs. Groups need no stack: their delimiters become tokens, and a counter
//! of open groups checks the nesting.
ghost use Rattle.std.specs.Prelude.{◌≡◌, ◌≢◌, ℕ, ◌+◌, ◌<◌, ◌≤◌, ◌^◌, Bool, true, false, Ok, Err, List, [], ◌∷◌, ◌++◌, reverse, length, map, OnOk, IfOk, IfErr, MatchResult, MatchOption, IfSome, IsTrue, ◌↔◌};
ghost use Rattle.jj_globs.specs.GlobSyntax.{symbol_of, lexemes, parse, tokens_of, position_after, position_after_group, position_of, with_or, with_close, with_dirs, with_last_dirs, two_stars, replace_last, closes_empty_group, only_dirs};
ghost use Rattle.jj_globs.specs.GlobParsing.{IsGlobParseError, IsSyntaxError, IsParsedPart, ends_here};
ghost use Rattle.jj_globs.specs.declared.glob.symbol.Symbol.{Symbol};

use crate::glob::actions::{
    position_of, push_close, push_comma, push_dirs, push_last_dirs, push_two_stars,
};
use crate::glob::class::parse_class;
use crate::glob::error::GlobError;
use crate::glob::symbol::{Symbol, next_symbol};
use crate::glob::token::{Part, Token};
use std::alloc::{AllocError, Global};

// Parses a pattern into tokens, or returns its first error.
pub(crate) fn parse_tokens(alloc: Global, text: &[u8]) -> Result<Vec<Token>, GlobError>
    ensures { MatchResult result (λ tokens. tokens_of text.now ≡ Ok tokens.items)
        (λ error. IsGlobParseError error (tokens_of text.now)) }
{
    if !is_only_dirs(text) {
        return parse_sequence(alloc, text);
    }
    let mut tokens = Vec::new(alloc);
    tokens.push(Token::Part(Part::Everything))?;
    Ok(tokens)
}

// Parses a pattern that is not only `**` components.
fn parse_sequence(alloc: Global, text: &[u8]) -> Result<Vec<Token>, GlobError>
    requires plain { only_dirs (map symbol_of text.now) ≡ false }
    ensures { MatchResult result (λ tokens. tokens_of text.now ≡ Ok tokens.items)
        (λ error. IsGlobParseError error (tokens_of text.now)) }
{
    // Each open group is a byte of the pattern, so the counter does not overflow.
    let _len = text.len();
    let mut tokens = Vec::new(alloc);
    let mut rest = text;
    let mut open_groups = 0;
    let mut is_after_group = false;
    while let Some((symbol, after)) = next_symbol(rest) {
        rest = after;
        match symbol {
            Symbol::Asterisk => {
                rest = parse_stars(&mut tokens, open_groups, is_after_group, after)?;
            }
            Symbol::CloseBrace if open_groups == 0 => return Err(GlobError::UnopenedAlternates),
            Symbol::CloseBrace => {
                open_groups -= 1;
                is_after_group = push_close(&mut tokens)?;
                continue;
            }
            Symbol::OpenBrace => {
                tokens.push(Token::Open)?;
                open_groups += 1;
            }
            Symbol::Comma => push_comma(&mut tokens, open_groups)?,
            symbol => {
                let (part, after_part) = parse_part(alloc, symbol, after)?;
                tokens.push(Token::Part(part))?;
                rest = after_part;
            }
        }
        is_after_group = false;
    }
    if open_groups > 0 {
        return Err(GlobError::UnclosedAlternates);
    }
    Ok(tokens)
}

// Whether the pattern is only `**` components joined by `/`, with or without a last `/`.
fn is_only_dirs(text: &[u8]) -> bool
    ensures { result ≡ only_dirs (map symbol_of text.now) }
{
    let mut rest = text;
    while let Some(after) = strip_two_stars(rest) {
        if after.is_empty() {
            return true;
        }
        let Some(further) = strip_slash(after) else {
            return false;
        };
        if further.is_empty() {
            return true;
        }
        rest = further;
    }
    false
}

// Parses a class, an escape, a `?` or a literal byte, after its first byte.
fn parse_part<'a>(
    alloc: Global,
    symbol: Symbol,
    text: &'a [u8],
) -> Result<(Part, &'a [u8]), GlobError>
    requires no_star { symbol ≢ Symbol.Asterisk }
    requires no_open { symbol ≢ Symbol.OpenBrace }
    requires no_comma { symbol ≢ Symbol.Comma }
    requires no_close { symbol ≢ Symbol.CloseBrace }
    ensures parsed { MatchResult result
        (λ parsed. IsParsedPart (lexemes (symbol ∷ map symbol_of text.now)) parsed.0 parsed.1.now)
        (λ error. IsSyntaxError error (lexemes (symbol ∷ map symbol_of text.now))) }
    ensures shorter { IfOk result (λ parsed. length parsed.1.now ≤ length text.now) }
{
    match symbol {
        Symbol::Question => Ok((Part::AnyByte, text)),
        Symbol::OpenBracket => match parse_class(alloc, text) {
            Ok((class, rest)) => Ok((Part::OneOf(class), rest)),
            Err(error) => Err(error),
        },
        Symbol::Backslash => match next_symbol(text) {
            Some((escaped, rest)) => Ok((Part::Byte(escaped.byte()), rest)),
            None => Err(GlobError::DanglingEscape),
        },
        literal => Ok((Part::Byte(literal.byte()), text)),
    }
}

// Strips a `*`, if the pattern begins with one.
fn strip_star(text: &[u8]) -> Option<&[u8]>
    ensures { MatchOption result
        ((rest : List Symbol) → map symbol_of text.now ≡ Symbol.Asterisk ∷ rest → ⊥)
        (λ rest. map symbol_of text.now ≡ Symbol.Asterisk ∷ map symbol_of rest.now) }
{
    let (symbol, rest) = next_symbol(text)?;
    match symbol {
        Symbol::Asterisk => Some(rest),
        _ => None,
    }
}

fn strip_two_stars(text: &[u8]) -> Option<&[u8]>
    ensures found { MatchOption result
        ((rest : List Symbol) → map symbol_of text.now
        ≡ Symbol.Asterisk ∷ Symbol.Asterisk ∷ rest → ⊥)
        (λ rest. map symbol_of text.now
        ≡ Symbol.Asterisk ∷ Symbol.Asterisk ∷ map symbol_of rest.now) }
    ensures shorter { IfSome result (λ rest. length rest.now < length text.now) }
{
    let rest = strip_star(text)?;
    strip_star(rest)
}

fn strip_slash(text: &[u8]) -> Option<&[u8]>
    ensures { MatchOption result
        ((rest : List Symbol) → map symbol_of text.now ≡ Symbol.Slash ∷ rest → ⊥)
        (λ rest. map symbol_of text.now ≡ Symbol.Slash ∷ map symbol_of rest.now) }
{
    let (symbol, rest) = next_symbol(text)?;
    match symbol {
        Symbol::Slash => Some(rest),
        _ => None,
    }
}

// Whether the sequence ends here: at the end of the pattern, or of an alternative in a group.
fn ends_sequence(open_groups: usize, text: &[u8]) -> bool
    ensures { result ≡ ends_here open_groups (map symbol_of text.now) }
{
    let Some((symbol, _)) = next_symbol(text) else {
        return open_groups == 0;
    };
    match symbol {
        Symbol::Comma => open_groups > 0,
        Symbol::CloseBrace => open_groups > 0,
        _ => false,
    }
}

// Parses `*`, `**` or `**/` after its first `*`. Returns the remaining pattern.
fn parse_stars<'a>(
    tokens: &mut Vec<Token>,
    open_groups: usize,
    is_after_group: bool,
    text: &'a [u8],
) -> Result<&'a [u8], AllocError>
    ensures parsed { IfOk result (λ rest.
        parse open_groups is_after_group (reverse tokens.old.items)
        (lexemes (Symbol.Asterisk ∷ map symbol_of text.now))
        ≡ parse open_groups false (reverse tokens.new.items) (lexemes (map symbol_of rest.now))) }
    ensures shorter { IfOk result (λ rest. length rest.now ≤ length text.now) }
{
    let Some(rest) = strip_star(text) else {
        tokens.push(Token::Part(Part::Star))?;
        return Ok(text);
    };
    let position = position_of(is_after_group, tokens.as_slice());
    if let Some(after) = strip_slash(rest) {
        push_dirs(tokens, position)?;
        return Ok(after);
    }
    if ends_sequence(open_groups, rest) {
        push_last_dirs(tokens, position)?;
        return Ok(rest);
    }
    push_two_stars(tokens)?;
    Ok(rest)
}
