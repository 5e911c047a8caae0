//! The lexer: splits an expression into tokens with their offsets.
ghost use Rattle.std.specs.Prelude.{◌≡◌, ◌<◌, ◌≤◌, length, IfOk, IfErr, IfSome};
ghost use Rattle.std.specs.Option.{option_map};
ghost use Rattle.jj_filesets.specs.Strings.{IsResultOf};
ghost use Rattle.jj_filesets.specs.Tokens.{symbol_token, first_symbol, operand_token_at, token_at, Tokenizes, IsTokenError};

use crate::fileset::error::FilesetParseError;
use crate::fileset::operand::read_operand;
use crate::fileset::quoting::is_space;
use crate::fileset::token::{Lexeme, Token};
use std::alloc::Global;

// Splits an expression into tokens, or returns the first error from left to right.
pub(crate) fn tokenize(alloc: Global, text: &[u8]) -> Result<Vec<Lexeme>, FilesetParseError>
    ensures tokens { IfOk result (λ lexemes. Tokenizes (length text.now) text.now lexemes.items) }
    ensures error { IfErr result (IsTokenError (length text.now) text.now) }
{
    let total = text.len();
    let mut lexemes = Vec::new(alloc);
    let mut rest = text;
    while let Some((byte, after)) = rest.split_first() {
        if is_space(*byte) {
            rest = after;
            continue;
        }
        let at = total - rest.len();
        let (token, after) = read_token(alloc, total, rest)?;
        lexemes.push(Lexeme { at, token })?;
        rest = after;
    }
    Ok(lexemes)
}

// Reads the token at the start. `total` is the length of the whole expression.
#[tactic(auto, unfolding(crate::specs::Tokens::token_at))]
fn read_token<'a>(
    alloc: Global,
    total: usize,
    text: &'a [u8],
) -> Result<(Token, &'a [u8]), FilesetParseError>
    requires { length text.now ≤ total }
    ensures token { IsResultOf (λ read. (read.0, read.1.now)) result (token_at total text.now) }
    ensures shorter { IfOk result (λ read. length read.1.now < length text.now) }
{
    match first_symbol(text) {
        Some((token, rest)) => Ok((token, rest)),
        None => read_operand_token(alloc, total, text),
    }
}

fn read_operand_token<'a>(
    alloc: Global,
    total: usize,
    text: &'a [u8],
) -> Result<(Token, &'a [u8]), FilesetParseError>
    requires { length text.now ≤ total }
    ensures token { IsResultOf (λ read. (read.0, read.1.now)) result
        (operand_token_at total text.now) }
    ensures shorter { IfOk result (λ read. length read.1.now < length text.now) }
{
    let (pattern, rest) = read_operand(alloc, total, text)?;
    Ok((Token::Operand(pattern), rest))
}

fn first_symbol(text: &[u8]) -> Option<(Token, &[u8])>
    ensures symbol { option_map (λ first. (first.0, first.1.now)) result ≡ first_symbol text.now }
    ensures shorter { IfSome result (λ first. length first.1.now < length text.now) }
{
    let (byte, rest) = text.split_first()?;
    let token = symbol_token(*byte)?;
    Some((token, rest))
}

fn symbol_token(byte: u8) -> Option<Token>
    ensures { result ≡ symbol_token byte }
{
    match byte {
        b'(' => Some(Token::Open),
        b')' => Some(Token::Close),
        b'|' => Some(Token::Bar),
        b'&' => Some(Token::Ampersand),
        b'~' => Some(Token::Tilde),
        _ => None,
    }
}
