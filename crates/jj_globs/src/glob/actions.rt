//! Actions of the parser: append to the tokens so far, drop empty alternatives and groups, and
//! merge runs of `**/`.
ghost use Rattle.std.specs.Prelude.{◌≡◌, ◌<◌, ℕ, Bool, true, false, List, [], ◌∷◌, ◌++◌, reverse, OnOk, IfOk};
ghost use Rattle.jj_globs.specs.declared.glob.symbol.Symbol.TheVariants.{Comma};
ghost use Rattle.jj_globs.specs.GlobSyntax.{byte_of, position_after, position_after_group, position_of, with_or, with_close, with_dirs, with_last_dirs, two_stars, replace_last, closes_empty_group};

use crate::glob::symbol::Position;
use crate::glob::token::{Part, Token};
use std::alloc::AllocError;

// Appends a `,`, which is a literal byte outside of groups.
pub(crate) fn push_comma(tokens: &mut Vec<Token>, open_groups: usize) -> Result<(), AllocError>
    ensures plain { OnOk result (open_groups ≡ 0 → reverse tokens.new.items
        ≡ Token.Part (Part.Byte (byte_of Comma)) ∷ reverse tokens.old.items) }
    ensures group { OnOk result (0 < open_groups
        → reverse tokens.new.items ≡ with_or (reverse tokens.old.items)) }
{
    if open_groups > 0 {
        return push_or(tokens);
    }
    tokens.push(Token::Part(Part::Byte(b',')))?;
    Ok(())
}

// Ends an alternative of a group; an empty one is dropped.
fn push_or(tokens: &mut Vec<Token>) -> Result<(), AllocError>
    ensures { OnOk result (reverse tokens.new.items ≡ with_or (reverse tokens.old.items)) }
{
    match tokens.pop() {
        None => tokens.push(Token::Or)?,
        Some(Token::Open) => tokens.push(Token::Open)?,
        Some(Token::Or) => tokens.push(Token::Or)?,
        Some(last) => {
            tokens.push(last)?;
            tokens.push(Token::Or)?;
        }
    }
    Ok(())
}

// Closes a group. An empty alternative is dropped, and so is a group without alternatives. Returns
// whether the group was dropped.
pub(crate) fn push_close(tokens: &mut Vec<Token>) -> Result<bool, AllocError>
    ensures tokens { OnOk result (reverse tokens.new.items
        ≡ with_close (reverse tokens.old.items)) }
    ensures dropped { IfOk result (λ dropped. dropped
        ≡ closes_empty_group (reverse tokens.old.items)) }
{
    match tokens.pop() {
        None => tokens.push(Token::Close)?,
        Some(Token::Open) => return Ok(true),
        Some(Token::Or) => tokens.push(Token::Close)?,
        Some(last) => {
            tokens.push(last)?;
            tokens.push(Token::Close)?;
        }
    }
    Ok(false)
}

// Appends a `**/`, or merges it with the token before it.
pub(crate) fn push_dirs(tokens: &mut Vec<Token>, position: Position) -> Result<(), AllocError>
    ensures { OnOk result (reverse tokens.new.items
        ≡ with_dirs position (reverse tokens.old.items)) }
{
    match position {
        Position::Start => tokens.push(Token::Part(Part::LeadingDirs))?,
        Position::LeadingRun => {}
        Position::InnerRun => {}
        Position::AfterSlash => replace_last(tokens, Part::InnerDirs)?,
        Position::Elsewhere => {
            push_two_stars(tokens)?;
            tokens.push(Token::Part(Part::Byte(b'/')))?;
        }
    }
    Ok(())
}

// Appends a `**` that ends its sequence.
pub(crate) fn push_last_dirs(tokens: &mut Vec<Token>, position: Position) -> Result<(), AllocError>
    ensures { OnOk result (reverse tokens.new.items
        ≡ with_last_dirs position (reverse tokens.old.items)) }
{
    match position {
        Position::Start => push_two_stars(tokens)?,
        Position::LeadingRun => {}
        Position::AfterSlash => replace_last(tokens, Part::Below)?,
        Position::InnerRun => replace_last(tokens, Part::Below)?,
        Position::Elsewhere => push_two_stars(tokens)?,
    }
    Ok(())
}

// Appends a `**` that is no path component of its own: two single stars.
pub(crate) fn push_two_stars(tokens: &mut Vec<Token>) -> Result<(), AllocError>
    ensures { OnOk result (reverse tokens.new.items ≡ two_stars (reverse tokens.old.items)) }
{
    tokens.push(Token::Part(Part::Star))?;
    tokens.push(Token::Part(Part::Star))?;
    Ok(())
}

// Replaces the last token.
fn replace_last(tokens: &mut Vec<Token>, part: Part) -> Result<(), AllocError>
    ensures { OnOk result (reverse tokens.new.items
        ≡ replace_last part (reverse tokens.old.items)) }
{
    let _last = tokens.pop();
    tokens.push(Token::Part(part))?;
    Ok(())
}

// Returns the position of a `**` that comes next.
pub(crate) fn position_of(is_after_group: bool, tokens: &[Token]) -> Position
    ensures { result ≡ position_of is_after_group (reverse tokens.now) }
{
    let position = position_after(tokens);
    match position {
        Position::Start => Position::Start,
        _ => if is_after_group {
            Position::Elsewhere
        } else {
            position
        },
    }
}

fn position_after(tokens: &[Token]) -> Position
    ensures { result ≡ position_after (reverse tokens.now) }
{
    let Some((last, _)) = tokens.split_last() else {
        return Position::Start;
    };
    match last {
        Token::Open => Position::Start,
        Token::Or => Position::Start,
        Token::Part(Part::LeadingDirs) => Position::LeadingRun,
        Token::Part(Part::InnerDirs) => Position::InnerRun,
        Token::Part(Part::Byte(b'/')) => Position::AfterSlash,
        _ => Position::Elsewhere,
    }
}
