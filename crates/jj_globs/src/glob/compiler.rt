//! Thompson's construction: compiles tokens to NFA steps, from the last token to the first. Groups
//! become forks and jumps.
ghost use Rattle.std.specs.Prelude.{◌≡◌, ℕ, ◌+◌, ◌-◌, ◌∷◌, Bool, List, reverse, length, IfOk, OnOk};
ghost use Rattle.jj_globs.specs.declared.glob.symbol.Symbol.TheVariants.{Slash};
ghost use Rattle.jj_globs.specs.GlobMeaning.{in_class};
ghost use Rattle.jj_globs.specs.GlobSyntax.{byte_of};
ghost use Rattle.jj_globs.specs.GlobNfa.{in_set};
ghost use Rattle.jj_globs.specs.GlobCompilation.{EmitsPart, EmitsToken, with_fork, IsNfaOf};

use crate::glob::byte_set::ByteSet;
use crate::glob::step::Step;
use crate::glob::token::{Options, Part, Token};
use crate::glob::trie::emit_literal_group;
use std::alloc::{AllocError, Global};

/// A group whose `}` was compiled and whose `{` was not. States are named by the number of steps
/// after them, since steps are emitted from the last one.
#[derive(Clone, Copy, Drop)]
pub struct OpenGroup {
    /// The state at which the alternatives compiled so far begin, if there is one.
    pub any: Option<usize>,
    /// The state after the group.
    pub after: usize,
}

// Compiles tokens to an NFA that accepts the byte strings they match.
pub(crate) fn compile(
    alloc: Global,
    tokens: &[Token],
    options: Options,
) -> Result<Vec<Step>, AllocError>
    ensures { IfOk result (λ steps. IsNfaOf options tokens.now steps.items) }
{
    let mut steps = Vec::new(alloc);
    let mut groups = Vec::new(alloc);
    let mut left = tokens;
    while let Some((token, before)) = left.split_last() {
        if let Some(outside) = emit_literal_group(alloc, &mut steps, left)? {
            left = outside;
        } else {
            emit_token(&mut steps, &mut groups, token, options)?;
            left = before;
        }
    }
    steps.reverse();
    Ok(steps)
}

fn emit_token(
    steps: &mut Vec<Step>,
    groups: &mut Vec<OpenGroup>,
    token: &Token,
    options: Options,
) -> Result<(), AllocError>
    ensures { OnOk result (EmitsToken options token.now (reverse steps.old.items)
        (reverse groups.old.items)
        (reverse steps.new.items) (reverse groups.new.items)) }
{
    match token {
        Token::Part(part) => emit_part(steps, part, options)?,
        Token::Close => {
            groups.push(OpenGroup {
                any: None,
                after: steps.len(),
            })?;
        }
        Token::Or => if let Some(group) = groups.pop() {
            emit_fork(steps, group.any)?;
            let begin = steps.len();
            steps.push(Step::Jump(begin.saturating_sub(group.after)))?;
            groups.push(OpenGroup {
                any: Some(begin),
                after: group.after,
            })?;
        },
        Token::Open => if let Some(group) = groups.pop() {
            emit_fork(steps, group.any)?;
        },
    }
    Ok(())
}

// If alternatives were compiled before, emits a fork to them and to the current one.
fn emit_fork(steps: &mut Vec<Step>, others: Option<usize>) -> Result<(), AllocError>
    ensures { OnOk result (reverse steps.new.items ≡ with_fork others (reverse steps.old.items)) }
{
    if let Some(others) = others {
        let begin = steps.len();
        steps.push(Step::Fork(begin.saturating_sub(others)))?;
    }
    Ok(())
}

fn emit_part(steps: &mut Vec<Step>, part: &Part, options: Options) -> Result<(), AllocError>
    ensures { OnOk result (EmitsPart options part.now (reverse steps.old.items)
        (reverse steps.new.items)) }
{
    match part {
        Part::Byte(byte) => steps.push(Step::Byte(*byte))?,
        Part::AnyByte => steps.push(Step::AnyByte)?,
        Part::OneOf(class) => steps.push(Step::OneOf(class.set(options)))?,
        Part::Star => steps.push(Step::Star)?,
        Part::Everything => steps.push(Step::Everything)?,
        Part::Below => {
            steps.push(Step::Everything)?;
            steps.push(Step::Byte(b'/'))?;
        }
        Part::LeadingDirs => emit_dirs(steps)?,
        Part::InnerDirs => {
            emit_dirs(steps)?;
            steps.push(Step::Byte(b'/'))?;
        }
    }
    Ok(())
}

// Emits the steps of nothing, or of any bytes that end in `/`.
fn emit_dirs(steps: &mut Vec<Step>) -> Result<(), AllocError>
    ensures { OnOk result (reverse steps.new.items
        ≡ Step.Fork 2 ∷ Step.Everything ∷ Step.Byte (byte_of Slash) ∷ reverse steps.old.items) }
{
    steps.push(Step::Byte(b'/'))?;
    steps.push(Step::Everything)?;
    steps.push(Step::Fork(2))?;
    Ok(())
}
