//! Differences of words, for terminals.
ghost use Rattle.std.specs.Prelude.{◌≡◌, ◌++◌, [], map, All, IfOk, OnOk};
ghost use Rattle.std.specs.List.{slice_index_or, AllZip};
ghost use Rattle.jj_diff.specs.Inputs.{side};
ghost use Rattle.jj_diff.specs.Hunks.{IsHunk, row_of};
ghost use Rattle.jj_diff_presentation.specs.Words.{left_text, right_text, AreComparedWords, IsToken, IsTokenOf, marked, token_text, tokens_text};

use jj_diff::diff::{DiffHunk, DiffHunkKind, diff};
use std::alloc::{AllocError, Global};

/// Whether a token is equal on both sides.
#[derive(Copy, Clone, Debug, PartialEq, Eq, Drop)]
pub enum DiffTokenType {
    Matching,
    Different,
}

/// A part of both sides, of which one may be empty.
#[derive(Copy, Clone, Debug, PartialEq, Eq, Drop)]
pub struct DiffToken<'a> {
    pub token_type: DiffTokenType,
    pub left: &'a [u8],
    pub right: &'a [u8],
}

fn token_of_hunk<'a>(hunk: &DiffHunk<'a>) -> DiffToken<'a>
    requires { IsHunk 2 hunk.now }
    ensures left { result.left.now ≡ slice_index_or (row_of hunk.now) 0 [] }
    ensures right { result.right.now ≡ slice_index_or (row_of hunk.now) 1 [] }
    ensures matching { IsToken result }
    ensures token { IsTokenOf hunk.now result }
{
    let left = hunk.contents[0];
    let right = hunk.contents[1];
    match hunk.kind {
        DiffHunkKind::Matching => DiffToken {
            token_type: DiffTokenType::Matching,
            left,
            right,
        },
        DiffHunkKind::Different => DiffToken {
            token_type: DiffTokenType::Different,
            left,
            right,
        },
    }
}

#[tactic(auto, using(crate::proofs::Words::token_steps))]
fn tokens_of_hunks<'a>(
    alloc: Global,
    hunks: &[DiffHunk<'a>],
) -> Result<Vec<DiffToken<'a>>, AllocError>
    requires { All (IsHunk 2) hunks.now }
    ensures left { IfOk result
        (λ tokens. left_text tokens.items ≡ side 0 (map row_of hunks.now)) }
    ensures right { IfOk result
        (λ tokens. right_text tokens.items ≡ side 1 (map row_of hunks.now)) }
    ensures matching { IfOk result (λ tokens. All IsToken tokens.items) }
    ensures each { IfOk result (λ tokens. AllZip IsTokenOf hunks.now tokens.items) }
{
    let mut tokens = Vec::new(alloc);
    for hunk in hunks {
        tokens.push(token_of_hunk(hunk))?;
    }
    Ok(tokens)
}

/// Compares two byte strings line by line, and lines that differ word by word.
pub fn word_diff<'a>(
    alloc: Global,
    left: &'a [u8],
    right: &'a [u8],
) -> Result<Vec<DiffToken<'a>>, AllocError>
    // Without what was added, the tokens are the left side.
    ensures left { IfOk result (λ tokens. left_text tokens.items ≡ left.now) }
    // Without what was removed, they are the right side.
    ensures right { IfOk result (λ tokens. right_text tokens.items ≡ right.now) }
    // The parts of a token that matches are equal.
    ensures matching { IfOk result (λ tokens. All IsToken tokens.items) }
    // The tokens are the hunks of a comparison: no token that differs starts or ends with a word
    // that is equal on both sides, nor has one that is once on each, of at most 64.
    ensures compared { IfOk result
        (λ tokens. AreComparedWords left.now right.now tokens.items) }
{
    let hunks = diff(alloc, &[left, right])?;
    let tokens = tokens_of_hunks(alloc, &hunks)?;
    Ok(tokens)
}

#[tactic(auto, using(crate::proofs::Words::marked_steps))]
fn push_marked(
    text: &mut Vec<u8>,
    first: &[u8],
    content: &[u8],
    last: &[u8],
) -> Result<(), AllocError>
    ensures { OnOk result
        (text.new.items ≡ text.old.items ++ marked first.now content.now last.now) }
{
    if content.is_empty() {
        return Ok(());
    }
    text.extend_from_slice(first)?;
    text.extend_from_slice(content)?;
    text.extend_from_slice(last)
}

#[tactic(auto, using(crate::proofs::Words::append_steps))]
fn push_token(text: &mut Vec<u8>, token: &DiffToken) -> Result<(), AllocError>
    ensures { OnOk result (text.new.items ≡ text.old.items
        ++ token_text token.now.token_type token.now.left.now token.now.right.now) }
{
    match token.token_type {
        DiffTokenType::Matching => text.extend_from_slice(token.left),
        DiffTokenType::Different => {
            push_marked(text, b"[-", token.left, b"-]")?;
            push_marked(text, b"{+", token.right, b"+}")
        }
    }
}

/// Marks the tokens as `git diff --word-diff=plain` does: `[-removed-]{+added+}`.
#[tactic(auto, using(crate::proofs::Words::text_steps))]
pub fn write_word_diff(alloc: Global, tokens: &[DiffToken]) -> Result<Vec<u8>, AllocError>
    ensures { IfOk result (λ text. text.items ≡ tokens_text tokens.now) }
{
    let mut text = Vec::new(alloc);
    for token in tokens {
        push_token(&mut text, token)?;
    }
    Ok(text)
}
