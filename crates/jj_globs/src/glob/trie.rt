//! Groups of literal alternatives as tries: alternatives share the states of their common prefixes,
//! so that few states are live at once, however many alternatives there are.
ghost use Rattle.std.specs.Prelude.{◌≡◌, ◌≢◌, ◌++◌, ◌≤◌, [], List, length, map, reverse, take};
ghost use Rattle.std.specs.Prelude.{IfOk, IfSome, MatchOption, OnOk};
ghost use Rattle.jj_globs.specs.GlobTrie.{Word, group_tokens, EmitsTrie, JoinsBranch, EmitsBytes};

use crate::glob::step::Step;
use crate::glob::token::{Part, Token};
use std::alloc::{AllocError, Global};

/// A branch of the trie: a state at which other literals leave the current one. States are named by
/// the number of steps after them, since steps are emitted from the last one.
#[derive(Clone, Copy, Drop)]
pub struct Branch {
    /// The length of the common prefix.
    pub depth: usize,
    /// The state after the common prefix on the other literals.
    pub state: usize,
}

// If the tokens end with a group of literal alternatives, emits the steps of the group and returns
// the tokens before it.
pub(crate) fn emit_literal_group<'t>(
    alloc: Global,
    steps: &mut Vec<Step>,
    tokens: &'t [Token],
) -> Result<Option<&'t [Token]>, AllocError>
    ensures { IfOk result (λ found. MatchOption found (steps.new.items ≡ steps.old.items)
        (λ before. (words : List Word) × (words ≢ [])
        × (tokens.now ≡ before.now ++ group_tokens words)
        × EmitsTrie words (reverse steps.old.items) (reverse steps.new.items))) }
{
    let Some((mut words, before)) = literal_group(alloc, tokens)? else {
        return Ok(None);
    };
    words.sort_unstable();
    emit_trie(alloc, steps, words.as_slice())?;
    Ok(Some(before))
}

// Returns the alternatives of the group that the tokens end with, the last first, and the tokens
// before it, if each alternative is a literal.
fn literal_group(
    alloc: Global,
    tokens: &[Token],
) -> Result<Option<(Vec<Vec<u8>>, &[Token])>, AllocError>
    ensures group { IfOk result (λ found. IfSome found (λ group. tokens.now
        ≡ group.1.now ++ group_tokens (reverse (map (λ word. word.items) group.0.items)))) }
    ensures some { IfOk result (λ found. IfSome found (λ group. group.0.items ≢ [])) }
{
    let Some((Token::Close, inner)) = tokens.split_last() else {
        return Ok(None);
    };
    let mut words = Vec::new(alloc);
    let mut word = Vec::new(alloc);
    let mut left = inner;
    while let Some((token, before)) = left.split_last() {
        match token {
            Token::Part(Part::Byte(byte)) => word.push(*byte)?,
            Token::Or => {
                word.reverse();
                words.push(word)?;
                word = Vec::new(alloc);
            }
            Token::Open => {
                word.reverse();
                words.push(word)?;
                return Ok(Some((words, before)));
            }
            _ => return Ok(None),
        }
        left = before;
    }
    Ok(None)
}

fn common_prefix_len(a: &[u8], b: &[u8]) -> usize
    ensures same { take result a.now ≡ take result b.now }
    ensures within { (result ≤ length a.now) × (result ≤ length b.now) }
{
    let mut common = 0;
    while common < a.len() && common < b.len() && a[common] == b[common] {
        common += 1;
    }
    common
}

// Emits the trie of the literals, the last first. Adjacent literals share the states of their
// common prefix.
fn emit_trie(alloc: Global, steps: &mut Vec<Step>, words: &[Vec<u8>]) -> Result<(), AllocError>
    requires some { words.now ≢ [] }
    ensures { OnOk result (EmitsTrie (map (λ word. word.items) words.now)
        (reverse steps.old.items) (reverse steps.new.items)) }
{
    let after = steps.len();
    let mut branches = Vec::new(alloc);
    let Some((last, others)) = words.split_last() else {
        return Ok(());
    };
    let mut current = last.as_slice();
    let mut left = others;
    while let Some((word, before)) = left.split_last() {
        let common = common_prefix_len(current, word.as_slice());
        emit_bytes(steps, &mut branches, current, common)?;
        branches.push(Branch {
            depth: common,
            state: steps.len(),
        })?;
        steps.push(Step::Jump(steps.len().saturating_sub(after)))?;
        current = word.as_slice();
        left = before;
    }
    emit_bytes(steps, &mut branches, current, 0)
}

// Emits the bytes of a literal after its first `from` bytes, the last one first, and joins the
// branches among them.
fn emit_bytes(
    steps: &mut Vec<Step>,
    branches: &mut Vec<Branch>,
    word: &[u8],
    from: usize,
) -> Result<(), AllocError>
    requires { from ≤ length word.now }
    ensures { OnOk result (EmitsBytes word.now from
        (reverse steps.old.items) (reverse branches.old.items)
        (reverse steps.new.items) (reverse branches.new.items)) }
{
    join_branch(steps, branches, word.len())?;
    let mut left = word;
    while left.len() > from {
        let Some((byte, before)) = left.split_last() else {
            return Ok(());
        };
        steps.push(Step::Byte(*byte))?;
        join_branch(steps, branches, before.len())?;
        left = before;
    }
    Ok(())
}

// Emits a fork to the branch at this depth, if there is one.
fn join_branch(
    steps: &mut Vec<Step>,
    branches: &mut Vec<Branch>,
    depth: usize,
) -> Result<(), AllocError>
    ensures { OnOk result (JoinsBranch depth
        (reverse steps.old.items) (reverse branches.old.items)
        (reverse steps.new.items) (reverse branches.new.items)) }
{
    if let Some(branch) = branches.last() {
        let branch = *branch;
        if branch.depth == depth {
            let _ = branches.pop();
            steps.push(Step::Fork(steps.len().saturating_sub(branch.state)))?;
        }
    }
    Ok(())
}
