//! Literal suffix of a glob: bytes with which every match ends, compared before the NFA runs.
ghost use Rattle.std.specs.Prelude.{◌≡◌, ◌⊎◌, ◌+◌, ◌≤◌, reverse};
ghost use Rattle.jj_globs.specs.GlobNfa.{TargetsInRange, max_offset};
ghost use Rattle.jj_globs.specs.GlobSuffix.{IsLiteralStep, IsLiteralSuffix, matches_reversed};

use crate::glob::step::Step;
use crate::glob::token::Options;

// Returns the first state of the literal suffix: the least one such that this step and all later
// ones are literal bytes, and no earlier step leads past it.
pub(crate) fn literal_suffix(steps: &[Step]) -> usize
    requires inside { TargetsInRange steps.now }
    ensures { IsLiteralSuffix steps.now result }
{
    let mut literal = 0;
    for state in 0..steps.len() {
        let after = furthest_target(steps[state], state, steps.len());
        if literal < after {
            literal = after;
        }
    }
    literal
}

// Returns the furthest target of a step, or 0 for a literal byte.
fn furthest_target(step: Step, state: usize, end: usize) -> usize
    requires inside { state + 1 + max_offset step ≤ end }
    ensures after { IsLiteralStep step ⊎ (result ≡ state + 1 + max_offset step) }
    ensures within { result ≤ end }
{
    match step {
        Step::Byte(_) => 0,
        Step::Fork(further) => state + 1 + further,
        Step::Jump(further) => state + 1 + further,
        _ => state + 1,
    }
}

// Whether the bytes end with these literals.
pub(crate) fn ends_with_literals(options: Options, literals: &[Step], bytes: &[u8]) -> bool
    ensures { result ≡ matches_reversed options (reverse literals.now) (reverse bytes.now) }
{
    let mut left = literals;
    let mut text = bytes;
    while let Some((Step::Byte(own), before)) = left.split_last() {
        let Some((last, rest)) = text.split_last() else {
            return false;
        };
        if !options.same_byte(*own, *last) {
            return false;
        }
        left = before;
        text = rest;
    }
    true
}
