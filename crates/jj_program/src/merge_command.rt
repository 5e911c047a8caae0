//! The command `merge`: simplifies or resolves a merge of strings per line.
ghost use Rattle.std.specs.Prelude.{◌≡◌, ◌++◌, ℕ, List, Ok, IfOk, IfErr, OnOk, length};
ghost use Rattle.jj_merges.specs.Merge.{IsOdd};
ghost use Rattle.jj_program.specs.Lines.{AreLinesOf, IsFaultOf, texts_of};
ghost use Rattle.jj_program.specs.MergeCommand.{IsMergeLine, MergeRequest, merge_requests, merge_step, IsMergeResult};

use crate::fault::{Fault, LineFault};
use crate::forms::{Shape, form_line};
use crate::lines::{Reading, push_line, take_lines};
use crate::merge_outcome::outcome;
use crate::merge_simplify::simplified_terms;
use jj_filter::failure::Failure;
use jj_merges::merge::{Merge, MergeBuilder, SameChange};
use std::alloc::{AllocError, Global};

// The operation that a line requests.
#[derive(Clone, Copy)]
pub(crate) enum MergeForm {
    Simplify,
    Resolve(SameChange),
}

// The lines of `merge`.
pub(crate) const MERGE_FORMS: &[(&str, Shape, MergeForm)] = &[
    ("simplify", Shape::Odd, MergeForm::Simplify),
    ("keep", Shape::Odd, MergeForm::Resolve(SameChange::Keep)),
    ("accept", Shape::Odd, MergeForm::Resolve(SameChange::Accept)),
];

// Builds a merge of an odd number of terms.
pub(crate) fn merge_of<'t>(alloc: Global, terms: &[&'t str]) -> Result<Merge<&'t str>, AllocError>
    requires { IsOdd (length terms.now) }
    ensures { IfOk result (λ merge. merge ≡ terms.now) }
{
    let mut builder = MergeBuilder::default(alloc);
    builder.extend(alloc, terms.iter().copied())?;
    Ok(builder.build())
}

// The output for the lines so far.
#[derive(Drop)]
pub(crate) struct MergeReading {
    output: Vec<u8>,
}

impl<'t> Reading<'t> for MergeReading {
    ghost State = { List MergeRequest };

    ghost represents = { λ reading requests.
        AreLinesOf IsMergeLine requests reading.output.items };

    ghost step = { merge_step };

    fn take(&mut self, alloc: Global, fields: &[&'t str]) -> Result<(), Failure<LineFault>> {
        let (form, _shape, terms) = form_line(MERGE_FORMS, fields)?;
        push_result(alloc, &mut self.output, form, terms)?;
        Ok(())
    }
}

// Returns the output of `merge` for an input. Each line is performed as it is read, so that only
// its output is stored.
pub(crate) fn merge_output(alloc: Global, text: &str) -> Result<Vec<u8>, Failure<Fault>>
    ensures done { IfOk result (λ output. IsMergeResult text.now (Ok output.items)) }
    ensures fault { IfErr result (λ fault. IsFaultOf fault (merge_requests text.now)) }
{
    let mut reading = MergeReading {
        output: Vec::new(alloc),
    };
    take_lines(alloc, &mut reading, text)?;
    Ok(reading.output)
}

// Performs an operation and appends its line to the output.
fn push_result(
    alloc: Global,
    output: &mut Vec<u8>,
    form: MergeForm,
    terms: &[&str],
) -> Result<(), AllocError>
    requires { IsOdd (length terms.now) }
    ensures { OnOk result ((line : List ℕ)
        × IsMergeLine (form, texts_of terms.now) line
        × (output.new.items ≡ output.old.items ++ line)) }
{
    match form {
        MergeForm::Simplify => push_simplified(alloc, output, terms),
        MergeForm::Resolve(same_change) => {
            let found = outcome(alloc, terms, same_change)?;
            match found {
                Some(term) => push_line(output, "resolved", &[term]),
                None => push_line(output, "conflict", &[]),
            }
        }
    }
}

// Simplifies a merge and appends its line. One or three terms cancel without an allocation of their
// own: most merges are so short.
fn push_simplified(alloc: Global, output: &mut Vec<u8>, terms: &[&str]) -> Result<(), AllocError>
    requires { IsOdd (length terms.now) }
    ensures { OnOk result ((line : List ℕ)
        × IsMergeLine (MergeForm.Simplify, texts_of terms.now) line
        × (output.new.items ≡ output.old.items ++ line)) }
{
    match terms {
        [_] => push_line(output, "terms", terms),
        [left, base, right] => {
            if *left == *base {
                push_line(output, "terms", &[*right])
            } else if *right == *base {
                push_line(output, "terms", &[*left])
            } else {
                push_line(output, "terms", terms)
            }
        }
        _ => {
            let left = simplified_terms(alloc, terms)?;
            push_line(output, "terms", &left)
        }
    }
}
