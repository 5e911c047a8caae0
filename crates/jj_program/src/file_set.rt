//! Sets of files in postfix notation: the operations of lines, the stack of sets that they leave,
//! and their code with short circuits, which is stored in reverse. Membership is evaluated in one
//! pass over the code, without a stack.
ghost use Rattle.std.specs.Prelude.{◌≡◌, ◌+◌, ◌<◌, ◌≤◌, ◌^◌, List, [], ◌∷◌, ◌++◌, false, true, length, reverse, IfOk, MatchResult};
ghost use Rattle.jj_paths.specs.Names.{path_of};
ghost use Rattle.jj_program.specs.declared.file_set.SetOp.{SetOp};
ghost use Rattle.jj_program.specs.WalkCommand.{one, combined_stack};
ghost use Rattle.jj_program.specs.SetCode.{after_step, code_along, is_decided_by, is_whole, pass_over, sets_of, with_second};

mod matcher;

use jj_matchers::matchers::Matcher;
use jj_paths::repo_path::RepoPath;
pub(crate) use matcher::{FileSet, walk_set};
use std::alloc::{AllocError, Global};

// The sets that a line can push.
#[derive(Clone, Copy, PartialEq, Eq)]
pub(crate) enum SetWord {
    Everything,
    Nothing,
    Files,
    Prefix,
    Globs,
    PrefixGlobs,
}

// A combination of two sets; the first operand is the one that was pushed first.
#[derive(Clone, Copy, Debug, PartialEq, Eq)]
pub(crate) enum Combination {
    Union,
    Difference,
    Intersection,
}

// An operation on a stack of sets.
#[derive(Drop)]
pub(crate) enum SetOp {
    /// Pushes a set.
    Push(FileSet),
    /// Replaces the top two sets by their combination.
    Combine(Combination),
}

// A step of the evaluation of a set.
#[derive(Drop)]
pub(crate) enum CodeStep {
    /// Tests membership in a set.
    Test(FileSet),
    /// Between the operands of a combination: skips the second if the first determines the result.
    ShortCircuit(Combination),
    /// Combines the values of two operands.
    Combine(Combination),
}

// A stack of sets, stored as the operations that built it, so that combining two sets moves
// neither.
#[derive(Drop)]
pub(crate) struct SetStack {
    ops: Vec<SetOp>,
    height: usize,
    ghost counted: { height ≡ length (sets_of ops.items) },
    ghost whole: { is_whole (reverse ops.items) ≡ true },
}

impl SetStack {
    pub(crate) fn new(alloc: Global) -> SetStack
        ensures { sets_of result.ops.items ≡ [] }
    {
        SetStack {
            ops: Vec::new(alloc),
            height: 0,
        }
    }

    pub(crate) fn height(&self) -> usize
        ensures { result ≡ length (sets_of self.now.ops.items) }
    {
        self.height
    }

    pub(crate) fn push(&mut self, set: FileSet) -> Result<(), AllocError>
        ensures { MatchResult result
            (λ done. sets_of self.new.ops.items
            ≡ one set ∷ sets_of self.old.ops.items)
            (λ e. sets_of self.new.ops.items ≡ sets_of self.old.ops.items) }
    {
        self.ops.push(SetOp::Push(set))?;
        self.height += 1;
        Ok(())
    }

    // Replaces the top two sets by their combination.
    pub(crate) fn combine(&mut self, combination: Combination) -> Result<(), AllocError>
        requires { 2 ≤ length (sets_of self.old.ops.items) }
        ensures { MatchResult result
            (λ done. sets_of self.new.ops.items
            ≡ combined_stack combination (sets_of self.old.ops.items))
            (λ e. sets_of self.new.ops.items ≡ sets_of self.old.ops.items) }
    {
        self.ops.push(SetOp::Combine(combination))?;
        self.height -= 1;
        Ok(())
    }

    fn into_ops(self) -> Vec<SetOp>
        ensures sets { sets_of result.items ≡ sets_of self.ops.items }
        ensures whole { is_whole (reverse result.items) ≡ true }
    {
        let SetStack { ops, height: _ } = self;
        ops
    }
}

// Compiles postfix operations: adds a short circuit between the operands of each combination.
fn compile(alloc: Global, mut ops: Vec<SetOp>) -> Result<Vec<CodeStep>, AllocError>
    ensures { IfOk result (λ code. code.items ≡ code_along [] (reverse ops.items)) }
{
    let mut code = Vec::new(alloc);
    // Combinations whose second operand is not yet complete.
    let mut pending = Vec::new(alloc);
    while let Some(op) = ops.pop() {
        emit(op, &mut code, &mut pending)?;
    }
    Ok(code)
}

// Compiles the last of the remaining operations.
fn emit(
    op: SetOp,
    code: &mut Vec<CodeStep>,
    pending: &mut Vec<Combination>,
) -> Result<(), AllocError>
    ensures { IfOk result (λ done. (earlier : List SetOp)
        → code.new.items ++ code_along (reverse pending.new.items) earlier ≡ code.old.items
        ++ code_along (reverse pending.old.items) (op ∷ earlier)) }
{
    match op {
        SetOp::Combine(combination) => {
            code.push(CodeStep::Combine(combination))?;
            pending.push(combination)?;
            Ok(())
        }
        SetOp::Push(set) => {
            code.push(CodeStep::Test(set))?;
            match pending.pop() {
                Some(combination) => Ok(code.push(CodeStep::ShortCircuit(combination))?),
                None => Ok(()),
            }
        }
    }
}

// Membership of a file, by one pass over the code. The state is the number of enclosing
// combinations that are short-circuited, and the value of the last operand.
fn evaluate(code: &[CodeStep], file: RepoPath<'_>) -> bool
    ensures { result ≡ (pass_over (path_of file.entry) code.now (0, false)).1 }
{
    let mut pass = (0, false);
    let mut left = code.len();
    while left > 0 {
        left -= 1;
        pass = after_step(pass, &code[left], file);
    }
    pass.1
}

fn after_step(pass: (usize, bool), step: &CodeStep, file: RepoPath<'_>) -> (usize, bool)
    requires { pass.0 + 1 < 2 ^ 64 }
    ensures { result ≡ after_step (path_of file.entry) step.now pass.0 pass.1 }
{
    let (skipped, is_in) = pass;
    match step {
        CodeStep::Test(set) if skipped == 0 => (skipped, set.matches(file)),
        CodeStep::ShortCircuit(combination) if skipped > 0 || combination.is_decided_by(is_in) => {
            (skipped + 1, is_in)
        }
        CodeStep::Combine(combination) if skipped == 0 => (skipped, combination.with_second(is_in)),
        CodeStep::Combine(_) => (skipped - 1, is_in),
        _ => pass,
    }
}

impl Combination {
    // Whether the first operand determines the result.
    fn is_decided_by(self, first: bool) -> bool
        ensures { result ≡ is_decided_by self first }
    {
        match self {
            Combination::Union => first,
            Combination::Difference | Combination::Intersection => !first,
        }
    }

    // The result if the first operand does not determine it.
    fn with_second(self, second: bool) -> bool
        ensures { result ≡ with_second self second }
    {
        match self {
            Combination::Difference => !second,
            Combination::Union | Combination::Intersection => second,
        }
    }
}
