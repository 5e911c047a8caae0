//! Evaluation of postfix programs on an operand stack.
ghost use Rattle.std.specs.Prelude.{◌≡◌, ◌≢◌, ◌↔◌, List, [], Contains, IsTrue, map, reverse, IfOk, OnOk};
ghost use Rattle.jj_paths.specs.Names.{path_of};
ghost use Rattle.jj_paths.specs.Paths.{Path};
ghost use Rattle.jj_filesets.specs.SyntaxTrees.{SyntaxTree, IsIn};
ghost use Rattle.jj_filesets.specs.Programs.{Decide, applied_values, combined, performed};
ghost use Rattle.jj_filesets.specs.Selection.{IsSelected, IsFileIn};

use crate::fileset::FilesetExpression;
use crate::fileset::program::{Operator, Step};
use jj_paths::repo_path::RepoPath;
use std::alloc::{AllocError, Global};

/// Returns the files of the list that are in the set, without the root, in the order of the list.
/// A file takes one step for each pattern and operator, besides the matching of the patterns. All
/// files share one operand stack.
pub fn files_in<'a>(
    alloc: Global,
    files: &[RepoPath<'a>],
    expression: &FilesetExpression,
) -> Result<Vec<RepoPath<'a>>, AllocError>
    // A path is in the result exactly if it is in the list and in the set, and is not the root.
    ensures members { IfOk result (λ found. (path : Path) → Contains (map path_of found.items) path
        ↔ (Contains (map path_of files.now) path × (path ≢ []) × IsIn expression.now path)) }
    // The result has the order of the list.
    ensures ordered { IfOk result (λ found. IsSelected (IsFileIn expression.now)
        (map path_of files.now) (map path_of found.items)) }
{
    let mut found = Vec::new(alloc);
    let mut stack = Vec::new(alloc);
    for file in files {
        if is_file_in(*file, expression, &mut stack)? {
            found.push(*file)?;
        }
    }
    Ok(found)
}

// Whether the file is in the set and not the root. The stack is cleared.
pub(crate) fn is_file_in(
    file: RepoPath<'_>,
    expression: &FilesetExpression,
    stack: &mut Vec<bool>,
) -> Result<bool, AllocError>
    ensures { IfOk result (λ yes. IsTrue yes ↔ IsFileIn expression.now (path_of file.entry)) }
{
    if file.is_root() {
        return Ok(false);
    }
    expression.evaluate(file, stack)
}

impl FilesetExpression {
    /// Returns whether the path is in the set.
    pub fn contains(&self, alloc: Global, path: RepoPath<'_>) -> Result<bool, AllocError>
        ensures { IfOk result (λ yes. IsTrue yes ↔ IsIn self.now (path_of path.entry)) }
    {
        let mut stack = Vec::new(alloc);
        self.evaluate(path, &mut stack)
    }

    // Clears the stack and runs the program on it, so that many paths can share its memory.
    fn evaluate(&self, path: RepoPath<'_>, stack: &mut Vec<bool>) -> Result<bool, AllocError>
        ensures { IfOk result (λ yes. IsTrue yes ↔ IsIn self.now (path_of path.entry)) }
    {
        stack.clear();
        let mut rest = self.steps();
        while let Some((step, after)) = rest.split_first() {
            perform(step, path, stack)?;
            rest = after;
        }
        Ok(stack.pop().unwrap_or(false))
    }
}

// Performs one step on the values of the operands.
fn perform(step: &Step, path: RepoPath<'_>, stack: &mut Vec<bool>) -> Result<(), AllocError>
    ensures { OnOk result ((sets : List SyntaxTree)
        → Decide (path_of path.entry) sets (reverse stack.old.items)
        → Decide (path_of path.entry) (performed step.now sets) (reverse stack.new.items)) }
{
    match step {
        Step::Push(pattern) => {
            stack.push(pattern.matches(path))?;
            Ok(())
        }
        Step::Apply(operator) => apply(*operator, stack),
    }
}

// Replaces the topmost values by the result of the operator.
fn apply(operator: Operator, stack: &mut Vec<bool>) -> Result<(), AllocError>
    ensures { OnOk result (reverse stack.new.items
        ≡ applied_values operator (reverse stack.old.items)) }
{
    let Some(last) = stack.pop() else {
        return Ok(());
    };
    if operator == Operator::Complement {
        stack.push(!last)?;
        return Ok(());
    }
    let Some(first) = stack.pop() else {
        return Ok(());
    };
    stack.push(combined(operator, first, last))?;
    Ok(())
}

fn combined(operator: Operator, first: bool, last: bool) -> bool
    ensures { result ≡ combined operator first last }
{
    match operator {
        Operator::Union => first || last,
        Operator::Intersection => first && last,
        Operator::Difference | Operator::Complement => first && !last,
    }
}
