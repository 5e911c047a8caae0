//! Postfix programs, the compiled form of expressions.
ghost use Rattle.std.specs.Prelude.{◌≡◌, IfOk, IfErr};
ghost use Rattle.jj_filesets.specs.SyntaxTrees.{SyntaxTree};
ghost use Rattle.jj_filesets.specs.Programs.{postfix, tree_of};
ghost use Rattle.jj_filesets.specs.Expressions.{Spells, IsUnspelled, IsParseError};

use crate::fileset::FilePattern;
use crate::fileset::error::FilesetParseError;
use crate::fileset::lexer::tokenize;
use crate::fileset::parser::parse_tokens;
use std::alloc::Global;
use std::marker::Model;

// An operator. The first operand of a binary one is the one that was pushed first.
#[derive(Clone, Copy, Debug, PartialEq, Eq)]
pub(crate) enum Operator {
    Complement,
    Intersection,
    Difference,
    Union,
}

// An instruction: pushes the value of a pattern, or applies an operator to the topmost values.
#[derive(Drop)]
pub(crate) enum Step {
    Push(FilePattern),
    Apply(Operator),
}

/// A set of files: a parsed expression. Contracts see its syntax tree. Nothing recurses, however
/// deep the expression nests.
#[derive(Drop)]
pub struct FilesetExpression {
    program: Vec<Step>,
}

impl Model for FilesetExpression {
    ghost use Rattle.jj_filesets.specs.SyntaxTrees.{SyntaxTree};
    ghost use Rattle.jj_filesets.specs.Programs.{tree_of, tree_code, IsProgram};
    ghost use Rattle.jj_filesets.specs.contracts.fileset.program.Step as s;

    ghost Value = { SyntaxTree };

    ghost coded = { tree_code s.the_row.coded };

    ghost view = { λ e. tree_of e.program.items };

    ghost invariant = { λ e. IsProgram e.program.items };
}

impl FilesetExpression {
    /// Parses an expression. The time is linear in the string, besides the compilation of globs.
    ///
    /// Fails at the first token that cannot be read; else at the first token at which no expression
    /// goes on, or at the innermost parenthesis that is not closed; and with `Memory` if memory
    /// runs out or a glob is too long.
    pub fn parse(alloc: Global, text: &str) -> Result<FilesetExpression, FilesetParseError>
        // The string spells the syntax tree of the expression by the grammar.
        ensures spelled { IfOk result (Spells text.now) }
        // An error but `Memory` is returned only if the string spells no tree.
        ensures unspelled { IfErr result (IsUnspelled text.now) }
        // Its kind and offset are those of the first fault in the string.
        ensures cause { IfErr result (IsParseError text.now) }
    {
        let program = compile(alloc, text.as_bytes())?;
        Ok(FilesetExpression { program })
    }

    pub(super) fn steps(&self) -> &[Step]
        ensures program { result.now ≡ postfix self.now }
    {
        self.program.as_slice()
    }
}

// Compiles an expression to a postfix program.
fn compile(alloc: Global, text: &[u8]) -> Result<Vec<Step>, FilesetParseError>
    ensures spelled { IfOk result (λ program. (set : SyntaxTree) × Spells text.now set
        × (program.items ≡ postfix set)) }
    ensures unspelled { IfErr result (IsUnspelled text.now) }
    ensures cause { IfErr result (IsParseError text.now) }
{
    let lexemes = tokenize(alloc, text)?;
    parse_tokens(alloc, text.len(), lexemes)
}
