//! Operator-precedence parser (shunting-yard) from tokens to a postfix program.
ghost use Rattle.std.specs.Prelude.{◌≡◌, true, false, [], ◌∷◌, Ok, reverse, OnOk, IfOk};
ghost use Rattle.jj_filesets.specs.Strings.{IsResultOf};
ghost use Rattle.jj_filesets.specs.Parsing.{before, state_of, after_operand, after_bar, unwound, after_token, after_end, parsed_after};

use crate::fileset::error::{FilesetParseError, FilesetParseErrorKind};
use crate::fileset::program::{Operator, Step};
use crate::fileset::token::{Lexeme, Token};
use std::alloc::{AllocError, Global};

// An operator whose last operand is not complete, or an open group with its offset.
#[derive(Clone, Copy)]
pub(crate) enum Pending {
    Group(usize),
    Operator(Operator),
}

// The state between two tokens. `pending` is a stack; `after_operand` is whether an operand is
// complete, so that an operator may follow.
#[derive(Drop)]
pub(crate) struct Parser {
    pending: Vec<Pending>,
    program: Vec<Step>,
    after_operand: bool,
}

// Parses the tokens of an expression of this length in bytes.
pub(crate) fn parse_tokens(
    alloc: Global,
    len: usize,
    lexemes: Vec<Lexeme>,
) -> Result<Vec<Step>, FilesetParseError>
    ensures { IsResultOf (λ program. program.items) result
        (parsed_after len (Ok (before [] [])) lexemes.items) }
{
    let mut parser = Parser::new(alloc);
    for lexeme in lexemes {
        parser.take(lexeme)?;
    }
    parser.finish(len)
}

impl Parser {
    fn new(alloc: Global) -> Parser
        ensures { state_of result ≡ before [] [] }
    {
        Parser {
            pending: Vec::new(alloc),
            program: Vec::new(alloc),
            after_operand: false,
        }
    }

    fn take(&mut self, lexeme: Lexeme) -> Result<(), FilesetParseError>
        ensures { IsResultOf (λ done. state_of self.new) result
            (after_token (state_of self.old) lexeme.at lexeme.token) }
    {
        let Lexeme { at, token } = lexeme;
        if self.after_operand {
            self.take_operator(at, token)
        } else {
            self.take_operand(at, token)
        }
    }

    // Takes a token where an operand is expected.
    fn take_operand(&mut self, at: usize, token: Token) -> Result<(), FilesetParseError>
        requires { self.old.after_operand ≡ false }
        ensures { IsResultOf (λ done. state_of self.new) result
            (after_token (state_of self.old) at token) }
    {
        match token {
            Token::Operand(pattern) => {
                self.program.push(Step::Push(pattern))?;
                self.finish_operand()?;
            }
            Token::Tilde => self.pending.push(Pending::Operator(Operator::Complement))?,
            Token::Open => self.pending.push(Pending::Group(at))?,
            Token::Close | Token::Bar | Token::Ampersand => {
                return Err(FilesetParseError::new(at, FilesetParseErrorKind::ExpectedOperand));
            }
        }
        Ok(())
    }

    // Takes a token after an operand.
    fn take_operator(&mut self, at: usize, token: Token) -> Result<(), FilesetParseError>
        requires { self.old.after_operand ≡ true }
        ensures { IsResultOf (λ done. state_of self.new) result
            (after_token (state_of self.old) at token) }
    {
        match token {
            Token::Ampersand => self.push_operator(Operator::Intersection)?,
            Token::Tilde => self.push_operator(Operator::Difference)?,
            Token::Bar => {
                self.finish_union()?;
                self.push_operator(Operator::Union)?;
            }
            Token::Close => {
                if self.close_group()?.is_none() {
                    return Err(FilesetParseError::new(
                        at,
                        FilesetParseErrorKind::UnopenedParenthesis,
                    ));
                }
                self.finish_operand()?;
            }
            Token::Operand(_) | Token::Open => {
                return Err(FilesetParseError::new(at, FilesetParseErrorKind::ExpectedOperator));
            }
        }
        Ok(())
    }

    fn push_operator(&mut self, operator: Operator) -> Result<(), AllocError>
        ensures { OnOk result (state_of self.new
            ≡ before (Pending.Operator operator ∷ reverse self.old.pending.items)
            self.old.program.items) }
    {
        self.pending.push(Pending::Operator(operator))?;
        self.after_operand = false;
        Ok(())
    }

    // Applies the operators that bind more strongly than a union to the operand that was completed.
    fn finish_operand(&mut self) -> Result<(), AllocError>
        ensures { OnOk result (state_of self.new
            ≡ after_operand (reverse self.old.pending.items) self.old.program.items) }
    {
        while let Some(pending) = self.pending.pop() {
            match pending {
                Pending::Group(_) | Pending::Operator(Operator::Union) => {
                    self.pending.push(pending)?;
                    break;
                }
                Pending::Operator(operator) => self.program.push(Step::Apply(operator))?,
            }
        }
        self.after_operand = true;
        Ok(())
    }

    // Applies a union whose second operand is complete.
    fn finish_union(&mut self) -> Result<(), AllocError>
        ensures { OnOk result (before
            (Pending.Operator Operator.Union ∷ reverse self.new.pending.items)
            self.new.program.items
            ≡ after_bar (reverse self.old.pending.items) self.old.program.items) }
    {
        match self.pending.pop() {
            Some(Pending::Operator(Operator::Union)) => {
                self.program.push(Step::Apply(Operator::Union))?;
            }
            Some(pending) => self.pending.push(pending)?,
            None => {}
        }
        Ok(())
    }

    // Pops the innermost group and applies the operators within it. Returns the offset of the
    // group, or `None` if no group is open.
    fn close_group(&mut self) -> Result<Option<usize>, AllocError>
        ensures { IfOk result (λ found.
            unwound (reverse self.old.pending.items) self.old.program.items
            ≡ (found, reverse self.new.pending.items, self.new.program.items)) }
    {
        while let Some(pending) = self.pending.pop() {
            match pending {
                Pending::Group(at) => return Ok(Some(at)),
                Pending::Operator(operator) => self.program.push(Step::Apply(operator))?,
            }
        }
        Ok(None)
    }

    // Returns the program at the end of the tokens.
    fn finish(mut self, len: usize) -> Result<Vec<Step>, FilesetParseError>
        ensures { IsResultOf (λ program. program.items) result (after_end len (state_of self)) }
    {
        if !self.after_operand {
            return Err(FilesetParseError::new(len, FilesetParseErrorKind::ExpectedOperand));
        }
        if let Some(at) = self.close_group()? {
            return Err(FilesetParseError::new(at, FilesetParseErrorKind::UnclosedParenthesis));
        }
        let Parser {
            pending: _,
            program,
            after_operand: _,
        } = self;
        Ok(program)
    }
}
