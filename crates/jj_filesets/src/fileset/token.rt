//! Tokens of an expression.
use crate::fileset::FilePattern;

#[derive(Drop)]
pub(crate) enum Token {
    Open,
    Close,
    Bar,
    Ampersand,
    Tilde,
    Operand(FilePattern),
}

// A token and its offset in bytes.
#[derive(Drop)]
pub(crate) struct Lexeme {
    pub(crate) at: usize,
    pub(crate) token: Token,
}
