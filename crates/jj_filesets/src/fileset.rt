//! Expressions for sets of files: parsed to postfix programs, evaluated on an operand stack.

mod error;
mod evaluator;
mod lexer;
mod operand;
mod parser;
mod pattern;
mod program;
mod quoting;
mod token;

pub use error::{FilesetParseError, FilesetParseErrorKind};
pub use evaluator::files_in;
pub(crate) use evaluator::is_file_in;
pub use pattern::FilePattern;
pub use program::FilesetExpression;
