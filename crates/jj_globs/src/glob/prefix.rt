//! Literal prefix of a glob: bytes with which every match begins.
ghost use Rattle.std.specs.Prelude.{◌≡◌, IfOk};
ghost use Rattle.jj_globs.specs.GlobPrefix.{prefix_of_tokens};

use crate::glob::token::{Options, Part, Token};
use std::alloc::{AllocError, Global};

// Collects the literal bytes before the first other token. There are none with `icase`, since a
// letter then matches two bytes.
pub(crate) fn prefix_of_tokens(
    alloc: Global,
    tokens: &[Token],
    options: Options,
) -> Result<Vec<u8>, AllocError>
    ensures { IfOk result (λ prefix. prefix.items ≡ prefix_of_tokens options tokens.now) }
{
    let mut prefix = Vec::new(alloc);
    if options.icase {
        return Ok(prefix);
    }
    let mut left = tokens;
    while let Some((Token::Part(Part::Byte(byte)), after)) = left.split_first() {
        prefix.push(*byte)?;
        left = after;
    }
    Ok(prefix)
}
