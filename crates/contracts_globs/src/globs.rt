//! Callers of `jj_globs`.
ghost use Rattle.std.specs.Prelude.{◌↔◌, false, IfErr, IfOk, IsTrue, string_bytes};
ghost use Rattle.jj_globs.specs.GlobEscape.{MatchesOnly};
ghost use Rattle.jj_globs.specs.GlobMeaning.{IsMatch};
ghost use Rattle.jj_globs.specs.GlobParsing.{IsGlobParseError, glob_spec};
ghost use Rattle.jj_globs.specs.GlobSyntax.{tokens_of};

use jj_globs::glob::{self, Glob, GlobError};
use std::alloc::{AllocError, Global};

/// `Glob::parse` and `Glob::is_match`.
pub fn is_match(
    alloc: Global,
    pattern: &str,
    separator: bool,
    bytes: &[u8],
) -> Result<bool, GlobError>
    ensures matched { IfOk result (λ yes. IsTrue yes
        ↔ IsMatch (glob_spec pattern.now separator false) bytes.now) }
    ensures error { IfErr result (λ error. IsGlobParseError error (tokens_of pattern.now)) }
{
    let glob = Glob::parse(alloc, pattern, separator, false)?;
    Ok(glob.is_match(bytes))
}

/// `escape`.
pub fn escape(alloc: Global, text: &str) -> Result<String, AllocError>
    ensures { IfOk result (λ glob. MatchesOnly (string_bytes glob) text.now) }
{
    glob::escape(alloc, text)
}
