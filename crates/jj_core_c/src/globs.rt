//! Globs: one call parses a glob and matches it against many byte strings.
ghost use Rattle.std.specs.Prelude.{◌≡◌, ◌≤◌, length, true, IfOk, MatchResult};
ghost use Rattle.jj_globs.specs.GlobParsing.{glob_spec};
ghost use Rattle.jj_core_c.specs.Buffers.{Fails};
ghost use Rattle.jj_core_c.specs.GlobResults.{IsGlobCause, IsParseCause, IsValidCall, IsWellFormed, WritesMatches};
ghost use Rattle.jj_core_c.specs.Pieces.{are_ends, pieces_of};
ghost use Rattle.jj_core_c.specs.Statuses.{Accepts, Returns};

use crate::error::{Error, status_of};
use crate::pieces::{are_ends, piece_at};
use jj_globs::glob::{Glob, GlobError};
use std::alloc::Global;

fn parse_glob(alloc: Global, glob: &[u8], separator: bool, icase: bool) -> Result<Glob, Error>
    ensures { MatchResult result (λ parsed. (parsed ≡ glob_spec glob.now separator icase)
        × IsWellFormed glob.now)
        (IsParseCause glob.now) }
{
    let Ok(text) = str::from_utf8(glob) else {
        return Err(Error::Syntax);
    };
    match Glob::parse(alloc, text, separator, icase) {
        Ok(glob) => Ok(glob),
        Err(GlobError::Memory) => Err(Error::Memory),
        Err(_) => Err(Error::Syntax),
    }
}

// Writes whether the glob matches each piece.
fn write_matches(glob: &Glob, bytes: &[u8], ends: &[usize], matches: &mut [bool])
    requires divided { are_ends (length bytes.now) ends.now ≡ true }
    requires room { length ends.now ≤ length matches.old }
    ensures { WritesMatches glob.now (pieces_of bytes.now ends.now) matches.old matches.new
        (length ends.now) }
{
    for index in 0..ends.len() {
        matches[index] = glob.is_match(piece_at(bytes, ends, index));
    }
}

fn glob_matches(
    alloc: Global,
    glob: &[u8],
    separator: bool,
    icase: bool,
    bytes: &[u8],
    ends: &[usize],
    matches: &mut [bool],
) -> Result<usize, Error>
    ensures count { IfOk result (λ n. n ≡ length ends.now) }
    ensures outcome { MatchResult result
        (Accepts (IsValidCall glob.now (length bytes.now) ends.now)
        (WritesMatches (glob_spec glob.now separator icase) (pieces_of bytes.now ends.now)
        matches.old matches.new))
        (Fails matches.old matches.new
        (IsGlobCause glob.now (length bytes.now) ends.now (length matches.old))) }
{
    if !are_ends(bytes.len(), ends) {
        return Err(Error::Ends);
    }
    if matches.len() < ends.len() {
        return Err(Error::Length);
    }
    match parse_glob(alloc, glob, separator, icase) {
        Ok(parsed) => {
            write_matches(&parsed, bytes, ends, matches);
            Ok(ends.len())
        }
        Err(error) => Err(error),
    }
}

/// Parses a glob once, and writes whether it matches each byte string. Returns their number. With
/// `separator`, `?` and `*` do not match `/`; with `icase`, ASCII letters match in either case.
///
/// Errors: `Ends`, `Length`, `Syntax`, `Memory`.
#[unsafe(no_mangle)]
pub extern "C" fn jj_glob_matches(
    alloc: Global,
    glob: &[u8],
    separator: bool,
    icase: bool,
    bytes: &[u8],
    ends: &[usize],
    matches: &mut [bool],
) -> i64
    ensures { Returns result
        (Accepts (IsValidCall glob.now (length bytes.now) ends.now)
        (WritesMatches (glob_spec glob.now separator icase) (pieces_of bytes.now ends.now)
        matches.old matches.new))
        (Fails matches.old matches.new
        (IsGlobCause glob.now (length bytes.now) ends.now (length matches.old))) }
{
    status_of(glob_matches(alloc, glob, separator, icase, bytes, ends, matches))
}
