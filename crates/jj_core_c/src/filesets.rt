//! File sets: one call parses an expression and tests many paths.
ghost use Rattle.std.specs.Prelude.{◌≡◌, length, map, IfOk, MatchResult};
ghost use Rattle.jj_paths.specs.Names.{path_of};
ghost use Rattle.jj_filesets.specs.Expressions.{Spells};
ghost use Rattle.jj_core_c.specs.Buffers.{Fails};
ghost use Rattle.jj_core_c.specs.FilesetResults.{AreMembers, IsExpressionCause, IsFilesetCause, WritesMembers};
ghost use Rattle.jj_core_c.specs.JoinedPaths.{AreJoinedPaths, paths_of};
ghost use Rattle.jj_core_c.specs.Statuses.{Accepts, Returns};

use crate::buffers::write_flags;
use crate::error::{Error, status_of};
use crate::paths::parse_paths;
use crate::pieces::are_ends;
use jj_filesets::fileset::{FilesetExpression, FilesetParseError};
use jj_paths::repo_path::RepoPath;
use std::alloc::{AllocError, Global};

fn parse_expression(alloc: Global, expression: &[u8]) -> Result<FilesetExpression, Error>
    ensures { MatchResult result (Spells expression.now) (IsExpressionCause expression.now) }
{
    let Ok(text) = str::from_utf8(expression) else {
        return Err(Error::Expression);
    };
    match FilesetExpression::parse(alloc, text) {
        Ok(set) => Ok(set),
        Err(FilesetParseError::Memory) => Err(Error::Memory),
        Err(FilesetParseError::Syntax { at: _, kind: _ }) => Err(Error::Expression),
    }
}

// Returns whether each path is in the set.
fn members(
    alloc: Global,
    set: &FilesetExpression,
    paths: &[RepoPath<'_>],
) -> Result<Vec<bool>, AllocError>
    ensures members { IfOk result (λ flags.
        AreMembers set.now (map path_of paths.now) flags.items) }
    ensures len { IfOk result (λ flags. length flags.items ≡ length paths.now) }
{
    let mut flags = Vec::with_capacity(alloc, paths.len())?;
    for path in paths {
        let flag = set.contains(alloc, *path)?;
        flags.push(flag)?;
    }
    Ok(flags)
}

fn fileset_matches(
    alloc: Global,
    expression: &[u8],
    bytes: &[u8],
    ends: &[usize],
    matches: &mut [bool],
) -> Result<usize, Error>
    ensures { MatchResult result
        (Accepts (AreJoinedPaths bytes.now ends.now)
        (WritesMembers expression.now (paths_of bytes.now ends.now) matches.old matches.new))
        (Fails matches.old matches.new
        (IsFilesetCause expression.now bytes.now ends.now (length matches.old))) }
{
    if !are_ends(bytes.len(), ends) {
        return Err(Error::Ends);
    }
    if matches.len() < ends.len() {
        return Err(Error::Length);
    }
    let set = parse_expression(alloc, expression)?;
    let paths = parse_paths(alloc, bytes, ends)?;
    let flags = members(alloc, &set, &paths)?;
    Ok(write_flags(matches, &flags))
}

/// Parses an expression once, and writes whether each path is in the set that it means. Returns
/// their number. O(bytes · length of the expression).
///
/// Errors: `Ends`, `Length`, `Expression`, `Path`, `Memory`.
#[unsafe(no_mangle)]
pub extern "C" fn jj_fileset_matches(
    alloc: Global,
    expression: &[u8],
    bytes: &[u8],
    ends: &[usize],
    matches: &mut [bool],
) -> i64
    ensures { Returns result
        (Accepts (AreJoinedPaths bytes.now ends.now)
        (WritesMembers expression.now (paths_of bytes.now ends.now) matches.old matches.new))
        (Fails matches.old matches.new
        (IsFilesetCause expression.now bytes.now ends.now (length matches.old))) }
{
    status_of(fileset_matches(alloc, expression, bytes, ends, matches))
}
