//! Joined repository paths.
ghost use Rattle.std.specs.Prelude.{◌≡◌, length, map, true, IfOk, MatchResult};
ghost use Rattle.jj_paths.specs.Names.{path_of};
ghost use Rattle.jj_paths.specs.Paths.{components};
ghost use Rattle.jj_core_c.specs.JoinedPaths.{AreJoinedPaths, ArePaths, IsPath, IsPathCause, paths_of};
ghost use Rattle.jj_core_c.specs.Pieces.{are_ends};

use crate::error::Error;
use crate::pieces::piece_at;
use jj_paths::repo_path::{InvalidNewRepoPathError, RepoPath};
use std::alloc::Global;

fn parse_path<'a>(alloc: Global, bytes: &'a [u8]) -> Result<RepoPath<'a>, Error>
    ensures { MatchResult result
        (λ path. (path_of path ≡ components bytes.now) × IsPath bytes.now)
        (IsPathCause (IsPath bytes.now)) }
{
    let Ok(text) = str::from_utf8(bytes) else {
        return Err(Error::Path);
    };
    match RepoPath::from_internal_string(alloc, text) {
        Ok(path) => Ok(path),
        Err(InvalidNewRepoPathError::Memory) => Err(Error::Memory),
        Err(InvalidNewRepoPathError::Invalid { value: _ }) => Err(Error::Path),
    }
}

// Parses each piece.
pub(crate) fn parse_paths<'a>(
    alloc: Global,
    bytes: &'a [u8],
    ends: &[usize],
) -> Result<Vec<RepoPath<'a>>, Error>
    requires { are_ends (length bytes.now) ends.now ≡ true }
    ensures paths { MatchResult result
        (λ paths. (map path_of paths.items ≡ paths_of bytes.now ends.now)
        × ArePaths bytes.now ends.now)
        (IsPathCause (ArePaths bytes.now ends.now)) }
    ensures len { IfOk result (λ paths. length paths.items ≡ length ends.now) }
{
    let mut paths = Vec::with_capacity(alloc, ends.len())?;
    for index in 0..ends.len() {
        let path = parse_path(alloc, piece_at(bytes, ends, index))?;
        paths.push(path)?;
    }
    Ok(paths)
}
