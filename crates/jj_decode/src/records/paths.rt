//! Decoding of path components and paths. A string that is none is malformed.
ghost use Rattle.std.specs.Prelude.{◌≡◌, ℕ, ◌<◌, ◌≤◌, ◌^◌, List, length, ◌++◌, IfOk, IfErr};
ghost use Rattle.jj_content.specs.Content.{string_content};
ghost use Rattle.jj_decode.specs.Contents.{AreContents, IsContentOf};
ghost use Rattle.jj_decode.specs.Decoding.{IsContentAt, IsMalformedAt};
ghost use Rattle.jj_decode.specs.declared.error.DecodeError.TheVariants.{Malformed};
ghost use Rattle.jj_decode.specs.declared.error.Malformation.TheVariants.{InvalidValue};
ghost use Rattle.jj_paths.specs.Contents.{IsShortName, IsPathText};
ghost use Rattle.jj_decode.specs.PathContents.{name_contents, path_contents};
ghost use Rattle.jj_decode.specs.Errors.{TextErrors};

use crate::error::DecodeError;
use crate::read_content::ReadContent;
use jj_paths::repo_path::{InvalidNewRepoPathError, RepoPathBuf, RepoPathComponentBuf};
use std::alloc::Global;

// The error for a string at `start` that a constructor rejected.
fn path_error(start: usize, _error: InvalidNewRepoPathError) -> DecodeError
    ensures { result ≡ Malformed InvalidValue start }
{
    DecodeError::invalid_value(start)
}

impl ReadContent for RepoPathComponentBuf {
    ghost is_content = { IsContentOf IsShortName string_content };

    ghost errors = { TextErrors IsShortName };

    ghost contents = { name_contents };

    fn read(alloc: Global, bytes: &[u8], start: usize) -> Result<(Self, usize), DecodeError> {
        let (text, end) = String::read(alloc, bytes, start)?;
        match RepoPathComponentBuf::new(text) {
            Ok(name) => Ok((name, end)),
            Err(error) => Err(path_error(start, error)),
        }
    }
}

impl ReadContent for RepoPathBuf {
    ghost is_content = { IsContentOf IsPathText string_content };

    ghost errors = { TextErrors IsPathText };

    ghost contents = { path_contents };

    fn read(alloc: Global, bytes: &[u8], start: usize) -> Result<(Self, usize), DecodeError> {
        let (text, end) = String::read(alloc, bytes, start)?;
        match RepoPathBuf::from_internal_string(text) {
            Ok(path) => Ok((path, end)),
            Err(error) => Err(path_error(start, error)),
        }
    }
}
