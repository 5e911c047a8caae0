//! Paths as strings, on Unix. All paths are UTF-8.
ghost use Rattle.std.specs.Prelude.{◌≡◌, IsOk, IfOk, MatchResult, string_bytes};
ghost use Rattle.std.specs.Option.{option_map};
ghost use Rattle.std.specs.Str.{IsUtf8};
ghost use Rattle.jj_files.specs.HomeExpansion.{expand_home};

use std::alloc::{AllocError, Global};
use std::path::PathBuf;
use thiserror::Error;

/// The error of bytes that are not UTF-8.
#[derive(Clone, Copy, Debug, PartialEq, Eq, Error)]
#[error("Invalid UTF-8 sequence")]
pub struct BadPathEncoding;

/// Returns the bytes of a path.
pub fn path_to_bytes(path: &str) -> &[u8]
    ensures { result.now ≡ path.now }
{
    path.as_bytes()
}

/// Converts bytes to a path. Returns an error if they are not UTF-8.
pub fn path_from_bytes(bytes: &[u8]) -> Result<&str, BadPathEncoding>
    ensures { MatchResult result
        (λ path. (path.now ≡ bytes.now) × IsUtf8 bytes.now) (λ e. ¬ (IsUtf8 bytes.now)) }
{
    match str::from_utf8(bytes) {
        Ok(path) => Ok(path),
        Err(_) => Err(BadPathEncoding),
    }
}

/// Returns the path with slashes as separators, which on Unix is the path itself.
pub fn slash_path(path: &str) -> &str
    ensures { result.now ≡ path.now }
{
    path
}

/// Replaces a leading `~/` by the home directory, if one is given. Returns a copy of any other
/// path.
pub fn expand_home_path(
    alloc: Global,
    path: &str,
    home_dir: Option<&str>,
) -> Result<String, AllocError>
    ensures { IfOk result (λ text. string_bytes text
        ≡ expand_home (option_map (λ home. home.now) home_dir.entry) path.now) }
{
    if let Some(home) = home_dir
        && let Some(rest) = path.strip_prefix("~/")
    {
        let mut below = PathBuf::from_str(alloc, home)?;
        below.push(rest)?;
        return Ok(below.into_string());
    }
    String::from_str(alloc, path)
}
