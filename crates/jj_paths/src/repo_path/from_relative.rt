//! Parser of relative file system paths, which are byte strings, into repository paths.
ghost use Rattle.std.specs.Prelude.{◌≡◌, ◌<◌, ◌==◌, ◌++◌, ℕ, List, [], ◌∷◌, Some, None, true, false, OnOk, IfOk, IfErr, length, slice_index, string_bytes};
ghost use Rattle.std.specs.List.{filter, find};
ghost use Rattle.std.specs.Str.{is_utf8};
ghost use Rattle.std.specs.Iterator.{YieldsFirstRef, item_count};
ghost use Rattle.std.specs.Path.{slash, is_name, is_dot_at, path_names};
ghost use Rattle.jj_paths.specs.AppendedNames.{append_name};
ghost use Rattle.jj_files.specs.PathJoining.{is_special_component};
ghost use Rattle.jj_paths.specs.RelativePaths.{IsParseError, is_disallowed, relative_components};
ghost use Rattle.jj_paths.specs.declared.repo_path.from_relative.RelativePathParseError.{RelativePathParseError};

use super::RepoPathBuf;
use std::alloc::{AllocError, AllocFailed, Global};
use std::error::Error;
use std::fmt;

/// A file system path that is no repository path: one that is absolute, has a component `.` or
/// `..`, or is not UTF-8.
#[derive(Clone, Debug, PartialEq, Eq, Drop)]
pub enum RelativePathParseError {
    /// The path has this component, which is `/`, `.` or `..`.
    InvalidComponent { component: String, path: Vec<u8> },
    InvalidUtf8 { path: Vec<u8> },
    Memory,
}

impl From<AllocError> for RelativePathParseError {
    ghost from_gives = { λ _ error. error ≡ RelativePathParseError.Memory };

    fn from(_failure: AllocError) -> Self {
        RelativePathParseError::Memory
    }
}

impl<T: Drop> From<AllocFailed<T>> for RelativePathParseError {
    ghost from_gives = { λ _ error. error ≡ RelativePathParseError.Memory };

    fn from(_failure: AllocFailed<T>) -> Self {
        RelativePathParseError::Memory
    }
}

// A byte string displayed lossily, with U+FFFD for each invalid UTF-8 sequence.
#[derive(Clone, Copy)]
struct LossyDisplay<'a>(&'a [u8]);

impl fmt::Display for LossyDisplay<'_> {
    fn fmt<W: fmt::Write>(&self, f: &mut fmt::Formatter<W>) -> fmt::Result {
        for chunk in self.0.utf8_chunks() {
            f.write_str(chunk.valid())?;
            if !chunk.invalid().is_empty() {
                f.write_char(char::REPLACEMENT_CHARACTER)?;
            }
        }
        Ok(())
    }
}

impl fmt::Display for RelativePathParseError {
    fn fmt<W: fmt::Write>(&self, f: &mut fmt::Formatter<W>) -> fmt::Result {
        match self {
            RelativePathParseError::InvalidComponent { component, path } => {
                let path = LossyDisplay(path.as_slice());
                write!(
                    f,
                    "Invalid component \"{component}\" in repo-relative path \"{path}\""
                )
            }
            RelativePathParseError::InvalidUtf8 { path } => {
                let path = LossyDisplay(path.as_slice());
                write!(f, "Not valid UTF-8 path \"{path}\"")
            }
            RelativePathParseError::Memory => f.write_str("out of memory"),
        }
    }
}

impl Error for RelativePathParseError {}

// Without a slash, the second part is empty.
fn split_at_slash(path: &[u8]) -> (&[u8], &[u8])
    ensures names { path_names path.now
        ≡ filter is_name (result.0.now ∷ []) ++ path_names result.1.now }
    ensures shorter { 0 < length path.now → length result.1.now < length path.now }
{
    for (i, b) in path.iter().enumerate() {
        if *b == b'/' {
            return (&path[..i], &path[i + 1..]);
        }
    }
    (path, &path[path.len()..])
}

// Iterates over the components, `..` included, and skips empty ones and `.`.
#[derive(Drop)]
struct FsComponents<'a> {
    rest: &'a [u8],
}

impl<'a> Iterator for FsComponents<'a> {
    ghost use Rattle.jj_paths.specs.FsComponents.{remaining_names};

    type Item = &'a [u8];

    ghost next_gives = { YieldsFirstRef remaining_names };

    ghost remaining = { item_count remaining_names };

    fn next(&mut self) -> Option<&'a [u8]> {
        while !self.rest.is_empty() {
            let (part, rest) = split_at_slash(self.rest);
            self.rest = rest;
            if is_name(part) {
                return Some(part);
            }
        }
        None
    }
}

fn is_name(part: &[u8]) -> bool
    ensures { result ≡ is_name part.now }
{
    !part.is_empty() && part != b".".as_slice()
}

fn is_absolute(path: &[u8]) -> bool
    ensures { result ≡ (slice_index path.now 0 == slash) }
{
    !path.is_empty() && path[0] == b'/'
}

fn starts_at_dot(path: &[u8]) -> bool
    ensures { result ≡ is_dot_at path.now 0 }
{
    !path.is_empty() && path[0] == b'.' && (path.len() == 1 || path[1] == b'/')
}

impl RelativePathParseError {
    fn for_component(alloc: Global, name: &str, path: &[u8]) -> RelativePathParseError
        requires { is_special_component name.now ≡ true }
        ensures { IsParseError path.now (Some name.now) result }
    {
        let Ok(component) = String::from_str(alloc, name) else {
            return RelativePathParseError::Memory;
        };
        match Vec::from_slice(alloc, path) {
            Ok(path) => RelativePathParseError::InvalidComponent { component, path },
            Err(_) => RelativePathParseError::Memory,
        }
    }

    fn not_utf8(alloc: Global, path: &[u8]) -> RelativePathParseError
        ensures { (name : List ℕ) → is_utf8 name ≡ false →
            IsParseError path.now (Some name) result }
    {
        match Vec::from_slice(alloc, path) {
            Ok(path) => RelativePathParseError::InvalidUtf8 { path },
            Err(_) => RelativePathParseError::Memory,
        }
    }
}

impl RepoPathBuf {
    /// Parses a relative path of the file system. Empty components and inner `.` are skipped, as
    /// by the standard library, so `a//./b` is `a/b`; the empty path and `.` are the root. Returns
    /// `InvalidComponent` for a leading `/`, for a leading `.` before further components and for
    /// `..`, and `InvalidUtf8` for a component that is not UTF-8, whichever component is first.
    pub fn from_relative_path(
        alloc: Global,
        path: &[u8],
    ) -> Result<RepoPathBuf, RelativePathParseError>
        ensures ok { IfOk result (λ made. (made ≡ relative_components path.now)
            × (find is_disallowed (relative_components path.now) ≡ None)) }
        ensures error { IfErr result
            (IsParseError path.now (find is_disallowed (relative_components path.now))) }
    {
        if is_absolute(path) {
            return Err(RelativePathParseError::for_component(alloc, "/", path));
        }
        if !starts_at_dot(path) {
            return join_components(alloc, path);
        }
        match (FsComponents { rest: path }).next() {
            None => Ok(RepoPathBuf::root(alloc)),
            Some(_name) => Err(RelativePathParseError::for_component(alloc, ".", path)),
        }
    }
}

// Joins the components of a path without a leading `/` or `.`.
fn join_components(alloc: Global, path: &[u8]) -> Result<RepoPathBuf, RelativePathParseError>
    ensures ok { IfOk result (λ made. (made ≡ path_names path.now)
        × (find is_disallowed (path_names path.now) ≡ None)) }
    ensures error { IfErr result
        (IsParseError path.now (find is_disallowed (path_names path.now))) }
{
    let mut value = String::with_capacity(alloc, path.len())?;
    for name in (FsComponents { rest: path }) {
        if name == b"..".as_slice() {
            return Err(RelativePathParseError::for_component(alloc, "..", path));
        }
        let Ok(name) = str::from_utf8(name) else {
            return Err(RelativePathParseError::not_utf8(alloc, path));
        };
        push_component(&mut value, name)?;
    }
    Ok(RepoPathBuf { value })
}

fn push_component(text: &mut String, name: &str) -> Result<(), AllocError>
    ensures { OnOk result (string_bytes text.new ≡ append_name (string_bytes text.old) name.now) }
{
    if !text.is_empty() {
        text.push('/')?;
    }
    text.push_str(name)
}
