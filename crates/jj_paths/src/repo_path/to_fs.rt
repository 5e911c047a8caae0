//! Conversion of paths and components to file system paths and file names.
ghost use Rattle.std.specs.Prelude.{◌≡◌, ◌≢◌, ◌⊎◌, false, None, IsOk, IfOk, IfErr, string_bytes};
ghost use Rattle.std.specs.List.{find};
ghost use Rattle.std.specs.Path.{path_buf_bytes};
ghost use Rattle.jj_paths.specs.Names.{name_of, path_of};
ghost use Rattle.jj_files.specs.PathJoining.{join_all, fs_text, is_dots};
ghost use Rattle.jj_paths.specs.declared.repo_path.to_fs.InvalidRepoPathComponentError.{InvalidRepoPathComponentError};
ghost use Rattle.jj_paths.specs.declared.repo_path.to_fs.InvalidRepoPathError.{InvalidRepoPathError};

use super::{RepoPath, RepoPathBuf, RepoPathComponent};
use jj_files::fs_text::text_or_dot;
use std::alloc::{AllocError, AllocFailed, Global};
use std::path::PathBuf;
use thiserror::Error;

/// A component that is no file name, since the file system reserves it: `.` or `..`.
#[derive(Clone, Debug, PartialEq, Eq, Drop, Error)]
pub enum InvalidRepoPathComponentError {
    #[error(r#"Invalid path component "{component}""#)]
    Invalid { component: String },
    #[error("out of memory")]
    Memory,
}

impl From<AllocError> for InvalidRepoPathComponentError {
    ghost from_gives = { λ _ error. error ≡ InvalidRepoPathComponentError.Memory };

    fn from(_failure: AllocError) -> Self {
        InvalidRepoPathComponentError::Memory
    }
}

impl<T: Drop> From<AllocFailed<T>> for InvalidRepoPathComponentError {
    ghost from_gives = { λ _ error. error ≡ InvalidRepoPathComponentError.Memory };

    fn from(_failure: AllocFailed<T>) -> Self {
        InvalidRepoPathComponentError::Memory
    }
}

/// A path with a component that is no file name.
#[derive(Clone, Debug, PartialEq, Eq, Drop, Error)]
pub enum InvalidRepoPathError {
    #[error(r#"Invalid repository path "{}""#, .path.as_path().as_internal_file_string())]
    Invalid {
        path: RepoPathBuf,
        source: InvalidRepoPathComponentError,
    },
    #[error("out of memory")]
    Memory,
}

impl From<AllocError> for InvalidRepoPathError {
    ghost from_gives = { λ _ error. error ≡ InvalidRepoPathError.Memory };

    fn from(_failure: AllocError) -> Self {
        InvalidRepoPathError::Memory
    }
}

impl<T: Drop> From<AllocFailed<T>> for InvalidRepoPathError {
    ghost from_gives = { λ _ error. error ≡ InvalidRepoPathError.Memory };

    fn from(_failure: AllocFailed<T>) -> Self {
        InvalidRepoPathError::Memory
    }
}

impl InvalidRepoPathComponentError {
    ghost use Rattle.jj_paths.specs.FsPathErrors.{ContainsName, AddsPath};
    ghost use Rattle.jj_paths.specs.declared.repo_path.to_fs.InvalidRepoPathComponentError.TheVariants.{Memory};

    fn for_name(alloc: Global, name: &str) -> InvalidRepoPathComponentError
        ensures { (result ≡ Memory) ⊎ ContainsName name.now result }
    {
        match String::from_str(alloc, name) {
            Ok(component) => InvalidRepoPathComponentError::Invalid { component },
            Err(_) => InvalidRepoPathComponentError::Memory,
        }
    }

    /// Adds the path that contains the component. Returns `Memory` if this error is `Memory`, or
    /// if the path cannot be copied.
    pub fn with_path(self, alloc: Global, path: RepoPath<'_>) -> InvalidRepoPathError
        ensures { AddsPath (path_of path.entry) self result }
    {
        if let InvalidRepoPathComponentError::Memory = self {
            return InvalidRepoPathError::Memory;
        }
        match path.to_owned(alloc) {
            Ok(path) => InvalidRepoPathError::Invalid { path, source: self },
            Err(_) => InvalidRepoPathError::Memory,
        }
    }
}

impl<'a> RepoPathComponent<'a> {
    ghost use Rattle.jj_paths.specs.FsPathErrors.{IsNameError};

    /// Returns the component as a file name, or `Invalid` for `.` and `..`. Allocates only for the
    /// error.
    pub fn to_fs_name(self, alloc: Global) -> Result<&'a str, InvalidRepoPathComponentError>
        ensures ok { IfOk result (λ name.
            (name.now ≡ name_of self.entry) × (is_dots (name_of self.entry) ≡ false)) }
        ensures valid { is_dots (name_of self.entry) ≡ false → IsOk result }
        ensures error { IfErr result (IsNameError (name_of self.entry)) }
    {
        let name = self.as_internal_str();
        if name == "." || name == ".." {
            Err(InvalidRepoPathComponentError::for_name(alloc, name))
        } else {
            Ok(name)
        }
    }
}

impl<'a> RepoPath<'a> {
    ghost use Rattle.jj_paths.specs.FsPathErrors.{IsPathError};

    /// Appends the path to the directory `base` of the file system. Returns `Invalid` with the
    /// first component that is `.` or `..`. An empty result becomes `.`.
    pub fn to_fs_path(self, alloc: Global, base: &str) -> Result<String, InvalidRepoPathError>
        ensures ok { IfOk result (λ text. (string_bytes text
            ≡ fs_text base.now (path_of self.entry))
            × (find is_dots (path_of self.entry) ≡ None)) }
        ensures error { IfErr result (IsPathError (path_of self.entry)) }
    {
        let mut path = self.base_with_capacity(alloc, base)?;
        for name in self.components() {
            match name.to_fs_name(alloc) {
                Ok(name) => path.push(name)?,
                Err(error) => return Err(error.with_path(alloc, self)),
            }
        }
        Ok(text_or_dot(path)?)
    }

    /// Appends the path to the directory `base` of the file system, without checking its
    /// components: `..` may lead out of the directory. An empty result becomes `.`.
    pub fn to_fs_path_unchecked(self, alloc: Global, base: &str) -> Result<String, AllocError>
        ensures { IfOk result (λ text. string_bytes text ≡ fs_text base.now (path_of self.entry)) }
    {
        let mut path = self.base_with_capacity(alloc, base)?;
        for name in self.components() {
            path.push(name.as_internal_str())?;
        }
        text_or_dot(path)
    }

    // Returns a copy of `base`, with capacity for this path.
    fn base_with_capacity(self, alloc: Global, base: &str) -> Result<PathBuf, AllocError>
        ensures { IfOk result (λ path. path_buf_bytes path ≡ base.now) }
    {
        let more = self.as_internal_file_string().len().saturating_add(1);
        let mut path = PathBuf::with_capacity(alloc, base.len().saturating_add(more))?;
        path.push(base)?;
        Ok(path)
    }
}
