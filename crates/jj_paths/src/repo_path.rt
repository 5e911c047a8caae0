//! Repository paths: owned and borrowed slash-separated strings, relative to the repository root.
ghost use Rattle.std.specs.Prelude.{◌≡◌, ◌≢◌, ◌↔◌, false, [], ◌∷◌, ◌++◌, IsTrue, IsOk, IfOk, IfErr, MatchOption, string_bytes};
ghost use Rattle.jj_paths.specs.Paths.{Name, Path, is_name, is_path_string, components, path_string, rest_of};
ghost use Rattle.jj_paths.specs.declared.repo_path.InvalidNewRepoPathError.{InvalidNewRepoPathError};

mod content;
mod debug;
mod extend;
mod from_relative;
mod iter;
mod orders;
mod to_fs;

pub use crate::repo_path_tree::{
    RepoPathNode, RepoPathNodeWalk, RepoPathTree, RepoPathTreeChildren, RepoPathTreeWalk,
};
pub use from_relative::RelativePathParseError;
pub use iter::{RepoPathAncestors, RepoPathComponentsIter};
use std::alloc::{AllocError, AllocFailed, Global};
use std::marker::Model;
use thiserror::Error;
pub use to_fs::{InvalidRepoPathComponentError, InvalidRepoPathError};

/// A borrowed path component: a nonempty string without slashes.
#[derive(Clone, Copy)]
pub struct RepoPathComponent<'a> {
    value: &'a str,
    ghost valid: { IsTrue (is_name value.now) },
}

/// An owned path component.
#[derive(Drop)]
pub struct RepoPathComponentBuf {
    value: String,
}

impl Model for RepoPathComponentBuf {
    ghost Value = { Name };

    ghost view = { λ c. string_bytes c.value };

    ghost invariant = { λ c. IsTrue (is_name (string_bytes c.value)) };
}

/// A borrowed path: components joined by slashes. The root is the empty string.
#[derive(Clone, Copy)]
pub struct RepoPath<'a> {
    value: &'a str,
    ghost valid: { IsTrue (is_path_string value.now) },
}

/// An owned path.
#[derive(Drop)]
pub struct RepoPathBuf {
    value: String,
}

impl Model for RepoPathBuf {
    ghost Value = { Path };

    ghost view = { λ p. components (string_bytes p.value) };

    ghost invariant = { λ p. IsTrue (is_path_string (string_bytes p.value)) };
}

impl RepoPathComponentBuf {
    ghost use Rattle.jj_paths.specs.Names.{name_of};
    ghost use Rattle.jj_paths.specs.StringErrors.{IsStringError};

    /// Creates a component of the string, without copying it. Returns `Invalid` with the string if
    /// it is empty or contains a slash.
    pub fn new(value: String) -> Result<RepoPathComponentBuf, InvalidNewRepoPathError>
        ensures ok { IfOk result (λ name. name ≡ string_bytes value) }
        ensures valid { IsTrue (is_name (string_bytes value)) → IsOk result }
        ensures only_valid { IsOk result → IsTrue (is_name (string_bytes value)) }
        ensures error { IfErr result (IsStringError (is_name (string_bytes value))
            (string_bytes value)) }
    {
        if is_valid_repo_path_component_str(value.as_str()) {
            Ok(RepoPathComponentBuf { value })
        } else {
            Err(InvalidNewRepoPathError::Invalid { value })
        }
    }

    /// Returns the component as a string.
    pub fn as_internal_str(&self) -> &str
        ensures { result.now ≡ self.now }
    {
        self.value.as_str()
    }

    /// Borrows the component.
    pub fn as_component(&self) -> RepoPathComponent<'_>
        ensures { name_of result ≡ self.now }
    {
        RepoPathComponent {
            value: self.value.as_str(),
        }
    }
}

impl<'a> RepoPathComponent<'a> {
    ghost use Rattle.jj_paths.specs.Names.{name_of};
    ghost use Rattle.jj_paths.specs.StringErrors.{IsCopiedStringError};

    /// Creates a component of the string. Returns `Invalid` if it is empty or contains a slash, and
    /// `Memory` if that error cannot be allocated. Allocates only for the error.
    pub fn new(
        alloc: Global,
        value: &'a str,
    ) -> Result<RepoPathComponent<'a>, InvalidNewRepoPathError>
        ensures ok { IfOk result (λ name. name_of name ≡ value.now) }
        ensures valid { IsTrue (is_name value.now) → IsOk result }
        ensures only_valid { IsOk result → IsTrue (is_name value.now) }
        ensures error { IfErr result (IsCopiedStringError (is_name value.now) value.now) }
    {
        if is_valid_repo_path_component_str(value) {
            Ok(RepoPathComponent { value })
        } else {
            Err(InvalidNewRepoPathError::for_string(alloc, value))
        }
    }

    /// Returns the component as a string.
    pub fn as_internal_str(self) -> &'a str
        ensures { result.now ≡ name_of self.entry }
    {
        self.value
    }

    /// Copies the component.
    pub fn to_owned(self, alloc: Global) -> Result<RepoPathComponentBuf, AllocError>
        ensures { IfOk result (λ owned. owned ≡ name_of self.entry) }
    {
        Ok(RepoPathComponentBuf {
            value: String::from_str(alloc, self.value)?,
        })
    }
}

impl<'a> RepoPath<'a> {
    ghost use Rattle.jj_paths.specs.Names.{name_of, path_of};
    ghost use Rattle.jj_paths.specs.Iterators.{remaining_components, remaining_ancestors};
    ghost use Rattle.jj_paths.specs.Paths.{ancestors, IsBelow, dir_string, after_common};
    ghost use Rattle.jj_paths.specs.StringErrors.{IsCopiedStringError};

    /// Returns the root path, which has no components.
    pub fn root() -> RepoPath<'static>
        ensures { path_of result ≡ [] }
    {
        RepoPath { value: "" }
    }

    /// Creates a path of the string: the empty string, or components joined by slashes. Returns
    /// `Invalid` for any other string, such as `/a`, `a/` or `a//b`, and `Memory` if that error
    /// cannot be allocated. Allocates only for the error.
    pub fn from_internal_string(
        alloc: Global,
        value: &'a str,
    ) -> Result<RepoPath<'a>, InvalidNewRepoPathError>
        // The path has the components that the slashes of the string separate.
        ensures ok { IfOk result (λ path. path_of path ≡ components value.now) }
        // The empty string is a path, and so is one without an empty component.
        ensures valid { IsTrue (is_path_string value.now) → IsOk result }
        // Any other string is none.
        ensures only_valid { IsOk result → IsTrue (is_path_string value.now) }
        // An error is returned only for other strings; it has a copy of the string, unless memory
        // ran out.
        ensures error { IfErr result (IsCopiedStringError (is_path_string value.now) value.now) }
    {
        if is_valid_repo_path_str(value) {
            Ok(RepoPath { value })
        } else {
            Err(InvalidNewRepoPathError::for_string(alloc, value))
        }
    }

    /// Returns the path as a string with a trailing slash: `a/b` becomes `a/b/`, and the root the
    /// empty string.
    pub fn to_internal_dir_string(self, alloc: Global) -> Result<String, AllocError>
        ensures { IfOk result (λ text. string_bytes text ≡ dir_string (path_of self.entry)) }
    {
        if self.value.is_empty() {
            return Ok(String::new(alloc));
        }
        let mut text = copy_with_capacity(alloc, self.value, 1)?;
        text.push('/')?;
        Ok(text)
    }

    /// Returns the path as a string, its components joined by slashes.
    pub fn as_internal_file_string(self) -> &'a str
        ensures { result.now ≡ path_string (path_of self.entry) }
    {
        self.value
    }

    /// Returns whether the path is the root.
    pub fn is_root(self) -> bool
        ensures { IsTrue result ↔ (path_of self.entry ≡ []) }
    {
        self.value.is_empty()
    }

    /// Appends a component.
    pub fn join(self, alloc: Global, name: RepoPathComponent<'_>) -> Result<RepoPathBuf, AllocError>
        // The result has the components of the path and then the name.
        ensures { IfOk result (λ joined. joined ≡ path_of self.entry ++ name_of name.entry ∷ []) }
    {
        let mut value = copy_with_capacity(alloc, self.value, name.value.len().saturating_add(1))?;
        if !self.value.is_empty() {
            value.push('/')?;
        }
        value.push_str(name.value)?;
        Ok(RepoPathBuf { value })
    }

    /// Splits off the first component: `a/b/c` becomes `a` and `b/c`. Returns `None` for the root.
    pub fn split_first(self) -> Option<(RepoPathComponent<'a>, RepoPath<'a>)>
        ensures { MatchOption result (path_of self.entry ≡ [])
            (λ pair. path_of self.entry ≡ name_of pair.0 ∷ path_of pair.1) }
    {
        if self.value.is_empty() {
            return None;
        }
        match self.value.split_once('/') {
            None => Some((
                RepoPathComponent { value: self.value },
                RepoPath { value: "" },
            )),
            Some((name, rest)) => Some((
                RepoPathComponent { value: name },
                RepoPath { value: rest },
            )),
        }
    }

    /// Returns whether `base` is the path itself or one of its ancestors, component by component:
    /// `ab/c` does not start with `a`.
    pub fn starts_with(self, base: RepoPath<'_>) -> bool
        // The result is true exactly if the path is `base` or a descendant of it.
        ensures { IsTrue result ↔ IsBelow (path_of self.entry) (path_of base.entry) }
    {
        self.strip_prefix(base).is_some()
    }

    /// Returns the rest of the path below `base`, or `None` if the path is not `base` and not below
    /// it: `a/b/c` without `a` is `b/c`.
    pub fn strip_prefix(self, base: RepoPath<'_>) -> Option<RepoPath<'a>>
        // The result is the rest of the path after `base`, `None` if `base` is no prefix of it.
        ensures { MatchOption result ((rest : Path)
            → path_of self.entry ≢ path_of base.entry ++ rest)
            (λ rest. path_of self.entry ≡ path_of base.entry ++ path_of rest) }
    {
        if base.value.is_empty() {
            return Some(self);
        }
        let tail = self.value.strip_prefix(base.value)?;
        if tail.is_empty() {
            return Some(RepoPath { value: tail });
        }
        match tail.strip_prefix('/') {
            None => None,
            Some(value) => Some(RepoPath { value }),
        }
    }

    /// Splits off the last component: `a/b/c` becomes `a/b` and `c`. Returns `None` for the root.
    pub fn split(self) -> Option<(RepoPath<'a>, RepoPathComponent<'a>)>
        ensures { MatchOption result (path_of self.entry ≡ [])
            (λ pair. path_of self.entry ≡ path_of pair.0 ++ name_of pair.1 ∷ []) }
    {
        if self.value.is_empty() {
            return None;
        }
        match self.value.rsplit_once('/') {
            None => Some((
                RepoPath { value: "" },
                RepoPathComponent { value: self.value },
            )),
            Some((above, name)) => Some((
                RepoPath { value: above },
                RepoPathComponent { value: name },
            )),
        }
    }

    /// Returns the path without its last component, or `None` for the root.
    pub fn parent(self) -> Option<RepoPath<'a>>
        ensures { MatchOption result (path_of self.entry ≡ [])
            (λ above. (name : Name) × (path_of self.entry ≡ path_of above ++ name ∷ [])) }
    {
        match self.split() {
            None => None,
            Some((above, _name)) => Some(above),
        }
    }

    /// Returns the longest common prefix of the two paths, by components, and the rest of this
    /// path: `a/b/c` and `a/bd` have the prefix `a`, with `b/c` left.
    pub fn split_common_prefix(self, other: RepoPath<'_>) -> (RepoPath<'a>, RepoPath<'a>)
        // The path is the prefix and then the rest.
        ensures whole { path_of self.entry ≡ path_of result.0 ++ path_of result.1 }
        // The other path begins with the prefix too.
        ensures common { IsBelow (path_of other.entry) (path_of result.0) }
        // Each common prefix of both paths is one of this prefix.
        ensures longest { (prefix : Path) → IsBelow (path_of self.entry) prefix
            → IsBelow (path_of other.entry) prefix → IsBelow (path_of result.0) prefix }
    {
        let rest = self.after_common(other);
        (self.without_suffix(rest), rest)
    }

    // Returns what follows the longest common prefix in this path.
    fn after_common(self, other: RepoPath<'_>) -> RepoPath<'a>
        ensures { path_of result ≡ after_common (path_of self.entry) (path_of other.entry) }
    {
        let mut rest = self;
        let mut theirs = other;
        while let Some((name, below)) = rest.split_first() {
            match theirs.split_first() {
                Some((their_name, their_below)) if name == their_name => {
                    rest = below;
                    theirs = their_below;
                }
                _ => return rest,
            }
        }
        rest
    }

    // Returns the path without this suffix and the slash before it.
    fn without_suffix(self, rest: RepoPath<'_>) -> RepoPath<'a>
        requires { (prefix : Path) × (path_of self ≡ prefix ++ path_of rest) }
        ensures { path_of self.entry ≡ path_of result ++ path_of rest.entry }
    {
        if rest.value.is_empty() {
            return self;
        }
        let Some(text) = self.value.strip_suffix(rest.value) else {
            unreachable!();
        };
        if let Some(value) = text.strip_suffix('/') {
            return RepoPath { value };
        }
        RepoPath { value: "" }
    }

    /// Iterates over the components, from both ends.
    pub fn components(self) -> RepoPathComponentsIter<'a>
        ensures { remaining_components result ≡ path_of self.entry }
    {
        RepoPathComponentsIter::new(self)
    }

    /// Iterates over the path itself and its ancestors, up to the root.
    pub fn ancestors(self) -> RepoPathAncestors<'a>
        ensures { remaining_ancestors result ≡ ancestors (path_of self.entry) }
    {
        RepoPathAncestors::new(self)
    }

    // Returns the path without its first component; the root for the root.
    pub(crate) fn rest(self) -> RepoPath<'a>
        ensures { path_of result ≡ rest_of (path_of self.entry) }
    {
        match self.split_first() {
            None => self,
            Some((_name, rest)) => rest,
        }
    }

    /// Copies the path.
    pub fn to_owned(self, alloc: Global) -> Result<RepoPathBuf, AllocError>
        ensures { IfOk result (λ owned. owned ≡ path_of self.entry) }
    {
        Ok(RepoPathBuf {
            value: String::from_str(alloc, self.value)?,
        })
    }
}

impl RepoPathBuf {
    ghost use Rattle.jj_paths.specs.Names.{path_of};
    ghost use Rattle.jj_paths.specs.StringErrors.{IsStringError};

    /// Returns the root path. Does not allocate.
    pub fn root(alloc: Global) -> RepoPathBuf
        ensures { result ≡ [] }
    {
        RepoPathBuf {
            value: String::new(alloc),
        }
    }

    /// Creates a path of the string, without copying it: the empty string, or components joined by
    /// slashes. Returns `Invalid` with the string for any other one.
    pub fn from_internal_string(value: String) -> Result<RepoPathBuf, InvalidNewRepoPathError>
        // The path has the components that the slashes of the string separate.
        ensures ok { IfOk result (λ path. path ≡ components (string_bytes value)) }
        // A valid string succeeds.
        ensures valid { IsTrue (is_path_string (string_bytes value)) → IsOk result }
        ensures only_valid { IsOk result → IsTrue (is_path_string (string_bytes value)) }
        // An error has the string, which is invalid.
        ensures error { IfErr result (IsStringError (is_path_string (string_bytes value))
            (string_bytes value)) }
    {
        if is_valid_repo_path_str(value.as_str()) {
            Ok(RepoPathBuf { value })
        } else {
            Err(InvalidNewRepoPathError::Invalid { value })
        }
    }

    /// Borrows the path.
    pub fn as_path(&self) -> RepoPath<'_>
        ensures { path_of result ≡ self.now }
    {
        RepoPath {
            value: self.value.as_str(),
        }
    }

    /// Returns the path as a string, without copying it.
    pub fn into_internal_string(self) -> String
        ensures { string_bytes result ≡ path_string self }
    {
        self.value
    }
}

/// A string that is no valid path, or no valid component.
#[derive(Clone, Debug, PartialEq, Eq, Drop, Error)]
pub enum InvalidNewRepoPathError {
    #[error(r#"Invalid repo path input "{value}""#)]
    Invalid { value: String },
    #[error("out of memory")]
    Memory,
}

impl From<AllocError> for InvalidNewRepoPathError {
    ghost from_gives = { λ _ error. error ≡ InvalidNewRepoPathError.Memory };

    fn from(_failure: AllocError) -> Self {
        InvalidNewRepoPathError::Memory
    }
}

impl<T: Drop> From<AllocFailed<T>> for InvalidNewRepoPathError {
    ghost from_gives = { λ _ error. error ≡ InvalidNewRepoPathError.Memory };

    fn from(_failure: AllocFailed<T>) -> Self {
        InvalidNewRepoPathError::Memory
    }
}

impl InvalidNewRepoPathError {
    ghost use Rattle.jj_paths.specs.StringErrors.{IsCopiedStringError};

    fn for_string(alloc: Global, value: &str) -> InvalidNewRepoPathError
        ensures { IsCopiedStringError false value.now result }
    {
        match String::from_str(alloc, value) {
            Ok(value) => InvalidNewRepoPathError::Invalid { value },
            Err(_) => InvalidNewRepoPathError::Memory,
        }
    }
}

// Returns a copy of a string, with capacity for `more` further bytes.
fn copy_with_capacity(alloc: Global, text: &str, more: usize) -> Result<String, AllocError>
    ensures { IfOk result (λ copy. string_bytes copy ≡ text.now) }
{
    let mut copy = String::with_capacity(alloc, text.len().saturating_add(more))?;
    copy.push_str(text)?;
    Ok(copy)
}

fn is_valid_repo_path_component_str(value: &str) -> bool
    ensures { result ≡ is_name value.now }
{
    !value.is_empty() && !value.contains('/')
}

fn is_valid_repo_path_str(value: &str) -> bool
    ensures { result ≡ is_path_string value.now }
{
    value.is_empty() || value.split('/').all(|part| !part.is_empty())
}
