//! Paths from strings, and assertions.
use jj_paths::repo_path::RepoPath;
use std::alloc::Global;
use std::fmt::Debug;
use std::process::Abort;

/// Creates a path, or panics. Does not allocate for a valid path.
pub fn path<'a, R: Abort>(rt: &R, alloc: Global, text: &'a str) -> RepoPath<'a> {
    match RepoPath::from_internal_string(alloc, text) {
        Ok(path) => path,
        Err(_) => panic!(rt; "{text} is a path"),
    }
}

/// Asserts that the values are equal.
pub fn equals<R: Abort, T: PartialEq + Debug>(rt: &R, found: &T, expected: &T) {
    assert_eq!(rt; found, expected);
}

/// Asserts that the strings are equal.
pub fn is_text<R: Abort>(rt: &R, found: &str, expected: &str) {
    assert_eq!(rt; found, expected);
}
