//! Matchers of string literals, and assertions about walks.
use jj_content_tests::retry::Passed;
use jj_globs::glob::GlobError;
use jj_matchers::matchers::{
    FilesMatcher, GlobsMatcher, Matcher, PathGlobPattern, PrefixMatcher, walk_marks, walk_matching,
};
use jj_paths::repo_path::{RepoPath, RepoPathBuf};
use jj_paths::repo_path_tree::RepoPathTree;
use std::alloc::{AllocError, Global};
use std::process::Abort;

// Creates a path, or panics. Does not allocate for a valid path.
fn path<R: Abort>(rt: &R, alloc: Global, text: &'static str) -> RepoPath<'static> {
    match RepoPath::from_internal_string(alloc, text) {
        Ok(path) => path,
        Err(_) => panic!(rt; "{text} is a path"),
    }
}

/// Returns the matcher of a file.
pub fn file<R: Abort>(
    rt: &R,
    alloc: Global,
    text: &'static str,
) -> Result<FilesMatcher, AllocError> {
    FilesMatcher::new(alloc, &[path(rt, alloc, text)])
}

/// Returns the matcher of a prefix.
pub fn prefix<R: Abort>(
    rt: &R,
    alloc: Global,
    text: &'static str,
) -> Result<PrefixMatcher, AllocError> {
    PrefixMatcher::new(alloc, &[path(rt, alloc, text)])
}

fn pattern<R: Abort>(rt: &R, alloc: Global, text: &str) -> Result<PathGlobPattern, AllocError> {
    match PathGlobPattern::parse(alloc, text) {
        Ok(pattern) => Ok(pattern),
        Err(GlobError::Memory) => Err(AllocError),
        Err(_) => panic!(rt; "{text} is a glob"),
    }
}

/// Returns the matcher of a glob in a directory.
pub fn glob<R: Abort>(
    rt: &R,
    alloc: Global,
    dir: &'static str,
    text: &str,
) -> Result<GlobsMatcher, AllocError> {
    let pattern = pattern(rt, alloc, text)?;
    let mut builder = GlobsMatcher::builder(alloc);
    builder.add(path(rt, alloc, dir), &pattern)?;
    builder.build()
}

fn marked<R: Abort>(
    rt: &R,
    alloc: Global,
    marks: &[&'static str],
) -> Result<RepoPathTree<bool>, AllocError> {
    let mut tree: RepoPathTree<bool> = RepoPathTree::default(alloc);
    for mark in marks {
        tree.set(path(rt, alloc, mark), true)?;
    }
    Ok(tree)
}

/// Asserts which files a walk with these marks finds, and which directories it enters, both in this
/// order: of the tree of the marks, and of their list.
pub fn check_walk<R: Abort, M: Matcher>(
    rt: &R,
    alloc: Global,
    matcher: &M,
    marks: &[&'static str],
    files: &[&str],
    entered: &[&str],
) -> Passed {
    let tree = marked(rt, alloc, marks)?;
    let walk = walk_matching(alloc, &tree, matcher)?;
    check_paths(rt, walk.files.as_slice(), files);
    check_paths(rt, walk.entered.as_slice(), entered);
    check_marks(rt, alloc, matcher, marks, files, entered)
}

fn check_marks<R: Abort, M: Matcher>(
    rt: &R,
    alloc: Global,
    matcher: &M,
    marks: &[&'static str],
    files: &[&str],
    entered: &[&str],
) -> Passed {
    let mut paths = Vec::new(alloc);
    for mark in marks {
        paths.push(path(rt, alloc, mark))?;
    }
    let walk = walk_marks(alloc, &paths, matcher)?;
    check_borrowed(rt, walk.files.as_slice(), files);
    check_borrowed(rt, walk.entered.as_slice(), entered);
    Ok(())
}

fn check_paths<R: Abort>(rt: &R, paths: &[RepoPathBuf], expected: &[&str]) {
    assert_eq!(rt; paths.len(), expected.len());
    for (path, text) in paths.iter().zip(expected) {
        assert_eq!(rt; path.as_path().as_internal_file_string(), *text);
    }
}

fn check_borrowed<R: Abort>(rt: &R, paths: &[RepoPath<'_>], expected: &[&str]) {
    assert_eq!(rt; paths.len(), expected.len());
    for (path, text) in paths.iter().zip(expected) {
        assert_eq!(rt; path.as_internal_file_string(), *text);
    }
}
