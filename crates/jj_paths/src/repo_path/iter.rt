//! Iterators over the components of a path, double-ended, and over its ancestors.
ghost use Rattle.std.specs.Prelude.{◌≡◌};
ghost use Rattle.std.specs.Iterator.{YieldsFirstBy, YieldsLastBy, item_count};
ghost use Rattle.jj_paths.specs.Iterators.{remaining_ancestors, remaining_components};
ghost use Rattle.jj_paths.specs.Paths.{ancestors};
ghost use Rattle.jj_paths.specs.Names.{name_of, path_of};

use super::{RepoPath, RepoPathComponent};
use std::iter::FusedIterator;

/// Iterates over the components of a path, from both ends. Fused.
#[derive(Clone, Copy, Debug)]
pub struct RepoPathComponentsIter<'a> {
    path: RepoPath<'a>,
}

impl<'a> RepoPathComponentsIter<'a> {
    pub(super) fn new(path: RepoPath<'a>) -> RepoPathComponentsIter<'a>
        ensures { remaining_components result ≡ path_of path.entry }
    {
        RepoPathComponentsIter { path }
    }

    /// Returns the path of the components that are not yet yielded.
    pub fn as_path(&self) -> RepoPath<'a>
        ensures { path_of result ≡ remaining_components self.now }
    {
        self.path
    }
}

impl<'a> Iterator for RepoPathComponentsIter<'a> {
    type Item = RepoPathComponent<'a>;

    ghost next_gives = { YieldsFirstBy name_of remaining_components };

    ghost remaining = { item_count remaining_components };

    fn next(&mut self) -> Option<RepoPathComponent<'a>> {
        let (name, rest) = self.path.split_first()?;
        self.path = rest;
        Some(name)
    }
}

impl<'a> DoubleEndedIterator for RepoPathComponentsIter<'a> {
    ghost next_back_gives = { YieldsLastBy name_of remaining_components };

    fn next_back(&mut self) -> Option<RepoPathComponent<'a>> {
        let (rest, name) = self.path.split()?;
        self.path = rest;
        Some(name)
    }
}

impl<'a> FusedIterator for RepoPathComponentsIter<'a> {}

/// Iterates over a path and its ancestors, up to the root.
#[derive(Clone, Copy, Debug)]
pub struct RepoPathAncestors<'a> {
    next: Option<RepoPath<'a>>,
}

impl<'a> RepoPathAncestors<'a> {
    pub(super) fn new(path: RepoPath<'a>) -> RepoPathAncestors<'a>
        ensures { remaining_ancestors result ≡ ancestors (path_of path.entry) }
    {
        RepoPathAncestors { next: Some(path) }
    }
}

impl<'a> Iterator for RepoPathAncestors<'a> {
    type Item = RepoPath<'a>;

    ghost next_gives = { YieldsFirstBy path_of remaining_ancestors };

    ghost remaining = { item_count remaining_ancestors };

    fn next(&mut self) -> Option<RepoPath<'a>> {
        let path = self.next?;
        self.next = path.parent();
        Some(path)
    }
}
