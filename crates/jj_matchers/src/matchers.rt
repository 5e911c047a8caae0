//! The trait `Matcher`, a predicate on paths that can prune a directory walk, and its trivial
//! implementations.

mod children_visit;
mod difference_matcher;
mod dir_patterns;
mod files_matcher;
mod globs_matcher;
mod intersection_matcher;
mod mark_walk;
mod marks;
mod path_glob_pattern;
mod pattern_order;
mod prefix_matcher;
mod sorted_visits;
mod tree_walk;
mod union_matcher;
mod visits;

ghost use Rattle.std.specs.Prelude.{◌≡◌, Bool, true, false, List, [], IfOk};
ghost use Rattle.jj_paths.specs.Paths.{Name, Path};
ghost use Rattle.jj_paths.specs.Names.{path_of};
ghost use Rattle.jj_matchers.specs.VisitSpecs.{VisitSpec, IsSound, all_recursively, nothing};
ghost use Rattle.jj_matchers.specs.MentionedNames.{MentionsOnly};
ghost use Rattle.jj_matchers.specs.SortedVisits.{sorted_visit_spec};
ghost use Rattle.jj_matchers.specs.Visits.{visit_spec};

pub use difference_matcher::{DifferenceMatcher, difference_visit};
pub use files_matcher::FilesMatcher;
pub use globs_matcher::{GlobsMatcher, GlobsMatcherBuilder};
pub use intersection_matcher::{IntersectionMatcher, intersection_visit};
use jj_paths::repo_path::RepoPath;
pub use mark_walk::walk_marks;
pub use marks::marked_tree;
pub use path_glob_pattern::PathGlobPattern;
pub use prefix_matcher::PrefixMatcher;
pub use sorted_visits::{SortedNames, SortedVisit};
use std::alloc::{AllocError, Global};
pub use tree_walk::{Walk, walk_matching};
pub use union_matcher::{UnionMatcher, union_visit};
pub use visits::{Visit, VisitDirs, VisitFiles};

/// A set of paths.
pub trait Matcher: Drop {
    /// The paths in the set.
    ghost accepts: { Self → Path → Bool };

    /// The directories that a walk may enter.
    ghost opens: { Self → Path → Bool };

    /// The visit of a directory.
    ghost visits: { Self → Path → VisitSpec };

    /// A finite list of all names that a `Specific` visit of the directory mentions, unless it
    /// mentions every name. With it, an intersection can decide whether two visits share a name.
    ghost mentioned: { Self → Path → List Name };

    /// Returns whether the path is in the set.
    fn matches(&self, file: RepoPath<'_>) -> bool
        ensures { result ≡ accepts self.now (path_of file.entry) };

    /// Returns where to look for paths of the set strictly below a directory, with names that the
    /// matcher has.
    fn visit_sorted(&self, alloc: Global, dir: RepoPath<'_>) -> Result<SortedVisit<'_>, AllocError>
        // The visit is the one that the ghost member `visits` has for the directory.
        ensures visit { IfOk result (λ visit. sorted_visit_spec visit
            ≡ visits self.now (path_of dir.entry)) }
        // It is `Nothing` only if no path below is accepted, and `AllRecursively` only if all are,
        // and may be opened; else it mentions each child that is accepted or has accepted paths
        // below it.
        ensures sound { IfOk result (λ visit. IsSound (accepts self.now) (opens self.now)
            (path_of dir.entry) (sorted_visit_spec visit)) }
        // It mentions all names, or only those that `mentioned` lists.
        ensures names { IfOk result (λ visit.
            MentionsOnly (mentioned self.now (path_of dir.entry)) (sorted_visit_spec visit)) };

    /// Returns the visit of `visit_sorted` with names of its own.
    fn visit(&self, alloc: Global, dir: RepoPath<'_>) -> Result<Visit, AllocError>
        // The visit is the one that the ghost member `visits` has for the directory.
        ensures visit { IfOk result (λ visit. visit_spec visit
            ≡ visits self.now (path_of dir.entry)) }
        // It is `Nothing` only if no path below is accepted, and `AllRecursively` only if all are,
        // and may be opened; else it mentions each child that is accepted or has accepted paths
        // below it.
        ensures sound { IfOk result (λ visit.
            IsSound (accepts self.now) (opens self.now) (path_of dir.entry) (visit_spec visit)) }
        // It mentions all names, or only those that `mentioned` lists.
        ensures names { IfOk result (λ visit.
            MentionsOnly (mentioned self.now (path_of dir.entry)) (visit_spec visit)) }
    {
        self.visit_sorted(alloc, dir)?.to_visit(alloc)
    }
}

impl<T: Matcher> Matcher for &T {
    ghost accepts = { λ m. T.accepts m.now };

    ghost opens = { λ m. T.opens m.now };

    ghost visits = { λ m. T.visits m.now };

    ghost mentioned = { λ m. T.mentioned m.now };

    fn matches(&self, file: RepoPath<'_>) -> bool {
        (**self).matches(file)
    }

    fn visit_sorted(
        &self,
        alloc: Global,
        dir: RepoPath<'_>,
    ) -> Result<SortedVisit<'_>, AllocError> {
        (**self).visit_sorted(alloc, dir)
    }
}

/// Delegates to the matcher in the box.
impl Matcher for Box<dyn Matcher> {
    ghost accepts = { λ b. (Matcher-box b).accepts b.value };

    ghost opens = { λ b. (Matcher-box b).opens b.value };

    ghost visits = { λ b. (Matcher-box b).visits b.value };

    ghost mentioned = { λ b. (Matcher-box b).mentioned b.value };

    fn matches(&self, file: RepoPath<'_>) -> bool {
        (**self).matches(file)
    }

    fn visit_sorted(
        &self,
        alloc: Global,
        dir: RepoPath<'_>,
    ) -> Result<SortedVisit<'_>, AllocError> {
        (**self).visit_sorted(alloc, dir)
    }
}

/// The empty set.
#[derive(Debug, PartialEq, Eq, Drop)]
pub struct NothingMatcher;

impl Matcher for NothingMatcher {
    ghost accepts = { λ _ path. false };

    ghost opens = { λ _ path. false };

    ghost visits = { λ _ dir. nothing };

    ghost mentioned = { λ _ dir. [] };

    fn matches(&self, _file: RepoPath<'_>) -> bool {
        false
    }

    fn visit_sorted(
        &self,
        _alloc: Global,
        _dir: RepoPath<'_>,
    ) -> Result<SortedVisit<'_>, AllocError> {
        Ok(SortedVisit::Nothing)
    }
}

/// The set of all paths.
#[derive(Debug, PartialEq, Eq, Drop)]
pub struct EverythingMatcher;

impl Matcher for EverythingMatcher {
    ghost accepts = { λ _ path. true };

    ghost opens = { λ _ path. true };

    ghost visits = { λ _ dir. all_recursively };

    ghost mentioned = { λ _ dir. [] };

    fn matches(&self, _file: RepoPath<'_>) -> bool {
        true
    }

    fn visit_sorted(
        &self,
        _alloc: Global,
        _dir: RepoPath<'_>,
    ) -> Result<SortedVisit<'_>, AllocError> {
        Ok(SortedVisit::AllRecursively)
    }
}
