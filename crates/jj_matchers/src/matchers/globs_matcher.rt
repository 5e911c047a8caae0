//! The matcher of glob patterns relative to directories, as a trie of directories with their
//! patterns, and its builder.
ghost use Rattle.std.specs.Prelude.{◌≡◌, ◌↔◌, ◌<◌, ◌≤◌, true, false, [], ◌∷◌, ◌++◌, All, map, take, length, slice_get, Some, IsTrue, IfOk, MatchResult};
ghost use Rattle.std.specs.Option.{option_map};
ghost use Rattle.jj_paths.specs.Paths.{Path};
ghost use Rattle.jj_paths.specs.Names.{path_of};
ghost use Rattle.jj_matchers.specs.SortedVisits.{sorted_visit_spec};
ghost use Rattle.jj_matchers.specs.MentionedNames.{names_of};
ghost use Rattle.jj_matchers.specs.Marks.{children_spec, any_node};
ghost use Rattle.jj_matchers.specs.PathLists.{has_prefix};
ghost use Rattle.jj_matchers.specs.Patterns.{HasSamePatterns, IsAccepted, is_accepted, is_covered, opens_to_patterns, pattern_dirs, patterns_spec};
ghost use Rattle.jj_matchers.specs.PatternTree.{AddsGlobs, IsPatternTree, globs_at, marked_branches, no_node};

use crate::matchers::dir_patterns::DirPatterns;
use crate::matchers::sorted_visits::insert_if;
use crate::matchers::{Matcher, PathGlobPattern, SortedNames, SortedVisit};
use jj_paths::repo_path::RepoPath;
use jj_paths::repo_path_tree::RepoPathTree;
use std::alloc::{AllocError, Global};
use std::collections::BTreeSet;
use std::marker::Model;

/// The paths strictly below a directory whose tail, the rest of the path below it as a string,
/// matches a pattern of the directory. Contracts model the patterns as a list of directories and
/// globs, in unspecified order.
#[derive(Debug, Drop)]
pub struct GlobsMatcher {
    tree: RepoPathTree<DirPatterns>,
    matches_prefix_paths: bool,
}

impl Model for GlobsMatcher {
    ghost use Rattle.jj_matchers.specs.Patterns.{Patterns};
    ghost use Rattle.jj_matchers.specs.PatternTree.{patterns_of, LeadsToGlobs};

    ghost Value = { Patterns };

    ghost view = { λ m. record {
      prefix_paths = m.matches_prefix_paths;
      patterns = patterns_of m.tree;
    } };

    ghost invariant = { λ m. LeadsToGlobs m.tree };
}

impl GlobsMatcher {
    /// Returns a builder without patterns. Does not allocate.
    pub fn builder<'a>(alloc: Global) -> GlobsMatcherBuilder<'a>
        ensures { result ≡ record { prefix_paths = false; patterns = [] } }
    {
        GlobsMatcherBuilder {
            dir_patterns: Vec::new(alloc),
            matches_prefix_paths: false,
        }
    }

    // Returns whether all paths below the directory are known to be accepted.
    fn covers(&self, dir: RepoPath<'_>) -> bool
        ensures { result ≡ is_covered self.now (path_of dir.entry) }
    {
        self.matches_prefix_paths
            && self
                .tree
                .walk_to(dir)
                .any(|(node, tail)| node.value().cover(tail))
    }

    // Returns whether the directory or an ancestor has patterns.
    fn has_patterns_above(&self, dir: RepoPath<'_>) -> bool
        ensures { result ≡ has_prefix (pattern_dirs self.now) (path_of dir.entry) }
    {
        self.tree
            .walk_to(dir)
            .any(|(node, _)| node.value().has_patterns())
    }

    fn compute_visit(&self, alloc: Global, dir: RepoPath<'_>) -> Result<SortedVisit<'_>, AllocError>
        ensures { IfOk result (λ visit. sorted_visit_spec visit
            ≡ patterns_spec self.now (path_of dir.entry)) }
    {
        if self.covers(dir) {
            return Ok(SortedVisit::AllRecursively);
        }
        if self.has_patterns_above(dir) {
            return Ok(SortedVisit::Specific {
                dirs: SortedNames::All,
                files: SortedNames::All,
            });
        }
        match self.tree.get(dir) {
            Some(node) => visit_directories(alloc, node),
            None => Ok(SortedVisit::Nothing),
        }
    }
}

impl Clone for GlobsMatcher {
    ghost is_clone = { λ matcher copy. copy ≡ matcher };

    fn clone(&self) -> Result<GlobsMatcher, AllocError> {
        Ok(GlobsMatcher {
            tree: self.tree.clone()?,
            matches_prefix_paths: self.matches_prefix_paths,
        })
    }
}

impl Matcher for GlobsMatcher {
    ghost accepts = { is_accepted };

    ghost opens = { opens_to_patterns };

    ghost visits = { patterns_spec };

    ghost mentioned = { λ set dir. names_of (pattern_dirs set) };

    fn matches(&self, file: RepoPath<'_>) -> bool
        ensures accepted { result ≡ is_accepted self.now (path_of file.entry) }
        // The result is true exactly if a pattern whose directory is above the file matches the
        // rest of its path.
        ensures meaning { IsTrue result ↔ IsAccepted self.now (path_of file.entry) }
    {
        let prefix_paths = self.matches_prefix_paths;
        self.tree
            .walk_to(file)
            .any(|(node, tail)| node.value().accept(prefix_paths, tail))
    }

    fn visit_sorted(
        &self,
        alloc: Global,
        dir: RepoPath<'_>,
    ) -> Result<SortedVisit<'_>, AllocError> {
        self.compute_visit(alloc, dir)
    }
}

// Returns the visit of all children as directories, and of none as a file.
fn visit_directories(
    alloc: Global,
    tree: &RepoPathTree<DirPatterns>,
) -> Result<SortedVisit<'_>, AllocError>
    ensures { IfOk result (λ visit. sorted_visit_spec visit
        ≡ children_spec any_node no_node (marked_branches tree.now.branches)) }
{
    let mut dirs = BTreeSet::new(alloc);
    for (name, _) in tree.children() {
        insert_if(&mut dirs, name, true)?;
    }
    Ok(SortedVisit::sets(dirs, BTreeSet::new(alloc)))
}

/// Collects directories with patterns, from which it builds a `GlobsMatcher`.
#[derive(Debug, Drop)]
pub struct GlobsMatcherBuilder<'a> {
    dir_patterns: Vec<(RepoPath<'a>, &'a PathGlobPattern)>,
    matches_prefix_paths: bool,
}

impl<'a> Model for GlobsMatcherBuilder<'a> {
    ghost use Rattle.std.specs.Prelude.{map};
    ghost use Rattle.jj_paths.specs.Names.{path_of};
    ghost use Rattle.jj_matchers.specs.Patterns.{Patterns};

    ghost Value = { Patterns };

    ghost view = { λ b. record {
      prefix_paths = b.matches_prefix_paths;
      patterns = map (λ pattern. (path_of pattern.0, pattern.1.now)) b.dir_patterns.items;
    } };
}

impl<'a> GlobsMatcherBuilder<'a> {
    /// Sets whether paths below a match are accepted too.
    pub fn prefix_paths(mut self, yes: bool) -> Self
        ensures { result ≡ record { prefix_paths = yes; patterns = self.entry.patterns } }
    {
        self.matches_prefix_paths = yes;
        self
    }

    /// Returns whether there are no patterns yet.
    pub fn is_empty(&self) -> bool
        ensures { IsTrue result ↔ (self.now.patterns ≡ []) }
    {
        self.dir_patterns.is_empty()
    }

    /// Adds a pattern for the paths below a directory. After an allocation failure the patterns are
    /// unchanged.
    pub fn add(&mut self, dir: RepoPath<'a>, pattern: &'a PathGlobPattern) -> Result<(), AllocError>
        ensures { MatchResult result (λ done. self.new
            ≡ record {
              prefix_paths = self.old.prefix_paths;
              patterns = self.old.patterns ++ (path_of dir.entry, pattern.now) ∷ [];
            })
            (λ e. self.new ≡ self.old) }
    {
        self.dir_patterns.push((dir, pattern))?;
        Ok(())
    }

    /// Builds the matcher of all paths strictly below a pattern's directory whose rest the glob
    /// matches. The matcher shares the compiled patterns. O(n log n) comparisons for n patterns.
    pub fn build(&self) -> Result<GlobsMatcher, AllocError>
        ensures same { IfOk result (λ matcher. HasSamePatterns matcher self.now) }
        ensures accepts { IfOk result (λ matcher. (path : Path) → (is_accepted matcher path ≡ true)
            ↔ IsAccepted self.now path) }
    {
        let alloc = *self.dir_patterns.allocator();
        let mut sorted = Vec::from_slice(alloc, self.dir_patterns.as_slice())?;
        sorted.sort_unstable_by_key(|(dir, pattern)| (*dir, pattern.literal_prefix()));
        let tree = pattern_tree(alloc, sorted.as_slice())?;
        Ok(GlobsMatcher {
            tree,
            matches_prefix_paths: self.matches_prefix_paths,
        })
    }
}

impl<'a> Clone for GlobsMatcherBuilder<'a> {
    ghost is_clone = { λ builder copy. copy ≡ builder };

    fn clone(&self) -> Result<GlobsMatcherBuilder<'a>, AllocError> {
        Ok(GlobsMatcherBuilder {
            dir_patterns: self.dir_patterns.clone()?,
            matches_prefix_paths: self.matches_prefix_paths,
        })
    }
}

// Builds the trie. Adjacent patterns of one directory are added at once: all of them if the list
// is sorted by directory.
fn pattern_tree(
    alloc: Global,
    patterns: &[(RepoPath<'_>, &PathGlobPattern)],
) -> Result<RepoPathTree<DirPatterns>, AllocError>
    ensures { IfOk result (IsPatternTree (map (λ pattern. (path_of pattern.0, pattern.1.now))
        patterns.now)) }
{
    let mut tree = RepoPathTree::default(alloc);
    let mut start = 0;
    while let Some(dir) = first_dir(&patterns[start..]) {
        let end = start + run_length(&patterns[start..], dir);
        add_patterns(alloc, &mut tree, dir, &patterns[start..end])?;
        start = end;
    }
    Ok(tree)
}

fn first_dir<'a>(patterns: &[(RepoPath<'a>, &PathGlobPattern)]) -> Option<RepoPath<'a>>
    ensures { option_map (λ dir. path_of dir) result
        ≡ option_map (λ first. path_of first.0) (slice_get patterns.now 0) }
{
    let (dir, _) = patterns.first()?;
    Some(*dir)
}

// Returns the length of the leading run of patterns of the directory.
fn run_length(patterns: &[(RepoPath<'_>, &PathGlobPattern)], dir: RepoPath<'_>) -> usize
    ensures in_range { result ≤ length patterns.now }
    ensures same { All (λ pattern. path_of pattern.0 ≡ path_of dir.entry)
        (take result patterns.now) }
    ensures some { option_map (λ first. path_of first.0) (slice_get patterns.now 0)
        ≡ Some (path_of dir.entry) → 0 < result }
{
    let mut count = 0;
    for (other, _) in patterns {
        if *other != dir {
            return count;
        }
        count += 1;
    }
    count
}

fn add_patterns(
    alloc: Global,
    tree: &mut RepoPathTree<DirPatterns>,
    dir: RepoPath<'_>,
    patterns: &[(RepoPath<'_>, &PathGlobPattern)],
) -> Result<(), AllocError>
    requires { 0 < length patterns.now }
    ensures { IfOk result (λ done. AddsGlobs tree.old (path_of dir.entry)
        (map (λ pattern. pattern.1.now) patterns.now) tree.new) }
{
    let mut all = patterns_at(tree, dir)?;
    for &(_, pattern) in patterns {
        all.push(alloc, pattern.clone()?)?;
    }
    tree.set(dir, all)
}

fn patterns_at(
    tree: &RepoPathTree<DirPatterns>,
    dir: RepoPath<'_>,
) -> Result<DirPatterns, AllocError>
    ensures { IfOk result (λ patterns. patterns ≡ globs_at tree.now (path_of dir.entry)) }
{
    match tree.get(dir) {
        Some(node) => node.value().clone(),
        None => Ok(DirPatterns::default()),
    }
}
