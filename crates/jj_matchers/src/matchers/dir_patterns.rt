//! The glob patterns of one directory: a list that remembers whether it is sorted.
ghost use Rattle.std.specs.Prelude.{◌≡◌, [], ◌∷◌, ◌++◌, MatchResult};
ghost use Rattle.std.specs.List.{list_any};
ghost use Rattle.std.specs.Option.{option_map_or};
ghost use Rattle.jj_paths.specs.Names.{path_of};
ghost use Rattle.jj_matchers.specs.Patterns.{is_stars, accepts_tail, covers_tail};
ghost use Rattle.jj_matchers.specs.PatternOrder.{matches_string};

use crate::matchers::PathGlobPattern;
use crate::matchers::pattern_order::{
    LinkedPattern, any_match_sorted, find_enclosing, stays_sorted,
};
use jj_paths::repo_path::RepoPath;
use std::alloc::{AllocError, Global};
use std::marker::Model;

/// A list of glob patterns. An empty one does not allocate.
#[derive(Debug, Drop)]
pub struct DirPatterns {
    patterns: Option<Vec<LinkedPattern>>,
    // Whether the patterns are known to be sorted by literal prefix, so that their links are valid.
    is_sorted: bool,
}

impl Model for DirPatterns {
    ghost use Rattle.std.specs.Prelude.{◌≡◌, true, List, []};
    ghost use Rattle.std.specs.Option.{option_map_or};
    ghost use Rattle.jj_globs.specs.GlobMeaning.{GlobSpec};
    ghost use Rattle.jj_matchers.specs.LinkedPatterns.{AreSortedAndLinked, globs_of};

    ghost Value = { List GlobSpec };

    ghost view = { λ d. globs_of (option_map_or (λ patterns. patterns.items) d.patterns []) };

    ghost invariant = { λ d. d.is_sorted ≡ true
        → AreSortedAndLinked (option_map_or (λ patterns. patterns.items) d.patterns []) };
}

impl Default for DirPatterns {
    ghost is_default = { λ d. d ≡ [] };

    fn default() -> DirPatterns {
        DirPatterns {
            patterns: None,
            is_sorted: true,
        }
    }
}

impl Clone for DirPatterns {
    ghost is_clone = { λ patterns copy. copy ≡ patterns };

    fn clone(&self) -> Result<DirPatterns, AllocError> {
        Ok(DirPatterns {
            patterns: self.patterns.clone()?,
            is_sorted: self.is_sorted,
        })
    }
}

impl DirPatterns {
    ghost use Rattle.jj_matchers.specs.PatternTree.{has_globs};

    /// Appends a pattern. After an allocation failure the list is unchanged.
    pub fn push(&mut self, alloc: Global, pattern: PathGlobPattern) -> Result<(), AllocError>
        ensures { MatchResult result (λ done. self.new ≡ self.old ++ pattern ∷ [])
            (λ e. self.new ≡ self.old) }
    {
        match &mut self.patterns {
            Some(patterns) => {
                let is_sorted = self.is_sorted && stays_sorted(patterns.as_slice(), &pattern);
                let enclosing_len = find_enclosing(patterns.as_slice(), &pattern);
                patterns.push(LinkedPattern {
                    pattern,
                    enclosing_len,
                })?;
                self.is_sorted = is_sorted;
            }
            None => {
                let mut patterns = Vec::new(alloc);
                patterns.push(LinkedPattern {
                    pattern,
                    enclosing_len: 0,
                })?;
                self.patterns = Some(patterns);
            }
        }
        Ok(())
    }

    /// Returns whether there are patterns.
    pub fn has_patterns(&self) -> bool
        ensures { result ≡ has_globs self.now }
    {
        !as_slice(&self.patterns).is_empty()
    }

    /// Returns whether a pattern matches the path with this tail below the directory, or with
    /// `prefix_paths` an ancestor of it below the directory.
    pub fn accept(&self, prefix_paths: bool, tail: RepoPath<'_>) -> bool
        ensures { result ≡ list_any (λ glob. accepts_tail prefix_paths glob
            (path_of tail.entry)) self.now }
    {
        if tail.is_root() {
            return false;
        }
        self.any_matches(prefix_paths, tail.as_internal_file_string())
    }

    /// Returns whether all paths below this tail are known to be accepted, if paths below a match
    /// are: a pattern matches the tail or an ancestor of it, or for the root has only stars.
    pub fn cover(&self, tail: RepoPath<'_>) -> bool
        ensures { result ≡ list_any (λ glob. covers_tail glob (path_of tail.entry)) self.now }
    {
        if tail.is_root() {
            self.any_stars()
        } else {
            self.any_matches(true, tail.as_internal_file_string())
        }
    }

    fn any_matches(&self, prefix_paths: bool, text: &str) -> bool
        ensures { result ≡ list_any (λ glob. matches_string prefix_paths glob text.now) self.now }
    {
        let patterns = as_slice(&self.patterns);
        if self.is_sorted {
            any_match_sorted(patterns, prefix_paths, text)
        } else {
            any_match(patterns, prefix_paths, text)
        }
    }

    fn any_stars(&self) -> bool
        ensures { result ≡ list_any (λ glob. is_stars glob.text) self.now }
    {
        any_are_stars(as_slice(&self.patterns))
    }
}

fn any_match(patterns: &[LinkedPattern], prefix_paths: bool, text: &str) -> bool
    ensures { result ≡ list_any (λ linked. matches_string prefix_paths linked.pattern text.now)
        patterns.now }
{
    patterns
        .iter()
        .any(|linked| linked.pattern.matches_path(prefix_paths, text))
}

fn any_are_stars(patterns: &[LinkedPattern]) -> bool
    ensures { result ≡ list_any (λ linked. is_stars linked.pattern.text) patterns.now }
{
    patterns.iter().any(|linked| linked.pattern.is_stars())
}

fn as_slice(patterns: &Option<Vec<LinkedPattern>>) -> &[LinkedPattern]
    ensures { result.now ≡ option_map_or (λ list. list.items) patterns.now [] }
{
    match patterns {
        Some(list) => list.as_slice(),
        None => &[],
    }
}
