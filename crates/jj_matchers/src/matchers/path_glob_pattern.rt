//! Globs of paths: compiled once, shared by reference counting.
ghost use Rattle.std.specs.Prelude.{◌≡◌, ◌==◌, true, false};
ghost use Rattle.std.specs.List.{list_all};
ghost use Rattle.jj_globs.specs.declared.glob.symbol.Symbol.TheVariants.{Asterisk};
ghost use Rattle.jj_globs.specs.GlobParsing.{ParsesAsGlob, glob_spec};
ghost use Rattle.jj_globs.specs.GlobSyntax.{byte_of};
ghost use Rattle.jj_globs.specs.GlobPrefix.{glob_prefix};
ghost use Rattle.jj_matchers.specs.Patterns.{is_match, is_prefix_match, is_stars};
ghost use Rattle.jj_matchers.specs.PatternOrder.{matches_string};

use jj_globs::glob::{Glob, GlobError};
use std::alloc::{AllocError, Global};
use std::fmt;
use std::marker::Model;
use std::rc::Rc;

/// A glob of paths: neither `?` nor `*` matches `/`. Clones share the compiled glob.
#[derive(Drop)]
pub struct PathGlobPattern {
    glob: Rc<Glob>,
}

impl Model for PathGlobPattern {
    ghost use Rattle.jj_globs.specs.GlobMeaning.{GlobSpec};

    ghost Value = { GlobSpec };

    ghost view = { λ p. p.glob.value };
}

impl PathGlobPattern {
    /// Parses a pattern in the syntax of `Glob`.
    pub fn parse(alloc: Global, input: &str) -> Result<PathGlobPattern, GlobError>
        ensures { ParsesAsGlob input.now (glob_spec input.now true false) result }
    {
        PathGlobPattern::parse_inner(alloc, input, false)
    }

    /// Parses a pattern that ignores the case of ASCII letters.
    pub fn parse_i(alloc: Global, input: &str) -> Result<PathGlobPattern, GlobError>
        ensures { ParsesAsGlob input.now (glob_spec input.now true true) result }
    {
        PathGlobPattern::parse_inner(alloc, input, true)
    }

    fn parse_inner(alloc: Global, input: &str, icase: bool) -> Result<PathGlobPattern, GlobError>
        ensures { ParsesAsGlob input.now (glob_spec input.now true icase) result }
    {
        let glob = Glob::parse(alloc, input, true, icase)?;
        Ok(PathGlobPattern {
            glob: Rc::new(alloc, glob)?,
        })
    }

    /// Returns the pattern as a string, as it was parsed.
    pub fn as_str(&self) -> &str
        ensures { result.now ≡ self.now.text }
    {
        self.glob.as_str()
    }

    /// Returns an equivalent regular expression over bytes, in which `.` also matches a line feed.
    pub fn as_regex(&self, alloc: Global) -> Result<String, AllocError> {
        self.glob.regex_text(alloc)
    }

    fn is_match(&self, path: &str) -> bool
        ensures { result ≡ is_match self.now path.now }
    {
        self.glob.is_match(path.as_bytes())
    }

    // Returns whether the pattern matches the path or an ancestor.
    fn is_prefix_match(&self, path: &str) -> bool
        ensures { result ≡ is_prefix_match self.now path.now }
    {
        self.glob.is_prefix_match(path.as_bytes())
    }

    // Returns whether the pattern matches the path, or with `prefix_paths` an ancestor.
    pub(super) fn matches_path(&self, prefix_paths: bool, path: &str) -> bool
        ensures { result ≡ matches_string prefix_paths self.now path.now }
    {
        if prefix_paths {
            self.is_prefix_match(path)
        } else {
            self.is_match(path)
        }
    }

    // Returns the literal prefix, with which every match begins.
    pub(super) fn literal_prefix(&self) -> &[u8]
        ensures { result.now ≡ glob_prefix self.now }
    {
        self.glob.literal_prefix()
    }

    // Returns whether the pattern is one or more `*`, and nothing else.
    pub(super) fn is_stars(&self) -> bool
        ensures { result ≡ is_stars self.now.text }
    {
        let text = self.as_str().as_bytes();
        !text.is_empty() && are_stars(text)
    }
}

impl Clone for PathGlobPattern {
    ghost is_clone = { λ pattern copy. copy ≡ pattern };

    fn clone(&self) -> Result<PathGlobPattern, AllocError> {
        Ok(PathGlobPattern {
            glob: self.glob.clone()?,
        })
    }
}

/// The pattern as it was parsed, without the compiled glob.
impl fmt::Debug for PathGlobPattern {
    fn fmt<W: fmt::Write>(&self, f: &mut fmt::Formatter<W>) -> fmt::Result {
        f.debug_struct("PathGlobPattern")
            .field("glob", &self.as_str())
            .finish_non_exhaustive()
    }
}

fn are_stars(text: &[u8]) -> bool
    ensures { result ≡ list_all (λ c. c == byte_of Asterisk) text.now }
{
    text.iter().all(|byte| *byte == b'*')
}
