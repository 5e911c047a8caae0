//! String patterns: exact, substring, glob or regular expression, each also case-insensitive.
ghost use Rattle.std.specs.Prelude.{◌≡◌, ◌↔◌, ℕ, [], Bool, true, false, IsTrue, IsOk, IfOk, IfErr, OnOk, MatchOption, MatchResult, option_map, is_some, string_bytes};
ghost use Rattle.std.specs.List.{list_any};
ghost use Rattle.jj_globs.specs.GlobEscape.{is_special};

use crate::str_util::error::StringPatternParseError;
use crate::str_util::glob_pattern::GlobPattern;
use crate::str_util::kind::PatternKind;
use jj_globs::glob::is_special;
use regex::RegexBuilder;
use regex::bytes::Regex;
use std::alloc::{AllocError, Global};
use std::rc::Rc;

/// A string pattern. Variants that end in `I` ignore the case of ASCII letters, and `RegexI` that
/// of all letters.
#[derive(Debug, Drop)]
pub enum StringPattern {
    /// Matches this string only.
    Exact(String),
    ExactI(String),
    /// Matches every string that contains this one.
    Substring(String),
    SubstringI(String),
    /// Matches every string that the glob matches.
    Glob(Box<GlobPattern>),
    GlobI(Box<GlobPattern>),
    /// Matches every string in which the regular expression has a match.
    Regex(Rc<Regex>),
    RegexI(Rc<Regex>),
}

impl StringPattern {
    ghost use Rattle.jj_strings.specs.StringSets.{exact, exact_i, substring, substring_i, glob_i, glob_or_exact, string_glob, source_of, is_all, exact_string};
    ghost use Rattle.jj_strings.specs.PatternViews.{pattern_of};
    ghost use Rattle.jj_strings.specs.PatternErrors.{IsGlobError, IsRegexError};
    ghost use Rattle.jj_strings.specs.PatternKinds.{kind_named, ParsesAsKind, IsUnknownKind, IsRegexOf, IsRegexIOf, bytes_config, bytes_config_i};

    /// Creates a pattern that matches every string.
    pub fn all(alloc: Global) -> Self
        ensures { pattern_of result ≡ substring [] }
    {
        StringPattern::Substring(String::new(alloc))
    }

    /// Creates a pattern that matches this string only.
    pub fn exact(text: String) -> Self
        ensures { pattern_of result ≡ exact (string_bytes text) }
    {
        StringPattern::Exact(text)
    }

    /// Creates a pattern that matches this string in any ASCII case.
    pub fn exact_i(text: String) -> Self
        ensures { pattern_of result ≡ exact_i (string_bytes text) }
    {
        StringPattern::ExactI(text)
    }

    /// Creates a pattern that matches every string that contains this one.
    pub fn substring(text: String) -> Self
        ensures { pattern_of result ≡ substring (string_bytes text) }
    {
        StringPattern::Substring(text)
    }

    /// Creates a pattern that matches every string that contains this one in any ASCII case.
    pub fn substring_i(text: String) -> Self
        ensures { pattern_of result ≡ substring_i (string_bytes text) }
    {
        StringPattern::SubstringI(text)
    }

    /// Parses a glob. A string without any of `? * [ ] { } \` becomes an exact pattern. Fails with
    /// the first syntax error, or if memory runs out.
    pub fn glob(alloc: Global, text: &str) -> Result<Self, StringPatternParseError>
        ensures { MatchResult result (λ pattern. pattern_of pattern ≡ glob_or_exact text.now)
            (IsGlobError text.now) }
    {
        if !has_special(text) {
            return Ok(StringPattern::exact(String::from_str(alloc, text)?));
        }
        let pattern = GlobPattern::parse(alloc, text, false)?;
        Ok(StringPattern::Glob(Box::new(alloc, pattern)?))
    }

    /// Parses a glob that matches ASCII letters in either case. Fails with the first syntax error,
    /// or if memory runs out.
    pub fn glob_i(alloc: Global, text: &str) -> Result<Self, StringPatternParseError>
        ensures { MatchResult result (λ pattern. pattern_of pattern
            ≡ glob_i (string_glob text.now true)) (IsGlobError text.now) }
    {
        let pattern = GlobPattern::parse(alloc, text, true)?;
        Ok(StringPattern::GlobI(Box::new(alloc, pattern)?))
    }

    /// Parses a regular expression. Fails if it is malformed or too large, or if memory runs out.
    pub fn regex(alloc: Global, text: &str) -> Result<Self, StringPatternParseError>
        ensures { MatchResult result (λ pattern.
            IsRegexOf bytes_config text.now (pattern_of pattern))
            (IsRegexError bytes_config text.now) }
    {
        let pattern = Regex::new(alloc, text)?;
        Ok(StringPattern::Regex(Rc::new(alloc, pattern)?))
    }

    /// Parses a regular expression that matches letters in either case. Fails if it is malformed or
    /// too large, or if memory runs out.
    pub fn regex_i(alloc: Global, text: &str) -> Result<Self, StringPatternParseError>
        ensures { MatchResult result (λ pattern.
            IsRegexIOf bytes_config_i text.now (pattern_of pattern))
            (IsRegexError bytes_config_i text.now) }
    {
        let pattern = RegexBuilder::new(text)
            .case_insensitive(true)
            .build_bytes(alloc)?;
        Ok(StringPattern::RegexI(Rc::new(alloc, pattern)?))
    }

    /// Parses a pattern of a kind: `exact`, `substring`, `glob`, `regex`, each also with `-i`.
    /// Fails with `InvalidKind` for any other kind, with the error of a malformed glob or regular
    /// expression, or if memory runs out.
    pub fn from_str_kind(
        alloc: Global,
        text: &str,
        kind: &str,
    ) -> Result<Self, StringPatternParseError>
        ensures { MatchOption (kind_named kind.now) (IsUnknownKind kind.now result)
            (λ k. ParsesAsKind k text.now result) }
    {
        let Some(kind) = PatternKind::from_name(kind) else {
            let kind = String::from_str(alloc, kind)?;
            return Err(StringPatternParseError::InvalidKind(kind));
        };
        match kind {
            PatternKind::Exact => Ok(StringPattern::exact(String::from_str(alloc, text)?)),
            PatternKind::ExactI => Ok(StringPattern::exact_i(String::from_str(alloc, text)?)),
            PatternKind::Substring => Ok(StringPattern::substring(String::from_str(alloc, text)?)),
            PatternKind::SubstringI => Ok(StringPattern::substring_i(String::from_str(
                alloc, text,
            )?)),
            PatternKind::Glob => StringPattern::glob(alloc, text),
            PatternKind::GlobI => StringPattern::glob_i(alloc, text),
            PatternKind::Regex => StringPattern::regex(alloc, text),
            PatternKind::RegexI => StringPattern::regex_i(alloc, text),
        }
    }

    /// Returns whether the pattern trivially matches every string: an empty substring, an empty
    /// regular expression, or the glob `*`.
    pub fn is_all(&self) -> bool
        ensures { result ≡ is_all (pattern_of self.now) }
    {
        match self {
            StringPattern::Exact(_) => false,
            StringPattern::ExactI(_) => false,
            StringPattern::Substring(text) => text.is_empty(),
            StringPattern::SubstringI(text) => text.is_empty(),
            StringPattern::Glob(pattern) => pattern.as_str() == "*",
            StringPattern::GlobI(pattern) => pattern.as_str() == "*",
            StringPattern::Regex(pattern) => pattern.as_str().is_empty(),
            StringPattern::RegexI(pattern) => pattern.as_str().is_empty(),
        }
    }

    /// Returns whether the pattern is exact.
    pub fn is_exact(&self) -> bool
        ensures { result ≡ is_some (exact_string (pattern_of self.now)) }
    {
        self.as_exact().is_some()
    }

    /// Returns the string of an exact pattern, else `None`.
    pub fn as_exact(&self) -> Option<&str>
        ensures { option_map (λ text. text.now) result ≡ exact_string (pattern_of self.now) }
    {
        match self {
            StringPattern::Exact(text) => Some(text.as_str()),
            _ => None,
        }
    }

    /// Returns the string that the pattern was created from.
    pub fn as_str(&self) -> &str
        ensures { result.now ≡ source_of (pattern_of self.now) }
    {
        match self {
            StringPattern::Exact(text) => text.as_str(),
            StringPattern::ExactI(text) => text.as_str(),
            StringPattern::Substring(text) => text.as_str(),
            StringPattern::SubstringI(text) => text.as_str(),
            StringPattern::Glob(pattern) => pattern.as_str(),
            StringPattern::GlobI(pattern) => pattern.as_str(),
            StringPattern::Regex(pattern) => pattern.as_str(),
            StringPattern::RegexI(pattern) => pattern.as_str(),
        }
    }
}

fn has_special(text: &str) -> bool
    ensures { result ≡ list_any is_special text.now }
{
    text.as_bytes().iter().any(|byte| is_special(*byte))
}

impl Clone for StringPattern {
    ghost use Rattle.jj_strings.specs.PatternViews.{pattern_of};

    ghost is_clone = { λ pattern copy. pattern_of copy ≡ pattern_of pattern };

    fn clone(&self) -> Result<StringPattern, AllocError> {
        match self {
            StringPattern::Exact(text) => Ok(StringPattern::Exact(text.clone()?)),
            StringPattern::ExactI(text) => Ok(StringPattern::ExactI(text.clone()?)),
            StringPattern::Substring(text) => Ok(StringPattern::Substring(text.clone()?)),
            StringPattern::SubstringI(text) => Ok(StringPattern::SubstringI(text.clone()?)),
            StringPattern::Glob(pattern) => Ok(StringPattern::Glob(pattern.clone()?)),
            StringPattern::GlobI(pattern) => Ok(StringPattern::GlobI(pattern.clone()?)),
            StringPattern::Regex(pattern) => Ok(StringPattern::Regex(pattern.clone()?)),
            StringPattern::RegexI(pattern) => Ok(StringPattern::RegexI(pattern.clone()?)),
        }
    }
}
