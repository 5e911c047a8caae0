//! Proved callers of globs.
ghost use Rattle.std.specs.Prelude.{◌≡◌, ◌↔◌, ℕ, List, map, true, false, IsTrue, IfOk, IfErr, string_bytes};
ghost use Rattle.jj_globs.specs.GlobGrammar.{IsSpelled};
ghost use Rattle.jj_globs.specs.GlobMeaning.{IsMatch, Matches, Sequence};
ghost use Rattle.jj_globs.specs.GlobParsing.{IsGlobParseError, glob_spec};
ghost use Rattle.jj_globs.specs.GlobSyntax.{tokens_of};
ghost use Rattle.jj_globs_tests.specs.Selected.{IsSelected};
ghost use Rattle.jj_globs_tests.specs.Spelled.{IsOnlySpelling, IsSpellingError};

use jj_globs::glob::{Glob, GlobError, escape};
use jj_globs::laws::{parsed_globs_are_spelled, spelled_globs_are_parsed, spelling_is_unique};
use std::alloc::{AllocError, Global};

/// Whether a pattern matches a path. Neither `?` nor `*` matches `/`. Fails with the first syntax
/// error of the pattern, or if memory runs out.
pub fn matches(alloc: Global, pattern: &str, path: &str) -> Result<bool, GlobError>
    ensures matched { IfOk result (λ yes. IsTrue yes
        ↔ IsMatch (glob_spec pattern.now true false) path.now) }
    ensures error { IfErr result (λ error. IsGlobParseError error (tokens_of pattern.now)) }
{
    let glob = Glob::parse(alloc, pattern, true, false)?;
    Ok(glob.is_match(path.as_bytes()))
}

/// Returns the paths that a pattern matches, in the order of the list.
pub fn selected<'a>(
    alloc: Global,
    pattern: &str,
    paths: &[&'a str],
) -> Result<Vec<&'a str>, GlobError>
    ensures selected { IfOk result (λ found. IsSelected
        (IsMatch (glob_spec pattern.now true false))
        (map (λ path. path.now) paths.now) (map (λ path. path.now) found.items)) }
    ensures error { IfErr result (λ error. IsGlobParseError error (tokens_of pattern.now)) }
{
    let glob = Glob::parse(alloc, pattern, true, false)?;
    let mut found = Vec::new(alloc);
    for path in paths {
        if glob.is_match(path.as_bytes()) {
            found.push(*path)?;
        }
    }
    Ok(found)
}

/// Returns a pattern that matches this path and no other string.
pub fn pattern_of(alloc: Global, path: &str) -> Result<String, AllocError>
    ensures { IfOk result (λ pattern. (text : List ℕ)
        → IsMatch (glob_spec (string_bytes pattern) true false) text ↔ (text ≡ path.now)) }
{
    escape(alloc, path)
}

/// Returns whether a path matches the syntax tree that a pattern spells by the grammar. A pattern
/// spells one tree, or none: then the result is an error.
pub fn matches_tree(alloc: Global, pattern: &str, path: &str) -> Result<bool, GlobError>
    ensures spelled { IfOk result (λ yes. (tree : Sequence) × IsOnlySpelling pattern.now tree) }
    ensures matched { IfOk result (λ yes. (tree : Sequence) → IsSpelled pattern.now tree
        → IsTrue yes ↔ Matches (glob_spec pattern.now true false).options tree path.now) }
    ensures error { IfErr result (IsSpellingError pattern.now) }
{
    parsed_globs_are_spelled();
    spelled_globs_are_parsed();
    spelling_is_unique();
    let glob = Glob::parse(alloc, pattern, true, false)?;
    Ok(glob.is_match(path.as_bytes()))
}
