//! Translation of string patterns to regular expressions. The equivalence is tested, not proved.
use crate::str_util::glob_pattern::GlobPattern;
use crate::str_util::pattern::StringPattern;
use regex::bytes::Regex;
use regex::{Error, RegexBuilder, escape};
use std::alloc::{AllocError, Global};
use std::rc::Rc;

impl GlobPattern {
    /// Compiles an equivalent regular expression.
    pub fn to_regex(&self, alloc: Global) -> Result<Rc<Regex>, Error> {
        let text = self.regex_text(alloc)?;
        let regex = RegexBuilder::new(text.as_str())
            .dot_matches_new_line(true)
            .build_bytes(alloc)?;
        share(alloc, regex)
    }
}

impl StringPattern {
    /// Compiles an equivalent regular expression. From a case-insensitive pattern it ignores the
    /// case of all letters, not only of ASCII ones.
    pub fn to_regex(&self, alloc: Global) -> Result<Rc<Regex>, Error> {
        match self {
            StringPattern::Exact(text) => compile_exact(alloc, text.as_str(), false),
            StringPattern::ExactI(text) => compile_exact(alloc, text.as_str(), true),
            StringPattern::Substring(text) => compile_substring(alloc, text.as_str(), false),
            StringPattern::SubstringI(text) => compile_substring(alloc, text.as_str(), true),
            StringPattern::Glob(pattern) => pattern.to_regex(alloc),
            StringPattern::GlobI(pattern) => pattern.to_regex(alloc),
            StringPattern::Regex(regex) => Ok(regex.clone()?),
            StringPattern::RegexI(regex) => Ok(regex.clone()?),
        }
    }
}

// Compiles a regular expression that matches the whole string.
fn compile_exact(alloc: Global, text: &str, icase: bool) -> Result<Rc<Regex>, Error> {
    let mut source = String::from_str(alloc, "^")?;
    source.push_str(escape(alloc, text)?.as_str())?;
    source.push('$')?;
    compile_regex(alloc, source.as_str(), icase)
}

// Compiles a regular expression that matches a substring.
fn compile_substring(alloc: Global, text: &str, icase: bool) -> Result<Rc<Regex>, Error> {
    let source = escape(alloc, text)?;
    compile_regex(alloc, source.as_str(), icase)
}

fn compile_regex(alloc: Global, source: &str, icase: bool) -> Result<Rc<Regex>, Error> {
    let regex = RegexBuilder::new(source)
        .case_insensitive(icase)
        .build_bytes(alloc)?;
    share(alloc, regex)
}

fn share(alloc: Global, regex: Regex) -> Result<Rc<Regex>, Error> {
    Ok(Rc::new(alloc, regex).map_err(AllocError::from)?)
}
