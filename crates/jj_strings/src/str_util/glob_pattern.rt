//! Globs as string patterns: without separator, so that `?` and `*` match `/` too.
ghost use Rattle.std.specs.Prelude.{◌≡◌, ◌↔◌, IsTrue};
ghost use Rattle.jj_globs.specs.GlobParsing.{ParsesAsGlob};
ghost use Rattle.jj_strings.specs.StringSets.{string_glob};

use jj_globs::glob::{Glob, GlobError};
use std::alloc::{AllocError, Global};
use std::fmt;
use std::marker::Model;
use std::rc::Rc;

/// A glob without separator. Contracts see its string and whether it ignores ASCII case. A clone
/// shares the compiled glob.
#[derive(Drop)]
pub struct GlobPattern {
    parsed: Rc<Glob>,
}

impl Model for GlobPattern {
    ghost use Rattle.std.specs.Prelude.{◌≡◌, false};
    ghost use Rattle.jj_strings.specs.StringGlobs.{StringGlob};

    ghost Value = { StringGlob };

    ghost view = { λ p. record {
      text = p.parsed.value.text;
      icase = p.parsed.value.options.icase;
    } };

    ghost invariant = { λ p. p.parsed.value.options.separator ≡ false };
}

impl GlobPattern {
    ghost use Rattle.jj_globs.specs.GlobMeaning.{IsMatch};
    ghost use Rattle.jj_strings.specs.StringGlobs.{as_glob};

    // Parses a glob; with `icase`, ASCII letters match in either case.
    pub(crate) fn parse(alloc: Global, text: &str, icase: bool) -> Result<GlobPattern, GlobError>
        ensures { ParsesAsGlob text.now (string_glob text.now icase) result }
    {
        let glob = Glob::parse(alloc, text, false, icase)?;
        Ok(GlobPattern {
            parsed: Rc::new(alloc, glob)?,
        })
    }

    /// Returns the string that was parsed.
    pub fn as_str(&self) -> &str
        ensures { result.now ≡ self.now.text }
    {
        self.parsed.as_str()
    }

    // Returns an equivalent regular expression.
    pub(crate) fn regex_text(&self, alloc: Global) -> Result<String, AllocError> {
        self.parsed.regex_text(alloc)
    }

    // Whether the glob matches the bytes.
    pub(crate) fn is_match(&self, bytes: &[u8]) -> bool
        ensures { IsTrue result ↔ IsMatch (as_glob self.now) bytes.now }
    {
        self.parsed.is_match(bytes)
    }
}

impl Clone for GlobPattern {
    ghost is_clone = { λ pattern copy. copy ≡ pattern };

    fn clone(&self) -> Result<GlobPattern, AllocError> {
        Ok(GlobPattern {
            parsed: self.parsed.clone()?,
        })
    }
}

impl fmt::Debug for GlobPattern {
    fn fmt<W: fmt::Write>(&self, f: &mut fmt::Formatter<W>) -> fmt::Result {
        f.debug_tuple("GlobPattern").field(&self.as_str()).finish()
    }
}
