//! Translation of string patterns to equivalent globs.
ghost use Rattle.std.specs.Prelude.{◌≡◌, ◌↔◌, ◌++◌, ◌∷◌, [], ℕ, List, IfOk, OnOk, IfSome, option_map, string_bytes};
ghost use Rattle.std.specs.Cow.{cow_str_bytes};
ghost use Rattle.jj_strings.specs.PatternGlobs.{equivalent_glob, glob_icase, substring_glob};

use crate::str_util::pattern::StringPattern;
use jj_globs::glob::escape;
use std::alloc::{AllocError, Global};
use std::borrow::CowStr;

impl StringPattern {
    ghost use Rattle.jj_globs.specs.GlobMeaning.{IsMatch};
    ghost use Rattle.jj_strings.specs.StringGlobs.{as_glob};
    ghost use Rattle.jj_strings.specs.StringSets.{InPattern, string_glob};
    ghost use Rattle.jj_strings.specs.PatternViews.{pattern_of};

    /// Returns a glob that matches exactly the strings of the pattern, if it is exact, a substring
    /// or a glob. Returns `None` for the case-insensitive kinds and for regular expressions.
    pub fn to_glob(&self, alloc: Global) -> Result<Option<CowStr<'_>>, AllocError>
        ensures text { IfOk result (λ glob. option_map cow_str_bytes glob
            ≡ equivalent_glob (pattern_of self.now)) }
        ensures set { IfOk result (λ glob. IfSome glob (λ text. (bytes : List ℕ)
            → IsMatch (as_glob (string_glob (cow_str_bytes text)
            (glob_icase (pattern_of self.now)))) bytes
            ↔ InPattern (pattern_of self.now) bytes)) }
    {
        self.as_glob_text(alloc)
    }

    fn as_glob_text(&self, alloc: Global) -> Result<Option<CowStr<'_>>, AllocError>
        ensures { IfOk result (λ glob. option_map cow_str_bytes glob
            ≡ equivalent_glob (pattern_of self.now)) }
    {
        match self {
            StringPattern::Exact(text) => {
                let glob = escape(alloc, text.as_str())?;
                Ok(Some(CowStr::Owned(glob)))
            }
            StringPattern::Substring(text) => {
                let glob = between_stars(alloc, text.as_str())?;
                Ok(Some(CowStr::Owned(glob)))
            }
            StringPattern::Glob(pattern) => Ok(Some(CowStr::Borrowed(pattern.as_str()))),
            _ => Ok(None),
        }
    }
}

// Returns the glob of all strings that contain this one.
fn between_stars(alloc: Global, text: &str) -> Result<String, AllocError>
    ensures { IfOk result (λ glob. string_bytes glob ≡ substring_glob text.now) }
{
    let mut glob = String::from_str(alloc, "*")?;
    if !text.is_empty() {
        glob.push_str(escape(alloc, text)?.as_str())?;
        glob.push('*')?;
    }
    Ok(glob)
}
