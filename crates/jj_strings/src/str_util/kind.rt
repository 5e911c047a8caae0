//! Kinds of string patterns.
ghost use Rattle.std.specs.Prelude.{◌≡◌};

/// A kind of string pattern. Those that end in `I` are case-insensitive.
#[derive(Clone, Copy, Drop)]
pub enum PatternKind {
    Exact,
    ExactI,
    Substring,
    SubstringI,
    Glob,
    GlobI,
    Regex,
    RegexI,
}

impl PatternKind {
    ghost use Rattle.jj_strings.specs.PatternKinds.{kind_named};

    /// Returns the kind of this name, such as `substring-i`.
    pub fn from_name(name: &str) -> Option<PatternKind>
        ensures { result ≡ kind_named name.now }
    {
        match name {
            "exact" => Some(PatternKind::Exact),
            "exact-i" => Some(PatternKind::ExactI),
            "substring" => Some(PatternKind::Substring),
            "substring-i" => Some(PatternKind::SubstringI),
            "glob" => Some(PatternKind::Glob),
            "glob-i" => Some(PatternKind::GlobI),
            "regex" => Some(PatternKind::Regex),
            "regex-i" => Some(PatternKind::RegexI),
            _ => None,
        }
    }
}
