//! Lexical roles of bytes in a pattern.
ghost use Rattle.std.specs.Prelude.{◌≡◌, ℕ, [], ◌∷◌, map, MatchOption};
ghost use Rattle.jj_globs.specs.GlobSyntax.{symbol_of, byte_of};

/// A byte of a pattern by its role in the syntax.
#[derive(Clone, Copy, Drop)]
pub enum Symbol {
    Question,
    Asterisk,
    Slash,
    OpenBrace,
    Comma,
    CloseBrace,
    OpenBracket,
    CloseBracket,
    Bang,
    Caret,
    Dash,
    Backslash,
    Other(u8),
}

/// The position of a `**` in its sequence, as the token before it determines.
#[derive(Clone, Copy, Drop)]
pub enum Position {
    Start,
    LeadingRun,
    InnerRun,
    AfterSlash,
    Elsewhere,
}

impl Symbol {
    /// Returns the role of a byte.
    pub fn of(byte: u8) -> Symbol
        ensures { result ≡ symbol_of byte }
    {
        match byte {
            b'?' => Symbol::Question,
            b'*' => Symbol::Asterisk,
            b'/' => Symbol::Slash,
            b'{' => Symbol::OpenBrace,
            b',' => Symbol::Comma,
            b'}' => Symbol::CloseBrace,
            b'[' => Symbol::OpenBracket,
            b']' => Symbol::CloseBracket,
            b'!' => Symbol::Bang,
            b'^' => Symbol::Caret,
            b'-' => Symbol::Dash,
            b'\\' => Symbol::Backslash,
            _ => Symbol::Other(byte),
        }
    }

    /// Returns the byte.
    pub fn byte(self) -> u8
        ensures { result ≡ byte_of self }
    {
        match self {
            Symbol::Question => b'?',
            Symbol::Asterisk => b'*',
            Symbol::Slash => b'/',
            Symbol::OpenBrace => b'{',
            Symbol::Comma => b',',
            Symbol::CloseBrace => b'}',
            Symbol::OpenBracket => b'[',
            Symbol::CloseBracket => b']',
            Symbol::Bang => b'!',
            Symbol::Caret => b'^',
            Symbol::Dash => b'-',
            Symbol::Backslash => b'\\',
            Symbol::Other(byte) => byte,
        }
    }
}

// Splits off the first byte, by its role.
pub(crate) fn next_symbol(text: &[u8]) -> Option<(Symbol, &[u8])>
    ensures { MatchOption result (text.now ≡ [])
        (λ next. map symbol_of text.now ≡ next.0 ∷ map symbol_of next.1.now) }
{
    let (first, rest) = text.split_first()?;
    Some((Symbol::of(*first), rest))
}
