//! Iterator over the lines of a byte string that match.
ghost use Rattle.std.specs.Prelude.{◌≡◌, ◌<◌, ◌∷◌, length};
ghost use Rattle.jj_strings.specs.Lines.{lines, without_line_feed, first_len};

use crate::str_util::matcher::StringMatcher;
use crate::str_util::searcher::StringSearcher;
use std::alloc::{AllocError, Global};

/// Iterator over matching lines with their line feeds, in order. Yields an error only if the
/// matcher contains a regular expression, and ends after it.
#[derive(Drop)]
pub struct MatchLines<'a, 'm> {
    searcher: StringSearcher<'m>,
    rest: &'a [u8],
}

impl StringMatcher {
    ghost use Rattle.jj_strings.specs.LineViews.{matcher_of, rest_of};

    /// Iterates over the lines that match. A line is matched without its line feed, and yielded
    /// with it. Allocates only if the matcher contains a regular expression.
    pub fn match_lines<'a, 'm>(&'m self, alloc: Global, text: &'a [u8]) -> MatchLines<'a, 'm>
        ensures matcher { matcher_of result ≡ self.now }
        ensures rest { rest_of result ≡ text.now }
    {
        MatchLines {
            searcher: self.searcher(alloc),
            rest: text,
        }
    }
}

impl<'a, 'm> Iterator for MatchLines<'a, 'm> {
    ghost use Rattle.std.specs.Iterator.{at_most};
    ghost use Rattle.jj_strings.specs.StringMatchers.{InMatcher, MayAllocate};
    ghost use Rattle.jj_strings.specs.Lines.{YieldsNextLine};
    ghost use Rattle.jj_strings.specs.Searchers.{searcher_matcher};

    type Item = Result<&'a [u8], AllocError>;

    ghost next_gives = { λ s r t. YieldsNextLine (InMatcher (searcher_matcher s.searcher))
        (MayAllocate (searcher_matcher s.searcher)) s.rest.now r t.rest.now
        × (searcher_matcher t.searcher ≡ searcher_matcher s.searcher) };

    ghost remaining = { λ s. at_most (length s.rest.now) };

    fn next(&mut self) -> Option<Result<&'a [u8], AllocError>> {
        while !self.rest.is_empty() {
            let (line, rest) = split_line(self.rest);
            self.rest = rest;
            match self.searcher.is_match_bytes(strip_line_feed(line)) {
                Ok(true) => return Some(Ok(line)),
                Ok(false) => {}
                Err(error) => {
                    self.rest = &rest[rest.len()..];
                    return Some(Err(error));
                }
            }
        }
        None
    }
}

// Splits off the first line.
fn split_line(text: &[u8]) -> (&[u8], &[u8])
    requires { 0 < length text.now }
    ensures lines { lines text.now ≡ result.0.now ∷ lines result.1.now }
    ensures shorter { length result.1.now < length text.now }
{
    text.split_at(first_line_len(text))
}

// Returns the length of the first line with its line feed.
fn first_line_len(text: &[u8]) -> usize
    ensures { result ≡ first_len text.now }
{
    for (at, byte) in text.iter().enumerate() {
        if *byte == b'\n' {
            return at + 1;
        }
    }
    text.len()
}

// Strips the line feed, if there is one.
fn strip_line_feed(line: &[u8]) -> &[u8]
    ensures { result.now ≡ without_line_feed line.now }
{
    match line.split_last() {
        Some((last, prefix)) => { if *last == b'\n' { prefix } else { line } }
        None => line,
    }
}
