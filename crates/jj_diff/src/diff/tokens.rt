//! Tokenizers: split byte strings into lines, words or other tokens.
ghost use Rattle.std.specs.Prelude.{◌≡◌, ℕ, ◌+◌, ◌<◌, ◌≤◌, List, length, filter, IfOk, IsTrue, IsFalse};
ghost use Rattle.std.specs.List.{range_with_len};
ghost use Rattle.jj_diff.specs.Tokens.{is_line_end, is_word_end, is_word_byte, TokenEnds, IsCut, IsTokenizer};
ghost use Rattle.jj_diff.specs.Tokenizers.{line_tokens, word_tokens};

use std::alloc::{AllocError, Global};

/// Splits byte strings into tokens without gaps: says where a token ends.
pub trait Tokenizer {
    /// Whether a token ends after so many bytes.
    ghost is_end: { Self → TokenEnds };

    /// Returns whether a token of `text` ends after the first `end` bytes.
    fn is_end(&self, text: &[u8], end: usize) -> bool
        requires positive { 0 < end }
        requires within { end ≤ length text.now }
        ensures { result ≡ is_end self.now text.now end };

    /// Returns the end of each token.
    #[tactic(auto, using(crate::proofs::TokenEnds::ends_steps))]
    fn find_ends(&self, alloc: Global, text: &[u8]) -> Result<Vec<usize>, AllocError>
        ensures { IfOk result (λ ends. ends.items
            ≡ filter (is_end self.now text.now) (range_with_len 1 (length text.now))) }
    {
        let mut ends = Vec::new(alloc);
        for index in 0..text.len() {
            if self.is_end(text, index + 1) {
                ends.push(index + 1)?;
            }
        }
        Ok(ends)
    }

    /// A token ends at the end, and a part from token to token has the tokens of the whole.
    ghost tokens: { (tokenizer : Self) → IsTokenizer (is_end tokenizer) };
}

/// Lines, as by `find_line_ends`.
#[derive(Copy, Clone, Debug, Drop)]
pub struct Lines;

/// Words and single other bytes, as by `find_word_ends`.
#[derive(Copy, Clone, Debug, Drop)]
pub struct Words;

impl Tokenizer for Lines {
    ghost is_end = { λ tokenizer. is_line_end };

    fn is_end(&self, text: &[u8], end: usize) -> bool {
        text[end - 1] == b'\n' || end == text.len()
    }

    ghost tokens = { λ tokenizer. line_tokens };
}

impl Tokenizer for Words {
    ghost is_end = { λ tokenizer. is_word_end };

    fn is_end(&self, text: &[u8], end: usize) -> bool {
        end == text.len() || !is_word_byte(text[end - 1]) || !is_word_byte(text[end])
    }

    ghost tokens = { λ tokenizer. word_tokens };
}

// Returns whether no token is only partly in the prefix of this length.
pub(super) fn is_cut<T: Tokenizer>(tokenizer: &T, text: &[u8], len: usize) -> bool
    requires { len ≤ length text.now }
    ensures cut { IsTrue result → IsCut (T.is_end tokenizer.now) text.now len }
    ensures no_cut { IsFalse result → ¬ (IsCut (T.is_end tokenizer.now) text.now len) }
{
    if len == 0 {
        return true;
    }
    tokenizer.is_end(text, len)
}

/// Returns the end of each line. A line includes its LF, which the last one may lack.
pub fn find_line_ends(alloc: Global, text: &[u8]) -> Result<Vec<usize>, AllocError>
    ensures { IfOk result
        (λ ends. ends.items ≡ filter (is_line_end text.now) (range_with_len 1 (length text.now))) }
{
    Lines.find_ends(alloc, text)
}

pub(super) fn is_word_byte(byte: u8) -> bool
    ensures { result ≡ is_word_byte byte }
{
    byte.is_ascii_alphanumeric() || byte == b'_' || byte >= 0x80
}

/// Returns the end of each word and of each other byte. Words are runs of ASCII letters, digits,
/// underscores and bytes of other characters.
pub fn find_word_ends(alloc: Global, text: &[u8]) -> Result<Vec<usize>, AllocError>
    ensures { IfOk result
        (λ ends. ends.items ≡ filter (is_word_end text.now) (range_with_len 1 (length text.now))) }
{
    Words.find_ends(alloc, text)
}
