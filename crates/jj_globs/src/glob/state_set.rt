//! Sets of NFA states as two-level bitmaps: a summary has a bit for each word, so that 64 empty
//! words are skipped at once.
ghost use Rattle.std.specs.Prelude.{true, [], ◌≡◌, ◌≢◌, ◌↔◌, ◌⊎◌, ℕ, ◌+◌, ◌*◌, ◌<◌, ◌≤◌, length, None, IfSome};
ghost use Rattle.std.specs.Int.{bit_at};
ghost use Rattle.jj_globs.specs.GlobNfa.{HasBit};

use std::marker::Model;

// The most words of a set.
pub(crate) const MAX_WORDS: usize = 16_384;

// The most words of a summary.
pub(crate) const MAX_SUMMARY_WORDS: usize = 256;

/// A set of NFA states as a two-level bitmap: bit `w` of the summary is set if word `w` is not
/// zero. Contracts see the words.
#[derive(Drop)]
pub struct StateSet<const WORDS: usize, const GROUPS: usize> {
    words: [u64; WORDS],
    summary: [u64; GROUPS],
}

impl<const WORDS: usize, const GROUPS: usize> Model for StateSet<WORDS, GROUPS> {
    ghost use Rattle.std.specs.Prelude.{ℕ, List};
    ghost use Rattle.jj_globs.specs.GlobNfa.{IsSummary};

    ghost Value = { List ℕ };

    ghost view = { λ r. r.words };

    ghost invariant = { λ r. IsSummary r.words r.summary };
}

impl<const WORDS: usize, const GROUPS: usize> StateSet<WORDS, GROUPS> {
    pub(crate) fn new() -> Self
        requires room { WORDS ≤ 64 * GROUPS }
        requires limit { GROUPS ≤ MAX_SUMMARY_WORDS }
        ensures { (j : ℕ) → HasBit result j → ⊥ }
    {
        StateSet {
            words: [0; WORDS],
            summary: [0; GROUPS],
        }
    }

    pub(crate) fn insert(&mut self, index: usize)
        requires room { index < 64 * WORDS }
        ensures live { (j : ℕ) → HasBit self.new j ↔ (HasBit self.old j ⊎ (j ≡ index)) }
    {
        insert(&mut self.words, index);
        insert(&mut self.summary, index / 64);
    }

    // Removes and returns the least state. The search starts at `from`, below which there is none.
    pub(crate) fn pop_first(&mut self, from: usize) -> Option<usize>
        requires from { (j : ℕ) → HasBit self.old j → from ≤ j }
        ensures none { result ≡ None → (j : ℕ) → HasBit self.old j → ⊥ }
        ensures left { result ≡ None → (j : ℕ) → HasBit self.new j → ⊥ }
        ensures taken { IfSome result (λ index. HasBit self.old index
            × ((j : ℕ) → HasBit self.new j ↔ (HasBit self.old j × (j ≢ index)))) }
        ensures first { IfSome result (λ index. (from ≤ index)
            × ((j : ℕ) → HasBit self.old j → index ≤ j)) }
    {
        let word = first_bit(&self.summary, from / 64)?;
        let bits = self.words[word];
        let low = lowest_bit(bits);
        let index = word * 64 + low;
        let others = bits & !(1u64 << low);
        self.words[word] = others;
        clear_if_zero(&mut self.summary, word, others);
        Some(index)
    }

    pub(crate) fn is_empty(&self) -> bool
        ensures { result ≡ true → (j : ℕ) → HasBit self.now j → ⊥ }
    {
        match first_bit(&self.summary, 0) {
            None => true,
            Some(_) => false,
        }
    }
}

// Sets a bit.
pub(crate) fn insert(words: &mut [u64], index: usize)
    requires room { index < 64 * length words.old }
    ensures live { (j : ℕ) → HasBit words.new j ↔ (HasBit words.old j ⊎ (j ≡ index)) }
    ensures len { length words.new ≡ length words.old }
{
    let word = index / 64;
    words[word] = words[word] | 1u64 << (index % 64);
}

// Clears a bit.
fn clear_bit(words: &mut [u64], index: usize)
    requires room { index < 64 * length words.old }
    ensures live { (j : ℕ) → HasBit words.new j ↔ (HasBit words.old j × (j ≢ index)) }
    ensures len { length words.new ≡ length words.old }
{
    let word = index / 64;
    words[word] = words[word] & !(1u64 << (index % 64));
}

// Clears the bit of a word in the summary if no bit of the word is left.
fn clear_if_zero(summary: &mut [u64], word: usize, left: u64)
    requires room { word < 64 * length summary.old }
    ensures emptied { left ≡ 0
        → (w : ℕ) → HasBit summary.new w ↔ (HasBit summary.old w × (w ≢ word)) }
    ensures kept { left ≢ 0 → summary.new ≡ summary.old }
    ensures len { length summary.new ≡ length summary.old }
{
    if left == 0 {
        clear_bit(summary, word);
    }
}

pub(crate) fn lowest_bit(bits: u64) -> usize
    requires some { bits ≢ 0 }
    ensures { (result < 64) × (bit_at bits result ≡ 1)
        × ((i : ℕ) → i < result → bit_at bits i ≡ 0) }
{
    bits.trailing_zeros() as usize
}

// Returns the index of the first bit that is set. The search starts at `from`, below which there is
// none.
fn first_bit(words: &[u64], from: usize) -> Option<usize>
    requires from { (j : ℕ) → HasBit words.now j → from ≤ j }
    requires room { length words.now ≤ MAX_WORDS }
    ensures none { result ≡ None → (j : ℕ) → HasBit words.now j → ⊥ }
    ensures first { IfSome result (λ index. HasBit words.now index
        × ((j : ℕ) → HasBit words.now j → index ≤ j)) }
{
    let mut word = from / 64;
    while word < words.len() {
        let bits = words[word];
        if bits != 0 {
            return Some(word * 64 + lowest_bit(bits));
        }
        word += 1;
    }
    None
}
