//! Set of bytes as a bitmap of 256 bits: a compiled character class.
ghost use Rattle.std.specs.Prelude.{false, ◌≡◌, ◌↔◌, ◌⊎◌, ℕ, length, IsTrue};
ghost use Rattle.jj_globs.specs.GlobNfa.{HasBit, in_set};
ghost use Rattle.jj_globs.specs.GlobMeaning.{in_class, in_range, any_range, lower, upper};

use crate::glob::state_set::insert;
use crate::glob::token::{ByteRange, Class, Options};

/// A set of bytes, complemented if `negated`. Byte `b` is bit `b % 64` of word `b / 64`.
#[derive(Clone, Copy, Drop)]
pub struct ByteSet {
    pub words: [u64; 4],
    pub negated: bool,
}

impl ByteSet {
    pub(crate) fn contains(&self, byte: u8) -> bool
        ensures { result ≡ in_set self.now byte }
    {
        let found = self.words[(byte / 64) as usize] >> (byte % 64) & 1 == 1;
        if self.negated { !found } else { found }
    }

    // Builds the set of a character class: the union of the ranges, closed under ASCII case with
    // `icase`, complemented if `negated`.
    pub(crate) fn from_ranges(ranges: &[ByteRange], options: Options, negated: bool) -> ByteSet
        ensures { (b : ℕ) → in_set result b ≡ in_class options (negated, ranges.now) b }
    {
        let mut words = [0u64; 4];
        insert_ranges(&mut words, ranges);
        if options.icase {
            let found = ByteSet {
                words,
                negated: false,
            };
            insert_other_case(&mut words, found);
        }
        ByteSet { words, negated }
    }
}

fn insert_ranges(words: &mut [u64], ranges: &[ByteRange])
    requires room { length words.old ≡ 4 }
    requires none { (b : ℕ) → HasBit words.old b → ⊥ }
    ensures live { (b : ℕ) → HasBit words.new b ↔ IsTrue (any_range b ranges.now) }
    ensures len { length words.new ≡ 4 }
{
    for range in ranges {
        insert_range(words, *range);
    }
}

fn insert_range(words: &mut [u64], range: ByteRange)
    requires room { length words.old ≡ 4 }
    ensures live { (b : ℕ) → HasBit words.new b ↔ (HasBit words.old b ⊎ IsTrue (in_range b range)) }
    ensures len { length words.new ≡ 4 }
{
    for byte in range.first as usize..range.last as usize + 1 {
        insert(words, byte);
    }
}

// Closes the set under ASCII case. `found` is the set before.
fn insert_other_case(words: &mut [u64], found: ByteSet)
    requires room { length words.old ≡ 4 }
    requires same { found.words ≡ words.old }
    requires plain { found.negated ≡ false }
    ensures live { (b : ℕ) → HasBit words.new b
        ↔ (HasBit words.old b ⊎ (HasBit words.old (lower b) ⊎ HasBit words.old (upper b))) }
    ensures len { length words.new ≡ 4 }
{
    for byte in 0..256usize {
        if contains_either_case(found, byte as u8) {
            insert(words, byte);
        }
    }
}

fn contains_either_case(found: ByteSet, byte: u8) -> bool
    requires plain { found.negated ≡ false }
    ensures { IsTrue result ↔ (HasBit found.words (lower byte) ⊎ HasBit found.words (upper byte)) }
{
    found.contains(byte.to_ascii_lowercase()) || found.contains(byte.to_ascii_uppercase())
}
