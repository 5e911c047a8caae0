//! Tokens of a glob: its parts, and the delimiters of groups.
ghost use Rattle.std.specs.Prelude.{◌≡◌, Bool, List, ℕ};

use crate::glob::byte_set::ByteSet;
use std::marker::Model;

/// Options of a match: with `separator`, `?` and `*` do not match `/`; with `icase`, ASCII letters
/// match in either case.
#[derive(Clone, Copy)]
pub struct Options {
    pub separator: bool,
    pub icase: bool,
}

/// An inclusive range of bytes.
#[derive(Clone, Copy)]
pub struct ByteRange {
    pub first: u8,
    pub last: u8,
}

/// A character class. Contracts see whether it is negated, and its ranges in order.
#[derive(Drop)]
pub struct Class {
    negated: bool,
    ranges: Vec<ByteRange>,
}

impl Model for Class {
    ghost use Rattle.std.specs.Prelude.{Bool, List};
    ghost use Rattle.jj_globs.specs.declared.glob.token.ByteRange.{ByteRange};

    ghost Value = { Bool × List ByteRange };

    ghost view = { λ c. (c.negated, c.ranges.items) };
}

/// A part of a glob without groups, which matches independently of its neighbors.
#[derive(Drop)]
pub enum Part {
    /// This byte.
    Byte(u8),
    /// `?`
    AnyByte,
    /// `*`
    Star,
    /// `**/` at the start of a sequence.
    LeadingDirs,
    /// `/**/`
    InnerDirs,
    /// `/**` at the end of a sequence.
    Below,
    /// The whole glob is `**`.
    Everything,
    /// `[..]`
    OneOf(Class),
}

/// A part, or a delimiter of a group: `{`, `,` or `}`.
#[derive(Drop)]
pub enum Token {
    Part(Part),
    Open,
    Or,
    Close,
}

impl Options {
    ghost use Rattle.jj_globs.specs.GlobMeaning.{same_byte, is_plain};

    /// Returns whether the bytes are equal, with `icase` up to ASCII case.
    pub fn same_byte(self, a: u8, b: u8) -> bool
        ensures { result ≡ same_byte self a b }
    {
        if self.icase {
            a.to_ascii_lowercase() == b.to_ascii_lowercase()
        } else {
            a == b
        }
    }

    /// Returns whether `?` and `*` match the byte.
    pub fn is_plain(self, byte: u8) -> bool
        ensures { result ≡ is_plain self byte }
    {
        !(self.separator && byte == b'/')
    }
}

impl ByteRange {
    ghost use Rattle.jj_globs.specs.GlobMeaning.{in_range};

    /// Creates a range of one byte.
    pub fn one(byte: u8) -> ByteRange
        ensures { result ≡ record { first = byte; last = byte } }
    {
        ByteRange {
            first: byte,
            last: byte,
        }
    }

    /// Returns whether the byte is in the range.
    pub fn contains(self, byte: u8) -> bool
        ensures { result ≡ in_range byte self }
    {
        self.first <= byte && byte <= self.last
    }
}

impl Class {
    ghost use Rattle.jj_globs.specs.GlobMeaning.{in_class};
    ghost use Rattle.jj_globs.specs.GlobNfa.{in_set};

    /// Creates a class of these ranges, or with `negated` of all other bytes.
    pub fn new(negated: bool, ranges: Vec<ByteRange>) -> Class
        ensures { result ≡ (negated, ranges.items) }
    {
        Class { negated, ranges }
    }

    /// Returns whether the class matches the bytes outside of its ranges.
    pub fn is_negated(&self) -> bool
        ensures { result ≡ self.now.0 }
    {
        self.negated
    }

    /// Returns the ranges in order.
    pub fn ranges(&self) -> &[ByteRange]
        ensures { result.now ≡ self.now.1 }
    {
        self.ranges.as_slice()
    }

    /// Returns the set of bytes that the class matches.
    pub fn set(&self, options: Options) -> ByteSet
        ensures { (b : ℕ) → in_set result b ≡ in_class options self.now b }
    {
        ByteSet::from_ranges(self.ranges.as_slice(), options, self.negated)
    }
}
