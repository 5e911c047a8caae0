//! Records and enums with hand-written `ContentHash`, whose laws follow from those of their fields.
ghost use Rattle.std.specs.Prelude.{◌≡◌, ℕ, ◌++◌, List, OnOk, OnErr};
ghost use Rattle.jj_content.specs.Content.{Absorbs, AbsorbsPrefix, IsLawful};
ghost use Rattle.jj_content.specs.PrefixFreeProofs.{on_lawful, both_lawful, list_lawful, option_lawful, i32_lawful, i64_lawful};

use jj_content::content_hash::{ContentHash, DigestUpdate, hash_both, hash_three};
use std::alloc::{AllocError, Global};

/// A record with a list of options.
#[derive(Debug, PartialEq, Eq, Drop)]
pub struct Foo {
    pub x: Vec<Option<i32>>,
    pub y: i64,
}

impl ContentHash for Foo {
    ghost is_value = { λ r. ⟦<Vec<Option<i32>> as ContentHash>⟧.is_value r.x
        × ⟦<i64 as ContentHash>⟧.is_value r.y };

    ghost content = { λ r. ⟦<Vec<Option<i32>> as ContentHash>⟧.content r.x
        ++ ⟦<i64 as ContentHash>⟧.content r.y };

    ghost lawful = { both_lawful (on_lawful (λ r. r.x.items)
        (list_lawful (option_lawful i32_lawful))) (on_lawful (λ r. r.y) i64_lawful) };

    fn hash<D: DigestUpdate>(&self, alloc: Global, state: &mut D) -> Result<(), AllocError> {
        hash_both(alloc, &self.x, &self.y, state)
    }
}

/// A generic record.
#[derive(Debug, PartialEq, Eq, Drop)]
pub struct GenericFoo<X, Y> {
    pub x: X,
    pub y: Y,
}

impl<X: ContentHash, Y: ContentHash> ContentHash for GenericFoo<X, Y> {
    ghost is_value = { λ r. X.is_value r.x × Y.is_value r.y };

    ghost content = { λ r. X.content r.x ++ Y.content r.y };

    ghost lawful = { both_lawful (on_lawful (λ r. r.x) X.lawful) (on_lawful (λ r. r.y) Y.lawful) };

    fn hash<D: DigestUpdate>(&self, alloc: Global, state: &mut D) -> Result<(), AllocError> {
        hash_both(alloc, &self.x, &self.y, state)
    }
}

/// A note on some lines of a file.
#[derive(Debug, PartialEq, Eq, Drop)]
pub struct Note {
    pub text: String,
    pub lines: Vec<u32>,
}

impl ContentHash for Note {
    ghost use Rattle.std.specs.Prelude.{OnOk, OnErr, string_bytes};
    ghost use Rattle.jj_content.specs.Content.{Absorbs, AbsorbsPrefix, IsLawful};
    ghost use Rattle.jj_content.specs.PrefixFreeProofs.{string_lawful, u32_lawful};
    ghost use Rattle.jj_content_tests.specs.Notes.{note_content, IsNote};

    ghost is_value = { IsNote };

    ghost content = { note_content };

    ghost lawful = { both_lawful (on_lawful (λ note. string_bytes note.text) string_lawful)
        (on_lawful (λ note. note.lines.items) (list_lawful u32_lawful)) };

    fn hash<D: DigestUpdate>(&self, alloc: Global, state: &mut D) -> Result<(), AllocError> {
        hash_both(alloc, &self.text, &self.lines, state)
    }
}

/// A review of a file.
#[derive(Debug, PartialEq, Eq, Drop)]
pub struct Review {
    pub summary: Note,
    pub notes: Vec<Note>,
}

impl ContentHash for Review {
    ghost use Rattle.std.specs.Prelude.{OnOk, OnErr};
    ghost use Rattle.jj_content.specs.Content.{Absorbs, AbsorbsPrefix, IsLawful};
    ghost use Rattle.jj_content_tests.specs.Reviews.{review_content, IsReview};
    ghost use Rattle.jj_content_tests.specs.ReviewLaw.{review_lawful};

    ghost is_value = { IsReview };

    ghost content = { review_content };

    ghost lawful = { review_lawful };

    fn hash<D: DigestUpdate>(&self, alloc: Global, state: &mut D) -> Result<(), AllocError> {
        hash_both(alloc, &self.summary, &self.notes, state)
    }
}

/// A tuple struct with one field.
#[derive(Debug, PartialEq, Eq, Clone, Copy)]
pub struct Single(pub i32);

impl ContentHash for Single {
    ghost is_value = { λ r. ⟦<i32 as ContentHash>⟧.is_value r.0 };

    ghost content = { λ r. ⟦<i32 as ContentHash>⟧.content r.0 };

    ghost lawful = { on_lawful (λ r. r.0) i32_lawful };

    fn hash<D: DigestUpdate>(&self, alloc: Global, state: &mut D) -> Result<(), AllocError> {
        self.0.hash(alloc, state)
    }
}

/// A tuple struct with three fields.
#[derive(Debug, PartialEq, Eq, Clone, Copy)]
pub struct Triple(pub i32, pub i32, pub i32);

impl ContentHash for Triple {
    ghost is_value = { λ r. ⟦<i32 as ContentHash>⟧.is_value r.0
        × (⟦<i32 as ContentHash>⟧.is_value r.1 × ⟦<i32 as ContentHash>⟧.is_value r.2) };

    ghost content = { λ r. ⟦<i32 as ContentHash>⟧.content r.0
        ++ (⟦<i32 as ContentHash>⟧.content r.1 ++ ⟦<i32 as ContentHash>⟧.content r.2) };

    ghost lawful = { both_lawful (on_lawful (λ r. r.0) i32_lawful)
        (both_lawful (on_lawful (λ r. r.1) i32_lawful) (on_lawful (λ r. r.2) i32_lawful)) };

    fn hash<D: DigestUpdate>(&self, alloc: Global, state: &mut D) -> Result<(), AllocError> {
        hash_three(alloc, &self.0, &self.1, &self.2, state)
    }
}

/// A tuple struct with four fields.
#[derive(Debug, PartialEq, Eq, Clone, Copy)]
pub struct Quadruple(pub i32, pub i32, pub i32, pub i32);

impl ContentHash for Quadruple {
    ghost is_value = { λ r. ⟦<i32 as ContentHash>⟧.is_value r.0
        × (⟦<i32 as ContentHash>⟧.is_value r.1
        × (⟦<i32 as ContentHash>⟧.is_value r.2 × ⟦<i32 as ContentHash>⟧.is_value r.3)) };

    ghost content = { λ r. ⟦<i32 as ContentHash>⟧.content r.0
        ++ (⟦<i32 as ContentHash>⟧.content r.1
        ++ (⟦<i32 as ContentHash>⟧.content r.2 ++ ⟦<i32 as ContentHash>⟧.content r.3)) };

    ghost lawful = { both_lawful (on_lawful (λ r. r.0) i32_lawful)
        (both_lawful (on_lawful (λ r. r.1) i32_lawful)
        (both_lawful (on_lawful (λ r. r.2) i32_lawful) (on_lawful (λ r. r.3) i32_lawful))) };

    #[tactic(auto, using(jj_content::proofs::AbsorbedPrefixes::prefixes))]
    fn hash<D: DigestUpdate>(&self, alloc: Global, state: &mut D) -> Result<(), AllocError> {
        self.0.hash(alloc, state)?;
        hash_three(alloc, &self.1, &self.2, &self.3, state)
    }
}

/// An optional number, as a user-defined enum.
#[derive(Debug, PartialEq, Eq, Clone, Copy)]
pub enum Maybe {
    Nothing,
    Just(i32),
}

impl ContentHash for Maybe {
    ghost use Rattle.std.specs.Prelude.{OnOk, OnErr};
    ghost use Rattle.jj_content.specs.Content.{Absorbs, AbsorbsPrefix, IsLawful};
    ghost use Rattle.jj_content_tests.specs.MaybeContent.{maybe_content, IsMaybe};
    ghost use Rattle.jj_content_tests.specs.MaybeLaw.{maybe_lawful};

    ghost is_value = { IsMaybe };

    ghost content = { maybe_content };

    ghost lawful = { maybe_lawful };

    fn hash<D: DigestUpdate>(&self, alloc: Global, state: &mut D) -> Result<(), AllocError> {
        match self {
            Maybe::Nothing => 0u32.hash(alloc, state),
            Maybe::Just(number) => {
                1u32.hash(alloc, state)?;
                number.hash(alloc, state)
            }
        }
    }
}

/// The kind of a file system entry: variants with two, one and no fields.
#[derive(Debug, PartialEq, Eq, Drop)]
pub enum Kind {
    File { id: Vec<u8>, executable: bool },
    Symlink(u64),
    Absent,
}

impl ContentHash for Kind {
    ghost use Rattle.std.specs.Prelude.{OnOk, OnErr};
    ghost use Rattle.jj_content.specs.Content.{Absorbs, AbsorbsPrefix, IsLawful};
    ghost use Rattle.jj_content_tests.specs.KindContent.{kind_content, IsKind};
    ghost use Rattle.jj_content_tests.specs.KindLaw.{kind_lawful};

    ghost is_value = { IsKind };

    ghost content = { kind_content };

    ghost lawful = { kind_lawful };

    fn hash<D: DigestUpdate>(&self, alloc: Global, state: &mut D) -> Result<(), AllocError> {
        match self {
            Kind::File { id, executable } => {
                0u32.hash(alloc, state)?;
                hash_both(alloc, id, executable, state)
            }
            Kind::Symlink(target) => {
                1u32.hash(alloc, state)?;
                target.hash(alloc, state)
            }
            Kind::Absent => 2u32.hash(alloc, state),
        }
    }
}
