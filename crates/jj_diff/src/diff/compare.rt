//! Comparisons of byte strings: exact, without white space, or with one space for each run of it.
ghost use Rattle.std.specs.Prelude.{◌≡◌, ◌++◌, ℕ, List, OnOk, IsTrue, IsFalse};
ghost use Rattle.jj_diff.specs.Whitespace.{without_whitespace, with_single_spaces};
ghost use Rattle.jj_diff.specs.Compare.{joins_exactly, joins_without_whitespace, joins_spaced};

use super::whitespace::{is_same_form, push_form};
use std::alloc::AllocError;

/// A comparison of byte strings: those with the same canonical form are equal.
pub trait CompareBytes {
    /// The canonical form of a byte string.
    ghost canonical: { List ℕ → List ℕ };

    /// Returns whether the byte strings have the same canonical form.
    fn eq(&self, left: &[u8], right: &[u8]) -> bool
        ensures equal { IsTrue result → canonical left.now ≡ canonical right.now }
        ensures different { IsFalse result → ¬ (canonical left.now ≡ canonical right.now) };

    /// Appends the canonical form of `text` to `form`.
    fn push_canonical(&self, text: &[u8], form: &mut Vec<u8>) -> Result<(), AllocError>
        ensures { OnOk result (form.new.items ≡ form.old.items ++ canonical text.now) };

    /// Strings whose parts are equal are equal.
    ghost joins: { (x y z w : List ℕ) → canonical x ≡ canonical y → canonical z ≡ canonical w
        → canonical (x ++ z) ≡ canonical (y ++ w) };
}

/// Compares byte strings as they are.
#[derive(Copy, Clone, Debug, Drop)]
pub struct CompareBytesExactly;

/// Compares byte strings without their ASCII white space.
#[derive(Copy, Clone, Debug, Drop)]
pub struct CompareBytesIgnoreAllWhitespace;

/// Compares byte strings with one space for each run of ASCII white space.
#[derive(Copy, Clone, Debug, Drop)]
pub struct CompareBytesIgnoreWhitespaceAmount;

impl CompareBytes for CompareBytesExactly {
    ghost canonical = { λ text. text };

    fn eq(&self, left: &[u8], right: &[u8]) -> bool {
        left == right
    }

    fn push_canonical(&self, text: &[u8], form: &mut Vec<u8>) -> Result<(), AllocError> {
        form.extend_from_slice(text)
    }

    ghost joins = { joins_exactly };
}

impl CompareBytes for CompareBytesIgnoreAllWhitespace {
    ghost canonical = { without_whitespace };

    fn eq(&self, left: &[u8], right: &[u8]) -> bool {
        is_same_form(left, right, true)
    }

    fn push_canonical(&self, text: &[u8], form: &mut Vec<u8>) -> Result<(), AllocError> {
        push_form(text, true, form)
    }

    ghost joins = { joins_without_whitespace };
}

impl CompareBytes for CompareBytesIgnoreWhitespaceAmount {
    ghost canonical = { with_single_spaces };

    fn eq(&self, left: &[u8], right: &[u8]) -> bool {
        is_same_form(left, right, false)
    }

    fn push_canonical(&self, text: &[u8], form: &mut Vec<u8>) -> Result<(), AllocError> {
        push_form(text, false, form)
    }

    ghost joins = { joins_spaced };
}
