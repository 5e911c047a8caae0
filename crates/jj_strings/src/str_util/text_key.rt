//! Map keys that are strings.
ghost use Rattle.std.specs.Prelude.{◌≡◌, ℕ, List, IfOk, refl, string_bytes};
ghost use Rattle.std.specs.Ordering.{nat_cmp};
ghost use Rattle.std.specs.Cmp.Lexicographic.{slice_cmp};

use jj_ids::ref_name::NameBuf;
use std::alloc::{AllocError, Global};

/// A map key that is a string, and is ordered as that string.
pub trait TextKey: Ord + Drop {
    /// The bytes of the string.
    ghost key_text: { Self → List ℕ };

    /// Returns the string.
    fn as_text(&self) -> &str
        ensures { result.now ≡ key_text self.now };

    /// Creates the key of a string. Fails if memory runs out.
    fn from_text(alloc: Global, text: &str) -> Result<Self, AllocError>
        ensures { IfOk result (λ key. key_text key ≡ text.now) };

    /// Keys are ordered as their strings.
    ghost ordered_as_text: { (a b : Self) → Self.cmp a b
        ≡ slice_cmp nat_cmp (key_text a) (key_text b) };
}

impl TextKey for String {
    ghost key_text = { λ key. string_bytes key };

    ghost ordered_as_text = { λ a b. refl };

    fn as_text(&self) -> &str {
        self.as_str()
    }

    fn from_text(alloc: Global, text: &str) -> Result<Self, AllocError> {
        String::from_str(alloc, text)
    }
}

impl<K: Drop> TextKey for NameBuf<K> {
    ghost key_text = { λ key. key };

    ghost ordered_as_text = { λ a b. refl };

    fn as_text(&self) -> &str {
        self.as_name().as_str()
    }

    fn from_text(alloc: Global, text: &str) -> Result<Self, AllocError> {
        NameBuf::from_text(alloc, text)
    }
}
