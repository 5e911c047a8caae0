//! The stored values of files and symbolic links.
ghost use Rattle.std.specs.Prelude.{◌≡◌, ℕ, List, string_bytes};
ghost use Rattle.std.specs.Cmp;
ghost use Rattle.std.specs.Cmp.Lexicographic.{nat_list_eq_equiv};
ghost use Rattle.std.specs.Str.{bytes_eq};

use std::alloc::AllocError;
use std::marker::Model;

#[derive(Drop)]
pub(super) struct FileContent {
    pub(super) bytes: Vec<u8>,
}

impl Model for FileContent {
    ghost Value = { List ℕ };

    ghost view = { λ content. content.bytes.items };
}

impl Clone for FileContent {
    ghost is_clone = { λ content c. c ≡ content };

    fn clone(&self) -> Result<Self, AllocError> {
        Ok(FileContent {
            bytes: self.bytes.clone()?,
        })
    }
}

impl PartialEq for FileContent {
    ghost eq = { bytes_eq };

    ghost laws = { Cmp.partial_equiv_from_equiv nat_list_eq_equiv };

    fn eq(&self, other: &FileContent) -> bool {
        self.bytes == other.bytes
    }
}

#[derive(Drop)]
pub(super) struct LinkTarget {
    pub(super) text: String,
}

impl Model for LinkTarget {
    ghost Value = { List ℕ };

    ghost view = { λ target. string_bytes target.text };
}

impl Clone for LinkTarget {
    ghost is_clone = { λ target c. c ≡ target };

    fn clone(&self) -> Result<Self, AllocError> {
        Ok(LinkTarget {
            text: self.text.clone()?,
        })
    }
}

impl PartialEq for LinkTarget {
    ghost eq = { bytes_eq };

    ghost laws = { Cmp.partial_equiv_from_equiv nat_list_eq_equiv };

    fn eq(&self, other: &LinkTarget) -> bool {
        self.text == other.text
    }
}
