//! Content hashing of merges: that of the list of terms.
ghost use Rattle.jj_content.specs.Content.{list_content};
ghost use Rattle.jj_merges.specs.Contents.{IsMergeOf, merge_lawful};

use super::Merge;
use jj_content::content_hash::{ContentHash, DigestUpdate};
use std::alloc::{AllocError, Global};

impl<T: ContentHash> ContentHash for Merge<T> {
    ghost is_value = { IsMergeOf T.is_value };

    ghost content = { list_content T.content };

    ghost lawful = { merge_lawful T.lawful };

    fn hash<D: DigestUpdate>(&self, alloc: Global, state: &mut D) -> Result<(), AllocError> {
        ContentHash::hash(&self.as_slice(), alloc, state)
    }
}
