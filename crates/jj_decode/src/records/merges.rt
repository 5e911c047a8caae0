//! Decoding of merges. A list of an even length is malformed.
ghost use Rattle.std.specs.Prelude.{◌≡◌, ℕ, ◌<◌, ◌≤◌, ◌^◌, List, length, ◌++◌, IfOk, IfErr};
ghost use Rattle.jj_content.specs.Content.{list_content};
ghost use Rattle.jj_decode.specs.Contents.{AreContents, IsContentOf};
ghost use Rattle.jj_decode.specs.Decoding.{IsContentAt, IsMalformedAt};
ghost use Rattle.jj_merges.specs.Contents.{IsMergeOf};
ghost use Rattle.jj_merges.specs.Merge.{IsOdd};
ghost use Rattle.jj_decode.specs.MergeContents.{MergeContents, merge_contents};
ghost use Rattle.jj_decode.specs.Errors.{MergeErrors};

use crate::error::DecodeError;
use crate::lists::{read_count, read_items};
use crate::read_content::ReadContent;
use jj_merges::merge::{Merge, MergeBuilder};
use std::alloc::{AllocError, Global};

// Builds a merge of an odd number of terms.
fn merge_of<T: Drop>(alloc: Global, terms: Vec<T>) -> Result<Merge<T>, AllocError>
    requires { IsOdd (length terms.items) }
    ensures { IfOk result (λ merge. merge ≡ terms.items) }
{
    let mut builder = MergeBuilder::default(alloc);
    builder.extend(alloc, terms)?;
    Ok(builder.build())
}

/// Reads the number of terms, and fails before it allocates if that is even.
impl<T: ReadContent> ReadContent for Merge<T> {
    ghost is_content = { MergeContents T.is_content };

    ghost errors = { MergeErrors T.is_value T.content T.errors };

    ghost contents = { merge_contents T.contents };

    fn read(alloc: Global, bytes: &[u8], start: usize) -> Result<(Self, usize), DecodeError> {
        let (count, mid) = read_count(bytes, start)?;
        if count % 2 == 0 {
            return Err(DecodeError::invalid_value(start));
        }
        let (terms, end) = read_items(alloc, bytes, mid, count)?;
        let merge = merge_of(alloc, terms)?;
        Ok((merge, end))
    }
}
