//! Decoding of names, of every kind.
ghost use Rattle.std.specs.Prelude.{◌≡◌, ℕ, ◌<◌, ◌≤◌, ◌^◌, List, length, ◌++◌, IfOk, IfErr};
ghost use Rattle.jj_content.specs.Content.{string_content};
ghost use Rattle.jj_decode.specs.Contents.{AreContents, IsContentOf};
ghost use Rattle.jj_decode.specs.ContentsProofs.{string_contents};
ghost use Rattle.jj_decode.specs.Decoding.{IsContentAt, IsMalformedAt, IsString};
ghost use Rattle.jj_decode.specs.Errors.{StringErrors};

use crate::error::DecodeError;
use crate::read_content::ReadContent;
use jj_ids::ref_name::NameBuf;
use std::alloc::Global;

impl<K: Drop> ReadContent for NameBuf<K> {
    ghost is_content = { IsContentOf IsString string_content };

    ghost errors = { StringErrors };

    ghost contents = { string_contents };

    fn read(alloc: Global, bytes: &[u8], start: usize) -> Result<(Self, usize), DecodeError> {
        let (text, end) = String::read(alloc, bytes, start)?;
        Ok((NameBuf::from(text), end))
    }
}
