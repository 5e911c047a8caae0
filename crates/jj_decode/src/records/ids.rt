//! Decoding of ids, of every kind.
ghost use Rattle.std.specs.Prelude.{◌≡◌, ℕ, ◌<◌, ◌≤◌, ◌^◌, ◌∷◌, [], List, length, ◌++◌, IfOk, IfErr};
ghost use Rattle.jj_content.specs.Content.{AreValues, list_content};
ghost use Rattle.jj_decode.specs.Contents.{AreContents, IsContentOf, ListContents};
ghost use Rattle.jj_decode.specs.ContentsProofs.{list_contents, u8_contents};
ghost use Rattle.jj_decode.specs.Decoding.{IsContentAt, IsMalformedAt};
ghost use Rattle.jj_decode.specs.Errors.{BytesErrors};

use crate::error::DecodeError;
use crate::read_content::ReadContent;
use crate::strings::read_bytes;
use jj_ids::object_id::Id;
use std::alloc::Global;

impl<K: Drop> ReadContent for Id<K> {
    ghost is_content = { ListContents (IsContentOf (λ byte. byte < 2 ^ 8) (λ byte. byte ∷ [])) };

    ghost errors = { BytesErrors };

    ghost contents = { list_contents u8_contents };

    fn read(alloc: Global, bytes: &[u8], start: usize) -> Result<(Self, usize), DecodeError> {
        let (id, end) = read_bytes(alloc, bytes, start)?;
        Ok((Id::new(id), end))
    }
}
