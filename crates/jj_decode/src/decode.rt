//! Decoding of whole byte strings.
ghost use Rattle.std.specs.Prelude.{◌≡◌, ◌≤◌, IfOk, IfErr, OnOk, length};
ghost use Rattle.jj_decode.specs.Decoding.{DecodesTo};
ghost use Rattle.jj_decode.specs.Errors.{WholeErrors};

use crate::error::{DecodeError, Malformation};
use crate::read_content::ReadContent;
use jj_content::content_hash::content_of;
use std::alloc::Global;

/// Returns the value with this content. Returns `DecodeError::Malformed` if no value has it. Linear
/// in the number of bytes, apart from maps and sets: n keys of a `BTreeMap` take O(n log n)
/// comparisons, and n keys of a hash table O(n²), if they were chosen to have one hash.
pub fn decode_content<T: ReadContent>(alloc: Global, bytes: &[u8]) -> Result<T, DecodeError>
    // The content of the decoded value is these bytes: no two byte strings decode to equal values.
    ensures canonical { IfOk result (λ x. T.is_value x × (bytes.now ≡ T.content x)) }
    // If the bytes are the content of a value, the result is an equal value, or memory ran out.
    ensures complete { (x : T) → T.is_value x → bytes.now ≡ T.content x
        → DecodesTo (T.eq x) result }
    // An error names the first part that the bytes lack, or the first byte after the value. Memory
    // runs out only for items that the bytes announce and are long enough for.
    ensures error { IfErr result (WholeErrors T.is_value T.content T.errors bytes.now) }
{
    let (value, end) = T::read(alloc, bytes, 0)?;
    if end < bytes.len() {
        return Err(DecodeError::Malformed {
            reason: Malformation::TrailingBytes,
            offset: end,
        });
    }
    Ok(value)
}

/// Encodes a value and decodes the content: the result is an equal value, or memory ran out.
pub fn decode_encoded<T: ReadContent>(alloc: Global, value: &T) -> Result<T, DecodeError>
    // The result is an equal value, or memory ran out.
    ensures { DecodesTo (T.eq value.now) result }
{
    let bytes = content_of(alloc, value)?;
    decode_content(alloc, &bytes)
}
