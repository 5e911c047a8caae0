//! Byte strings and UTF-8 strings: the length in bytes, then the bytes.
ghost use Rattle.std.specs.Prelude.{◌<◌, ◌≤◌, ◌^◌, ◌∷◌, [], length, IfOk, IfErr};
ghost use Rattle.jj_content.specs.Content.{string_content, list_content, AreValues};
ghost use Rattle.jj_decode.specs.Contents.{IsContentOf, ListContents};
ghost use Rattle.jj_decode.specs.Decoding.{IsContentAt, IsErrorAt, IsMalformedAt, FitsLength, IsString};
ghost use Rattle.jj_decode.specs.Errors.{CountErrors, StrErrors, BytesErrors};

use crate::error::DecodeError;
use crate::lists::read_count;
use std::alloc::Global;
use std::str::from_utf8;

/// Borrows a byte string. Returns it and the offset after it. Does not allocate.
pub fn read_byte_slice(bytes: &[u8], start: usize) -> Result<(&[u8], usize), DecodeError>
    requires { start ≤ length bytes.now }
    ensures decoded { IfOk result (λ decoded.
        IsContentAt FitsLength string_content bytes.now start decoded.0.now decoded.1) }
    ensures malformed { IfErr result (IsErrorAt FitsLength string_content bytes.now start) }
    ensures error { IfErr result (CountErrors bytes.now start) }
{
    let (count, mid) = read_count(bytes, start)?;
    let end = mid + count;
    Ok((&bytes[mid..end], end))
}

/// Reads a byte string. Returns it and the offset after it. The result is that of reading a
/// `Vec<u8>`, with one copy and one allocation.
pub fn read_bytes(
    alloc: Global,
    bytes: &[u8],
    start: usize,
) -> Result<(Vec<u8>, usize), DecodeError>
    requires { start ≤ length bytes.now }
    ensures decoded { IfOk result (λ decoded. IsContentAt (AreValues (λ n. n < 2 ^ 8))
        (list_content (λ n. n ∷ [])) bytes.now start decoded.0.items decoded.1) }
    ensures malformed { IfErr result (IsMalformedAt
        (ListContents (IsContentOf (λ n. n < 2 ^ 8) (λ n. n ∷ []))) bytes.now start) }
    ensures error { IfErr result (BytesErrors bytes.now start) }
{
    let (slice, end) = read_byte_slice(bytes, start)?;
    let owned = Vec::from_slice(alloc, slice)?;
    Ok((owned, end))
}

/// Borrows a string. Returns it and the offset after it. Does not allocate.
pub fn read_str(bytes: &[u8], start: usize) -> Result<(&str, usize), DecodeError>
    requires { start ≤ length bytes.now }
    ensures decoded { IfOk result (λ decoded.
        IsContentAt IsString string_content bytes.now start decoded.0.now decoded.1) }
    ensures malformed { IfErr result (IsErrorAt IsString string_content bytes.now start) }
    ensures error { IfErr result (StrErrors bytes.now start) }
{
    let (slice, end) = read_byte_slice(bytes, start)?;
    match from_utf8(slice) {
        Ok(string) => Ok((string, end)),
        Err(_) => Err(DecodeError::invalid_utf8(start)),
    }
}
