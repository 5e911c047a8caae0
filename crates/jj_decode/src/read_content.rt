//! Types that can be decoded from their content.
ghost use Rattle.std.specs.Prelude.{◌≡◌, ℕ, ◌<◌, ◌≤◌, ◌^◌, ◌∷◌, [], List, length, ◌++◌, IfOk, IfErr, FitsSigned, ⊤};
ghost use Rattle.std.specs.Int.{w32, w64};
ghost use Rattle.std.specs.Str.{IsUtf8};
ghost use Rattle.std.specs.String.{string_bytes};
ghost use Rattle.jj_content.specs.Content.{u32_content, u64_content, i32_content, i64_content, bool_content, string_content};
ghost use Rattle.jj_decode.specs.Contents.{AreContents, IsContentOf, BothContents, OptionContents, ListContents};
ghost use Rattle.jj_decode.specs.ContentsProofs.{contents_on, u8_contents, u32_contents, u64_contents, i32_contents, i64_contents, bool_contents, both_contents, option_contents, list_contents, string_contents};
ghost use Rattle.jj_decode.specs.Decoding.{IsContentAt, IsMalformedAt, IsString, AreBoth, both_content};
ghost use Rattle.jj_decode.specs.Errors.{BoolErrors, BothErrors, IntegerErrors, ListErrors, OptionErrors, StringErrors};
ghost use Rattle.jj_decode.specs.declared.error.DecodeError.{DecodeError as ErrorValue};

use crate::error::DecodeError;
use crate::integers::{read_u8, read_u32, read_u64};
use crate::lists::read_list;
use crate::strings::read_str;
use jj_content::content_hash::ContentHash;
use std::alloc::Global;

/// A type whose values can be decoded from their content. `()` is no such type: its content is
/// empty, so a count of eight bytes could announce a list of any length.
pub trait ReadContent: ContentHash + Drop {
    /// The set of contents of the type.
    ghost is_content: { List ℕ → Type 0 };

    /// The errors of reading a value, by the bytes and the offset of the value in them: the first
    /// part that the bytes lack, or `Memory` for items that they announce and are long enough for.
    ghost errors: { List ℕ → ℕ → ErrorValue → Type 0 };

    /// Reads a value whose content begins at `start`. Returns it and the offset after its content.
    /// Returns `DecodeError::Malformed` only if no content of the type begins there. Linear in the
    /// bytes read, apart from maps and sets; recursion is as deep as the type is nested, whatever
    /// the bytes are. A count is checked against the number of remaining bytes before memory is
    /// allocated for the items.
    fn read(alloc: Global, bytes: &[u8], start: usize) -> Result<(Self, usize), DecodeError>
        // The offset is within the bytes.
        requires { start ≤ length bytes.now }
        // The bytes from `start` to the offset returned are the content of the value.
        ensures decoded { IfOk result (λ decoded.
            IsContentAt Self.is_value Self.content bytes.now start decoded.0 decoded.1) }
        // Unless memory ran out, no content of the type begins at `start`.
        ensures malformed { IfErr result (IsMalformedAt is_content bytes.now start) }
        // The error is one of the type's, with its reason and offset.
        ensures error { IfErr result (errors bytes.now start) };

    /// The set includes the content of each value, is prefix-free, and has no empty member.
    ghost contents: { AreContents Self.is_value Self.content is_content };
}

impl ReadContent for u8 {
    ghost is_content = { IsContentOf (λ n. n < 2 ^ 8) (λ n. n ∷ []) };

    ghost errors = { IntegerErrors 1 };

    ghost contents = { u8_contents };

    fn read(_alloc: Global, bytes: &[u8], start: usize) -> Result<(Self, usize), DecodeError> {
        read_u8(bytes, start)
    }
}

impl ReadContent for u32 {
    ghost is_content = { IsContentOf (λ n. n < 2 ^ 32) u32_content };

    ghost errors = { IntegerErrors 4 };

    ghost contents = { u32_contents };

    fn read(_alloc: Global, bytes: &[u8], start: usize) -> Result<(Self, usize), DecodeError> {
        read_u32(bytes, start)
    }
}

impl ReadContent for u64 {
    ghost is_content = { IsContentOf (λ n. n < 2 ^ 64) u64_content };

    ghost errors = { IntegerErrors 8 };

    ghost contents = { u64_contents };

    fn read(_alloc: Global, bytes: &[u8], start: usize) -> Result<(Self, usize), DecodeError> {
        read_u64(bytes, start)
    }
}

impl ReadContent for i32 {
    ghost is_content = { IsContentOf (FitsSigned w32) i32_content };

    ghost errors = { IntegerErrors 4 };

    ghost contents = { i32_contents };

    fn read(_alloc: Global, bytes: &[u8], start: usize) -> Result<(Self, usize), DecodeError> {
        let (bits, end) = read_u32(bytes, start)?;
        Ok((bits.cast_signed(), end))
    }
}

impl ReadContent for i64 {
    ghost is_content = { IsContentOf (FitsSigned w64) i64_content };

    ghost errors = { IntegerErrors 8 };

    ghost contents = { i64_contents };

    fn read(_alloc: Global, bytes: &[u8], start: usize) -> Result<(Self, usize), DecodeError> {
        let (bits, end) = read_u64(bytes, start)?;
        Ok((bits.cast_signed(), end))
    }
}

impl ReadContent for bool {
    ghost is_content = { IsContentOf (λ _. ⊤) bool_content };

    ghost errors = { BoolErrors };

    ghost contents = { bool_contents };

    #[tactic(auto, unfolding(jj_content::specs::Content::bool_content))]
    fn read(_alloc: Global, bytes: &[u8], start: usize) -> Result<(Self, usize), DecodeError> {
        let (tag, end) = read_u8(bytes, start)?;
        match tag {
            0 => Ok((false, end)),
            1 => Ok((true, end)),
            _ => Err(DecodeError::unknown_tag(start)),
        }
    }
}

impl ReadContent for String {
    ghost is_content = { IsContentOf IsString string_content };

    ghost errors = { StringErrors };

    ghost contents = { contents_on (λ s. string_bytes s) string_contents };

    fn read(alloc: Global, bytes: &[u8], start: usize) -> Result<(Self, usize), DecodeError> {
        let (string, end) = read_str(bytes, start)?;
        Ok((String::from_str(alloc, string)?, end))
    }
}

impl<T: ReadContent> ReadContent for Option<T> {
    ghost is_content = { OptionContents T.is_content };

    ghost errors = { OptionErrors T.errors };

    ghost contents = { option_contents T.contents };

    fn read(alloc: Global, bytes: &[u8], start: usize) -> Result<(Self, usize), DecodeError> {
        let (tag, mid) = read_u32(bytes, start)?;
        match tag {
            0 => Ok((None, mid)),
            1 => {
                let (value, end) = T::read(alloc, bytes, mid)?;
                Ok((Some(value), end))
            }
            _ => Err(DecodeError::unknown_tag(start)),
        }
    }
}

impl<T: ReadContent> ReadContent for Vec<T> {
    ghost is_content = { ListContents T.is_content };

    ghost errors = { ListErrors T.is_value T.content T.errors };

    ghost contents = { contents_on (λ v. v.items) (list_contents T.contents) };

    fn read(alloc: Global, bytes: &[u8], start: usize) -> Result<(Self, usize), DecodeError> {
        let (items, end) = read_list(alloc, bytes, start)?;
        Ok((items, end))
    }
}

/// Reads two values, one after the other. Returns them and the offset after the second. Nests to
/// the right for more values, as `(A, (B, C))`.
pub fn read_both<A: ReadContent, B: ReadContent>(
    alloc: Global,
    bytes: &[u8],
    start: usize,
) -> Result<((A, B), usize), DecodeError>
    requires { start ≤ length bytes.now }
    ensures decoded { IfOk result (λ decoded. IsContentAt (AreBoth A.is_value B.is_value)
        (both_content A.content B.content) bytes.now start decoded.0 decoded.1) }
    ensures malformed { IfErr result (IsMalformedAt (BothContents A.is_content B.is_content)
        bytes.now start) }
    ensures error { IfErr result (BothErrors A.is_value A.content A.errors B.errors
        bytes.now start) }
{
    let (first, mid) = A::read(alloc, bytes, start)?;
    let (second, end) = B::read(alloc, bytes, mid)?;
    Ok(((first, second), end))
}
