//! Hexadecimal encoding and decoding with two alphabets: forward hex, `0` to `f`, and reverse hex,
//! `z` (0) down to `k` (15).
ghost use Rattle.std.specs.Prelude.{◌≡◌, nat_eq, ◌==◌, ℕ, ◌+◌, ◌*◌, ◌/◌, ◌%◌, ◌<◌, ◌≤◌, List, length, slice_index, All, IfOk, IsAscii, IfSome, Option, Some, None};
ghost use Rattle.std.specs.String.{string_bytes};
ghost use Rattle.std.specs.Str.{str_to_ascii_lowercase};
ghost use Rattle.std.specs.List.{common_prefix_len};
ghost use Rattle.jj_content.specs.Hex.{IsByte, hex, reverse_hex, encode_with, hex_digits, reverse_hex_digits, DecodesTo, IsDecoding, IsPrefixDecoding, digit_value};
ghost use Rattle.jj_content.specs.HexDigits.{digits_of};

use std::alloc::{AllocError, Global};
use std::convert::AsSlice;

const FORWARD_HEX_CHARS: &[u8; 16] = b"0123456789abcdef";

const REVERSE_HEX_CHARS: &[u8; 16] = b"zyxwvutsrqponmlk";

// The alphabet.
#[derive(Clone, Copy)]
enum Digits {
    Forward,
    Reverse,
}

// The value of each byte as a digit of forward hex, or 16 if it is not a digit. A table lookup
// avoids an unpredictable branch per digit.
const FORWARD_HEX_VALUES: [u8; 256] = [
    16, 16, 16, 16, 16, 16, 16, 16, 16, 16, 16, 16, 16, 16, 16, 16, 16, 16, 16, 16, 16, 16, 16, 16,
    16, 16, 16, 16, 16, 16, 16, 16, 16, 16, 16, 16, 16, 16, 16, 16, 16, 16, 16, 16, 16, 16, 16, 16,
    0, 1, 2, 3, 4, 5, 6, 7, 8, 9, 16, 16, 16, 16, 16, 16, 16, 10, 11, 12, 13, 14, 15, 16, 16, 16,
    16, 16, 16, 16, 16, 16, 16, 16, 16, 16, 16, 16, 16, 16, 16, 16, 16, 16, 16, 16, 16, 16, 16, 10,
    11, 12, 13, 14, 15, 16, 16, 16, 16, 16, 16, 16, 16, 16, 16, 16, 16, 16, 16, 16, 16, 16, 16, 16,
    16, 16, 16, 16, 16, 16, 16, 16, 16, 16, 16, 16, 16, 16, 16, 16, 16, 16, 16, 16, 16, 16, 16, 16,
    16, 16, 16, 16, 16, 16, 16, 16, 16, 16, 16, 16, 16, 16, 16, 16, 16, 16, 16, 16, 16, 16, 16, 16,
    16, 16, 16, 16, 16, 16, 16, 16, 16, 16, 16, 16, 16, 16, 16, 16, 16, 16, 16, 16, 16, 16, 16, 16,
    16, 16, 16, 16, 16, 16, 16, 16, 16, 16, 16, 16, 16, 16, 16, 16, 16, 16, 16, 16, 16, 16, 16, 16,
    16, 16, 16, 16, 16, 16, 16, 16, 16, 16, 16, 16, 16, 16, 16, 16, 16, 16, 16, 16, 16, 16, 16, 16,
    16, 16, 16, 16, 16, 16, 16, 16, 16, 16, 16, 16, 16, 16,
];

// The value of each byte as a digit of reverse hex, or 16 if it is not a digit.
const REVERSE_HEX_VALUES: [u8; 256] = [
    16, 16, 16, 16, 16, 16, 16, 16, 16, 16, 16, 16, 16, 16, 16, 16, 16, 16, 16, 16, 16, 16, 16, 16,
    16, 16, 16, 16, 16, 16, 16, 16, 16, 16, 16, 16, 16, 16, 16, 16, 16, 16, 16, 16, 16, 16, 16, 16,
    16, 16, 16, 16, 16, 16, 16, 16, 16, 16, 16, 16, 16, 16, 16, 16, 16, 16, 16, 16, 16, 16, 16, 16,
    16, 16, 16, 15, 14, 13, 12, 11, 10, 9, 8, 7, 6, 5, 4, 3, 2, 1, 0, 16, 16, 16, 16, 16, 16, 16,
    16, 16, 16, 16, 16, 16, 16, 16, 16, 15, 14, 13, 12, 11, 10, 9, 8, 7, 6, 5, 4, 3, 2, 1, 0, 16,
    16, 16, 16, 16, 16, 16, 16, 16, 16, 16, 16, 16, 16, 16, 16, 16, 16, 16, 16, 16, 16, 16, 16, 16,
    16, 16, 16, 16, 16, 16, 16, 16, 16, 16, 16, 16, 16, 16, 16, 16, 16, 16, 16, 16, 16, 16, 16, 16,
    16, 16, 16, 16, 16, 16, 16, 16, 16, 16, 16, 16, 16, 16, 16, 16, 16, 16, 16, 16, 16, 16, 16, 16,
    16, 16, 16, 16, 16, 16, 16, 16, 16, 16, 16, 16, 16, 16, 16, 16, 16, 16, 16, 16, 16, 16, 16, 16,
    16, 16, 16, 16, 16, 16, 16, 16, 16, 16, 16, 16, 16, 16, 16, 16, 16, 16, 16, 16, 16, 16, 16, 16,
    16, 16, 16, 16, 16, 16, 16, 16, 16, 16, 16, 16,
];

fn forward_hex_value(b: u8) -> Option<u8>
    ensures { result ≡ digit_value hex_digits b }
{
    let value = FORWARD_HEX_VALUES[b as usize];
    if value < 16 { Some(value) } else { None }
}

fn reverse_hex_value(b: u8) -> Option<u8>
    ensures { result ≡ digit_value reverse_hex_digits b }
{
    let value = REVERSE_HEX_VALUES[b as usize];
    if value < 16 { Some(value) } else { None }
}

fn hex_value(digits: Digits, b: u8) -> Option<u8>
    ensures value { result ≡ digit_value (digits_of digits) b }
    ensures small { IfSome result (λ v. v < 16) }
{
    match digits {
        Digits::Forward => forward_hex_value(b),
        Digits::Reverse => reverse_hex_value(b),
    }
}

fn byte_of_digits(high: u8, low: u8) -> u8
    requires high_fits { high < 16 }
    requires low_fits { low < 16 }
    ensures { result ≡ high * 16 + low }
{
    high << 4 | low
}

// Decodes pairs of digits. The low digit that an odd length lacks is 0; the flag is whether the
// length is odd. Returns `None` if a character is not a digit.
fn decode_hex_prefix_inner(
    alloc: Global,
    hex: &[u8],
    digits: Digits,
) -> Result<Option<(Vec<u8>, bool)>, AllocError>
    ensures { IfOk result
        (IsPrefixDecoding (λ bytes. bytes.items) (digits_of digits) hex.now) }
{
    let mut decoded = Vec::with_capacity(alloc, hex.len().div_ceil(2))?;
    let (pairs, rest) = hex.as_chunks::<2>();
    for pair in pairs {
        let Some(high) = hex_value(digits, pair[0]) else {
            return Ok(None);
        };
        let Some(low) = hex_value(digits, pair[1]) else {
            return Ok(None);
        };
        decoded.push(byte_of_digits(high, low))?;
    }
    let [last] = rest else {
        return Ok(Some((decoded, false)));
    };
    let Some(high) = hex_value(digits, *last) else {
        return Ok(None);
    };
    decoded.push(byte_of_digits(high, 0))?;
    Ok(Some((decoded, true)))
}

fn decode_hex_inner(
    alloc: Global,
    hex: &[u8],
    digits: Digits,
) -> Result<Option<Vec<u8>>, AllocError>
    ensures { IfOk result (IsDecoding (λ bytes. bytes.items) (digits_of digits) hex.now) }
{
    if hex.len() % 2 != 0 {
        return Ok(None);
    }
    match decode_hex_prefix_inner(alloc, hex, digits)? {
        Some((decoded, _)) => Ok(Some(decoded)),
        None => Ok(None),
    }
}

/// Decodes hex digits of either case. Returns `None` if the length is odd or a character is not a
/// digit.
pub fn decode_hex<H>(alloc: Global, hex: H) -> Result<Option<Vec<u8>>, AllocError>
where
    H: AsSlice<u8> + Drop,
    ensures { IfOk result (IsDecoding (λ bytes. bytes.items) hex_digits (H.items hex)) }
{
    decode_hex_inner(alloc, hex.as_slice(), Digits::Forward)
}

/// Decodes reverse hex digits of either case. Returns `None` if the length is odd or a character is
/// not a digit.
pub fn decode_reverse_hex<H>(alloc: Global, reverse_hex: H) -> Result<Option<Vec<u8>>, AllocError>
where
    H: AsSlice<u8> + Drop,
    ensures { IfOk result
        (IsDecoding (λ bytes. bytes.items) reverse_hex_digits (H.items reverse_hex)) }
{
    decode_hex_inner(alloc, reverse_hex.as_slice(), Digits::Reverse)
}

/// Decodes hex digits of either case, and returns whether their number is odd. The last digit is
/// then the high one of the last byte, whose low digit is 0: `abc` decodes to the bytes `ab c0` and
/// `true`. Returns `None` if a character is not a digit.
pub fn decode_hex_prefix<H>(alloc: Global, hex: H) -> Result<Option<(Vec<u8>, bool)>, AllocError>
where
    H: AsSlice<u8> + Drop,
    ensures { IfOk result (IsPrefixDecoding (λ bytes. bytes.items) hex_digits (H.items hex)) }
{
    decode_hex_prefix_inner(alloc, hex.as_slice(), Digits::Forward)
}

/// Decodes reverse hex digits of either case, and returns whether their number is odd. The last
/// digit is then the high one of the last byte, whose low digit is 0. Returns `None` if a character
/// is not a digit.
pub fn decode_reverse_hex_prefix<H: AsSlice<u8> + Drop>(
    alloc: Global,
    reverse_hex: H,
) -> Result<Option<(Vec<u8>, bool)>, AllocError>
    ensures { IfOk result
        (IsPrefixDecoding (λ bytes. bytes.items) reverse_hex_digits (H.items reverse_hex)) }
{
    decode_hex_prefix_inner(alloc, reverse_hex.as_slice(), Digits::Reverse)
}

#[tactic(auto, unfolding(crate::specs::Hex::encode_with))]
fn encode_hex_inner(alloc: Global, data: &[u8], chars: &[u8; 16]) -> Result<String, AllocError>
    requires { IsAscii chars.now }
    ensures { IfOk result (λ text. string_bytes text ≡ encode_with chars.now «data».now) }
{
    let mut encoded = String::with_capacity(alloc, data.len() * 2)?;
    for byte in data {
        encoded.push(char::from(chars[(byte >> 4) as usize]))?;
        encoded.push(char::from(chars[(byte & 0xf) as usize]))?;
    }
    Ok(encoded)
}

/// Encodes bytes as lower-case hex.
pub fn encode_hex(alloc: Global, data: &[u8]) -> Result<String, AllocError>
    ensures { IfOk result (λ text. string_bytes text ≡ hex «data».now) }
{
    encode_hex_inner(alloc, data, FORWARD_HEX_CHARS)
}

/// Encodes bytes as reverse hex.
pub fn encode_reverse_hex(alloc: Global, data: &[u8]) -> Result<String, AllocError>
    ensures { IfOk result (λ text. string_bytes text ≡ reverse_hex «data».now) }
{
    encode_hex_inner(alloc, data, REVERSE_HEX_CHARS)
}

pub(crate) fn hex_digit_char(value: u8) -> char
    requires { value < 16 }
    ensures digit { result ≡ slice_index hex_digits value }
    ensures ascii { result < 128 }
{
    char::from(FORWARD_HEX_CHARS[value as usize])
}

/// Returns the number of leading hex digits that two byte strings share. Does not allocate.
pub fn common_hex_len(bytes_a: &[u8], bytes_b: &[u8]) -> usize
    ensures { result ≡ common_prefix_len nat_eq (hex bytes_a.now) (hex bytes_b.now) }
{
    let shared = bytes_a.len().min(bytes_b.len());
    for i in 0..shared {
        let (a, b) = (bytes_a[i], bytes_b[i]);
        if a != b {
            return if a >> 4 == b >> 4 { i * 2 + 1 } else { i * 2 };
        }
    }
    shared * 2
}

/// Decoding the encoding of bytes returns these bytes, in both alphabets.
pub fn decoding_inverts_encoding()
    ensures forward { (bytes : List ℕ) → All IsByte bytes
        → DecodesTo hex_digits (hex bytes) bytes }
    ensures reverse { (bytes : List ℕ) → All IsByte bytes
        → DecodesTo reverse_hex_digits (reverse_hex bytes) bytes }
{}

/// A string decodes to at most one list of bytes, in both alphabets.
pub fn decoding_is_unique()
    ensures forward { (text xs ys : List ℕ) → DecodesTo hex_digits text xs
        → DecodesTo hex_digits text ys → xs ≡ ys }
    ensures reverse { (text xs ys : List ℕ) → DecodesTo reverse_hex_digits text xs
        → DecodesTo reverse_hex_digits text ys → xs ≡ ys }
{}

/// Encoding the decoded bytes returns the string in lower case, in both alphabets.
pub fn encoding_is_lower_case()
    ensures forward { (text bytes : List ℕ) → DecodesTo hex_digits text bytes
        → hex bytes ≡ str_to_ascii_lowercase text }
    ensures reverse { (text bytes : List ℕ) → DecodesTo reverse_hex_digits text bytes
        → reverse_hex bytes ≡ str_to_ascii_lowercase text }
{}
