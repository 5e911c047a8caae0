//! Hex and reverse hex: encoding, decoding, and prefixes of ids.
ghost use Rattle.std.specs.Prelude.{◌≡◌, ◌*◌, length, IfOk, IfSome, IfNone, MatchResult, string_bytes, true, false, if◌then◌else◌};
ghost use Rattle.std.specs.Str.{str_to_ascii_lowercase};
ghost use Rattle.jj_content.specs.Hex.{encode_with, is_hex, IsDecoding};
ghost use Rattle.jj_ids.specs.HexPrefixes.{to_reverse_hex};
ghost use Rattle.jj_core_c.specs.Buffers.{Fails, Writes};
ghost use Rattle.jj_core_c.specs.Causes.{IsBufferCause};
ghost use Rattle.jj_core_c.specs.HexResults.{IsDecodingCause, IsPrefixCause, ReportsPrefix, WritesDecoded, alphabet, begins_with};
ghost use Rattle.jj_core_c.specs.Statuses.{Returns};

use crate::buffers::write_bytes;
use crate::error::{Error, status_of};
use jj_content::hex_util::{decode_hex, decode_reverse_hex, encode_hex, encode_reverse_hex};
use jj_ids::object_id::{CommitId, HexPrefix};
use std::alloc::{AllocError, Global};

fn encode_digits(alloc: Global, bytes: &[u8], reverse: bool) -> Result<String, AllocError>
    ensures { IfOk result (λ text. string_bytes text ≡ encode_with (alphabet reverse) bytes.now) }
{
    if reverse {
        encode_reverse_hex(alloc, bytes)
    } else {
        encode_hex(alloc, bytes)
    }
}

fn decode_digits(alloc: Global, text: &[u8], reverse: bool) -> Result<Option<Vec<u8>>, AllocError>
    ensures { IfOk result (IsDecoding (λ bytes. bytes.items) (alphabet reverse) text.now) }
{
    if reverse {
        decode_reverse_hex(alloc, text)
    } else {
        decode_hex(alloc, text)
    }
}

fn encode(alloc: Global, bytes: &[u8], reverse: bool, text: &mut [u8]) -> Result<usize, Error>
    ensures { MatchResult result
        (Writes text.old text.new (encode_with (alphabet reverse) bytes.now))
        (Fails text.old text.new (IsBufferCause (2 * length bytes.now) (length text.old))) }
{
    if text.len() / 2 < bytes.len() {
        return Err(Error::Length);
    }
    let Ok(digits) = encode_digits(alloc, bytes, reverse) else {
        return Err(Error::Memory);
    };
    Ok(write_bytes(text, digits.as_bytes()))
}

fn decode(alloc: Global, text: &[u8], reverse: bool, bytes: &mut [u8]) -> Result<usize, Error>
    ensures { MatchResult result
        (WritesDecoded (alphabet reverse) text.now bytes.old bytes.new)
        (Fails bytes.old bytes.new
        (IsDecodingCause (alphabet reverse) text.now (length bytes.old))) }
{
    if bytes.len() < text.len() / 2 {
        return Err(Error::Length);
    }
    match decode_digits(alloc, text, reverse) {
        Ok(Some(items)) => Ok(write_bytes(bytes, &items)),
        Ok(None) => Err(Error::Syntax),
        Err(_) => Err(Error::Memory),
    }
}

// Parses a prefix. Returns `None` if it is not hex.
pub(crate) fn parse_prefix(
    alloc: Global,
    prefix: &[u8],
    reverse: bool,
) -> Result<Option<HexPrefix>, AllocError>
    ensures none { IfOk result (λ read. IfNone read
        (is_hex (alphabet reverse) prefix.now ≡ false)) }
    ensures some { IfOk result (λ read. IfSome read (λ parsed.
        (is_hex (alphabet reverse) prefix.now ≡ true)
        × ((if reverse then to_reverse_hex parsed else parsed)
        ≡ str_to_ascii_lowercase prefix.now))) }
{
    if reverse {
        HexPrefix::try_from_reverse_hex(alloc, prefix)
    } else {
        HexPrefix::try_from_hex(alloc, prefix)
    }
}

// Parses a prefix and compares it with an id. Returns `None` if it is not hex.
fn matches_prefix(
    alloc: Global,
    prefix: &[u8],
    reverse: bool,
    id: &[u8],
) -> Result<Option<bool>, AllocError>
    ensures none { IfOk result (λ read. IfNone read
        (is_hex (alphabet reverse) prefix.now ≡ false)) }
    ensures some { IfOk result (λ read. IfSome read (λ matched.
        (is_hex (alphabet reverse) prefix.now ≡ true)
        × (matched ≡ begins_with (alphabet reverse) id.now prefix.now))) }
{
    let Some(parsed) = parse_prefix(alloc, prefix, reverse)? else {
        return Ok(None);
    };
    let id = CommitId::from_bytes(alloc, id)?;
    Ok(Some(parsed.matches(&id)))
}

fn prefix_matches(alloc: Global, prefix: &[u8], reverse: bool, id: &[u8]) -> Result<usize, Error>
    ensures { MatchResult result
        (ReportsPrefix (alphabet reverse) prefix.now id.now)
        (IsPrefixCause (alphabet reverse) prefix.now) }
{
    match matches_prefix(alloc, prefix, reverse, id) {
        Ok(Some(matched)) => Ok(usize::from(matched)),
        Ok(None) => Err(Error::Syntax),
        Err(_) => Err(Error::Memory),
    }
}

/// Writes the lower-case hex, or the reverse hex, of bytes. Returns its length, twice theirs.
///
/// Errors: `Length`, `Memory`.
#[unsafe(no_mangle)]
pub extern "C" fn jj_hex_encode(alloc: Global, bytes: &[u8], reverse: bool, text: &mut [u8]) -> i64
    ensures { Returns result
        (Writes text.old text.new (encode_with (alphabet reverse) bytes.now))
        (Fails text.old text.new (IsBufferCause (2 * length bytes.now) (length text.old))) }
{
    status_of(encode(alloc, bytes, reverse, text))
}

/// Writes the bytes that hex, or reverse hex, of either case encodes. Returns their number, half
/// its length.
///
/// Errors: `Length`, `Syntax`, `Memory`.
#[unsafe(no_mangle)]
pub extern "C" fn jj_hex_decode(alloc: Global, text: &[u8], reverse: bool, bytes: &mut [u8]) -> i64
    ensures { Returns result
        (WritesDecoded (alphabet reverse) text.now bytes.old bytes.new)
        (Fails bytes.old bytes.new
        (IsDecodingCause (alphabet reverse) text.now (length bytes.old))) }
{
    status_of(decode(alloc, text, reverse, bytes))
}

/// Returns 1 if the hex, or reverse hex, of an id begins with these digits of either case, else 0.
///
/// Errors: `Syntax`, `Memory`.
#[unsafe(no_mangle)]
pub extern "C" fn jj_hex_prefix_matches(
    alloc: Global,
    prefix: &[u8],
    reverse: bool,
    id: &[u8],
) -> i64
    ensures { Returns result
        (ReportsPrefix (alphabet reverse) prefix.now id.now)
        (IsPrefixCause (alphabet reverse) prefix.now) }
{
    status_of(prefix_matches(alloc, prefix, reverse, id))
}
