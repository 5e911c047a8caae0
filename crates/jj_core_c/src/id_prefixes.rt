//! The ids of a list that a prefix matches.
ghost use Rattle.std.specs.Prelude.{◌≡◌, ◌<◌, length, nat_eq, true, false, IfOk, IfSome, IfNone, MatchResult};
ghost use Rattle.std.specs.List.{starts_with};
ghost use Rattle.jj_content.specs.Hex.{hex, is_hex, reverse_hex};
ghost use Rattle.jj_ids.specs.HexPrefixes.{to_reverse_hex};
ghost use Rattle.jj_ids.specs.Resolution.{IfSingleMatch};
ghost use Rattle.jj_core_c.specs.HexResults.{alphabet, begins_with};
ghost use Rattle.jj_core_c.specs.IdPrefixes.{FindsOnly, IsResolveCall, IsResolveCause, after_match, resolution};
ghost use Rattle.jj_core_c.specs.Pieces.{are_ends, pieces_of};
ghost use Rattle.jj_core_c.specs.Statuses.{Accepts, Returns};

use crate::error::{Error, status_of};
use crate::hex::parse_prefix;
use crate::pieces::{are_ends, piece_at};
use jj_ids::object_id::{CommitId, HexPrefix, PrefixResolution};
use std::alloc::{AllocError, Global};

// Returns the resolution once the id at an index matches too.
fn with_match(found: PrefixResolution<usize>, index: usize) -> PrefixResolution<usize>
    ensures { result ≡ after_match found index }
{
    match found {
        PrefixResolution::NoMatch => PrefixResolution::SingleMatch(index),
        PrefixResolution::SingleMatch(_) => PrefixResolution::AmbiguousMatch,
        PrefixResolution::AmbiguousMatch => PrefixResolution::AmbiguousMatch,
    }
}

// Resolves a prefix to the index of the only id that it matches.
fn resolve_parsed(
    alloc: Global,
    prefix: &HexPrefix,
    ids: &[u8],
    ends: &[usize],
) -> Result<PrefixResolution<usize>, AllocError>
    requires { are_ends (length ids.now) ends.now ≡ true }
    ensures hex { IfOk result (λ found. found ≡ resolution
        (λ id. starts_with nat_eq (hex id) prefix.now) (pieces_of ids.now ends.now)) }
    ensures reverse_hex { IfOk result (λ found. found ≡ resolution
        (λ id. starts_with nat_eq (reverse_hex id) (to_reverse_hex prefix.now))
        (pieces_of ids.now ends.now)) }
    ensures index { IfOk result (λ found. IfSingleMatch found (λ index. index < length ends.now)) }
{
    let mut found = PrefixResolution::NoMatch;
    for index in 0..ends.len() {
        let id = CommitId::from_bytes(alloc, piece_at(ids, ends, index))?;
        if prefix.matches(&id) {
            found = with_match(found, index);
        }
    }
    Ok(found)
}

// Parses a prefix once and resolves it. Returns `None` if it is not hex.
fn resolve_digits(
    alloc: Global,
    prefix: &[u8],
    reverse: bool,
    ids: &[u8],
    ends: &[usize],
) -> Result<Option<PrefixResolution<usize>>, AllocError>
    requires { are_ends (length ids.now) ends.now ≡ true }
    ensures none { IfOk result (λ read. IfNone read
        (is_hex (alphabet reverse) prefix.now ≡ false)) }
    ensures some { IfOk result (λ read. IfSome read (λ found.
        (is_hex (alphabet reverse) prefix.now ≡ true)
        × (found ≡ resolution (λ id. begins_with (alphabet reverse) id prefix.now)
        (pieces_of ids.now ends.now)))) }
    ensures index { IfOk result (λ read. IfSome read (λ found.
        IfSingleMatch found (λ index. index < length ends.now))) }
{
    let Some(parsed) = parse_prefix(alloc, prefix, reverse)? else {
        return Ok(None);
    };
    Ok(Some(resolve_parsed(alloc, &parsed, ids, ends)?))
}

fn resolve_prefix(
    alloc: Global,
    prefix: &[u8],
    reverse: bool,
    ids: &[u8],
    ends: &[usize],
) -> Result<usize, Error>
    ensures index { IfOk result (λ index. index < length ends.now) }
    ensures outcome { MatchResult result
        (Accepts (IsResolveCall (alphabet reverse) prefix.now (length ids.now) ends.now)
        (FindsOnly (alphabet reverse) prefix.now (pieces_of ids.now ends.now)))
        (IsResolveCause (alphabet reverse) prefix.now ids.now ends.now) }
{
    if !are_ends(ids.len(), ends) {
        return Err(Error::Ends);
    }
    match resolve_digits(alloc, prefix, reverse, ids, ends) {
        Ok(Some(PrefixResolution::SingleMatch(index))) => Ok(index),
        Ok(Some(PrefixResolution::NoMatch)) => Err(Error::NoMatch),
        Ok(Some(PrefixResolution::AmbiguousMatch)) => Err(Error::Ambiguous),
        Ok(None) => Err(Error::Syntax),
        Err(_) => Err(Error::Memory),
    }
}

/// Returns the index of the only id whose hex, or reverse hex, begins with these digits of either
/// case. Parses the digits once; O(bytes of the ids).
///
/// Errors: `Ends`, `Syntax`, `NoMatch`, `Ambiguous`, `Memory`.
#[unsafe(no_mangle)]
pub extern "C" fn jj_hex_prefix_resolve(
    alloc: Global,
    prefix: &[u8],
    reverse: bool,
    ids: &[u8],
    ends: &[usize],
) -> i64
    ensures { Returns result
        (Accepts (IsResolveCall (alphabet reverse) prefix.now (length ids.now) ends.now)
        (FindsOnly (alphabet reverse) prefix.now (pieces_of ids.now ends.now)))
        (IsResolveCause (alphabet reverse) prefix.now ids.now ends.now) }
{
    status_of(resolve_prefix(alloc, prefix, reverse, ids, ends))
}
