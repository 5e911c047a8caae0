//! Lookup of ids by hex prefix or reverse hex prefix, by linear search.
ghost use Rattle.std.specs.Prelude.{◌≡◌, ◌++◌, ◌∷◌, [], ℕ, List, IfOk, MatchOption, codes, false};
ghost use Rattle.std.specs.Str.{str_to_ascii_lowercase};
ghost use Rattle.std.specs.String.{string_bytes};
ghost use Rattle.jj_content.specs.Hex.{hex, reverse_hex, hex_digits, reverse_hex_digits, is_hex};
ghost use Rattle.jj_ids.specs.HexPrefixes.{to_reverse_hex};
ghost use Rattle.jj_ids_tests.specs.Lookups.{IsLookupResult};

use jj_ids::object_id::{ChangeId, CommitId, HexPrefix, Id, IdKind, PrefixResolution};
use std::alloc::{AllocError, Global};

// Adds one id to the ids that were searched.
fn add_id<'a, K: IdKind>(
    found: PrefixResolution<&'a Id<K>>,
    id: &'a Id<K>,
    prefix: &HexPrefix,
) -> PrefixResolution<&'a Id<K>>
    ensures hex { (ids : List (List ℕ)) → IsLookupResult hex ids prefix.now found.entry
        → IsLookupResult hex (ids ++ id.now ∷ []) prefix.now result }
    ensures reverse_hex { (ids : List (List ℕ))
        → IsLookupResult reverse_hex ids (to_reverse_hex prefix.now) found.entry
        → IsLookupResult reverse_hex (ids ++ id.now ∷ []) (to_reverse_hex prefix.now) result }
{
    if !prefix.matches(id) {
        return found;
    }
    match found {
        PrefixResolution::NoMatch => PrefixResolution::SingleMatch(id),
        PrefixResolution::SingleMatch(other) => {
            if other == id {
                PrefixResolution::SingleMatch(other)
            } else {
                PrefixResolution::AmbiguousMatch
            }
        }
        PrefixResolution::AmbiguousMatch => PrefixResolution::AmbiguousMatch,
    }
}

/// Looks up a prefix: returns the only id whose hex encoding starts with it, `NoMatch`, or
/// `AmbiguousMatch` if several ids do. The result for reverse hex is the same. O(n) comparisons.
pub fn resolve_prefix<'a, K: IdKind>(
    ids: &'a [Id<K>],
    prefix: &HexPrefix,
) -> PrefixResolution<&'a Id<K>>
    ensures hex { IsLookupResult hex ids.now prefix.now result }
    ensures reverse_hex { IsLookupResult reverse_hex ids.now (to_reverse_hex prefix.now) result }
{
    let mut found = PrefixResolution::NoMatch;
    for id in ids {
        found = add_id(found, id, prefix);
    }
    found
}

/// Looks up a hex prefix of either case among commit ids. Returns `None` if `text` is not hex.
pub fn look_up_commit<'a>(
    alloc: Global,
    ids: &'a [CommitId],
    text: &str,
) -> Result<Option<PrefixResolution<&'a CommitId>>, AllocError>
    ensures { IfOk result (λ found. MatchOption found
        (is_hex hex_digits text.now ≡ false)
        (IsLookupResult hex ids.now (str_to_ascii_lowercase text.now))) }
{
    match HexPrefix::try_from_hex(alloc, text)? {
        None => Ok(None),
        Some(prefix) => Ok(Some(resolve_prefix(ids, &prefix))),
    }
}

/// Looks up a reverse hex prefix of either case among change ids. Returns `None` if `text` is not
/// reverse hex.
pub fn look_up_change<'a>(
    alloc: Global,
    ids: &'a [ChangeId],
    text: &str,
) -> Result<Option<PrefixResolution<&'a ChangeId>>, AllocError>
    ensures { IfOk result (λ found. MatchOption found
        (is_hex reverse_hex_digits text.now ≡ false)
        (IsLookupResult reverse_hex ids.now (str_to_ascii_lowercase text.now))) }
{
    match HexPrefix::try_from_reverse_hex(alloc, text)? {
        None => Ok(None),
        Some(prefix) => Ok(Some(resolve_prefix(ids, &prefix))),
    }
}

/// Decodes the reverse hex prefix `mlp`, and encodes it as hex: `dea`.
pub fn hex_of_mlp(alloc: Global) -> Result<Option<String>, AllocError>
    ensures { IfOk result (λ hex. MatchOption hex ⊥ (λ text. string_bytes text ≡ codes "dea")) }
{
    match HexPrefix::try_from_reverse_hex(alloc, "mlp")? {
        None => Ok(None),
        Some(prefix) => Ok(Some(prefix.hex()?)),
    }
}
