//! Maps: the number of entries, then each key and value in key order.
ghost use Rattle.std.specs.Prelude.{◌≡◌, ◌<◌, ◌≤◌, ◌^◌, ◌⊎◌, length, IfOk, IfErr, MatchBool};
ghost use Rattle.std.specs.BTreeMap.{IsOrdered};
ghost use Rattle.std.specs.List.{flat_map};
ghost use Rattle.std.specs.Map.{keys_of};
ghost use Rattle.jj_content.specs.Content.{entry_content, list_content, AreValues};
ghost use Rattle.jj_decode.specs.Contents.{AreContents, MapContents};
ghost use Rattle.jj_decode.specs.ContentsProofs.{contents_on, map_contents};
ghost use Rattle.jj_decode.specs.Decoding.{IsContentAt, IsErrorAt, AreEntries, IsGreater, IsMalformedAt};
ghost use Rattle.jj_decode.specs.Errors.{EntryErrors, MapErrors};
ghost use Rattle.jj_decode.specs.declared.error.DecodeError.TheVariants.{Memory};

use crate::error::DecodeError;
use crate::lists::read_count;
use crate::read_content::{ReadContent, read_both};
use std::alloc::Global;
use std::collections::BTreeMap;

// Returns whether `key` is greater than each key of the map. One comparison.
fn is_greatest_key<K: Ord, V>(map: &BTreeMap<K, V>, key: &K) -> bool
    ensures { MatchBool result (IsGreater K.cmp (keys_of map.now.entries) key.now)
        (¬ (IsGreater K.cmp (keys_of map.now.entries) key.now)) }
{
    match map.last_key_value() {
        None => true,
        Some((last, _)) => last.cmp(key).is_lt(),
    }
}

// Reads `count` entries with ascending keys. Returns the map and the offset after the last entry.
fn read_entries<K: ReadContent + Ord, V: ReadContent>(
    alloc: Global,
    bytes: &[u8],
    start: usize,
    count: usize,
) -> Result<(BTreeMap<K, V>, usize), DecodeError>
    requires { start ≤ length bytes.now }
    ensures decoded { IfOk result (λ decoded. IsContentAt
        (AreEntries count K.cmp K.is_value V.is_value)
        (flat_map (entry_content K.content V.content))
        bytes.now start decoded.0.entries decoded.1) }
    ensures malformed { IfErr result (IsErrorAt
        (AreEntries count K.cmp K.is_value V.is_value)
        (flat_map (entry_content K.content V.content)) bytes.now start) }
    ensures error { IfErr result (λ e. (e ≡ Memory)
        ⊎ EntryErrors K.cmp K.is_value K.content K.errors V.is_value V.content V.errors count
        bytes.now start e) }
{
    let mut map = BTreeMap::new(alloc);
    let mut offset = start;
    for _ in 0..count {
        let ((key, value), end) = read_both::<K, V>(alloc, bytes, offset)?;
        if !is_greatest_key(&map, &key) {
            return Err(DecodeError::unordered_keys(offset));
        }
        let _ = map.insert(key, value)?;
        offset = end;
    }
    Ok((map, offset))
}

impl<K: ReadContent + Ord, V: ReadContent> ReadContent for BTreeMap<K, V> {
    ghost is_content = { MapContents K.cmp K.is_value K.content V.is_value V.content };

    ghost errors = { MapErrors K.cmp K.is_value K.content K.errors V.is_value V.content V.errors };

    ghost contents = { contents_on (λ m. m.entries) (map_contents K.cmp K.lawful V.lawful) };

    fn read(alloc: Global, bytes: &[u8], start: usize) -> Result<(Self, usize), DecodeError> {
        let (count, mid) = read_count(bytes, start)?;
        let (map, end) = read_entries(alloc, bytes, mid, count)?;
        Ok((map, end))
    }
}
