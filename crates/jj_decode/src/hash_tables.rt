//! Hash maps and hash sets: the number of entries, then the entries in key order.
ghost use Rattle.std.specs.Prelude.{◌≡◌, ◌<◌, ◌≤◌, ◌^◌, ◌⊎◌, length, IfOk, IfErr, MatchBool};
ghost use Rattle.std.specs.BTreeMap.{IsOrdered};
ghost use Rattle.std.specs.HashMap.{IsUnique};
ghost use Rattle.std.specs.HashSet.{IsUnique as HasUniqueKeys};
ghost use Rattle.std.specs.List.{flat_map};
ghost use Rattle.std.specs.List.Sorted.{IsStrictlySortedBy};
ghost use Rattle.std.specs.Ordering.{on};
ghost use Rattle.jj_content.specs.Content.{AreValues, insertion_sort, map_content, set_content};
ghost use Rattle.jj_decode.specs.Contents.{AreContents, MapContents, SetContents};
ghost use Rattle.jj_decode.specs.HashTableProofs.{hash_map_contents, hash_set_contents};
ghost use Rattle.jj_decode.specs.Decoding.{IsContentAt, IsErrorAt, AreMembers, IsGreater, IsMalformedAt, IsMemory};
ghost use Rattle.jj_decode.specs.Errors.{MapErrors, MemberErrors, SetErrors};
ghost use Rattle.jj_decode.specs.declared.error.DecodeError.TheVariants.{Memory};

use crate::error::DecodeError;
use crate::lists::read_count;
use crate::read_content::ReadContent;
use std::alloc::Global;
use std::collections::{BTreeMap, HashMap, HashSet};
use std::hash::Hash;

// Moves the entries of a sorted map into a hash map.
fn into_hash_map<K: Ord + Hash + Drop, V: Drop>(
    alloc: Global,
    map: BTreeMap<K, V>,
) -> Result<HashMap<K, V>, DecodeError>
    requires { IsOrdered K.cmp map }
    ensures entries { IfOk result (λ table.
        insertion_sort (on (λ e. e.0) K.cmp) table.entries ≡ map.entries) }
    ensures unique { IfOk result (IsUnique K.eq) }
    ensures err { IfErr result IsMemory }
{
    let mut table = HashMap::new(alloc);
    for (key, value) in map {
        drop(table.insert(key, value)?);
    }
    Ok(table)
}

/// Reads a sorted map, which checks the order of the keys in O(n log n) comparisons, and inserts
/// its entries. An insertion compares a key with those of the same hash. The seed of the hash is
/// fixed, so keys can be chosen to have one hash: O(n²) comparisons.
impl<K: ReadContent + Ord + Hash, V: ReadContent> ReadContent for HashMap<K, V> {
    ghost is_content = { MapContents K.cmp K.is_value K.content V.is_value V.content };

    ghost errors = { MapErrors K.cmp K.is_value K.content K.errors V.is_value V.content V.errors };

    ghost contents = { hash_map_contents K.total K.matches_eq K.lawful V.lawful };

    fn read(alloc: Global, bytes: &[u8], start: usize) -> Result<(Self, usize), DecodeError> {
        let (map, end) = BTreeMap::<K, V>::read(alloc, bytes, start)?;
        let table = into_hash_map(alloc, map)?;
        Ok((table, end))
    }
}

// Returns whether `member` is greater than each of the sorted members. One comparison.
fn is_greatest_member<K: Ord>(members: &[K], member: &K) -> bool
    requires { IsStrictlySortedBy K.cmp members.now }
    ensures { MatchBool result (IsGreater K.cmp members.now member.now)
        (¬ (IsGreater K.cmp members.now member.now)) }
{
    match members.last() {
        None => true,
        Some(last) => last.cmp(member).is_lt(),
    }
}

// Reads `count` members in ascending order. Returns them and the offset after the last.
fn read_members<K: ReadContent + Ord>(
    alloc: Global,
    bytes: &[u8],
    start: usize,
    count: usize,
) -> Result<(Vec<K>, usize), DecodeError>
    requires { start ≤ length bytes.now }
    ensures decoded { IfOk result (λ decoded. IsContentAt (AreMembers count K.cmp K.is_value)
        (flat_map K.content) bytes.now start decoded.0.items decoded.1) }
    ensures malformed { IfErr result (IsErrorAt (AreMembers count K.cmp K.is_value)
        (flat_map K.content) bytes.now start) }
    ensures error { IfErr result (λ e. (e ≡ Memory)
        ⊎ MemberErrors K.cmp K.is_value K.content K.errors count bytes.now start e) }
{
    let mut members = Vec::new(alloc);
    let mut offset = start;
    for _ in 0..count {
        let (member, end) = K::read(alloc, bytes, offset)?;
        if !is_greatest_member(&members, &member) {
            return Err(DecodeError::unordered_keys(offset));
        }
        members.push(member)?;
        offset = end;
    }
    Ok((members, offset))
}

// Moves sorted members into a hash set.
fn into_hash_set<K: Ord + Hash + Drop>(
    alloc: Global,
    members: Vec<K>,
) -> Result<HashSet<K>, DecodeError>
    requires { IsStrictlySortedBy K.cmp members.items }
    ensures members { IfOk result (λ set. insertion_sort K.cmp set.keys ≡ members.items) }
    ensures unique { IfOk result (HasUniqueKeys K.eq) }
    ensures err { IfErr result IsMemory }
{
    let mut set = HashSet::new(alloc);
    for member in members {
        set.insert(member)?;
    }
    Ok(set)
}

/// Reads a list, which compares each member with the one before, and inserts the members. An
/// insertion compares a member with those of the same hash. The seed of the hash is fixed, so
/// members can be chosen to have one hash: O(n²) comparisons.
impl<K: ReadContent + Ord + Hash> ReadContent for HashSet<K> {
    ghost is_content = { SetContents K.cmp K.is_value K.content };

    ghost errors = { SetErrors K.cmp K.is_value K.content K.errors };

    ghost contents = { hash_set_contents K.total K.matches_eq K.lawful };

    fn read(alloc: Global, bytes: &[u8], start: usize) -> Result<(Self, usize), DecodeError> {
        let (count, mid) = read_count(bytes, start)?;
        let (members, end) = read_members(alloc, bytes, mid, count)?;
        let set = into_hash_set(alloc, members)?;
        Ok((set, end))
    }
}
