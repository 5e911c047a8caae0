//! Cancels adds of a merge with equal removes through a hash table of hints with open addressing,
//! in O(n). It is right for any hints: a pair that no probed slot leads to remains. Where many
//! terms remain, a second pass takes hashes that are keyed by a digest of all terms.
ghost use Rattle.std.specs.Prelude.{◌≡◌, ◌+◌, ◌<◌, ◌≤◌, ◌^◌, ◌%◌, IfOk, IfSome, IsTrue, length};
ghost use Rattle.jj_merges.specs.Merge as merge;
ghost use Rattle.jj_program.specs.MergeViews.{HaveCountsOf};
ghost use Rattle.jj_program.specs.PairedTerms.{AreLeftOf, AreOpposite, IsLeftOpposite};

use jj_content::blake2b::Blake2b512;
use std::alloc::{AllocError, Global};

// The number of slots that are probed for an equal term.
const PROBES: usize = 4;

// A table has at most this many slots, so that a mask fits a hint.
const MAX_SLOTS: usize = 1 << 31;

// The hint in an empty slot. It leads past all earlier terms.
const EMPTY: u32 = u32::MAX;

// Odd factors of a hash with their bits spread, so that each byte changes the high half.
const FIRST_FACTOR: u64 = 0x9E37_79B9_7F4A_7C15;

const MIDDLE_FACTOR: u64 = 0xC2B2_AE3D_27D4_EB4F;

const LAST_FACTOR: u64 = 0xD6E8_FEB8_6659_FD93;

// The key of a hash of all bytes: the number that the hash starts with, and an odd factor.
#[derive(Drop)]
struct HashKey {
    start: u64,
    factor: u64,
}

// Returns the adds and the removes without the pairs of equal ones that hints lead to.
pub(crate) fn cancel_pairs<'t>(
    alloc: Global,
    terms: &[&'t str],
) -> Result<(Vec<&'t str>, Vec<&'t str>), AllocError>
    ensures counts { IfOk result (λ left. HaveCountsOf left.0.items left.1.items
        (merge.adds terms.now) (merge.removes terms.now)) }
    ensures lengths { IfOk result (λ left. length left.0.items
        ≡ length left.1.items + length terms.now % 2) }
{
    let left = mark_left(alloc, terms)?;
    let mut adds = Vec::new(alloc);
    let mut removes = Vec::new(alloc);
    let mut index = 0;
    while index < terms.len() {
        if left[index] {
            if index % 2 == 0 {
                adds.push(terms[index])?;
            } else {
                removes.push(terms[index])?;
            }
        }
        index += 1;
    }
    Ok((adds, removes))
}

// Returns for each term whether it is left when pairs of an add and an equal remove are cancelled.
fn mark_left(alloc: Global, terms: &[&str]) -> Result<Vec<bool>, AllocError>
    ensures { IfOk result (λ left. AreLeftOf terms.now left.items) }
{
    let left = vec![in alloc; true; terms.len()]?;
    let (left, used) = cancel_left(alloc, terms, left, None)?;
    if !have_collided(&left, used) {
        return Ok(left);
    }
    let key = digest_key(terms);
    let (left, _) = cancel_left(alloc, terms, left, Some(&key))?;
    Ok(left)
}

// Whether the terms left are many, and more than twice the slots that are used.
fn have_collided(left: &[bool], used: usize) -> bool {
    let mut few = (left.len() / 4 + 64).max(used.saturating_mul(2));
    for index in 0..left.len() {
        if left[index] {
            if few == 0 {
                return true;
            }
            few -= 1;
        }
    }
    false
}

// Cancels pairs of the terms that are left, by hashes with this key or by fast ones that collide
// for some values. Returns the terms left and the number of slots used.
fn cancel_left(
    alloc: Global,
    terms: &[&str],
    left: Vec<bool>,
    key: Option<&HashKey>,
) -> Result<(Vec<bool>, usize), AllocError>
    requires { AreLeftOf terms.now left.items }
    ensures { IfOk result (λ left. AreLeftOf terms.now left.0.items) }
{
    let mut left = left;
    let slots = terms.len().min(MAX_SLOTS).next_power_of_two();
    let mut hints = vec![in alloc; EMPTY; slots]?;
    let mut index = 0;
    while index < terms.len() {
        if left[index] {
            let hash = hash_with(key, terms[index].as_bytes());
            if let Some(other) = find_opposite(&mut hints, &left, terms, index, hash) {
                left[other] = false;
                left[index] = false;
            }
        }
        index += 1;
    }
    let used = count_used(&hints);
    Ok((left, used))
}

fn count_used(hints: &[u32]) -> usize {
    let mut used: usize = 0;
    for index in 0..hints.len() {
        if hints[index] != EMPTY {
            used = used.wrapping_add(1);
        }
    }
    used
}

// Returns the index of an earlier term that is left and cancels with the one at `index`, which has
// this hash. If the probed slots lead to none, one of them leads to this term afterwards.
fn find_opposite(
    hints: &mut [u32],
    left: &[bool],
    terms: &[&str],
    index: usize,
    hash: u32,
) -> Option<usize>
    requires some { 0 < length hints.old }
    requires few { length hints.old ≤ 2 ^ 32 }
    requires index { index < length terms.now }
    requires left { length left.now ≡ length terms.now }
    ensures opposite { IfSome result (IsLeftOpposite terms.now left.now index) }
    ensures hints { length hints.new ≡ length hints.old }
{
    // A hint has the index of a term in the bits of the mask, and bits of its hash in the others.
    let mask = (hints.len() - 1) as u32;
    let mut slot = hash & mask;
    let mut free = slot;
    for _ in 0..PROBES {
        let hint = hints[slot as usize];
        let other = (hint & mask) as usize;
        if other >= index {
            free = slot;
            break;
        }
        if hint ^ hash <= mask && left[other] && are_opposite(terms, other, index) {
            return Some(other);
        }
        slot = slot.wrapping_add(1) & mask;
    }
    hints[free as usize] = (hash & !mask) | (index % MAX_SLOTS) as u32;
    None
}

// Whether one of these terms is an add and the other an equal remove.
fn are_opposite(terms: &[&str], other: usize, index: usize) -> bool
    requires other { other < length terms.now }
    requires index { index < length terms.now }
    ensures { IsTrue result → AreOpposite terms.now other index }
{
    other % 2 != index % 2 && terms[other] == terms[index]
}

// Returns a key that depends on all bytes of all terms: values chosen for a key change it.
fn digest_key(terms: &[&str]) -> HashKey {
    let mut hasher = Blake2b512::new();
    for index in 0..terms.len() {
        hasher.update(terms[index].as_bytes());
        hasher.update(b"\t");
    }
    let digest = hasher.finalize();
    HashKey {
        start: word_at(&digest, 0),
        factor: word_at(&digest, 8) | 1,
    }
}

fn hash_with(key: Option<&HashKey>, bytes: &[u8]) -> u32 {
    match key {
        Some(key) => keyed_hash(key, bytes),
        None => fast_hash(bytes),
    }
}

// Hashes the length and three words: all bytes of a string of at most 24.
fn fast_hash(bytes: &[u8]) -> u32 {
    let (first, middle, last) = three_words(bytes);
    let mixed = (first ^ bytes.len() as u64).wrapping_mul(FIRST_FACTOR)
        ^ middle.wrapping_mul(MIDDLE_FACTOR)
        ^ last.wrapping_mul(LAST_FACTOR);
    let folded = (mixed ^ (mixed >> 32)).wrapping_mul(FIRST_FACTOR);
    (folded >> 32) as u32
}

// Hashes the length and all bytes.
fn keyed_hash(key: &HashKey, bytes: &[u8]) -> u32 {
    let len = bytes.len();
    let (first, middle, last) = three_words(bytes);
    let mut hash = mix(key.start ^ len as u64 ^ first, key.factor);
    if len > 24 {
        for block in 1..(len - 1) / 8 {
            hash = mix(hash ^ word_at(bytes, 8 * block), key.factor);
        }
    } else {
        hash = mix(hash ^ middle, key.factor);
    }
    hash = mix(hash ^ last, key.factor);
    (hash >> 32) as u32
}

// Returns the product of a word and a factor with its halves combined.
fn mix(word: u64, factor: u64) -> u64 {
    let product = (word as u128).wrapping_mul(factor as u128);
    (product % (1 << 64)) as u64 ^ (product >> 64) as u64
}

// Returns the first, the middle and the last eight bytes, or fewer of a short string: all bytes of
// a string of at most 24.
fn three_words(bytes: &[u8]) -> (u64, u64, u64) {
    let len = bytes.len();
    if len >= 8 {
        (
            word_at(bytes, 0),
            word_at(bytes, (len - 8) / 2),
            word_at(bytes, len - 8),
        )
    } else if len >= 4 {
        (half_word_at(bytes, 0), 0, half_word_at(bytes, len - 4))
    } else if len > 0 {
        (
            bytes[0] as u64,
            bytes[len / 2] as u64,
            bytes[len - 1] as u64,
        )
    } else {
        (0, 0, 0)
    }
}

// Returns the eight bytes from `start` as a number.
fn word_at(bytes: &[u8], start: usize) -> u64
    requires { start + 8 ≤ length bytes.now }
{
    u64::from_le_bytes([
        bytes[start],
        bytes[start + 1],
        bytes[start + 2],
        bytes[start + 3],
        bytes[start + 4],
        bytes[start + 5],
        bytes[start + 6],
        bytes[start + 7],
    ])
}

// Returns the four bytes from `start` as a number.
fn half_word_at(bytes: &[u8], start: usize) -> u64
    requires { start + 4 ≤ length bytes.now }
{
    u32::from_le_bytes([
        bytes[start],
        bytes[start + 1],
        bytes[start + 2],
        bytes[start + 3],
    ]) as u64
}
