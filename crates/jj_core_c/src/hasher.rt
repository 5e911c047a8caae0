//! Digests in pieces: a hasher whose fields the caller keeps.
ghost use Rattle.std.specs.Prelude.{◌≡◌, ◌++◌, length, [], MatchResult};
ghost use Rattle.jj_content.specs.Blake2b.{blake2b};
ghost use Rattle.jj_content.specs.Blake2bState.{HasAbsorbed};
ghost use Rattle.jj_content.specs.Content.{Absorbs};
ghost use Rattle.jj_core_c.specs.Buffers.{Fails, Writes};
ghost use Rattle.jj_core_c.specs.Causes.{IsLengthCause};
ghost use Rattle.jj_core_c.specs.Hashers.{WritesDigest, hasher_of};
ghost use Rattle.jj_core_c.specs.Statuses.{Returns};

use crate::digests::write_digest;
use crate::error::{Error, status_of};
use jj_content::blake2b::Blake2b512;

/// The state of a hasher, in memory of the caller. Any values of the fields are a state.
#[repr(C)]
#[derive(Clone, Copy)]
pub struct JjHasher {
    /// The chaining value.
    pub chaining: [u64; 8],
    /// The bytes after the last compressed block, at the start of the buffer.
    pub buffer: [u8; 128],
    /// The lower half of the length of the message in bytes, modulo 2^128.
    pub total_low: u64,
    /// The upper half.
    pub total_high: u64,
    /// Not 0 if the buffer is full.
    pub is_full: u64,
}

fn load_hasher(fields: &JjHasher) -> Blake2b512
    ensures { result ≡ hasher_of fields.now }
{
    Blake2b512 {
        h: fields.chaining,
        buffer: fields.buffer,
        total: ((fields.total_high as u128) << 64) + fields.total_low as u128,
        is_full: fields.is_full != 0,
    }
}

fn store_hasher(hasher: Blake2b512) -> JjHasher
    ensures { hasher_of result ≡ hasher }
{
    let chaining = hasher.h;
    let buffer = hasher.buffer;
    JjHasher {
        chaining,
        buffer,
        total_low: (hasher.total % 0x1_0000_0000_0000_0000) as u64,
        total_high: (hasher.total >> 64) as u64,
        is_full: u64::from(hasher.is_full),
    }
}

fn write_digest_of(hasher: &JjHasher, digest: &mut [u8]) -> Result<usize, Error>
    ensures { MatchResult result (WritesDigest (hasher_of hasher.now) digest.old digest.new)
        (Fails digest.old digest.new (IsLengthCause 64 (length digest.old))) }
{
    write_digest(&load_hasher(hasher).finalize(), digest)
}

// Hashes the concatenation of two byte strings; the proved caller of the exported hasher.
pub(crate) fn hash_two(first: &[u8], second: &[u8], digest: &mut [u8]) -> i64
    ensures { Returns result
        (Writes digest.old digest.new (blake2b (first.now ++ second.now)))
        (Fails digest.old digest.new (IsLengthCause 64 (length digest.old))) }
{
    let mut hasher = JjHasher {
        chaining: [0; 8],
        buffer: [0; 128],
        total_low: 0,
        total_high: 0,
        is_full: 0,
    };
    jj_hasher_start(&mut hasher);
    jj_hasher_update(&mut hasher, first);
    jj_hasher_update(&mut hasher, second);
    jj_hasher_finish(&hasher, digest)
}

/// Resets the hasher to the empty message, whatever its fields were.
///
/// Does not allocate.
#[unsafe(no_mangle)]
pub extern "C" fn jj_hasher_start(hasher: &mut JjHasher)
    ensures { HasAbsorbed (hasher_of hasher.new) [] }
{
    *hasher = store_hasher(Blake2b512::new());
}

/// Appends bytes to the message. O(bytes).
///
/// Does not allocate.
#[unsafe(no_mangle)]
pub extern "C" fn jj_hasher_update(hasher: &mut JjHasher, bytes: &[u8])
    // The hasher has absorbed its old message and then these bytes.
    ensures { Absorbs HasAbsorbed (hasher_of hasher.old) (hasher_of hasher.new) bytes.now }
{
    let mut absorbing = load_hasher(hasher);
    absorbing.update(bytes);
    *hasher = store_hasher(absorbing);
}

/// Writes the digest of the message, to which more can be appended afterwards. Returns 64.
///
/// Errors: `Length`. Does not allocate.
#[unsafe(no_mangle)]
pub extern "C" fn jj_hasher_finish(hasher: &JjHasher, digest: &mut [u8]) -> i64
    // The digest of the absorbed message is written and 64 returned; a shorter buffer is an error.
    ensures { Returns result (WritesDigest (hasher_of hasher.now) digest.old digest.new)
        (Fails digest.old digest.new (IsLengthCause 64 (length digest.old))) }
{
    status_of(write_digest_of(hasher, digest))
}
