//! Digests: BLAKE2b-512 of bytes, and of the content of byte strings.
ghost use Rattle.std.specs.Prelude.{◌≡◌, length, true, MatchResult};
ghost use Rattle.jj_content.specs.Blake2b.{blake2b};
ghost use Rattle.jj_content.specs.Blake2bState.{HasAbsorbed};
ghost use Rattle.jj_content.specs.Content.{Absorbs, list_content, string_content, u64_content};
ghost use Rattle.jj_core_c.specs.Buffers.{Fails, Writes};
ghost use Rattle.jj_core_c.specs.Causes.{IsEndsCause, IsLengthCause};
ghost use Rattle.jj_core_c.specs.Pieces.{are_ends, pieces_of};
ghost use Rattle.jj_core_c.specs.Statuses.{Accepts, Returns};

use crate::buffers::write_bytes;
use crate::error::{Error, status_of};
use crate::hasher::hash_two;
use crate::pieces::{are_ends, piece_at};
use jj_content::blake2b::Blake2b512;

fn digest_of(bytes: &[u8]) -> [u8; 64]
    ensures { result ≡ blake2b bytes.now }
{
    let mut hasher = Blake2b512::new();
    hasher.update(bytes);
    hasher.finalize()
}

#[tactic(auto, unfolding(jj_content::specs::Content::u64_content))]
fn update_len(hasher: &mut Blake2b512, len: usize)
    ensures { Absorbs HasAbsorbed hasher.old hasher.new (u64_content len) }
{
    hasher.update(&(len as u64).to_le_bytes());
}

// Appends the length of a byte string, then its bytes.
#[tactic(auto, unfolding(jj_content::specs::Content::string_content))]
fn update_content(hasher: &mut Blake2b512, bytes: &[u8])
    ensures { Absorbs HasAbsorbed hasher.old hasher.new (string_content bytes.now) }
{
    update_len(hasher, bytes.len());
    hasher.update(bytes);
}

fn list_digest(bytes: &[u8], ends: &[usize]) -> [u8; 64]
    requires { are_ends (length bytes.now) ends.now ≡ true }
    ensures { result ≡ blake2b (list_content string_content (pieces_of bytes.now ends.now)) }
{
    let mut hasher = Blake2b512::new();
    update_len(&mut hasher, ends.len());
    for index in 0..ends.len() {
        update_content(&mut hasher, piece_at(bytes, ends, index));
    }
    hasher.finalize()
}

pub(crate) fn write_digest(digest: &[u8; 64], buffer: &mut [u8]) -> Result<usize, Error>
    ensures { MatchResult result (Writes buffer.old buffer.new digest.now)
        (Fails buffer.old buffer.new (IsLengthCause 64 (length buffer.old))) }
{
    if buffer.len() < 64 {
        return Err(Error::Length);
    }
    Ok(write_bytes(buffer, digest))
}

fn write_list_digest(bytes: &[u8], ends: &[usize], digest: &mut [u8]) -> Result<usize, Error>
    ensures { MatchResult result
        (Accepts (are_ends (length bytes.now) ends.now ≡ true) (Writes digest.old digest.new
        (blake2b (list_content string_content (pieces_of bytes.now ends.now)))))
        (Fails digest.old digest.new
        (IsEndsCause (length bytes.now) ends.now 64 (length digest.old))) }
{
    if !are_ends(bytes.len(), ends) {
        return Err(Error::Ends);
    }
    if digest.len() < 64 {
        return Err(Error::Length);
    }
    Ok(write_bytes(digest, &list_digest(bytes, ends)))
}

/// Writes the BLAKE2b-512 digest of the bytes. Returns 64.
///
/// Errors: `Length`. Does not allocate.
#[unsafe(no_mangle)]
pub extern "C" fn jj_hash(bytes: &[u8], digest: &mut [u8]) -> i64
    ensures { Returns result (Writes digest.old digest.new (blake2b bytes.now))
        (Fails digest.old digest.new (IsLengthCause 64 (length digest.old))) }
{
    status_of(write_digest(&digest_of(bytes), digest))
}

/// Writes the digest of the content of a byte string. Returns 64.
///
/// Errors: `Length`. Does not allocate.
#[tactic(auto, unfolding(jj_content::specs::Content::string_content, jj_content::specs::Content::u64_content))]
#[unsafe(no_mangle)]
pub extern "C" fn jj_content_hash(bytes: &[u8], digest: &mut [u8]) -> i64
    ensures { Returns result
        (Writes digest.old digest.new (blake2b (string_content bytes.now)))
        (Fails digest.old digest.new (IsLengthCause 64 (length digest.old))) }
{
    hash_two(&(bytes.len() as u64).to_le_bytes(), bytes, digest)
}

/// Writes the digest of the content of a list of byte strings. Returns 64.
///
/// Errors: `Ends`, `Length`. Does not allocate.
#[unsafe(no_mangle)]
pub extern "C" fn jj_content_hash_list(bytes: &[u8], ends: &[usize], digest: &mut [u8]) -> i64
    ensures { Returns result
        (Accepts (are_ends (length bytes.now) ends.now ≡ true) (Writes digest.old digest.new
        (blake2b (list_content string_content (pieces_of bytes.now ends.now)))))
        (Fails digest.old digest.new
        (IsEndsCause (length bytes.now) ends.now 64 (length digest.old))) }
{
    status_of(write_list_digest(bytes, ends, digest))
}
