//! Digests of logged objects.
ghost use Rattle.std.specs.Prelude.{◌≡◌};
ghost use Rattle.jj_content.specs.Blake2b.{blake2b};
ghost use Rattle.jj_content.specs.Content.{string_content};
ghost use Rattle.jj_backend.specs.Contents.{bytes_content};

use jj_content::blake2b::Blake2b512;

/// Returns the BLAKE2b-512 digest of these bytes, the content of a record. Does not allocate.
pub fn digest(content: &[u8]) -> [u8; 64]
    ensures { result ≡ blake2b content.now }
{
    let mut hasher = Blake2b512::new();
    hasher.update(content);
    hasher.finalize()
}

/// Returns the digest of the content of a string: its length, then its bytes. Does not allocate.
#[tactic(auto, unfolding(jj_content::specs::Content::string_content, jj_content::specs::Content::u64_content))]
pub fn string_digest(bytes: &[u8]) -> [u8; 64]
    ensures { result ≡ blake2b (string_content bytes.now) }
{
    let mut hasher = Blake2b512::new();
    hasher.update(&(bytes.len() as u64).to_le_bytes());
    hasher.update(bytes);
    hasher.finalize()
}

/// Returns the digest of the content of a file: its length, then its bytes. Does not allocate.
pub fn file_digest(contents: &[u8]) -> [u8; 64]
    ensures { result ≡ blake2b (bytes_content contents.now) }
{
    string_digest(contents)
}
