//! A digest state that records content in a fixed buffer.
use jj_content::content_hash::{ContentHash, DigestUpdate, blake2b_hash};
use std::alloc::{AllocError, Global};
use std::process::Abort;

// The first 64 bytes of the content.
#[derive(Clone, Copy, Debug, PartialEq, Eq)]
struct Recorder {
    bytes: [u8; 64],
    len: usize,
}

impl DigestUpdate for Recorder {
    ghost use Rattle.std.specs.Prelude.{⊤};
    ghost use Rattle.jj_content.specs.Content.{Absorbs};

    ghost absorbed = { λ _ _. ⊤ };

    fn update(&mut self, bytes: &[u8]) {
        for byte in bytes {
            if self.len < 64 {
                self.bytes[self.len] = *byte;
                self.len += 1;
            }
        }
    }
}

/// Asserts that the value has this content, and that a failed call has appended a prefix of it.
pub fn assert_content<T: ContentHash, R: Abort>(rt: &R, alloc: Global, value: &T, content: &[u8]) {
    let blank = Recorder {
        bytes: [0; 64],
        len: 0,
    };
    let mut first = blank;
    let mut second = blank;
    if value.hash(alloc, &mut first).is_err() {
        assert!(rt; first.len <= content.len() && first.len <= 64);
        assert_eq!(rt; &first.bytes[..first.len], &content[..first.len]);
        assert!(rt; value.hash(alloc, &mut second).is_ok());
        first = second;
    }
    assert!(rt; first.len == content.len() && first.len <= 64);
    assert_eq!(rt; &first.bytes[..first.len], content);
}

/// Returns the digest of a value. Retries once after an allocation failure.
pub fn digest_of<T: ContentHash>(alloc: Global, value: &T) -> Result<[u8; 64], AllocError> {
    blake2b_hash(alloc, value).or_else(|_| blake2b_hash(alloc, value))
}
