//! Content bytes in hexadecimal and JSON values, as values of a result.
use jj_content::content_hash::{ContentHash, DigestUpdate};
use jj_content::hex_util::encode_hex;
use jj_json::to_json::{ToJson, ToJsonError};
use rows::values::Values;
use serde::Serialize;
use std::alloc::{AllocError, Global};

// The content bytes so far, unless an allocation failed.
#[derive(Drop)]
struct ContentBytes {
    bytes: Vec<u8>,
    failed: bool,
}

impl DigestUpdate for ContentBytes {
    ghost use Rattle.std.specs.Prelude.{◌≡◌, false};

    ghost absorbed = { λ content bytes. content.failed ≡ false → content.bytes.items ≡ bytes };

    fn update(&mut self, bytes: &[u8]) {
        if self.bytes.extend_from_slice(bytes).is_err() {
            self.failed = true;
        }
    }
}

fn content_hex<T: ContentHash>(alloc: Global, value: &T) -> Result<String, AllocError> {
    let mut content = ContentBytes {
        bytes: Vec::new(alloc),
        failed: false,
    };
    value.hash(alloc, &mut content)?;
    if content.failed {
        return Err(AllocError);
    }
    encode_hex(alloc, content.bytes.as_slice())
}

/// Appends the content bytes of a value in hexadecimal.
pub fn put_content<T: ContentHash>(alloc: Global, values: &mut Values, value: &T) {
    values.allocated(content_hex(alloc, value));
}

// Serializes a JSON value: only an allocation can fail.
fn json_text<T: Serialize>(alloc: Global, value: &T) -> Result<String, AllocError> {
    match serde_json::to_string(alloc, value) {
        Ok(text) => Ok(text),
        Err(_) => Err(AllocError),
    }
}

/// Appends a value as JSON, or `out of range`.
pub fn put_json<T: ToJson>(alloc: Global, values: &mut Values, value: &T) {
    match value.to_json(alloc) {
        Ok(json) => values.allocated(json_text(alloc, &json)),
        Err(ToJsonError::Memory) => values.allocated(Err(AllocError)),
        Err(ToJsonError::TimestampOutOfRange) => values.word("out of range"),
    }
}

/// Appends the content bytes of a record and its JSON.
pub fn put_record<T: ContentHash + ToJson>(alloc: Global, values: &mut Values, value: &T) {
    put_content(alloc, values, value);
    put_json(alloc, values, value);
}
