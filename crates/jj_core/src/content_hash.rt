//! Content bytes and digests of values, and values from their content bytes.
pub use jj_content::content_hash::{
    ContentHash, DigestUpdate, blake2b_hash, content_decides, content_of, hash_both, hash_three,
};
pub use jj_decode::decode::{decode_content, decode_encoded};
pub use jj_decode::error::{DecodeError, Malformation};
pub use jj_decode::read_content::{ReadContent, read_both};
pub use jj_json::to_json::{ToJson, ToJsonError};
