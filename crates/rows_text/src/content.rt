//! Requests on digests, content and JSON.
use jj_content::blake2b::Blake2b512;
use jj_content::content_hash::{ContentHash, DigestUpdate, blake2b_hash};
use jj_content::hex_util::{decode_hex, encode_hex};
use jj_json::to_json::{ToJson, ToJsonError};
use rows::request::{Fields, Request};
use rows::row_error::{RowError, agree};
use rows::values::Values;
use std::alloc::{AllocError, Global};
use std::collections::{BTreeMap, HashMap, HashSet};

// A digest state that records content. `is_whole` is false once an allocation failed.
#[derive(Drop)]
struct Recorder {
    bytes: Vec<u8>,
    is_whole: bool,
}

impl DigestUpdate for Recorder {
    ghost use Rattle.std.specs.Prelude.{⊤};

    ghost absorbed = { λ _ _. ⊤ };

    fn update(&mut self, bytes: &[u8]) {
        if self.is_whole && self.bytes.extend_from_slice(bytes).is_err() {
            self.is_whole = false;
        }
    }
}

fn digest_of(bytes: &[u8]) -> [u8; 64] {
    let mut hasher = Blake2b512::new();
    hasher.update(bytes);
    hasher.finalize()
}

// Returns the content of a value as hex.
pub(crate) fn content_of<T: ContentHash>(alloc: Global, value: &T) -> Result<String, AllocError> {
    let mut recorder = Recorder {
        bytes: Vec::new(alloc),
        is_whole: true,
    };
    value.hash(alloc, &mut recorder)?;
    if !recorder.is_whole {
        return Err(AllocError);
    }
    encode_hex(alloc, recorder.bytes.as_slice())
}

fn is_digest_of(alloc: Global, digest: &[u8; 64], content: &str) -> Result<bool, AllocError> {
    let bytes = decode_hex(alloc, content)?;
    Ok(bytes.is_some_and(|bytes: Vec<u8>| *digest == digest_of(bytes.as_slice())))
}

// Appends the content of a value as hex. Fails unless `blake2b_hash` is the digest of the content.
pub(crate) fn put_content<T: ContentHash>(
    alloc: Global,
    values: &mut Values,
    value: &T,
) -> Result<(), RowError> {
    let digest = blake2b_hash(alloc, value)?;
    let content = content_of(alloc, value)?;
    values.string(content.as_str());
    agree(
        is_digest_of(alloc, &digest, content.as_str())?,
        "the digest of a value and of its content",
    )
}

// Appends the content of a value whose allocation may have failed.
fn put_made<T: ContentHash + Drop>(
    alloc: Global,
    values: &mut Values,
    value: Result<T, AllocError>,
) {
    let called = match value {
        Ok(value) => put_content(alloc, values, &value),
        Err(AllocError) => Err(RowError::Memory),
    };
    values.record(called);
}

fn digest(alloc: Global, request: &Request, values: &mut Values) -> Result<(), RowError> {
    let digest = digest_of(request.group(0).only_bytes());
    values.allocated(encode_hex(alloc, digest.as_slice()));
    Ok(())
}

// Returns the bytes `7 * i + 3` modulo 256, for each index `i` below `length`.
fn message(alloc: Global, length: usize) -> Result<Vec<u8>, AllocError> {
    let mut message = Vec::new(alloc);
    let mut byte = 3u8;
    for _ in 0..length {
        message.push(byte)?;
        byte = byte.wrapping_add(7);
    }
    Ok(message)
}

// Appends the digest of the concatenated digests of the messages of all lengths up to `length`.
fn digest_lengths(alloc: Global, request: &Request, values: &mut Values) -> Result<(), RowError> {
    let length = request.group(0).index(0);
    let message = message(alloc, length)?;
    let mut hasher = Blake2b512::new();
    hasher.update(digest_of(b"").as_slice());
    for index in 0..message.len() {
        hasher.update(digest_of(&message.as_slice()[..index + 1]).as_slice());
    }
    values.allocated(encode_hex(alloc, hasher.finalize().as_slice()));
    Ok(())
}

fn is_cut_anywhere(message: &[u8], digest: &[u8; 64]) -> bool {
    for cut in 0..message.len() {
        let mut hasher = Blake2b512::new();
        hasher.update(&message[..cut]);
        hasher.update(&message[cut..]);
        if hasher.finalize() != *digest {
            return false;
        }
    }
    true
}

fn is_cut_into_pieces(message: &[u8], digest: &[u8; 64]) -> bool {
    for size in 1..message.len() {
        let mut hasher = Blake2b512::new();
        for piece in message.chunks(size) {
            hasher.update(piece);
            hasher.update(b"");
        }
        if hasher.finalize() != *digest {
            return false;
        }
    }
    true
}

// Appends the digest of a message. Fails unless it is independent of how `update` splits the
// message.
fn digest_length(alloc: Global, request: &Request, values: &mut Values) -> Result<(), RowError> {
    let length = request.group(0).index(0);
    let message = message(alloc, length)?;
    let digest = digest_of(message.as_slice());
    values.allocated(encode_hex(alloc, digest.as_slice()));
    agree(
        is_cut_anywhere(message.as_slice(), &digest)
            && is_cut_into_pieces(message.as_slice(), &digest),
        "the digest of a message in parts",
    )
}

fn number(alloc: Global, request: &Request, values: &mut Values) -> Result<(), RowError> {
    let fields = request.group(0);
    match fields.string(0) {
        "bool" => put_content(alloc, values, &fields.flag(1)),
        "u8" => put_content(alloc, values, &fields.number8(1)),
        "u32" => put_content(alloc, values, &fields.number32(1)),
        "i32" => put_content(alloc, values, &fields.signed32(1)),
        "u64" => put_content(alloc, values, &fields.number(1)),
        "i64" => put_content(alloc, values, &fields.signed(1)),
        _ => Err(RowError::Unreadable("type of number")),
    }
}

// Appends the content of a byte slice, and of its owned form.
fn bytes(alloc: Global, request: &Request, values: &mut Values) -> Result<(), RowError> {
    let bytes = request.group(0).only_bytes();
    put_made(alloc, values, bytes.to_vec(alloc));
    put_content(alloc, values, &bytes)
}

// Appends the content of a string slice, and of its owned form.
fn string(alloc: Global, request: &Request, values: &mut Values) -> Result<(), RowError> {
    let string = request.group(0).only_string();
    put_made(alloc, values, String::from_str(alloc, string));
    put_content(alloc, values, &string)
}

// Appends the content of an optional `u8` or `i32`.
fn option(alloc: Global, request: &Request, values: &mut Values) -> Result<(), RowError> {
    let fields = request.group(0);
    match fields.string(0) {
        "u8" if fields.len() < 2 => put_content(alloc, values, &None::<u8>),
        "u8" => put_content(alloc, values, &Some(fields.number8(1))),
        "i32" if fields.len() < 2 => put_content(alloc, values, &None::<i32>),
        _ => put_content(alloc, values, &Some(fields.signed32(1))),
    }
}

// Appends the content of a tuple of up to four numbers.
fn tuple(alloc: Global, request: &Request, values: &mut Values) -> Result<(), RowError> {
    let fields = request.group(0);
    match fields.len() {
        0 => put_content(alloc, values, &()),
        1 => put_content(alloc, values, &(fields.signed32(0),)),
        2 => put_content(alloc, values, &(fields.signed32(0), fields.number8(1))),
        3 => {
            let numbers = (fields.signed32(0), fields.number8(1), fields.number8(2));
            put_content(alloc, values, &numbers)
        }
        _ => {
            let (first, second) = (fields.signed32(0), fields.number8(1));
            let (third, fourth) = (fields.number8(2), fields.flag(3));
            put_content(alloc, values, &(first, second, third, fourth))
        }
    }
}

fn list(alloc: Global, request: &Request, values: &mut Values) -> Result<(), RowError> {
    let fields = request.group(0);
    let mut numbers = Vec::new(alloc);
    for index in 0..fields.len() {
        numbers.push(fields.signed32(index))?;
    }
    put_content(alloc, values, &numbers.as_slice())
}

fn ordered_map(
    alloc: Global,
    keys: &Fields,
    entries: &Fields,
) -> Result<BTreeMap<u8, u8>, AllocError> {
    let mut ordered = BTreeMap::new(alloc);
    for index in 0..keys.len() {
        ordered.insert(keys.number8(index), entries.number8(index))?;
    }
    Ok(ordered)
}

fn hashed_map(
    alloc: Global,
    keys: &Fields,
    entries: &Fields,
) -> Result<HashMap<u8, u8>, AllocError> {
    let mut hashed = HashMap::new(alloc);
    for index in 0..keys.len() {
        hashed.insert(keys.number8(index), entries.number8(index))?;
    }
    Ok(hashed)
}

// Appends the content of an ordered map and of a hash map with these entries.
fn map(alloc: Global, request: &Request, values: &mut Values) -> Result<(), RowError> {
    let (keys, entries) = (request.group(0), request.group(1));
    put_made(alloc, values, ordered_map(alloc, keys, entries));
    put_made(alloc, values, hashed_map(alloc, keys, entries));
    Ok(())
}

fn ordered_strings(alloc: Global, fields: &Fields) -> Result<BTreeMap<String, String>, AllocError> {
    let mut ordered = BTreeMap::new(alloc);
    ordered.insert(fields.owned(0)?, fields.owned(1)?)?;
    Ok(ordered)
}

fn hashed_strings(alloc: Global, fields: &Fields) -> Result<HashMap<String, String>, AllocError> {
    let mut hashed = HashMap::new(alloc);
    hashed.insert(fields.owned(0)?, fields.owned(1)?)?;
    Ok(hashed)
}

fn string_map(alloc: Global, request: &Request, values: &mut Values) -> Result<(), RowError> {
    put_made(alloc, values, ordered_strings(alloc, request.group(0)));
    put_made(alloc, values, hashed_strings(alloc, request.group(0)));
    Ok(())
}

fn set_of(alloc: Global, members: &Fields) -> Result<HashSet<u8>, AllocError> {
    let mut set = HashSet::new(alloc);
    for index in 0..members.len() {
        set.insert(members.number8(index))?;
    }
    Ok(set)
}

fn set(alloc: Global, request: &Request, values: &mut Values) -> Result<(), RowError> {
    put_made(alloc, values, set_of(alloc, request.group(0)));
    Ok(())
}

fn all_bytes_ordered(alloc: Global) -> Result<BTreeMap<u8, u8>, AllocError> {
    let mut ordered = BTreeMap::new(alloc);
    for byte in 0..=255u8 {
        ordered.insert(byte, 7u8)?;
    }
    Ok(ordered)
}

// The entries are inserted in ascending order, or in descending order.
fn all_bytes_hashed(alloc: Global, is_descending: bool) -> Result<HashMap<u8, u8>, AllocError> {
    let mut hashed = HashMap::new(alloc);
    for byte in 0..=255u8 {
        hashed.insert(if is_descending { 255 - byte } else { byte }, 7u8)?;
    }
    Ok(hashed)
}

fn hashed_digest(alloc: Global, is_descending: bool) -> Result<[u8; 64], AllocError> {
    blake2b_hash(alloc, &all_bytes_hashed(alloc, is_descending)?)
}

// Appends the content of a map from each byte to 7. Fails unless hashed maps have its digest.
fn all_bytes_map(alloc: Global, values: &mut Values) -> Result<(), RowError> {
    let ordered = all_bytes_ordered(alloc)?;
    put_content(alloc, values, &ordered)?;
    let digest = blake2b_hash(alloc, &ordered)?;
    agree(
        hashed_digest(alloc, false)? == digest && hashed_digest(alloc, true)? == digest,
        "the digest of hashed maps",
    )
}

// Appends a value as JSON. Its timestamps must have dates.
pub(crate) fn put_json<T: ToJson>(
    alloc: Global,
    values: &mut Values,
    value: &T,
) -> Result<(), RowError> {
    match value.to_json(alloc) {
        Ok(json) => values.allocated(json.to_string(alloc)),
        Err(ToJsonError::Memory) => return Err(RowError::Memory),
        Err(error) => values.display(&error),
    }
    Ok(())
}

// Appends a list of optional strings, and then its items, as JSON.
fn json(alloc: Global, request: &Request, values: &mut Values) -> Result<(), RowError> {
    let options = request.group(0).options()?;
    put_json(alloc, values, &options.as_slice())?;
    for option in &options {
        put_json(alloc, values, option)?;
    }
    Ok(())
}

fn json_string(alloc: Global, request: &Request, values: &mut Values) -> Result<(), RowError> {
    let string = request.group(0).only_string();
    put_json(alloc, values, &String::from_str(alloc, string)?)
}

fn json_errors(values: &mut Values) -> Result<(), RowError> {
    values.display(&ToJsonError::Memory);
    values.display(&ToJsonError::TimestampOutOfRange);
    Ok(())
}

pub(crate) fn call(alloc: Global, name: &str, request: &Request, values: &mut Values) -> bool {
    let called = match name {
        "digest" => digest(alloc, request, values),
        "digest-length" => digest_length(alloc, request, values),
        "digest-lengths" => digest_lengths(alloc, request, values),
        "content-number" => number(alloc, request, values),
        "content-bytes" => bytes(alloc, request, values),
        "content-string" => string(alloc, request, values),
        "content-option" => option(alloc, request, values),
        "content-tuple" => tuple(alloc, request, values),
        "content-list" => list(alloc, request, values),
        "content-map" => map(alloc, request, values),
        "content-string-map" => string_map(alloc, request, values),
        "content-set" => set(alloc, request, values),
        "content-all-bytes-map" => all_bytes_map(alloc, values),
        "json" => json(alloc, request, values),
        "json-string" => json_string(alloc, request, values),
        "json-errors" => json_errors(values),
        _ => return false,
    };
    values.record(called);
    true
}
