//! Proved callers: values that are stored as their content.
ghost use Rattle.std.specs.Prelude.{◌≡◌, ℕ, ◌<◌, ◌≤◌, [], ◌∷◌, length, IfOk};
ghost use Rattle.jj_content.specs.Blake2b.{blake2b};
ghost use Rattle.jj_decode.specs.Decoding.{DecodesTo};
ghost use Rattle.jj_decode.specs.declared.error.DecodeError.TheVariants.{Malformed};
ghost use Rattle.jj_decode.specs.declared.error.Malformation.TheVariants.{Truncated, UnknownTag};

use jj_content::content_hash::{ContentHash, content_of};
use jj_decode::decode::{decode_content, decode_encoded};
use jj_decode::error::DecodeError;
use std::alloc::Global;
use std::collections::{BTreeMap, HashMap, HashSet};

/// Loads file sizes by name from the bytes of a content-addressed store. The digest of the sizes is
/// the digest of the bytes, so it need not be computed again. Bytes that are too few for a count
/// are reported as such, even if no memory is left.
pub fn load_sizes(alloc: Global, bytes: &[u8]) -> Result<BTreeMap<String, u64>, DecodeError>
    ensures digest { IfOk result (λ sizes.
        blake2b (⟦<BTreeMap<String, u64> as ContentHash>⟧.content sizes) ≡ blake2b bytes.now) }
    ensures short { length bytes.now < 8 → result ≡ Err (Malformed Truncated 0) }
{
    decode_content(alloc, bytes)
}

/// Saves file sizes by name and loads them again: the result is equal, or memory ran out.
pub fn reload_sizes(
    alloc: Global,
    sizes: &BTreeMap<String, u64>,
) -> Result<BTreeMap<String, u64>, DecodeError>
    ensures { DecodesTo (⟦<BTreeMap<String, u64> as PartialEq>⟧.eq sizes.now) result }
{
    let bytes = content_of(alloc, sizes)?;
    decode_content(alloc, &bytes)
}

/// Saves the numbers of tags by name and loads them again. The iteration order may change.
pub fn reload_tags(
    alloc: Global,
    tags: &HashMap<String, HashSet<u32>>,
) -> Result<HashMap<String, HashSet<u32>>, DecodeError>
    ensures { DecodesTo (⟦<HashMap<String, HashSet<u32>> as PartialEq>⟧.eq tags.now) result }
{
    decode_encoded(alloc, tags)
}

/// Saves a list of time, name and flag and loads it again.
pub fn reload_events(
    alloc: Global,
    events: &Vec<(i64, Option<String>, bool)>,
) -> Result<Vec<(i64, Option<String>, bool)>, DecodeError>
    ensures { DecodesTo (⟦<Vec<(i64, Option<String>, bool)> as PartialEq>⟧.eq events.now) result }
{
    decode_encoded(alloc, events)
}

/// Loads a version and a flag. If two bytes end in one that is no bool, the error names that byte.
pub fn load_flag(alloc: Global, bytes: &[u8]) -> Result<(u8, bool), DecodeError>
    ensures { (version flag : ℕ) → 2 ≤ flag → bytes.now ≡ version ∷ flag ∷ []
        → result ≡ Err (Malformed UnknownTag 1) }
{
    decode_content(alloc, bytes)
}
