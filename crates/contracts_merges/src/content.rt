//! Callers of `jj_content`.
ghost use Rattle.std.specs.Prelude.{◌≡◌, ℕ, IfOk, OnOk, MatchOption};
ghost use Rattle.jj_content.specs.Blake2b.{blake2b};
ghost use Rattle.jj_content.specs.Content.{Absorbs, list_content, map_content, option_content};
ghost use Rattle.jj_content.specs.Symbols.{IsEscapeOf};

use jj_content::blake2b::Blake2b512;
use jj_content::content_hash::{ContentHash, DigestUpdate, content_of};
use jj_content::symbol_util::unescape_char;
use std::alloc::{AllocError, Global};
use std::collections::HashMap;

/// `Blake2b512::update`.
pub fn digest(bytes: &[u8]) -> [u8; 64]
    ensures { result ≡ blake2b bytes.now }
{
    let mut hasher = Blake2b512::new();
    hasher.update(bytes);
    hasher.finalize()
}

/// `ContentHash::hash` of a slice.
pub fn hash_list<T: ContentHash, D: DigestUpdate>(
    alloc: Global,
    items: &[T],
    state: &mut D,
) -> Result<(), AllocError>
    ensures { OnOk result (Absorbs D.absorbed state.old state.new
        (list_content T.content items.now)) }
{
    items.hash(alloc, state)
}

/// `ContentHash::hash` of an option.
pub fn hash_option<T: ContentHash, D: DigestUpdate>(
    alloc: Global,
    option: &Option<T>,
    state: &mut D,
) -> Result<(), AllocError>
    ensures { OnOk result (Absorbs D.absorbed state.old state.new
        (option_content T.content option.now)) }
{
    option.hash(alloc, state)
}

/// `content_of` of a map.
pub fn map_bytes(alloc: Global, map: &HashMap<u32, u32>) -> Result<Vec<u8>, AllocError>
    ensures { IfOk result (λ bytes. bytes.items ≡ map_content ⟦<u32 as Ord>⟧.cmp
        ⟦<u32 as ContentHash>⟧.content ⟦<u32 as ContentHash>⟧.content map.now.entries) }
{
    content_of(alloc, map)
}

/// `unescape_char`.
pub fn unescape(escaped: &str) -> Option<char>
    ensures { MatchOption result ((c : ℕ) → ¬ (IsEscapeOf escaped.now c))
        (λ c. IsEscapeOf escaped.now c) }
{
    unescape_char(escaped)
}
