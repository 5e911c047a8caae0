//! Test that an exact matcher looks its entry up: keys count how often their strings are read.
ghost use Rattle.std.specs.Prelude.{refl, string_bytes};

use crate::fixtures::{collect, matcher};
use jj_content_tests::retry::{Passed, passes};
use jj_strings::str_util::{StringMatcher, TextKey};
use std::alloc::{AllocError, Global};
use std::cell::Cell;
use std::collections::BTreeMap;
use std::process::Abort;
use std::test::Fail;

// A key that counts the reads of its string. The count does not take part in comparisons.
#[derive(Drop)]
#[derive_where(PartialEq, Eq, PartialOrd, Ord)]
struct CountedKey {
    text: String,
    #[derive_where(skip)]
    reads: Cell<u32>,
}

impl TextKey for CountedKey {
    ghost key_text = { λ key. string_bytes key.text };

    ghost ordered_as_text = { λ a b. refl };

    fn as_text(&self) -> &str {
        self.reads.set(self.reads.get().wrapping_add(1));
        self.text.as_str()
    }

    fn from_text(alloc: Global, text: &str) -> Result<Self, AllocError> {
        Ok(CountedKey {
            text: String::from_str(alloc, text)?,
            reads: Cell::new(0),
        })
    }
}

// Creates a map with these keys.
fn map_of_keys(alloc: Global, strings: &[&str]) -> Result<BTreeMap<CountedKey, ()>, AllocError> {
    let mut map = BTreeMap::new(alloc);
    for text in strings {
        let _ = map.insert(CountedKey::from_text(alloc, text)?, ())?;
    }
    Ok(map)
}

// Returns how often keys were read to find the one matching entry.
fn reads<R: Abort>(rt: &R, alloc: Global, matcher: &StringMatcher) -> Result<u32, AllocError> {
    let map = map_of_keys(alloc, &["a", "b", "c", "d", "e"])?;
    let found = collect(rt, alloc, matcher.filter_btree_map(alloc, &map))?;
    assert_eq!(rt; found.len(), 1);
    Ok(
        map.keys()
            .fold(0, |sum, key| key.reads.get().wrapping_add(sum)),
    )
}

// Returns how often keys were read by a pattern of this kind.
fn reads_by_kind<R: Abort>(rt: &R, alloc: Global, kind: &str) -> Result<u32, AllocError> {
    reads(rt, alloc, &matcher(rt, alloc, kind, "d")?)
}

// If the key for the lookup cannot be allocated, each key is read.
fn check_lookup<R: Abort>(rt: &R, alloc: Global) -> Passed {
    assert_eq!(rt; reads_by_kind(rt, alloc, "exact-i")?, 5);
    match reads_by_kind(rt, alloc, "exact")? {
        1 => Ok(()),
        _ => Err(AllocError),
    }
}

#[test]
fn exact_strings_are_looked_up(rt: HostRuntime) -> Result<(), Fail> {
    passes(&rt, check_lookup)
}
