//! Tests of iterators over matching map entries, for both kinds of keys, and of predicates of
//! callers.
ghost use Rattle.std.specs.Iterator.{IsFinite};

use crate::fixtures::{check_debug, check_match, collect, matcher};
use jj_content_tests::retry::{Passed, passes};
use jj_ids::ref_name::RefNameBuf;
use jj_strings::str_util::{BytePredicate, ByteTest, StringMatcher, TextKey};
use std::alloc::{AllocError, Global};
use std::collections::BTreeMap;
use std::process::Abort;
use std::test::Fail;

// Creates a map of these keys, each with its index.
fn map_of_indices<K: TextKey>(
    alloc: Global,
    strings: &[&str],
) -> Result<BTreeMap<K, usize>, AllocError> {
    let mut map = BTreeMap::new(alloc);
    for (index, text) in strings.iter().enumerate() {
        let _ = map.insert(K::from_text(alloc, text)?, index)?;
    }
    Ok(map)
}

// Checks the key and the value of an entry.
fn check_entry<R: Abort, K: TextKey>(rt: &R, entry: &(&K, &usize), text: &str, index: usize) {
    assert_eq!(rt; entry.0.as_text(), text);
    assert_eq!(rt; *entry.1, index);
}

// Checks the keys and the values of all entries.
fn check_entries<R: Abort, K: TextKey>(rt: &R, found: &[(&K, &usize)], expected: &[(&str, usize)]) {
    assert_eq!(rt; found.len(), expected.len());
    for (entry, (text, index)) in found.iter().zip(expected) {
        check_entry(rt, entry, text, *index);
    }
}

// Checks that an iterator yields these entries in this order.
fn check_yields<'a, R: Abort, K: TextKey + 'a, I>(
    rt: &R,
    alloc: Global,
    found: I,
    expected: &[(&str, usize)],
) -> Passed
where
    I: Iterator<Item = Result<(&'a K, &'a usize), AllocError>> + Drop,
    requires callable { I.can_next found }
    requires finite { IsFinite (I.remaining found) }
{
    check_entries(rt, collect(rt, alloc, found)?.as_slice(), expected);
    Ok(())
}

// Checks which entries a matcher finds, also by `filter_btree_map_as_deref`.
fn check_finds<R: Abort, K: TextKey>(
    rt: &R,
    alloc: Global,
    matcher: &StringMatcher,
    map: &BTreeMap<K, usize>,
    expected: &[(&str, usize)],
) -> Passed {
    check_yields(rt, alloc, matcher.filter_btree_map(alloc, map), expected)?;
    check_yields(
        rt,
        alloc,
        matcher.filter_btree_map_as_deref(alloc, map),
        expected,
    )
}

// The kind and the string of a pattern, and the entries that it finds.
type Row = (&'static str, &'static str, &'static [(&'static str, usize)]);

static FOUND: [Row; 10] = [
    ("exact", "o", &[]),
    ("exact", "foo", &[("foo", 0)]),
    ("exact", "Bar", &[("Bar", 2)]),
    ("exact", "", &[]),
    ("exact-i", "bar", &[("Bar", 2), ("bar", 3)]),
    ("substring", "o", &[("foo", 0)]),
    ("substring", "a", &[("Bar", 2), ("bar", 3), ("baz", 1)]),
    ("glob", "b*", &[("bar", 3), ("baz", 1)]),
    ("regex", "^b|z$", &[("bar", 3), ("baz", 1)]),
    (
        "regex",
        "",
        &[("Bar", 2), ("bar", 3), ("baz", 1), ("foo", 0)],
    ),
];

fn check_row<R: Abort, K: TextKey>(
    rt: &R,
    alloc: Global,
    map: &BTreeMap<K, usize>,
    row: &Row,
) -> Passed {
    let (kind, text, expected) = row;
    check_finds(rt, alloc, &matcher(rt, alloc, kind, text)?, map, *expected)
}

// Checks the entries that patterns find.
fn check_rows<R: Abort, K: TextKey>(
    rt: &R,
    alloc: Global,
    map: &BTreeMap<K, usize>,
    rows: &[Row],
) -> Passed {
    for row in rows {
        check_row(rt, alloc, map, row)?;
    }
    Ok(())
}

static KEYS: [&str; 4] = ["foo", "baz", "Bar", "bar"];

static ALL: [(&str, usize); 4] = [("Bar", 2), ("bar", 3), ("baz", 1), ("foo", 0)];

// Checks all entries of a map, and those that patterns find.
fn check_map<R: Abort, K: TextKey>(rt: &R, alloc: Global) -> Passed {
    let map: BTreeMap<K, usize> = map_of_indices(alloc, &KEYS)?;
    check_finds(rt, alloc, &StringMatcher::all(), &map, &ALL)?;
    check_rows(rt, alloc, &map, &FOUND)
}

#[test]
fn maps_by_names(rt: HostRuntime) -> Result<(), Fail> {
    passes(&rt, check_map::<HostRuntime, String>)?;
    passes(&rt, check_map::<HostRuntime, RefNameBuf>)
}

// Checks the strings that the matcher of three bytes matches.
fn check_three_bytes<R: Abort>(rt: &R, alloc: Global, matcher: &StringMatcher) -> Passed {
    check_match(rt, alloc, matcher, "foo", true)?;
    check_match(rt, alloc, matcher, "\u{c0}", false)?;
    check_match(rt, alloc, matcher, "\u{c0}b", true)?;
    check_match(rt, alloc, matcher, "", false)?;
    check_debug(rt, alloc, matcher, "Fn(..)")?;
    let map: BTreeMap<String, usize> = map_of_indices(alloc, &["foo", "ba", "bar"])?;
    check_finds(rt, alloc, matcher, &map, &[("bar", 2), ("foo", 0)])
}

// A predicate sees the bytes, not the characters, of a string.
#[test]
fn predicates_of_callers(rt: HostRuntime) -> Result<(), Fail> {
    passes(&rt, |rt, alloc| {
        let test: ByteTest = Box::new(alloc, |bytes: &[u8]| bytes.len() == 3)?;
        let matcher = StringMatcher::Fn(BytePredicate::new(test));
        check_three_bytes(rt, alloc, &matcher)
    })
}
