//! Iterator over the entries of a map whose keys match: a scan, or a lookup for exact matchers.
ghost use Rattle.std.specs.Prelude.{◌≡◌, length};
ghost use Rattle.std.specs.Map.Iter.{TakesFirst, deref_pair};
ghost use Rattle.jj_strings.specs.RemainingEntries.{remaining_entries, CoversAll};

use crate::str_util::matcher::StringMatcher;
use crate::str_util::searcher::StringSearcher;
use crate::str_util::text_key::TextKey;
use either::{Either, Left, Right};
use std::alloc::{AllocError, Global};
use std::collections::BTreeMap;
use std::collections::btree_map::Iter;
use std::option::IntoIter;

// The remaining candidates: entries of the map, or the one that was looked up.
type Entries<'a, K, V> = Either<Iter<'a, K, V>, IntoIter<(&'a K, &'a V)>>;

/// Iterator over matching entries, in the order of keys. Yields an error only if the matcher
/// contains a regular expression, and ends after it.
#[derive(Drop)]
pub struct FilterBTreeMap<'a, 'm, K: TextKey, V> {
    searcher: StringSearcher<'m>,
    entries: Entries<'a, K, V>,
}

impl StringMatcher {
    ghost use Rattle.jj_strings.specs.StringMatchers.{InMatcher};
    ghost use Rattle.jj_strings.specs.FilterViews.{filter_matcher, filter_entries};

    /// Iterates over the entries whose keys match, in the order of keys. An exact matcher looks its
    /// entry up by a key made from its string, and scans all entries if the allocation of that key
    /// fails. Matching allocates only if the matcher contains a regular expression.
    pub fn filter_btree_map<'a, 'm, K: TextKey, V>(
        &'m self,
        alloc: Global,
        map: &'a BTreeMap<K, V>,
    ) -> FilterBTreeMap<'a, 'm, K, V>
        ensures matcher { filter_matcher result ≡ self.now }
        ensures entries { CoversAll (λ e. InMatcher self.now (K.key_text e.0)) map.now.entries
            (filter_entries result) }
    {
        FilterBTreeMap {
            searcher: self.searcher(alloc),
            entries: self.candidates(alloc, map),
        }
    }

    /// Iterates over the entries whose keys match, exactly as `filter_btree_map`.
    pub fn filter_btree_map_as_deref<'a, 'm, K: TextKey, V>(
        &'m self,
        alloc: Global,
        map: &'a BTreeMap<K, V>,
    ) -> FilterBTreeMap<'a, 'm, K, V>
        ensures matcher { filter_matcher result ≡ self.now }
        ensures entries { CoversAll (λ e. InMatcher self.now (K.key_text e.0)) map.now.entries
            (filter_entries result) }
    {
        self.filter_btree_map(alloc, map)
    }

    // Returns the entries to match: the one of an exact matcher, unless the key for its lookup
    // cannot be allocated; else all.
    fn candidates<'a, K: TextKey, V>(
        &self,
        alloc: Global,
        map: &'a BTreeMap<K, V>,
    ) -> Entries<'a, K, V>
        ensures { CoversAll (λ e. InMatcher self.now (K.key_text e.0)) map.now.entries
            (remaining_entries result) }
    {
        let entries = map.iter();
        let StringMatcher::Exact(text) = self else {
            return Left(entries);
        };
        match K::from_text(alloc, text.as_str()) {
            Ok(key) => Right(map.get_key_value(&key).into_iter()),
            Err(_) => Left(entries),
        }
    }
}

impl<'a, 'm, K: TextKey, V> Iterator for FilterBTreeMap<'a, 'm, K, V> {
    ghost use Rattle.std.specs.Iterator.{at_most};
    ghost use Rattle.std.specs.Map.Iter.{deref_pair};
    ghost use Rattle.jj_strings.specs.Lines.{YieldsNext};
    ghost use Rattle.jj_strings.specs.StringMatchers.{InMatcher, MayAllocate};
    ghost use Rattle.jj_strings.specs.Searchers.{searcher_matcher};

    type Item = Result<(&'a K, &'a V), AllocError>;

    ghost next_gives = { λ s r t. YieldsNext deref_pair
        (λ e. InMatcher (searcher_matcher s.searcher) (K.key_text e.0))
        (MayAllocate (searcher_matcher s.searcher))
        (remaining_entries s.entries) r (remaining_entries t.entries)
        × (searcher_matcher t.searcher ≡ searcher_matcher s.searcher) };

    ghost remaining = { λ s. at_most (length (remaining_entries s.entries)) };

    fn next(&mut self) -> Option<Result<(&'a K, &'a V), AllocError>> {
        while let Some(entry) = next_entry(&mut self.entries) {
            match self.searcher.is_match(entry.0.as_text()) {
                Ok(true) => return Some(Ok(entry)),
                Ok(false) => {}
                Err(error) => {
                    self.entries = Right(None.into_iter());
                    return Some(Err(error));
                }
            }
        }
        None
    }
}

fn next_entry<'a, K: TextKey, V>(entries: &mut Entries<'a, K, V>) -> Option<(&'a K, &'a V)>
    ensures { TakesFirst deref_pair (remaining_entries entries.old) result
        (remaining_entries entries.new) }
{
    match entries {
        Left(all) => all.next(),
        Right(found) => found.next(),
    }
}
