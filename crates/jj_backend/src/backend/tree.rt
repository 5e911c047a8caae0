//! Trees: the sorted list of the entries of one directory, searched by bisection.
ghost use Rattle.std.specs.Prelude.{◌≡◌, ◌↔◌, ◌<◌, ◌≤◌, ◌+◌, [], map, length, count_by, slice_index_or, IsTrue, IfSome, IfOk, IfErr, MatchOption, None};
ghost use Rattle.std.specs.FinMap.{is_sorted};
ghost use Rattle.std.specs.List.Sorted.{IsPermutation, IsSortedByKey};
ghost use Rattle.std.specs.Str.{bytes_eq};
ghost use Rattle.std.specs.Iterator.{YieldsFirstBy, item_count};
ghost use Rattle.std.specs.Option.{option_copied, option_map};
ghost use Rattle.std.specs.Ordering.{is_lt};
ghost use Rattle.jj_paths.specs.Names.{name_of};
ghost use Rattle.jj_paths.specs.Paths.{Name, name_cmp};
ghost use Rattle.jj_backend.specs.Trees.{Entries, value_at, IsEntryAt, entry_of, entries_left, names_left};

use super::TreeValue;
use jj_paths::repo_path::{RepoPathComponent, RepoPathComponentBuf};
use std::alloc::{AllocError, Global};
use std::cmp::Ordering;
use std::iter::FusedIterator;
use std::marker::Model;
use thiserror::Error;

/// Two entries of a directory have the same name.
#[derive(Debug, Drop, Error)]
#[error("Duplicate tree entry \"{name}\"", name = .name.as_component().as_internal_str())]
pub struct DuplicateEntryError {
    pub name: RepoPathComponentBuf,
}

/// An entry of a tree, by reference: a name and a value.
#[derive(Clone, Copy, Debug, PartialEq, Eq)]
pub struct TreeEntry<'a> {
    name: RepoPathComponent<'a>,
    value: &'a TreeValue,
}

impl<'a> TreeEntry<'a> {
    /// Creates an entry.
    pub fn new(name: RepoPathComponent<'a>, value: &'a TreeValue) -> Self
        ensures { entry_of result ≡ (name_of name.entry, value.now) }
    {
        TreeEntry { name, value }
    }

    /// Returns the name of the entry in its directory.
    pub fn name(&self) -> RepoPathComponent<'a>
        ensures { name_of result ≡ (entry_of self.now).0 }
    {
        self.name
    }

    /// Returns the value of the entry.
    pub fn value(&self) -> &'a TreeValue
        ensures { result.now ≡ (entry_of self.now).1 }
    {
        self.value
    }
}

/// Iterates over the entries of a tree in order of their names, without those of its subtrees.
#[derive(Clone, Copy)]
pub struct TreeEntriesNonRecursiveIterator<'a> {
    rest: &'a [(RepoPathComponentBuf, TreeValue)],
}

impl<'a> Iterator for TreeEntriesNonRecursiveIterator<'a> {
    type Item = TreeEntry<'a>;

    ghost next_gives = { YieldsFirstBy entry_of entries_left };

    ghost remaining = { item_count entries_left };

    fn next(&mut self) -> Option<TreeEntry<'a>> {
        let ((name, value), rest) = self.rest.split_first()?;
        self.rest = rest;
        Some(TreeEntry::new(name.as_component(), value))
    }
}

impl FusedIterator for TreeEntriesNonRecursiveIterator<'_> {}

/// Iterates over the names of a tree in ascending order.
#[derive(Clone, Copy)]
pub struct TreeNames<'a> {
    entries: TreeEntriesNonRecursiveIterator<'a>,
}

impl<'a> Iterator for TreeNames<'a> {
    type Item = RepoPathComponent<'a>;

    ghost next_gives = { YieldsFirstBy name_of names_left };

    ghost remaining = { item_count names_left };

    fn next(&mut self) -> Option<RepoPathComponent<'a>> {
        let entry = self.entries.next()?;
        Some(entry.name())
    }
}

impl FusedIterator for TreeNames<'_> {}

/// The entries of one directory, in strictly ascending order of their names.
#[derive(Debug, Drop)]
pub struct Tree {
    pub(super) entries: Vec<(RepoPathComponentBuf, TreeValue)>,
}

impl Model for Tree {
    ghost Value = { Entries };

    ghost view = { λ tree. tree.entries.items };

    ghost invariant = { λ tree. IsTrue (is_sorted name_cmp tree.entries.items) };
}

impl Tree {
    /// Creates a tree without entries.
    pub fn default(alloc: Global) -> Self
        ensures { result ≡ [] }
    {
        Tree {
            entries: Vec::new(alloc),
        }
    }

    /// Returns whether the names of these entries ascend strictly.
    pub fn are_sorted(entries: &[(RepoPathComponentBuf, TreeValue)]) -> bool
        ensures { result ≡ is_sorted name_cmp entries.now }
    {
        for i in 1..entries.len() {
            if !precedes(&entries[i - 1], &entries[i]) {
                return false;
            }
        }
        true
    }

    /// Creates a tree of entries in any order, and sorts them by name. Fails if two of them have
    /// one name. O(n log n) comparisons; does not allocate.
    pub fn from_entries(
        entries: Vec<(RepoPathComponentBuf, TreeValue)>,
    ) -> Result<Self, DuplicateEntryError>
        // The tree has the entries in another order.
        ensures entries { IfOk result (IsPermutation entries.items) }
        // Their names ascend.
        ensures ascending { IfOk result (λ tree. IsTrue (is_sorted name_cmp tree)) }
        // The tree has the value of each entry under its name, and no other.
        ensures values { IfOk result (λ tree. (name : Name)
            → value_at tree name ≡ value_at entries.items name) }
        // An error has a name that several entries have.
        ensures duplicate { IfErr result (λ error.
            2 ≤ count_by (λ entry. bytes_eq error.name entry.0) entries.items) }
    {
        let mut entries = entries;
        entries.sort_unstable_by(|before, after| {
            before.0.as_component().cmp(&after.0.as_component())
        });
        match find_duplicate(entries.as_slice()) {
            None => Ok(Tree { entries }),
            Some(index) => Err(DuplicateEntryError {
                name: take_name(entries, index),
            }),
        }
    }

    /// Creates a tree of entries whose names ascend strictly.
    pub fn from_sorted_entries(entries: Vec<(RepoPathComponentBuf, TreeValue)>) -> Self
        requires { IsTrue (is_sorted name_cmp entries.items) }
        ensures { result ≡ entries.items }
    {
        Tree { entries }
    }

    /// Returns whether the tree has no entries.
    pub fn is_empty(&self) -> bool
        ensures { IsTrue result ↔ (self.now ≡ []) }
    {
        self.entries.is_empty()
    }

    /// Iterates over the names in ascending order.
    pub fn names(&self) -> TreeNames<'_>
        ensures { names_left result ≡ map (λ entry. entry.0) self.now }
    {
        TreeNames {
            entries: self.entries(),
        }
    }

    /// Iterates over the entries in order of their names.
    pub fn entries(&self) -> TreeEntriesNonRecursiveIterator<'_>
        ensures entries { entries_left result ≡ self.now }
        ensures ascending { IsTrue (is_sorted name_cmp self.now) }
    {
        TreeEntriesNonRecursiveIterator {
            rest: self.entries.as_slice(),
        }
    }

    /// Returns the entry with this name, by binary search.
    pub fn entry(&self, name: RepoPathComponent<'_>) -> Option<TreeEntry<'_>>
        ensures value { option_map (λ entry. (entry_of entry).1) result
            ≡ value_at self.now (name_of name.entry) }
        ensures name { IfSome result (λ entry. (entry_of entry).0 ≡ name_of name.entry) }
    {
        match find_index(self.entries.as_slice(), name) {
            Some(at) => {
                let found = &self.entries[at];
                Some(TreeEntry::new(found.0.as_component(), &found.1))
            }
            None => None,
        }
    }

    /// Returns the value of the entry with this name, by binary search.
    pub fn value(&self, name: RepoPathComponent<'_>) -> Option<&TreeValue>
        // The result is the value of the entry with this name, `None` if there is none.
        ensures { option_copied result ≡ value_at self.now (name_of name.entry) }
    {
        match find_index(self.entries.as_slice(), name) {
            Some(at) => Some(&self.entries[at].1),
            None => None,
        }
    }
}

fn precedes(
    before: &(RepoPathComponentBuf, TreeValue),
    after: &(RepoPathComponentBuf, TreeValue),
) -> bool
    ensures { result ≡ is_lt (name_cmp before.now.0 after.now.0) }
{
    before.0.as_component() < after.0.as_component()
}

// Returns the index of an entry whose name is also that of the next one.
fn find_duplicate(entries: &[(RepoPathComponentBuf, TreeValue)]) -> Option<usize>
    requires { IsSortedByKey (λ entry. entry.0) name_cmp entries.now }
    ensures { MatchOption result (IsTrue (is_sorted name_cmp entries.now))
        (λ index. (index + 1 < length entries.now) × ((d : _)
        → (slice_index_or entries.now index d).0
        ≡ (slice_index_or entries.now (index + 1) d).0)) }
{
    for i in 1..entries.len() {
        if !precedes(&entries[i - 1], &entries[i]) {
            return Some(i - 1);
        }
    }
    None
}

// Takes the name of the entry at `index`.
fn take_name(entries: Vec<(RepoPathComponentBuf, TreeValue)>, index: usize) -> RepoPathComponentBuf
    requires { index < length entries.items }
    ensures { (d : _) → result ≡ (slice_index_or entries.items index d).0 }
{
    let mut entries = entries;
    let (name, _value) = entries.swap_remove(index);
    name
}

// Returns the index of the entry with this name.
fn find_index(
    entries: &[(RepoPathComponentBuf, TreeValue)],
    name: RepoPathComponent<'_>,
) -> Option<usize>
    requires { IsTrue (is_sorted name_cmp entries.now) }
    ensures { MatchOption result
        (value_at entries.now (name_of name.entry) ≡ None)
        (IsEntryAt entries.now (name_of name.entry)) }
{
    let found = entries.binary_search_by(
        move |entry| -> Ordering
            ensures { result ≡ name_cmp entry.now.0 (name_of name.entry) }
        { entry.0.as_component().cmp(&name) },
    );
    match found {
        Ok(at) => Some(at),
        Err(_) => None,
    }
}

impl Clone for Tree {
    ghost is_clone = { λ tree c. c ≡ tree };

    fn clone(&self) -> Result<Self, AllocError> {
        let mut entries = Vec::with_capacity(*self.entries.allocator(), self.entries.len())?;
        for (name, value) in self.entries.iter() {
            entries.push((name.clone()?, value.clone()?))?;
        }
        Ok(Tree { entries })
    }
}
