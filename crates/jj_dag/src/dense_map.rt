//! Maps of small numbers without hashing: the sparse set of Briggs and Torczon, with values.
ghost use Rattle.std.specs.Prelude.{◌≡◌, ◌<◌, ℕ, List, [], false, eqb, length, map, MatchOption, get_or};
ghost use Rattle.std.specs.Map.{keys_of};
ghost use Rattle.std.specs.Set.{is_member};
ghost use Rattle.jj_dag.specs.DenseSets.{IsSparseSet};

use crate::dense_set::make_room;
use crate::node_map::NodeMap;
use std::alloc::{AllocError, Global};

/// A map from numbers that is cleared in constant time. It stores an entry for each key, and a
/// `usize` for each number up to the greatest key that was ever inserted; `insert` fails if memory
/// for that many runs out.
#[derive(Drop)]
pub struct DenseMap<V> {
    entries: Vec<(usize, V)>,
    // The index of each key in `entries`, and any value at other numbers.
    indices: Vec<usize>,
    ghost indexed: { IsSparseSet (keys_of entries.items) indices.items },
}

impl<V: Copy + Drop> DenseMap<V> {
    /// Creates an empty map.
    pub fn new(alloc: Global) -> DenseMap<V>
        ensures { result.entries.items ≡ [] }
    {
        DenseMap {
            entries: Vec::new(alloc),
            indices: Vec::new(alloc),
        }
    }

    /// Removes all entries.
    pub fn clear(&mut self)
        ensures { self.new.entries.items ≡ [] }
    {
        self.entries.clear();
    }

    // Returns the index of the entry with this key.
    fn index_of(&self, number: usize) -> Option<usize>
        ensures { MatchOption result (is_member eqb (keys_of self.now.entries.items) number ≡ false)
            (λ index. (index < length self.now.entries.items)
            × (get_or (keys_of self.now.entries.items) index 0 ≡ number)) }
    {
        if self.indices.len() <= number {
            return None;
        }
        let index = self.indices[number];
        if self.entries.len() <= index {
            return None;
        }
        if self.entries[index].0 != number {
            return None;
        }
        Some(index)
    }
}

impl<V: Copy + Drop> NodeMap<usize, V> for DenseMap<V> {
    ghost entries = { λ m. m.entries.items };

    fn get(&self, key: &usize) -> Option<V> {
        match self.index_of(*key) {
            Some(index) => Some(self.entries[index].1),
            None => None,
        }
    }

    fn insert(&mut self, key: usize, value: V) -> Result<Option<V>, AllocError> {
        if let Some(index) = self.index_of(key) {
            let old = self.entries[index].1;
            self.entries[index] = (key, value);
            return Ok(Some(old));
        }
        make_room(&mut self.indices, key)?;
        self.indices[key] = self.entries.len();
        self.entries.push((key, value))?;
        Ok(None)
    }

    fn update(&mut self, key: &usize, value: V) {
        if let Some(index) = self.index_of(*key) {
            self.entries[index] = (*key, value);
        }
    }

    fn len(&self) -> usize {
        self.entries.len()
    }
}
