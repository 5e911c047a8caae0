//! Sets and maps of numbers: sparse sets where the numbers are small, hashed ones elsewhere.
ghost use Rattle.std.specs.Prelude.{◌≡◌, [], IfOk};
ghost use Rattle.jj_dag.specs.NumberSets.{entries_of, keys_of};

use crate::dense_map::DenseMap;
use crate::dense_set::DenseSet;
use crate::node_map::NodeMap;
use crate::node_set::NodeSet;
use std::alloc::{AllocError, Global};
use std::collections::{HashMap, HashSet};

/// A set of numbers. `Dense` takes memory for each number up to the greatest, `Hashed` for the
/// members only.
#[derive(Drop)]
pub enum NumberSet {
    Dense(DenseSet),
    Hashed(HashSet<usize>),
}

impl NumberSet {
    /// Creates an empty set.
    pub fn new(alloc: Global, is_dense: bool) -> NumberSet
        ensures { keys_of result ≡ [] }
    {
        if is_dense {
            NumberSet::Dense(DenseSet::new(alloc))
        } else {
            NumberSet::Hashed(HashSet::new(alloc))
        }
    }

    /// Removes all members. A dense set that stays dense keeps its memory.
    pub fn clear(&mut self, alloc: Global, is_dense: bool)
        ensures { keys_of self.new ≡ [] }
    {
        if is_dense {
            if let NumberSet::Dense(set) = self {
                set.clear();
                return;
            }
        }
        *self = NumberSet::new(alloc, is_dense);
    }

    /// Returns the members, in some order. Fails if memory runs out.
    pub fn to_vec(&self, alloc: Global) -> Result<Vec<usize>, AllocError>
        ensures { IfOk result (λ members. members.items ≡ keys_of self.now) }
    {
        match self {
            NumberSet::Dense(set) => Vec::from_slice(alloc, set.as_slice()),
            NumberSet::Hashed(set) => members_of(alloc, set),
        }
    }
}

// Returns the members of a hash set.
fn members_of(alloc: Global, set: &HashSet<usize>) -> Result<Vec<usize>, AllocError>
    ensures { IfOk result (λ members. members.items ≡ set.now.keys) }
{
    let mut members = Vec::new(alloc);
    for member in set {
        members.push(*member)?;
    }
    Ok(members)
}

impl NodeSet<usize> for NumberSet {
    ghost keys = { keys_of };

    fn contains(&self, key: &usize) -> bool {
        match self {
            NumberSet::Dense(set) => NodeSet::contains(set, key),
            NumberSet::Hashed(set) => NodeSet::contains(set, key),
        }
    }

    fn insert(&mut self, key: usize) -> Result<bool, AllocError> {
        match self {
            NumberSet::Dense(set) => NodeSet::insert(set, key),
            NumberSet::Hashed(set) => NodeSet::insert(set, key),
        }
    }

    fn remove(&mut self, key: &usize) -> bool {
        match self {
            NumberSet::Dense(set) => NodeSet::remove(set, key),
            NumberSet::Hashed(set) => NodeSet::remove(set, key),
        }
    }

    fn len(&self) -> usize {
        match self {
            NumberSet::Dense(set) => NodeSet::len(set),
            NumberSet::Hashed(set) => NodeSet::len(set),
        }
    }
}

/// A map of numbers. `Dense` takes memory for each number up to the greatest key, `Hashed` for the
/// entries only.
#[derive(Drop)]
pub enum NumberMap<V> {
    Dense(DenseMap<V>),
    Hashed(HashMap<usize, V>),
}

impl<V: Copy + Drop> NumberMap<V> {
    /// Creates an empty map.
    pub fn new(alloc: Global, is_dense: bool) -> NumberMap<V>
        ensures { entries_of result ≡ [] }
    {
        if is_dense {
            NumberMap::Dense(DenseMap::new(alloc))
        } else {
            NumberMap::Hashed(HashMap::new(alloc))
        }
    }

    /// Removes all entries. A dense map that stays dense keeps its memory.
    pub fn clear(&mut self, alloc: Global, is_dense: bool)
        ensures { entries_of self.new ≡ [] }
    {
        if is_dense {
            if let NumberMap::Dense(map) = self {
                map.clear();
                return;
            }
        }
        *self = NumberMap::new(alloc, is_dense);
    }
}

impl<V: Copy + Drop> NodeMap<usize, V> for NumberMap<V> {
    ghost entries = { entries_of };

    fn get(&self, key: &usize) -> Option<V> {
        match self {
            NumberMap::Dense(map) => NodeMap::get(map, key),
            NumberMap::Hashed(map) => NodeMap::get(map, key),
        }
    }

    fn insert(&mut self, key: usize, value: V) -> Result<Option<V>, AllocError> {
        match self {
            NumberMap::Dense(map) => NodeMap::insert(map, key, value),
            NumberMap::Hashed(map) => NodeMap::insert(map, key, value),
        }
    }

    fn update(&mut self, key: &usize, value: V) {
        match self {
            NumberMap::Dense(map) => NodeMap::update(map, key, value),
            NumberMap::Hashed(map) => NodeMap::update(map, key, value),
        }
    }

    fn len(&self) -> usize {
        match self {
            NumberMap::Dense(map) => NodeMap::len(map),
            NumberMap::Hashed(map) => NodeMap::len(map),
        }
    }
}
