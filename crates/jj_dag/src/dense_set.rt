//! Sets of small numbers without hashing: the sparse set of Briggs and Torczon.
ghost use Rattle.std.specs.Prelude.{◌≡◌, ◌<◌, ◌+◌, ℕ, List, [], false, true, eqb, length, get_or, MatchOption, OnOk};
ghost use Rattle.std.specs.Set.{is_member};

use crate::node_set::NodeSet;
use std::alloc::{AllocError, Global};
use std::marker::Model;

/// A set of numbers that is cleared in constant time. It stores a `usize` for each member, and one
/// for each number up to the greatest that was ever inserted; `insert` fails if memory for that
/// many runs out.
#[derive(Drop)]
pub struct DenseSet {
    members: Vec<usize>,
    // The index of each member in `members`, and any value at other numbers.
    indices: Vec<usize>,
}

impl Model for DenseSet {
    ghost use Rattle.std.specs.Prelude.{ℕ, List};
    ghost use Rattle.jj_dag.specs.DenseSets.{IsSparseSet};

    ghost Value = { List ℕ };

    ghost view = { λ s. s.members.items };

    ghost invariant = { λ s. IsSparseSet s.members.items s.indices.items };
}

impl DenseSet {
    /// Creates an empty set.
    pub fn new(alloc: Global) -> DenseSet
        ensures { result ≡ [] }
    {
        DenseSet {
            members: Vec::new(alloc),
            indices: Vec::new(alloc),
        }
    }

    /// Returns the members, in some order.
    pub fn as_slice(&self) -> &[usize]
        ensures { result.now ≡ self.now }
    {
        &self.members
    }

    /// Removes all members.
    pub fn clear(&mut self)
        ensures { self.new ≡ [] }
    {
        self.members.clear();
    }

    // Returns the index of a number among the members.
    fn index_of(&self, number: usize) -> Option<usize>
        ensures { MatchOption result (is_member eqb self.now number ≡ false)
            (λ index. (index < length self.now) × (get_or self.now index 0 ≡ number)) }
    {
        if self.indices.len() <= number {
            return None;
        }
        let index = self.indices[number];
        if self.members.len() <= index {
            return None;
        }
        if self.members[index] != number {
            return None;
        }
        Some(index)
    }
}

impl NodeSet<usize> for DenseSet {
    ghost keys = { λ s. s };

    fn contains(&self, key: &usize) -> bool {
        self.index_of(*key).is_some()
    }

    fn insert(&mut self, key: usize) -> Result<bool, AllocError> {
        if self.index_of(key).is_some() {
            return Ok(false);
        }
        make_room(&mut self.indices, key)?;
        self.indices[key] = self.members.len();
        self.members.push(key)?;
        Ok(true)
    }

    fn remove(&mut self, key: &usize) -> bool {
        let Some(index) = self.index_of(*key) else {
            return false;
        };
        self.members.swap_remove(index);
        if index < self.members.len() {
            let moved = self.members[index];
            self.indices[moved] = index;
        }
        true
    }

    fn len(&self) -> usize {
        self.members.len()
    }
}

/// Appends zeros until `number` is an index of the list. Fails if memory runs out.
pub fn make_room(indices: &mut Vec<usize>, number: usize) -> Result<(), AllocError>
    ensures kept { (k : ℕ) → k < length indices.old.items → (k < length indices.new.items)
        × (get_or indices.new.items k 0 ≡ get_or indices.old.items k 0) }
    ensures room { OnOk result (number < length indices.new.items) }
{
    if number < indices.len() {
        return Ok(());
    }
    let Some(room) = number.checked_add(1) else {
        return Err(AllocError);
    };
    indices.resize(room, 0)
}
