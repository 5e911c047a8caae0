//! The sets that walks need, as a trait of hash sets and of sparse sets.
ghost use Rattle.std.specs.Prelude.{◌≡◌, ◌+◌, ◌^◌, ◌<◌, ◌≤◌, List, [], false, true, not, length, IfOk, OnOk, OnErr, if◌then◌else◌};
ghost use Rattle.std.specs.List.{Contains, IsDistinct};
ghost use Rattle.std.specs.Set.{is_member};
ghost use Rattle.jj_dag.specs.NodeSets.{PutsKey, Updates};

use std::alloc::AllocError;
use std::collections::HashSet;
use std::hash::Hash;

/// A set of keys: `HashSet` for any keys that can be hashed, `DenseSet` for small numbers. Each
/// call takes constant time: expected time for a `HashSet`, and amortized time for `insert`.
pub trait NodeSet<K: Eq> {
    /// The keys, in some order; no two are equal (see `len`).
    ghost keys: { Self → List K };

    /// Returns whether the set has this key.
    fn contains(&self, key: &K) -> bool
        ensures { result ≡ is_member K.eq (keys self.now) key.now };

    /// Inserts a key. Returns whether it is new. Fails if memory runs out; the set is then
    /// unchanged.
    fn insert(&mut self, key: K) -> Result<bool, AllocError>
        ensures added { IfOk result (λ added. added ≡ not (is_member K.eq (keys self.old) key)) }
        ensures updates { OnOk result (Updates K.eq (keys self.old) (keys self.new) key true) }
        ensures keys { IfOk result (PutsKey (keys self.old) (keys self.new) key) }
        ensures len { IfOk result (λ added. length (keys self.new)
            ≡ length (keys self.old) + (if added then 1 else 0)) }
        ensures unchanged { OnErr result (keys self.new ≡ keys self.old) };

    /// Removes a key. Returns whether the set had it.
    fn remove(&mut self, key: &K) -> bool
        ensures removed { result ≡ is_member K.eq (keys self.old) key.now }
        ensures updates { Updates K.eq (keys self.old) (keys self.new) key.now false }
        ensures keys { (x : K) → Contains (keys self.new) x → Contains (keys self.old) x }
        ensures len { length (keys self.new) + (if result then 1 else 0)
            ≡ length (keys self.old) };

    /// Returns the number of keys.
    fn len(&self) -> usize
        ensures len { result ≡ length (keys self.now) }
        ensures small { result < 2 ^ 63 }
        ensures distinct { IsDistinct K.eq (keys self.now) };
}

impl<K: Hash + Eq + Drop> NodeSet<K> for HashSet<K> {
    ghost keys = { λ s. s.keys };

    fn contains(&self, key: &K) -> bool {
        HashSet::contains(self, key)
    }

    fn insert(&mut self, key: K) -> Result<bool, AllocError> {
        Ok(HashSet::insert(self, key)?)
    }

    fn remove(&mut self, key: &K) -> bool {
        HashSet::remove(self, key)
    }

    fn len(&self) -> usize {
        HashSet::len(self)
    }
}
