//! The maps that walks need, as a trait of hash maps and of sparse maps.
ghost use Rattle.std.specs.Prelude.{◌≡◌, ◌^◌, ◌<◌, List, length, IfOk, IsSome, OnOk, OnErr};
ghost use Rattle.std.specs.Map.{lookup, set_value};
ghost use Rattle.jj_dag.specs.NodeMaps.{PutsEntry, UpdatesEntry};

use std::alloc::AllocError;
use std::collections::HashMap;
use std::hash::Hash;

/// A map to values that are copied out of it: `HashMap` for any keys that can be hashed, `DenseMap`
/// for small numbers. Each call takes constant time: expected time for a `HashMap`, and amortized
/// time for `insert`.
pub trait NodeMap<K: Eq, V: Copy> {
    /// The entries, in some order.
    ghost entries: { Self → List (K × V) };

    /// Returns the value of a key, or `None` if the map does not have the key.
    fn get(&self, key: &K) -> Option<V>
        ensures { result ≡ lookup (K.eq key.now) (entries self.now) };

    /// Sets the value of a key. Returns the value that it had. Fails if memory runs out; the map is
    /// then unchanged.
    fn insert(&mut self, key: K, value: V) -> Result<Option<V>, AllocError>
        ensures old { IfOk result (λ old. old ≡ lookup (K.eq key) (entries self.old)) }
        ensures updates { OnOk result (UpdatesEntry K.eq (entries self.old) (entries self.new) key
            value) }
        ensures entries { IfOk result (PutsEntry K.eq (entries self.old) (entries self.new) key
            value) }
        ensures unchanged { OnErr result (entries self.new ≡ entries self.old) };

    /// Changes the value of a key, if the map has it.
    fn update(&mut self, key: &K, value: V)
        ensures updates { IsSome (lookup (K.eq key.now) (entries self.old))
            → UpdatesEntry K.eq (entries self.old) (entries self.new) key.now value }
        ensures entries { entries self.new ≡ set_value (K.eq key.now) (entries self.old) value };

    /// Returns the number of keys.
    fn len(&self) -> usize
        ensures len { result ≡ length (entries self.now) }
        ensures small { result < 2 ^ 63 };
}

impl<K: Hash + Eq + Drop, V: Copy + Drop> NodeMap<K, V> for HashMap<K, V> {
    ghost entries = { λ m. m.entries };

    fn get(&self, key: &K) -> Option<V> {
        match HashMap::get(self, key) {
            Some(value) => Some(*value),
            None => None,
        }
    }

    fn insert(&mut self, key: K, value: V) -> Result<Option<V>, AllocError> {
        Ok(HashMap::insert(self, key, value)?)
    }

    fn update(&mut self, key: &K, value: V) {
        if let Some(old) = HashMap::get_mut(self, key) {
            *old = value;
        }
    }

    fn len(&self) -> usize {
        HashMap::len(self)
    }
}
