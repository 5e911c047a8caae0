//! A multimap: a hash map from keys to lists.
ghost use Rattle.std.specs.Prelude.{◌≡◌, ◌++◌, ◌∷◌, [], OnOk, if◌then◌else◌};
ghost use Rattle.jj_walks.specs.ListsByKey.{items_at};

use std::alloc::AllocError;
use std::collections::HashMap;
use std::hash::Hash;

/// Appends a value to the list at the key, in expected constant time. Fails if memory runs out.
pub fn push_at<K: Hash + Eq + Drop, V: Drop>(
    lists: &mut HashMap<K, Vec<V>>,
    key: K,
    value: V,
) -> Result<(), AllocError>
    ensures { OnOk result ((q : K) → items_at K.eq lists.new q
        ≡ (if K.eq key q then items_at K.eq lists.old q
        ++ value ∷ [] else items_at K.eq lists.old q)) }
{
    lists.entry(key)?.or_default().push(value)?;
    Ok(())
}
