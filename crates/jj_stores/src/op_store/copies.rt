//! Clones of sorted maps whose values need an allocator to be cloned.
ghost use Rattle.std.specs.Prelude.{◌≡◌, true, IfOk};
ghost use Rattle.jj_stores.specs.ViewLaws.{named_eq};

use jj_ids::ref_name::NameBuf;
use std::alloc::{AllocError, Global};
use std::collections::BTreeMap;

// A value that needs an allocator to be cloned.
pub(super) trait CloneIn: PartialEq + Drop {
    fn clone_in(&self, alloc: Global) -> Result<Self, AllocError>
        ensures { IfOk result (λ copy. Self.eq copy self.now ≡ true) };
}

pub(super) fn clone_map<K, V: CloneIn>(
    alloc: Global,
    map: &BTreeMap<NameBuf<K>, V>,
) -> Result<BTreeMap<NameBuf<K>, V>, AllocError>
    ensures { IfOk result (λ copy. named_eq V.eq copy.entries map.now.entries ≡ true) }
{
    let mut copy = BTreeMap::new(alloc);
    for (name, value) in map {
        let name = name.clone()?;
        drop(copy.insert(name, value.clone_in(alloc)?)?);
    }
    Ok(copy)
}
