//! Collection of fallible iterators.
ghost use Rattle.std.specs.Prelude.{IfOk, Ok, map};
ghost use Rattle.std.specs.Iterator.{Drains, IsFinite};

use std::alloc::{AllocError, Global};

/// Collects the items of an iterator, up to its first error, which it returns.
pub fn collect_fallible<T: Drop, I>(alloc: Global, items: I) -> Result<Vec<T>, AllocError>
where
    I: Iterator<Item = Result<T, AllocError>> + Drop,
    requires callable { I.can_next items }
    requires finite { IsFinite (I.remaining items) }
    ensures { IfOk result (λ all. Drains I.next_gives items (map (λ x. Ok x) all.items)) }
{
    let mut all = Vec::new(alloc);
    for item in items {
        all.push(item?)?;
    }
    Ok(all)
}
