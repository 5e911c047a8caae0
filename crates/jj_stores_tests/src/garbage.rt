//! Garbage collection by mark and sweep: a depth-first search marks the operations and views that
//! are reachable, and those that are neither marked nor new are removed.
ghost use Rattle.std.specs.Prelude.{◌≡◌, ◌↔◌, ◌||◌, ◌++◌, ◌∷◌, ℕ, false, true, List, Contains, None, IfOk, OnOk, IsSome};
ghost use Rattle.jj_stores.specs.OpStores.{IsReachable, IsReachableView, is_newer as newer};
ghost use Rattle.jj_stores_tests.specs.MemoryStores.{IsVisit, by_id, has_id, is_kept as kept};

use jj_backend::backend::MillisSinceEpoch;
use jj_ids::object_id::{Id, OperationId, ViewId};
use jj_stores::op_store::Operation;
use std::alloc::{AllocError, Global};
use std::collections::{BTreeMap, BTreeSet};

/// The ids of marked operations and views.
#[derive(Drop)]
pub struct Marked {
    pub operations: BTreeSet<OperationId>,
    pub views: BTreeSet<ViewId>,
}

fn push_all(pending: &mut Vec<OperationId>, ids: &[OperationId]) -> Result<(), AllocError>
    ensures { OnOk result (pending.new.items ≡ pending.old.items ++ ids.now) }
{
    for id in ids {
        pending.push(id.clone()?)?;
    }
    Ok(())
}

/// Returns the root operation and the heads.
pub fn start_ids(
    alloc: Global,
    root: &OperationId,
    head_ids: &[OperationId],
) -> Result<Vec<OperationId>, AllocError>
    ensures { IfOk result (λ ids. ids.items ≡ root.now ∷ head_ids.now) }
{
    let mut ids = Vec::new(alloc);
    ids.push(root.clone()?)?;
    push_all(&mut ids, head_ids)?;
    Ok(ids)
}

// Marks an operation and its view and makes its parents pending, unless it is missing or marked.
fn visit(
    operations: &BTreeMap<OperationId, Operation>,
    id: OperationId,
    pending: &mut Vec<OperationId>,
    marked: &mut Marked,
) -> Result<(), AllocError>
    ensures { OnOk result (IsVisit (by_id operations.now.entries) id pending.old.items
        pending.new.items (has_id marked.old.operations) (has_id marked.new.operations)
        (has_id marked.old.views) (has_id marked.new.views)) }
{
    match operations.get(&id) {
        None => Ok(()),
        Some(operation) => {
            let view_id = operation.view_id.clone()?;
            if !marked.operations.insert(id)? {
                return Ok(());
            }
            marked.views.insert(view_id)?;
            push_all(pending, &operation.parents)?;
            Ok(())
        }
    }
}

/// Marks the pending operations and their ancestors, and the views of all these.
pub fn mark(
    alloc: Global,
    operations: &BTreeMap<OperationId, Operation>,
    mut pending: Vec<OperationId>,
) -> Result<Marked, AllocError>
    ensures operations { IfOk result (λ marked. (id : List ℕ)
        → IsSome (by_id operations.now.entries id)
        → (has_id marked.operations id ≡ true)
        ↔ IsReachable (by_id operations.now.entries) pending.items id) }
    ensures views { IfOk result (λ marked. (id : List ℕ) → (has_id marked.views id ≡ true)
        ↔ IsReachableView (by_id operations.now.entries) pending.items id) }
{
    let mut marked = Marked {
        operations: BTreeSet::new(alloc),
        views: BTreeSet::new(alloc),
    };
    while let Some(id) = pending.pop() {
        visit(operations, id, &mut pending, &mut marked)?;
    }
    Ok(marked)
}

fn is_newer<K>(
    times: &BTreeMap<Id<K>, MillisSinceEpoch>,
    id: &Id<K>,
    time: MillisSinceEpoch,
) -> bool
    ensures { result ≡ newer (by_id times.now.entries) time id.now }
{
    match times.get(id) {
        Some(written) => {
            let after = time.0;
            let millis = written.0;
            after < millis
        }
        None => false,
    }
}

fn is_kept<K>(
    marked: &BTreeSet<Id<K>>,
    times: &BTreeMap<Id<K>, MillisSinceEpoch>,
    id: &Id<K>,
    keep_newer: MillisSinceEpoch,
) -> bool
    ensures { result ≡ kept marked.now (by_id times.now.entries) keep_newer id.now }
{
    marked.contains(id) || is_newer(times, id, keep_newer)
}

/// Returns the ids of the objects that are neither marked nor newer than `keep_newer`.
pub fn garbage<K, V>(
    alloc: Global,
    objects: &BTreeMap<Id<K>, V>,
    marked: &BTreeSet<Id<K>>,
    times: &BTreeMap<Id<K>, MillisSinceEpoch>,
    keep_newer: MillisSinceEpoch,
) -> Result<Vec<Id<K>>, AllocError>
    ensures { IfOk result (λ ids. (id : List ℕ) → Contains ids.items id
        ↔ (IsSome (by_id objects.now.entries id)
        × (kept marked.now (by_id times.now.entries) keep_newer id ≡ false))) }
{
    let mut ids = Vec::new(alloc);
    for id in objects.keys() {
        if !is_kept(marked, times, id, keep_newer) {
            ids.push(id.clone()?)?;
        }
    }
    Ok(ids)
}

/// Removes the objects with these ids.
pub fn remove_all<K, V: Drop>(objects: &mut BTreeMap<Id<K>, V>, ids: &[Id<K>])
    ensures removed { (id : List ℕ) → Contains ids.now id → by_id objects.new.entries id ≡ None }
    ensures others { (id : List ℕ) → ¬ Contains ids.now id
        → by_id objects.new.entries id ≡ by_id objects.old.entries id }
{
    for id in ids {
        objects.remove(id);
    }
}
