//! In-memory store of views and operations, addressed by BLAKE2b digests of their content.
ghost use Rattle.std.specs.Prelude.{◌≡◌, ◌∷◌, [], ◌⊎◌, true, false, nat_eq, IfOk, IfErr, OnErr, IsSome, Some, None, option_map};
ghost use Rattle.std.specs.Bool.{MatchBool};
ghost use Rattle.std.specs.List.{find, starts_with};
ghost use Rattle.std.specs.Map.{keys_of};
ghost use Rattle.jj_content.specs.Hex.{hex};
ghost use Rattle.jj_stores.specs.OpStores.{AddsEqual, IsResolution, is_not_found};
ghost use Rattle.jj_stores_tests.specs.MemoryStores.{by_id, is_other_match};

use crate::garbage::{garbage, mark, remove_all, start_ids};
use jj_backend::backend::MillisSinceEpoch;
use jj_content::content_hash::{ContentHash, blake2b_hash};
use jj_files::file_util::{SourceError, SourceKind};
use jj_ids::object_id::{
    CommitId, HexPrefix, Id, IdKind, ObjectId, OperationId, PrefixResolution, ViewId,
};
use jj_stores::op_store::{OpStore, OpStoreError, OpStoreResult, Operation, View};
use std::alloc::{AllocError, Global};
use std::collections::BTreeMap;

// The length of ids in bytes.
const ID_LENGTH: usize = 64;

fn zero_id<K: IdKind>(alloc: Global) -> Result<Id<K>, AllocError> {
    Ok(Id::new(Vec::from_elem(alloc, 0, ID_LENGTH)?))
}

fn content_id<K, T: ContentHash>(alloc: Global, value: &T) -> Result<Id<K>, AllocError> {
    let digest = blake2b_hash(alloc, value)?;
    Id::from_bytes(alloc, &digest)
}

// Returns the type name of an id and the id in hexadecimal.
fn type_and_hex<K: IdKind>(alloc: Global, id: &Id<K>) -> Result<(String, String), AllocError> {
    Ok((id.object_type(alloc)?, id.hex(alloc)?))
}

fn not_found_error<K: IdKind>(alloc: Global, id: &Id<K>) -> OpStoreError
    ensures { (is_not_found result ≡ true) ⊎ (result ≡ OpStoreError.Memory) }
{
    match type_and_hex(alloc, id) {
        Ok((object_type, hash)) => OpStoreError::ObjectNotFound {
            object_type,
            hash,
            source: None,
        },
        Err(_) => OpStoreError::Memory,
    }
}

fn taken_id_error(alloc: Global) -> OpStoreError
    ensures { is_not_found result ≡ false }
{
    match String::from_str(alloc, "the id is already that of a different object") {
        Ok(message) => OpStoreError::Other(SourceError {
            kind: SourceKind::Other,
            message,
        }),
        Err(_) => OpStoreError::Memory,
    }
}

fn single_object<K: IdKind, V: Drop>(
    alloc: Global,
    id: Id<K>,
    value: V,
) -> Result<BTreeMap<Id<K>, V>, AllocError>
    ensures { IfOk result (λ objects. objects.entries ≡ (id, value) ∷ []) }
{
    let mut objects = BTreeMap::new(alloc);
    objects.insert(id, value)?;
    Ok(objects)
}

fn get_object<'a, K: IdKind, V>(
    alloc: Global,
    objects: &'a BTreeMap<Id<K>, V>,
    id: &Id<K>,
) -> OpStoreResult<&'a V>
    ensures found { IfOk result (λ value. by_id objects.now.entries id.now ≡ Some value.now) }
    ensures error { IfErr result (λ e. MatchBool (is_not_found e)
        (by_id objects.now.entries id.now ≡ None) (is_not_found e ≡ false)) }
{
    match objects.get(id) {
        Some(value) => Ok(value),
        None => Err(not_found_error(alloc, id)),
    }
}

// Stores a copy of a value under an id and returns the id. Fails if a different value has the id.
fn insert_object<K, V: PartialEq + Drop>(
    alloc: Global,
    objects: &mut BTreeMap<Id<K>, V>,
    id: Id<K>,
    value: &V,
    copy: V,
) -> OpStoreResult<Id<K>>
    requires { V.eq copy value.now ≡ true }
    ensures ok { IfOk result (λ id. AddsEqual V.eq
        (by_id objects.old.entries) (by_id objects.new.entries) id value.now) }
    ensures same_id { IfOk result (λ stored. stored ≡ id) }
    ensures unchanged { OnErr result (objects.new.entries ≡ objects.old.entries) }
    ensures error { IfErr result (λ e. is_not_found e ≡ false) }
{
    match objects.get(&id) {
        Some(other) => {
            if *other == *value {
                Ok(id)
            } else {
                Err(taken_id_error(alloc))
            }
        }
        None => {
            let key = id.clone()?;
            objects.insert(key, copy)?;
            Ok(id)
        }
    }
}

// Returns the first id that the prefix matches.
fn first_match<'a, V>(
    objects: &'a BTreeMap<OperationId, V>,
    prefix: &HexPrefix,
) -> Option<&'a OperationId>
    ensures { option_map (λ id. id.now) result
        ≡ find (λ id. starts_with nat_eq (hex id) prefix.now) (keys_of objects.now.entries) }
{
    objects.keys().find(|id| prefix.matches(*id))
}

// Returns the first id other than `id` that the prefix matches.
fn other_match<'a, V>(
    objects: &'a BTreeMap<OperationId, V>,
    prefix: &HexPrefix,
    id: &OperationId,
) -> Option<&'a OperationId>
    ensures { option_map (λ other. other.now) result
        ≡ find (is_other_match prefix.now id.now) (keys_of objects.now.entries) }
{
    objects
        .keys()
        .find(|other| **other != *id && prefix.matches(*other))
}

/// In-memory store of views and operations, addressed by digests of their content. The time of a
/// write is the one that was set last, at first the Unix epoch. The root operation and its view
/// have no time.
#[derive(Drop)]
pub struct MemoryOpStore {
    root_operation_id: OperationId,
    now: MillisSinceEpoch,
    views: BTreeMap<ViewId, View>,
    view_times: BTreeMap<ViewId, MillisSinceEpoch>,
    operations: BTreeMap<OperationId, Operation>,
    operation_times: BTreeMap<OperationId, MillisSinceEpoch>,
    ghost has_root: { IsSome (by_id operations.entries root_operation_id) },
}

impl MemoryOpStore {
    /// Creates a store with a root operation and its view, whose ids are zeros.
    pub fn new(alloc: Global, root_commit_id: CommitId) -> Result<Self, AllocError> {
        let root_view = View::make_root(alloc, root_commit_id)?;
        let root_operation = Operation::make_root(alloc, zero_id(alloc)?);
        let root_operation_id: OperationId = zero_id(alloc)?;
        let operations = single_object(alloc, root_operation_id.clone()?, root_operation)?;
        Ok(MemoryOpStore {
            root_operation_id,
            now: MillisSinceEpoch(0),
            views: single_object(alloc, zero_id(alloc)?, root_view)?,
            view_times: BTreeMap::new(alloc),
            operations,
            operation_times: BTreeMap::new(alloc),
        })
    }

    /// Sets the time of later writes.
    pub fn set_time(&mut self, now: MillisSinceEpoch)
        ensures { self.new ≡ record self.old { now = now } }
    {
        self.now = now;
    }
}

impl OpStore for MemoryOpStore {
    ghost use Rattle.std.specs.Prelude.{◌≡◌, codes, false};
    ghost use Rattle.jj_stores.specs.OpStores.{is_not_found};
    ghost use Rattle.jj_stores_tests.specs.MemoryStores.{by_id};

    ghost views = { λ store. by_id store.views.entries };

    ghost operations = { λ store. by_id store.operations.entries };

    ghost view_times = { λ store. by_id store.view_times.entries };

    ghost operation_times = { λ store. by_id store.operation_times.entries };

    ghost fixed = { λ store. record {
      name = codes "memory";
      root_operation_id = store.root_operation_id;
    } };

    ghost may_fail = { λ _ e. is_not_found e ≡ false };

    fn name(&self) -> &str {
        "memory"
    }

    fn root_operation_id(&self) -> &OperationId {
        &self.root_operation_id
    }

    fn read_view(&self, alloc: Global, id: &ViewId) -> OpStoreResult<View> {
        let view = get_object(alloc, &self.views, id)?;
        Ok(view.clone(alloc)?)
    }

    fn write_view(&mut self, alloc: Global, contents: &View) -> OpStoreResult<ViewId> {
        let id = content_id(alloc, contents)?;
        let copy = contents.clone(alloc)?;
        self.view_times.insert(id.clone()?, self.now)?;
        insert_object(alloc, &mut self.views, id, contents, copy)
    }

    fn read_operation(&self, alloc: Global, id: &OperationId) -> OpStoreResult<Operation> {
        let operation = get_object(alloc, &self.operations, id)?;
        Ok(operation.clone()?)
    }

    fn write_operation(
        &mut self,
        alloc: Global,
        contents: &Operation,
    ) -> OpStoreResult<OperationId> {
        let id = content_id(alloc, contents)?;
        let copy = contents.clone()?;
        self.operation_times.insert(id.clone()?, self.now)?;
        insert_object(alloc, &mut self.operations, id, contents, copy)
    }

    fn resolve_operation_id_prefix(
        &self,
        _alloc: Global,
        prefix: &HexPrefix,
    ) -> OpStoreResult<PrefixResolution<OperationId>> {
        match first_match(&self.operations, prefix) {
            None => Ok(PrefixResolution::NoMatch),
            Some(id) => match other_match(&self.operations, prefix, id) {
                None => Ok(PrefixResolution::SingleMatch(id.clone()?)),
                Some(_) => Ok(PrefixResolution::AmbiguousMatch),
            },
        }
    }

    fn gc(
        &mut self,
        alloc: Global,
        head_ids: &[OperationId],
        keep_newer: MillisSinceEpoch,
    ) -> OpStoreResult<()> {
        let start = start_ids(alloc, &self.root_operation_id, head_ids)?;
        let marked = mark(alloc, &self.operations, start)?;
        let operations = garbage(
            alloc,
            &self.operations,
            &marked.operations,
            &self.operation_times,
            keep_newer,
        )?;
        let views = garbage(
            alloc,
            &self.views,
            &marked.views,
            &self.view_times,
            keep_newer,
        )?;
        remove_all(&mut self.operations, &operations);
        remove_all(&mut self.views, &views);
        Ok(())
    }
}
