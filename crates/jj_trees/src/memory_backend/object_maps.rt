//! Content-addressed maps: objects of one type by their ids.
ghost use Rattle.std.specs.Prelude.{◌≡◌, ◌≤◌, ◌⊎◌, [], ◌∷◌, true, IfOk, IfErr, OnOk, OnErr, string_bytes};
ghost use Rattle.std.specs.Bool.{Decides};
ghost use Rattle.jj_content.specs.Hex.{hex};
ghost use Rattle.jj_backend.specs.Errors.{IsOtherOf, is_not_found};
ghost use Rattle.jj_backend.specs.Objects.{IsRead, IsFree, put};
ghost use Rattle.jj_trees.specs.MemoryObjects.{by_id, digest_length, object_id, IsStoreError};
ghost use Rattle.jj_trees.specs.MemoryErrors.{NamesObject};

use jj_backend::backend::{BackendError, BackendResult};
use jj_content::content_hash::{ContentHash, blake2b_hash};
use jj_files::file_util::{SourceError, SourceKind};
use jj_ids::object_id::{Id, IdKind, ObjectId};
use std::alloc::{AllocError, Global};
use std::collections::BTreeMap;

// Returns the type name of an id and the id in hexadecimal.
fn type_and_hex<K: IdKind>(alloc: Global, id: &Id<K>) -> Result<(String, String), AllocError>
    ensures { IfOk result (λ texts.
        (string_bytes texts.0 ≡ K.type_name) × (string_bytes texts.1 ≡ hex id.now)) }
{
    Ok((id.object_type(alloc)?, id.hex(alloc)?))
}

fn not_found_error<K: IdKind>(alloc: Global, id: &Id<K>) -> BackendError
    ensures not_found { (is_not_found result ≡ true) ⊎ (result ≡ BackendError.Memory) }
    ensures object { NamesObject K.type_name id.now result }
{
    match type_and_hex(alloc, id) {
        Ok((object_type, hash)) => BackendError::ObjectNotFound {
            object_type,
            hash,
            source: None,
        },
        Err(_) => BackendError::Memory,
    }
}

pub(super) fn other_error(alloc: Global, message: &str) -> BackendError
    ensures { IsOtherOf SourceKind.Other result ⊎ (result ≡ BackendError.Memory) }
{
    match String::from_str(alloc, message) {
        Ok(message) => BackendError::Other(SourceError {
            kind: SourceKind::Other,
            message,
        }),
        Err(_) => BackendError::Memory,
    }
}

// Returns the prefix of the content digest of a value.
pub(super) fn content_id<K, T: ContentHash>(
    alloc: Global,
    id_length: usize,
    value: &T,
) -> Result<Id<K>, AllocError>
    requires { id_length ≤ digest_length }
    ensures { IfOk result (λ id. id ≡ object_id id_length (T.content value.now)) }
{
    let digest = blake2b_hash(alloc, value)?;
    Id::from_bytes(alloc, &digest[..id_length])
}

pub(super) fn single_object<K: IdKind, V: Drop>(
    alloc: Global,
    id: Id<K>,
    value: V,
) -> Result<BTreeMap<Id<K>, V>, AllocError>
    ensures { IfOk result (λ objects. objects.entries ≡ (id, value) ∷ []) }
{
    let mut objects = BTreeMap::new(alloc);
    objects.insert(id, value)?;
    Ok(objects)
}

// Clones the object with this id.
pub(super) fn clone_object<K: IdKind, V: Clone>(
    alloc: Global,
    objects: &BTreeMap<Id<K>, V>,
    id: &Id<K>,
) -> BackendResult<V>
    requires { (v w : V) → V.is_clone v w → w ≡ v }
    ensures read { IsRead (λ e. e ≡ BackendError.Memory) (by_id objects.now.entries id.now)
        (λ v. v) result }
    ensures object { IfErr result (NamesObject K.type_name id.now) }
{
    match objects.get(id) {
        Some(value) => Ok(value.clone()?),
        None => Err(not_found_error(alloc, id)),
    }
}

// Stores a value under an id and returns the id. Fails if a different value has the id.
pub(super) fn insert_object<K: IdKind, V: PartialEq + Drop>(
    alloc: Global,
    objects: &mut BTreeMap<Id<K>, V>,
    id: Id<K>,
    value: V,
) -> BackendResult<Id<K>>
    requires { (v w : V) → Decides (V.eq v w) (v ≡ w) }
    ensures id { IfOk result (λ stored_id. stored_id ≡ id) }
    ensures free { OnOk result (IsFree (by_id objects.old.entries) id value) }
    ensures added { OnOk result (by_id objects.new.entries
        ≡ put (by_id objects.old.entries) id value) }
    ensures unchanged { OnErr result (objects.new.entries ≡ objects.old.entries) }
    ensures error { IfErr result (IsStoreError objects.old.entries id value) }
{
    match objects.get(&id) {
        Some(other) => {
            if *other == value {
                Ok(id)
            } else {
                Err(other_error(alloc, "the id is already that of a different object"))
            }
        }
        None => {
            let key = id.clone()?;
            objects.insert(key, value)?;
            Ok(id)
        }
    }
}

// Stores a clone of the value and returns the value with the id.
pub(super) fn insert_and_return<K: IdKind, V: Clone + PartialEq + Drop>(
    alloc: Global,
    objects: &mut BTreeMap<Id<K>, V>,
    id: Id<K>,
    value: V,
) -> BackendResult<(Id<K>, V)>
    requires clones { (v w : V) → V.is_clone v w → w ≡ v }
    requires decides { (v w : V) → Decides (V.eq v w) (v ≡ w) }
    ensures id { IfOk result (λ stored. stored.0 ≡ id) }
    ensures value { IfOk result (λ stored. stored.1 ≡ value) }
    ensures free { OnOk result (IsFree (by_id objects.old.entries) id value) }
    ensures added { OnOk result (by_id objects.new.entries
        ≡ put (by_id objects.old.entries) id value) }
    ensures unchanged { OnErr result (objects.new.entries ≡ objects.old.entries) }
    ensures error { IfErr result (IsStoreError objects.old.entries id value) }
{
    let stored = value.clone()?;
    let id = insert_object(alloc, objects, id, value)?;
    Ok((id, stored))
}
