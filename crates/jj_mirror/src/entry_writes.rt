//! Writing the object of a log's entry to an in-memory backend.
ghost use Rattle.std.specs.Prelude.{◌≡◌, ◌≢◌, ◌↔◌, [], IsTrue, IfOk, IfErr, OnOk};
ghost use Rattle.std.specs.Str.{IsUtf8};
ghost use Rattle.jj_backend.specs.Contents.{commit_content};
ghost use Rattle.jj_backend.specs.Objects.{AddsCommit, commit_object};
ghost use Rattle.jj_trees.specs.MemoryObjects.{digest_length, object_id, objects_of};
ghost use Rattle.jj_trees.specs.MemoryObjects.{MayFailToWrite};
ghost use Rattle.jj_decode.specs.Errors.{WholeErrors};
ghost use Rattle.jj_decode.specs.declared.error.DecodeError.TheVariants.{Malformed};
ghost use Rattle.jj_mirror.specs.Replays.{IsEntryError, KindErrors, TargetErrors};
ghost use Rattle.jj_mirror.specs.Writes.{AddsEntry, HasCause, IsDecodeError, NamesEntry};
ghost use Rattle.jj_mirror.specs.Writes.{IsWrongId, NamesWrongObject};

use crate::error::ReplayError;
use crate::object_log::{LogEntry, ObjectKind};
use jj_backend::backend::{Backend, BackendResult, Commit, CommitId, CopyHistory, NoSigner, Tree};
use jj_decode::decode::decode_content;
use jj_decode::error::{DecodeError, Malformation};
use jj_decode::read_content::ReadContent;
use jj_ids::object_id::{Id, IdKind, ObjectId};
use jj_paths::repo_path::RepoPath;
use jj_trees::memory_backend::MemoryBackend;
use std::alloc::Global;
use std::str::from_utf8;

fn malformed(alloc: Global, entry: &LogEntry, reason: Malformation, offset: usize) -> ReplayError
    ensures names { NamesEntry entry.now result }
    ensures cause { HasCause (λ e. e ≡ Malformed reason offset) result }
{
    match entry.id.clone() {
        Ok(id) => ReplayError::Malformed {
            kind: entry.kind,
            id,
            reason,
            offset,
        },
        Err(_) => ReplayError::Memory,
    }
}

// Decodes the bytes of an entry.
fn decode_entry<T: ReadContent>(alloc: Global, entry: &LogEntry) -> Result<T, ReplayError>
    ensures ok { IfOk result (λ x. T.is_value x × (entry.now.bytes ≡ T.content x)) }
    ensures error { IfErr result (IsDecodeError T.is_value T.content entry.now) }
    ensures cause { IfErr result (HasCause
        (WholeErrors T.is_value T.content T.errors entry.now.bytes)) }
{
    match decode_content(alloc, &entry.bytes) {
        Ok(value) => Ok(value),
        Err(DecodeError::Memory) => Err(ReplayError::Memory),
        Err(DecodeError::Malformed { reason, offset }) => {
            Err(malformed(alloc, entry, reason, offset))
        }
    }
}

fn wrong_object(entry: &LogEntry) -> ReplayError
    ensures { NamesWrongObject entry.now result }
{
    match entry.id.clone() {
        Ok(id) => ReplayError::WrongObject {
            kind: entry.kind,
            id,
        },
        Err(_) => ReplayError::Memory,
    }
}

fn has_id<K: IdKind>(entry: &LogEntry, id: &Id<K>) -> bool
    ensures { IsTrue result ↔ (entry.now.id ≡ id.now) }
{
    entry.id.as_slice() == id.as_bytes()
}

// Fails with `WrongObject` unless this is the id of the entry.
fn check_id<K: IdKind>(entry: &LogEntry, id: &Id<K>) -> Result<(), ReplayError>
    ensures ok { OnOk result (entry.now.id ≡ id.now) }
    ensures error { IfErr result (IsWrongId entry.now id.now) }
{
    if has_id(entry, id) {
        Ok(())
    } else {
        Err(wrong_object(entry))
    }
}

#[tactic(auto, using(crate::proofs::EntryErrors::file_wrong))]
fn write_file(
    alloc: Global,
    backend: &mut MemoryBackend,
    entry: &LogEntry,
) -> Result<(), ReplayError>
    requires kind { entry.now.kind ≡ ObjectKind.File }
    requires id_length { backend.old.id_length ≡ digest_length }
    ensures ok { OnOk result (AddsEntry backend.old backend.new entry.now) }
    ensures error { IfErr result (IsEntryError backend.old entry.now) }
    ensures cause { IfErr result (HasCause (KindErrors ⟦<CopyHistory as ReadContent>⟧.errors
        ⟦<Tree as ReadContent>⟧.errors ⟦<Commit as ReadContent>⟧.errors
        entry.now.kind entry.now.bytes)) }
{
    let id = backend.write_file(alloc, RepoPath::root(), &entry.bytes)?;
    check_id(entry, &id)?;
    Ok(())
}

// Fails with `Malformed` if the target is not UTF-8.
fn symlink_target(alloc: Global, entry: &LogEntry) -> Result<&str, ReplayError>
    ensures ok { IfOk result (λ target. IsUtf8 target.now × (entry.now.bytes ≡ target.now)) }
    ensures error { IfErr result (IsDecodeError IsUtf8 (λ target. target) entry.now) }
    ensures cause { IfErr result (HasCause (TargetErrors entry.now.bytes)) }
{
    match from_utf8(&entry.bytes) {
        Ok(target) => Ok(target),
        Err(error) => Err(malformed(alloc, entry, Malformation::InvalidUtf8, error.valid_up_to())),
    }
}

#[tactic(auto, using(crate::proofs::EntryErrors::symlink_malformed))]
fn write_symlink(
    alloc: Global,
    backend: &mut MemoryBackend,
    entry: &LogEntry,
) -> Result<(), ReplayError>
    requires kind { entry.now.kind ≡ ObjectKind.Symlink }
    requires id_length { backend.old.id_length ≡ digest_length }
    ensures ok { OnOk result (AddsEntry backend.old backend.new entry.now) }
    ensures error { IfErr result (IsEntryError backend.old entry.now) }
    ensures cause { IfErr result (HasCause (KindErrors ⟦<CopyHistory as ReadContent>⟧.errors
        ⟦<Tree as ReadContent>⟧.errors ⟦<Commit as ReadContent>⟧.errors
        entry.now.kind entry.now.bytes)) }
{
    let target = symlink_target(alloc, entry)?;
    let id = backend.write_symlink(alloc, RepoPath::root(), target)?;
    check_id(entry, &id)?;
    Ok(())
}

#[tactic(auto, using(crate::proofs::EntryErrors::copy_wrong, crate::proofs::EntryErrors::copy_malformed))]
fn write_copy(
    alloc: Global,
    backend: &mut MemoryBackend,
    entry: &LogEntry,
) -> Result<(), ReplayError>
    requires kind { entry.now.kind ≡ ObjectKind.Copy }
    requires id_length { backend.old.id_length ≡ digest_length }
    ensures ok { OnOk result (AddsEntry backend.old backend.new entry.now) }
    ensures error { IfErr result (IsEntryError backend.old entry.now) }
    ensures cause { IfErr result (HasCause (KindErrors ⟦<CopyHistory as ReadContent>⟧.errors
        ⟦<Tree as ReadContent>⟧.errors ⟦<Commit as ReadContent>⟧.errors
        entry.now.kind entry.now.bytes)) }
{
    let history: CopyHistory = decode_entry(alloc, entry)?;
    let id = backend.write_copy(alloc, &history)?;
    check_id(entry, &id)?;
    Ok(())
}

#[tactic(auto, using(crate::proofs::EntryErrors::tree_malformed))]
fn write_tree(
    alloc: Global,
    backend: &mut MemoryBackend,
    entry: &LogEntry,
) -> Result<(), ReplayError>
    requires kind { entry.now.kind ≡ ObjectKind.Tree }
    requires id_length { backend.old.id_length ≡ digest_length }
    ensures ok { OnOk result (AddsEntry backend.old backend.new entry.now) }
    ensures error { IfErr result (IsEntryError backend.old entry.now) }
    ensures cause { IfErr result (HasCause (KindErrors ⟦<CopyHistory as ReadContent>⟧.errors
        ⟦<Tree as ReadContent>⟧.errors ⟦<Commit as ReadContent>⟧.errors
        entry.now.kind entry.now.bytes)) }
{
    let tree: Tree = decode_entry(alloc, entry)?;
    let id = backend.write_tree(alloc, RepoPath::root(), &tree)?;
    check_id(entry, &id)?;
    Ok(())
}

// Writes a commit in its stored form.
#[tactic(auto, using(crate::proofs::EntryErrors::commit_failure))]
fn store_commit(
    alloc: Global,
    backend: &mut MemoryBackend,
    commit: Commit,
) -> BackendResult<CommitId>
    ensures ok { IfOk result (λ id.
        AddsCommit (objects_of backend.old) (objects_of backend.new) id commit) }
    ensures id { IfOk result (λ id.
        id ≡ object_id backend.old.id_length (commit_content commit)) }
    ensures parents { OnOk result (commit.parents ≢ []) }
    ensures frame { backend.new ≡ record backend.old { commits = backend.new.commits } }
    ensures error { IfErr result (MayFailToWrite backend.old (commit_object commit)) }
{
    let (id, _) = backend.write_commit(alloc, commit, None::<&mut NoSigner>)?;
    Ok(id)
}

#[tactic(auto, using(crate::proofs::EntryErrors::commit_malformed))]
fn write_commit(
    alloc: Global,
    backend: &mut MemoryBackend,
    entry: &LogEntry,
) -> Result<(), ReplayError>
    requires kind { entry.now.kind ≡ ObjectKind.Commit }
    requires id_length { backend.old.id_length ≡ digest_length }
    ensures ok { OnOk result (AddsEntry backend.old backend.new entry.now) }
    ensures error { IfErr result (IsEntryError backend.old entry.now) }
    ensures cause { IfErr result (HasCause (KindErrors ⟦<CopyHistory as ReadContent>⟧.errors
        ⟦<Tree as ReadContent>⟧.errors ⟦<Commit as ReadContent>⟧.errors
        entry.now.kind entry.now.bytes)) }
{
    let commit: Commit = decode_entry(alloc, entry)?;
    let id = store_commit(alloc, backend, commit)?;
    check_id(entry, &id)?;
    Ok(())
}

// Writes the object of an entry to a backend with whole digests as ids.
pub(super) fn write_entry(
    alloc: Global,
    backend: &mut MemoryBackend,
    entry: &LogEntry,
) -> Result<(), ReplayError>
    requires { backend.old.id_length ≡ digest_length }
    ensures ok { OnOk result (AddsEntry backend.old backend.new entry.now) }
    ensures error { IfErr result (IsEntryError backend.old entry.now) }
    ensures cause { IfErr result (HasCause (KindErrors ⟦<CopyHistory as ReadContent>⟧.errors
        ⟦<Tree as ReadContent>⟧.errors ⟦<Commit as ReadContent>⟧.errors
        entry.now.kind entry.now.bytes)) }
{
    match entry.kind {
        ObjectKind::File => write_file(alloc, backend, entry),
        ObjectKind::Symlink => write_symlink(alloc, backend, entry),
        ObjectKind::Copy => write_copy(alloc, backend, entry),
        ObjectKind::Tree => write_tree(alloc, backend, entry),
        ObjectKind::Commit => write_commit(alloc, backend, entry),
    }
}
