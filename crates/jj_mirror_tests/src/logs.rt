//! Proved callers: a commit that is read back after a reopen, and logs that are replayed.
ghost use Rattle.std.specs.Prelude.{◌≡◌, ◌≢◌, ◌<◌, ◌⊎◌, ℕ, List, Contains, length, map, take};
ghost use Rattle.std.specs.Prelude.{IfOk, IfErr, OnOk, OnErr};
ghost use Rattle.std.specs.List.{AllPairs};
ghost use Rattle.jj_content.specs.Blake2b.{blake2b};
ghost use Rattle.jj_backend.specs.Contents.{IsCommit, commit_content};
ghost use Rattle.jj_backend.specs.Objects.{commit_object, file_object};
ghost use Rattle.jj_backend.specs.Records.{CommitValue};
ghost use Rattle.jj_trees.specs.MemoryObjects.{MemoryBackendValue, digest_length};
ghost use Rattle.jj_mirror.specs.Entries.{LogEntryValue, entry_of};
ghost use Rattle.jj_mirror.specs.Logs.{WithEntries, WithEntry};
ghost use Rattle.jj_mirror.specs.Replays.{IsReplay, IsReplayError};
ghost use Rattle.jj_mirror_tests.specs.Truncations.{IsTruncatedAtStart};

use jj_backend::backend::{Backend, BackendResult, Commit, CommitId, FileId, NoSigner};
use jj_mirror::error::ReplayError;
use jj_mirror::memory_log::MemoryLog;
use jj_mirror::mirrored::Mirrored;
use jj_mirror::object_log::{LogEntry, ObjectKind, ObjectLog};
use jj_mirror::replay::replay;
use jj_paths::repo_path::RepoPath;
use jj_trees::memory_backend::MemoryBackend;
use std::alloc::Global;

// Puts a backend with whole digests beside a log.
fn beside<L: ObjectLog>(backend: MemoryBackend, log: L) -> Mirrored<L>
    requires { backend.id_length ≡ digest_length }
    ensures backend { result.backend ≡ backend }
    ensures log { result.log ≡ log }
{
    match Mirrored::new(backend, log) {
        Ok(store) => store,
        Err(_) => unreachable!(),
    }
}

/// Opens the store of a log: the replay of its entries, beside it. Fails as `replay` does.
pub fn open_log(alloc: Global, log: MemoryLog) -> Result<Mirrored<MemoryLog>, ReplayError>
    ensures replay { IfOk result (λ store. IsReplay log store.backend) }
    ensures log { IfOk result (λ store. store.log ≡ log) }
    // The error is that of the first entry that cannot be replayed, or memory ran out.
    ensures error { IfErr result (IsReplayError log) }
{
    let backend = replay(alloc, log.entries())?;
    Ok(beside(backend, log))
}

/// Writes a commit to a store that is the replay of its log. If the log contains the commit's
/// entry, it stays as it was; else the entry is appended.
pub fn log_commit(
    alloc: Global,
    store: &mut Mirrored<MemoryLog>,
    commit: Commit,
) -> BackendResult<CommitId>
    ensures id { IfOk result (λ id. id ≡ blake2b (commit_content commit)) }
    ensures value { OnOk result (IsCommit commit) }
    ensures logged { OnOk result (IsReplay store.old.log store.old.backend → WithEntry
        (λ all. store.new.log ≡ all) store.old.log (entry_of (commit_object commit))) }
{
    let stored = store.write_commit(alloc, commit, None::<&mut NoSigner>)?;
    let (id, _) = stored;
    Ok(id)
}

/// Replays a log and reads a commit from the backend: that of an entry of the log, if the id is its
/// digest.
pub fn read_logged(alloc: Global, log: &MemoryLog, id: &CommitId) -> Result<Commit, ReplayError>
    ensures { IfOk result (λ read. (commit : CommitValue) → IsCommit commit
        → Contains log.now (entry_of (commit_object commit))
        → id.now ≡ blake2b (commit_content commit) → read ≡ commit) }
{
    let backend = replay(alloc, log.entries())?;
    let read = backend.read_commit(alloc, id)?;
    Ok(read)
}

// Writes a commit to a store that is the replay of its log, and reads it from the replayed log.
fn reread_commit(
    alloc: Global,
    store: &mut Mirrored<MemoryLog>,
    commit: Commit,
) -> Result<Commit, ReplayError>
    ensures { IsReplay store.old.log store.old.backend → IfOk result (λ read. read ≡ commit) }
{
    let id = log_commit(alloc, store, commit)?;
    let read = read_logged(alloc, store.log(), &id)?;
    Ok(read)
}

/// Opens the store of a log and writes a commit. Replays the log, and reads the commit by the id
/// that the write returned.
pub fn reopened_commit(alloc: Global, log: MemoryLog, commit: Commit) -> Result<Commit, ReplayError>
    ensures { IfOk result (λ read. read ≡ commit) }
{
    let mut store = open_log(alloc, log)?;
    reread_commit(alloc, &mut store, commit)
}

// Writes a commit to a store that is the replay of its log.
fn log_replayable(
    alloc: Global,
    store: &mut Mirrored<MemoryLog>,
    commit: Commit,
) -> BackendResult<CommitId>
    ensures { IsReplay store.old.log store.old.backend
        → (backend : MemoryBackendValue) × IsReplay store.new.log backend }
{
    let stored = store.write_commit(alloc, commit, None::<&mut NoSigner>)?;
    let (id, _) = stored;
    Ok(id)
}

/// Writes a commit to a store that is the replay of its log, and replays the log, whether the write
/// succeeded or not. That fails only if memory runs out.
pub fn replayed_commit(
    alloc: Global,
    store: &mut Mirrored<MemoryLog>,
    commit: Commit,
) -> Result<MemoryBackend, ReplayError>
    ensures { IsReplay store.old.log store.old.backend
        → IfErr result (λ e. e ≡ ReplayError.Memory) }
{
    let _ = log_replayable(alloc, store, commit);
    replay(alloc, store.log().entries())
}

// Writes a file to a store that is the replay of its log.
fn log_file<L: ObjectLog>(
    alloc: Global,
    store: &mut Mirrored<L>,
    contents: &[u8],
) -> BackendResult<FileId>
    ensures ok { OnOk result ((entries : List LogEntryValue)
        → L.contains store.old.log entries → IsReplay entries store.old.backend
        → WithEntry (λ all. L.contains store.new.log all × IsReplay all store.new.backend)
        entries (entry_of (file_object contents.now))) }
    ensures err { OnErr result ((entries : List LogEntryValue)
        → L.contains store.old.log entries → IsReplay entries store.old.backend
        → L.contains store.new.log entries ⊎ WithEntry (λ all. L.contains store.new.log all
        × ((backend : MemoryBackendValue) × IsReplay all backend))
        entries (entry_of (file_object contents.now))) }
{
    let id = store.write_file(alloc, RepoPath::root(), contents)?;
    Ok(id)
}

/// Writes files to a store that is the replay of its log, up to the first write that fails. The log
/// has the entries that it had and, at its end, those of the written files that it lacked, each
/// once. It has a replay.
pub fn log_files<L: ObjectLog>(
    alloc: Global,
    store: &mut Mirrored<L>,
    files: &[Vec<u8>],
) -> BackendResult<()>
    ensures ok { OnOk result ((entries : List LogEntryValue)
        → L.contains store.old.log entries → IsReplay entries store.old.backend
        → WithEntries (λ all. L.contains store.new.log all × IsReplay all store.new.backend)
        entries (map (λ file. entry_of (file_object file.items)) files.now)) }
    ensures err { OnErr result ((entries : List LogEntryValue)
        → L.contains store.old.log entries → IsReplay entries store.old.backend
        → (count : ℕ) × WithEntries (λ all. L.contains store.new.log all
        × ((backend : MemoryBackendValue) × IsReplay all backend))
        entries (map (λ file. entry_of (file_object file.items)) (take count files.now))) }
{
    for contents in files {
        log_file(alloc, store, contents)?;
    }
    Ok(())
}

/// Opens the store of a log and writes files, up to the first write that fails. A log without an
/// entry twice stays so. Fails only if the log cannot be replayed.
pub fn distinct_files(
    alloc: Global,
    log: MemoryLog,
    files: &[Vec<u8>],
) -> Result<Mirrored<MemoryLog>, ReplayError>
    ensures distinct { IfOk result (λ store. AllPairs (λ a b. a ≢ b) log
        → AllPairs (λ a b. a ≢ b) store.log) }
    ensures replay { IfOk result (λ store. (backend : MemoryBackendValue)
        × IsReplay store.log backend) }
    ensures error { IfErr result (IsReplayError log) }
{
    let mut store = open_log(alloc, log)?;
    let _ = log_files(alloc, &mut store, files);
    Ok(store)
}

/// Writes files to a new store, up to the first write that fails, and replays its log. That fails
/// only if memory runs out.
pub fn replayed_files(alloc: Global, files: &[Vec<u8>]) -> Result<MemoryBackend, ReplayError>
    ensures { IfErr result (λ e. e ≡ ReplayError.Memory) }
{
    let store = distinct_files(alloc, MemoryLog::new(alloc), files)?;
    replay(alloc, store.log().entries())
}

/// Opens the store of a log, writes files, up to the first write that fails, and replays the log.
/// An error is that of the first entry of `entries` that cannot be replayed, or memory ran out: no
/// written file causes one.
pub fn extended_log(
    alloc: Global,
    log: MemoryLog,
    files: &[Vec<u8>],
) -> Result<MemoryBackend, ReplayError>
    ensures { IfErr result (IsReplayError log) }
{
    let store = distinct_files(alloc, log, files)?;
    replay(alloc, store.log().entries())
}

/// Replays a log of one tree of fewer than eight bytes. If the error is that it is malformed, it is
/// truncated at the number of its entries.
pub fn replayed_short_tree(
    alloc: Global,
    id: Vec<u8>,
    bytes: Vec<u8>,
) -> Result<MemoryBackend, ReplayError>
    requires { length bytes.items < 8 }
    ensures { IfErr result IsTruncatedAtStart }
{
    let entry = LogEntry {
        kind: ObjectKind::Tree,
        id,
        bytes,
    };
    replay(alloc, &[entry])
}
