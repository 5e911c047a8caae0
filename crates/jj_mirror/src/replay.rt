//! Replaying a log of written objects into an in-memory backend.
ghost use Rattle.std.specs.Prelude.{◌≡◌, ◌++◌, ◌∷◌, [], List, IfOk, IfErr};
ghost use Rattle.jj_trees.specs.MemoryObjects.{MemoryBackendValue, digest_length};
ghost use Rattle.jj_mirror.specs.Entries.{LogEntryValue};
ghost use Rattle.jj_mirror.specs.Replays.{IsReplay, IsReplayCause, IsReplayError, IsReplayResult};

use crate::entry_writes::write_entry;
use crate::error::ReplayError;
use crate::object_log::LogEntry;
use jj_backend::backend::{Commit, CopyHistory, Tree};
use jj_decode::read_content::ReadContent;
use jj_trees::memory_backend::MemoryBackend;
use std::alloc::Global;

/// Creates a backend with whole digests as ids and stores the object of each entry, in order. The
/// error is that of the first entry that fails. Linear in the bytes of the entries, apart from the
/// look-ups of ids.
#[tactic(auto, using(crate::proofs::ReplayedEntries::replay_more, crate::proofs::ReplayedEntries::replay_error))]
pub fn replay(alloc: Global, entries: &[LogEntry]) -> Result<MemoryBackend, ReplayError>
    // The backend stores the objects of these entries under their ids, and no others besides the
    // initial objects of a new backend.
    ensures ok { IfOk result (IsReplay entries.now) }
    // An error names the first entry that cannot be replayed, or memory ran out.
    ensures error { IfErr result (IsReplayError entries.now) }
    // The reason and the offset of a malformed entry are those of decoding its bytes as its kind.
    ensures cause { IfErr result (IsReplayCause ⟦<CopyHistory as ReadContent>⟧.errors
        ⟦<Tree as ReadContent>⟧.errors ⟦<Commit as ReadContent>⟧.errors entries.now) }
    // If a backend is the replay of these entries, replaying them fails only for memory.
    ensures again { (backend : MemoryBackendValue) → IsReplay entries.now backend
        → IfErr result (λ e. e ≡ ReplayError.Memory) }
{
    let mut backend = MemoryBackend::new(alloc)?;
    for entry in entries {
        write_entry(alloc, &mut backend, entry)?;
    }
    Ok(backend)
}

/// Takes the result of replaying some entries, and returns that of replaying these and one more:
/// stores the object of the entry, unless an entry before it failed. The error is that of the first
/// entry that fails. A backend has to have whole digests as ids.
pub fn replay_next(
    alloc: Global,
    replayed: Result<MemoryBackend, ReplayError>,
    entry: &LogEntry,
) -> Result<MemoryBackend, ReplayError>
    requires { IfOk replayed (λ backend. backend.id_length ≡ digest_length) }
    // The backend has whole digests as ids.
    ensures whole { IfOk result (λ backend. backend.id_length ≡ digest_length) }
    // Takes the result of replaying these entries to that of replaying one more.
    ensures next { (entries : List LogEntryValue)
        → IsReplayResult ⟦<CopyHistory as ReadContent>⟧.errors ⟦<Tree as ReadContent>⟧.errors
        ⟦<Commit as ReadContent>⟧.errors entries replayed
        → IsReplayResult ⟦<CopyHistory as ReadContent>⟧.errors ⟦<Tree as ReadContent>⟧.errors
        ⟦<Commit as ReadContent>⟧.errors (entries ++ entry.now ∷ []) result }
{
    let mut backend = replayed?;
    write_entry(alloc, &mut backend, entry)?;
    Ok(backend)
}
