//! Callers of `jj_mirror`.
ghost use Rattle.std.specs.Prelude.{◌≡◌, ◌++◌, ◌∷◌, [], List, IfErr, IfOk};
ghost use Rattle.jj_trees.specs.MemoryObjects.{digest_length};
ghost use Rattle.jj_mirror.specs.Entries.{LogEntryValue};
ghost use Rattle.jj_mirror.specs.Replays.{IsReplay, IsReplayError, IsReplayResult};

use jj_backend::backend::{Commit, CopyHistory, Tree};
use jj_decode::read_content::ReadContent;
use jj_mirror::error::ReplayError;
use jj_mirror::object_log::LogEntry;
use jj_trees::memory_backend::MemoryBackend;
use std::alloc::Global;

/// `replay`.
pub fn replay(alloc: Global, entries: &[LogEntry]) -> Result<MemoryBackend, ReplayError>
    ensures ok { IfOk result (IsReplay entries.now) }
    ensures error { IfErr result (IsReplayError entries.now) }
{
    jj_mirror::replay::replay(alloc, entries)
}

/// `replay_next`.
pub fn replay_next(
    alloc: Global,
    replayed: Result<MemoryBackend, ReplayError>,
    entry: &LogEntry,
) -> Result<MemoryBackend, ReplayError>
    requires { IfOk replayed (λ backend. backend.id_length ≡ digest_length) }
    ensures next { (entries : List LogEntryValue)
        → IsReplayResult ⟦<CopyHistory as ReadContent>⟧.errors ⟦<Tree as ReadContent>⟧.errors
        ⟦<Commit as ReadContent>⟧.errors entries replayed
        → IsReplayResult ⟦<CopyHistory as ReadContent>⟧.errors ⟦<Tree as ReadContent>⟧.errors
        ⟦<Commit as ReadContent>⟧.errors (entries ++ entry.now ∷ []) result }
{
    jj_mirror::replay::replay_next(alloc, replayed, entry)
}
