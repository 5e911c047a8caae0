//! Callers of `jj_mirror`.
ghost use Rattle.std.specs.Prelude.{◌≡◌, ◌++◌, ◌∷◌, [], IfOk, OnOk};
ghost use Rattle.jj_backend.specs.Objects.{commit_object};
ghost use Rattle.jj_mirror.specs.Logs.{Logs};
ghost use Rattle.jj_trees.specs.MemoryObjects.{fixed_of, objects_of};

use jj_backend::backend::{Backend, BackendResult, Commit, CommitId, NoSigner};
use jj_mirror::memory_log::MemoryLog;
use jj_mirror::mirrored::Mirrored;
use jj_mirror::object_log::{ObjectKind, ObjectLog};
use jj_trees::memory_backend::MemoryBackend;
use std::alloc::Global;

/// `Backend::change_id_length` of `Mirrored`.
pub fn change_id_length<L: ObjectLog>(store: &Mirrored<L>) -> usize
    ensures { result ≡ (fixed_of store.now.backend).change_id_length }
{
    store.change_id_length()
}

/// `Backend::write_commit` of `Mirrored`; returns the parts of the store too.
pub fn write_commit<L: ObjectLog>(
    alloc: Global,
    store: Mirrored<L>,
    contents: Commit,
) -> ((MemoryBackend, L), BackendResult<(CommitId, Commit)>)
    ensures { IfOk result.1 (λ stored. Logs L.contains store.log result.0.1
        (objects_of store.backend) (commit_object stored.1)) }
{
    let mut store = store;
    let written = store.write_commit(alloc, contents, None::<&mut NoSigner>);
    (store.into_parts(), written)
}

/// `ObjectLog::append` of `MemoryLog`.
pub fn append(
    alloc: Global,
    log: &mut MemoryLog,
    kind: ObjectKind,
    id: &[u8],
    bytes: &[u8],
) -> BackendResult<()>
    ensures { OnOk result (log.new
        ≡ log.old ++ record { kind = kind; id = id.now; bytes = bytes.now } ∷ []) }
{
    log.append(alloc, kind, id, bytes)
}
