//! Proved callers of a backend beside a log.
ghost use Rattle.std.specs.Prelude.{◌≡◌, ◌≢◌, ◌⊎◌, ◌++◌, [], ◌∷◌, IfOk, IfErr, OnOk};
ghost use Rattle.jj_backend.specs.Errors.{IsOtherOf};
ghost use Rattle.jj_backend.specs.Objects.{commit_object};
ghost use Rattle.jj_mirror.specs.Entries.{entry_of};
ghost use Rattle.jj_mirror.specs.Objects.{HasObject, IsDigestTaken};
ghost use Rattle.jj_trees.specs.MemoryObjects.{objects_of};

use jj_backend::backend::{Backend, BackendError, BackendResult, Commit, NoSigner};
use jj_files::file_util::SourceKind;
use jj_mirror::memory_log::MemoryLog;
use jj_mirror::mirrored::Mirrored;
use std::alloc::Global;

/// Writes a commit to a backend beside a log, both in memory, and reads it back.
pub fn written_commit(
    alloc: Global,
    store: &mut Mirrored<MemoryLog>,
    commit: Commit,
) -> BackendResult<Commit>
    ensures read { IfOk result (λ read. read ≡ commit) }
    ensures parents { OnOk result (commit.parents ≢ []) }
    // The log is unchanged if the commit was stored already; else its entry is appended.
    ensures logged { OnOk result (let object = commit_object commit in
        (HasObject (objects_of store.old.backend) object × (store.new.log ≡ store.old.log))
        ⊎ (¬ (HasObject (objects_of store.old.backend) object)
        × (store.new.log ≡ store.old.log ++ entry_of object ∷ []))) }
    // Out of memory, or the commit has no parents, or a different commit has its digest.
    ensures error { IfErr result (λ e. (e ≡ BackendError.Memory)
        ⊎ (IsOtherOf SourceKind.Other e × ((commit.parents ≡ [])
        ⊎ IsDigestTaken (objects_of store.old.backend) (commit_object commit)))) }
{
    let stored = store.write_commit(alloc, commit, None::<&mut NoSigner>)?;
    let (id, _) = stored;
    store.read_commit(alloc, &id)
}
