//! A backend in memory beside a log of its writes.
ghost use Rattle.std.specs.Prelude.{◌≡◌, ◌≢◌, ◌⊎◌, [], Some, IsSome, IfOk, IfErr, OnOk, OnErr};
ghost use Rattle.std.specs.Prelude.{string_bytes};
ghost use Rattle.std.specs.Option.{option_map};
ghost use Rattle.jj_backend.specs.Objects.{file_object, symlink_object, copy_object};
ghost use Rattle.jj_backend.specs.Objects.{tree_object, commit_object};
ghost use Rattle.jj_backend.specs.Objects.{IsRead, AddsFile, AddsSymlink, AddsCopy, AddsTree};
ghost use Rattle.jj_backend.specs.Objects.{AddsCommit, IsSigned, IsCommitError};
ghost use Rattle.jj_trees.specs.MemoryObjects.{digest_length, fixed_of, objects_of};
ghost use Rattle.jj_trees.specs.Signing.{signer_after};
ghost use Rattle.jj_mirror.specs.Entries.{entry_of};
ghost use Rattle.jj_mirror.specs.Logs.{Logs, IsLogFailure, IsLoggedError, IsCommitFailure};

use crate::digests::{digest, file_digest, string_digest};
use crate::free_digests::{has_commit, has_copy, has_file, has_symlink, has_tree};
use crate::object_log::{ObjectKind, ObjectLog};
use jj_backend::backend::{
    Backend, BackendResult, ChangeId, Commit, CommitId, CopyHistory, CopyId, CopyRecord, FileId,
    NoSigner, RelatedCopy, SigningFn, SymlinkId, Tree, TreeId,
};
use jj_content::content_hash::content_of;
use jj_paths::repo_path::{RepoPath, RepoPathBuf};
use jj_trees::memory_backend::{MemoryBackend, no_parents_error, sign_commit};
use std::alloc::Global;

/// A backend in memory, with whole digests as ids, beside a log of its writes. A write appends an
/// entry to the log and then writes to the backend, so that the log has an entry for each object
/// whose write succeeded. It appends none if the backend stores the object already, as any backend
/// does the empty tree: the test is one look-up by digest. An entry is appended only if `replay`
/// takes it: a commit without parents, or an object whose digest a different object has, fails with
/// `Other` before it is logged. Reads are the backend's.
///
/// If the log fails, the write fails with the log's error, and the backend is unchanged. If memory
/// runs out after that, the write fails with `Memory`, and the log keeps the entry.
#[derive(Drop)]
pub struct Mirrored<L> {
    backend: MemoryBackend,
    log: L,
    ghost whole: { backend.id_length ≡ digest_length },
}

impl<L: ObjectLog> Mirrored<L> {
    /// Puts a backend beside a log. The log should have an entry for each object of the backend
    /// besides the root commit and the empty tree. Returns both if the ids of the backend are not
    /// whole digests.
    pub fn new(backend: MemoryBackend, log: L) -> Result<Self, (MemoryBackend, L)>
        ensures backend { IfOk result (λ store. store.backend ≡ backend) }
        ensures log { IfOk result (λ store. store.log ≡ log) }
        // An error returns the backend and the log.
        ensures refused { IfErr result (λ e. e ≡ (backend, log)) }
        // It occurs only if the IDs of the backend are not whole digests.
        ensures cause { OnErr result (backend.id_length ≢ digest_length) }
    {
        if backend.commit_id_length() == DIGEST_LENGTH {
            Ok(Mirrored { backend, log })
        } else {
            Err((backend, log))
        }
    }

    /// Returns the backend.
    pub fn backend(&self) -> &MemoryBackend
        ensures { result.now ≡ self.now.backend }
    {
        &self.backend
    }

    /// Returns the log.
    pub fn log(&self) -> &L
        ensures { result.now ≡ self.now.log }
    {
        &self.log
    }

    /// Returns the backend and the log.
    pub fn into_parts(self) -> (MemoryBackend, L)
        ensures { result ≡ (self.backend, self.log) }
    {
        let Mirrored { backend, log } = self;
        (backend, log)
    }

    // Appends the entry of a file, unless it is stored. Fails if a different one has its digest.
    fn log_file(&mut self, alloc: Global, contents: &[u8]) -> BackendResult<()>
        ensures ok { OnOk result (Logs L.contains self.old.log self.new.log
            (objects_of self.old.backend) (file_object contents.now)) }
        ensures error { IfErr result (IsLogFailure L.contains self.old.log self.new.log L.may_fail
            (objects_of self.old.backend) (file_object contents.now)) }
        ensures backend { self.new.backend ≡ self.old.backend }
    {
        let id = file_digest(contents);
        let is_stored = has_file(alloc, &self.backend, &id, contents)?;
        if is_stored {
            return Ok(());
        }
        self.log.append(alloc, ObjectKind::File, &id, contents)
    }

    // Appends the entry of a symbolic link, unless it is stored. Fails if a different one has its
    // digest.
    fn log_symlink(&mut self, alloc: Global, target: &str) -> BackendResult<()>
        ensures ok { OnOk result (Logs L.contains self.old.log self.new.log
            (objects_of self.old.backend) (symlink_object target.now)) }
        ensures error { IfErr result (IsLogFailure L.contains self.old.log self.new.log L.may_fail
            (objects_of self.old.backend) (symlink_object target.now)) }
        ensures backend { self.new.backend ≡ self.old.backend }
    {
        let id = string_digest(target.as_bytes());
        let is_stored = has_symlink(alloc, &self.backend, &id, target)?;
        if is_stored {
            return Ok(());
        }
        self.log
            .append(alloc, ObjectKind::Symlink, &id, target.as_bytes())
    }

    // Appends the entry of a copy history, unless it is stored. Fails if a different one has its
    // digest.
    fn log_copy(&mut self, alloc: Global, copy: &CopyHistory) -> BackendResult<()>
        ensures ok { OnOk result (Logs L.contains self.old.log self.new.log
            (objects_of self.old.backend) (copy_object copy.now)) }
        ensures error { IfErr result (IsLogFailure L.contains self.old.log self.new.log L.may_fail
            (objects_of self.old.backend) (copy_object copy.now)) }
        ensures backend { self.new.backend ≡ self.old.backend }
    {
        let bytes = content_of(alloc, copy)?;
        let id = digest(&bytes);
        let is_stored = has_copy(alloc, &self.backend, &id, copy)?;
        if is_stored {
            return Ok(());
        }
        self.log.append(alloc, ObjectKind::Copy, &id, &bytes)
    }

    // Appends the entry of a tree, unless it is stored. Fails if a different one has its digest.
    fn log_tree(&mut self, alloc: Global, tree: &Tree) -> BackendResult<()>
        ensures ok { OnOk result (Logs L.contains self.old.log self.new.log
            (objects_of self.old.backend) (tree_object tree.now)) }
        ensures error { IfErr result (IsLogFailure L.contains self.old.log self.new.log L.may_fail
            (objects_of self.old.backend) (tree_object tree.now)) }
        ensures backend { self.new.backend ≡ self.old.backend }
    {
        let bytes = content_of(alloc, tree)?;
        let id = digest(&bytes);
        let is_stored = has_tree(alloc, &self.backend, &id, tree)?;
        if is_stored {
            return Ok(());
        }
        self.log.append(alloc, ObjectKind::Tree, &id, &bytes)
    }

    // Appends the entry of a commit in its stored form, unless it is stored. Fails if a different
    // one has its digest.
    fn log_commit(&mut self, alloc: Global, commit: &Commit) -> BackendResult<()>
        requires { commit.now.parents ≢ [] }
        ensures ok { OnOk result (Logs L.contains self.old.log self.new.log
            (objects_of self.old.backend) (commit_object commit.now)) }
        ensures error { IfErr result (IsLogFailure L.contains self.old.log self.new.log L.may_fail
            (objects_of self.old.backend) (commit_object commit.now)) }
        ensures backend { self.new.backend ≡ self.old.backend }
    {
        let bytes = content_of(alloc, commit)?;
        let id = digest(&bytes);
        let is_stored = has_commit(alloc, &self.backend, &id, commit)?;
        if is_stored {
            return Ok(());
        }
        self.log.append(alloc, ObjectKind::Commit, &id, &bytes)
    }

    // Writes a commit in its stored form.
    fn write_stored(&mut self, alloc: Global, commit: Commit) -> BackendResult<(CommitId, Commit)>
        requires { commit.parents ≢ [] }
        ensures ok { IfOk result (λ stored. AddsCommit (objects_of self.old.backend)
            (objects_of self.new.backend) stored.0 stored.1) }
        ensures id { IfOk result (λ stored.
            stored.0 ≡ (entry_of (commit_object commit)).id) }
        ensures frame { self.new.backend
            ≡ record self.old.backend { commits = self.new.backend.commits } }
        ensures commit { IfOk result (λ stored. stored.1 ≡ commit) }
        ensures logged { IfOk result (λ stored. Logs L.contains self.old.log self.new.log
            (objects_of self.old.backend) (commit_object stored.1)) }
        ensures unchanged { OnErr result (self.new.backend ≡ self.old.backend) }
        ensures error { IfErr result (IsLoggedError L.contains self.old.log self.new.log L.may_fail
            (objects_of self.old.backend) (commit_object commit)) }
    {
        self.log_commit(alloc, &commit)?;
        self.backend
            .write_commit(alloc, commit, None::<&mut NoSigner>)
    }
}

// The length of a BLAKE2b digest in bytes.
const DIGEST_LENGTH: usize = 64;

impl<L: ObjectLog> Backend for Mirrored<L> {
    ghost use Rattle.std.specs.Prelude.{◌≡◌, ◌⊎◌, ⊤, true, codes, IsErrAnd};
    ghost use Rattle.jj_backend.specs.Errors.{is_unsupported};
    ghost use Rattle.jj_backend.specs.declared.backend.errors.BackendError.TheVariants.{Memory};
    ghost use Rattle.jj_trees.specs.MemoryObjects.{fixed_of, objects_of};
    ghost use Rattle.jj_mirror.specs.Logs.{MayFailToWrite};

    ghost objects = { λ store. objects_of store.backend };

    ghost fixed = { λ store. record (fixed_of store.backend) { name = codes "mirrored" } };

    ghost may_fail = { λ _ e. e ≡ Memory };

    ghost may_read_tree = { λ _ path id r. ⊤ };

    ghost may_fail_to_write = { λ store. MayFailToWrite (L.may_fail store.log)
        (objects_of store.backend) };

    ghost may_write = { λ _ _ _ _ _. ⊤ };

    ghost may_relate = { λ _ _ r. IsErrAnd r (λ e. (e ≡ Memory) ⊎ (is_unsupported e ≡ true)) };

    ghost may_list_copies = { λ _ _ _ _ r. IsErrAnd r
        (λ e. (e ≡ Memory) ⊎ (is_unsupported e ≡ true)) };

    fn name(&self) -> &str {
        "mirrored"
    }

    fn commit_id_length(&self) -> usize {
        self.backend.commit_id_length()
    }

    fn change_id_length(&self) -> usize {
        self.backend.change_id_length()
    }

    fn root_commit_id(&self) -> &CommitId {
        self.backend.root_commit_id()
    }

    fn root_change_id(&self) -> &ChangeId {
        self.backend.root_change_id()
    }

    fn empty_tree_id(&self) -> &TreeId {
        self.backend.empty_tree_id()
    }

    fn concurrency(&self) -> usize {
        self.backend.concurrency()
    }

    fn read_file(&self, alloc: Global, path: RepoPath<'_>, id: &FileId) -> BackendResult<Vec<u8>> {
        self.backend.read_file(alloc, path, id)
    }

    fn write_file(
        &mut self,
        alloc: Global,
        path: RepoPath<'_>,
        contents: &[u8],
    ) -> BackendResult<FileId>
        ensures ok { IfOk result (λ id. AddsFile (objects_of self.old.backend)
            (objects_of self.new.backend) id contents.now) }
        ensures id { IfOk result (λ id. id ≡ (entry_of (file_object contents.now)).id) }
        ensures frame { self.new.backend
            ≡ record self.old.backend { files = self.new.backend.files } }
        // After a success the entry of the file was appended, unless the backend had the file, and
        // replay accepts it.
        ensures logged { OnOk result (Logs L.contains self.old.log self.new.log
            (objects_of self.old.backend) (file_object contents.now)) }
        ensures unchanged { OnErr result (self.new.backend ≡ self.old.backend) }
        // An error is one of logging the file, and the log has its old entries; or memory ran out
        // after the file was logged.
        ensures error { IfErr result (IsLoggedError L.contains self.old.log self.new.log L.may_fail
            (objects_of self.old.backend) (file_object contents.now)) }
    {
        self.log_file(alloc, contents)?;
        self.backend.write_file(alloc, path, contents)
    }

    fn read_symlink(
        &self,
        alloc: Global,
        path: RepoPath<'_>,
        id: &SymlinkId,
    ) -> BackendResult<String> {
        self.backend.read_symlink(alloc, path, id)
    }

    fn write_symlink(
        &mut self,
        alloc: Global,
        path: RepoPath<'_>,
        target: &str,
    ) -> BackendResult<SymlinkId>
        ensures ok { IfOk result (λ id. AddsSymlink (objects_of self.old.backend)
            (objects_of self.new.backend) id target.now) }
        ensures id { IfOk result (λ id. id ≡ (entry_of (symlink_object target.now)).id) }
        ensures frame { self.new.backend
            ≡ record self.old.backend { symlinks = self.new.backend.symlinks } }
        ensures logged { OnOk result (Logs L.contains self.old.log self.new.log
            (objects_of self.old.backend) (symlink_object target.now)) }
        ensures unchanged { OnErr result (self.new.backend ≡ self.old.backend) }
        ensures error { IfErr result (IsLoggedError L.contains self.old.log self.new.log L.may_fail
            (objects_of self.old.backend) (symlink_object target.now)) }
    {
        self.log_symlink(alloc, target)?;
        self.backend.write_symlink(alloc, path, target)
    }

    fn read_copy(&self, alloc: Global, id: &CopyId) -> BackendResult<CopyHistory> {
        self.backend.read_copy(alloc, id)
    }

    fn write_copy(&mut self, alloc: Global, copy: &CopyHistory) -> BackendResult<CopyId>
        ensures ok { IfOk result (λ id. AddsCopy (objects_of self.old.backend)
            (objects_of self.new.backend) id copy.now) }
        ensures id { IfOk result (λ id. id ≡ (entry_of (copy_object copy.now)).id) }
        ensures frame { self.new.backend
            ≡ record self.old.backend { copies = self.new.backend.copies } }
        ensures logged { OnOk result (Logs L.contains self.old.log self.new.log
            (objects_of self.old.backend) (copy_object copy.now)) }
        ensures unchanged { OnErr result (self.new.backend ≡ self.old.backend) }
        ensures error { IfErr result (IsLoggedError L.contains self.old.log self.new.log L.may_fail
            (objects_of self.old.backend) (copy_object copy.now)) }
    {
        self.log_copy(alloc, copy)?;
        self.backend.write_copy(alloc, copy)
    }

    fn get_related_copies(
        &self,
        alloc: Global,
        copy_id: &CopyId,
    ) -> BackendResult<Vec<RelatedCopy>> {
        self.backend.get_related_copies(alloc, copy_id)
    }

    fn read_tree(&self, alloc: Global, path: RepoPath<'_>, id: &TreeId) -> BackendResult<Tree> {
        self.backend.read_tree(alloc, path, id)
    }

    fn write_tree(
        &mut self,
        alloc: Global,
        path: RepoPath<'_>,
        contents: &Tree,
    ) -> BackendResult<TreeId>
        // The tree was added under the ID returned, which no different tree had; no other object
        // has changed.
        ensures ok { IfOk result (λ id. AddsTree (objects_of self.old.backend)
            (objects_of self.new.backend) id contents.now) }
        // The ID is the digest of the content of the tree, under which the log has it.
        ensures id { IfOk result (λ id. id ≡ (entry_of (tree_object contents.now)).id) }
        // Only trees were added to the backend.
        ensures frame { self.new.backend
            ≡ record self.old.backend { trees = self.new.backend.trees } }
        // After a success the entry of the tree was appended, unless the backend had the tree, and
        // replay accepts it.
        ensures logged { OnOk result (Logs L.contains self.old.log self.new.log
            (objects_of self.old.backend) (tree_object contents.now)) }
        // After an error the backend is unchanged.
        ensures unchanged { OnErr result (self.new.backend ≡ self.old.backend) }
        // An error is one of logging the tree, and the log has its old entries; or memory ran out
        // after the tree was logged.
        ensures error { IfErr result (IsLoggedError L.contains self.old.log self.new.log L.may_fail
            (objects_of self.old.backend) (tree_object contents.now)) }
    {
        self.log_tree(alloc, contents)?;
        self.backend.write_tree(alloc, path, contents)
    }

    fn read_commit(&self, alloc: Global, id: &CommitId) -> BackendResult<Commit> {
        self.backend.read_commit(alloc, id)
    }

    /// Signs the commit before it is logged, so that the log has the stored form. Fails with
    /// `Other` for a commit without parents, before it calls the signer.
    fn write_commit<S: SigningFn>(
        &mut self,
        alloc: Global,
        contents: Commit,
        sign_with: Option<&mut S>,
    ) -> BackendResult<(CommitId, Commit)>
        // The commit as stored was added under the ID returned, which no different commit had; no
        // other object has changed.
        ensures ok { IfOk result (λ stored. AddsCommit (objects_of self.old.backend)
            (objects_of self.new.backend) stored.0 stored.1) }
        // The ID is the digest of the content of the stored commit, under which the log has it.
        ensures id { IfOk result (λ stored. stored.0 ≡ (entry_of (commit_object stored.1)).id) }
        ensures frame { self.new.backend
            ≡ record self.old.backend { commits = self.new.backend.commits } }
        // The stored commit is the commit as it was passed, or with a signature of its content if
        // there is a signer.
        ensures signed { IfOk result (λ stored.
            IsSigned S.may_sign (option_map (λ f. f.now) sign_with.entry) contents stored.1) }
        ensures parents { OnOk result (contents.parents ≢ []) }
        ensures not_called { contents.parents ≡ []
            → signer_after (λ f. f.0.now) sign_with.exit ≡ option_map (λ f. f.now) sign_with.entry }
        // After a success the entry of the stored commit was appended, unless the backend had the
        // commit, and replay accepts it.
        ensures logged { IfOk result (λ stored. Logs L.contains self.old.log self.new.log
            (objects_of self.old.backend) (commit_object stored.1)) }
        // After an error the backend is unchanged.
        ensures unchanged { OnErr result (self.new.backend ≡ self.old.backend) }
        // An error is that of the signer or of a commit without parents, and the log has its old
        // entries, or one of logging the stored commit.
        ensures error { IfErr result (IsCommitFailure L.contains self.old.log self.new.log
            L.may_fail (objects_of self.old.backend) S.may_sign
            (option_map (λ f. f.now) sign_with.entry) contents) }
    {
        match sign_with {
            None => {
                if contents.parents.is_empty() {
                    return Err(no_parents_error(alloc));
                }
                self.write_stored(alloc, contents)
            }
            Some(signer) => {
                let commit = sign_commit(alloc, contents, signer)?;
                self.write_stored(alloc, commit)
            }
        }
    }

    fn get_copy_records(
        &self,
        alloc: Global,
        paths: Option<&[RepoPathBuf]>,
        root: &CommitId,
        head: &CommitId,
    ) -> BackendResult<Vec<CopyRecord>> {
        self.backend.get_copy_records(alloc, paths, root, head)
    }
}
