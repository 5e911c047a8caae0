//! In-memory object store, addressed by BLAKE2b digests of the objects' content.
ghost use Rattle.std.specs.Prelude.{◌≡◌, ◌≢◌, ◌≤◌, ◌⊎◌, [], true, codes, Some};
ghost use Rattle.std.specs.Prelude.{IfOk, IfErr, OnOk, OnErr, IsErrAnd, string_bytes};
ghost use Rattle.std.specs.Option.{option_map};
ghost use Rattle.jj_content.specs.Content.{string_content};
ghost use Rattle.jj_backend.specs.Contents.{bytes_content, copy_history_content, commit_content};
ghost use Rattle.jj_backend.specs.Errors.{IsOtherOf, is_unsupported};
ghost use Rattle.jj_backend.specs.Objects.{AddsFile, AddsSymlink, AddsCopy, AddsTree};
ghost use Rattle.jj_backend.specs.Objects.{AddsCommit, FailsToSign, IsRead, IsSigned};
ghost use Rattle.jj_backend.specs.Records.{root_commit};
ghost use Rattle.jj_backend.specs.TreeLaws.{tree_content};
ghost use Rattle.jj_trees.specs.MemoryObjects.{new_backend, change_id_length, digest_length};
ghost use Rattle.jj_trees.specs.MemoryObjects.{object_id, objects_of, IsStoreError};
ghost use Rattle.jj_trees.specs.MemoryErrors.{NamesObject};
ghost use Rattle.jj_trees.specs.Signing.{IsCommitIdTaken, signer_after};

mod contents;
mod initial_objects;
mod object_maps;
mod signing;

use contents::{FileContent, LinkTarget};
use initial_objects::{initial_commits, initial_trees, zero_id};
use jj_backend::backend::{
    Backend, BackendError, BackendResult, ChangeId, Commit, CommitId, CopyHistory, CopyId,
    CopyRecord, FileId, RelatedCopy, SigningFn, SymlinkId, Tree, TreeId,
};
use jj_files::file_util::SourceKind;
use jj_paths::repo_path::{RepoPath, RepoPathBuf};
use object_maps::{clone_object, content_id, insert_and_return, insert_object};
pub use signing::{no_parents_error, sign_commit};
use std::alloc::{AllocError, Global};
use std::collections::BTreeMap;
use std::marker::Model;

// The length of a BLAKE2b digest in bytes.
const DIGEST_LENGTH: usize = 64;

// The length of change ids in bytes.
const CHANGE_ID_LENGTH: usize = 16;

fn unsupported_error(alloc: Global, message: &str) -> BackendError
    ensures { (result ≡ BackendError.Memory) ⊎ (is_unsupported result ≡ true) }
{
    match String::from_str(alloc, message) {
        Ok(message) => BackendError::Unsupported(message),
        Err(_) => BackendError::Memory,
    }
}

/// In-memory object store keyed by content digests, or by prefixes of digests. Ignores paths.
#[derive(Drop)]
pub struct MemoryBackend {
    id_length: usize,
    root_commit_id: CommitId,
    root_change_id: ChangeId,
    empty_tree_id: TreeId,
    files: BTreeMap<FileId, FileContent>,
    symlinks: BTreeMap<SymlinkId, LinkTarget>,
    copies: BTreeMap<CopyId, CopyHistory>,
    trees: BTreeMap<TreeId, Tree>,
    commits: BTreeMap<CommitId, Commit>,
}

impl Model for MemoryBackend {
    ghost use Rattle.std.specs.Prelude.{◌≡◌, ◌≤◌, [], Some};
    ghost use Rattle.jj_backend.specs.Records.{root_commit};
    ghost use Rattle.jj_trees.specs.MemoryObjects.{MemoryBackendValue, by_id, digest_length};

    ghost Value = { MemoryBackendValue };

    ghost view = { λ b. record {
      id_length = b.id_length;
      root_commit_id = b.root_commit_id;
      root_change_id = b.root_change_id;
      empty_tree_id = b.empty_tree_id;
      files = b.files.entries;
      symlinks = b.symlinks.entries;
      copies = b.copies.entries;
      trees = b.trees.entries;
      commits = b.commits.entries;
    } };

    ghost invariant = { λ b. (b.id_length ≤ digest_length)
        × (by_id b.trees.entries b.empty_tree_id ≡ Some [])
        × (by_id b.commits.entries b.root_commit_id
        ≡ Some (root_commit b.root_change_id b.empty_tree_id)) };
}

impl MemoryBackend {
    /// Creates a backend with whole digests of 64 bytes as ids.
    pub fn new(alloc: Global) -> Result<Self, AllocError>
        ensures { IfOk result (λ backend. backend ≡ new_backend digest_length) }
    {
        MemoryBackend::with_id_length(alloc, DIGEST_LENGTH)
    }

    /// Creates a backend with ids of `id_length` bytes, from 1 to 64: prefixes of digests. Change
    /// ids have 16 bytes. A write fails with `Other` if a different object has the id already.
    pub fn with_id_length(alloc: Global, id_length: usize) -> Result<Self, AllocError>
        requires least { 1 ≤ id_length }
        requires greatest { id_length ≤ digest_length }
        ensures { IfOk result (λ backend. backend ≡ new_backend id_length) }
    {
        let root_commit_id: CommitId = zero_id(alloc, id_length)?;
        let root_change_id: ChangeId = zero_id(alloc, CHANGE_ID_LENGTH)?;
        let (empty_tree_id, trees) = initial_trees(alloc, id_length)?;
        let commits = initial_commits(alloc, &root_commit_id, &root_change_id, &empty_tree_id)?;
        Ok(MemoryBackend {
            id_length,
            root_commit_id,
            root_change_id,
            empty_tree_id,
            files: BTreeMap::new(alloc),
            symlinks: BTreeMap::new(alloc),
            copies: BTreeMap::new(alloc),
            trees,
            commits,
        })
    }

    // Stores a commit and returns its id and the commit.
    fn insert_commit(&mut self, alloc: Global, commit: Commit) -> BackendResult<(CommitId, Commit)>
        ensures ok { IfOk result (λ stored.
            AddsCommit (objects_of self.old) (objects_of self.new) stored.0 stored.1) }
        ensures commit { IfOk result (λ stored. stored.1 ≡ commit) }
        ensures id { IfOk result (λ stored.
            stored.0 ≡ object_id self.old.id_length (commit_content commit)) }
        ensures frame { self.new ≡ record self.old { commits = self.new.commits } }
        ensures unchanged { OnErr result (self.new ≡ self.old) }
        ensures error { IfErr result (IsStoreError self.old.commits
            (object_id self.old.id_length (commit_content commit)) commit) }
    {
        let id = content_id(alloc, self.id_length, &commit)?;
        insert_and_return(alloc, &mut self.commits, id, commit)
    }
}

impl Backend for MemoryBackend {
    ghost use Rattle.std.specs.Prelude.{◌≡◌, ◌⊎◌, ⊤, true, IsErrAnd};
    ghost use Rattle.jj_backend.specs.Errors.{is_unsupported};
    ghost use Rattle.jj_backend.specs.declared.backend.errors.BackendError.TheVariants.{Memory};
    ghost use Rattle.jj_trees.specs.MemoryObjects.{fixed_of, objects_of, MayFailToWrite};

    ghost objects = { objects_of };

    ghost fixed = { fixed_of };

    ghost may_fail = { λ _ e. e ≡ Memory };

    ghost may_read_tree = { λ _ path id r. ⊤ };

    ghost may_fail_to_write = { MayFailToWrite };

    ghost may_write = { λ _ _ _ _ _. ⊤ };

    ghost may_relate = { λ _ _ r. IsErrAnd r (λ e. (e ≡ Memory) ⊎ (is_unsupported e ≡ true)) };

    ghost may_list_copies = { λ _ _ _ _ r. IsErrAnd r
        (λ e. (e ≡ Memory) ⊎ (is_unsupported e ≡ true)) };

    fn name(&self) -> &str
        ensures { result.now ≡ codes "memory" }
    {
        "memory"
    }

    fn commit_id_length(&self) -> usize
        ensures { result ≡ self.now.id_length }
    {
        self.id_length
    }

    fn change_id_length(&self) -> usize
        ensures { result ≡ change_id_length }
    {
        CHANGE_ID_LENGTH
    }

    fn root_commit_id(&self) -> &CommitId
        ensures id { result.now ≡ self.now.root_commit_id }
        ensures commit { (objects_of self.now).commits result.now
            ≡ Some (root_commit self.now.root_change_id self.now.empty_tree_id) }
    {
        &self.root_commit_id
    }

    fn root_change_id(&self) -> &ChangeId
        ensures { result.now ≡ self.now.root_change_id }
    {
        &self.root_change_id
    }

    fn empty_tree_id(&self) -> &TreeId
        ensures id { result.now ≡ self.now.empty_tree_id }
        ensures tree { (objects_of self.now).trees result.now ≡ Some [] }
    {
        &self.empty_tree_id
    }

    fn concurrency(&self) -> usize
        ensures { result ≡ 1 }
    {
        1
    }

    fn read_file(&self, alloc: Global, _path: RepoPath<'_>, id: &FileId) -> BackendResult<Vec<u8>>
        ensures read { IsRead (λ e. e ≡ BackendError.Memory) ((objects_of self.now).files id.now)
            (λ v. v.items) result }
        ensures object { IfErr result (NamesObject (codes "file") id.now) }
    {
        Ok(clone_object(alloc, &self.files, id)?.bytes)
    }

    fn write_file(
        &mut self,
        alloc: Global,
        _path: RepoPath<'_>,
        contents: &[u8],
    ) -> BackendResult<FileId>
        ensures ok { IfOk result (λ id.
            AddsFile (objects_of self.old) (objects_of self.new) id contents.now) }
        ensures id { IfOk result (λ id.
            id ≡ object_id self.old.id_length (bytes_content contents.now)) }
        ensures frame { self.new ≡ record self.old { files = self.new.files } }
        ensures unchanged { OnErr result (self.new ≡ self.old) }
        ensures error { IfErr result (IsStoreError self.old.files
            (object_id self.old.id_length (bytes_content contents.now)) contents.now) }
    {
        let bytes = Vec::from_slice(alloc, contents)?;
        let id = content_id(alloc, self.id_length, &bytes)?;
        insert_object(alloc, &mut self.files, id, FileContent { bytes })
    }

    fn read_symlink(
        &self,
        alloc: Global,
        _path: RepoPath<'_>,
        id: &SymlinkId,
    ) -> BackendResult<String>
        ensures read { IsRead (λ e. e ≡ BackendError.Memory)
            ((objects_of self.now).symlinks id.now) string_bytes result }
        ensures object { IfErr result (NamesObject (codes "symlink") id.now) }
    {
        Ok(clone_object(alloc, &self.symlinks, id)?.text)
    }

    fn write_symlink(
        &mut self,
        alloc: Global,
        _path: RepoPath<'_>,
        target: &str,
    ) -> BackendResult<SymlinkId>
        ensures ok { IfOk result (λ id.
            AddsSymlink (objects_of self.old) (objects_of self.new) id target.now) }
        ensures id { IfOk result (λ id.
            id ≡ object_id self.old.id_length (string_content target.now)) }
        ensures frame { self.new ≡ record self.old { symlinks = self.new.symlinks } }
        ensures unchanged { OnErr result (self.new ≡ self.old) }
        ensures error { IfErr result (IsStoreError self.old.symlinks
            (object_id self.old.id_length (string_content target.now)) target.now) }
    {
        let text = String::from_str(alloc, target)?;
        let id = content_id(alloc, self.id_length, &text)?;
        insert_object(alloc, &mut self.symlinks, id, LinkTarget { text })
    }

    fn read_copy(&self, alloc: Global, id: &CopyId) -> BackendResult<CopyHistory>
        ensures read { IsRead (λ e. e ≡ BackendError.Memory) ((objects_of self.now).copies id.now)
            (λ c. c) result }
        ensures object { IfErr result (NamesObject (codes "copy") id.now) }
    {
        clone_object(alloc, &self.copies, id)
    }

    fn write_copy(&mut self, alloc: Global, copy: &CopyHistory) -> BackendResult<CopyId>
        ensures ok { IfOk result (λ id.
            AddsCopy (objects_of self.old) (objects_of self.new) id copy.now) }
        ensures id { IfOk result (λ id.
            id ≡ object_id self.old.id_length (copy_history_content copy.now)) }
        ensures frame { self.new ≡ record self.old { copies = self.new.copies } }
        ensures unchanged { OnErr result (self.new ≡ self.old) }
        ensures error { IfErr result (IsStoreError self.old.copies
            (object_id self.old.id_length (copy_history_content copy.now)) copy.now) }
    {
        let id = content_id(alloc, self.id_length, copy)?;
        let copy = copy.clone()?;
        insert_object(alloc, &mut self.copies, id, copy)
    }

    /// Always fails with `Unsupported`.
    fn get_related_copies(
        &self,
        alloc: Global,
        _copy_id: &CopyId,
    ) -> BackendResult<Vec<RelatedCopy>>
        ensures { IsErrAnd result (λ e. (e ≡ BackendError.Memory) ⊎ (is_unsupported e ≡ true)) }
    {
        Err(unsupported_error(alloc, "related copies are not supported"))
    }

    fn read_tree(&self, alloc: Global, _path: RepoPath<'_>, id: &TreeId) -> BackendResult<Tree>
        // The result is the tree that the backend has under the ID, `ObjectNotFound` only if it has
        // none, or `Memory`.
        ensures value { IsRead (λ e. e ≡ BackendError.Memory) ((objects_of self.now).trees id.now)
            (λ t. t) result }
        // `ObjectNotFound` has the type and the ID in hex.
        ensures object { IfErr result (NamesObject (codes "tree") id.now) }
    {
        clone_object(alloc, &self.trees, id)
    }

    fn write_tree(
        &mut self,
        alloc: Global,
        _path: RepoPath<'_>,
        contents: &Tree,
    ) -> BackendResult<TreeId>
        // The tree was added under the ID returned, which no different tree had; no other object
        // has changed.
        ensures ok { IfOk result (λ id.
            AddsTree (objects_of self.old) (objects_of self.new) id contents.now) }
        // The ID is the BLAKE2b-512 digest of the content of the tree, cut to the length of IDs.
        ensures id { IfOk result (λ id.
            id ≡ object_id self.old.id_length (tree_content contents.now)) }
        // Only trees were added.
        ensures frame { self.new ≡ record self.old { trees = self.new.trees } }
        // After an error the backend is unchanged.
        ensures unchanged { OnErr result (self.new ≡ self.old) }
        // An error is `Memory`, or `Other` if a different tree has the ID.
        ensures error { IfErr result (IsStoreError self.old.trees
            (object_id self.old.id_length (tree_content contents.now)) contents.now) }
    {
        let id = content_id(alloc, self.id_length, contents)?;
        let tree = contents.clone()?;
        insert_object(alloc, &mut self.trees, id, tree)
    }

    fn read_commit(&self, alloc: Global, id: &CommitId) -> BackendResult<Commit>
        ensures read { IsRead (λ e. e ≡ BackendError.Memory) ((objects_of self.now).commits id.now)
            (λ c. c) result }
        ensures object { IfErr result (NamesObject (codes "commit") id.now) }
    {
        clone_object(alloc, &self.commits, id)
    }

    /// Fails with `Other` for a commit without parents, without calling the signer.
    fn write_commit<S: SigningFn>(
        &mut self,
        alloc: Global,
        contents: Commit,
        sign_with: Option<&mut S>,
    ) -> BackendResult<(CommitId, Commit)>
        ensures ok { IfOk result (λ stored.
            AddsCommit (objects_of self.old) (objects_of self.new) stored.0 stored.1) }
        // The stored commit is the commit as it was passed, or with a signature of its content if
        // there is a signer.
        ensures signed { IfOk result (λ stored.
            IsSigned S.may_sign (option_map (λ f. f.now) sign_with.entry) contents stored.1) }
        // A commit without parents is rejected.
        ensures parents { OnOk result (contents.parents ≢ []) }
        // The signer is not called for a commit without parents.
        ensures not_called { contents.parents ≡ []
            → signer_after (λ f. f.0.now) sign_with.exit ≡ option_map (λ f. f.now) sign_with.entry }
        ensures id { IfOk result (λ stored.
            stored.0 ≡ object_id self.old.id_length (commit_content stored.1)) }
        ensures frame { self.new ≡ record self.old { commits = self.new.commits } }
        ensures unchanged { OnErr result (self.new ≡ self.old) }
        ensures error { IfErr result (λ e. (e ≡ BackendError.Memory)
            ⊎ (IsOtherOf SourceKind.Other e × (contents.parents ≡ []))
            ⊎ ((contents.parents ≢ [])
            × FailsToSign S.may_sign (option_map (λ f. f.now) sign_with.entry) contents e)
            ⊎ (IsOtherOf SourceKind.Other e × IsCommitIdTaken self.old
            (IsSigned S.may_sign (option_map (λ f. f.now) sign_with.entry) contents))) }
    {
        match sign_with {
            None => {
                if contents.parents.is_empty() {
                    return Err(no_parents_error(alloc));
                }
                self.insert_commit(alloc, contents)
            }
            Some(signer) => {
                let commit = sign_commit(alloc, contents, signer)?;
                self.insert_commit(alloc, commit)
            }
        }
    }

    /// Always fails with `Unsupported`.
    fn get_copy_records(
        &self,
        alloc: Global,
        _paths: Option<&[RepoPathBuf]>,
        _root: &CommitId,
        _head: &CommitId,
    ) -> BackendResult<Vec<CopyRecord>>
        ensures { IsErrAnd result (λ e. (e ≡ BackendError.Memory) ⊎ (is_unsupported e ≡ true)) }
    {
        Err(unsupported_error(alloc, "copy records are not supported"))
    }
}
