//! The interfaces of object stores and of commit signers.
ghost use Rattle.std.specs.Prelude.{◌≡◌, ℕ, List, [], Some, IsSome, IfOk, IfErr, OnErr, Result, string_bytes};
ghost use Rattle.std.specs.Result.{result_map_both};
ghost use Rattle.jj_backend.specs.Objects.{IsRead, AddsFile, AddsSymlink, AddsCopy, AddsTree, AddsCommit, IsSigned, IsCommitError};
ghost use Rattle.jj_backend.specs.Objects.{file_object, symlink_object, copy_object, tree_object, commit_object};
ghost use Rattle.std.specs.Option.{option_map};
ghost use Rattle.jj_paths.specs.Names.{path_of};

use super::{
    BackendResult, ChangeId, Commit, CommitId, CopyHistory, CopyId, CopyRecord, FileId,
    RelatedCopy, SymlinkId, Tree, TreeId,
};
use crate::signing::{SignError, SignResult};
use jj_paths::repo_path::{RepoPath, RepoPathBuf};
use std::alloc::Global;

/// Signs the content of commits.
pub trait SigningFn {
    ghost use Rattle.std.specs.Prelude.{ℕ, List, Result};
    ghost use Rattle.jj_backend.specs.declared.signing.SignError.{SignError};

    /// Relates the signer and data to the results that `sign` may return for them.
    ghost may_sign: { Self → List ℕ → Result (List ℕ) SignError → Type 0 };

    /// Returns a signature of the data.
    fn sign(&mut self, alloc: Global, data: &[u8]) -> SignResult<Vec<u8>>
        ensures { may_sign self.old «data».now (result_map_both (λ v. v.items) (λ e. e) result) };
}

/// The signer type of an unsigned write, which passes `None::<&mut NoSigner>`. It never signs:
/// `sign` always fails with `InvalidSignatureFormat`.
#[derive(Debug, Drop)]
pub struct NoSigner;

impl SigningFn for NoSigner {
    ghost use Rattle.std.specs.Prelude.{◌≡◌, Err};
    ghost use Rattle.jj_backend.specs.declared.signing.SignError.TheVariants.{InvalidSignatureFormat};

    ghost may_sign = { λ _ _ result. result ≡ Err InvalidSignatureFormat };

    fn sign(&mut self, _alloc: Global, _data: &[u8]) -> SignResult<Vec<u8>> {
        Err(SignError::InvalidSignatureFormat)
    }
}

/// A store of files, symbolic links, copy histories, trees and commits, each addressed by its id.
/// Calls pass the path of an object in the repository, which a backend may use or ignore. A write
/// that fails changes no object.
pub trait Backend {
    ghost use Rattle.std.specs.Prelude.{ℕ, List, Option, Result};
    ghost use Rattle.jj_paths.specs.Paths.{Path};
    ghost use Rattle.jj_backend.specs.Objects.{FixedValues, Object, Objects};
    ghost use Rattle.jj_backend.specs.Trees.{Entries};
    ghost use Rattle.jj_backend.specs.declared.backend.copies.CopyRecord.{CopyRecord};
    ghost use Rattle.jj_backend.specs.declared.backend.copies.RelatedCopy.{RelatedCopy};
    ghost use Rattle.jj_backend.specs.declared.backend.errors.BackendError.{BackendError};

    /// The stored objects, by id.
    ghost objects: { Self → Objects };

    /// The values that no write changes.
    ghost fixed: { Self → FixedValues };

    /// The errors that a read may return besides `ObjectNotFound`.
    ghost may_fail: { Self → BackendError → Type 0 };

    /// Relates a path and a tree id to the results that `read_tree` may return for them.
    ghost may_read_tree: { Self → Path → List ℕ → Result Entries BackendError → Type 0 };

    /// Relates an object to the errors that writing it may return.
    ghost may_fail_to_write: { Self → Object → BackendError → Type 0 };

    /// Relates the path and the object of a write to the results that the write may return, and to
    /// the backend after it: of a file, a symbolic link or a tree.
    ghost may_write: { Self → Path → Object → Result (List ℕ) BackendError → Self → Type 0 };

    /// Relates a copy id to the results that `get_related_copies` may return for it.
    ghost may_relate: { Self → List ℕ → Result (List RelatedCopy) BackendError → Type 0 };

    /// Relates paths, a root and a head to the results that `get_copy_records` may return for them.
    ghost may_list_copies: { Self → Option (List Path) → List ℕ → List ℕ
        → Result (List CopyRecord) BackendError → Type 0 };

    /// Returns the name that identifies the type of the backend.
    fn name(&self) -> &str
        ensures { result.now ≡ (fixed self.now).name };

    /// Returns the length of commit ids in bytes.
    fn commit_id_length(&self) -> usize
        ensures { result ≡ (fixed self.now).commit_id_length };

    /// Returns the length of change ids in bytes.
    fn change_id_length(&self) -> usize
        ensures { result ≡ (fixed self.now).change_id_length };

    /// Returns the id of the root commit, the ancestor of all other commits.
    fn root_commit_id(&self) -> &CommitId
        ensures id { result.now ≡ (fixed self.now).root_commit_id }
        // The store has a commit with this ID.
        ensures commit { IsSome ((objects self.now).commits result.now) };

    /// Returns the change id of the root commit.
    fn root_change_id(&self) -> &ChangeId
        ensures { result.now ≡ (fixed self.now).root_change_id };

    /// Returns the id of the tree without entries.
    fn empty_tree_id(&self) -> &TreeId
        ensures id { result.now ≡ (fixed self.now).empty_tree_id }
        // The store has the tree without entries under this ID.
        ensures tree { (objects self.now).trees result.now ≡ Some [] };

    /// Returns the number of concurrent calls that suits the backend best.
    fn concurrency(&self) -> usize
        ensures { result ≡ (fixed self.now).concurrency };

    /// Reads the content of a file. `ObjectNotFound` means that no file has the id.
    fn read_file(&self, alloc: Global, path: RepoPath<'_>, id: &FileId) -> BackendResult<Vec<u8>>
        // The result is the file that the store has under the ID, `ObjectNotFound` only if it has
        // none, or an error that a read may return.
        ensures { IsRead (may_fail self.now) ((objects self.now).files id.now)
            (λ v. v.items) result };

    /// Stores the content of a file and returns its id.
    fn write_file(
        &mut self,
        alloc: Global,
        path: RepoPath<'_>,
        contents: &[u8],
    ) -> BackendResult<FileId>
        // The file was added under the ID returned, which no different file had; no other object
        // has changed.
        ensures ok { IfOk result (λ id. AddsFile (objects self.old)
            (objects self.new) id contents.now) }
        // After an error all objects are unchanged.
        ensures unchanged { OnErr result (objects self.new ≡ objects self.old) }
        // The values that no write changes, such as the ID of the root commit, are unchanged.
        ensures fixed { fixed self.new ≡ fixed self.old }
        // An error is one that writing this object may return.
        ensures error { IfErr result (may_fail_to_write self.old (file_object contents.now)) }
        // The result and the store after the call are ones that the backend allows for this path.
        ensures at_path { may_write self.old (path_of path.entry) (file_object contents.now) result
            self.new };

    /// Reads the target of a symbolic link. `ObjectNotFound` means that no link has the id.
    fn read_symlink(
        &self,
        alloc: Global,
        path: RepoPath<'_>,
        id: &SymlinkId,
    ) -> BackendResult<String>
        // The result is the link target that the store has under the ID, `ObjectNotFound` only if
        // it has none, or an error that a read may return.
        ensures { IsRead (may_fail self.now)
            ((objects self.now).symlinks id.now) string_bytes result };

    /// Stores the target of a symbolic link and returns its id.
    fn write_symlink(
        &mut self,
        alloc: Global,
        path: RepoPath<'_>,
        target: &str,
    ) -> BackendResult<SymlinkId>
        // The link target was added under the ID returned, which no different link target had; no
        // other object has changed.
        ensures ok { IfOk result (λ id. AddsSymlink (objects self.old)
            (objects self.new) id target.now) }
        // After an error all objects are unchanged.
        ensures unchanged { OnErr result (objects self.new ≡ objects self.old) }
        // The values that no write changes, such as the ID of the root commit, are unchanged.
        ensures fixed { fixed self.new ≡ fixed self.old }
        // An error is one that writing this object may return.
        ensures error { IfErr result (may_fail_to_write self.old (symlink_object target.now)) }
        // The result and the store after the call are ones that the backend allows for this path.
        ensures at_path { may_write self.old (path_of path.entry) (symlink_object target.now) result
            self.new };

    /// Reads a copy history. `ObjectNotFound` means that no copy history has the id.
    fn read_copy(&self, alloc: Global, id: &CopyId) -> BackendResult<CopyHistory>
        // The result is the copy history that the store has under the ID, `ObjectNotFound` only if
        // it has none, or an error that a read may return.
        ensures { IsRead (may_fail self.now) ((objects self.now).copies id.now) (λ c. c) result };

    /// Stores a copy history and returns its id.
    fn write_copy(&mut self, alloc: Global, copy: &CopyHistory) -> BackendResult<CopyId>
        // The copy history was added under the ID returned, which no different copy history had; no
        // other object has changed.
        ensures ok { IfOk result (λ id. AddsCopy (objects self.old)
            (objects self.new) id copy.now) }
        // After an error all objects are unchanged.
        ensures unchanged { OnErr result (objects self.new ≡ objects self.old) }
        // The values that no write changes, such as the ID of the root commit, are unchanged.
        ensures fixed { fixed self.new ≡ fixed self.old }
        // An error is one that writing this object may return.
        ensures error { IfErr result (may_fail_to_write self.old (copy_object copy.now)) };

    /// Returns the copy histories that are related to the one with this id.
    fn get_related_copies(&self, alloc: Global, copy_id: &CopyId) -> BackendResult<Vec<RelatedCopy>>
        // The result is one that the backend allows for this ID.
        ensures { may_relate self.now copy_id.now
            (result_map_both (λ v. v.items) (λ e. e) result) };

    /// Reads the tree of the directory at `path`. `ObjectNotFound` means that no tree has the id.
    fn read_tree(&self, alloc: Global, path: RepoPath<'_>, id: &TreeId) -> BackendResult<Tree>
        // The result is the tree that the store has under the ID, `ObjectNotFound` only if it has
        // none, or an error that a read may return.
        ensures value { IsRead (may_fail self.now)
            ((objects self.now).trees id.now) (λ t. t) result }
        // The result is one that the backend may return for this path and ID.
        ensures at_path { may_read_tree self.now (path_of path.entry) id.now result };

    /// Stores the tree of a directory and returns its id.
    fn write_tree(
        &mut self,
        alloc: Global,
        path: RepoPath<'_>,
        contents: &Tree,
    ) -> BackendResult<TreeId>
        // The tree was added under the ID returned, which no different tree had; no other object
        // has changed.
        ensures ok { IfOk result (λ id. AddsTree (objects self.old)
            (objects self.new) id contents.now) }
        // After an error all objects are unchanged.
        ensures unchanged { OnErr result (objects self.new ≡ objects self.old) }
        // The values that no write changes, such as the ID of the root commit, are unchanged.
        ensures fixed { fixed self.new ≡ fixed self.old }
        // An error is one that writing this object may return.
        ensures error { IfErr result (may_fail_to_write self.old (tree_object contents.now)) }
        // The result and the store after the call are ones that the backend allows for this path.
        ensures at_path { may_write self.old (path_of path.entry) (tree_object contents.now) result
            self.new };

    /// Reads a commit. `ObjectNotFound` means that no commit has the id.
    fn read_commit(&self, alloc: Global, id: &CommitId) -> BackendResult<Commit>
        // The result is the commit that the store has under the ID, `ObjectNotFound` only if it has
        // none, or an error that a read may return.
        ensures { IsRead (may_fail self.now) ((objects self.now).commits id.now) (λ c. c) result };

    /// Stores a commit and returns its id and the commit as stored. With a signer, the stored
    /// commit carries a signature of its content; a failure to sign fails the write.
    fn write_commit<S: SigningFn>(
        &mut self,
        alloc: Global,
        contents: Commit,
        sign_with: Option<&mut S>,
    ) -> BackendResult<(CommitId, Commit)>
        // The commit as stored was added under the ID returned, which no different commit had; no
        // other object has changed.
        ensures ok { IfOk result (λ stored. AddsCommit (objects self.old)
            (objects self.new) stored.0 stored.1) }
        // The stored commit is the commit as it was passed, or with a signature of its content if
        // there is a signer.
        ensures signed { IfOk result (λ stored.
            IsSigned S.may_sign (option_map (λ f. f.now) sign_with.entry) contents stored.1) }
        // After an error all objects are unchanged.
        ensures unchanged { OnErr result (objects self.new ≡ objects self.old) }
        // The values that no write changes, such as the ID of the root commit, are unchanged.
        ensures fixed { fixed self.new ≡ fixed self.old }
        // An error is one that writing the commit or its stored form may return, or that of the
        // signer.
        ensures error { IfErr result (IsCommitError S.may_sign
            (λ commit. may_fail_to_write self.old (commit_object commit))
            (option_map (λ f. f.now) sign_with.entry) contents) };

    /// Returns the copies detected between two commits, only those of `paths` if it is `Some`.
    fn get_copy_records(
        &self,
        alloc: Global,
        paths: Option<&[RepoPathBuf]>,
        root: &CommitId,
        head: &CommitId,
    ) -> BackendResult<Vec<CopyRecord>>
        // The result is one that the backend allows for these paths and commits.
        ensures { may_list_copies self.now (option_map (λ p. p.now) paths.entry) root.now head.now
            (result_map_both (λ v. v.items) (λ e. e) result) };
}
