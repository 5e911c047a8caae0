//! A backend of one's own: it passes calls on to another backend, and some of its reads fail.
#![tactic(auto)]

ghost use Rattle.std.specs.Prelude.{IfErr};
ghost use Rattle.failing_reads.specs.ReadFailures.{IsReadFailure};

use jj_backend::backend::{
    Backend, BackendError, BackendResult, ChangeId, Commit, CommitId, CopyHistory, CopyId,
    CopyRecord, FileId, RelatedCopy, SigningFn, SymlinkId, Tree, TreeId,
};
use jj_files::file_util::{SourceError, SourceKind};
use jj_paths::repo_path::{RepoPath, RepoPathBuf};
use std::alloc::Global;
use std::cell::Cell;

/// A backend whose reads of objects fail now and then: after `between` reads, which are the inner
/// backend's, the next one fails, and so on. All other calls are the inner backend's.
#[derive(Drop)]
pub struct FailingReads<B> {
    inner: B,
    between: u32,
    left: Cell<u32>,
}

fn read_error(alloc: Global) -> BackendError
    ensures { IsReadFailure result }
{
    match String::from_str(alloc, "the read failed") {
        Ok(message) => BackendError::Other(SourceError {
            kind: SourceKind::Io,
            message,
        }),
        Err(_) => BackendError::Memory,
    }
}

impl<B: Backend> FailingReads<B> {
    /// Wraps a backend.
    pub fn new(inner: B, between: u32) -> Self {
        FailingReads {
            inner,
            between,
            left: Cell::new(between),
        }
    }

    // Fails if no read is left before the next failure.
    fn count_read(&self, alloc: Global) -> BackendResult<()>
        ensures { IfErr result IsReadFailure }
    {
        match self.left.get() {
            0 => {
                self.left.set(self.between);
                Err(read_error(alloc))
            }
            left => {
                self.left.set(left - 1);
                Ok(())
            }
        }
    }
}

impl<B: Backend> Backend for FailingReads<B> {
    ghost use Rattle.std.specs.Prelude.{◌⊎◌, codes, IsErrAnd};
    ghost use Rattle.failing_reads.specs.ReadFailures.{IsReadFailure};

    ghost objects = { λ store. B.objects store.inner };

    ghost fixed = { λ store. record (B.fixed store.inner) { name = codes "failing reads" } };

    ghost may_fail = { λ store e. B.may_fail store.inner e ⊎ IsReadFailure e };

    ghost may_read_tree = { λ store path id r.
        B.may_read_tree store.inner path id r ⊎ IsErrAnd r IsReadFailure };

    ghost may_fail_to_write = { λ store object e. B.may_fail_to_write store.inner object e };

    ghost may_write = { λ store path object r after.
        B.may_write store.inner path object r after.inner };

    ghost may_relate = { λ store id r. B.may_relate store.inner id r };

    ghost may_list_copies = { λ store paths root head r.
        B.may_list_copies store.inner paths root head r };

    fn name(&self) -> &str {
        "failing reads"
    }

    fn commit_id_length(&self) -> usize {
        self.inner.commit_id_length()
    }

    fn change_id_length(&self) -> usize {
        self.inner.change_id_length()
    }

    fn root_commit_id(&self) -> &CommitId {
        self.inner.root_commit_id()
    }

    fn root_change_id(&self) -> &ChangeId {
        self.inner.root_change_id()
    }

    fn empty_tree_id(&self) -> &TreeId {
        self.inner.empty_tree_id()
    }

    fn concurrency(&self) -> usize {
        self.inner.concurrency()
    }

    fn read_file(&self, alloc: Global, path: RepoPath<'_>, id: &FileId) -> BackendResult<Vec<u8>> {
        self.count_read(alloc)?;
        self.inner.read_file(alloc, path, id)
    }

    fn write_file(
        &mut self,
        alloc: Global,
        path: RepoPath<'_>,
        contents: &[u8],
    ) -> BackendResult<FileId> {
        self.inner.write_file(alloc, path, contents)
    }

    fn read_symlink(
        &self,
        alloc: Global,
        path: RepoPath<'_>,
        id: &SymlinkId,
    ) -> BackendResult<String> {
        self.count_read(alloc)?;
        self.inner.read_symlink(alloc, path, id)
    }

    fn write_symlink(
        &mut self,
        alloc: Global,
        path: RepoPath<'_>,
        target: &str,
    ) -> BackendResult<SymlinkId> {
        self.inner.write_symlink(alloc, path, target)
    }

    fn read_copy(&self, alloc: Global, id: &CopyId) -> BackendResult<CopyHistory> {
        self.count_read(alloc)?;
        self.inner.read_copy(alloc, id)
    }

    fn write_copy(&mut self, alloc: Global, copy: &CopyHistory) -> BackendResult<CopyId> {
        self.inner.write_copy(alloc, copy)
    }

    fn get_related_copies(
        &self,
        alloc: Global,
        copy_id: &CopyId,
    ) -> BackendResult<Vec<RelatedCopy>> {
        self.inner.get_related_copies(alloc, copy_id)
    }

    fn read_tree(&self, alloc: Global, path: RepoPath<'_>, id: &TreeId) -> BackendResult<Tree> {
        self.count_read(alloc)?;
        self.inner.read_tree(alloc, path, id)
    }

    fn write_tree(
        &mut self,
        alloc: Global,
        path: RepoPath<'_>,
        contents: &Tree,
    ) -> BackendResult<TreeId> {
        self.inner.write_tree(alloc, path, contents)
    }

    fn read_commit(&self, alloc: Global, id: &CommitId) -> BackendResult<Commit> {
        self.count_read(alloc)?;
        self.inner.read_commit(alloc, id)
    }

    fn write_commit<S: SigningFn>(
        &mut self,
        alloc: Global,
        contents: Commit,
        sign_with: Option<&mut S>,
    ) -> BackendResult<(CommitId, Commit)> {
        self.inner.write_commit(alloc, contents, sign_with)
    }

    fn get_copy_records(
        &self,
        alloc: Global,
        paths: Option<&[RepoPathBuf]>,
        root: &CommitId,
        head: &CommitId,
    ) -> BackendResult<Vec<CopyRecord>> {
        self.inner.get_copy_records(alloc, paths, root, head)
    }
}
