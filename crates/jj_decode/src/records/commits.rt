//! Decoding of commits and copy histories.
ghost use Rattle.std.specs.Prelude.{◌≡◌, ℕ, ◌<◌, ◌≤◌, List, length, ◌++◌, IfOk, IfErr};
ghost use Rattle.jj_decode.specs.Contents.{AreContents};
ghost use Rattle.jj_decode.specs.Decoding.{IsContentAt, IsMalformedAt};
ghost use Rattle.jj_decode.specs.RecordContents.{CommitContents, commit_contents, CopyHistoryContents, copy_history_contents};

use crate::error::DecodeError;
use crate::read_content::{ReadContent, read_both};
use jj_backend::backend::{
    ChangeId, Commit, CommitId, CopyHistory, CopyId, SecureSig, Signature, TreeId,
};
use jj_merges::merge::Merge;
use jj_paths::repo_path::RepoPathBuf;
use std::alloc::Global;

impl ReadContent for Commit {
    ghost is_content = { CommitContents };

    ghost errors = { ⟦<((Vec<CommitId>, (Vec<CommitId>, Merge<TreeId>)),
        ((Merge<String>, (ChangeId, String)), (Signature, (Signature, Option<SecureSig>))))
        as ReadContent>⟧.errors };

    ghost contents = { commit_contents };

    fn read(alloc: Global, bytes: &[u8], start: usize) -> Result<(Self, usize), DecodeError> {
        let ((origin, (message, signers)), end) = read_both(alloc, bytes, start)?;
        let (parents, (predecessors, root_tree)) = origin;
        let (conflict_labels, (change_id, description)) = message;
        let (author, (committer, secure_sig)) = signers;
        let commit = Commit {
            parents,
            predecessors,
            root_tree,
            conflict_labels,
            change_id,
            description,
            author,
            committer,
            secure_sig,
        };
        Ok((commit, end))
    }
}

impl ReadContent for CopyHistory {
    ghost is_content = { CopyHistoryContents };

    ghost errors = { ⟦<(RepoPathBuf, (Vec<CopyId>, Vec<u8>)) as ReadContent>⟧.errors };

    ghost contents = { copy_history_contents };

    fn read(alloc: Global, bytes: &[u8], start: usize) -> Result<(Self, usize), DecodeError> {
        let ((current_path, (parents, salt)), end) = read_both(alloc, bytes, start)?;
        let history = CopyHistory {
            current_path,
            parents,
            salt,
        };
        Ok((history, end))
    }
}
