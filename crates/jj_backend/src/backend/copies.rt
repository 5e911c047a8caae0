//! Records of file copies.
ghost use Rattle.jj_backend.specs.Records.{CopyHistoryValue};

use jj_ids::object_id::{CommitId, CopyId, FileId};
use jj_paths::repo_path::RepoPathBuf;
use std::marker::Model;

/// A copy detected between two commits: the file `target` of `target_commit` was copied from
/// `source` of `source_commit`.
#[derive(Debug, PartialEq, Eq, Drop)]
pub struct CopyRecord {
    pub target: RepoPathBuf,
    pub target_commit: CommitId,
    pub source: RepoPathBuf,
    pub source_file: FileId,
    pub source_commit: CommitId,
}

/// The copy history of a file: its path, the copy ids of the files it was copied from, and a salt
/// that distinguishes histories with equal path and parents.
#[derive(Debug, Drop)]
pub struct CopyHistory {
    pub current_path: RepoPathBuf,
    pub parents: Vec<CopyId>,
    pub salt: Vec<u8>,
}

impl Model for CopyHistory {
    ghost Value = { CopyHistoryValue };

    ghost view = { λ h. record {
      current_path = h.current_path;
      parents = h.parents.items;
      salt = h.salt.items;
    } };
}

/// A copy id and its history, returned by `Backend::get_related_copies`.
#[derive(Debug, PartialEq, Eq, Drop)]
pub struct RelatedCopy {
    pub id: CopyId,
    pub history: CopyHistory,
}
