//! The interface of a log of written objects, and its entries.
ghost use Rattle.std.specs.Prelude.{◌≡◌, ◌≢◌, ◌↔◌, IsTrue, OnOk, OnErr, IfErr, MatchOption};
ghost use Rattle.jj_mirror.specs.Entries.{LogEntryValue, digest_of, kind_name};
ghost use Rattle.jj_mirror.specs.declared.object_log.ObjectKind.{ObjectKind};
ghost use Rattle.jj_mirror.specs.Logs.{Appends, Keeps};

use crate::digests::{digest, file_digest, string_digest};
use jj_backend::backend::BackendResult;
use std::alloc::Global;
use std::marker::Model;

/// The kind of an object.
#[derive(Clone, Copy, Debug, PartialEq, Eq)]
pub enum ObjectKind {
    File,
    Symlink,
    Copy,
    Tree,
    Commit,
}

impl ObjectKind {
    /// Returns the name of the kind, as `ObjectId::object_type` returns it for the id.
    pub fn name(self) -> &'static str
        ensures { result.now ≡ kind_name self }
    {
        match self {
            ObjectKind::File => "file",
            ObjectKind::Symlink => "symlink",
            ObjectKind::Copy => "copy",
            ObjectKind::Tree => "tree",
            ObjectKind::Commit => "commit",
        }
    }

    /// Returns the kind with this name.
    pub fn from_name(name: &str) -> Option<ObjectKind>
        ensures { MatchOption result ((kind : ObjectKind) → kind_name kind ≢ name.now)
            (λ kind. kind_name kind ≡ name.now) }
    {
        match name {
            "file" => Some(ObjectKind::File),
            "symlink" => Some(ObjectKind::Symlink),
            "copy" => Some(ObjectKind::Copy),
            "tree" => Some(ObjectKind::Tree),
            "commit" => Some(ObjectKind::Commit),
            _ => None,
        }
    }
}

/// An entry of a log: the kind of an object, the BLAKE2b-512 digest of its content in 64 bytes, and
/// its bytes. These are the bytes of a file or of a symbolic link's target, and the content of any
/// other object.
#[derive(Debug, Drop)]
pub struct LogEntry {
    pub kind: ObjectKind,
    pub id: Vec<u8>,
    pub bytes: Vec<u8>,
}

impl Model for LogEntry {
    ghost Value = { LogEntryValue };

    ghost view = { λ entry. record {
      kind = entry.kind;
      id = entry.id.items;
      bytes = entry.bytes.items;
    } };
}

impl LogEntry {
    /// Returns whether the id is the digest of the object.
    pub fn has_digest(&self) -> bool
        ensures { IsTrue result ↔ (digest_of self.now.kind self.now.bytes ≡ self.now.id) }
    {
        let digest = match self.kind {
            ObjectKind::File => file_digest(&self.bytes),
            ObjectKind::Symlink => string_digest(&self.bytes),
            ObjectKind::Copy | ObjectKind::Tree | ObjectKind::Commit => digest(&self.bytes),
        };
        digest.as_slice() == self.id.as_slice()
    }
}

/// A log of written objects.
pub trait ObjectLog {
    ghost use Rattle.std.specs.Prelude.{List};
    ghost use Rattle.jj_backend.specs.declared.backend.errors.BackendError.{BackendError};
    ghost use Rattle.jj_mirror.specs.Entries.{LogEntryValue};

    /// Relates the log to its entries, in the order in which they were appended.
    ghost contains: { Self → List LogEntryValue → Type 0 };

    /// Relates an entry to the errors that appending it may return.
    ghost may_fail: { Self → LogEntryValue → BackendError → Type 0 };

    /// Appends an entry. A failed call appends nothing.
    fn append(
        &mut self,
        alloc: Global,
        kind: ObjectKind,
        id: &[u8],
        bytes: &[u8],
    ) -> BackendResult<()>
        // After a success the log contains its old entries and then this one.
        ensures ok { OnOk result (Appends contains self.old self.new
            (record { kind = kind; id = id.now; bytes = bytes.now })) }
        // After an error it contains its old entries.
        ensures unchanged { OnErr result (Keeps contains self.old self.new) }
        // An error is one that appending this entry may return.
        ensures error { IfErr result (may_fail self.old
            (record { kind = kind; id = id.now; bytes = bytes.now })) };
}
