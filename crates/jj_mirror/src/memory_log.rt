//! A log of written objects in memory.
ghost use Rattle.std.specs.Prelude.{◌≡◌, ◌++◌, [], ◌∷◌, List, OnOk, OnErr, IfErr};
ghost use Rattle.jj_backend.specs.declared.backend.errors.BackendError.TheVariants.{Memory};
ghost use Rattle.jj_mirror.specs.Entries.{LogEntryValue};

use crate::object_log::{LogEntry, ObjectKind, ObjectLog};
use jj_backend::backend::BackendResult;
use std::alloc::Global;
use std::marker::Model;

/// A list of entries, which fails only if memory runs out.
#[derive(Debug, Drop)]
pub struct MemoryLog {
    entries: Vec<LogEntry>,
}

impl Model for MemoryLog {
    ghost Value = { List LogEntryValue };

    ghost view = { λ log. log.entries.items };
}

impl MemoryLog {
    /// Creates a log without entries. Does not allocate.
    pub fn new(alloc: Global) -> Self
        ensures { result ≡ [] }
    {
        MemoryLog {
            entries: Vec::new(alloc),
        }
    }

    /// Returns the entries in the order in which they were appended.
    pub fn entries(&self) -> &[LogEntry]
        ensures { result.now ≡ self.now }
    {
        self.entries.as_slice()
    }
}

impl ObjectLog for MemoryLog {
    ghost use Rattle.std.specs.Prelude.{◌≡◌};
    ghost use Rattle.jj_backend.specs.declared.backend.errors.BackendError.TheVariants.{Memory};

    ghost contains = { λ log entries. log ≡ entries };

    ghost may_fail = { λ _ entry e. e ≡ Memory };

    fn append(
        &mut self,
        alloc: Global,
        kind: ObjectKind,
        id: &[u8],
        bytes: &[u8],
    ) -> BackendResult<()>
        ensures ok { OnOk result (self.new
            ≡ self.old ++ record { kind = kind; id = id.now; bytes = bytes.now } ∷ []) }
        ensures unchanged { OnErr result (self.new ≡ self.old) }
        ensures error { IfErr result (λ e. e ≡ Memory) }
    {
        let id = Vec::from_slice(alloc, id)?;
        let bytes = Vec::from_slice(alloc, bytes)?;
        self.entries.push(LogEntry { kind, id, bytes })?;
        Ok(())
    }
}
