//! An iterator over the results of reads of commits, which it stores in a queue.
ghost use Rattle.jj_store_walks.specs.ReadResults.{AreReads, reads_left};

use crate::read_commit::{ReadCommit, read};
use jj_backend::backend::{Backend, BackendError, BackendResult, CommitId};
use std::alloc::Global;
use std::collections::VecDeque;

/// Iterates over the results of reads; the last is `Memory` if memory ran out before all were
/// stored.
#[derive(Drop)]
pub struct Reads {
    results: VecDeque<BackendResult<ReadCommit>>,
    ran_out: bool,
}

impl Iterator for Reads {
    type Item = BackendResult<ReadCommit>;

    ghost use Rattle.std.specs.Iterator.{YieldsFirst, item_count};
    ghost use Rattle.jj_store_walks.specs.ReadResults.{reads_left};

    ghost next_gives = { YieldsFirst reads_left };

    ghost remaining = { item_count reads_left };

    fn next(&mut self) -> Option<BackendResult<ReadCommit>> {
        if let Some(result) = self.results.pop_front() {
            return Some(result);
        }
        if self.ran_out {
            self.ran_out = false;
            return Some(Err(BackendError::Memory));
        }
        None
    }
}

// Reads the commits of these ids, in their order.
pub(crate) fn read_each<B: Backend>(alloc: Global, store: &B, ids: &[CommitId]) -> Reads
    ensures { AreReads (B.may_fail store.now) (B.objects store.now) ids.now (reads_left result) }
{
    let mut results = VecDeque::new(alloc);
    for id in ids {
        match results.push_back(read(alloc, store, id)) {
            Ok(()) => {}
            Err(_) => {
                return Reads {
                    results,
                    ran_out: true,
                };
            }
        }
    }
    Reads {
        results,
        ran_out: false,
    }
}
