//! Test of writing more files than there are ids of one byte.
use jj_backend::backend::{Backend, BackendError, BackendResult, FileId};
use jj_content_tests::retry::holds;
use jj_paths::repo_path::RepoPath;
use jj_trees::memory_backend::MemoryBackend;
use std::alloc::Global;
use std::process::Abort;

// A backend with ids of one byte, and the ids of the files that were written, with the number that
// each contains.
#[derive(Drop)]
struct OneByteIds {
    backend: MemoryBackend,
    files: Vec<(FileId, u16)>,
    failures: u16,
}

impl OneByteIds {
    // Writes the file of a number, or counts the failure if the id is taken.
    fn write(&mut self, alloc: Global, number: u16) -> BackendResult<()> {
        let contents = number.to_le_bytes();
        match self.backend.write_file(alloc, RepoPath::root(), &contents) {
            Ok(id) => self.files.push((id, number))?,
            Err(BackendError::Other(_source)) => self.failures = self.failures.saturating_add(1),
            Err(error) => return Err(error),
        }
        Ok(())
    }

    fn contains(&self, alloc: Global, id: &FileId, number: u16) -> BackendResult<bool> {
        let contents = self.backend.read_file(alloc, RepoPath::root(), id)?;
        Ok(contents.as_slice() == number.to_le_bytes().as_slice())
    }

    // Returns whether each file still contains its number.
    fn are_kept(&self, alloc: Global) -> BackendResult<bool> {
        for (id, number) in &self.files {
            if !self.contains(alloc, id, *number)? {
                return Ok(false);
            }
        }
        Ok(true)
    }

    // Writes the files of the numbers below `count` and, after each write, reads all files written
    // so far.
    fn write_all(&mut self, alloc: Global, count: u16) -> BackendResult<bool> {
        for number in 0..count {
            self.write(alloc, number)?;
            if !self.are_kept(alloc)? {
                return Ok(false);
            }
        }
        Ok(true)
    }
}

fn new_backend(alloc: Global) -> BackendResult<OneByteIds> {
    Ok(OneByteIds {
        backend: MemoryBackend::with_id_length(alloc, 1)?,
        files: Vec::new(alloc),
        failures: 0,
    })
}

fn some_writes_fail(alloc: Global) -> BackendResult<bool> {
    let mut ids = new_backend(alloc)?;
    Ok(ids.write_all(alloc, 257)? && ids.failures > 0)
}

#[test]
fn some_of_257_writes_fail(rt: HostRuntime) {
    assert!(rt; holds(&rt, some_writes_fail));
}
