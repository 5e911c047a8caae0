//! A file system in memory as a log of edits, with the outcomes of a crash: it proves that the
//! laws of `CrashSafe` are consistent, and its calls can stop as those of a killed process.
ghost use Rattle.std.specs.Prelude.{◌≡◌, ◌≢◌, true, [], Some, None, IfOk, MatchOption, OnOk, OnErr, cond};
ghost use Rattle.jj_temp_files_tests.specs.DiskLaws.{contents, created_at, creates, left_since, may_leave, moment_of, only_now, removes, renames, syncs, writes, written_to};
ghost use Rattle.jj_temp_files_tests.specs.Disk.{Adds, Copies, HaveSameEdits, MayCreate, MayRemove, MayRename, MaySync, MayWrite, contents_of, file_after, is_synced_at};

use jj_temp_files::{CrashSafe, FileAccess, FileStatus};
use std::alloc::{AllocError, Global};
use std::io;
use std::io::ErrorKind;

/// A change of the file at a path. Its bytes count if it is there.
#[derive(Debug, Drop)]
pub struct Edit {
    pub path: String,
    pub bytes: Vec<u8>,
    pub is_there: bool,
    pub is_synced: bool,
}

/// An open file: the path at which it was created, and the bytes written to it.
#[derive(Debug, Drop)]
pub struct MemoryFile {
    pub path: String,
    pub written: Vec<u8>,
}

/// All edits, the newest first. After so many calls, the others fail.
#[derive(Debug, Drop)]
pub struct MemoryDisk {
    pub alloc: Global,
    pub edits: Vec<Edit>,
    pub calls_left: u32,
}

impl MemoryDisk {
    /// Makes a file system without files, whose calls succeed.
    pub fn new(alloc: Global) -> MemoryDisk
        ensures { result.edits.items ≡ [] }
    {
        MemoryDisk {
            alloc,
            edits: Vec::new(alloc),
            calls_left: u32::MAX,
        }
    }

    /// Returns the newest edit of the file at a path.
    pub fn newest(&self, path: &str) -> Option<&Edit>
        ensures { MatchOption result
            ((contents_of self.now.edits.items path.now ≡ None)
            × (is_synced_at self.now.edits.items path.now ≡ true))
            (λ edit. (contents_of self.now.edits.items path.now ≡ file_after edit.now)
            × (is_synced_at self.now.edits.items path.now ≡ edit.now.is_synced)) }
    {
        newest_of(self.edits.as_slice(), path)
    }

    // Returns the bytes of the file at a path, and whether they are synced.
    fn file(&self, path: &str) -> Option<(&[u8], bool)>
        ensures { MatchOption result (contents_of self.now.edits.items path.now ≡ None)
            (λ file. (contents_of self.now.edits.items path.now ≡ Some file.0.now)
            × (is_synced_at self.now.edits.items path.now ≡ file.1)) }
    {
        match self.newest(path) {
            Some(edit) if edit.is_there => Some((edit.bytes.as_slice(), edit.is_synced)),
            _ => None,
        }
    }

    fn count_call(&mut self) -> io::Result<()>
        ensures { HaveSameEdits self.old self.new }
    {
        match self.calls_left.checked_sub(1) {
            Some(left) => {
                self.calls_left = left;
                Ok(())
            }
            None => Err(io::Error::from(ErrorKind::Other)),
        }
    }

    fn add(
        &mut self,
        path: &str,
        bytes: &[u8],
        is_there: bool,
        is_synced: bool,
    ) -> Result<(), AllocError>
        ensures ok { OnOk result (Adds self.old.edits.items self.new.edits.items path.now
            (cond is_there (Some bytes.now) None) is_synced) }
        ensures err { OnErr result (HaveSameEdits self.old self.new) }
    {
        let edit = Edit {
            path: String::from_str(self.alloc, path)?,
            bytes: copy_bytes(self.alloc, bytes)?,
            is_there,
            is_synced,
        };
        self.edits.insert(0, edit)?;
        Ok(())
    }

    fn copy_file(&mut self, from: &str, to: &str) -> io::Result<()>
        ensures ok { OnOk result
            (Copies self.old.edits.items from.now to.now self.new.edits.items) }
        ensures err { OnErr result (HaveSameEdits self.old self.new) }
    {
        let (bytes, is_synced) = match self.file(from) {
            Some((bytes, is_synced)) => (copy_bytes(self.alloc, bytes)?, is_synced),
            None => return Err(io::Error::from(ErrorKind::NotFound)),
        };
        self.add(to, bytes.as_slice(), true, is_synced)?;
        Ok(())
    }

    fn move_file(&mut self, from: &str, to: &str) -> io::Result<()>
        requires { from.now ≢ to.now }
        ensures { MayRename self.old from.now to.now result self.new }
    {
        self.copy_file(from, to)?;
        self.add(from, &[], false, true)?;
        Ok(())
    }
}

fn copy_bytes(alloc: Global, bytes: &[u8]) -> Result<Vec<u8>, AllocError>
    ensures { IfOk result (λ copy. copy.items ≡ bytes.now) }
{
    bytes.to_vec(alloc)
}

fn newest_of<'a>(edits: &'a [Edit], path: &str) -> Option<&'a Edit>
    ensures { MatchOption result
        ((contents_of edits.now path.now ≡ None) × (is_synced_at edits.now path.now ≡ true))
        (λ edit. (contents_of edits.now path.now ≡ file_after edit.now)
        × (is_synced_at edits.now path.now ≡ edit.now.is_synced)) }
{
    let mut rest = edits;
    while let [edit, older @ ..] = rest {
        if edit.path.as_str() == path {
            return Some(edit);
        }
        rest = older;
    }
    None
}

impl FileAccess for MemoryDisk {
    type File = MemoryFile;

    ghost may_create = { MayCreate };

    ghost may_write = { MayWrite };

    ghost may_sync = { MaySync };

    ghost may_rename = { MayRename };

    ghost may_remove = { MayRemove };

    ghost may_link = { λ old _ _ _ new. HaveSameEdits old new };

    ghost may_set_mode = { λ old _ _ _ new. HaveSameEdits old new };

    ghost may_stat = { λ _ _ _. Unit {0} };

    ghost may_stat_link = { λ _ _ _. Unit {0} };

    fn create_new(&mut self, path: &str) -> io::Result<MemoryFile> {
        self.count_call()?;
        if self.file(path).is_some() {
            return Err(io::Error::from(ErrorKind::AlreadyExists));
        }
        let file = MemoryFile {
            path: String::from_str(self.alloc, path)?,
            written: Vec::new(self.alloc),
        };
        self.add(path, &[], true, false)?;
        Ok(file)
    }

    // Writes at most two bytes.
    fn write(&mut self, file: &mut MemoryFile, piece: &[u8]) -> io::Result<usize> {
        self.count_call()?;
        let count = piece.len().min(2);
        let mut written = copy_bytes(self.alloc, file.written.as_slice())?;
        written.extend_from_slice(&piece[..count])?;
        self.add(file.path.as_str(), written.as_slice(), true, false)?;
        file.written = written;
        Ok(count)
    }

    fn sync_data(&mut self, file: &MemoryFile) -> io::Result<()> {
        self.count_call()?;
        match self.file(file.path.as_str()) {
            Some((bytes, _)) if bytes == file.written.as_slice() => {}
            _ => return Err(io::Error::from(ErrorKind::NotFound)),
        }
        self.add(file.path.as_str(), file.written.as_slice(), true, true)?;
        Ok(())
    }

    fn rename(&mut self, from: &str, to: &str) -> io::Result<()> {
        self.count_call()?;
        if from == to {
            return Err(io::Error::from(ErrorKind::InvalidInput));
        }
        self.move_file(from, to)
    }

    fn remove_file(&mut self, path: &str) -> io::Result<()> {
        self.count_call()?;
        if self.file(path).is_none() {
            return Err(io::Error::from(ErrorKind::NotFound));
        }
        self.add(path, &[], false, true)?;
        Ok(())
    }

    fn symlink(&mut self, _original: &str, _link: &str) -> io::Result<()> {
        Err(io::Error::from(ErrorKind::Unsupported))
    }

    fn set_mode(&mut self, _file: &MemoryFile, _mode: u32) -> io::Result<()> {
        Err(io::Error::from(ErrorKind::Unsupported))
    }

    fn status(&self, _file: &MemoryFile) -> io::Result<FileStatus> {
        Err(io::Error::from(ErrorKind::Unsupported))
    }

    fn link_status(&self, _path: &str) -> io::Result<FileStatus> {
        Err(io::Error::from(ErrorKind::Unsupported))
    }
}

impl CrashSafe for MemoryDisk {
    ghost contents = { contents };

    ghost may_leave = { may_leave };

    ghost moment = { moment_of };

    ghost left_since = { left_since };

    ghost created_at = { created_at };

    ghost written = { written_to };

    ghost only_now = { only_now };

    ghost creates = { creates };

    ghost writes = { writes };

    ghost syncs = { syncs };

    ghost renames = { renames };

    ghost removes = { removes };
}
