//! The file system of a process.
ghost use Rattle.std.specs.Prelude.{◌≡◌};
ghost use Rattle.jj_temp_files.specs.WrappedFiles.{wrapped_files};

use crate::{FileAccess, FileStatus};
use std::fs::{Files, Metadata, OpenFile, OpenOptions, Permissions};
use std::io::Write;
use std::os::unix::fs::{MetadataExt, OpenOptionsExt, PermissionsExt};
use std::{fs, io};

// Only the owner reads and writes a temporary file.
const PRIVATE_MODE: u32 = 0o600;

/// Passes each call of [`FileAccess`] on to the file system of a process, or to another
/// implementation of `Files`. Its relations allow everything: no contract speaks of a real file
/// system.
#[derive(Drop)]
pub struct SystemFiles<F> {
    files: F,
}

impl<F> SystemFiles<F> {
    /// Wraps a file system.
    pub fn new(files: F) -> SystemFiles<F>
        ensures { wrapped_files result ≡ files }
    {
        SystemFiles { files }
    }
}

fn status_of(metadata: &Metadata) -> FileStatus {
    FileStatus {
        device: metadata.dev(),
        inode: metadata.ino(),
        mode: metadata.mode(),
    }
}

impl<F: Files> FileAccess for SystemFiles<F> {
    type File = F::File;

    ghost may_create = { λ _ _ _ _. Unit {0} };

    ghost may_write = { λ _ _ _ _ _ _. Unit {0} };

    ghost may_sync = { λ _ _ _ _. Unit {0} };

    ghost may_rename = { λ _ _ _ _ _. Unit {0} };

    ghost may_remove = { λ _ _ _ _. Unit {0} };

    ghost may_link = { λ _ _ _ _ _. Unit {0} };

    ghost may_set_mode = { λ _ _ _ _ _. Unit {0} };

    ghost may_stat = { λ _ _ _. Unit {0} };

    ghost may_stat_link = { λ _ _ _. Unit {0} };

    fn create_new(&mut self, path: &str) -> io::Result<F::File> {
        let mut options = OpenOptions::new();
        options
            .read(true)
            .write(true)
            .create_new(true)
            .mode(PRIVATE_MODE);
        options.open(&self.files, path)
    }

    fn write(&mut self, file: &mut F::File, piece: &[u8]) -> io::Result<usize> {
        file.write(piece)
    }

    fn sync_data(&mut self, file: &F::File) -> io::Result<()> {
        file.sync_data()
    }

    fn rename(&mut self, from: &str, to: &str) -> io::Result<()> {
        self.files.rename(from, to)
    }

    fn remove_file(&mut self, path: &str) -> io::Result<()> {
        self.files.remove_file(path)
    }

    fn symlink(&mut self, original: &str, link: &str) -> io::Result<()> {
        self.files.symlink(original, link)
    }

    fn set_mode(&mut self, file: &F::File, mode: u32) -> io::Result<()> {
        file.set_permissions(Permissions::from_mode(mode))
    }

    fn status(&self, file: &F::File) -> io::Result<FileStatus> {
        Ok(status_of(&file.metadata()?))
    }

    fn link_status(&self, path: &str) -> io::Result<FileStatus> {
        Ok(status_of(&self.files.symlink_metadata(path)?))
    }
}
