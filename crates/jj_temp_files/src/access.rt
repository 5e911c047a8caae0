//! The file system calls of this crate, as a trait whose contracts are relations.
ghost use Rattle.std.specs.Prelude.{ℕ, List, Result};
ghost use Rattle.std.specs.Io.{WritesAtMost};
ghost use Rattle.std.specs.declared.io.Error.{Error};
ghost use Rattle.jj_temp_files.specs.declared.access.FileStatus.{FileStatus};

use std::io;

/// The status of a file.
#[derive(Clone, Copy, Debug, PartialEq, Eq)]
pub struct FileStatus {
    /// The device that contains the file.
    pub device: u64,
    /// The number of the file on its device.
    pub inode: u64,
    /// The type and the permission bits, as in `st_mode`.
    pub mode: u32,
}

/// A file system. An implementation chooses the relations of its calls: which results and which
/// states after them are possible.
pub trait FileAccess {
    /// An open file, which is closed where it is dropped.
    type File: Drop;

    /// Creating a file: state before, path, result, state after.
    ghost may_create: { Self → List ℕ → Result Self.File Error → Self → Type 0 };

    /// Writing to an open file: states before, bytes, result, states after.
    ghost may_write: { Self → Self.File → List ℕ → Result ℕ Error → Self → Self.File → Type 0 };

    /// Writing the data of an open file to its device.
    ghost may_sync: { Self → Self.File → Result (Unit {0}) Error → Self → Type 0 };

    /// Renaming a path to another one.
    ghost may_rename: { Self → List ℕ → List ℕ → Result (Unit {0}) Error → Self → Type 0 };

    /// Removing a file.
    ghost may_remove: { Self → List ℕ → Result (Unit {0}) Error → Self → Type 0 };

    /// Creating a symbolic link: state before, target, path of the link, result, state after.
    ghost may_link: { Self → List ℕ → List ℕ → Result (Unit {0}) Error → Self → Type 0 };

    /// Changing the permission bits of an open file.
    ghost may_set_mode: { Self → Self.File → ℕ → Result (Unit {0}) Error → Self → Type 0 };

    /// Reading the status of an open file.
    ghost may_stat: { Self → Self.File → Result FileStatus Error → Type 0 };

    /// Reading the status of a path, of the link itself where the path is a symbolic link.
    ghost may_stat_link: { Self → List ℕ → Result FileStatus Error → Type 0 };

    /// Creates a file and opens it for reading and writing. Fails with `AlreadyExists` if there is
    /// anything at the path, also a link that leads nowhere.
    fn create_new(&mut self, path: &str) -> io::Result<Self::File>
        ensures { may_create self.old path.now result self.new };

    /// Writes a prefix of `piece` at the end of an open file, and returns its length.
    fn write(&mut self, file: &mut Self::File, piece: &[u8]) -> io::Result<usize>
        ensures bound { WritesAtMost result piece.now }
        ensures written { may_write self.old file.old piece.now result self.new file.new };

    /// Writes the data of an open file to its device, and waits until it is there.
    fn sync_data(&mut self, file: &Self::File) -> io::Result<()>
        ensures { may_sync self.old file.now result self.new };

    /// Renames a path in one step. Replaces a file at the new path.
    fn rename(&mut self, from: &str, to: &str) -> io::Result<()>
        ensures { may_rename self.old from.now to.now result self.new };

    /// Removes a file or a link.
    fn remove_file(&mut self, path: &str) -> io::Result<()>
        ensures { may_remove self.old path.now result self.new };

    /// Creates a symbolic link at `link` that leads to `original`.
    fn symlink(&mut self, original: &str, link: &str) -> io::Result<()>
        ensures { may_link self.old original.now link.now result self.new };

    /// Sets the permission bits of an open file.
    fn set_mode(&mut self, file: &Self::File, mode: u32) -> io::Result<()>
        ensures { may_set_mode self.old file.now mode result self.new };

    /// Returns the status of an open file.
    fn status(&self, file: &Self::File) -> io::Result<FileStatus>
        ensures { may_stat self.now file.now result };

    /// Returns the status of a path, of the link itself where the path is a symbolic link.
    fn link_status(&self, path: &str) -> io::Result<FileStatus>
        ensures { may_stat_link self.now path.now result };
}
