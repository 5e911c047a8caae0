//! The identity of a file: its device and its number there.
ghost use Rattle.std.specs.Prelude.{Result};
ghost use Rattle.std.specs.Result.{result_map_both};
ghost use Rattle.jj_temp_files.specs.Identities.{IsIdentityOf, IsIdentityAt};

use crate::FileAccess;
use jj_files::file_util::{IoResultExt, PathError};
use std::alloc::Global;
use std::io;

/// Identifies a file while it exists: two are equal exactly if device and number are, so also for
/// two hard links to one file. The number of a file that was removed may be used again.
#[derive(Clone, Copy, Debug, PartialEq, Eq, Hash)]
pub struct FileIdentity {
    device: u64,
    inode: u64,
}

impl FileIdentity {
    /// Returns the identity of an open file. If it was opened through a symbolic link, this is the
    /// file that the link leads to.
    pub fn from_file<A: FileAccess>(files: &A, file: &A::File) -> io::Result<FileIdentity>
        // The identity is that of the status of the open file, or the error of reading it.
        ensures { IsIdentityOf (A.may_stat files.now file.now) result }
    {
        let status = files.status(file)?;
        Ok(FileIdentity {
            device: status.device,
            inode: status.inode,
        })
    }

    /// Returns the identity of the file at a path: of the link itself if it is a symbolic link.
    pub fn from_symlink_path<A: FileAccess>(
        alloc: Global,
        files: &A,
        path: &str,
    ) -> Result<FileIdentity, PathError>
        // The identity is that of the status of the path, without following a link, or the error
        // with the path.
        ensures { IsIdentityAt (A.may_stat_link files.now path.now) path.now result }
    {
        let status = files.link_status(path).context(alloc, path)?;
        Ok(FileIdentity {
            device: status.device,
            inode: status.inode,
        })
    }
}
