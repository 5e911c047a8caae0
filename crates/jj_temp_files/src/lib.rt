//! Files that are written whole or not at all, links, identities of files, and checks of a file
//! system.
#![tactic(auto)]

mod access;
mod identity;
mod links;
mod system_files;
mod temp_file;
mod whole_files;

pub use access::{FileAccess, FileStatus};
pub use identity::FileIdentity;
pub use links::{check_executable_bit_support, check_symlink_support, symlink_dir, symlink_file};
pub use system_files::SystemFiles;
pub use temp_file::{
    NamedTempFile, TempNames, persist_content_addressed_temp_file, persist_temp_file,
};
pub use whole_files::{CrashSafe, write_file};
