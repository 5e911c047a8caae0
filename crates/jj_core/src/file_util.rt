//! Streams, directories, paths of a file system, temporary files, links and identities of files.
pub use jj_files::file_util::{
    BadPathEncoding, ByteRead, ByteWrite, DirAccess, IoResultExt, PathError, Sink, Source,
    SourceError, SourceKind, StdIo, Watched, copy, create_or_reuse_dir, expand_home_path,
    is_empty_dir, normalize_path, path_from_bytes, path_to_bytes, relative_path,
    remove_dir_contents, slash_path, write_all,
};
pub use jj_temp_files::{
    CrashSafe, FileAccess, FileIdentity, FileStatus, NamedTempFile, SystemFiles, TempNames,
    check_executable_bit_support, check_symlink_support, persist_content_addressed_temp_file,
    persist_temp_file, symlink_dir, symlink_file, write_file,
};
