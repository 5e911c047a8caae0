//! Callers of `jj_files`.
ghost use Rattle.std.specs.Prelude.{◌≡◌, ◌⊎◌, false, IfErr, IfOk, string_bytes};
ghost use Rattle.jj_files.specs.Directories.{CreatesOrReuses};
ghost use Rattle.jj_files.specs.PathComponents.{IsNormalized, IsRelativeTo};
ghost use Rattle.jj_files.specs.Streams.{CopiesAll, streams};

use jj_files::file_util::{self, DirAccess, PathError, Sink, Source};
use std::alloc::{AllocError, Global};
use std::io;

/// `copy`.
pub fn copy<R: Source, W: Sink>(reader: &mut R, writer: &mut W) -> io::Result<usize>
    requires reader_works { R.has_failed reader.old ≡ false }
    requires writer_works { W.has_failed writer.old ≡ false }
    ensures all { IfOk result (CopiesAll
        (streams (R.remaining reader.old) (W.contents writer.old))
        (streams (R.remaining reader.new) (W.contents writer.new))) }
    ensures error { IfErr result (λ e. R.may_fail e ⊎ W.may_fail e) }
{
    file_util::copy(reader, writer)
}

/// `create_or_reuse_dir`.
pub fn create_or_reuse_dir<D: DirAccess>(
    alloc: Global,
    dirs: &mut D,
    path: &str,
) -> Result<(), PathError>
    ensures { CreatesOrReuses D.is_directory D.may_create path.now dirs.old result dirs.new }
{
    file_util::create_or_reuse_dir(alloc, dirs, path)
}

/// `normalize_path`.
pub fn normalize_path(alloc: Global, path: &str) -> Result<String, AllocError>
    ensures { IfOk result (λ text. IsNormalized path.now (string_bytes text)) }
{
    file_util::normalize_path(alloc, path)
}

/// `relative_path`.
pub fn relative_path(alloc: Global, from: &str, to: &str) -> Result<String, AllocError>
    ensures { IfOk result (λ text. IsRelativeTo from.now to.now (string_bytes text)) }
{
    file_util::relative_path(alloc, from, to)
}
