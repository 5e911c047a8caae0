//! Copying between byte streams, over traits whose contracts track the bytes and the failures.
ghost use Rattle.std.specs.Prelude.{◌≡◌, ◌⊎◌, ℕ, ◌-◌, Bool, false, List, IfErr, IfOk, IsErrAnd, OnOk, Option, is_err, ◌||◌};
ghost use Rattle.std.specs.Io.{ReadsAtMost, WritesAtMost};
ghost use Rattle.std.specs.Io.KnownBytes.{Appends, ReadConsumes, WriteAppends};
ghost use Rattle.std.specs.IoError.{error_kind};
ghost use Rattle.std.specs.declared.io.Error.{Error};
ghost use Rattle.std.specs.declared.io.ErrorKind.TheVariants.{Other};
ghost use Rattle.jj_files.specs.Streams.{DecreasesReads, RecordsFailure, WritesSome, CopiesAll, CopiesPrefix, AppendsPrefixOf, streams};
ghost use Rattle.jj_files.specs.WatchedFields.{most_reads, watched_inner, watched_failed, watched_reads_left};

mod byte_streams;
mod dirs;
mod errors;
mod path_components;
mod path_strings;

pub use byte_streams::{ByteRead, ByteWrite, StdIo};
pub use dirs::{DirAccess, create_or_reuse_dir, is_empty_dir, remove_dir_contents};
pub use errors::{IoResultExt, PathError, SourceError, SourceKind};
pub use path_components::{normalize_path, relative_path};
pub use path_strings::{
    BadPathEncoding, expand_home_path, path_from_bytes, path_to_bytes, slash_path,
};
use std::io;

/// A source of bytes.
pub trait Source {
    /// The bytes that are not read yet, if known.
    ghost remaining: { Self → Option (List ℕ) };

    /// Whether a read has failed.
    ghost has_failed: { Self → Bool };

    /// How many more reads can succeed or be interrupted: a bound for loops that retry.
    ghost reads_left: { Self → ℕ };

    /// The errors that a read may return.
    ghost may_fail: { Error → Type 0 };

    /// Reads some of the remaining bytes into a prefix of `buf`, and returns their number: 0 only
    /// at the end or if `buf` is empty.
    fn read(&mut self, buf: &mut [u8]) -> io::Result<usize>
        ensures bound { ReadsAtMost result buf.new }
        ensures bytes { ReadConsumes (remaining self.old) (remaining self.new) result buf.new }
        ensures failure { RecordsFailure (has_failed self.old) (has_failed self.new) result }
        ensures fewer { DecreasesReads result (reads_left self.old) (reads_left self.new) }
        ensures error { IfErr result may_fail };
}

/// A sink of bytes.
pub trait Sink {
    /// The bytes written so far, if known.
    ghost contents: { Self → Option (List ℕ) };

    /// Whether a write has failed.
    ghost has_failed: { Self → Bool };

    /// The errors that a write may return.
    ghost may_fail: { Error → Type 0 };

    /// Writes a prefix of `piece`, and returns its length: 0 only if `piece` is empty.
    fn write(&mut self, piece: &[u8]) -> io::Result<usize>
        ensures bound { WritesAtMost result piece.now }
        ensures bytes { WriteAppends (contents self.old) (contents self.new) result piece.now }
        ensures some { WritesSome result piece.now }
        ensures failure { RecordsFailure (has_failed self.old) (has_failed self.new) result }
        ensures error { IfErr result may_fail };
}

/// An adapter of `ByteRead` and `ByteWrite` that records failures and limits the number of reads.
#[derive(Drop)]
pub struct Watched<T> {
    inner: T,
    failed: bool,
    reads_left: u64,
}

impl<T> Watched<T> {
    /// Wraps a reader or writer. It may be read from 2^64 - 1 times.
    pub fn new(inner: T) -> Watched<T>
        ensures inner { watched_inner result ≡ inner }
        ensures sound { watched_failed result ≡ false }
        ensures reads { watched_reads_left result ≡ most_reads }
    {
        Watched {
            inner,
            failed: false,
            reads_left: u64::MAX,
        }
    }

    /// Returns the wrapped reader or writer.
    pub fn into_inner(self) -> T
        ensures { result ≡ watched_inner self }
    {
        self.inner
    }
}

impl<T> Watched<T> {
    // Records whether a call failed.
    fn record(&mut self, outcome: io::Result<usize>) -> io::Result<usize>
        ensures outcome { result ≡ outcome }
        ensures inner { watched_inner self.new ≡ watched_inner self.old }
        ensures failure { RecordsFailure
            (watched_failed self.old) (watched_failed self.new) result }
        ensures reads { watched_reads_left self.new ≡ watched_reads_left self.old }
    {
        self.failed = self.failed || outcome.is_err();
        outcome
    }
}

impl<R: ByteRead> Source for Watched<R> {
    ghost remaining = { λ w. R.remaining (watched_inner w) };

    ghost has_failed = { watched_failed };

    ghost reads_left = { watched_reads_left };

    ghost may_fail = { λ e. R.may_fail e ⊎ (error_kind e ≡ Other) };

    /// Reads from the wrapped reader. Fails with an error of kind `Other` once 2^64 - 1 reads were
    /// made.
    fn read(&mut self, buf: &mut [u8]) -> io::Result<usize>
        ensures bound { ReadsAtMost result buf.new }
        ensures bytes { ReadConsumes
            (R.remaining (watched_inner self.old))
            (R.remaining (watched_inner self.new)) result buf.new }
        ensures failure { RecordsFailure
            (watched_failed self.old) (watched_failed self.new) result }
        ensures fewer { DecreasesReads result
            (watched_reads_left self.old) (watched_reads_left self.new) }
        ensures counted { watched_reads_left self.new ≡ watched_reads_left self.old - 1 }
        ensures spent { watched_reads_left self.old ≡ 0 →
            IsErrAnd result (λ e. error_kind e ≡ Other)
            × (watched_inner self.new ≡ watched_inner self.old) }
        ensures error { IfErr result (λ e. R.may_fail e
            ⊎ ((watched_reads_left self.old ≡ 0) × (error_kind e ≡ Other))) }
    {
        if self.reads_left == 0 {
            self.failed = true;
            return Err(io::Error::other("too many reads"));
        }
        let outcome = self.inner.read(buf);
        self.reads_left -= 1;
        self.record(outcome)
    }
}

impl<W: ByteWrite> Sink for Watched<W> {
    ghost contents = { λ w. W.contents (watched_inner w) };

    ghost has_failed = { watched_failed };

    ghost may_fail = { W.may_fail };

    /// Writes to the wrapped writer.
    fn write(&mut self, piece: &[u8]) -> io::Result<usize> {
        let outcome = self.inner.write(piece);
        self.record(outcome)
    }
}

const COPY_BUFFER: usize = 16384;

/// Writes all of `piece`, in one or more writes. Returns the first error of a write. A prefix of
/// `piece` was then written.
pub fn write_all<W: Sink>(writer: &mut W, piece: &[u8]) -> io::Result<()>
    ensures ok { OnOk result (Appends (W.contents writer.old) (W.contents writer.new) piece.now) }
    ensures prefix { AppendsPrefixOf (W.contents writer.old) (W.contents writer.new) piece.now }
    ensures failure { RecordsFailure (W.has_failed writer.old) (W.has_failed writer.new) result }
    ensures error { IfErr result W.may_fail }
{
    let mut rest = piece;
    while !rest.is_empty() {
        let n = writer.write(rest)?;
        rest = &rest[n..];
    }
    Ok(())
}

/// Copies all remaining bytes of the reader to the writer, and returns their number, at most
/// `usize::MAX`. Returns the first error of a read or a write; the bytes written are then a prefix
/// of the bytes read. Does not allocate: the buffer of 16 KiB is on the stack.
pub fn copy<R: Source, W: Sink>(reader: &mut R, writer: &mut W) -> io::Result<usize>
    // No read has failed before.
    requires reader_works { R.has_failed reader.old ≡ false }
    // No write has failed before.
    requires writer_works { W.has_failed writer.old ≡ false }
    // On success all bytes left were read and written, and the result is their number, or
    // `usize::MAX` if there are more.
    ensures all { IfOk result (CopiesAll
        (streams (R.remaining reader.old) (W.contents writer.old))
        (streams (R.remaining reader.new) (W.contents writer.new))) }
    // In any case the bytes written are a prefix of the bytes read.
    ensures prefix { CopiesPrefix (streams (R.remaining reader.old) (W.contents writer.old))
        (streams (R.remaining reader.new) (W.contents writer.new)) }
    // The call fails exactly if the reader or the writer has failed.
    ensures failure { is_err result ≡ (R.has_failed reader.new || W.has_failed writer.new) }
    // The error is one of the reader or of the writer.
    ensures error { IfErr result (λ e. R.may_fail e ⊎ W.may_fail e) }
{
    let mut buf = [0u8; COPY_BUFFER];
    let mut count = 0usize;
    loop {
        let n = reader.read(&mut buf)?;
        if n == 0 {
            return Ok(count);
        }
        write_all(writer, &buf[..n])?;
        count = count.saturating_add(n);
    }
}
