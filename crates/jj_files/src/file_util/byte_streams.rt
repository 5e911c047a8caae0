//! Readers and writers whose contracts also state which errors they return.
ghost use Rattle.std.specs.Prelude.{◌≡◌, ⊤, ℕ, List, Option, Some, IfErr};
ghost use Rattle.std.specs.Io.{ReadsAtMost, WritesAtMost};
ghost use Rattle.std.specs.Io.KnownBytes.{ReadConsumes, WriteAppends};
ghost use Rattle.std.specs.IoError.{error_kind};
ghost use Rattle.std.specs.declared.io.Error.{Error};
ghost use Rattle.std.specs.declared.io.ErrorKind.TheVariants.{OutOfMemory};
ghost use Rattle.jj_files.specs.Streams.{ReportsWriteZero, WritesSome};

use std::io;
use std::io::{ErrorKind, Read, Write};

/// A reader of bytes that states which errors it returns.
pub trait ByteRead {
    /// The bytes that are not read yet, if known.
    ghost remaining: { Self → Option (List ℕ) };

    /// The errors that a read may return.
    ghost may_fail: { Error → Type 0 };

    /// Reads some of the remaining bytes into a prefix of `buf`, and returns their number: 0 only
    /// at the end or if `buf` is empty.
    fn read(&mut self, buf: &mut [u8]) -> io::Result<usize>
        ensures bound { ReadsAtMost result buf.new }
        ensures bytes { ReadConsumes (remaining self.old) (remaining self.new) result buf.new }
        ensures error { IfErr result may_fail };
}

/// A writer of bytes that states which errors it returns.
pub trait ByteWrite {
    /// The bytes written so far, if known.
    ghost contents: { Self → Option (List ℕ) };

    /// The errors that a write may return.
    ghost may_fail: { Error → Type 0 };

    /// Writes a prefix of `piece`, and returns its length: 0 only if `piece` is empty.
    fn write(&mut self, piece: &[u8]) -> io::Result<usize>
        ensures bound { WritesAtMost result piece.now }
        ensures bytes { WriteAppends (contents self.old) (contents self.new) result piece.now }
        ensures some { WritesSome result piece.now }
        ensures error { IfErr result may_fail };
}

impl ByteRead for &[u8] {
    ghost remaining = { λ s. Some s.now };

    ghost may_fail = { λ _. ⊥ };

    fn read(&mut self, buf: &mut [u8]) -> io::Result<usize> {
        let n = self.len().min(buf.len());
        buf[..n].copy_from_slice(&self[..n]);
        *self = &self[n..];
        Ok(n)
    }
}

impl ByteWrite for Vec<u8> {
    ghost contents = { λ v. Some v.items };

    ghost may_fail = { λ e. error_kind e ≡ OutOfMemory };

    fn write(&mut self, piece: &[u8]) -> io::Result<usize> {
        self.extend_from_slice(piece)?;
        Ok(piece.len())
    }
}

impl<W: ByteWrite> ByteWrite for &mut W {
    ghost contents = { λ w. W.contents w.now };

    ghost may_fail = { W.may_fail };

    fn write(&mut self, piece: &[u8]) -> io::Result<usize> {
        ByteWrite::write(&mut **self, piece)
    }
}

/// A reader or writer of the standard library, whose contract allows any error.
#[derive(Drop)]
pub struct StdIo<T>(pub T);

impl<R: Read> ByteRead for StdIo<R> {
    ghost remaining = { λ s. R.remaining s.0 };

    ghost may_fail = { λ _. ⊤ };

    fn read(&mut self, buf: &mut [u8]) -> io::Result<usize> {
        self.0.read(buf)
    }
}

impl<W: Write> ByteWrite for StdIo<W> {
    ghost contents = { λ s. W.contents s.0 };

    ghost may_fail = { λ _. ⊤ };

    /// Writes to the wrapped writer. Fails with `WriteZero` if that writes nothing of a nonempty
    /// piece.
    fn write(&mut self, piece: &[u8]) -> io::Result<usize> {
        report_write_zero(self.0.write(piece), piece.len())
    }
}

// Turns a write of no bytes of a nonempty piece into `WriteZero`.
fn report_write_zero(outcome: io::Result<usize>, offered: usize) -> io::Result<usize>
    ensures { ReportsWriteZero outcome offered result }
{
    if let Ok(0) = outcome
        && offered > 0
    {
        return Err(io::Error::from(ErrorKind::WriteZero));
    }
    outcome
}
