//! Fake readers and writers in memory with short and failing calls.
ghost use Rattle.std.specs.Prelude.{◌≤◌};

use std::io;
use std::io::{ErrorKind, Read, Write};

/// A reader of a string that returns at most `most` bytes per read, and fails after `left` reads.
#[derive(Drop)]
pub struct Cut<'a> {
    pub rest: &'a [u8],
    pub most: usize,
    pub left: u32,
}

impl Read for Cut<'_> {
    fn read(&mut self, buf: &mut [u8]) -> io::Result<usize> {
        if self.left == 0 {
            return Err(io::Error::from(ErrorKind::BrokenPipe));
        }
        self.left -= 1;
        let n = self.most.min(buf.len()).min(self.rest.len());
        buf[..n].copy_from_slice(&self.rest[..n]);
        self.rest = &self.rest[n..];
        Ok(n)
    }
}

// Capacity of a writer.
const ROOM: usize = 512;

/// A writer that stores at most `most` bytes per write, and fails after `left` writes.
#[derive(Drop)]
pub struct Kept {
    bytes: [u8; ROOM],
    len: usize,
    most: usize,
    left: u32,
    kind: ErrorKind,
    ghost within: { len ≤ 512 },
}

impl Kept {
    /// A writer that fails as a closed pipe does.
    pub fn new(most: usize, left: u32) -> Kept {
        Kept::failing(most, left, ErrorKind::BrokenPipe)
    }

    /// A writer that fails with an error of this kind.
    pub fn failing(most: usize, left: u32, kind: ErrorKind) -> Kept {
        Kept {
            bytes: [0; ROOM],
            len: 0,
            most,
            left,
            kind,
        }
    }

    /// Returns the bytes written.
    pub fn as_slice(&self) -> &[u8] {
        &self.bytes[..self.len]
    }
}

impl Write for Kept {
    fn write(&mut self, piece: &[u8]) -> io::Result<usize> {
        if self.left == 0 {
            return Err(io::Error::from(self.kind));
        }
        self.left -= 1;
        let n = self.most.min(piece.len()).min(ROOM - self.len);
        let end = self.len + n;
        self.bytes[self.len..end].copy_from_slice(&piece[..n]);
        self.len = end;
        Ok(n)
    }

    fn flush(&mut self) -> io::Result<()> {
        Ok(())
    }
}
