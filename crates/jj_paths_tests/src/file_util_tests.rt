//! Tests of `copy` over in-memory readers and writers with short and failing calls.
ghost use Rattle.std.specs.Prelude.{◌≤◌, length};

use crate::fixtures::equals;
use jj_files::file_util::{Sink, StdIo, Watched, copy};
use std::io;
use std::io::{ErrorKind, Read, Write};
use std::process::Abort;

// The length of the longest input. Its byte at index `i` is `i` modulo 251.
const LONGEST: usize = 40000;

// A reader of `len` bytes that returns at most `most` for one call, and fails after `left` calls.
#[derive(Drop)]
struct ShortReader {
    position: usize,
    len: usize,
    most: usize,
    left: u32,
    ghost within: { position ≤ len },
}

impl Read for ShortReader {
    fn read(&mut self, buf: &mut [u8]) -> io::Result<usize> {
        if self.left == 0 {
            return Err(io::Error::from(ErrorKind::BrokenPipe));
        }
        self.left -= 1;
        let n = self.most.min(buf.len()).min(self.len - self.position);
        for (i, byte) in buf[..n].iter_mut().enumerate() {
            *byte = byte_at(self.position + i);
        }
        self.position += n;
        Ok(n)
    }
}

// A writer that accepts at most `most` bytes for one call, compares them with the expected bytes,
// and fails after `left` calls.
#[derive(Drop)]
struct ShortWriter {
    len: usize,
    same: bool,
    most: usize,
    left: u32,
}

impl Write for ShortWriter {
    fn write(&mut self, piece: &[u8]) -> io::Result<usize> {
        if self.left == 0 {
            return Err(io::Error::from(ErrorKind::Interrupted));
        }
        self.left -= 1;
        let n = self.most.min(piece.len());
        for byte in &piece[..n] {
            self.same = self.same && *byte == byte_at(self.len);
            self.len = self.len.saturating_add(1);
        }
        Ok(n)
    }

    fn flush(&mut self) -> io::Result<()> {
        Ok(())
    }
}

fn byte_at(i: usize) -> u8 {
    (i % 251) as u8
}

// Returns the result of a copy of `len` bytes, the number of bytes written, and whether they are a
// prefix of the input.
fn run_copy(
    len: usize,
    most: usize,
    reads: u32,
    writes: u32,
) -> (Result<usize, ErrorKind>, usize, bool) {
    let mut reader = Watched::new(StdIo(ShortReader {
        position: 0,
        len,
        most,
        left: reads,
    }));
    let mut taken = ShortWriter {
        len: 0,
        same: true,
        most,
        left: writes,
    };
    let mut writer = Watched::new(StdIo(&mut taken));
    let end = match copy(&mut reader, &mut writer) {
        Ok(count) => Ok(count),
        Err(error) => Err(error.kind()),
    };
    (end, taken.len, taken.same)
}

#[test]
fn copies_across_buffers(rt: HostRuntime) {
    for len in [0, 1, 16384, 16385, LONGEST] {
        for most in [1, 1000, LONGEST] {
            let whole = (Ok(len), len, true);
            equals(&rt, &run_copy(len, most, u32::MAX, u32::MAX), &whole);
        }
    }
}

#[test]
fn each_read_fails_in_turn(rt: HostRuntime) {
    // Ten reads of one byte, and one at the end of the input.
    for reads in 0..11u32 {
        let cut = (Err(ErrorKind::BrokenPipe), reads as usize, true);
        equals(&rt, &run_copy(10, 1, reads, u32::MAX), &cut);
    }
    equals(&rt, &run_copy(10, 1, 11, u32::MAX), &(Ok(10), 10, true));
}

#[test]
fn each_write_fails_in_turn(rt: HostRuntime) {
    // An interrupted write is not retried.
    for writes in 0..10u32 {
        let cut = (Err(ErrorKind::Interrupted), writes as usize, true);
        equals(&rt, &run_copy(10, 1, u32::MAX, writes), &cut);
    }
    equals(&rt, &run_copy(10, 1, u32::MAX, 10), &(Ok(10), 10, true));
}

#[test]
fn a_writer_that_takes_nothing_has_failed(rt: HostRuntime) {
    let mut reader = Watched::new(b"abc".as_slice());
    let mut writer = Watched::new(StdIo(ShortWriter {
        len: 0,
        same: true,
        most: 0,
        left: 1,
    }));
    match copy(&mut reader, &mut writer) {
        Ok(_) => panic!(rt; "nothing was written"),
        Err(e) => equals(&rt, &e.kind(), &ErrorKind::WriteZero),
    }
}

// Returns the result of one write to a watched writer.
fn run_write(most: usize, left: u32, piece: &[u8]) -> Result<usize, ErrorKind> {
    let mut writer = Watched::new(StdIo(ShortWriter {
        len: 0,
        same: true,
        most,
        left,
    }));
    match Sink::write(&mut writer, piece) {
        Ok(count) => Ok(count),
        Err(error) => Err(error.kind()),
    }
}

#[test]
fn kinds_of_failed_writes(rt: HostRuntime) {
    equals(&rt, &run_write(2, 1, b"abc"), &Ok(2));
    equals(&rt, &run_write(0, 1, b"abc"), &Err(ErrorKind::WriteZero));
    equals(&rt, &run_write(0, 1, b""), &Ok(0));
    equals(&rt, &run_write(2, 0, b"abc"), &Err(ErrorKind::Interrupted));
}
