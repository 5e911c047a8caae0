//! Lines of a source, each returned as soon as it is read.
use crate::fault::Fault;
use jj_files::file_util::Source;
use std::alloc::{AllocError, Global};

// Bytes per read.
const CHUNK: usize = 8192;

// The most bytes of a line.
const MAX_LINE: usize = 65536;

// A reader of lines, which contains the bytes of a read and of one line at most.
#[derive(Drop)]
pub(crate) struct LineReader<R> {
    source: R,
    buffer: Vec<u8>,
    start: usize,
    is_at_end: bool,
    line: u64,
}

// Copies a line without the carriage return at its end.
fn copy_line(alloc: Global, line: &[u8]) -> Result<Vec<u8>, AllocError> {
    match line {
        [start @ .., b'\r'] => Vec::from_slice(alloc, start),
        line => Vec::from_slice(alloc, line),
    }
}

impl<R: Source> LineReader<R> {
    pub(crate) fn new(alloc: Global, source: R) -> Self {
        LineReader {
            source,
            buffer: Vec::new(alloc),
            start: 0,
            is_at_end: false,
            line: 1,
        }
    }

    fn pending(&self) -> &[u8] {
        match self.buffer.get(self.start..) {
            Some(bytes) => bytes,
            None => &[],
        }
    }

    // Returns the line at the start of the pending bytes, if they contain its end or no more can be
    // read.
    fn take_line(&mut self, alloc: Global) -> Result<Option<Vec<u8>>, AllocError> {
        let pending = self.pending();
        let len = match pending.iter().position(|byte| *byte == b'\n') {
            Some(len) => len,
            None if self.is_at_end && !pending.is_empty() => pending.len(),
            None => return Ok(None),
        };
        let line = copy_line(alloc, &pending[..len])?;
        self.start = self.start.saturating_add(len).saturating_add(1);
        self.line = self.line.saturating_add(1);
        Ok(Some(line))
    }

    // Reads more bytes.
    fn read_on(&mut self, alloc: Global) -> Result<(), Fault> {
        if self.pending().len() > MAX_LINE {
            return Err(Fault::LongLine { line: self.line });
        }
        let mut chunk = [0u8; CHUNK];
        let Ok(n) = self.source.read(&mut chunk) else {
            return Err(Fault::Read);
        };
        let mut buffer = Vec::from_slice(alloc, self.pending())?;
        buffer.extend_from_slice(&chunk[..n])?;
        self.buffer = buffer;
        self.start = 0;
        self.is_at_end = n == 0;
        Ok(())
    }

    // Returns the next line without its end, a line feed or both characters of CRLF; `None` at the
    // end. Fails with `Read` if a read fails, with `LongLine` for a line of more than 64 KiB, and
    // with `Memory` if memory runs out.
    pub(crate) fn next_line(&mut self, alloc: Global) -> Result<Option<Vec<u8>>, Fault> {
        for _ in 0..u64::MAX {
            if let Some(line) = self.take_line(alloc)? {
                return Ok(Some(line));
            }
            if self.is_at_end {
                return Ok(None);
            }
            self.read_on(alloc)?;
        }
        Err(Fault::Read)
    }
}
