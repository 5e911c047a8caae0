//! Output through a buffer. If the buffer cannot grow, bytes are written directly: no output fails
//! because memory ran out.
ghost use Rattle.std.specs.Prelude.{◌≡◌, [], IfErr};
ghost use Rattle.jj_files.specs.Streams.{RecordsFailure};
ghost use Rattle.jj_log.specs.BufferedOutput.{WritesBuffered};

use jj_files::file_util::{Sink, write_all};
use std::alloc::Global;
use std::io;

// The number of bytes with which the buffer is written.
const FULL: usize = 65536;

// Bytes of an output that are not written yet.
#[derive(Drop)]
pub(crate) struct OutputBuffer {
    pub(crate) pending: Vec<u8>,
}

impl OutputBuffer {
    pub(crate) fn new(alloc: Global) -> OutputBuffer
        ensures { result.pending.items ≡ [] }
    {
        OutputBuffer {
            pending: Vec::new(alloc),
        }
    }

    // Writes the pending bytes. After an error a prefix of them was written.
    pub(crate) fn flush<W: Sink>(&mut self, writer: &mut W) -> io::Result<()>
        ensures output { WritesBuffered result
            (W.contents writer.old) (W.contents writer.new)
            self.old.pending.items self.new.pending.items [] }
        ensures none_left { self.new.pending.items ≡ [] }
        ensures failure { RecordsFailure
            (W.has_failed writer.old) (W.has_failed writer.new) result }
        ensures error { IfErr result W.may_fail }
    {
        let written = write_all(writer, &self.pending);
        self.pending.clear();
        written
    }

    // Appends a piece. After an error a prefix of the pending bytes and the piece was written.
    pub(crate) fn append<W: Sink>(&mut self, writer: &mut W, piece: &[u8]) -> io::Result<()>
        ensures output { WritesBuffered result
            (W.contents writer.old) (W.contents writer.new)
            self.old.pending.items self.new.pending.items piece.now }
        ensures failure { RecordsFailure
            (W.has_failed writer.old) (W.has_failed writer.new) result }
        ensures error { IfErr result W.may_fail }
    {
        if self.pending.extend_from_slice(piece).is_err() {
            self.flush(writer)?;
            return write_all(writer, piece);
        }
        if self.pending.len() < FULL {
            return Ok(());
        }
        self.flush(writer)
    }
}
