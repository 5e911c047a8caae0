//! Commands of a source, one at a time.
ghost use Rattle.std.specs.Prelude.{◌≡◌, ◌⊎◌, ◌||◌, IfErr, IfNone, IfOk, IfSome, OnOk, Err, None, drop, false, true};
ghost use Rattle.std.specs.Option.{MatchOption};
ghost use Rattle.std.specs.Io.KnownBytes.{Consumes, IsAtEnd, Keeps};
ghost use Rattle.jj_fast_import.specs.declared.reader.StreamError.TheVariants.{Memory};
ghost use Rattle.jj_fast_import.specs.Streams.{HasNoCommand, IsReadFrom, IsSourceFailure, IsStepOf, IsStopOf, announces_end, is_announced_after, is_done, is_done_after, is_end, is_end_announced, pending_bytes, unread_bytes};
ghost use Rattle.jj_fast_import.specs.Lines.{Fails};
ghost use Rattle.jj_fast_import.specs.Commands.{command_at};
ghost use Rattle.jj_fast_import.specs.Values.{command_value};

use crate::command::Command;
use crate::fault::{Expected, ParseError, Stop};
use crate::lines::skip_comments;
use crate::parsing::parse_command;
use crate::printing::push_quoted;
use crate::words::is_word;
use jj_files::file_util::Source;
use std::alloc::{AllocError, AllocFailed, Global};
use std::error::Error;
use std::fmt;

const CHUNK: usize = 65536;

/// The most bytes of a line that an error quotes.
pub const MAX_QUOTED: usize = 60;

/// Why no command was read.
#[derive(Debug, Drop)]
pub enum StreamError {
    /// Memory ran out.
    Memory,
    /// The source failed.
    Read,
    /// The stream ends within a command. `line` is the number of its last line.
    UnexpectedEnd {
        line: u64,
    },
    /// The stream ends without the command `done` that it announces.
    MissingDone {
        line: u64,
    },
    /// The line is not of the expected form. `quoted` has its first `MAX_QUOTED` bytes in quotes,
    /// escaped as in paths.
    Malformed {
        line: u64,
        expected: Expected,
        quoted: String,
    },
}

impl Error for StreamError {}

impl fmt::Display for StreamError {
    fn fmt<W: fmt::Write>(&self, f: &mut fmt::Formatter<W>) -> fmt::Result {
        match self {
            StreamError::Memory => f.write_str("out of memory"),
            StreamError::Read => f.write_str("cannot read the stream"),
            StreamError::UnexpectedEnd { line } => {
                write!(f, "line {line}: the stream ends within a command")
            }
            StreamError::MissingDone { line } => {
                write!(f, "line {line}: the stream ends without the command `done`")
            }
            StreamError::Malformed {
                line,
                expected,
                quoted,
            } => {
                let form = expected.as_str();
                write!(f, "line {line}: expected {form}, not {quoted}")
            }
        }
    }
}

impl From<AllocError> for StreamError {
    ghost from_gives = { λ _ error. error ≡ Memory };

    fn from(_error: AllocError) -> StreamError {
        StreamError::Memory
    }
}

impl<T: Drop> From<AllocFailed<T>> for StreamError {
    ghost from_gives = { λ _ error. error ≡ Memory };

    fn from(_error: AllocFailed<T>) -> StreamError {
        StreamError::Memory
    }
}

/// A reader of the commands of a source. It contains the bytes of at most one command that is not
/// whole yet, and as many again.
#[derive(Drop)]
pub struct CommandReader<R> {
    source: R,
    buffer: Vec<u8>,
    start: usize,
    is_at_end: bool,
    line: u64,
    needs_done: bool,
    is_done: bool,
}

// The number of line feeds.
fn count_lines(bytes: &[u8]) -> u64 {
    let mut count = 0u64;
    for byte in bytes {
        if *byte == b'\n' {
            count = count.saturating_add(1);
        }
    }
    count
}

// Whether the command is `done`.
fn is_end(command: &Command) -> bool
    ensures { result ≡ is_end (command_value command.now) }
{
    matches!(command, Command::Done)
}

// Whether the command is `feature done`.
fn announces_end(command: &Command) -> bool
    ensures { result ≡ announces_end (command_value command.now) }
{
    match command {
        Command::Feature(feature) => is_word(feature, b"done"),
        _ => false,
    }
}

// Parses the command at the start of `bytes`, and returns its length.
fn step(alloc: Global, at_end: bool, bytes: &[u8]) -> Result<Option<(Command, usize)>, ParseError>
    ensures command { IfOk result (IsStepOf at_end bytes.now) }
    ensures stop { IfErr result (λ error. Fails error (command_at at_end bytes.now)) }
{
    match parse_command(alloc, at_end, bytes)? {
        Some((command, rest)) => {
            let used = bytes.len().saturating_sub(rest.len());
            Ok(Some((command, used)))
        }
        None => Ok(None),
    }
}

// Reads bytes of the source until there are `goal` of them. Also returns whether the source has
// ended.
fn fill<R: Source>(
    alloc: Global,
    source: &mut R,
    goal: usize,
) -> Result<(Vec<u8>, bool), StreamError>
    ensures bytes { IfOk result (λ read. Consumes
        (R.remaining source.old) (R.remaining source.new) read.0.items) }
    ensures end { IfOk result (λ read. read.1 ≡ true → IsAtEnd (R.remaining source.new)) }
    ensures failure { IfErr result IsSourceFailure }
{
    let mut added = Vec::new(alloc);
    let mut chunk = [0u8; CHUNK];
    loop {
        let Ok(n) = source.read(&mut chunk) else {
            return Err(StreamError::Read);
        };
        if n == 0 {
            return Ok((added, true));
        }
        if added.extend_from_slice(&chunk[..n]).is_err() {
            return Err(StreamError::Memory);
        }
        if added.len() >= goal {
            return Ok((added, false));
        }
    }
}

// The index of the line that has `left` bytes of `unread` from its start on, counted from 0, and
// its first bytes in quotes.
fn quoted_line(alloc: Global, unread: &[u8], left: usize) -> Result<(u64, String), AllocError> {
    let before = unread.len().saturating_sub(left);
    let text = skip_comments(&unread[before..]);
    let mut len = 0;
    while len < text.len() && len < MAX_QUOTED && text[len] != b'\n' {
        len += 1;
    }
    let mut quoted = Vec::new(alloc);
    push_quoted(&mut quoted, &text[..len])?;
    let skipped = unread.len().saturating_sub(text.len());
    Ok((
        count_lines(&unread[..skipped]),
        String::from_utf8_lossy(alloc, &quoted)?,
    ))
}

impl<R: Source> CommandReader<R> {
    /// Returns a reader of the commands of `source`, before its first one.
    pub fn new(alloc: Global, source: R) -> Self
        // No byte of the source is read.
        ensures unread { unread_bytes R.remaining result ≡ R.remaining source }
        ensures done { is_done result ≡ false }
        ensures announced { is_end_announced result ≡ false }
    {
        CommandReader {
            source,
            buffer: Vec::new(alloc),
            start: 0,
            is_at_end: false,
            line: 1,
            needs_done: false,
            is_done: false,
        }
    }

    /// The number of the line that the next command begins in, from 1.
    pub fn line(&self) -> u64 {
        self.line
    }

    // The bytes that were read from the source and not as commands.
    fn pending(&self) -> &[u8]
        ensures { result.now ≡ pending_bytes self.now }
    {
        match self.buffer.get(self.start..) {
            Some(bytes) => bytes,
            None => &[],
        }
    }

    // Moves on by the bytes of a command.
    fn advance(&mut self, command: &Command, used: usize)
        ensures pending { pending_bytes self.new ≡ drop used (pending_bytes self.old) }
        ensures source { self.new.source ≡ self.old.source }
        ensures end { self.new.is_at_end ≡ self.old.is_at_end }
        ensures done { is_done self.new
            ≡ (is_end (command_value command.now) || is_done self.old) }
        ensures announced { is_end_announced self.new
            ≡ (announces_end (command_value command.now) || is_end_announced self.old) }
    {
        let pending = self.pending();
        let used = used.min(pending.len());
        let lines = count_lines(&pending[..used]);
        self.start = self.start.saturating_add(used);
        self.line = self.line.saturating_add(lines);
        self.is_done = is_end(command) || self.is_done;
        self.needs_done = announces_end(command) || self.needs_done;
    }

    // Reads on, until there are twice as many bytes as before.
    fn read_on(&mut self, alloc: Global) -> Result<(), StreamError>
        requires { self.old.is_at_end ≡ false }
        ensures unread { OnOk result (Keeps
            (unread_bytes R.remaining self.old) (unread_bytes R.remaining self.new)) }
        ensures done { is_done self.new ≡ is_done self.old }
        ensures announced { is_end_announced self.new ≡ is_end_announced self.old }
        ensures stop { IfErr result (IsStopOf
            (unread_bytes R.remaining self.old) (is_end_announced self.old)) }
    {
        let mut buffer = Vec::from_slice(alloc, self.pending())?;
        let (added, is_at_end) = fill(alloc, &mut self.source, buffer.len())?;
        buffer.extend_from_slice(&added)?;
        self.is_at_end = is_at_end;
        self.buffer = buffer;
        self.start = 0;
        Ok(())
    }

    // The error of a malformed line. At the end of pending bytes, reads on, unless the stream has
    // ended.
    fn recover_stop(&mut self, alloc: Global, stop: Stop) -> Result<(), StreamError>
        requires { command_at self.old.is_at_end (pending_bytes self.old) ≡ Err stop }
        ensures unread { OnOk result (Keeps
            (unread_bytes R.remaining self.old) (unread_bytes R.remaining self.new)) }
        ensures done { is_done self.new ≡ is_done self.old }
        ensures announced { is_end_announced self.new ≡ is_end_announced self.old }
        ensures stop { IfErr result (IsStopOf
            (unread_bytes R.remaining self.old) (is_end_announced self.old)) }
    {
        match stop {
            Stop::Malformed { expected, left } => {
                let (lines, quoted) = quoted_line(alloc, self.pending(), left)?;
                let line = self.line.saturating_add(lines);
                Err(StreamError::Malformed {
                    line,
                    expected,
                    quoted,
                })
            }
            Stop::Incomplete => {
                if self.is_at_end {
                    let lines = count_lines(self.pending());
                    let line = self.line.saturating_add(lines);
                    return Err(StreamError::UnexpectedEnd { line });
                }
                self.read_on(alloc)
            }
        }
    }

    // Reads on if the pending bytes end within a command, unless the stream has ended.
    fn recover(&mut self, alloc: Global, error: ParseError) -> Result<(), StreamError>
        requires { Fails error (command_at self.old.is_at_end (pending_bytes self.old)) }
        ensures unread { OnOk result (Keeps
            (unread_bytes R.remaining self.old) (unread_bytes R.remaining self.new)) }
        ensures done { is_done self.new ≡ is_done self.old }
        ensures announced { is_end_announced self.new ≡ is_end_announced self.old }
        ensures stop { IfErr result (IsStopOf
            (unread_bytes R.remaining self.old) (is_end_announced self.old)) }
    {
        match error {
            ParseError::Memory => Err(StreamError::Memory),
            ParseError::Stop(stop) => self.recover_stop(alloc, stop),
        }
    }

    /// Returns the next command, or `None` at the end of the stream and after `done`. Fails with
    /// `Malformed` at the first line that the grammar does not allow, with `UnexpectedEnd` if the
    /// stream ends within a command, and with `MissingDone` if it ends without `done` after
    /// `feature done`. After an error there is nothing more to read.
    #[tactic(auto, using(crate::proofs::Reading::kept_first, crate::proofs::Reading::kept_stop, crate::proofs::Reading::none_at, crate::proofs::Reading::step_at))]
    pub fn next_command(&mut self, alloc: Global) -> Result<Option<Command>, StreamError>
        // A command is the one that the grammar reads first from the bytes that are not read yet,
        // up to the end of the stream, and those afterwards are the bytes after it.
        ensures command { IfOk result (λ read. IfSome read (λ command. IsReadFrom
            (unread_bytes R.remaining self.old) (unread_bytes R.remaining self.new)
            (command_value command))) }
        // There is none after `done`, where the bytes have none, and nowhere else.
        ensures end { IfOk result (λ read. MatchOption read
            ((is_done self.old ≡ true) ⊎ HasNoCommand (unread_bytes R.remaining self.new))
            (λ command. is_done self.old ≡ false)) }
        // Without a command no byte is read.
        ensures kept { IfOk result (λ read. IfNone read (Keeps
            (unread_bytes R.remaining self.old) (unread_bytes R.remaining self.new))) }
        ensures done { IfOk result (λ read.
            is_done self.new ≡ is_done_after (is_done self.old) read) }
        ensures announced { IfOk result (λ read.
            is_end_announced self.new ≡ is_announced_after (is_end_announced self.old) read) }
        // An error is the grammar's for these bytes, or says that an announced `done` is missing,
        // unless the source fails or memory runs out.
        ensures stop { IfErr result (IsStopOf
            (unread_bytes R.remaining self.old) (is_end_announced self.old)) }
    {
        if self.is_done {
            return Ok(None);
        }
        for _ in 0..u64::MAX {
            match step(alloc, self.is_at_end, self.pending()) {
                Ok(Some((command, used))) => {
                    self.advance(&command, used);
                    return Ok(Some(command));
                }
                Ok(None) => return self.end(),
                Err(error) => self.recover(alloc, error)?,
            }
        }
        Err(StreamError::Read)
    }

    // None, unless `done` is missing.
    fn end(&self) -> Result<Option<Command>, StreamError>
        requires { HasNoCommand (unread_bytes R.remaining self.now) }
        ensures none { IfOk result (λ read. read ≡ None) }
        ensures stop { IfErr result (IsStopOf
            (unread_bytes R.remaining self.now) (is_end_announced self.now)) }
    {
        if self.needs_done {
            return Err(StreamError::MissingDone { line: self.line });
        }
        Ok(None)
    }
}
