//! Import of the commands of a reader, as many commits at a time as are asked for.
ghost use Rattle.std.specs.Prelude.{◌≡◌, ◌⊎◌, ◌+◌, ◌<◌, List, IfNone, IfOk, IfSome, OnErr, true};
ghost use Rattle.std.specs.Io.KnownBytes.{Keeps};
ghost use Rattle.std.specs.Option.{MatchOption};
ghost use Rattle.jj_backend.specs.Objects.{Objects};
ghost use Rattle.jj_fast_import.specs.Streams.{HasNoCommand, IsReadFrom, is_done, is_end, unread_bytes};
ghost use Rattle.jj_fast_import.specs.Values.{CommandValue, command_value};
ghost use Rattle.jj_import.specs.ImportStates.{state_of};
ghost use Rattle.jj_import.specs.ImportedCommands.{AreCommandsImported, AreCommandsRead, IsCommandImported, IsWithinLimit, commits_in, count_of};
ghost use Rattle.jj_import.specs.Stored.{IsExtended};

use crate::error::ImportError;
use crate::importer::Importer;
use jj_backend::backend::Backend;
use jj_fast_import::command::Command;
use jj_fast_import::reader;
use jj_fast_import::reader::CommandReader;
use jj_files::file_util::Source;
use std::alloc::Global;
use thiserror::Error;

/// Why a stream could not be imported.
#[derive(Debug, Drop, Error)]
pub enum StreamError {
    /// No command was read.
    #[error("{0}")]
    Read(reader::StreamError),
    /// A command could not be imported. `line` is the number of its first line.
    #[error("line {line}: {error}")]
    Import { line: u64, error: ImportError },
}

// Reads and imports the next command. Returns none at the end of the stream.
fn import_next<R: Source, B: Backend>(
    alloc: Global,
    importer: &mut Importer,
    backend: &mut B,
    reader: &mut CommandReader<R>,
) -> Result<Option<Command>, StreamError>
    ensures imported { IfOk result (λ command. (objects : Objects)
        → IsExtended (B.objects backend.new) objects → MatchOption command
        (state_of importer.new ≡ state_of importer.old)
        (λ command. IsCommandImported objects (B.fixed backend.old).root_commit_id
        (command_value command) (state_of importer.old) (state_of importer.new))) }
    ensures read { IfOk result (λ command. IfSome command (λ command. IsReadFrom
        (unread_bytes R.remaining reader.old) (unread_bytes R.remaining reader.new)
        (command_value command))) }
    ensures kept { IfOk result (λ command. IfNone command (Keeps
        (unread_bytes R.remaining reader.old) (unread_bytes R.remaining reader.new))) }
    ensures end { IfOk result (λ command. IfNone command
        ((is_done reader.old ≡ true) ⊎ HasNoCommand (unread_bytes R.remaining reader.new))) }
    ensures done { IfOk result (λ command. IfSome command (λ command.
        is_done reader.new ≡ is_end (command_value command))) }
    ensures unchanged { OnErr result (state_of importer.new ≡ state_of importer.old) }
    ensures objects { IsExtended (B.objects backend.old) (B.objects backend.new) }
    ensures fixed { B.fixed backend.new ≡ B.fixed backend.old }
{
    let line = reader.line();
    let command = match reader.next_command(alloc) {
        Ok(Some(command)) => command,
        Ok(None) => return Ok(None),
        Err(error) => return Err(StreamError::Read(error)),
    };
    match importer.import(alloc, backend, &command) {
        Ok(()) => Ok(Some(command)),
        Err(error) => Err(StreamError::Import { line, error }),
    }
}

// Returns how many commits are left to import after a command.
fn left_after(left: usize, command: &Command) -> usize
    requires { 0 < left }
    ensures { result + count_of (command_value command.now) ≡ left }
{
    match command {
        Command::Commit(_) => left - 1,
        _ => left,
    }
}

/// Imports commands until `limit` commits of the stream were imported, or until it ends. Returns
/// whether it has ended.
///
/// Fails with any error of `CommandReader::next_command` and of `Importer::import`. The commands
/// before an error are imported, and there is nothing more to read after it.
pub fn import_commands<R: Source, B: Backend>(
    alloc: Global,
    importer: &mut Importer,
    backend: &mut B,
    reader: &mut CommandReader<R>,
    limit: usize,
) -> Result<bool, StreamError>
    // At the end, at the limit and at an error, commands have made the later state of the earlier
    // one, in order: as many commits as the limit, or fewer if the stream ended or failed. They are
    // those of the stream's unread bytes, one after the other: at the end all of them, at the limit
    // those before the bytes that are unread afterwards, and at an error those before some bytes.
    ensures imported { (commands : List CommandValue)
        × IsWithinLimit limit (commits_in commands) result
        × ((objects : Objects) → IsExtended (B.objects backend.new) objects
        → AreCommandsImported objects (B.fixed backend.old).root_commit_id commands
        (state_of importer.old) (state_of importer.new))
        × AreCommandsRead (is_done reader.old) (is_done reader.new)
        (unread_bytes R.remaining reader.old) (unread_bytes R.remaining reader.new)
        result commands }
    // The backend has each object that it had.
    ensures objects { IsExtended (B.objects backend.old) (B.objects backend.new) }
    ensures fixed { B.fixed backend.new ≡ B.fixed backend.old }
{
    importer.set_within_stream(false);
    let mut left = limit;
    for _ in 0..u64::MAX {
        if left == 0 {
            importer.set_within_stream(true);
            return Ok(false);
        }
        match import_next(alloc, importer, backend, reader)? {
            Some(command) => left = left_after(left, &command),
            None => return Ok(true),
        }
    }
    Err(StreamError::Read(reader::StreamError::Read))
}
