//! Proved callers of the parser and the printer.
ghost use Rattle.std.specs.Prelude.{◌≡◌, IfOk, map, true};
ghost use Rattle.std.specs.Option.{option_map};
ghost use Rattle.jj_fast_import.specs.Commands.{command_at};
ghost use Rattle.jj_fast_import.specs.Lines.{Gives};
ghost use Rattle.jj_fast_import.specs.Streams.{AreAllCommandsOf};
ghost use Rattle.jj_fast_import.specs.Texts.{command_text};
ghost use Rattle.jj_fast_import.specs.Values.{command_value};

use jj_fast_import::command::Command;
use jj_fast_import::fault::ParseError;
use jj_fast_import::parsing::parse_command;
use jj_fast_import::printing::push_command;
use jj_fast_import::reader::{CommandReader, StreamError};
use jj_files::file_util::Watched;
use std::alloc::{AllocError, Global};

/// Prints a command.
pub fn text_of(alloc: Global, command: &Command) -> Result<Vec<u8>, AllocError>
    ensures { IfOk result (λ text. text.items ≡ command_text (command_value command.now)) }
{
    let mut text = Vec::new(alloc);
    push_command(&mut text, command)?;
    Ok(text)
}

/// Parses the first command of a whole stream. It is the command that the grammar reads, and so are
/// the bytes after it.
pub fn first_of(alloc: Global, stream: &Vec<u8>) -> Result<Option<(Command, &[u8])>, ParseError>
    ensures { Gives (λ read. option_map (λ parts. (command_value parts.0, parts.1.now)) read)
        result (command_at true stream.now.items) }
{
    parse_command(alloc, true, stream)
}

/// Reads all commands of a stream. They are those of its bytes, one after the other, up to the end
/// or up to `done`.
pub fn commands_of(alloc: Global, stream: &[u8]) -> Result<Vec<Command>, StreamError>
    ensures { IfOk result (λ commands.
        AreAllCommandsOf (map command_value commands.items) stream.now) }
{
    let mut reader = CommandReader::new(alloc, Watched::new(stream));
    let mut commands = Vec::new(alloc);
    for _ in 0..u64::MAX {
        match reader.next_command(alloc)? {
            Some(command) => commands.push(command)?,
            None => return Ok(commands),
        }
    }
    Err(StreamError::Read)
}
