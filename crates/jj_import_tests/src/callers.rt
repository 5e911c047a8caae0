//! A proved caller of the import of a stream.
ghost use Rattle.std.specs.Prelude.{List};
ghost use Rattle.jj_fast_import.specs.Values.{CommandValue};
ghost use Rattle.jj_import.specs.ImportStates.{state_of};
ghost use Rattle.jj_import_tests.specs.Streams.{AreStreamCommands, IsReached, IsStreamStored};
ghost use Rattle.jj_trees.specs.MemoryObjects.{objects_of};

use jj_fast_import::reader::CommandReader;
use jj_files::file_util::Watched;
use jj_import::importer::Importer;
use jj_import::names::Names;
use jj_import::stream::{StreamError, import_commands};
use jj_trees::memory_backend::MemoryBackend;
use std::alloc::Global;

/// Imports a stream, up to its end or to an error. Each commit of the stream, if there is an error
/// up to it, is then in the store, with its parents in order, author, committer and message, and at
/// each path with the file that its changes leave there, and with no other; one with the ID in Git
/// of an earlier commit is that commit. The importer has the refs as the stream sets them.
pub fn import_stream(
    alloc: Global,
    backend: &mut MemoryBackend,
    stream: &[u8],
) -> (Importer, Result<bool, StreamError>)
    ensures { (commands : List CommandValue) × AreStreamCommands stream.now result.1 commands
        × IsReached (objects_of backend.new) backend.old.root_commit_id commands
        (state_of result.0)
        × IsStreamStored (objects_of backend.new) backend.old.root_commit_id commands }
{
    let mut importer = Importer::over_names(alloc, Names::new(alloc));
    let mut reader = CommandReader::new(alloc, Watched::new(stream));
    let ended = import_commands(alloc, &mut importer, backend, &mut reader, usize::MAX);
    (importer, ended)
}
