//! Callers of paths, path trees and `copy`, proved from the contracts of these.
ghost use Rattle.std.specs.Prelude.{◌≡◌, ◌≢◌, ◌⊎◌, ◌+◌, ◌-◌, ◌^◌, min, false, IsOk, IfOk, IfErr, OnOk, OnErr, IsTrue, string_bytes};
ghost use Rattle.std.specs.Option.{option_copied};
ghost use Rattle.std.specs.Io.KnownBytes.{Appends};
ghost use Rattle.std.specs.IoError.{error_kind};
ghost use Rattle.std.specs.declared.io.ErrorKind.TheVariants.{OutOfMemory, Other};
ghost use Rattle.jj_paths.specs.Paths.{Path, is_path_string};
ghost use Rattle.jj_paths.specs.Names.{path_of};
ghost use Rattle.jj_files.specs.Streams.{AppendsPrefixOf};
ghost use Rattle.jj_paths_tests.specs.Notes.{note_at, count_at};
ghost use Rattle.jj_paths_tests.specs.PathErrors.{IsNoPathError};

use jj_files::file_util::{Sink, Watched, copy};
use jj_paths::laws::path_string_laws;
use jj_paths::repo_path::{InvalidNewRepoPathError, RepoPath};
use jj_paths::repo_path_tree::RepoPathTree;
use std::alloc::{AllocError, Global};
use std::io;

/// Sets the note at a path. The notes at all other paths are unchanged, and so are all notes after
/// an allocation failure.
pub fn set_note(
    notes: &mut RepoPathTree<Option<String>>,
    path: RepoPath<'_>,
    note: String,
) -> Result<(), AllocError>
    ensures note { OnOk result (note_at notes.new (path_of path.entry) ≡ Some note) }
    ensures others { (other : Path) → other ≢ path_of path.entry
        → note_at notes.new other ≡ note_at notes.old other }
    ensures error { OnErr result ((any : Path) →
        note_at notes.new any ≡ note_at notes.old any) }
{
    notes.set(path, Some(note))
}

/// Returns the note at a path.
pub fn note<'a>(notes: &'a RepoPathTree<Option<String>>, path: RepoPath<'_>) -> Option<&'a String>
    ensures { option_copied result ≡ note_at notes.now (path_of path.entry) }
{
    notes.get(path)?.value().as_ref()
}

/// Increments the count at a path, saturating at the greatest `u64`. The counts at all other paths
/// are unchanged, and so are all counts after an allocation failure.
pub fn increment_count(counts: &mut RepoPathTree<u64>, path: RepoPath<'_>) -> Result<(), AllocError>
    ensures counted { OnOk result (count_at counts.new (path_of path.entry)
        ≡ min (count_at counts.old (path_of path.entry) + 1) (2 ^ 64 - 1)) }
    ensures others { (other : Path) → other ≢ path_of path.entry
        → count_at counts.new other ≡ count_at counts.old other }
    ensures error { OnErr result ((any : Path) →
        count_at counts.new any ≡ count_at counts.old any) }
{
    let node = counts.add(path)?;
    let count = *node.value();
    node.set_value(count.saturating_add(1));
    Ok(())
}

/// Splits off the last component of a path and joins it again: returns a copy of the string.
pub fn rejoin(alloc: Global, text: &str) -> Result<String, InvalidNewRepoPathError>
    ensures same { IfOk result (λ again. string_bytes again ≡ text.now) }
    ensures valid { IsOk result → IsTrue (is_path_string text.now) }
    ensures error { IfErr result (IsNoPathError text.now) }
{
    path_string_laws();
    let path = RepoPath::from_internal_string(alloc, text)?;
    match path.split() {
        None => Ok(String::new(alloc)),
        Some((above, name)) => Ok(above.join(alloc, name)?.into_internal_string()),
    }
}

/// Writes all bytes to a sink, in one write or more. Returns the sink's error, or one of kind
/// `Other` after 2^64 - 1 reads of the bytes; the sink then has a prefix of them.
pub fn send<W: Sink>(bytes: &[u8], sink: &mut W) -> io::Result<usize>
    requires { W.has_failed sink.old ≡ false }
    ensures all { OnOk result (Appends (W.contents sink.old) (W.contents sink.new) bytes.now) }
    ensures prefix { AppendsPrefixOf (W.contents sink.old) (W.contents sink.new) bytes.now }
    ensures error { IfErr result (λ e. W.may_fail e ⊎ (error_kind e ≡ Other)) }
{
    copy(&mut Watched::new(bytes), sink)
}

/// Copies the bytes through a sink in memory. Fails with kind `OutOfMemory`, or with kind `Other`
/// after 2^64 - 1 reads of the bytes.
pub fn copy_through_sink(alloc: Global, bytes: &[u8]) -> io::Result<Vec<u8>>
    ensures same { IfOk result (λ list. list.items ≡ bytes.now) }
    ensures error { IfErr result (λ e. (error_kind e ≡ OutOfMemory) ⊎ (error_kind e ≡ Other)) }
{
    let mut sink = Watched::new(Vec::new(alloc));
    send(bytes, &mut sink)?;
    Ok(sink.into_inner())
}
