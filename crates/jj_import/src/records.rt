//! Parts of commits as Jujutsu has them.
ghost use Rattle.std.specs.Prelude.{◌≡◌, ◌*◌, pos, IfOk, string_bytes};
ghost use Rattle.std.specs.Option.{option_map, unwrap_or};
ghost use Rattle.jj_fast_import.specs.Values.{bytes_of, commit_value, person_value};
ghost use Rattle.jj_import.specs.Imported.{IsImported, IsSignature, imported_name, offset_of};

use crate::error::ImportError;
use jj_backend::backend::{
    ChangeId, Commit, CommitId, MillisSinceEpoch, Signature, Timestamp, TreeId, make_root_commit,
};
use jj_fast_import::command;
use jj_fast_import::command::{Person, Zone};
use jj_ids::object_id::ObjectId;
use std::alloc::{AllocError, Global};

fn offset_of(zone: Zone) -> i32
    ensures { result ≡ offset_of zone }
{
    let minutes = i32::from(zone.hours) * 60 + i32::from(zone.minutes);
    if zone.is_west { -minutes } else { minutes }
}

fn millis_of(field: &'static str, seconds: u64) -> Result<MillisSinceEpoch, ImportError>
    ensures { IfOk result (λ millis. millis.0 ≡ pos (1000 * seconds)) }
{
    match seconds.checked_mul(1000) {
        Some(millis) => match i64::try_from(millis) {
            Ok(millis) => Ok(MillisSinceEpoch(millis)),
            Err(_) => Err(ImportError::InvalidTime { field }),
        },
        None => Err(ImportError::InvalidTime { field }),
    }
}

fn name_of(alloc: Global, name: &Option<Vec<u8>>) -> Result<String, AllocError>
    ensures { IfOk result (λ text. string_bytes text
        ≡ imported_name (option_map bytes_of name.now)) }
{
    match name {
        Some(name) => String::from_utf8_lossy(alloc, name),
        None => Ok(String::new(alloc)),
    }
}

// Returns the signature of a person. Bytes that are not UTF-8 become U+FFFD, as in Jujutsu.
pub(crate) fn signature_of(
    alloc: Global,
    field: &'static str,
    person: &Person,
) -> Result<Signature, ImportError>
    ensures { IfOk result (IsSignature (person_value person.now)) }
{
    Ok(Signature {
        name: name_of(alloc, &person.name)?,
        email: String::from_utf8_lossy(alloc, &person.email)?,
        timestamp: Timestamp {
            timestamp: millis_of(field, person.seconds)?,
            tz_offset: offset_of(person.zone),
        },
    })
}

const CHANGE_ID_LENGTH: usize = 16;

// Returns a change id: the last 16 bytes of Git's id of a commit in reverse order, and the bits of
// each byte too, as Jujutsu has it; without an id of 20 bytes, the mark in 16 bytes.
pub(crate) fn change_id_of(
    alloc: Global,
    git_id: Option<&CommitId>,
    mark: Option<u64>,
) -> Result<ChangeId, AllocError> {
    let mut bytes = [0u8; CHANGE_ID_LENGTH];
    if let Some(id) = git_id
        && id.as_bytes().len() == 20
    {
        let id = id.as_bytes();
        for i in 0..CHANGE_ID_LENGTH {
            bytes[i] = id[19 - i].reverse_bits();
        }
    } else {
        let mark = mark.unwrap_or(0).to_be_bytes();
        for i in 0..8 {
            bytes[8 + i] = mark[i];
        }
    }
    ChangeId::from_bytes(alloc, &bytes)
}

// Returns the signature of an author, and that of the committer without one.
fn author_of(alloc: Global, commit: &command::Commit) -> Result<Signature, ImportError>
    ensures { IfOk result (λ signature. IsSignature (unwrap_or (commit_value commit.now).author
        (commit_value commit.now).committer) signature) }
{
    match &commit.author {
        Some(author) => signature_of(alloc, "author", author),
        None => signature_of(alloc, "committer", &commit.committer),
    }
}

// Returns the record of a commit with these parents and this tree.
pub(crate) fn record_of(
    alloc: Global,
    commit: &command::Commit,
    parents: Vec<CommitId>,
    tree: TreeId,
    git_id: Option<&String>,
) -> Result<Commit, ImportError>
    ensures { IfOk result (IsImported (commit_value commit.now) parents.items tree) }
{
    let git_id = match git_id {
        Some(git_id) => CommitId::try_from_hex(alloc, git_id.as_str())?,
        None => None,
    };
    let change_id = change_id_of(alloc, git_id.as_ref(), commit.mark)?;
    let author = author_of(alloc, commit)?;
    let committer = signature_of(alloc, "committer", &commit.committer)?;
    let description = String::from_utf8_lossy(alloc, &commit.message)?;
    let mut record = make_root_commit(alloc, change_id, tree);
    record.parents = parents;
    record.description = description;
    record.author = author;
    record.committer = committer;
    Ok(record)
}
