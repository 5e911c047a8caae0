//! Each record, decoded from its content, from each prefix of it, and from it and one more byte: no
//! contract states that decoding succeeds.
use crate::records;
use jj_backend::backend::{MillisSinceEpoch, TreeValue};
use jj_content::content_hash::content_of;
use jj_decode::decode::decode_content;
use jj_decode::error::{DecodeError, Malformation};
use jj_decode::read_content::ReadContent;
use jj_ids::object_id::CommitId;
use jj_ids::ref_name::RefNameBuf;
use jj_paths::repo_path::RepoPathBuf;
use jj_stores::op_store::{RemoteRefState, TimestampRange};
use std::alloc::Global;
use std::process::Abort;
use std::test::Fail;

/// Returns the reason and the offset of the error of decoding these bytes, if they are malformed.
pub fn error_of<T: ReadContent>(alloc: Global, bytes: &[u8]) -> Option<(Malformation, usize)> {
    match decode_content::<T>(alloc, bytes) {
        Err(DecodeError::Malformed { reason, offset }) => Some((reason, offset)),
        _ => None,
    }
}

fn is_truncated(error: Option<(Malformation, usize)>) -> bool {
    matches!(error, Some((Malformation::Truncated, _)))
}

// Decodes the content of a value, each prefix of it, and it and one more byte.
fn check<T: ReadContent, R: Abort>(rt: &R, alloc: Global, value: &T) -> Result<(), Fail> {
    let mut bytes = content_of(alloc, value)?;
    let decoded: T = decode_content(alloc, &bytes)?;
    assert!(rt; decoded == *value);
    let length = bytes.len();
    for cut in 0..length {
        assert!(rt;
            is_truncated(error_of::<T>(alloc, &bytes[..cut])),
            "at {cut}"
        );
    }
    bytes.push(0)?;
    let found = error_of::<T>(alloc, &bytes);
    assert_eq!(rt; found, Some((Malformation::TrailingBytes, length)));
    Ok(())
}

// Checks a value and drops it. If the caller owned the value, each of its paths would drop it, and
// each drop is proved.
fn check_value<T: ReadContent, R: Abort>(rt: &R, alloc: Global, value: T) -> Result<(), Fail> {
    check(rt, alloc, &value)
}

#[test]
fn ids_names_paths_and_merges(rt: HostRuntime) -> Result<(), Fail> {
    let alloc = rt.alloc();
    check_value::<CommitId, _>(&rt, alloc, records::id(alloc, 1)?)?;
    check_value(&rt, alloc, RefNameBuf::from_text(alloc, "ä/b")?)?;
    check_value(&rt, alloc, records::component(alloc, "ä")?)?;
    check_value(&rt, alloc, RepoPathBuf::root(alloc))?;
    check_value(&rt, alloc, records::path(alloc, "dir/file")?)?;
    check_value(&rt, alloc, records::target(alloc)?)?;
    Ok(())
}

#[test]
fn records_of_backends(rt: HostRuntime) -> Result<(), Fail> {
    let alloc = rt.alloc();
    check_value(&rt, alloc, MillisSinceEpoch(i64::MIN))?;
    check_value(&rt, alloc, records::time(-1))?;
    check_value(&rt, alloc, records::signature(alloc, "author")?)?;
    check_value(&rt, alloc, records::secure_sig(alloc)?)?;
    check_value(&rt, alloc, records::file(alloc)?)?;
    check_value(&rt, alloc, TreeValue::Symlink(records::id(alloc, 1)?))?;
    check_value(&rt, alloc, TreeValue::Tree(records::id(alloc, 1)?))?;
    check_value(&rt, alloc, TreeValue::GitSubmodule(records::id(alloc, 1)?))?;
    check_value(&rt, alloc, records::tree(alloc)?)?;
    check_value(&rt, alloc, records::commit(alloc)?)?;
    check_value(&rt, alloc, records::history(alloc)?)?;
    Ok(())
}

#[test]
fn records_of_operation_stores(rt: HostRuntime) -> Result<(), Fail> {
    let alloc = rt.alloc();
    let range = TimestampRange {
        start: records::time(1),
        end: records::time(2),
    };
    check_value(&rt, alloc, RemoteRefState::New)?;
    check_value(&rt, alloc, RemoteRefState::Tracked)?;
    check_value(&rt, alloc, records::remote_ref(alloc)?)?;
    check_value(&rt, alloc, records::remote_view(alloc)?)?;
    check_value(&rt, alloc, records::view(alloc)?)?;
    check_value(&rt, alloc, range)?;
    check_value(&rt, alloc, records::metadata(alloc)?)?;
    check_value(&rt, alloc, records::operation(alloc)?)?;
    Ok(())
}
