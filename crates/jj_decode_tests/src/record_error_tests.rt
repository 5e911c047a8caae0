//! Malformed contents of records. They are encoded as values of types that allow more: the content
//! of a tree is that of a list of names and values.
use crate::record_tests::error_of;
use crate::records;
use jj_backend::backend::{Commit, Signature, Tree, TreeValue};
use jj_content::content_hash::{ContentHash, content_of};
use jj_decode::error::Malformation;
use jj_decode::read_content::ReadContent;
use jj_ids::object_id::CommitId;
use jj_ids::ref_name::RefNameBuf;
use jj_merges::merge::Merge;
use jj_paths::repo_path::{RepoPathBuf, RepoPathComponentBuf};
use jj_stores::op_store::{Operation, RefTarget, RemoteRefState, RemoteView, View};
use std::alloc::{AllocError, Global};
use std::test::Fail;

type Error = Option<(Malformation, usize)>;

// The error of decoding the content of a value as a `T`.
fn error_as<T: ReadContent, U: ContentHash>(alloc: Global, value: &U) -> Result<Error, AllocError> {
    Ok(error_of::<T>(alloc, &content_of(alloc, value)?))
}

// The error of decoding these bytes with one of them replaced.
fn error_with<T: ReadContent>(
    alloc: Global,
    bytes: &[u8],
    index: usize,
    byte: u8,
) -> Result<Error, AllocError> {
    let mut bytes = bytes.to_vec(alloc)?;
    if let Some(replaced) = bytes.get_mut(index) {
        *replaced = byte;
    }
    Ok(error_of::<T>(alloc, &bytes))
}

// The content of a value that it drops.
fn content_of_value<T: ContentHash + Drop>(alloc: Global, value: T) -> Result<Vec<u8>, AllocError> {
    content_of(alloc, &value)
}

#[test]
fn truncated_files(rt: HostRuntime) -> Result<(), Fail> {
    let alloc = rt.alloc();
    let bytes = content_of_value(alloc, records::file(alloc)?)?;
    for (length, offset) in [
        (0, 0),
        (3, 0),
        (4, 4),
        (13, 4),
        (14, 14),
        (15, 15),
        (24, 15),
    ] {
        let found = error_of::<TreeValue>(alloc, bytes.get(..length).ok_or("no such length")?);
        assert_eq!(rt;
            found,
            Some((Malformation::Truncated, offset)),
            "at {length}"
        );
    }
    Ok(())
}

#[test]
fn counts_beyond_the_bytes(rt: HostRuntime) -> Result<(), Fail> {
    let alloc = rt.alloc();
    for found in [
        error_as::<CommitId, u64>(alloc, &1)?,
        error_as::<RepoPathBuf, u64>(alloc, &u64::MAX)?,
        error_as::<Merge<CommitId>, u64>(alloc, &u64::MAX)?,
        error_as::<Tree, u64>(alloc, &u64::MAX)?,
        error_as::<View, u64>(alloc, &u64::MAX)?,
    ] {
        assert_eq!(rt; found, Some((Malformation::Truncated, 0)));
    }
    Ok(())
}

#[test]
fn names_of_trees(rt: HostRuntime) -> Result<(), Fail> {
    let alloc = rt.alloc();
    for (first, second, expected) in [
        ("a", "b", None),
        ("b", "a", Some((Malformation::UnorderedKeys, 0))),
        ("a", "a", Some((Malformation::UnorderedKeys, 0))),
        ("", "a", Some((Malformation::InvalidValue, 8))),
        ("a/b", "c", Some((Malformation::InvalidValue, 8))),
        ("a", "", Some((Malformation::InvalidValue, 31))),
        ("a", "/", Some((Malformation::InvalidValue, 31))),
    ] {
        let entries = [(first, 1u32, "id"), (second, 1u32, "id")];
        let found = error_as::<Tree, _>(alloc, &entries.as_slice())?;
        assert_eq!(rt; found, expected, "for {first:?} and {second:?}");
    }
    Ok(())
}

#[test]
fn paths(rt: HostRuntime) -> Result<(), Fail> {
    let alloc = rt.alloc();
    for path in ["/", "/a", "a/", "a//b"] {
        let found = error_as::<RepoPathBuf, &str>(alloc, &path)?;
        assert_eq!(rt;
            found,
            Some((Malformation::InvalidValue, 0)),
            "for {path:?}"
        );
    }
    Ok(())
}

#[test]
fn invalid_utf8(rt: HostRuntime) -> Result<(), Fail> {
    let alloc = rt.alloc();
    let string = [0xffu8].as_slice();
    let expected = Some((Malformation::InvalidUtf8, 0));
    assert_eq!(rt; error_as::<RefNameBuf, &[u8]>(alloc, &string)?, expected);
    assert_eq!(rt;
        error_as::<RepoPathComponentBuf, &[u8]>(alloc, &string)?,
        expected
    );
    assert_eq!(rt; error_as::<RepoPathBuf, &[u8]>(alloc, &string)?, expected);
    let found = error_as::<Signature, (&str, &[u8])>(alloc, &("a", string))?;
    assert_eq!(rt; found, Some((Malformation::InvalidUtf8, 9)));
    Ok(())
}

#[test]
fn merges(rt: HostRuntime) -> Result<(), Fail> {
    let alloc = rt.alloc();
    let terms = ["a", "b", "c", "d"];
    for (length, expected) in [
        (0, Some((Malformation::InvalidValue, 0))),
        (1, None),
        (2, Some((Malformation::InvalidValue, 0))),
        (3, None),
        (4, Some((Malformation::InvalidValue, 0))),
    ] {
        let terms = terms.get(..length).ok_or("no such length")?;
        let found = error_as::<Merge<String>, &[&str]>(alloc, &terms)?;
        assert_eq!(rt; found, expected, "for {length} terms");
    }
    Ok(())
}

#[test]
fn unknown_tags(rt: HostRuntime) -> Result<(), Fail> {
    let alloc = rt.alloc();
    for (found, offset) in [
        (error_as::<TreeValue, _>(alloc, &(4u32, "id"))?, 0),
        (
            error_as::<TreeValue, _>(alloc, &(0u32, "id", 2u8, "copy"))?,
            14,
        ),
        (error_as::<RemoteRefState, u32>(alloc, &2)?, 0),
        (error_as::<RefTarget, &[u32]>(alloc, &[2u32].as_slice())?, 8),
    ] {
        assert_eq!(rt; found, Some((Malformation::UnknownTag, offset)));
    }
    Ok(())
}

#[test]
fn unordered_keys(rt: HostRuntime) -> Result<(), Fail> {
    let alloc = rt.alloc();
    for (first, second) in [("b", "a"), ("a", "a")] {
        let bookmarks = [
            (first, [0u32].as_slice(), 0u32),
            (second, [0u32].as_slice(), 0u32),
        ];
        let found = error_as::<RemoteView, _>(alloc, &bookmarks.as_slice())?;
        assert_eq!(rt; found, Some((Malformation::UnorderedKeys, 33)));
        let heads = [first, second];
        let found = error_as::<View, _>(alloc, &heads.as_slice())?;
        assert_eq!(rt; found, Some((Malformation::UnorderedKeys, 17)));
    }
    Ok(())
}

#[test]
fn commits_with_a_replaced_byte(rt: HostRuntime) -> Result<(), Fail> {
    let alloc = rt.alloc();
    let bytes = content_of_value(alloc, records::commit(alloc)?)?;
    for (index, byte, reason, offset) in [
        (7, 1, Malformation::Truncated, 0),
        (46, 2, Malformation::InvalidValue, 46),
        (84, 4, Malformation::InvalidValue, 84),
        (131, 1, Malformation::Truncated, 124),
        (169, 0xff, Malformation::InvalidUtf8, 161),
        (246, 2, Malformation::UnknownTag, 246),
    ] {
        let found = error_with::<Commit>(alloc, &bytes, index, byte)?;
        assert_eq!(rt; found, Some((reason, offset)), "at {index}");
    }
    Ok(())
}

#[test]
fn operations_with_a_replaced_byte(rt: HostRuntime) -> Result<(), Fail> {
    let alloc = rt.alloc();
    let bytes = content_of_value(alloc, records::operation(alloc)?)?;
    for (index, byte, reason, offset) in [
        (52, 255, Malformation::Truncated, 52),
        (60, 0x80, Malformation::InvalidUtf8, 52),
        (100, 2, Malformation::UnknownTag, 100),
        (101, 2, Malformation::UnknownTag, 101),
    ] {
        let found = error_with::<Operation>(alloc, &bytes, index, byte)?;
        assert_eq!(rt; found, Some((reason, offset)), "at {index}");
    }
    Ok(())
}
