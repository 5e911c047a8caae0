//! The reason and the offset of each error.
use jj_decode::decode::decode_content;
use jj_decode::error::{DecodeError, Malformation};
use std::collections::{BTreeMap, HashMap, HashSet};
use std::test::Fail;

fn malformed<T>(reason: Malformation, offset: usize) -> Result<T, DecodeError> {
    Err(DecodeError::Malformed { reason, offset })
}

#[test]
fn truncated(rt: HostRuntime) -> Result<(), Fail> {
    let alloc = rt.alloc();
    let greatest_count = [255u8; 8];
    assert_eq!(rt;
        decode_content::<u32>(alloc, &[1, 2, 3]),
        malformed(Malformation::Truncated, 0)
    );
    assert_eq!(rt;
        decode_content::<(u8, u64)>(alloc, &[9, 1, 2]),
        malformed(Malformation::Truncated, 1)
    );
    assert_eq!(rt;
        decode_content::<Vec<u32>>(alloc, &greatest_count),
        malformed(Malformation::Truncated, 0)
    );
    assert_eq!(rt;
        decode_content::<String>(alloc, &greatest_count),
        malformed(Malformation::Truncated, 0)
    );
    assert_eq!(rt;
        decode_content::<HashSet<u8>>(alloc, &greatest_count),
        malformed(Malformation::Truncated, 0)
    );
    assert_eq!(rt;
        decode_content::<Vec<u32>>(alloc, &[1, 0, 0, 0, 0, 0, 0, 0, 9]),
        malformed(Malformation::Truncated, 8)
    );
    Ok(())
}

#[test]
fn unknown_tag(rt: HostRuntime) -> Result<(), Fail> {
    let alloc = rt.alloc();
    assert_eq!(rt;
        decode_content::<Option<u8>>(alloc, &[2, 0, 0, 0, 7]),
        malformed(Malformation::UnknownTag, 0)
    );
    assert_eq!(rt;
        decode_content::<(u8, bool)>(alloc, &[0, 2]),
        malformed(Malformation::UnknownTag, 1)
    );
    Ok(())
}

#[test]
fn invalid_utf8(rt: HostRuntime) -> Result<(), Fail> {
    let alloc = rt.alloc();
    let bytes = [1, 0, 0, 0, 0, 0, 0, 0, 0xff];
    assert_eq!(rt;
        decode_content::<String>(alloc, &bytes),
        malformed(Malformation::InvalidUtf8, 0)
    );
    assert_eq!(rt; decode_content::<Vec<u8>>(alloc, &bytes).is_ok(), true);
    Ok(())
}

#[test]
fn unordered_keys(rt: HostRuntime) -> Result<(), Fail> {
    let alloc = rt.alloc();
    let equal = [2, 0, 0, 0, 0, 0, 0, 0, 1, 10, 1, 20];
    let descending = [2, 0, 0, 0, 0, 0, 0, 0, 2, 10, 1, 20];
    assert_eq!(rt;
        decode_content::<BTreeMap<u8, u8>>(alloc, &equal),
        malformed(Malformation::UnorderedKeys, 10)
    );
    assert_eq!(rt;
        decode_content::<BTreeMap<u8, u8>>(alloc, &descending),
        malformed(Malformation::UnorderedKeys, 10)
    );
    assert_eq!(rt;
        decode_content::<HashMap<u8, u8>>(alloc, &descending),
        malformed(Malformation::UnorderedKeys, 10)
    );
    assert_eq!(rt;
        decode_content::<HashSet<u8>>(alloc, &[2, 0, 0, 0, 0, 0, 0, 0, 7, 7]),
        malformed(Malformation::UnorderedKeys, 9)
    );
    Ok(())
}

#[test]
fn trailing_bytes(rt: HostRuntime) -> Result<(), Fail> {
    let alloc = rt.alloc();
    assert_eq!(rt;
        decode_content::<u8>(alloc, &[1, 2, 3]),
        malformed(Malformation::TrailingBytes, 1)
    );
    Ok(())
}

#[test]
fn messages(rt: HostRuntime) -> Result<(), Fail> {
    let alloc = rt.alloc();
    for (reason, expected) in [
        (Malformation::Truncated, "at 10: truncated"),
        (Malformation::UnknownTag, "at 10: unknown tag"),
        (Malformation::InvalidUtf8, "at 10: string is not UTF-8"),
        (Malformation::UnorderedKeys, "at 10: keys do not ascend"),
        (Malformation::InvalidValue, "at 10: invalid value"),
        (
            Malformation::TrailingBytes,
            "at 10: unexpected bytes after the value",
        ),
    ] {
        let error = DecodeError::Malformed { reason, offset: 10 };
        assert_eq!(rt; error.to_string(alloc)?.as_str(), expected);
    }
    assert_eq!(rt;
        DecodeError::Memory.to_string(alloc)?.as_str(),
        "out of memory"
    );
    Ok(())
}
