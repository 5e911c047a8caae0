//! Content and digests of records and enums with hand-written `ContentHash`.
// A call must return the expected value or an allocation failure. After a failure it is made a
// second time.
use crate::recorder::{assert_content, digest_of};
use crate::records::{Foo, GenericFoo, Kind, Maybe, Quadruple, Single, Triple};
use jj_content::content_hash::content_decides;
use std::alloc::{AllocError, Global};
use std::test::Fail;

// The digest of `Foo { x: [None, Some(42)], y: 17 }`.
const FOO_DIGEST: [u8; 64] = [
    0xe3, 0x3c, 0x42, 0x3b, 0x4b, 0x77, 0x4b, 0x13, 0x53, 0xc4, 0x14, 0xe0, 0xf9, 0xef, 0x10, 0x88,
    0x22, 0xfd, 0xe2, 0xfd, 0x51, 0x13, 0xfc, 0xd5, 0x3b, 0xf7, 0xbd, 0x9e, 0x74, 0xe3, 0x20, 0x66,
    0x90, 0xb9, 0x6a, 0xf9, 0x63, 0x73, 0xf2, 0x68, 0xed, 0x95, 0xdd, 0x02, 0x0c, 0x7c, 0xbe, 0x17,
    0x1c, 0x7b, 0x7a, 0x69, 0x47, 0xfc, 0xaf, 0x57, 0x03, 0xff, 0x6c, 0x8e, 0x20, 0x8c, 0xef, 0xd4,
];

fn foo(alloc: Global) -> Result<Foo, AllocError> {
    Ok(Foo {
        x: [None, Some(42)].to_vec(alloc)?,
        y: 17,
    })
}

#[test]
fn enums(rt: HostRuntime) -> Result<(), Fail> {
    let alloc = rt.alloc();
    let id = b"ab".to_vec(alloc).or_else(|_| b"ab".to_vec(alloc))?;
    let file = Kind::File {
        id,
        executable: true,
    };
    assert_content(
        &rt,
        alloc,
        &file,
        b"\x00\x00\x00\x00\x02\x00\x00\x00\x00\x00\x00\x00ab\x01",
    );
    assert_content(
        &rt,
        alloc,
        &Kind::Symlink(5),
        b"\x01\x00\x00\x00\x05\x00\x00\x00\x00\x00\x00\x00",
    );
    assert_content(&rt, alloc, &Kind::Absent, b"\x02\x00\x00\x00");
    assert_content(&rt, alloc, &Maybe::Nothing, b"\x00\x00\x00\x00");
    let just = b"\x01\x00\x00\x00\x01\x00\x00\x00";
    assert_content(&rt, alloc, &Maybe::Just(1), just);
    Ok(())
}

#[test]
fn content_is_prefix_free(rt: HostRuntime) -> Result<(), Fail> {
    let alloc = rt.alloc();
    let none = [0u8; 0].as_slice();
    let one = [1u8].as_slice();
    let first = (none, one);
    let second = (one, none);
    assert_content(
        &rt,
        alloc,
        &first,
        b"\x00\x00\x00\x00\x00\x00\x00\x00\x01\x00\x00\x00\x00\x00\x00\x00\x01",
    );
    assert_content(
        &rt,
        alloc,
        &second,
        b"\x01\x00\x00\x00\x00\x00\x00\x00\x01\x00\x00\x00\x00\x00\x00\x00\x00",
    );
    assert_ne!(rt; digest_of(alloc, &first)?, digest_of(alloc, &second)?);
    content_decides::<(&[u8], &[u8])>();
    Ok(())
}

#[test]
fn structs_hash_like_tuples(rt: HostRuntime) -> Result<(), Fail> {
    let alloc = rt.alloc();
    assert_eq!(rt; digest_of(alloc, &Single(0))?, digest_of(alloc, &(0i32,))?);
    let double = GenericFoo { x: 0i32, y: 1i32 };
    assert_eq!(rt;
        digest_of(alloc, &double)?,
        digest_of(alloc, &(0i32, 1i32))?
    );
    assert_eq!(rt;
        digest_of(alloc, &Triple(0, 1, 2))?,
        digest_of(alloc, &(0i32, 1i32, 2i32))?
    );
    assert_eq!(rt;
        digest_of(alloc, &Quadruple(0, 1, 2, 3))?,
        digest_of(alloc, &(0i32, 1i32, 2i32, 3i32))?
    );
    assert_ne!(rt;
        digest_of(alloc, &Single(42))?,
        digest_of(alloc, &Single(12))?
    );
    Ok(())
}

#[test]
fn record_vector(rt: HostRuntime) -> Result<(), Fail> {
    let alloc = rt.alloc();
    let foo = foo(alloc).or_else(|_| foo(alloc))?;
    let content =
        b"\x02\x00\x00\x00\x00\x00\x00\x00\x00\x00\x00\x00\x01\x00\x00\x00\x2a\x00\x00\x00\x11\x00\x00\x00\x00\x00\x00\x00";
    assert_content(&rt, alloc, &foo, content);
    assert_eq!(rt; digest_of(alloc, &foo)?, FOO_DIGEST);
    let items = [None, Some(42i32)];
    let generic = GenericFoo {
        x: items.as_slice(),
        y: 17i64,
    };
    assert_eq!(rt; digest_of(alloc, &generic)?, FOO_DIGEST);
    Ok(())
}
