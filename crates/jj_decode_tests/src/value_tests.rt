//! Values decoded from bytes that were written by hand: no contract states that decoding succeeds.
use jj_decode::decode::decode_content;
use std::collections::{BTreeMap, HashMap, HashSet};
use std::test::Fail;

#[test]
fn integers(rt: HostRuntime) -> Result<(), Fail> {
    let alloc = rt.alloc();
    let bytes = [0x78, 0x56, 0x34, 0x12, 0, 0, 0, 0x80];
    assert_eq!(rt; decode_content::<u8>(alloc, &bytes[..1]), Ok(0x78));
    assert_eq!(rt; decode_content::<u32>(alloc, &bytes[..4]), Ok(0x1234_5678));
    assert_eq!(rt;
        decode_content::<u64>(alloc, &bytes),
        Ok(0x8000_0000_1234_5678)
    );
    assert_eq!(rt;
        decode_content::<i32>(alloc, &[0xfe, 0xff, 0xff, 0xff]),
        Ok(-2)
    );
    assert_eq!(rt; decode_content::<i64>(alloc, &[255; 8]), Ok(-1));
    assert_eq!(rt; decode_content::<bool>(alloc, &[1]), Ok(true));
    Ok(())
}

#[test]
fn options_and_tuples(rt: HostRuntime) -> Result<(), Fail> {
    let alloc = rt.alloc();
    assert_eq!(rt; decode_content::<Option<u8>>(alloc, &[0; 4]), Ok(None));
    assert_eq!(rt;
        decode_content::<Option<u8>>(alloc, &[1, 0, 0, 0, 7]),
        Ok(Some(7))
    );
    assert_eq!(rt; decode_content::<(u8,)>(alloc, &[1]), Ok((1,)));
    assert_eq!(rt;
        decode_content::<(u8, bool, u8)>(alloc, &[1, 0, 2]),
        Ok((1, false, 2))
    );
    assert_eq!(rt;
        decode_content::<(u8, u8, u8, u8)>(alloc, &[1, 2, 3, 4]),
        Ok((1, 2, 3, 4))
    );
    Ok(())
}

#[test]
fn strings_and_lists(rt: HostRuntime) -> Result<(), Fail> {
    let alloc = rt.alloc();
    let bytes = [2, 0, 0, 0, 0, 0, 0, 0, 0xc3, 0xa4];
    assert_eq!(rt; decode_content::<String>(alloc, &bytes)?.as_str(), "ä");
    assert_eq!(rt;
        decode_content::<Vec<u8>>(alloc, &bytes)?.as_slice(),
        [0xc3, 0xa4].as_slice()
    );
    Ok(())
}

#[test]
fn maps_and_sets(rt: HostRuntime) -> Result<(), Fail> {
    let alloc = rt.alloc();
    let entries = [2, 0, 0, 0, 0, 0, 0, 0, 1, 10, 2, 20];
    let sorted = decode_content::<BTreeMap<u8, u8>>(alloc, &entries)?;
    assert_eq!(rt;
        (sorted.len(), sorted.get(&1), sorted.get(&2)),
        (2, Some(&10), Some(&20))
    );
    let hashed = decode_content::<HashMap<u8, u8>>(alloc, &entries)?;
    assert_eq!(rt;
        (hashed.len(), hashed.get(&1), hashed.get(&2)),
        (2, Some(&10), Some(&20))
    );
    let members = decode_content::<HashSet<u8>>(alloc, &[2, 0, 0, 0, 0, 0, 0, 0, 1, 2])?;
    assert_eq!(rt;
        (members.len(), members.contains(&1), members.contains(&2)),
        (2, true, true)
    );
    Ok(())
}
