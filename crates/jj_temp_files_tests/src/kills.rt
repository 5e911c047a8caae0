//! Processes that are killed while they write a file in memory.
use crate::memory_disk::MemoryDisk;
use jj_temp_files::{TempNames, write_file};
use std::test::Fail;

const OLD: &[u8] = b"old";

const NEW: &[u8] = b"newer";

// The calls of `write_file` for five bytes: it creates the file, writes three pieces, syncs and
// renames.
const CALLS: u32 = 6;

#[test]
fn a_kill_after_each_call_leaves_the_old_file_or_the_new_one(rt: HostRuntime) -> Result<(), Fail> {
    let alloc = rt.alloc();
    for calls in 0..CALLS + 1 {
        let mut disk = MemoryDisk::new(alloc);
        let mut names = TempNames::new(0);
        write_file(alloc, &mut disk, "dir", &mut names, "dir/target", OLD)?;
        disk.calls_left = calls;
        let written = write_file(alloc, &mut disk, "dir", &mut names, "dir/target", NEW);
        assert_eq!(rt; written.is_ok(), calls == CALLS, "after {calls} calls");
        let expected = if calls < CALLS { OLD } else { NEW };
        let edit = disk.newest("dir/target").ok_or("no file")?;
        assert_eq!(rt; edit.bytes.as_slice(), expected, "after {calls} calls");
        assert_eq!(rt; edit.is_there, true, "after {calls} calls");
        assert_eq!(rt; edit.is_synced, true, "after {calls} calls");
    }
    Ok(())
}
