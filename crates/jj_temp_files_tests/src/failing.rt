//! A file system of one temporary file and one target, in which one call fails.
use jj_files::file_util::PathError;
use jj_temp_files::{
    FileAccess, FileStatus, NamedTempFile, TempNames, check_executable_bit_support,
    persist_temp_file,
};
use std::io;
use std::io::ErrorKind;
use std::test::Fail;

#[derive(Clone, Copy, Debug, PartialEq, Eq)]
enum Target {
    Old,
    Torn,
    Whole,
}

// After `calls_left` calls, the next one fails with `error`, and if it stops there, as in a process
// that is killed, so do all after it. A file that is renamed before it was synced is torn.
#[derive(Drop)]
struct Disk {
    has_temp: bool,
    is_synced: bool,
    target: Target,
    mode: u32,
    calls_left: u32,
    error: ErrorKind,
    stops: bool,
}

impl Disk {
    fn new(calls_left: u32, error: ErrorKind) -> Disk {
        Disk {
            has_temp: false,
            is_synced: false,
            target: Target::Old,
            mode: 0o600,
            calls_left,
            error,
            stops: false,
        }
    }

    // Counts a call.
    fn call(&mut self) -> io::Result<()> {
        if self.calls_left == 0 {
            if !self.stops {
                self.calls_left = u32::MAX;
            }
            return Err(io::Error::from(self.error));
        }
        self.calls_left -= 1;
        Ok(())
    }
}

impl FileAccess for Disk {
    type File = ();

    ghost may_create = { λ _ _ _ _. Unit {0} };

    ghost may_write = { λ _ _ _ _ _ _. Unit {0} };

    ghost may_sync = { λ _ _ _ _. Unit {0} };

    ghost may_rename = { λ _ _ _ _ _. Unit {0} };

    ghost may_remove = { λ _ _ _ _. Unit {0} };

    ghost may_link = { λ _ _ _ _ _. Unit {0} };

    ghost may_set_mode = { λ _ _ _ _ _. Unit {0} };

    ghost may_stat = { λ _ _ _. Unit {0} };

    ghost may_stat_link = { λ _ _ _. Unit {0} };

    fn create_new(&mut self, path: &str) -> io::Result<()> {
        if path == "dir/.tmp7" {
            return Err(io::Error::from(ErrorKind::AlreadyExists));
        }
        self.call()?;
        self.has_temp = true;
        Ok(())
    }

    fn write(&mut self, _file: &mut (), piece: &[u8]) -> io::Result<usize> {
        self.call()?;
        Ok(piece.len())
    }

    fn sync_data(&mut self, _file: &()) -> io::Result<()> {
        self.call()?;
        self.is_synced = true;
        Ok(())
    }

    fn rename(&mut self, _from: &str, _to: &str) -> io::Result<()> {
        self.call()?;
        self.has_temp = false;
        self.target = if self.is_synced {
            Target::Whole
        } else {
            Target::Torn
        };
        Ok(())
    }

    fn remove_file(&mut self, _path: &str) -> io::Result<()> {
        self.call()?;
        self.has_temp = false;
        Ok(())
    }

    fn symlink(&mut self, _original: &str, _link: &str) -> io::Result<()> {
        self.call()
    }

    fn set_mode(&mut self, _file: &(), mode: u32) -> io::Result<()> {
        self.call()?;
        self.mode = mode;
        Ok(())
    }

    fn status(&self, _file: &()) -> io::Result<FileStatus> {
        Ok(FileStatus {
            device: 1,
            inode: 2,
            mode: self.mode,
        })
    }

    fn link_status(&self, _path: &str) -> io::Result<FileStatus> {
        Err(io::Error::from(ErrorKind::NotFound))
    }
}

#[test]
fn a_failed_call_leaves_the_old_file_and_no_temporary_one(rt: HostRuntime) -> Result<(), Fail> {
    let alloc = rt.alloc();
    for (calls, kind) in [
        (0, ErrorKind::PermissionDenied),
        (0, ErrorKind::StorageFull),
        (1, ErrorKind::StorageFull),
    ] {
        let mut disk = Disk::new(u32::MAX, kind);
        let mut names = TempNames::new(7);
        let temp = NamedTempFile::new_in(alloc, &mut disk, "dir", &mut names)?;
        assert_eq!(rt; temp.path(), "dir/.tmp8");
        disk.calls_left = calls;
        match persist_temp_file(alloc, &mut disk, temp, "dir/target") {
            Err(PathError::Invalid { path, source }) => {
                assert_eq!(rt; path.as_str(), "dir/target");
                assert_eq!(rt; source.kind(), kind);
            }
            Err(PathError::Memory) => return Ok(()),
            Ok(()) => panic!(rt; "call {calls} failed"),
        }
        assert_eq!(rt; disk.target, Target::Old);
        assert_eq!(rt; disk.has_temp, false);
    }
    Ok(())
}

// A full disk, in each call.
#[test]
fn a_full_disk_leaves_no_temporary_file(rt: HostRuntime) -> Result<(), Fail> {
    let alloc = rt.alloc();
    let mut disk = Disk::new(0, ErrorKind::StorageFull);
    match NamedTempFile::new_in(alloc, &mut disk, "dir", &mut TempNames::new(0)) {
        Ok(temp) => temp.close(alloc, &mut disk)?,
        Err(PathError::Invalid { path, source }) => {
            assert_eq!(rt; path.as_str(), "dir/.tmp0");
            assert_eq!(rt; source.kind(), ErrorKind::StorageFull);
        }
        Err(PathError::Memory) => return Ok(()),
    }
    assert_eq!(rt; disk.has_temp, false);
    let mut disk = Disk::new(1, ErrorKind::StorageFull);
    let mut temp = NamedTempFile::new_in(alloc, &mut disk, "dir", &mut TempNames::new(0))?;
    let written = temp.write(&mut disk, b"new");
    temp.close(alloc, &mut disk)?;
    assert_eq!(rt; written.is_err(), true);
    assert_eq!(rt; disk.has_temp, false);
    Ok(())
}

// The process is killed after each call in turn.
#[test]
fn a_stopped_process_leaves_the_old_file_or_the_new_one(rt: HostRuntime) -> Result<(), Fail> {
    let alloc = rt.alloc();
    for calls in 0..4u32 {
        let mut disk = Disk::new(u32::MAX, ErrorKind::Other);
        let mut temp = NamedTempFile::new_in(alloc, &mut disk, "dir", &mut TempNames::new(0))?;
        disk.stops = true;
        disk.calls_left = calls;
        let _ = temp.write(&mut disk, b"new");
        let _ = persist_temp_file(alloc, &mut disk, temp, "dir/target");
        let expected = if calls < 3 {
            Target::Old
        } else {
            Target::Whole
        };
        assert_eq!(rt; disk.target, expected, "after {calls} calls");
        assert_eq!(rt; disk.has_temp, calls < 3, "after {calls} calls");
    }
    Ok(())
}

#[test]
fn a_denied_change_of_the_mode_is_no_support(rt: HostRuntime) -> Result<(), Fail> {
    let alloc = rt.alloc();
    let mut disk = Disk::new(2, ErrorKind::PermissionDenied);
    let kept = check_executable_bit_support(alloc, &mut disk, "dir", &mut TempNames::new(0))?;
    assert_eq!(rt; kept, false);
    assert_eq!(rt; disk.has_temp, false);
    let mut disk = Disk::new(u32::MAX, ErrorKind::Other);
    let kept = check_executable_bit_support(alloc, &mut disk, "dir", &mut TempNames::new(0))?;
    assert_eq!(rt; kept, true);
    assert_eq!(rt; disk.mode, 0o700);
    Ok(())
}

// The path in the error is that of the temporary file, and then the directory.
#[test]
fn a_failed_test_of_the_bit_is_an_error(rt: HostRuntime) -> Result<(), Fail> {
    let alloc = rt.alloc();
    for (calls, expected) in [(0, "dir/.tmp0"), (1, "dir/.tmp0"), (2, "dir")] {
        let mut disk = Disk::new(calls, ErrorKind::ReadOnlyFilesystem);
        match check_executable_bit_support(alloc, &mut disk, "dir", &mut TempNames::new(0)) {
            Err(PathError::Invalid { path, source }) => {
                assert_eq!(rt; path.as_str(), expected, "after {calls} calls");
                assert_eq!(rt; source.kind(), ErrorKind::ReadOnlyFilesystem);
            }
            Err(PathError::Memory) => return Ok(()),
            Ok(_) => panic!(rt; "call {calls} failed"),
        }
    }
    Ok(())
}
