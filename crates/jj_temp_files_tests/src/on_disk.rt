//! The file system of the process. Each test has a directory of its own.
use jj_files::file_util::PathError;
use jj_temp_files::{
    FileAccess, FileIdentity, NamedTempFile, SystemFiles, TempNames, check_executable_bit_support,
    check_symlink_support, persist_content_addressed_temp_file, persist_temp_file, symlink_dir,
    symlink_file,
};
use std::alloc::Global;
use std::collections::HashSet;
use std::fs::{File, Permissions};
use std::io::ErrorKind;
use std::os::unix::fs::PermissionsExt;
use std::process::Abort;
use std::test::Fail;
use std::{fs, io};

// A temporary file with these bytes. Its name is the first free one from `.tmp3` on.
fn temp_file<A: FileAccess>(
    alloc: Global,
    files: &mut A,
    dir: &str,
    bytes: &[u8],
) -> Result<NamedTempFile<A::File>, PathError> {
    let mut temp = NamedTempFile::new_in(alloc, files, dir, &mut TempNames::new(3))?;
    match temp.write(files, bytes) {
        Ok(count) if count == bytes.len() => Ok(temp),
        _ => {
            temp.close(alloc, files)?;
            Err(PathError::Memory)
        }
    }
}

// How many names a directory has.
fn count_names(rt: &HostRuntime, dir: &str) -> io::Result<u32> {
    let mut count = 0u32;
    for entry in fs::read_dir(rt, dir)? {
        let _entry = entry?;
        count = count.saturating_add(1);
    }
    Ok(count)
}

fn assert_fails_at<T: Drop>(
    rt: &impl Abort,
    outcome: Result<T, PathError>,
    expected_path: &str,
    expected: ErrorKind,
) {
    match outcome {
        Err(PathError::Invalid { path, source }) => {
            assert_eq!(rt; path.as_str(), expected_path);
            assert_eq!(rt; source.kind(), expected);
        }
        Err(PathError::Memory) => panic!(rt; "out of memory at {expected_path}"),
        Ok(_) => panic!(rt; "no error at {expected_path}"),
    }
}

// Makes an empty directory, also where a failed test has left one.
fn make_dir(rt: &HostRuntime, dir: &str) -> io::Result<()> {
    if fs::exists(rt, dir)? {
        fs::remove_dir_all(rt, dir)?;
    }
    fs::create_dir(rt, dir)
}

#[test]
fn files_are_persisted_and_identified(rt: HostRuntime) -> Result<(), Fail> {
    let alloc = rt.alloc();
    let mut files = SystemFiles::new(&rt);
    make_dir(&rt, "persisted")?;
    let temp = temp_file(alloc, &mut files, "persisted", b"new")?;
    let file = persist_temp_file(alloc, &mut files, temp, "persisted/target")?;
    let text = fs::read_to_string(&rt, "persisted/target")?;
    assert_eq!(rt; text.as_str(), "new");
    symlink_file(alloc, &mut files, "target", "persisted/link")?;
    fs::hard_link(&rt, "persisted/target", "persisted/hard")?;
    let opened = FileIdentity::from_file(&files, &file)?;
    let followed = FileIdentity::from_file(&files, &fs::open(&rt, "persisted/link")?)?;
    let hard = FileIdentity::from_symlink_path(alloc, &files, "persisted/hard")?;
    let link = FileIdentity::from_symlink_path(alloc, &files, "persisted/link")?;
    assert_eq!(rt; opened == hard, true);
    assert_eq!(rt; opened == followed, true);
    assert_eq!(rt; opened == link, false);
    fs::remove_dir_all(&rt, "persisted")?;
    Ok(())
}

#[test]
fn a_test_of_the_bit_leaves_nothing(rt: HostRuntime) -> Result<(), Fail> {
    let alloc = rt.alloc();
    let mut files = SystemFiles::new(&rt);
    make_dir(&rt, "bit")?;
    let kept = check_executable_bit_support(alloc, &mut files, "bit", &mut TempNames::new(3))?;
    assert_eq!(rt; kept, true);
    assert_eq!(rt; count_names(&rt, "bit")?, 0);
    assert_eq!(rt; check_symlink_support()?, true);
    fs::remove_dir_all(&rt, "bit")?;
    Ok(())
}

// A link that leads nowhere, one that leads to itself, and one to a directory.
#[test]
fn links_at_the_target_are_replaced(rt: HostRuntime) -> Result<(), Fail> {
    let alloc = rt.alloc();
    let mut files = SystemFiles::new(&rt);
    make_dir(&rt, "links")?;
    symlink_file(alloc, &mut files, "nowhere", "links/dangling")?;
    symlink_file(alloc, &mut files, "loop", "links/loop")?;
    symlink_dir(alloc, &mut files, ".", "links/dir")?;
    for target in ["links/dangling", "links/loop", "links/dir"] {
        let link = FileIdentity::from_symlink_path(alloc, &files, target)?;
        let temp = temp_file(alloc, &mut files, "links", b"new")?;
        let file = persist_temp_file(alloc, &mut files, temp, target)?;
        let opened = FileIdentity::from_file(&files, &file)?;
        let there = FileIdentity::from_symlink_path(alloc, &files, target)?;
        assert_eq!(rt; opened == there, true, "at {target}");
        assert_eq!(rt; link == there, false, "at {target}");
        let text = fs::read_to_string(&rt, target)?;
        assert_eq!(rt; text.as_str(), "new", "at {target}");
    }
    assert_eq!(rt; count_names(&rt, "links")?, 3);
    fs::remove_dir_all(&rt, "links")?;
    Ok(())
}

#[test]
fn names_of_links_are_taken(rt: HostRuntime) -> Result<(), Fail> {
    let alloc = rt.alloc();
    let mut files = SystemFiles::new(&rt);
    make_dir(&rt, "taken")?;
    symlink_file(alloc, &mut files, "nowhere", "taken/.tmp3")?;
    symlink_file(alloc, &mut files, ".tmp4", "taken/.tmp4")?;
    let temp = temp_file(alloc, &mut files, "taken", b"new")?;
    assert_eq!(rt; temp.path(), "taken/.tmp5");
    temp.close(alloc, &mut files)?;
    assert_eq!(rt; count_names(&rt, "taken")?, 2);
    let again = symlink_dir(alloc, &mut files, "x", "taken/.tmp4");
    assert_fails_at(&rt, again, "taken/.tmp4", ErrorKind::AlreadyExists);
    fs::remove_dir_all(&rt, "taken")?;
    Ok(())
}

#[test]
fn a_directory_at_the_target_stays(rt: HostRuntime) -> Result<(), Fail> {
    let alloc = rt.alloc();
    let mut files = SystemFiles::new(&rt);
    make_dir(&rt, "above")?;
    fs::create_dir(&rt, "above/target")?;
    let temp = temp_file(alloc, &mut files, "above", b"new")?;
    let persisted = persist_temp_file(alloc, &mut files, temp, "above/target");
    assert_fails_at(&rt, persisted, "above/target", ErrorKind::IsADirectory);
    assert_eq!(rt; count_names(&rt, "above")?, 1);
    assert_eq!(rt; fs::metadata(&rt, "above/target")?.is_dir(), true);
    let missing = NamedTempFile::new_in(alloc, &mut files, "missing", &mut TempNames::new(3));
    match missing {
        Ok(temp) => temp.close(alloc, &mut files)?,
        Err(error) => {
            assert_fails_at::<()>(&rt, Err(error), "missing/.tmp3", ErrorKind::NotFound);
        }
    }
    fs::remove_dir_all(&rt, "above")?;
    Ok(())
}

// The user `root` may write everywhere.
#[test]
fn a_directory_without_permission_stays_empty(rt: HostRuntime) -> Result<(), Fail> {
    let alloc = rt.alloc();
    let mut files = SystemFiles::new(&rt);
    make_dir(&rt, "closed")?;
    fs::set_permissions(&rt, "closed", Permissions::from_mode(0o500))?;
    let created = NamedTempFile::new_in(alloc, &mut files, "closed", &mut TempNames::new(3));
    match created {
        Ok(temp) => temp.close(alloc, &mut files)?,
        Err(error) => {
            assert_fails_at::<()>(&rt, Err(error), "closed/.tmp3", ErrorKind::PermissionDenied);
        }
    }
    assert_eq!(rt; count_names(&rt, "closed")?, 0);
    fs::remove_dir_all(&rt, "closed")?;
    Ok(())
}

#[test]
fn two_writers_of_one_content_succeed(rt: HostRuntime) -> Result<(), Fail> {
    let alloc = rt.alloc();
    let mut files = SystemFiles::new(&rt);
    make_dir(&rt, "objects")?;
    let first = temp_file(alloc, &mut files, "objects", b"content")?;
    let second = temp_file(alloc, &mut files, "objects", b"content");
    let one = persist_content_addressed_temp_file(alloc, &mut files, first, "objects/id");
    let other = persist_content_addressed_temp_file(alloc, &mut files, second?, "objects/id");
    let one = FileIdentity::from_file(&files, &one?)?;
    let other = FileIdentity::from_file(&files, &other?)?;
    let there = FileIdentity::from_symlink_path(alloc, &files, "objects/id")?;
    assert_eq!(rt; there == other, true);
    assert_eq!(rt; there == one, false);
    let text = fs::read_to_string(&rt, "objects/id")?;
    assert_eq!(rt; text.as_str(), "content");
    assert_eq!(rt; count_names(&rt, "objects")?, 1);
    fs::remove_dir_all(&rt, "objects")?;
    Ok(())
}

#[test]
fn identities_are_those_of_files_and_of_links(rt: HostRuntime) -> Result<(), Fail> {
    let alloc = rt.alloc();
    let mut files = SystemFiles::new(&rt);
    make_dir(&rt, "same")?;
    fs::create_dir(&rt, "same/dir")?;
    fs::create_dir(&rt, "same/other")?;
    symlink_dir(alloc, &mut files, "dir", "same/link")?;
    let dir = FileIdentity::from_symlink_path(alloc, &files, "same/dir")?;
    let other = FileIdentity::from_symlink_path(alloc, &files, "same/other")?;
    let link = FileIdentity::from_symlink_path(alloc, &files, "same/link")?;
    let opened = FileIdentity::from_file(&files, &fs::open(&rt, "same/link")?)?;
    let mut distinct = HashSet::new(alloc);
    for identity in [dir, other, link, opened, dir, link] {
        let _was_new = distinct.insert(identity)?;
    }
    assert_eq!(rt; distinct.len(), 3);
    assert_eq!(rt; dir == opened, true);
    assert_eq!(rt; dir == link, false);
    assert_eq!(rt; dir == other, false);
    let shown = format!(in alloc; "{dir:?}")?;
    assert_eq!(rt; shown.starts_with("FileIdentity { device: "), true);
    fs::remove_dir_all(&rt, "same")?;
    Ok(())
}

// The old file is closed, and then it is open.
#[test]
fn an_existing_file_is_replaced(rt: HostRuntime) -> Result<(), Fail> {
    let alloc = rt.alloc();
    let mut files = SystemFiles::new(&rt);
    make_dir(&rt, "existing")?;
    fs::write(&rt, "existing/target", "old")?;
    let temp = temp_file(alloc, &mut files, "existing", b"new")?;
    persist_content_addressed_temp_file(alloc, &mut files, temp, "existing/target")?;
    let text = fs::read_to_string(&rt, "existing/target")?;
    assert_eq!(rt; text.as_str(), "new");
    let old = fs::open(&rt, "existing/target")?;
    let temp = temp_file(alloc, &mut files, "existing", b"newer")?;
    persist_content_addressed_temp_file(alloc, &mut files, temp, "existing/target")?;
    let text = fs::read_to_string(&rt, "existing/target")?;
    assert_eq!(rt; text.as_str(), "newer");
    let text = io::read_to_string(alloc, old)?;
    assert_eq!(rt; text.as_str(), "new");
    fs::remove_dir_all(&rt, "existing")?;
    Ok(())
}
