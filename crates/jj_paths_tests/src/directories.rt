//! Tests of directory operations on an in-memory file system that injects one failure.
ghost use Rattle.std.specs.Prelude.{◌≡◌, ℕ, Bool, List, Result, Ok, Err, IsTrue};

use crate::fixtures::{equals, is_text};
use jj_content_tests::retry::{Passed, passes};
use jj_files::file_util::{
    DirAccess, IoResultExt, PathError, create_or_reuse_dir, is_empty_dir, remove_dir_contents,
};
use std::alloc::{AllocError, Global};
use std::cell::Cell;
use std::io;
use std::io::ErrorKind;
use std::process::Abort;
use std::test::Fail;

// A file system of one directory, `dir`, with up to three files. After `calls_left` calls, the next
// one fails, and so do all others.
#[derive(Drop)]
struct Memory {
    is_there: bool,
    files: [bool; 3],
    calls_left: Cell<u32>,
}

static NAMES: [&str; 3] = ["a", "b", "c"];

static PATHS: [&str; 3] = ["dir/a", "dir/b", "dir/c"];

impl Memory {
    fn new(is_there: bool, files: [bool; 3], calls_left: u32) -> Memory {
        Memory {
            is_there,
            files,
            calls_left: Cell::new(calls_left),
        }
    }

    // Counts a call, and returns whether it fails.
    fn fails(&self) -> bool {
        let left = self.calls_left.get();
        self.calls_left.set(left.saturating_sub(1));
        left == 0
    }

    fn count(&self) -> usize {
        self.files.iter().filter(|file| **file).count()
    }
}

impl DirAccess for Memory {
    ghost is_directory = { λ m path. m.is_there };

    ghost may_create = { λ m path r n. Unit {0} };

    ghost may_remove = { λ m path r n. Unit {0} };

    ghost may_list = { λ m path r. Unit {0} };

    fn create_dir(&mut self, path: &str) -> io::Result<()> {
        if self.fails() || path != "dir" {
            return Err(io::Error::from(ErrorKind::PermissionDenied));
        }
        if self.is_there {
            return Err(io::Error::from(ErrorKind::AlreadyExists));
        }
        self.is_there = true;
        Ok(())
    }

    fn remove_file(&mut self, path: &str) -> io::Result<()> {
        if self.fails() {
            return Err(io::Error::from(ErrorKind::PermissionDenied));
        }
        for i in 0..3usize {
            if path == PATHS[i] && self.files[i] {
                self.files[i] = false;
                return Ok(());
            }
        }
        Err(io::Error::from(ErrorKind::NotFound))
    }

    fn is_dir(&self, path: &str) -> bool {
        self.is_there
    }

    fn list(&self, alloc: Global, path: &str) -> Result<Vec<String>, PathError> {
        let listed = if self.fails() {
            Err(io::Error::from(ErrorKind::PermissionDenied))
        } else {
            Ok(())
        };
        listed.context(alloc, path)?;
        let mut names = Vec::new(alloc);
        for i in 0..3usize {
            if self.files[i] {
                names.push(String::from_str(alloc, NAMES[i])?)?;
            }
        }
        Ok(names)
    }
}

// Checks the path and the kind of an error, and passes on an allocation failure.
fn is_fault<R: Abort>(rt: &R, fault: &PathError, at: &str, kind: ErrorKind) -> Passed {
    match fault {
        PathError::Invalid { path, source } => {
            is_text(rt, path.as_str(), at);
            equals(rt, &source.kind(), &kind);
            Ok(())
        }
        PathError::Memory => Err(AllocError),
    }
}

fn makes_or_uses<R: Abort>(rt: &R, alloc: Global) -> Passed {
    let mut new = Memory::new(false, [false; 3], 9);
    equals(
        rt,
        &create_or_reuse_dir(alloc, &mut new, "dir").is_ok(),
        &true,
    );
    equals(rt, &new.is_there, &true);
    equals(
        rt,
        &create_or_reuse_dir(alloc, &mut new, "dir").is_ok(),
        &true,
    );
    Ok(())
}

#[test]
fn directories_are_made_or_used(rt: HostRuntime) -> Result<(), Fail> {
    passes(&rt, makes_or_uses)
}

fn fails_to_make<R: Abort>(rt: &R, alloc: Global) -> Passed {
    let mut failing = Memory::new(false, [false; 3], 0);
    match create_or_reuse_dir(alloc, &mut failing, "dir") {
        Ok(()) => panic!(rt; "made"),
        Err(fault) => is_fault(rt, &fault, "dir", ErrorKind::PermissionDenied),
    }
}

#[test]
fn directories_that_cannot_be_made(rt: HostRuntime) -> Result<(), Fail> {
    passes(&rt, fails_to_make)
}

fn empties_full<R: Abort>(rt: &R, alloc: Global) -> Passed {
    let mut full = Memory::new(true, [true; 3], 9);
    match remove_dir_contents(alloc, &mut full, "dir") {
        Ok(()) => equals(rt, &full.count(), &0),
        Err(fault) => return is_fault(rt, &fault, "", ErrorKind::Other),
    }
    Ok(())
}

#[test]
fn entries_are_removed(rt: HostRuntime) -> Result<(), Fail> {
    passes(&rt, empties_full)
}

// Fails the call of this number: the error has this path, and this many files are left.
fn stops_at<R: Abort>(rt: &R, alloc: Global, call: u32, path: &str, left: usize) -> Passed {
    let mut failing = Memory::new(true, [true; 3], call);
    match remove_dir_contents(alloc, &mut failing, "dir") {
        Ok(()) => panic!(rt; "removed"),
        Err(fault) => is_fault(rt, &fault, path, ErrorKind::PermissionDenied)?,
    }
    equals(rt, &failing.count(), &left);
    Ok(())
}

fn stops_at_each<R: Abort>(rt: &R, alloc: Global) -> Passed {
    stops_at(rt, alloc, 0, "dir", 3)?;
    for (i, path) in PATHS.iter().enumerate() {
        stops_at(rt, alloc, i as u32 + 1, path, 3 - i)?;
    }
    Ok(())
}

#[test]
fn entries_are_removed_up_to_the_first_fault(rt: HostRuntime) -> Result<(), Fail> {
    passes(&rt, stops_at_each)
}

// Whether the directory exists, which files it has, and the result of `is_empty_dir`.
static EMPTY: [(bool, [bool; 3], bool); 3] = [
    (true, [false; 3], true),
    (true, [false, true, false], false),
    (false, [false; 3], false),
];

fn is_empty<R: Abort>(rt: &R, alloc: Global, directory: &Memory, empty: bool) -> Passed {
    match is_empty_dir(alloc, directory, "dir") {
        Ok(found) => {
            equals(rt, &found, &empty);
            Ok(())
        }
        Err(fault) => is_fault(rt, &fault, "", ErrorKind::Other),
    }
}

fn are_empty<R: Abort>(rt: &R, alloc: Global) -> Passed {
    for (is_there, files, empty) in &EMPTY {
        is_empty(rt, alloc, &Memory::new(*is_there, *files, 9), *empty)?;
    }
    Ok(())
}

#[test]
fn empty_directories(rt: HostRuntime) -> Result<(), Fail> {
    passes(&rt, are_empty)
}

fn fails_to_list<R: Abort>(rt: &R, alloc: Global) -> Passed {
    match is_empty_dir(alloc, &Memory::new(true, [false; 3], 0), "dir") {
        Ok(_) => panic!(rt; "listed"),
        Err(fault) => is_fault(rt, &fault, "dir", ErrorKind::PermissionDenied),
    }
}

#[test]
fn directories_that_cannot_be_listed(rt: HostRuntime) -> Result<(), Fail> {
    passes(&rt, fails_to_list)
}
