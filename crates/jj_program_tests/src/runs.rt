//! Runs of the program with short and failing reads and writes.
use crate::ends::{Cut, Kept};
use jj_files::file_util::{StdIo, Watched};
use jj_filter::failure::Failure;
use jj_filter::filter::run;
use jj_program::program::{Command, FaultReport};
use std::alloc::Global;
use std::process::Abort;

/// Returns the result and the output of a run whose reads and writes process at most `most` bytes
/// and fail after so many calls.
pub fn outcome(
    alloc: Global,
    command: Command,
    input: &[u8],
    most: usize,
    reads: u32,
    writes: u32,
) -> (Result<(), Failure<FaultReport>>, Kept) {
    let mut reader = Watched::new(StdIo(Cut {
        rest: input,
        most,
        left: reads,
    }));
    let mut kept = Kept::new(most, writes);
    let mut writer = Watched::new(StdIo(&mut kept));
    let result = run(alloc, &command, &mut reader, &mut writer);
    (result, kept)
}

/// The output is the expected one for every size of reads and writes, unless out of memory.
pub fn writes(rt: &(impl Abort + AllocGlobal), command: Command, input: &str, output: &str) {
    for most in [1, 7, 1000] {
        let (result, kept) = outcome(rt.alloc(), command, input.as_bytes(), most, 1000, 1000);
        match result {
            Ok(()) => {
                assert_eq!(rt; kept.as_slice(), output.as_bytes(), "{input:?} {most}");
            }
            Err(fault) => {
                assert_eq!(rt; fault, Failure::Memory, "{input:?} {most}");
                assert!(rt; kept.as_slice().is_empty());
            }
        }
    }
}

// The number of calls of `most` bytes for a string.
fn calls(text: &str, most: usize) -> usize {
    match most {
        0 => 0,
        _ => text.len().div_ceil(most),
    }
}

// Whether a run succeeded. It must if reads and writes do not fail; otherwise it must have this
// fault, or be out of memory.
fn is_done<R: Abort>(
    rt: &R,
    answer: Result<(), Failure<FaultReport>>,
    lasts: bool,
    expected: Failure<FaultReport>,
) -> bool {
    match answer {
        Ok(()) => {
            assert!(rt; lasts);
            true
        }
        Err(fault) => {
            assert!(rt;
                fault == Failure::Memory || fault == expected && !lasts,
                "{fault:?}"
            );
            false
        }
    }
}

/// Each read fails in turn, and then nothing is written.
pub fn reads_fail(rt: &(impl Abort + AllocGlobal), command: Command, input: &str, output: &str) {
    for most in [1, 7, 1000] {
        // The last read returns the end of input.
        let needed = calls(input, most);
        for reads in 0..60u32 {
            let (result, kept) = outcome(rt.alloc(), command, input.as_bytes(), most, reads, 1000);
            let lasts = usize::try_from(reads).is_ok_and(|reads| reads > needed);
            let is_done = is_done(rt, result, lasts, Failure::ReadInput);
            let expected = if is_done { output } else { "" };
            assert_eq!(rt; kept.as_slice(), expected.as_bytes(), "{most} {reads}");
        }
    }
}

// The failure of `Kept`.
fn closed() -> Failure<FaultReport> {
    Failure::WriteOutput { is_closed: true }
}

/// Each write fails in turn, and then a prefix of the output was written.
pub fn writes_fail(rt: &(impl Abort + AllocGlobal), command: Command, input: &str, output: &str) {
    for most in [1, 7, 1000] {
        let needed = calls(output, most);
        for writes in 0..60u32 {
            let (result, kept) = outcome(rt.alloc(), command, input.as_bytes(), most, 1000, writes);
            let lasts = usize::try_from(writes).is_ok_and(|writes| writes >= needed);
            let is_done = is_done(rt, result, lasts, closed());
            let is_whole = kept.as_slice().len() == output.len();
            assert!(rt;
                output.as_bytes().starts_with(kept.as_slice()),
                "{most} {writes}"
            );
            assert!(rt; is_whole || !is_done, "{most} {writes}");
        }
    }
}
