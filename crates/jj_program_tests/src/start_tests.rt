//! Tests of `start` with failing reads and writes: exit statuses and lines on standard error.

#[cfg(test)]
mod tests {
    use crate::ends::{Cut, Kept};
    use jj_files::file_util::{StdIo, Watched};
    use jj_program::program::start;
    use std::alloc::Global;
    use std::io::ErrorKind;

    const OUT_OF_MEMORY: &str = "jj-core: out of memory\n";

    /// The exit status, the output and standard error of a run whose standard error fails after
    /// `error_writes` writes.
    fn outcome(
        alloc: Global,
        words: &[String],
        input: &[u8],
        error_writes: u32,
    ) -> (u8, Kept, Kept) {
        let mut reader = Watched::new(StdIo(Cut {
            rest: input,
            most: 1000,
            left: 1000,
        }));
        let mut output = Kept::new(1000, 1000);
        let mut errors = Kept::new(1000, error_writes);
        let status = start(
            alloc,
            words,
            &mut reader,
            &mut Watched::new(StdIo(&mut output)),
            &mut Watched::new(StdIo(&mut errors)),
        );
        (status, output, errors)
    }

    #[test]
    fn faults_of_standard_error_change_nothing(rt: HostRuntime) {
        let Ok(word) = String::from_str(rt.alloc(), "walk") else {
            return;
        };
        let (status, output, errors) = outcome(rt.alloc(), &[word], b"x", 0);
        assert_eq!(rt; status, 1);
        assert!(rt; output.as_slice().is_empty());
        assert!(rt; errors.as_slice().is_empty());
        let (status, _, _) = outcome(rt.alloc(), &[], b"", 0);
        assert_eq!(rt; status, 2);
    }

    #[test]
    fn failed_reads_and_writes_are_reported(rt: HostRuntime) {
        let Ok(word) = String::from_str(rt.alloc(), "walk") else {
            return;
        };
        let words = [word];
        for (reads, writes, kind, said) in [
            (0, 1, ErrorKind::Other, "jj-core: cannot read input\n"),
            (1000, 0, ErrorKind::Other, "jj-core: cannot write output\n"),
            // An output that its reader has closed is not reported.
            (1000, 0, ErrorKind::BrokenPipe, ""),
        ] {
            let mut reader = Watched::new(StdIo(Cut {
                rest: b"mark\ta\neverything\n",
                most: 1000,
                left: reads,
            }));
            let mut output = Kept::failing(1000, writes, kind);
            let mut errors = Kept::new(1000, 1000);
            let status = start(
                rt.alloc(),
                &words,
                &mut reader,
                &mut Watched::new(StdIo(&mut output)),
                &mut Watched::new(StdIo(&mut errors)),
            );
            assert_eq!(rt; status, 1);
            assert!(rt; output.as_slice().is_empty());
            assert!(rt;
                errors.as_slice() == said.as_bytes()
                    || errors.as_slice() == OUT_OF_MEMORY.as_bytes()
            );
        }
    }
}
