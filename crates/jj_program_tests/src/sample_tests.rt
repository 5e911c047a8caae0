//! An input of each command and its output, with reads and writes that are cut short or fail.

#[cfg(test)]
mod tests {
    use crate::runs::{reads_fail, writes, writes_fail};
    use jj_program::program::Command;

    const SAMPLES: [(Command, &str, &str); 4] = [
        (
            Command::Walk,
            "mark\ta/x\nmark\tab\nprefix\ta\n",
            "file\ta/x\nenter\t\nenter\ta\n",
        ),
        (
            Command::Merge,
            "simplify\t0\t1\t2\t2\t3\naccept\t0\t1\t0\nkeep\t0\t1\t0\n",
            "terms\t0\t1\t3\nresolved\t0\nconflict\n",
        ),
        (
            Command::Graph,
            "node\t1\t9\nnode\t5\t2\norder\t1\t5\nheads\t1\t9\t5\ncommon\t1\t-\t5\n",
            "order\t5\t2\t1\t9\nheads\t1\t5\ncommon\n",
        ),
        (
            Command::Hash,
            "raw\t616263\n\ntext\tabc\n",
            "ba80a53f981c4d0d6a2797b69f12f6e94c212f14685ac4b74b12bb6fdbffa2d17d87c5392aab792dc252d5de4533cc9518d38aa8dbf1925ab92386edd4009923\n139554ef5d1694989effaaea7c7dcd8b28002f2759cdd9ee70a65c49d8288297d33bd1d00c6513363873705f5fc92a313952232e6924eb94163e436d78ab30c2\n",
        ),
    ];

    #[test]
    fn each_sample_is_written(rt: HostRuntime) {
        for (command, input, output) in SAMPLES {
            writes(&rt, command, input, output);
        }
    }

    #[test]
    fn each_read_fails_in_turn(rt: HostRuntime) {
        for (command, input, output) in SAMPLES {
            reads_fail(&rt, command, input, output);
        }
    }

    #[test]
    fn each_write_fails_in_turn(rt: HostRuntime) {
        for (command, input, output) in SAMPLES {
            writes_fail(&rt, command, input, output);
        }
    }
}
