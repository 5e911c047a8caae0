//! The outcome of a selection: its message and its exit status.
ghost use Rattle.std.specs.Prelude.{◌≡◌};
ghost use Rattle.jj_filesets_cli.specs.Runs.{outcome_text};

use itoa::Buffer;
use jj_filter::report::Report;

// A selection that succeeded: how many lines are no paths, and the exit status.
#[derive(Clone, Copy, Debug)]
pub(crate) struct Outcome {
    pub(crate) invalid: usize,
    pub(crate) status: u8,
}

impl Report for Outcome {
    ghost text = { outcome_text };

    ghost status = { λ outcome. outcome.status };

    fn parts<'a>(&'a self, digits: &'a mut Buffer) -> (&'a str, &'a str, &'a str, &'a str) {
        if self.invalid == 0 {
            return ("", "", "", "");
        }
        let count = digits.format(self.invalid);
        ("skipped lines that are no paths: ", count, "", "")
    }

    fn status(&self) -> u8 {
        self.status
    }
}
