//! A source that reports how many bytes were read.
ghost use Rattle.std.specs.Prelude.{◌≡◌, ◌↔◌, ◌≤◌, ⊤, MatchOption, true};
ghost use Rattle.std.specs.Duration.{as_nanos};

use itoa::Buffer;
use jj_files::file_util::{Sink, Source, write_all};
use std::io;
use std::time::{Clock, Duration, Instant};

// Seconds of reading before the first report, and between two of them.
const PATIENCE: u64 = 2;

const INTERVAL: u64 = 1;

// Bytes of a source that takes long to process, so that its end is reported in any case.
const LARGE: u64 = 10_000_000;

/// A source. Once reading has taken two seconds, it reports on `errors`, at most once a second and
/// over the last report, how many bytes were read; so it does at the end of a large source.
#[derive(Drop)]
pub struct ReadProgress<S, C, E> {
    source: S,
    clock: C,
    errors: E,
    name: &'static str,
    bytes: u64,
    started: Option<Instant>,
    reported: Option<Instant>,
}

// Whether a report is due after so much time since the start and since the last report.
fn is_due(since_start: Duration, since_report: Option<Duration>) -> bool
    ensures { (result ≡ true) ↔ ((2_000_000_000 ≤ as_nanos since_start)
        × MatchOption since_report ⊤ (λ since. 1_000_000_000 ≤ as_nanos since)) }
{
    since_start.as_secs() >= PATIENCE
        && match since_report {
            Some(since) => since.as_secs() >= INTERVAL,
            None => true,
        }
}

// Writes a report, and stops silently at the first write that fails.
fn write_report<E: Sink>(errors: &mut E, name: &str, bytes: u64) {
    let mut digits = Buffer::new();
    for part in ["\r", name, ": ", digits.format(bytes), " bytes read"] {
        if write_all(errors, part.as_bytes()).is_err() {
            return;
        }
    }
}

impl<S, C: Clock, E: Sink> ReadProgress<S, C, E> {
    /// Wraps a source. `name` begins each report. Reports nothing if `is_shown` is false or the
    /// clock fails.
    pub fn new(source: S, clock: C, errors: E, name: &'static str, is_shown: bool) -> Self
        ensures { result.source ≡ source }
    {
        let started = if is_shown {
            Instant::now(&clock).ok()
        } else {
            None
        };
        ReadProgress {
            source,
            clock,
            errors,
            name,
            bytes: 0,
            started,
            reported: None,
        }
    }

    fn report(&mut self, started: Instant)
        ensures { self.new.source ≡ self.old.source }
    {
        let Ok(now) = Instant::now(&self.clock) else {
            return;
        };
        let since_report = match self.reported {
            Some(reported) => Some(now.duration_since(reported)),
            None => None,
        };
        if is_due(now.duration_since(started), since_report) {
            write_report(&mut self.errors, self.name, self.bytes);
            self.reported = Some(now);
        }
    }

    // Reports what was read so far, and ends the line at the end of the source.
    fn count(&mut self, read: usize)
        ensures { self.new.source ≡ self.old.source }
    {
        let Some(started) = self.started else {
            return;
        };
        self.bytes = self.bytes.saturating_add(read as u64);
        self.report(started);
        if read == 0 && (self.reported.is_some() || self.bytes >= LARGE) {
            write_report(&mut self.errors, self.name, self.bytes);
            let _ = write_all(&mut self.errors, b"\n");
            self.started = None;
        }
    }
}

impl<S: Source, C: Clock, E: Sink> Source for ReadProgress<S, C, E> {
    ghost remaining = { λ progress. S.remaining progress.source };

    ghost has_failed = { λ progress. S.has_failed progress.source };

    ghost reads_left = { λ progress. S.reads_left progress.source };

    ghost may_fail = { S.may_fail };

    fn read(&mut self, buf: &mut [u8]) -> io::Result<usize> {
        let outcome = self.source.read(buf);
        if let Ok(read) = &outcome {
            self.count(*read);
        }
        outcome
    }
}
