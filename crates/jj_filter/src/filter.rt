//! Runs of a filter: read the whole input, compute, write the whole output.
ghost use Rattle.std.specs.Prelude.{◌≡◌, ◌≢◌, ℕ, List, false, IfOk, IfErr, OnOk, Result};
ghost use Rattle.std.specs.Io.KnownBytes.{Consumes, IsAtEnd};
ghost use Rattle.jj_files.specs.Streams.{streams};
ghost use Rattle.jj_filter.specs.Reports.{Reports, report_line};
ghost use Rattle.jj_filter.specs.Runs.{ClosesBy, EndsBy, IsInputFailure, ended_status, ended_text, is_read_failure, is_write_failure};
ghost use Rattle.jj_filter.specs.declared.failure.Failure.{Failure};

use crate::failure::Failure;
use crate::report::{Report, write_report};
use jj_files::file_util::{Sink, Source, write_all};
use std::alloc::Global;
use std::io::ErrorKind;

/// A pure computation on the bytes of an input.
pub trait Filter {
    /// The message about an output, and the exit status.
    type Outcome: Report;

    /// An error of an input.
    type Fault: Report;

    /// The output and the outcome of an input.
    ghost yields: { Self → List ℕ → List ℕ → Self.Outcome → Type 0 };

    /// The fault of an input.
    ghost fails: { Self → List ℕ → Self.Fault → Type 0 };

    /// Computes the output of an input. Fails with `Input` for a fault of the input, and with
    /// `Memory` if memory runs out.
    fn output(
        &self,
        alloc: Global,
        input: &[u8],
    ) -> Result<(Vec<u8>, Self::Outcome), Failure<Self::Fault>>
        ensures yields { IfOk result (λ done. yields self.now input.now done.0.items done.1) }
        ensures fails { IfErr result (IsInputFailure (fails self.now input.now)) };
}

// Bytes per read.
const READ_BUFFER: usize = 65536;

/// Reads the source to its end. Fails with `ReadInput` if a read fails, and with `Memory` if memory
/// runs out.
pub fn read_input<F: Drop, R: Source>(alloc: Global, reader: &mut R) -> Result<Vec<u8>, Failure<F>>
    ensures all { IfOk result (λ input. Consumes (R.remaining reader.old)
        (R.remaining reader.new) input.items) }
    ensures end { OnOk result (IsAtEnd (R.remaining reader.new)) }
    ensures failure { R.has_failed reader.old ≡ false
        → R.has_failed reader.new ≡ is_read_failure result }
    ensures failures { IfErr result (λ failure.
        failure ≢ Failure.ReadInput → failure ≡ Failure.Memory) }
{
    let mut input = Vec::new(alloc);
    let mut buf = [0u8; READ_BUFFER];
    loop {
        let Ok(n) = reader.read(&mut buf) else {
            return Err(Failure::ReadInput);
        };
        if n == 0 {
            return Ok(input);
        }
        if input.extend_from_slice(&buf[..n]).is_err() {
            return Err(Failure::Memory);
        }
    }
}

/// Reads the source to its end, computes on its bytes and writes the output. Fails with
/// `ReadInput` or `WriteOutput` if the source or the sink does, with `Input` for a fault of the
/// input, and with `Memory` if memory runs out. Nothing is written before the whole output is
/// there.
pub fn run<P: Filter, R: Source, W: Sink>(
    alloc: Global,
    filter: &P,
    reader: &mut R,
    writer: &mut W,
) -> Result<P::Outcome, Failure<P::Fault>>
    // The source was read to its end and the whole output of its bytes was written; or nothing was
    // written, and a read failed, memory ran out or the input has the fault; or a write failed,
    // after a prefix of the output.
    ensures ends { EndsBy (P.yields filter.now) (P.fails filter.now)
        (streams (R.remaining reader.old) (W.contents writer.old))
        (streams (R.remaining reader.new) (W.contents writer.new)) result }
    // The source has failed exactly if the failure is a failed read.
    ensures read_failure { R.has_failed reader.old ≡ false
        → R.has_failed reader.new ≡ is_read_failure result }
    // The sink has failed exactly if the failure is a failed write.
    ensures write_failure { W.has_failed writer.old ≡ false
        → W.has_failed writer.new ≡ is_write_failure result }
    // A failed write is one to a closed output exactly if the sink's error is a broken pipe.
    ensures closed { ClosesBy W.may_fail result }
{
    let input = read_input(alloc, reader)?;
    let (output, outcome) = filter.output(alloc, &input)?;
    if let Err(error) = write_all(writer, &output) {
        return Err(Failure::WriteOutput {
            is_closed: error.kind() == ErrorKind::BrokenPipe,
        });
    }
    Ok(outcome)
}

/// Runs the filter, reports its outcome or its failure on `errors`, and returns the exit status.
/// Error reporting does not allocate; a failing `errors` does not change the status.
pub fn start<P: Filter, R: Source, W: Sink, E: Sink>(
    alloc: Global,
    program: &str,
    filter: &P,
    reader: &mut R,
    writer: &mut W,
    errors: &mut E,
) -> u8
    // The run ended as `run` states; status and message are those of the outcome or the failure.
    ensures { (ended : Result P.Outcome (Failure P.Fault))
        × EndsBy (P.yields filter.now) (P.fails filter.now)
        (streams (R.remaining reader.old) (W.contents writer.old))
        (streams (R.remaining reader.new) (W.contents writer.new)) ended
        × (R.has_failed reader.old ≡ false → R.has_failed reader.new ≡ is_read_failure ended)
        × (W.has_failed writer.old ≡ false → W.has_failed writer.new ≡ is_write_failure ended)
        × ClosesBy W.may_fail ended
        × (result ≡ ended_status P.Outcome.status P.Fault.status ended)
        × Reports (E.contents errors.old) (E.contents errors.new) (E.has_failed errors.new)
        (report_line program.now (ended_text P.Outcome.text P.Fault.text ended)) }
{
    match run(alloc, filter, reader, writer) {
        Ok(outcome) => write_report(errors, program, &outcome),
        Err(failure) => write_report(errors, program, &failure),
    }
}
