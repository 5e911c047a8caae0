//! Callers of `jj_log`.
ghost use Rattle.std.specs.Io.KnownBytes.{Appends};
ghost use Rattle.std.specs.Prelude.{◌≡◌, ◌<◌, ◌⊎◌, ℕ, List, false, IfErr, IfOk, OnOk, Result};
ghost use Rattle.jj_files.specs.Streams.{AppendsPrefixOf, RecordsFailure, streams};
ghost use Rattle.jj_filter.specs.Reports.{Reports};
ghost use Rattle.jj_filter.specs.Runs.{ClosesBy, EndsBy, IsInputFailure, is_read_failure, is_write_failure};
ghost use Rattle.jj_filter.specs.declared.failure.Failure.{Failure};
ghost use Rattle.jj_log.specs.Columns.{IsRow, widest_line};
ghost use Rattle.jj_log.specs.Drawing.{AreStyled};
ghost use Rattle.jj_log.specs.Edges.{AreEdges, AreTargets};
ghost use Rattle.jj_log.specs.InputLines.{AreCommitsOf, IsParseFault};
ghost use Rattle.jj_log.specs.Labels.{label_of};
ghost use Rattle.jj_log.specs.Reports.{report_text, status_of};
ghost use Rattle.jj_log.specs.Runs.{DrawingsOf, IsInputFault};
ghost use Rattle.contracts_logs.specs.Defaults.{default_options};
ghost use Rattle.jj_log.specs.declared.fault.Fault.{Fault as FaultValue};

use jj_dag::dense_set::DenseSet;
use jj_files::file_util::{Sink, Source};
use jj_filter::failure::Failure;
use jj_log::commits::{Commit, NumberedCommit};
use jj_log::fault::{Fault, LogError};
use jj_log::layout::{self, Row};
use jj_log::style::Style;
use jj_log::{input, program, targets, writing};
use jj_walks::graph::GraphEdge;
use std::alloc::{AllocError, Global};
use std::io;

/// `lay_out`.
pub fn lay_out(
    alloc: Global,
    columns: &mut Vec<usize>,
    node: usize,
    edges: Vec<GraphEdge<usize>>,
    max_columns: usize,
) -> Result<Row, LogError>
    ensures row { IfOk result (λ row. IsRow max_columns columns.old.items row columns.new.items) }
    ensures error { IfErr result (λ error. (error ≡ LogError.Memory)
        ⊎ ((error ≡ LogError.TooWide node)
        × (max_columns < widest_line columns.old.items (node, edges.items)))) }
{
    layout::lay_out(alloc, columns, node, edges, max_columns)
}

/// `edges_of`.
pub fn edges_of(
    alloc: Global,
    commits: &[NumberedCommit],
    parents: &mut DenseSet,
    number: usize,
    targets: &[usize],
) -> Result<Vec<GraphEdge<usize>>, AllocError>
    requires { AreTargets commits.now number targets.now }
    ensures { IfOk result (λ edges. AreEdges commits.now number edges.items) }
{
    targets::edges_of(alloc, commits, parents, number, targets)
}

/// `parse_commits`.
pub fn parse_commits(
    alloc: Global,
    input: &str,
) -> Result<(Vec<Commit>, Vec<usize>), Failure<Fault>>
    ensures commits { IfOk result (λ parsed.
        AreCommitsOf input.now parsed.0.items parsed.1.items) }
    ensures error { IfErr result (IsInputFailure (IsParseFault input.now)) }
{
    input::parse_commits(alloc, input)
}

/// `write_rows`.
pub fn write_rows<W: Sink>(
    alloc: Global,
    writer: &mut W,
    style: Style,
    rows: &[Row],
    commits: &[Commit],
) -> io::Result<()>
    ensures drawing { (drawing : List ℕ) × AreStyled style (label_of commits.now) rows.now drawing
        × OnOk result (Appends (W.contents writer.old) (W.contents writer.new) drawing)
        × AppendsPrefixOf (W.contents writer.old) (W.contents writer.new) drawing }
    ensures failure { RecordsFailure (W.has_failed writer.old) (W.has_failed writer.new) result }
    ensures error { IfErr result W.may_fail }
{
    writing::write_rows(alloc, writer, style, rows, commits)
}

/// `start`.
pub fn start<R: Source, W: Sink, E: Sink>(
    alloc: Global,
    reader: &mut R,
    writer: &mut W,
    errors: &mut E,
) -> u8
    ensures { (ended : Result (Unit {0}) (Failure FaultValue))
        × EndsBy (DrawingsOf default_options) (IsInputFault default_options)
        (streams (R.remaining reader.old) (W.contents writer.old))
        (streams (R.remaining reader.new) (W.contents writer.new)) ended
        × (R.has_failed reader.old ≡ false → R.has_failed reader.new ≡ is_read_failure ended)
        × (W.has_failed writer.old ≡ false → W.has_failed writer.new ≡ is_write_failure ended)
        × ClosesBy W.may_fail ended
        × (result ≡ status_of ended)
        × Reports (E.contents errors.old) (E.contents errors.new) (E.has_failed errors.new)
        (report_text ended) }
{
    program::start(alloc, &[], reader, writer, errors)
}
