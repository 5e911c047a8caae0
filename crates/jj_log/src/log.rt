//! The log of a list of commits.
ghost use Rattle.std.specs.Prelude.{◌≡◌, [], ℕ, List, map, IfOk, IfErr, string_bytes};
ghost use Rattle.jj_log.specs.Columns.{AreRows, node_of_row};
ghost use Rattle.jj_log.specs.Drawing.{AreDrawn, AreStyled};
ghost use Rattle.jj_log.specs.Failures.{IsRowsError};
ghost use Rattle.jj_log.specs.LogDrawings.{AreLogRows, IsDrawing, IsLogError, IsStyledDrawing};
ghost use Rattle.jj_log.specs.Logs.{IsGroupedLog};
ghost use Rattle.jj_log.specs.Labels.{label_of};
ghost use Rattle.jj_log.specs.declared.layout.Row.{Row};

use crate::commits::{Commit, NumberedCommit};
use crate::drawing::push_styled_row;
use crate::fault::LogError;
use crate::grouping::log_nodes;
use crate::layout::{Row, rows};
use crate::numbering::number_commits;
use crate::style::Style;
use std::alloc::{AllocError, Global};

// Commits and the rows of their log, whose nodes are indices of the list.
#[derive(Drop)]
pub(crate) struct LogLayout {
    pub(crate) commits: Vec<Commit>,
    pub(crate) rows: Vec<Row>,
}

/// Returns the log of these commits in rows: each visible commit once, with its edges, and before
/// its ancestors. Branches are together: a commit is followed by the last target whose children all
/// came before, if there is one. Fails with `Cycle` of a commit on a cycle of parents, with
/// `TooWide` of the first commit whose row needs more than `max_columns` columns, and with `Memory`
/// if memory runs out.
pub fn log_rows(
    alloc: Global,
    commits: &[NumberedCommit],
    max_columns: usize,
) -> Result<Vec<Row>, LogError>
    // The rows are the visible commits, each once and before its ancestors, branches together, with
    // edges to their nearest visible ancestors and to missing commits.
    ensures log { IfOk result (λ rows. IsGroupedLog commits.now (map node_of_row rows.items)) }
    // The columns of a row are those that the row before it leaves, at most `max_columns`.
    ensures columns { IfOk result (λ rows. (last : List ℕ)
        × AreRows max_columns [] rows.items last) }
    // An error but `Memory` names a commit on a cycle, or the first one whose row is too wide.
    ensures error { IfErr result (IsRowsError max_columns commits.now) }
{
    let nodes = log_nodes(alloc, commits)?;
    rows(alloc, nodes, max_columns)
}

pub(crate) fn label_at(commits: &[Commit], number: usize) -> &str
    ensures { result.now ≡ label_of commits.now number }
{
    match commits.get(number) {
        Some(commit) => match &commit.label {
            Some(label) => label.as_str(),
            None => "",
        },
        None => "",
    }
}

/// Draws rows in a style, with the labels of these commits. Fails if memory runs out.
pub fn draw_styled_rows(
    alloc: Global,
    rows: &[Row],
    commits: &[Commit],
    style: Style,
) -> Result<String, AllocError>
    ensures { IfOk result (λ drawing.
        AreStyled style (label_of commits.now) rows.now (string_bytes drawing)) }
{
    let mut drawing = String::new(alloc);
    for row in rows {
        push_styled_row(&mut drawing, style, row, label_at(commits, row.node))?;
    }
    Ok(drawing)
}

/// Draws rows in ASCII characters, with the labels of these commits. Fails if memory runs out.
pub fn draw_rows(alloc: Global, rows: &[Row], commits: &[Commit]) -> Result<String, AllocError>
    // The drawing has the line of the node of each row, in order; lines below it are not stated.
    ensures { IfOk result (λ drawing.
        AreDrawn (label_of commits.now) rows.now (string_bytes drawing)) }
{
    draw_styled_rows(alloc, rows, commits, Style::Ascii)
}

/// Returns the rows of the log of these commits, whose nodes are indices of the list. Fails with
/// `RepeatedName` of an earlier commit if two commits have one name, and as `log_rows` does.
pub fn rows_of_log(
    alloc: Global,
    commits: &[Commit],
    max_columns: usize,
) -> Result<Vec<Row>, LogError>
    ensures rows { IfOk result (λ rows. AreLogRows max_columns commits.now rows.items) }
    ensures error { IfErr result (IsLogError max_columns commits.now) }
{
    let numbered = number_commits(alloc, commits)?;
    log_rows(alloc, &numbered, max_columns)
}

/// Draws the log of these commits in a style. Fails with `RepeatedName` of an earlier commit if two
/// commits have one name, with `Cycle` of a commit on a cycle of parents, with `TooWide` of the
/// first commit whose row needs more than `max_columns` columns, and with `Memory` if memory runs
/// out.
pub fn draw_styled_log(
    alloc: Global,
    commits: &[Commit],
    max_columns: usize,
    style: Style,
) -> Result<String, LogError>
    ensures drawing { IfOk result (λ drawing.
        IsStyledDrawing style max_columns commits.now (string_bytes drawing)) }
    ensures error { IfErr result (IsLogError max_columns commits.now) }
{
    let rows = rows_of_log(alloc, commits, max_columns)?;
    Ok(draw_styled_rows(alloc, &rows, commits, style)?)
}

/// Draws the log of these commits in ASCII characters. Fails as `draw_styled_log` does.
pub fn draw_log(alloc: Global, commits: &[Commit], max_columns: usize) -> Result<String, LogError>
    ensures drawing { IfOk result (λ drawing.
        IsDrawing max_columns commits.now (string_bytes drawing)) }
    ensures error { IfErr result (IsLogError max_columns commits.now) }
{
    draw_styled_log(alloc, commits, max_columns, Style::Ascii)
}
