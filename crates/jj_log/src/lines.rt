//! The lines of a row below that of its node: forks, types of edges, and ends.
use crate::glyphs::{edge_glyph, end_glyph, fork_glyph};
use crate::layout::{ColumnEnd, Row};

#[derive(Clone, Copy)]
pub(crate) enum LineBelow {
    // A column goes to the right of this one.
    Fork { column: usize },
    // The types of the edges.
    Edges,
    // A column ends.
    End(ColumnEnd),
}

fn fork_count(row: &Row) -> usize {
    row.edges.len().saturating_sub(1)
}

// Returns the number of indices of `line_below`: one for each edge but the first, one for the types
// of edges, and one for each end.
pub(crate) fn count_below(row: &Row) -> usize {
    fork_count(row)
        .saturating_add(1)
        .saturating_add(row.ends.len())
}

// Returns the line at an index, and its width in columns. Types of edges that are all direct have
// none, nor has the end of the last column if it joins no other.
pub(crate) fn line_below(row: &Row, index: usize) -> Option<(LineBelow, usize)> {
    let forks = fork_count(row);
    if index < forks {
        let column = row.column.saturating_add(index);
        return Some((LineBelow::Fork { column }, row.width.saturating_add(index)));
    }
    let width = row.width.saturating_add(forks);
    if index == forks {
        let are_direct = row.edges.iter().all(|edge| edge.is_direct());
        return if are_direct {
            None
        } else {
            Some((LineBelow::Edges, width))
        };
    }
    let ended = index - forks - 1;
    let end = *row.ends.get(ended)?;
    let last = width.saturating_sub(ended).saturating_sub(1);
    if end == ColumnEnd::Ends(last) {
        None
    } else {
        Some((LineBelow::End(end), last))
    }
}

// Returns the characters of a column in such a line.
pub(crate) fn glyph_below(row: &Row, line: LineBelow, column: usize) -> &'static str {
    match line {
        LineBelow::Fork { column: from } => fork_glyph(from, column),
        LineBelow::Edges => edge_glyph(row.column, &row.edges, column),
        LineBelow::End(end) => end_glyph(end, column),
    }
}
