//! Rows written to an output, as they are drawn.
ghost use Rattle.std.specs.Prelude.{◌≡◌, ◌==◌, ◌++◌, List, ℕ, IfErr, OnOk, length};
ghost use Rattle.std.specs.Io.KnownBytes.{Appends};
ghost use Rattle.jj_files.specs.Streams.{AppendsPrefixOf, RecordsFailure};
ghost use Rattle.jj_log.specs.Drawing.{AreStyled, node_cells, node_line, styled_line_of_row};
ghost use Rattle.jj_log.specs.Labels.{label_of};
ghost use Rattle.jj_log.specs.BufferedOutput.{WritesBuffered};
ghost use Rattle.jj_log.specs.Styles.{styled, unicode_glyphs};

use crate::commits::Commit;
use crate::glyphs::node_glyph;
use crate::layout::Row;
use crate::lines::{count_below, glyph_below, line_below};
use crate::log::label_at;
use crate::output::OutputBuffer;
use crate::style::{Style, unicode_glyph};
use jj_files::file_util::Sink;
use std::alloc::Global;
use std::io;

fn write_unicode<W: Sink>(
    writer: &mut W,
    buffer: &mut OutputBuffer,
    glyphs: &[u8],
) -> io::Result<()>
    ensures output { WritesBuffered result (W.contents writer.old) (W.contents writer.new)
        buffer.old.pending.items buffer.new.pending.items (unicode_glyphs glyphs.now) }
    ensures failure { RecordsFailure (W.has_failed writer.old) (W.has_failed writer.new) result }
    ensures error { IfErr result W.may_fail }
{
    for byte in glyphs {
        buffer.append(writer, unicode_glyph(*byte).as_bytes())?;
    }
    Ok(())
}

// Writes characters of a drawing, which are in ASCII, in a style.
fn write_glyphs<W: Sink>(
    writer: &mut W,
    buffer: &mut OutputBuffer,
    style: Style,
    glyphs: &str,
) -> io::Result<()>
    ensures output { WritesBuffered result (W.contents writer.old) (W.contents writer.new)
        buffer.old.pending.items buffer.new.pending.items (styled style glyphs.now) }
    ensures failure { RecordsFailure (W.has_failed writer.old) (W.has_failed writer.new) result }
    ensures error { IfErr result W.may_fail }
{
    match style {
        Style::Ascii => buffer.append(writer, glyphs.as_bytes()),
        Style::Unicode => write_unicode(writer, buffer, glyphs.as_bytes()),
    }
}

// Writes the columns of the line of a node.
fn write_cells<W: Sink>(
    writer: &mut W,
    buffer: &mut OutputBuffer,
    style: Style,
    row: &Row,
) -> io::Result<()>
    ensures output { WritesBuffered result (W.contents writer.old) (W.contents writer.new)
        buffer.old.pending.items buffer.new.pending.items
        (node_cells style row.now.column (length row.now.edges.items == 0) row.now.width) }
    ensures failure { RecordsFailure (W.has_failed writer.old) (W.has_failed writer.new) result }
    ensures error { IfErr result W.may_fail }
{
    let is_root = row.edges.is_empty();
    for column in 0..row.width {
        write_glyphs(
            writer,
            buffer,
            style,
            node_glyph(row.column, is_root, column),
        )?;
    }
    Ok(())
}

fn write_node_line<W: Sink>(
    writer: &mut W,
    buffer: &mut OutputBuffer,
    style: Style,
    row: &Row,
    label: &str,
) -> io::Result<()>
    ensures output { WritesBuffered result (W.contents writer.old) (W.contents writer.new)
        buffer.old.pending.items buffer.new.pending.items
        (styled_line_of_row style row.now label.now) }
    ensures failure { RecordsFailure (W.has_failed writer.old) (W.has_failed writer.new) result }
    ensures error { IfErr result W.may_fail }
{
    write_cells(writer, buffer, style, row)?;
    buffer.append(writer, b" ")?;
    buffer.append(writer, label.as_bytes())?;
    buffer.append(writer, b"\n")
}

// Writes the line at an index below that of the node, if there is one.
fn write_line_below<W: Sink>(
    writer: &mut W,
    buffer: &mut OutputBuffer,
    style: Style,
    row: &Row,
    index: usize,
) -> io::Result<()>
    ensures output { (line : List ℕ) × WritesBuffered result (W.contents writer.old)
        (W.contents writer.new) buffer.old.pending.items buffer.new.pending.items line }
    ensures failure { RecordsFailure (W.has_failed writer.old) (W.has_failed writer.new) result }
    ensures error { IfErr result W.may_fail }
{
    let Some((line, width)) = line_below(row, index) else {
        return Ok(());
    };
    for column in 0..width {
        write_glyphs(writer, buffer, style, glyph_below(row, line, column))?;
    }
    buffer.append(writer, b"\n")
}

fn write_lines_below<W: Sink>(
    writer: &mut W,
    buffer: &mut OutputBuffer,
    style: Style,
    row: &Row,
) -> io::Result<()>
    ensures output { (lines : List ℕ) × WritesBuffered result (W.contents writer.old)
        (W.contents writer.new) buffer.old.pending.items buffer.new.pending.items lines }
    ensures failure { RecordsFailure (W.has_failed writer.old) (W.has_failed writer.new) result }
    ensures error { IfErr result W.may_fail }
{
    for index in 0..count_below(row) {
        write_line_below(writer, buffer, style, row, index)?;
    }
    Ok(())
}

// Writes the lines of a row: that of its node, with the label, and those of its edges.
fn write_row<W: Sink>(
    writer: &mut W,
    buffer: &mut OutputBuffer,
    style: Style,
    row: &Row,
    label: &str,
) -> io::Result<()>
    ensures output { (below : List ℕ) × WritesBuffered result (W.contents writer.old)
        (W.contents writer.new) buffer.old.pending.items buffer.new.pending.items
        (styled_line_of_row style row.now label.now ++ below) }
    ensures failure { RecordsFailure (W.has_failed writer.old) (W.has_failed writer.new) result }
    ensures error { IfErr result W.may_fail }
{
    write_node_line(writer, buffer, style, row, label)?;
    write_lines_below(writer, buffer, style, row)
}

// Writes rows; the last bytes stay in the buffer.
fn write_all_rows<W: Sink>(
    writer: &mut W,
    buffer: &mut OutputBuffer,
    style: Style,
    rows: &[Row],
    commits: &[Commit],
) -> io::Result<()>
    ensures output { (drawing : List ℕ)
        × AreStyled style (label_of commits.now) rows.now drawing
        × WritesBuffered result (W.contents writer.old) (W.contents writer.new)
        buffer.old.pending.items buffer.new.pending.items drawing }
    ensures failure { RecordsFailure (W.has_failed writer.old) (W.has_failed writer.new) result }
    ensures error { IfErr result W.may_fail }
{
    for row in rows {
        write_row(writer, buffer, style, row, label_at(commits, row.node))?;
    }
    Ok(())
}

/// Writes the drawing of rows in a style, with the labels of these commits. However wide the rows
/// are, at most 64 KiB and a label are pending. Returns the first error of a write; a prefix of the
/// drawing was then written.
pub fn write_rows<W: Sink>(
    alloc: Global,
    writer: &mut W,
    style: Style,
    rows: &[Row],
    commits: &[Commit],
) -> io::Result<()>
    // The drawing of the rows was written, or a prefix of it.
    ensures drawing { (drawing : List ℕ) × AreStyled style (label_of commits.now) rows.now drawing
        × OnOk result (Appends (W.contents writer.old) (W.contents writer.new) drawing)
        × AppendsPrefixOf (W.contents writer.old) (W.contents writer.new) drawing }
    // The sink has failed exactly if the call fails, or it had before.
    ensures failure { RecordsFailure (W.has_failed writer.old) (W.has_failed writer.new) result }
    // The error is one of the sink.
    ensures error { IfErr result W.may_fail }
{
    let mut buffer = OutputBuffer::new(alloc);
    write_all_rows(writer, &mut buffer, style, rows, commits)?;
    buffer.flush(writer)
}
