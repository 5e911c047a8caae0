//! The characters of a drawing.
ghost use Rattle.std.specs.Prelude.{◌≡◌, ◌++◌, OnOk, string_bytes};
ghost use Rattle.jj_log.specs.Styles.{IsReadBack, styled, unicode_glyph, unicode_glyphs};

use std::alloc::AllocError;

/// The characters of a drawing.
#[derive(Clone, Copy, Debug, PartialEq, Eq)]
pub enum Style {
    /// `|`, `\`, `/`, `_`, `:`, `~`, `o` and `*`.
    Ascii,
    /// For these `│`, `╲`, `╱`, `─`, `┊`, `~`, `○` and `◆`.
    Unicode,
}

// The Unicode character in place of an ASCII character of a drawing.
pub(crate) fn unicode_glyph(byte: u8) -> &'static str
    ensures { result.now ≡ unicode_glyph byte }
{
    match byte {
        b'|' => "│",
        b'\\' => "╲",
        b'/' => "╱",
        b'_' => "─",
        b':' => "┊",
        b'~' => "~",
        b'o' => "○",
        b'*' => "◆",
        _ => " ",
    }
}

fn push_unicode(drawing: &mut String, glyphs: &[u8]) -> Result<(), AllocError>
    ensures { OnOk result (string_bytes drawing.new
        ≡ string_bytes drawing.old ++ unicode_glyphs glyphs.now) }
{
    for byte in glyphs {
        drawing.push_str(unicode_glyph(*byte))?;
    }
    Ok(())
}

// Appends characters of a drawing, which are in ASCII, in a style.
pub(crate) fn push_glyphs(
    drawing: &mut String,
    style: Style,
    glyphs: &str,
) -> Result<(), AllocError>
    ensures { OnOk result (string_bytes drawing.new
        ≡ string_bytes drawing.old ++ styled style glyphs.now) }
{
    match style {
        Style::Ascii => drawing.push_str(glyphs),
        Style::Unicode => push_unicode(drawing, glyphs.as_bytes()),
    }
}

/// The Unicode characters of a drawing read back are its ASCII characters.
pub fn unicode_is_read_back()
    ensures { IsReadBack }
{}
