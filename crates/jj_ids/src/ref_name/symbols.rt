//! Symbols: the display form of ref names, `name` or `name@remote`, quoted where necessary.
ghost use Rattle.std.specs.Prelude.{◌≡◌, ◌++◌, ◌∷◌, ℕ, List, OnOk, IfOk, Some, refl};
ghost use Rattle.std.specs.Cmp.Lexicographic.{slice_cmp};
ghost use Rattle.std.specs.Fmt.{WritesInCalls, WritesOnOk};
ghost use Rattle.std.specs.Hash as fed;
ghost use Rattle.std.specs.Option.{option_copied};
ghost use Rattle.std.specs.Ordering.{nat_cmp, ordering_then};
ghost use Rattle.jj_ids.specs.Names.{name_bytes, symbol_bytes};
ghost use Rattle.jj_ids.specs.SymbolDisplay.{is_separator, is_safe_byte, is_safe_identifier, symbol_display, remote_symbol_display, symbol_at_display};

use super::{RefName, RefNameBuf, RemoteName, RemoteNameBuf};
use jj_content::symbol_util::write_quoted;
use std::alloc::{AllocError, Global};
use std::fmt;
use std::fmt::{Alignment, Write};
use std::hash::Hash;

/// A name for display. It is quoted unless it is a valid identifier.
#[derive(Clone, Copy)]
pub struct RefSymbol<'a> {
    text: &'a str,
}

/// A borrowed name of a ref at a remote.
#[derive(Clone, Copy, Debug, PartialEq, Eq, PartialOrd, Ord, Hash)]
pub struct RemoteRefSymbol<'a> {
    pub name: RefName<'a>,
    pub remote: RemoteName<'a>,
}

/// The name of a ref at a remote.
#[derive(Clone, Debug, PartialEq, Eq, PartialOrd, Ord, Hash, Drop)]
pub struct RemoteRefSymbolBuf {
    pub name: RefNameBuf,
    pub remote: RemoteNameBuf,
}

/// A name at a remote. It is ordered, and hashed, by the name and then the remote.
pub trait AtRemote: Ord + Hash {
    /// The bytes of the name.
    ghost ref_name_bytes: { Self → List ℕ };

    /// The bytes of the remote's name.
    ghost remote_name_bytes: { Self → List ℕ };

    ghost ordered: { (a b : Self) → Self.cmp a b ≡ ordering_then
        (slice_cmp nat_cmp (ref_name_bytes a) (ref_name_bytes b))
        (slice_cmp nat_cmp (remote_name_bytes a) (remote_name_bytes b)) };

    ghost hashed: { (a : Self) → Self.hash_input a ≡ fed.str (ref_name_bytes a)
        ++ fed.str (remote_name_bytes a) };
}

impl<'a> AtRemote for RemoteRefSymbol<'a> {
    ghost ref_name_bytes = { λ symbol. name_bytes symbol.name };

    ghost remote_name_bytes = { λ symbol. name_bytes symbol.remote };

    ghost ordered = { λ a b. refl };

    ghost hashed = { λ a. refl };
}

impl AtRemote for RemoteRefSymbolBuf {
    ghost ref_name_bytes = { λ symbol. symbol.name };

    ghost remote_name_bytes = { λ symbol. symbol.remote };

    ghost ordered = { λ a b. refl };

    ghost hashed = { λ a. refl };
}

impl<'a> RefSymbol<'a> {
    pub(super) fn new(text: &'a str) -> Self
        ensures { symbol_bytes result ≡ text.now }
    {
        RefSymbol { text }
    }
}

impl<'a> RemoteRefSymbol<'a> {
    /// Clones the symbol.
    pub fn to_owned(self, alloc: Global) -> Result<RemoteRefSymbolBuf, AllocError>
        ensures name { IfOk result (λ owned. owned.name ≡ name_bytes self.entry.name) }
        ensures remote { IfOk result (λ owned. owned.remote ≡ name_bytes self.entry.remote) }
    {
        Ok(RemoteRefSymbolBuf {
            name: self.name.to_owned(alloc)?,
            remote: self.remote.to_owned(alloc)?,
        })
    }
}

impl RemoteRefSymbolBuf {
    /// Borrows the symbol.
    pub fn as_ref(&self) -> RemoteRefSymbol<'_>
        ensures name { name_bytes result.name ≡ self.now.name }
        ensures remote { name_bytes result.remote ≡ self.now.remote }
    {
        RemoteRefSymbol {
            name: self.name.as_name(),
            remote: self.remote.as_name(),
        }
    }
}

fn is_separator(byte: u8) -> bool
    ensures { result ≡ is_separator byte }
{
    matches!(byte, b'.' | b'-' | b'+')
}

fn is_safe_byte(byte: u8) -> bool
    ensures { result ≡ is_safe_byte byte }
{
    byte.is_ascii_alphanumeric() || matches!(byte, b'_' | b'/')
}

// Returns whether `symbol` is a nonempty sequence of parts without quotable characters, joined by
// single separators.
fn is_safe_identifier(symbol: &str) -> bool
    ensures { result ≡ is_safe_identifier symbol.now }
{
    let mut part_is_empty = true;
    for byte in symbol.as_bytes() {
        if is_safe_byte(*byte) {
            part_is_empty = false;
        } else if part_is_empty || !is_separator(*byte) {
            return false;
        } else {
            part_is_empty = true;
        }
    }
    !part_is_empty
}

fn write_symbol<W: Write>(writer: &mut W, text: &str) -> fmt::Result
    ensures { OnOk result (WritesInCalls W.write_str_gives writer.old
        (symbol_display text.now) writer.new) }
{
    if is_safe_identifier(text) {
        writer.write_str(text)?;
        return Ok(());
    }
    write_quoted(writer, text)?;
    Ok(())
}

// Writes `name` or `name@remote`.
fn write_symbol_at<W: Write>(writer: &mut W, name: &str, remote: Option<&str>) -> fmt::Result
    ensures { OnOk result (WritesInCalls W.write_str_gives writer.old
        (symbol_at_display name.now (option_copied remote.entry)) writer.new) }
{
    write_symbol(writer, name)?;
    let Some(remote) = remote else {
        return Ok(());
    };
    writer.write_char('@')?;
    write_symbol(writer, remote)?;
    Ok(())
}

// A writer that counts characters.
#[derive(Drop)]
struct CharCount {
    count: usize,
}

impl Write for CharCount {
    fn write_str(&mut self, s: &str) -> fmt::Result {
        for _ in s.chars() {
            self.count = self.count.saturating_add(1);
        }
        Ok(())
    }
}

// A writer that passes on the first `left` characters and drops the rest.
#[derive(Drop)]
struct FirstChars<W> {
    writer: W,
    left: usize,
}

impl<W: Write> Write for FirstChars<W> {
    fn write_str(&mut self, s: &str) -> fmt::Result {
        for c in s.chars() {
            if self.left > 0 {
                self.left -= 1;
                self.writer.write_char(c)?;
            }
        }
        Ok(())
    }
}

// Returns how many of the padding characters precede the displayed string.
fn leading_fill(alignment: Option<Alignment>, padding: usize) -> usize {
    match alignment {
        None | Some(Alignment::Left) => 0,
        Some(Alignment::Center) => padding / 2,
        Some(Alignment::Right) => padding,
    }
}

fn write_fill<W: Write>(f: &mut fmt::Formatter<W>, count: usize) -> fmt::Result {
    let fill = f.fill();
    for _ in 0..count {
        f.write_char(fill)?;
    }
    Ok(())
}

// Displays the symbol, truncated to the formatter's precision and padded to its width.
fn pad_symbol_at<W: Write>(
    f: &mut fmt::Formatter<W>,
    name: &str,
    remote: Option<&str>,
) -> fmt::Result {
    let mut whole = CharCount { count: 0 };
    write_symbol_at(&mut whole, name, remote)?;
    let shown = whole.count.min(f.precision().unwrap_or(usize::MAX));
    let padding = f.width().unwrap_or(0).saturating_sub(shown);
    let before = leading_fill(f.align(), padding);
    write_fill(f, before)?;
    let mut first = FirstChars {
        writer: &mut *f,
        left: shown,
    };
    write_symbol_at(&mut first, name, remote)?;
    write_fill(f, padding.saturating_sub(before))
}

fn display_symbol_at<W: Write>(
    f: &mut fmt::Formatter<W>,
    name: &str,
    remote: Option<&str>,
) -> fmt::Result
    ensures { WritesOnOk W.write_str_gives f.old result
        (symbol_at_display name.now (option_copied remote.entry)) f.new }
{
    if f.width().is_some() {
        return pad_symbol_at(f, name, remote);
    }
    if f.precision().is_some() {
        return pad_symbol_at(f, name, remote);
    }
    write_symbol_at(f, name, remote)
}

impl<'a> fmt::Display for RefSymbol<'a> {
    ghost output = { λ symbol. Some (symbol_display (symbol_bytes symbol)) };

    fn fmt<W: Write>(&self, f: &mut fmt::Formatter<W>) -> fmt::Result {
        display_symbol_at(f, self.text, None)
    }
}

impl<'a> fmt::Debug for RefSymbol<'a> {
    fn fmt<W: Write>(&self, f: &mut fmt::Formatter<W>) -> fmt::Result {
        f.debug_tuple("RefSymbol").field(&self.text).finish()
    }
}

impl<'a> fmt::Display for RemoteRefSymbol<'a> {
    ghost output = { λ symbol. Some (remote_symbol_display (name_bytes symbol.name)
        (name_bytes symbol.remote)) };

    fn fmt<W: Write>(&self, f: &mut fmt::Formatter<W>) -> fmt::Result {
        display_symbol_at(f, self.name.as_str(), Some(self.remote.as_str()))
    }
}

impl fmt::Display for RemoteRefSymbolBuf {
    ghost output = { λ symbol. Some (remote_symbol_display symbol.name symbol.remote) };

    fn fmt<W: Write>(&self, f: &mut fmt::Formatter<W>) -> fmt::Result {
        let symbol = self.as_ref();
        display_symbol_at(f, symbol.name.as_str(), Some(symbol.remote.as_str()))
    }
}

/// Two names at remotes have the same display form if and only if they are equal.
pub fn remote_symbol_display_is_injective()
    ensures injective { (name remote other other_remote : List ℕ)
        → remote_symbol_display name remote ≡ remote_symbol_display other other_remote
        → (name ≡ other) × (remote ≡ other_remote) }
    ensures same { (name remote other other_remote : List ℕ) → name ≡ other → remote ≡ other_remote
        → remote_symbol_display name remote ≡ remote_symbol_display other other_remote }
{}
