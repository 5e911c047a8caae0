//! Formatting of results: TAB-separated values, with a flag for a failed allocation.
use crate::row_error::RowError;
use std::alloc::{AllocError, Global};
use std::fmt;

/// The values of a result. A failed allocation and an error of a request are recorded, and
/// `into_string` returns the error.
#[derive(Drop)]
pub struct Values {
    alloc: Global,
    line: String,
    is_first: bool,
    failed: bool,
    called: Result<(), RowError>,
}

const DIGITS: &[u8; 16] = b"0123456789abcdef";

fn push_hex(line: &mut String, byte: u8) -> Result<(), AllocError> {
    line.push_str("\\x")?;
    line.push(char::from(DIGITS[(byte >> 4) as usize]))?;
    line.push(char::from(DIGITS[(byte & 0xf) as usize]))
}

fn push_char(line: &mut String, c: char) -> Result<(), AllocError> {
    match c {
        '\\' => line.push_str("\\\\"),
        '\t' => line.push_str("\\t"),
        '\n' => line.push_str("\\n"),
        '\r' => line.push_str("\\r"),
        c if c.is_ascii_control() => push_hex(line, c as u8),
        c => line.push(c),
    }
}

fn push_escaped(line: &mut String, bytes: &[u8]) -> Result<(), AllocError> {
    for chunk in bytes.utf8_chunks() {
        for c in chunk.valid().chars() {
            push_char(line, c)?;
        }
        for byte in chunk.invalid() {
            push_hex(line, *byte)?;
        }
    }
    Ok(())
}

impl Values {
    /// Creates an empty result.
    pub fn new(alloc: Global) -> Values {
        Values {
            alloc,
            line: String::new(alloc),
            is_first: true,
            failed: false,
            called: Ok(()),
        }
    }

    /// Returns the values as one string; fails with `Memory` if an allocation failed before, and
    /// with the error that was recorded.
    pub fn into_string(self) -> Result<String, RowError> {
        if self.failed {
            return Err(RowError::Memory);
        }
        match self.called {
            Ok(()) => Ok(self.line),
            Err(error) => Err(error),
        }
    }

    /// Records an error, unless there is an earlier one.
    pub fn record(&mut self, called: Result<(), RowError>) {
        if self.called.is_ok() {
            self.called = called;
        }
    }

    fn push(&mut self, string: &str) {
        if self.line.push_str(string).is_err() {
            self.failed = true;
        }
    }

    fn begin_field(&mut self) {
        if self.is_first {
            self.is_first = false;
        } else {
            self.push("\t");
        }
    }

    /// Appends a word, which is not escaped.
    pub fn word(&mut self, word: &str) {
        self.begin_field();
        self.push(word);
    }

    /// Appends a byte string.
    pub fn bytes(&mut self, bytes: &[u8]) {
        self.begin_field();
        self.append(bytes);
    }

    /// Appends bytes to the last field.
    pub fn append(&mut self, bytes: &[u8]) {
        if push_escaped(&mut self.line, bytes).is_err() {
            self.failed = true;
        }
    }

    /// Appends a string.
    pub fn string(&mut self, string: &str) {
        self.bytes(string.as_bytes());
    }

    /// Appends a string whose allocation may have failed.
    pub fn allocated(&mut self, string: Result<String, AllocError>) {
        match string {
            Ok(string) => self.string(string.as_str()),
            Err(_) => self.failed = true,
        }
    }

    /// Appends what `Display` writes.
    pub fn display<T: fmt::Display>(&mut self, value: &T) {
        self.allocated(format!(in self.alloc; "{value}"));
    }

    /// Appends what `Debug` writes.
    pub fn debug<T: fmt::Debug>(&mut self, value: &T) {
        self.allocated(format!(in self.alloc; "{value:?}"));
    }

    /// Appends an index or a length.
    pub fn index(&mut self, index: usize) {
        self.allocated(format!(in self.alloc; "{index}"));
    }

    /// Appends a number.
    pub fn number(&mut self, number: u64) {
        self.allocated(format!(in self.alloc; "{number}"));
    }

    /// Appends a signed number.
    pub fn signed(&mut self, number: i64) {
        self.allocated(format!(in self.alloc; "{number}"));
    }

    /// Appends `true` or `false`.
    pub fn flag(&mut self, flag: bool) {
        self.word(if flag { "true" } else { "false" });
    }

    /// Appends `none`, or `some` and the string.
    pub fn option_string(&mut self, string: Option<&str>) {
        match string {
            None => self.word("none"),
            Some(string) => {
                self.word("some");
                self.string(string);
            }
        }
    }

    /// Appends `none`, or `some` and the byte string.
    pub fn option_bytes(&mut self, bytes: Option<&[u8]>) {
        match bytes {
            None => self.word("none"),
            Some(bytes) => {
                self.word("some");
                self.bytes(bytes);
            }
        }
    }

    /// Appends an optional string as one field: `~`, or `=` and the string.
    pub fn option(&mut self, string: Option<&str>) {
        match string {
            None => self.word("~"),
            Some(string) => {
                self.word("=");
                self.append(string.as_bytes());
            }
        }
    }

    /// Appends each string as a field.
    pub fn strings(&mut self, strings: &[String]) {
        for string in strings {
            self.string(string.as_str());
        }
    }

    /// Appends each optional string as one field.
    pub fn options(&mut self, strings: &[Option<String>]) {
        for string in strings {
            self.option(string.as_ref().map(|string: &String| string.as_str()));
        }
    }
}
