//! Parsing of requests: groups of unescaped fields.
//!
//! Reading does not fail: a group or a field that is missing is empty, a field that is not of the
//! expected form is an empty string, zero or none, and each is recorded for `is_misread`.
use crate::row_error::RowError;
use std::alloc::{AllocError, Global};
use std::cell::Cell;

/// The unescaped fields of one group of arguments.
#[derive(Drop)]
pub struct Fields {
    alloc: Global,
    fields: Vec<Vec<u8>>,
    is_misread: Cell<bool>,
}

/// The arguments of a request: groups of fields, separated by fields `|`.
#[derive(Drop)]
pub struct Request {
    groups: Vec<Fields>,
    missing: Fields,
}

fn hex_digit(byte: u8) -> Result<u8, RowError> {
    match byte {
        b'0'..=b'9' => Ok(byte - b'0'),
        b'a'..=b'f' => Ok(byte - b'a' + 10),
        b'A'..=b'F' => Ok(byte - b'A' + 10),
        _ => Err(RowError::Unreadable("escape")),
    }
}

// The state of the unescaping automaton.
#[derive(Clone, Copy)]
enum Escape {
    Outside,
    Backslash,
    Hex,
    HighDigit(u8),
}

fn push_escape(bytes: &mut Vec<u8>, letter: u8) -> Result<Escape, RowError> {
    match letter {
        b't' => bytes.push(b'\t')?,
        b'n' => bytes.push(b'\n')?,
        b'r' => bytes.push(b'\r')?,
        b'\\' => bytes.push(b'\\')?,
        b'e' => {}
        b'x' => return Ok(Escape::Hex),
        _ => return Err(RowError::Unreadable("escape")),
    }
    Ok(Escape::Outside)
}

fn push_unescaped(bytes: &mut Vec<u8>, escape: Escape, byte: u8) -> Result<Escape, RowError> {
    match escape {
        Escape::Outside if byte == b'\\' => Ok(Escape::Backslash),
        Escape::Outside => {
            bytes.push(byte)?;
            Ok(Escape::Outside)
        }
        Escape::Backslash => push_escape(bytes, byte),
        Escape::Hex => Ok(Escape::HighDigit(hex_digit(byte)?)),
        Escape::HighDigit(high) => {
            bytes.push((high << 4) | hex_digit(byte)?)?;
            Ok(Escape::Outside)
        }
    }
}

fn unescape(alloc: Global, field: &str) -> Result<Vec<u8>, RowError> {
    let mut bytes = Vec::new(alloc);
    let mut escape = Escape::Outside;
    for byte in field.as_bytes() {
        escape = push_unescaped(&mut bytes, escape, *byte)?;
    }
    match escape {
        Escape::Outside => Ok(bytes),
        _ => Err(RowError::Unreadable("escape")),
    }
}

fn parse_fields(alloc: Global, group: &str) -> Result<Fields, RowError> {
    let mut fields = Vec::new(alloc);
    if !group.is_empty() {
        for field in group.split('\t') {
            fields.push(unescape(alloc, field)?)?;
        }
    }
    Ok(Fields::new(alloc, fields))
}

fn parse_groups(alloc: Global, arguments: &str) -> Result<Vec<Fields>, RowError> {
    let mut groups = Vec::new(alloc);
    for group in arguments.split("\t|\t") {
        groups.push(parse_fields(alloc, group)?)?;
    }
    Ok(groups)
}

impl Request {
    /// Parses a request; returns its name and its arguments.
    pub fn parse(alloc: Global, request: &str) -> Result<(&str, Request), RowError> {
        let missing = Fields::new(alloc, Vec::new(alloc));
        match request.split_once('\t') {
            None => {
                let groups = Vec::new(alloc);
                Ok((request, Request { groups, missing }))
            }
            Some((name, arguments)) => {
                let groups = parse_groups(alloc, arguments)?;
                Ok((name, Request { groups, missing }))
            }
        }
    }

    /// Returns all groups.
    pub fn groups(&self) -> &[Fields] {
        self.groups.as_slice()
    }

    /// Returns the group at `index`, or an empty one if there are fewer groups.
    pub fn group(&self, index: usize) -> &Fields {
        match self.groups.as_slice().get(index) {
            Some(group) => group,
            None => {
                self.missing.is_misread.set(true);
                &self.missing
            }
        }
    }

    /// Returns whether a group or a field was read that is missing or not of the expected form.
    pub fn is_misread(&self) -> bool {
        for group in &self.groups {
            if group.is_misread.get() {
                return true;
            }
        }
        self.missing.is_misread.get()
    }
}

impl Fields {
    fn new(alloc: Global, fields: Vec<Vec<u8>>) -> Fields {
        Fields {
            alloc,
            fields,
            is_misread: Cell::new(false),
        }
    }

    // Returns the value, or records that the field is missing or not of the expected form.
    fn read<T: Copy + Drop>(&self, value: Option<T>, otherwise: T) -> T {
        match value {
            Some(value) => value,
            None => {
                self.is_misread.set(true);
                otherwise
            }
        }
    }

    /// Returns the number of fields.
    pub fn len(&self) -> usize {
        self.fields.len()
    }

    /// Returns whether there is no field.
    pub fn is_empty(&self) -> bool {
        self.fields.is_empty()
    }

    /// Returns the bytes of the field at `index`.
    pub fn bytes(&self, index: usize) -> &[u8] {
        match self.fields.as_slice().get(index) {
            Some(field) => field.as_slice(),
            None => {
                self.is_misread.set(true);
                b""
            }
        }
    }

    /// Returns the field at `index` as a string.
    pub fn string(&self, index: usize) -> &str {
        self.utf8(self.bytes(index))
    }

    fn utf8<'a>(&self, bytes: &'a [u8]) -> &'a str {
        match str::from_utf8(bytes) {
            Ok(string) => string,
            Err(_) => {
                self.is_misread.set(true);
                ""
            }
        }
    }

    /// Returns the bytes of the only field. A group of one empty field has no field.
    pub fn only_bytes(&self) -> &[u8] {
        if self.is_empty() {
            return b"";
        }
        self.bytes(0)
    }

    /// Returns the only field as a string. A group of one empty field has no field.
    pub fn only_string(&self) -> &str {
        self.utf8(self.only_bytes())
    }

    /// Returns whether the field at `index` is `1`.
    pub fn flag(&self, index: usize) -> bool {
        self.string(index) == "1"
    }

    /// Parses the field at `index` as a signed number.
    pub fn signed(&self, index: usize) -> i64 {
        self.read(self.string(index).parse::<i64>().ok(), 0)
    }

    /// Parses the field at `index` as a number.
    pub fn number(&self, index: usize) -> u64 {
        self.read(self.string(index).parse::<u64>().ok(), 0)
    }

    /// Parses the field at `index` as a length or an index.
    pub fn index(&self, index: usize) -> usize {
        self.read(self.string(index).parse::<usize>().ok(), 0)
    }

    /// Parses the field at `index` as a signed number of 32 bits.
    pub fn signed32(&self, index: usize) -> i32 {
        self.read(self.string(index).parse::<i32>().ok(), 0)
    }

    /// Parses the field at `index` as a number of 32 bits.
    pub fn number32(&self, index: usize) -> u32 {
        self.read(self.string(index).parse::<u32>().ok(), 0)
    }

    /// Parses the field at `index` as a number of 8 bits.
    pub fn number8(&self, index: usize) -> u8 {
        self.read(self.string(index).parse::<u8>().ok(), 0)
    }

    /// Copies the field at `index`.
    pub fn owned(&self, index: usize) -> Result<String, AllocError> {
        String::from_str(self.alloc, self.string(index))
    }

    /// Copies the fields from index `start` on.
    pub fn strings(&self, start: usize) -> Result<Vec<String>, AllocError> {
        let mut strings = Vec::new(self.alloc);
        for field in self.fields.iter().skip(start) {
            strings.push(String::from_str(self.alloc, self.utf8(field.as_slice()))?)?;
        }
        Ok(strings)
    }

    /// Copies all fields as optional strings: `~` is none, `=s` the string `s`.
    pub fn options(&self) -> Result<Vec<Option<String>>, AllocError> {
        let mut options = Vec::new(self.alloc);
        for field in &self.fields {
            options.push(self.option(self.utf8(field.as_slice()))?)?;
        }
        Ok(options)
    }

    fn option(&self, field: &str) -> Result<Option<String>, AllocError> {
        if field == "~" {
            return Ok(None);
        }
        let string = self.read(field.strip_prefix('='), "");
        Ok(Some(String::from_str(self.alloc, string)?))
    }
}
