//! Operands of an expression: strings with a kind of pattern, and functions.
ghost use Rattle.std.specs.Prelude.{◌≡◌, ◌<◌, ◌≤◌, length, IfOk};
ghost use Rattle.jj_filesets.specs.Strings.{IsResultOf};
ghost use Rattle.jj_filesets.specs.Operands.{kind_named, function_named, has_glob_byte, is_glob_byte, operand_at, call_at, string_pattern_at, pattern_of, relative_pattern, text_pattern, path_pattern, glob_pattern};

use crate::fileset::FilePattern;
use crate::fileset::error::{FilesetParseError, FilesetParseErrorKind};
use crate::fileset::quoting::{read_string, skip_space, split_word};
use crate::path_string::{is_relative, plain_path};
use jj_globs::glob::{Glob, GlobError};
use jj_paths::repo_path::{InvalidNewRepoPathError, RepoPathBuf};
use std::alloc::Global;

// How the string of a pattern is read. `Default` is `PrefixGlob` for a string with a special
// character of globs, else `Prefix`.
#[derive(Clone, Copy)]
pub(crate) enum PatternKind {
    Default,
    Prefix,
    File,
    Glob,
    PrefixGlob,
}

// Reads the operand at the start. `total` is the length of the whole expression.
#[tactic(auto, unfolding(crate::specs::Operands::operand_at))]
pub(crate) fn read_operand<'a>(
    alloc: Global,
    total: usize,
    text: &'a [u8],
) -> Result<(FilePattern, &'a [u8]), FilesetParseError>
    requires { length text.now ≤ total }
    ensures operand { IsResultOf (λ read. (read.0, read.1.now)) result (operand_at total text.now) }
    ensures shorter { IfOk result (λ read. length read.1.now < length text.now) }
{
    let at = total - text.len();
    let (name, rest) = split_word(text);
    match rest.split_first() {
        Some((b'(', rest)) => read_call(total, at, name, rest),
        Some((b':', rest)) => match kind_named(name) {
            Some(kind) => read_pattern(alloc, total, kind, rest),
            None => Err(FilesetParseError::new(at, FilesetParseErrorKind::InvalidPatternKind)),
        },
        _ => read_pattern(alloc, total, PatternKind::Default, text),
    }
}

// Reads the arguments of a function after their opening parenthesis: there are none.
#[tactic(auto, unfolding(crate::specs::Operands::call_at))]
fn read_call<'a>(
    total: usize,
    at: usize,
    name: &[u8],
    text: &'a [u8],
) -> Result<(FilePattern, &'a [u8]), FilesetParseError>
    requires { length text.now ≤ total }
    ensures call { IsResultOf (λ read. (read.0, read.1.now)) result
        (call_at total at name.now text.now) }
    ensures shorter { IfOk result (λ read. length read.1.now < length text.now) }
{
    let Some(pattern) = function_named(name) else {
        return Err(FilesetParseError::new(at, FilesetParseErrorKind::NoSuchFunction));
    };
    let text = skip_space(text);
    match text.split_first() {
        Some((b')', rest)) => Ok((pattern, rest)),
        _ => Err(FilesetParseError::new(
            total - text.len(),
            FilesetParseErrorKind::InvalidArguments,
        )),
    }
}

// Reads the string of a pattern.
#[tactic(auto, unfolding(crate::specs::Operands::string_pattern_at))]
fn read_pattern<'a>(
    alloc: Global,
    total: usize,
    kind: PatternKind,
    text: &'a [u8],
) -> Result<(FilePattern, &'a [u8]), FilesetParseError>
    requires { length text.now ≤ total }
    ensures pattern { IsResultOf (λ read. (read.0, read.1.now)) result
        (string_pattern_at total kind text.now) }
    ensures shorter { IfOk result (λ read. length read.1.now < length text.now) }
{
    let at = total - text.len();
    let (string, rest) = read_string(alloc, total, text)?;
    let pattern = pattern_of(alloc, kind, at, plain_path(&string))?;
    Ok((pattern, rest))
}

fn function_named(name: &[u8]) -> Option<FilePattern>
    ensures { result ≡ function_named name.now }
{
    match name {
        b"all" => Some(FilePattern::All),
        b"none" => Some(FilePattern::Nothing),
        _ => None,
    }
}

#[tactic(auto, unfolding(crate::specs::Operands::kind_named))]
fn kind_named(name: &[u8]) -> Option<PatternKind>
    ensures { result ≡ kind_named name.now }
{
    if name == b"prefix".as_slice() || name == b"root".as_slice() {
        Some(PatternKind::Prefix)
    } else if name == b"file".as_slice() || name == b"root-file".as_slice() {
        Some(PatternKind::File)
    } else if name == b"glob".as_slice() || name == b"root-glob".as_slice() {
        Some(PatternKind::Glob)
    } else if name == b"prefix-glob".as_slice() || name == b"root-prefix-glob".as_slice() {
        Some(PatternKind::PrefixGlob)
    } else {
        None
    }
}

// Returns the pattern of a kind with this string; `at` is its offset.
#[tactic(auto, unfolding(crate::specs::Operands::pattern_of))]
fn pattern_of(
    alloc: Global,
    kind: PatternKind,
    at: usize,
    string: &[u8],
) -> Result<FilePattern, FilesetParseError>
    ensures { IsResultOf (λ pattern. pattern) result (pattern_of kind at string.now) }
{
    match str::from_utf8(string) {
        Ok(text) => relative_pattern(alloc, kind, at, text),
        Err(_) => Err(FilesetParseError::new(at, FilesetParseErrorKind::NotUtf8)),
    }
}

fn relative_pattern(
    alloc: Global,
    kind: PatternKind,
    at: usize,
    text: &str,
) -> Result<FilePattern, FilesetParseError>
    ensures { IsResultOf (λ pattern. pattern) result (relative_pattern kind at text.now) }
{
    if is_relative(text.as_bytes()) {
        text_pattern(alloc, kind, at, text)
    } else {
        Err(FilesetParseError::new(at, FilesetParseErrorKind::InvalidPath))
    }
}

#[tactic(auto, unfolding(crate::specs::Operands::text_pattern))]
fn text_pattern(
    alloc: Global,
    kind: PatternKind,
    at: usize,
    text: &str,
) -> Result<FilePattern, FilesetParseError>
    ensures { IsResultOf (λ pattern. pattern) result (text_pattern kind at text.now) }
{
    match kind {
        PatternKind::Prefix => path_pattern(alloc, true, at, text),
        PatternKind::File => path_pattern(alloc, false, at, text),
        PatternKind::Glob => glob_pattern(alloc, false, at, text),
        PatternKind::PrefixGlob => glob_pattern(alloc, true, at, text),
        PatternKind::Default => {
            if has_glob_byte(text.as_bytes()) {
                glob_pattern(alloc, true, at, text)
            } else {
                path_pattern(alloc, true, at, text)
            }
        }
    }
}

// Returns the pattern of a path, and with `prefix` of the paths below it too.
fn path_pattern(
    alloc: Global,
    prefix: bool,
    at: usize,
    text: &str,
) -> Result<FilePattern, FilesetParseError>
    ensures { IsResultOf (λ pattern. pattern) result (path_pattern prefix at text.now) }
{
    let string = String::from_str(alloc, text)?;
    match RepoPathBuf::from_internal_string(string) {
        Ok(path) if prefix => Ok(FilePattern::PrefixPath(path)),
        Ok(path) => Ok(FilePattern::FilePath(path)),
        Err(InvalidNewRepoPathError::Memory) => Err(FilesetParseError::Memory),
        Err(InvalidNewRepoPathError::Invalid { value: _ }) => Err(FilesetParseError::new(
            at,
            FilesetParseErrorKind::InvalidPath,
        )),
    }
}

// Returns the pattern of a glob, and with `prefix` of the paths below its matches too.
fn glob_pattern(
    alloc: Global,
    prefix: bool,
    at: usize,
    text: &str,
) -> Result<FilePattern, FilesetParseError>
    ensures { IsResultOf (λ pattern. pattern) result (glob_pattern prefix at text.now) }
{
    match Glob::parse(alloc, text, true, false) {
        Ok(glob) if prefix => Ok(FilePattern::PrefixGlob(glob)),
        Ok(glob) => Ok(FilePattern::FileGlob(glob)),
        Err(GlobError::Memory) => Err(FilesetParseError::Memory),
        Err(error) => Err(FilesetParseError::new(at, FilesetParseErrorKind::InvalidGlob(error))),
    }
}

fn has_glob_byte(string: &[u8]) -> bool
    ensures { result ≡ has_glob_byte string.now }
{
    string.iter().any(|byte| is_glob_byte(*byte))
}

fn is_glob_byte(byte: u8) -> bool
    ensures { result ≡ is_glob_byte byte }
{
    byte == b'*'
        || byte == b'?'
        || byte == b'['
        || byte == b']'
        || byte == b'{'
        || byte == b'}'
        || byte == b'\\'
}
