//! Requests on comparisons of byte strings and on their tokens.
ghost use Rattle.std.specs.Prelude.{ℕ, ◌==◌};
ghost use Rattle.jj_diff.specs.Tokens.{ends_where};
ghost use Rattle.jj_diff.specs.Tokenizers.{splitting_tokens};

use jj_diff::diff::{
    CompareBytesExactly, CompareBytesIgnoreAllWhitespace, CompareBytesIgnoreWhitespaceAmount,
    ContentDiff, DiffHunk, DiffHunkKind, Lines, Tokenizer, Words, diff, diff_by_line,
    find_line_ends, find_line_ranges, find_nonword_ranges, find_word_ranges,
};
use rows::request::{Fields, Request};
use rows::row_error::{RowError, agree};
use rows::values::Values;
use std::alloc::{AllocError, Global};
use std::ops::Range;

/// Returns the fields from index `start`.
pub fn texts<'a>(
    alloc: Global,
    fields: &'a Fields,
    start: usize,
) -> Result<Vec<&'a [u8]>, AllocError> {
    let mut texts = Vec::new(alloc);
    for index in start..fields.len() {
        texts.push(fields.bytes(index))?;
    }
    Ok(texts)
}

// Writes `=` or `!` for each hunk, and its parts.
fn put_hunks(hunks: &[DiffHunk], values: &mut Values) {
    for hunk in hunks {
        if hunk.kind == DiffHunkKind::Matching {
            values.word("=");
        } else {
            values.word("!");
        }
        for part in &hunk.contents {
            values.bytes(*part);
        }
    }
}

fn put_ranges(ranges: &[Range<usize>], values: &mut Values) {
    values.word("|");
    for range in ranges {
        values.index(range.start);
        values.index(range.end);
    }
}

// Whether these are where the ranges end.
fn are_ends(ranges: &[Range<usize>], ends: &[usize]) -> bool {
    for index in 0..ranges.len() {
        if index >= ends.len() || ends[index] != ranges[index].end {
            return false;
        }
    }
    ends.len() == ranges.len()
}

// `tokens TEXT`: the ranges of lines, of words and of other bytes.
fn tokens(alloc: Global, request: &Request, values: &mut Values) -> Result<(), RowError> {
    let text = request.group(0).only_bytes();
    let lines = find_line_ranges(alloc, text)?;
    agree(
        are_ends(&lines, &find_line_ends(alloc, text)?),
        "ends of lines",
    )?;
    put_ranges(&lines, values);
    put_ranges(&find_word_ranges(alloc, text)?, values);
    put_ranges(&find_nonword_ranges(alloc, text)?, values);
    Ok(())
}

// `diff-lines TEXT..`: the hunks, each input compared with the first.
fn lines(alloc: Global, request: &Request, values: &mut Values) -> Result<(), RowError> {
    let texts = texts(alloc, request.group(0), 0)?;
    let compared = ContentDiff::by_line(alloc, &texts)?;
    put_hunks(&compared.hunks, values);
    Ok(())
}

// `diff-lines-of BASE TEXT..`: the hunks, each input compared with that of this index.
fn lines_of(alloc: Global, request: &Request, values: &mut Values) -> Result<(), RowError> {
    let fields = request.group(0);
    let texts = texts(alloc, fields, 1)?;
    put_hunks(&diff_by_line(alloc, &texts, fields.index(0))?, values);
    Ok(())
}

// `diff-words TEXT..`: the hunks.
fn words(alloc: Global, request: &Request, values: &mut Values) -> Result<(), RowError> {
    let texts = texts(alloc, request.group(0), 0)?;
    let hunks = diff(alloc, &texts)?;
    put_hunks(&hunks, values);
    let compared = ContentDiff::by_word(alloc, &texts)?;
    agree(compared.hunks.len() == hunks.len(), "hunks by words")
}

// `diff-ignoring all|amount|none TEXT..`: the hunks by lines that are equal without white space,
// with one space for each run of it, or as they are.
fn ignoring(alloc: Global, request: &Request, values: &mut Values) -> Result<(), RowError> {
    let fields = request.group(0);
    let texts = texts(alloc, fields, 1)?;
    let compared = match fields.string(0) {
        "all" => {
            let compare = CompareBytesIgnoreAllWhitespace;
            ContentDiff::for_tokenizer(alloc, &texts, &Lines, &compare)?
        }
        "amount" => {
            let compare = CompareBytesIgnoreWhitespaceAmount;
            ContentDiff::for_tokenizer(alloc, &texts, &Lines, &compare)?
        }
        _ => ContentDiff::for_tokenizer(alloc, &texts, &Lines, &CompareBytesExactly)?,
    };
    put_hunks(&compared.hunks, values);
    Ok(())
}

// Tokens that end with this byte, or with the input.
#[derive(Drop)]
struct EndedBy {
    byte: u8,
}

impl Tokenizer for EndedBy {
    ghost is_end = { λ tokens. ends_where (λ before after. before == tokens.byte) };

    fn is_end(&self, text: &[u8], end: usize) -> bool {
        end == text.len() || text[end - 1] == self.byte
    }

    ghost tokens = { λ tokens. splitting_tokens (λ before after. before == tokens.byte) };
}

// `diff-ended-by BYTE TEXT..`: the hunks by tokens that end with the byte.
fn ended_by(alloc: Global, request: &Request, values: &mut Values) -> Result<(), RowError> {
    let fields = request.group(0);
    let texts = texts(alloc, fields, 1)?;
    let Some(byte) = fields.bytes(0).first() else {
        return agree(false, "a byte that ends tokens");
    };
    let tokens = EndedBy { byte: *byte };
    let compared = ContentDiff::for_tokenizer(alloc, &texts, &tokens, &CompareBytesExactly)?;
    put_hunks(&compared.hunks, values);
    Ok(())
}

// `diff-refined TEXT..`: the hunks of the whole inputs, refined by lines and then by words.
fn refined(alloc: Global, request: &Request, values: &mut Values) -> Result<(), RowError> {
    let texts = texts(alloc, request.group(0), 0)?;
    let mut compared = ContentDiff::unrefined(alloc, &texts)?;
    compared.refine_changed_regions(alloc, &Lines, &CompareBytesExactly)?;
    compared.refine_changed_regions(alloc, &Words, &CompareBytesExactly)?;
    for hunk in compared.hunks() {
        values.flag(hunk.kind == DiffHunkKind::Matching);
        for part in &hunk.contents {
            values.bytes(*part);
        }
    }
    Ok(())
}

/// Runs the request of this name. Returns `false` if there is none.
pub fn call(alloc: Global, name: &str, request: &Request, values: &mut Values) -> bool {
    let called = match name {
        "tokens" => tokens(alloc, request, values),
        "diff-lines" => lines(alloc, request, values),
        "diff-lines-of" => lines_of(alloc, request, values),
        "diff-words" => words(alloc, request, values),
        "diff-ignoring" => ignoring(alloc, request, values),
        "diff-ended-by" => ended_by(alloc, request, values),
        "diff-refined" => refined(alloc, request, values),
        _ => return false,
    };
    values.record(called);
    true
}
