//! Headers of hunks: `@@ -START,COUNT +START,COUNT @@`.
ghost use Rattle.std.specs.Prelude.{◌≡◌, ◌+◌, ◌-◌, ◌*◌, ◌^◌, ◌<◌, ◌≤◌, length, take, IsTrue, true};
ghost use Rattle.std.specs.Char.{is_ascii_digit};
ghost use Rattle.std.specs.List.{prefix_len, list_all};
ghost use Rattle.jj_diff_presentation.specs.Applying.{digits_after, number, range, header, lines_before, len_after, right_after};
ghost use Rattle.jj_diff_presentation.specs.Views.{number_view, range_view, header_view};

// A number and the bytes after it.
#[derive(Drop)]
struct ParsedNumber<'a> {
    value: usize,
    rest: &'a [u8],
}

// The first line of a range, its number of lines, and the bytes after them.
#[derive(Drop)]
struct ParsedRange<'a> {
    start: usize,
    len: usize,
    rest: &'a [u8],
}

// The number of left lines before a hunk, and its lines on both sides.
#[derive(Drop)]
pub(super) struct HunkHeader {
    pub(super) before: usize,
    pub(super) left: usize,
    pub(super) right: usize,
}

fn count_digits(text: &[u8]) -> usize
    ensures count { result ≡ prefix_len is_ascii_digit text.now }
    ensures bounded { result ≤ length text.now }
{
    for (index, byte) in text.iter().enumerate() {
        if !byte.is_ascii_digit() {
            return index;
        }
    }
    text.len()
}

fn number_of_digits(digits: &[u8]) -> usize
    requires digits { list_all is_ascii_digit digits.now ≡ true }
    requires len { length digits.now ≤ 19 }
    ensures { result ≡ digits_after 0 digits.now }
{
    let mut value = 0;
    for digit in digits {
        value = value * 10 + (*digit - b'0') as usize;
    }
    value
}

fn parse_number(text: &[u8]) -> Option<ParsedNumber>
    ensures { number_view result ≡ number text.now }
{
    let len = count_digits(text);
    if len == 0 || len > 19 {
        return None;
    }
    let (digits, rest) = text.split_at(len);
    Some(ParsedNumber {
        value: number_of_digits(digits),
        rest,
    })
}

fn parse_len(start: usize, text: &[u8]) -> Option<ParsedRange>
    ensures { range_view result ≡ len_after start (number text.now) }
{
    match parse_number(text) {
        Some(len) => Some(ParsedRange {
            start,
            len: len.value,
            rest: len.rest,
        }),
        None => None,
    }
}

fn parse_range(text: &[u8]) -> Option<ParsedRange>
    ensures { range_view result ≡ range text.now }
{
    match parse_number(text) {
        Some(start) => {
            if start.rest.starts_with(b",") {
                return parse_len(start.value, &start.rest[1..]);
            }
            Some(ParsedRange {
                start: start.value,
                len: 1,
                rest: start.rest,
            })
        }
        None => None,
    }
}

fn lines_before(start: usize, len: usize) -> usize
    ensures { result ≡ lines_before start len }
{
    if len == 0 {
        start
    } else {
        start.saturating_sub(1)
    }
}

fn parse_right(start: usize, len: usize, text: &[u8]) -> Option<HunkHeader>
    ensures { header_view result ≡ right_after start len (range text.now) }
{
    match parse_range(text) {
        Some(right) => {
            if !right.rest.starts_with(b" @@") {
                return None;
            }
            Some(HunkHeader {
                before: lines_before(start, len),
                left: len,
                right: right.len,
            })
        }
        None => None,
    }
}

pub(super) fn parse_header(line: &[u8]) -> Option<HunkHeader>
    ensures { header_view result ≡ header line.now }
{
    if !line.starts_with(b"@@ -") {
        return None;
    }
    match parse_range(&line[4..]) {
        Some(left) => {
            if !left.rest.starts_with(b" +") {
                return None;
            }
            parse_right(left.start, left.len, &left.rest[2..])
        }
        None => None,
    }
}
