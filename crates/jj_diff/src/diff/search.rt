//! Search for common tokens of two sequences: tokens that occur equally and least often on both
//! sides, a longest increasing subsequence of them (patience), and the ranges between by a stack.
//! Its result is a proposal that `hunks` checks, so indices out of range are ignored.
use std::alloc::{AllocError, Global};

// The index of a token that has no counterpart.
pub(super) const NONE: usize = usize::MAX;

// Tokens that occur more often on one side of a range are no anchors.
const MAX_OCCURRENCES: usize = 100;

// Each token may be visited this often, over all ranges that it is in.
const MAX_VISITS: usize = 100;

#[derive(Copy, Clone, Drop)]
struct Span {
    left: usize,
    left_end: usize,
    right: usize,
    right_end: usize,
}

pub(super) fn at(values: &[usize], index: usize) -> usize {
    if index < values.len() {
        values[index]
    } else {
        NONE
    }
}

fn set(values: &mut [usize], index: usize, value: usize) {
    if index < values.len() {
        values[index] = value;
    }
}

fn increment(values: &mut [usize], index: usize) {
    if index < values.len() {
        values[index] = values[index].saturating_add(1);
    }
}

// Tables that are kept between spans.
#[derive(Drop)]
struct Tables {
    // The next index on the right with an equal token.
    next_right: Vec<usize>,
    // By token: how often it occurs in the current span, and where first.
    left_counts: Vec<usize>,
    right_counts: Vec<usize>,
    first_right: Vec<usize>,
}

fn next_equal(alloc: Global, tokens: &[usize], count: usize) -> Result<Vec<usize>, AllocError> {
    let mut next = vec![in alloc; NONE; tokens.len()]?;
    let mut last = vec![in alloc; NONE; count]?;
    for index in 0..tokens.len() {
        let previous = at(&last, tokens[index]);
        set(&mut next, previous, index);
        set(&mut last, tokens[index], index);
    }
    Ok(next)
}

// Matches the equal tokens at both ends of the span, and returns the span between.
fn trim(left: &[usize], right: &[usize], matches: &mut [usize], span: Span) -> Span {
    let mut span = span;
    while span.left < span.left_end
        && span.right < span.right_end
        && at(left, span.left) == at(right, span.right)
    {
        set(matches, span.left, span.right);
        span.left += 1;
        span.right += 1;
    }
    while span.left < span.left_end
        && span.right < span.right_end
        && at(left, span.left_end - 1) == at(right, span.right_end - 1)
    {
        set(matches, span.left_end - 1, span.right_end - 1);
        span.left_end -= 1;
        span.right_end -= 1;
    }
    span
}

// Counts the tokens of the span.
fn count_tokens(tables: &mut Tables, left: &[usize], right: &[usize], span: Span) {
    for index in span.left..span.left_end {
        increment(&mut tables.left_counts, at(left, index));
    }
    for index in (span.right..span.right_end).rev() {
        let token = at(right, index);
        increment(&mut tables.right_counts, token);
        set(&mut tables.first_right, token, index);
    }
}

// Returns how often the tokens occur that occur least often, and equally often on both sides.
fn least_count(tables: &Tables, left: &[usize], span: Span) -> usize {
    let mut least = MAX_OCCURRENCES + 1;
    for index in span.left..span.left_end {
        let token = at(left, index);
        let count = at(&tables.left_counts, token);
        if count < least && count == at(&tables.right_counts, token) {
            least = count;
        }
    }
    least
}

fn reset_counts(tables: &mut Tables, left: &[usize], right: &[usize], span: Span) {
    for index in span.left..span.left_end {
        set(&mut tables.left_counts, at(left, index), 0);
    }
    for index in span.right..span.right_end {
        set(&mut tables.right_counts, at(right, index), 0);
    }
}

// Returns pairs of indices of the tokens that occur `least` times on both sides.
fn pairs_of(
    alloc: Global,
    tables: &mut Tables,
    left: &[usize],
    span: Span,
    least: usize,
) -> Result<Vec<(usize, usize)>, AllocError> {
    let mut pairs = Vec::new(alloc);
    for index in span.left..span.left_end {
        let token = at(left, index);
        if at(&tables.left_counts, token) == least && at(&tables.right_counts, token) == least {
            let other = at(&tables.first_right, token);
            let next = at(&tables.next_right, other);
            set(&mut tables.first_right, token, next);
            pairs.push((index, other))?;
        }
    }
    Ok(pairs)
}

// Returns pairs of indices of the tokens that occur least often, and equally often on both sides.
fn anchors(
    alloc: Global,
    tables: &mut Tables,
    left: &[usize],
    right: &[usize],
    span: Span,
) -> Result<Vec<(usize, usize)>, AllocError> {
    count_tokens(tables, left, right, span);
    let least = least_count(tables, left, span);
    let pairs = pairs_of(alloc, tables, left, span, least)?;
    reset_counts(tables, left, right, span);
    Ok(pairs)
}

fn other_of(pairs: &[(usize, usize)], index: usize) -> usize {
    if index < pairs.len() {
        pairs[index].1
    } else {
        NONE
    }
}

// Returns how many of `tails` are pairs with an index below `other`. The tails increase.
fn tail_position(pairs: &[(usize, usize)], tails: &[usize], other: usize) -> usize {
    let mut low = 0;
    let mut high = tails.len();
    while low < high {
        let middle = low + (high - low) / 2;
        if other_of(pairs, at(tails, middle)) < other {
            low = middle + 1;
        } else {
            high = middle;
        }
    }
    low
}

// Returns a longest subsequence of the pairs in which the second indices increase, last one first.
fn longest_increasing(
    alloc: Global,
    pairs: &[(usize, usize)],
) -> Result<Vec<(usize, usize)>, AllocError> {
    let mut tails: Vec<usize> = Vec::new(alloc);
    let mut previous: Vec<usize> = Vec::with_capacity(alloc, pairs.len())?;
    for index in 0..pairs.len() {
        let position = tail_position(pairs, &tails, pairs[index].1);
        previous.push(if position == 0 {
            NONE
        } else {
            at(&tails, position - 1)
        })?;
        if position < tails.len() {
            tails[position] = index;
        } else {
            tails.push(index)?;
        }
    }
    let mut result = Vec::with_capacity(alloc, tails.len())?;
    let mut index = if tails.is_empty() {
        NONE
    } else {
        at(&tails, tails.len() - 1)
    };
    for _ in 0..tails.len() {
        if index < pairs.len() {
            result.push(pairs[index])?;
            index = at(&previous, index);
        }
    }
    Ok(result)
}

// Matches the anchors, and pushes the spans between them.
fn split(
    matches: &mut [usize],
    spans: &mut Vec<Span>,
    span: Span,
    chain: &[(usize, usize)],
) -> Result<(), AllocError> {
    let mut left_end = span.left_end;
    let mut right_end = span.right_end;
    for pair in chain {
        set(matches, pair.0, pair.1);
        if pair.0 < left_end && pair.1 < right_end {
            spans.push(Span {
                left: pair.0.saturating_add(1),
                left_end,
                right: pair.1.saturating_add(1),
                right_end,
            })?;
            left_end = pair.0;
            right_end = pair.1;
        }
    }
    spans.push(Span {
        left: span.left,
        left_end,
        right: span.right,
        right_end,
    })?;
    Ok(())
}

// Matches the tokens of the span that are found at once, and pushes the spans that are left.
fn search_span(
    alloc: Global,
    tables: &mut Tables,
    left: &[usize],
    right: &[usize],
    spans: &mut Vec<Span>,
    matches: &mut Vec<usize>,
    span: Span,
) -> Result<(), AllocError> {
    let pairs = anchors(alloc, tables, left, right, span)?;
    if pairs.is_empty() {
        return Ok(());
    }
    let chain = longest_increasing(alloc, &pairs)?;
    split(matches, spans, span, &chain)
}

// Returns the index after the last token before `end` that has no counterpart, or 0.
fn last_unmatched(matches: &[usize], end: usize) -> usize {
    for index in (0..end).rev() {
        if at(matches, index) == NONE {
            return index.saturating_add(1);
        }
    }
    0
}

// Returns the index of the first of the tokens without counterpart that end at `end`.
fn group_start(matches: &[usize], end: usize) -> usize {
    for index in (0..end).rev() {
        if at(matches, index) != NONE {
            return index.saturating_add(1);
        }
    }
    0
}

// Returns the index after the tokens without counterpart that start at `start`.
fn group_end(matches: &[usize], start: usize) -> usize {
    for index in start..matches.len() {
        if at(matches, index) != NONE {
            return index;
        }
    }
    matches.len()
}

// Slides a group of tokens without counterpart down while its first token equals the one after it,
// and the tokens around it have adjacent counterparts. Joins it with groups that it reaches.
fn slide_group(
    tokens: &[usize],
    matches: &mut Vec<usize>,
    others: &mut Vec<usize>,
    group: (usize, usize),
    steps: &mut usize,
) {
    let mut start = group.0;
    let mut end = group.1;
    for _ in 0..tokens.len() {
        let next = at(matches, end);
        let before = if start == 0 {
            0
        } else {
            at(matches, start - 1).saturating_add(1)
        };
        if next == NONE || next != before || at(tokens, start) != at(tokens, end) || *steps == 0 {
            return;
        }
        set(matches, start, next);
        set(others, next, start);
        set(matches, end, NONE);
        *steps = steps.saturating_sub(1);
        start = start.saturating_add(1);
        end = group_end(matches, end);
    }
}

// Slides each group of tokens without counterpart down, the last one first.
fn slide_groups(
    tokens: &[usize],
    matches: &mut Vec<usize>,
    others: &mut Vec<usize>,
    steps: &mut usize,
) {
    let mut before = tokens.len();
    for _ in 0..tokens.len() {
        let end = last_unmatched(matches, before);
        if end == 0 {
            return;
        }
        let start = group_start(matches, end);
        slide_group(tokens, matches, others, (start, end), steps);
        before = start;
    }
}

// Slides ambiguous insertions and deletions down, as Git does, so that comparisons of one input
// with several others agree on them.
fn slide_down(
    alloc: Global,
    left: &[usize],
    right: &[usize],
    matches: &mut Vec<usize>,
) -> Result<(), AllocError> {
    let mut others = vec![in alloc; NONE; right.len()]?;
    for index in 0..matches.len() {
        set(&mut others, at(matches, index), index);
    }
    let mut steps = left
        .len()
        .saturating_add(right.len())
        .saturating_mul(MAX_VISITS);
    slide_groups(right, &mut others, matches, &mut steps);
    slide_groups(left, matches, &mut others, &mut steps);
    Ok(())
}

// Returns for each token of `left` the index of its counterpart in `right`, or `NONE`. Tokens are
// below `count`. Counterparts increase. Visits each token a bounded number of times.
pub(super) fn find_matches(
    alloc: Global,
    left: &[usize],
    right: &[usize],
    count: usize,
) -> Result<Vec<usize>, AllocError> {
    let mut tables = Tables {
        next_right: next_equal(alloc, right, count)?,
        left_counts: vec![in alloc; 0; count]?,
        right_counts: vec![in alloc; 0; count]?,
        first_right: vec![in alloc; NONE; count]?,
    };
    let mut matches = vec![in alloc; NONE; left.len()]?;
    let mut spans = Vec::new(alloc);
    spans.push(Span {
        left: 0,
        left_end: left.len(),
        right: 0,
        right_end: right.len(),
    })?;
    let mut visits = left
        .len()
        .saturating_add(right.len())
        .saturating_mul(MAX_VISITS);
    for _ in 0..usize::MAX {
        let Some(next) = spans.pop() else {
            break;
        };
        let span = trim(left, right, &mut matches, next);
        if span.left < span.left_end && span.right < span.right_end {
            let size = (span.left_end - span.left).saturating_add(span.right_end - span.right);
            if size > visits {
                break;
            }
            visits -= size;
            search_span(
                alloc,
                &mut tables,
                left,
                right,
                &mut spans,
                &mut matches,
                span,
            )?;
        }
    }
    slide_down(alloc, left, right, &mut matches)?;
    Ok(matches)
}
