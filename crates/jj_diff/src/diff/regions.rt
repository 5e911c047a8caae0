//! Regions of N inputs that are equal in all, from the matches of each input with the first.
use super::compare::CompareBytes;
use super::hunks::MatchedRegion;
use super::numbers::Numbers;
use super::search::{NONE, at, find_matches};
use super::tokens::Tokenizer;
use std::alloc::{AllocError, Global};

// Returns where token `index` starts.
fn start_of(ends: &[usize], index: usize) -> usize {
    if index == 0 { 0 } else { at(ends, index - 1) }
}

// Returns for each input the counterparts of the tokens of input `base`.
fn all_matches(
    alloc: Global,
    inputs: &[&[u8]],
    ends: &[Vec<usize>],
    base: usize,
) -> Result<Vec<Vec<usize>>, AllocError> {
    let mut count: usize = 0;
    for row in ends {
        count = count.saturating_add(row.len());
    }
    let mut numbers = Numbers::new(alloc, count)?;
    let mut tokens: Vec<Vec<usize>> = Vec::with_capacity(alloc, inputs.len())?;
    for index in 0..inputs.len() {
        if index < ends.len() {
            tokens.push(numbers.number(alloc, inputs[index], &ends[index])?)?;
        }
    }
    let count = numbers.len();
    let mut matches = Vec::with_capacity(alloc, inputs.len())?;
    for other in &tokens {
        if base < tokens.len() {
            matches.push(find_matches(alloc, &tokens[base], other, count)?)?;
        }
    }
    Ok(matches)
}

fn is_matched(matches: &[Vec<usize>], token: usize) -> bool {
    for row in matches {
        if at(row, token) == NONE {
            return false;
        }
    }
    true
}

// Whether each counterpart of `token` follows that of the token before.
fn continues(matches: &[Vec<usize>], token: usize) -> bool {
    for row in matches {
        if token == 0 || at(row, token) != at(row, token - 1).saturating_add(1) {
            return false;
        }
    }
    true
}

fn region(
    alloc: Global,
    ends: &[Vec<usize>],
    matches: &[Vec<usize>],
    start: usize,
    end: usize,
) -> Result<MatchedRegion, AllocError> {
    let mut region = MatchedRegion {
        starts: Vec::with_capacity(alloc, ends.len())?,
        ends: Vec::with_capacity(alloc, ends.len())?,
    };
    for index in 0..ends.len() {
        if index < matches.len() {
            let first = at(&matches[index], start);
            let last = at(&matches[index], end);
            region.starts.push(start_of(&ends[index], first))?;
            region.ends.push(at(&ends[index], last))?;
        }
    }
    Ok(region)
}

// Returns the regions of tokens that are matched in all inputs. `ends` has the ends of their
// tokens.
fn regions_of_matches(
    alloc: Global,
    ends: &[Vec<usize>],
    matches: &[Vec<usize>],
    count: usize,
) -> Result<Vec<MatchedRegion>, AllocError> {
    let mut regions = Vec::new(alloc);
    let mut start = NONE;
    let mut last = NONE;
    for token in 0..count {
        let is_matched = is_matched(matches, token);
        if start != NONE && !(is_matched && continues(matches, token)) {
            regions.push(region(alloc, ends, matches, start, last)?)?;
            start = NONE;
        }
        if is_matched && start == NONE {
            start = token;
        }
        last = token;
    }
    if start != NONE {
        regions.push(region(alloc, ends, matches, start, last)?)?;
    }
    Ok(regions)
}

/// Returns the regions of equal tokens. `ends` has the ends of each input's tokens, and input
/// `base` is compared with each other one.
pub fn find_regions(
    alloc: Global,
    inputs: &[&[u8]],
    ends: &[Vec<usize>],
    base: usize,
) -> Result<Vec<MatchedRegion>, AllocError> {
    if base >= ends.len() {
        return Ok(Vec::new(alloc));
    }
    let matches = all_matches(alloc, inputs, ends, base)?;
    regions_of_matches(alloc, ends, &matches, ends[base].len())
}

// The canonical forms of an input's tokens, one after the other, and where each ends.
#[derive(Drop)]
struct Forms {
    bytes: Vec<u8>,
    ends: Vec<usize>,
}

fn forms_of<C: CompareBytes>(
    alloc: Global,
    compare: &C,
    input: &[u8],
    ends: &[usize],
) -> Result<Forms, AllocError> {
    let mut bytes = Vec::with_capacity(alloc, input.len())?;
    let mut form_ends = Vec::with_capacity(alloc, ends.len())?;
    let mut start = 0;
    for end in ends {
        if start <= *end && *end <= input.len() {
            compare.push_canonical(&input[start..*end], &mut bytes)?;
            form_ends.push(bytes.len())?;
            start = *end;
        }
    }
    Ok(Forms {
        bytes,
        ends: form_ends,
    })
}

/// Returns the regions of tokens that are equal under the comparison. Input `base` is compared with
/// each other one.
pub fn find_compared_regions<T: Tokenizer, C: CompareBytes>(
    alloc: Global,
    tokenizer: &T,
    compare: &C,
    inputs: &[&[u8]],
    base: usize,
) -> Result<Vec<MatchedRegion>, AllocError> {
    let mut ends: Vec<Vec<usize>> = Vec::with_capacity(alloc, inputs.len())?;
    let mut bytes: Vec<Vec<u8>> = Vec::with_capacity(alloc, inputs.len())?;
    let mut form_ends: Vec<Vec<usize>> = Vec::with_capacity(alloc, inputs.len())?;
    for input in inputs {
        let input_ends = tokenizer.find_ends(alloc, *input)?;
        let forms = forms_of(alloc, compare, *input, &input_ends)?;
        ends.push(input_ends)?;
        bytes.push(forms.bytes)?;
        form_ends.push(forms.ends)?;
    }
    let mut texts: Vec<&[u8]> = Vec::with_capacity(alloc, inputs.len())?;
    for form in &bytes {
        texts.push(form.as_slice())?;
    }
    if base >= ends.len() {
        return Ok(Vec::new(alloc));
    }
    let matches = all_matches(alloc, &texts, &form_ends, base)?;
    regions_of_matches(alloc, &ends, &matches, ends[base].len())
}
