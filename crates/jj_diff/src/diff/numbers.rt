//! Numbers for tokens, so that equal tokens have the same number: a hash table with linear probing,
//! and a B-tree for the tokens that find no slot within a few probes. So tokens whose hashes were
//! chosen to collide take logarithmic time.
use super::search::{NONE, at};
use std::alloc::{AllocError, Global};
use std::collections::BTreeMap;

const MAX_PROBES: usize = 16;

// The tokens that were seen, by number, and where they are found.
#[derive(Drop)]
pub(super) struct Numbers<'a> {
    tokens: Vec<&'a [u8]>,
    hashes: Vec<usize>,
    // The number of the token in each slot, or `NONE`.
    slots: Vec<usize>,
    // The greatest slot, one less than a power of 2.
    mask: usize,
    others: BTreeMap<&'a [u8], usize>,
}

// FNV-1a, and a last step that mixes the high bits into the low ones.
fn hash_of(token: &[u8]) -> usize {
    let mut hash: usize = 0xcbf2_9ce4_8422_2325;
    for byte in token {
        hash = (hash ^ usize::from(*byte)).wrapping_mul(0x0100_0000_01b3);
    }
    hash ^ (hash >> 32)
}

// Whether the token of this number is `token`.
fn is_token(numbers: &Numbers, number: usize, hash: usize, token: &[u8]) -> bool {
    at(&numbers.hashes, number) == hash
        && number < numbers.tokens.len()
        && numbers.tokens[number] == token
}

// Appends a token. Returns its number.
fn push_token<'a>(
    numbers: &mut Numbers<'a>,
    token: &'a [u8],
    hash: usize,
) -> Result<usize, AllocError> {
    let number = numbers.tokens.len();
    numbers.tokens.push(token)?;
    numbers.hashes.push(hash)?;
    Ok(number)
}

// Returns the number of a token that found no slot.
fn other_number<'a>(
    numbers: &mut Numbers<'a>,
    token: &'a [u8],
    hash: usize,
) -> Result<usize, AllocError> {
    if let Some(number) = numbers.others.get(&token) {
        return Ok(*number);
    }
    let number = push_token(numbers, token, hash)?;
    numbers.others.insert(token, number)?;
    Ok(number)
}

fn number_of<'a>(numbers: &mut Numbers<'a>, token: &'a [u8]) -> Result<usize, AllocError> {
    let hash = hash_of(token);
    for probe in 0..MAX_PROBES {
        let slot = hash.wrapping_add(probe) & numbers.mask;
        let number = at(&numbers.slots, slot);
        if number == NONE {
            let new = push_token(numbers, token, hash)?;
            if slot < numbers.slots.len() {
                numbers.slots[slot] = new;
            }
            return Ok(new);
        }
        if is_token(numbers, number, hash, token) {
            return Ok(number);
        }
    }
    other_number(numbers, token, hash)
}

// Returns the least power of 2 that is at least `count`, or the greatest one.
fn power_from(count: usize) -> usize {
    let mut power: usize = 1;
    for _ in 0..62 {
        if power < count {
            power = power.saturating_mul(2);
        }
    }
    power
}

impl<'a> Numbers<'a> {
    // Returns no numbers, with room for so many tokens.
    pub(super) fn new(alloc: Global, count: usize) -> Result<Numbers<'a>, AllocError> {
        let size = power_from(count.saturating_mul(2).max(16));
        Ok(Numbers {
            tokens: Vec::new(alloc),
            hashes: Vec::new(alloc),
            slots: vec![in alloc; NONE; size]?,
            mask: size.saturating_sub(1),
            others: BTreeMap::new(alloc),
        })
    }

    // Returns how many numbers there are.
    pub(super) fn len(&self) -> usize {
        self.tokens.len()
    }

    // Returns the numbers of the tokens of `text` that end at `ends`.
    pub(super) fn number(
        &mut self,
        alloc: Global,
        text: &'a [u8],
        ends: &[usize],
    ) -> Result<Vec<usize>, AllocError> {
        let mut result = Vec::with_capacity(alloc, ends.len())?;
        let mut start = 0;
        for end in ends {
            if start <= *end && *end <= text.len() {
                result.push(number_of(self, &text[start..*end])?)?;
                start = *end;
            }
        }
        Ok(result)
    }
}
