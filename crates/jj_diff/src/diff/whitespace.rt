//! Canonical forms of byte strings without white space, or with one space for each run of it.
ghost use Rattle.std.specs.Prelude.{◌≡◌, ◌+◌, ◌-◌, ◌<◌, ◌≤◌, ◌++◌, ◌∷◌, true, false, length, drop, slice_index, OnOk, IsTrue, IsFalse};
ghost use Rattle.std.specs.Char.{is_ascii_whitespace};
ghost use Rattle.jj_diff.specs.Whitespace.{without_whitespace, spaced, with_single_spaces, form_of, symbol_of};

use std::alloc::AllocError;

// Returns the index of the first byte from `start` on that is no white space, or the length.
#[tactic(auto, using(crate::proofs::Whitespace::skip_steps))]
fn skip_whitespace(text: &[u8], start: usize) -> usize
    requires { start ≤ length text.now }
    ensures start { start ≤ result }
    ensures within { result ≤ length text.now }
    ensures end { result < length text.now
        → is_ascii_whitespace (slice_index text.now result) ≡ false }
    ensures without { without_whitespace (drop start text.now)
        ≡ without_whitespace (drop result text.now) }
    ensures spaced { spaced true (drop start text.now) ≡ spaced true (drop result text.now) }
{
    for index in start..text.len() {
        if !text[index].is_ascii_whitespace() {
            return index;
        }
    }
    text.len()
}

// Returns the index of the next byte after one that is no white space.
#[tactic(auto, using(crate::proofs::Whitespace::next_steps))]
fn next_word_byte(text: &[u8], at: usize) -> usize
    requires at { at < length text.now }
    requires word { is_ascii_whitespace (slice_index text.now at) ≡ false }
    ensures start { at < result }
    ensures within { result ≤ length text.now }
    ensures end { result < length text.now
        → is_ascii_whitespace (slice_index text.now result) ≡ false }
    ensures step { without_whitespace (drop at text.now)
        ≡ symbol_of (slice_index text.now at) ∷ without_whitespace (drop result text.now) }
{
    skip_whitespace(text, at + 1)
}

// Returns the index after a byte, or after a run of white space.
#[tactic(auto, using(crate::proofs::Whitespace::next_steps))]
fn next_spaced_byte(text: &[u8], at: usize) -> usize
    requires { at < length text.now }
    ensures start { at < result }
    ensures within { result ≤ length text.now }
    ensures step { with_single_spaces (drop at text.now)
        ≡ symbol_of (slice_index text.now at) ∷ with_single_spaces (drop result text.now) }
{
    if text[at].is_ascii_whitespace() {
        return skip_whitespace(text, at + 1);
    }
    at + 1
}

fn next_index(text: &[u8], at: usize, all: bool) -> usize
    requires at { at < length text.now }
    requires word { IsTrue all → is_ascii_whitespace (slice_index text.now at) ≡ false }
    ensures start { at < result }
    ensures within { result ≤ length text.now }
    ensures word { IsTrue all → result < length text.now
        → is_ascii_whitespace (slice_index text.now result) ≡ false }
    ensures step { form_of all (drop at text.now)
        ≡ symbol_of (slice_index text.now at) ∷ form_of all (drop result text.now) }
{
    if all {
        return next_word_byte(text, at);
    }
    next_spaced_byte(text, at)
}

fn first_index(text: &[u8], all: bool) -> usize
    ensures within { result ≤ length text.now }
    ensures word { IsTrue all → result < length text.now
        → is_ascii_whitespace (slice_index text.now result) ≡ false }
    ensures same { form_of all text.now ≡ form_of all (drop result text.now) }
{
    if all {
        return skip_whitespace(text, 0);
    }
    0
}

fn symbol(byte: u8) -> u8
    ensures { result ≡ symbol_of byte }
{
    if byte.is_ascii_whitespace() {
        return b' ';
    }
    byte
}

// Whether the strings have the same bytes, without white space if `all`, or else with one space for
// each run of it.
#[tactic(auto, using(crate::proofs::Whitespace::form_steps))]
pub(super) fn is_same_form(left: &[u8], right: &[u8], all: bool) -> bool
    ensures same { IsTrue result → form_of all left.now ≡ form_of all right.now }
    ensures different { IsFalse result → ¬ (form_of all left.now ≡ form_of all right.now) }
{
    let mut at = first_index(left, all);
    let mut other = first_index(right, all);
    while at < left.len() && other < right.len() {
        if symbol(left[at]) != symbol(right[other]) {
            return false;
        }
        at = next_index(left, at, all);
        other = next_index(right, other, all);
    }
    at == left.len() && other == right.len()
}

// Appends the bytes, without white space if `all`, or else with one space for each run of it.
#[tactic(auto, using(crate::proofs::Whitespace::form_steps))]
pub(super) fn push_form(text: &[u8], all: bool, form: &mut Vec<u8>) -> Result<(), AllocError>
    ensures { OnOk result (form.new.items ≡ form.old.items ++ form_of all text.now) }
{
    let mut at = first_index(text, all);
    while at < text.len() {
        form.push(symbol(text[at]))?;
        at = next_index(text, at, all);
    }
    Ok(())
}
