//! The longest common start and the longest common end of all inputs, in whole tokens.
ghost use Rattle.std.specs.Prelude.{◌≡◌, ℕ, ◌+◌, ◌-◌, ◌<◌, ◌≤◌, [], length, take, IsTrue, IsFalse};
ghost use Rattle.std.specs.List.{slice_index_or};
ghost use Rattle.jj_diff.specs.Inputs.{bytes_of};
ghost use Rattle.jj_diff.specs.Tokens.{IsCut};
ghost use Rattle.jj_diff.specs.Ends.{IsCommonStart, IsCommonEnd, IsEqualStart, IsEqualEnd, IsWithin, AreStartCuts, AreEndCuts, suffix};

use super::tokens::{Tokenizer, is_cut};

// Returns how many bytes, at most `most`, are equal at the start of both strings.
#[tactic(auto, using(crate::proofs::CommonEnds::start_steps))]
fn shared_start(left: &[u8], right: &[u8], most: usize) -> usize
    requires { most ≤ length left.now }
    ensures most { result ≤ most }
    ensures within { result ≤ length right.now }
    ensures equal { take result right.now ≡ take result left.now }
    ensures longest { (n : ℕ) → n ≤ most → n ≤ length right.now
        → take n right.now ≡ take n left.now → n ≤ result }
{
    for index in 0..most {
        if index >= right.len() || right[index] != left[index] {
            return index;
        }
    }
    most
}

// Returns how many bytes, at most `most`, are equal at the end of both strings.
#[tactic(auto, using(crate::proofs::CommonEnds::end_steps))]
fn shared_end(left: &[u8], right: &[u8], most: usize) -> usize
    requires left { most ≤ length left.now }
    requires right { most ≤ length right.now }
    ensures most { result ≤ most }
    ensures equal { suffix result right.now ≡ suffix result left.now }
    ensures longest { (n : ℕ) → n ≤ most → suffix n right.now ≡ suffix n left.now → n ≤ result }
{
    for len in 0..most {
        if right[right.len() - 1 - len] != left[left.len() - 1 - len] {
            return len;
        }
    }
    most
}

// Returns how many bytes are equal at the start of all inputs.
#[tactic(auto, using(crate::proofs::CommonEnds::equal_start_steps))]
fn equal_start(inputs: &[&[u8]]) -> usize
    requires { 0 < length inputs.now }
    ensures equal { IsEqualStart (bytes_of inputs.now) result }
    ensures longest { (n : ℕ) → IsEqualStart (bytes_of inputs.now) n → n ≤ result }
{
    let first = inputs[0];
    let mut len = first.len();
    for index in 1..inputs.len() {
        len = shared_start(first, inputs[index], len);
    }
    len
}

// Returns the length of the shortest input.
#[tactic(auto, using(crate::proofs::CommonEnds::shortest_steps))]
fn shortest_len(inputs: &[&[u8]]) -> usize
    requires { 0 < length inputs.now }
    ensures within { IsWithin (bytes_of inputs.now) result }
    ensures greatest { (n : ℕ) → IsWithin (bytes_of inputs.now) n → n ≤ result }
{
    let mut len = inputs[0].len();
    for index in 1..inputs.len() {
        len = len.min(inputs[index].len());
    }
    len
}

// Returns how many bytes are equal at the end of all inputs, after the first `start` bytes.
#[tactic(auto, using(crate::proofs::CommonEnds::equal_end_steps))]
fn equal_end(inputs: &[&[u8]], start: usize) -> usize
    requires some { 0 < length inputs.now }
    requires within { IsWithin (bytes_of inputs.now) start }
    ensures equal { IsEqualEnd (bytes_of inputs.now) start result }
    ensures longest { (n : ℕ) → IsEqualEnd (bytes_of inputs.now) start n → n ≤ result }
{
    let first = inputs[0];
    let mut len = shortest_len(inputs) - start;
    for index in 1..inputs.len() {
        len = shared_end(first, inputs[index], len);
    }
    len
}

// Whether each input has a cut after the first `len` bytes.
fn are_start_cuts<T: Tokenizer>(tokenizer: &T, inputs: &[&[u8]], len: usize) -> bool
    requires { IsWithin (bytes_of inputs.now) len }
    ensures cuts { IsTrue result → AreStartCuts (T.is_end tokenizer.now) (bytes_of inputs.now) len }
    ensures no_cuts { IsFalse result
        → ¬ (AreStartCuts (T.is_end tokenizer.now) (bytes_of inputs.now) len) }
{
    for index in 0..inputs.len() {
        if !is_cut(tokenizer, inputs[index], len) {
            return false;
        }
    }
    true
}

// Whether each input has a cut before the last `len` bytes.
fn are_end_cuts<T: Tokenizer>(tokenizer: &T, inputs: &[&[u8]], len: usize) -> bool
    requires { IsWithin (bytes_of inputs.now) len }
    ensures cuts { IsTrue result → AreEndCuts (T.is_end tokenizer.now) (bytes_of inputs.now) len }
    ensures no_cuts { IsFalse result
        → ¬ (AreEndCuts (T.is_end tokenizer.now) (bytes_of inputs.now) len) }
{
    for index in 0..inputs.len() {
        if !is_cut(tokenizer, inputs[index], inputs[index].len() - len) {
            return false;
        }
    }
    true
}

// Returns the greatest length, at most `most`, at which each input has a cut.
#[tactic(auto, using(crate::proofs::CommonEnds::cut_steps))]
fn last_start_cut<T: Tokenizer>(tokenizer: &T, inputs: &[&[u8]], most: usize) -> usize
    requires { IsWithin (bytes_of inputs.now) most }
    ensures most { result ≤ most }
    ensures cuts { AreStartCuts (T.is_end tokenizer.now) (bytes_of inputs.now) result }
    ensures longest { (n : ℕ) → n ≤ most
        → AreStartCuts (T.is_end tokenizer.now) (bytes_of inputs.now) n → n ≤ result }
{
    for back in 0..most {
        if are_start_cuts(tokenizer, inputs, most - back) {
            return most - back;
        }
    }
    0
}

// Returns the greatest length, at most `most`, of a suffix before which each input has a cut.
#[tactic(auto, using(crate::proofs::CommonEnds::cut_steps))]
fn first_end_cut<T: Tokenizer>(tokenizer: &T, inputs: &[&[u8]], most: usize) -> usize
    requires { IsWithin (bytes_of inputs.now) most }
    ensures most { result ≤ most }
    ensures cuts { AreEndCuts (T.is_end tokenizer.now) (bytes_of inputs.now) result }
    ensures longest { (n : ℕ) → n ≤ most
        → AreEndCuts (T.is_end tokenizer.now) (bytes_of inputs.now) n → n ≤ result }
{
    for back in 0..most {
        if are_end_cuts(tokenizer, inputs, most - back) {
            return most - back;
        }
    }
    0
}

// Returns the length of the longest common start of the inputs.
#[tactic(auto, using(crate::proofs::CommonEnds::common_steps))]
pub(super) fn common_start<T: Tokenizer>(tokenizer: &T, inputs: &[&[u8]]) -> usize
    requires { 0 < length inputs.now }
    ensures common { IsCommonStart (T.is_end tokenizer.now) (bytes_of inputs.now) result }
    ensures longest { (n : ℕ) → IsCommonStart (T.is_end tokenizer.now) (bytes_of inputs.now) n
        → n ≤ result }
{
    let most = equal_start(inputs);
    last_start_cut(tokenizer, inputs, most)
}

// Returns the length of the longest common end of the inputs after the first `start` bytes.
#[tactic(auto, using(crate::proofs::CommonEnds::common_steps))]
pub(super) fn common_end<T: Tokenizer>(tokenizer: &T, inputs: &[&[u8]], start: usize) -> usize
    requires some { 0 < length inputs.now }
    requires within { IsWithin (bytes_of inputs.now) start }
    ensures common { IsCommonEnd (T.is_end tokenizer.now) (bytes_of inputs.now) start result }
    ensures longest { (n : ℕ) → IsCommonEnd (T.is_end tokenizer.now) (bytes_of inputs.now) start n
        → n ≤ result }
{
    let most = equal_end(inputs, start);
    first_end_cut(tokenizer, inputs, most)
}
