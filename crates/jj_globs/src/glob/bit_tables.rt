//! Bit-parallel simulation of small NFAs: Glushkov's automaton, whose live states are the bits of
//! one word (G. Navarro and M. Raffinot, "Flexible Pattern Matching in Strings", 2002, chapter 5).
//! Only states that consume a byte, and the end, are live: epsilon transitions are followed when
//! the tables are built. A byte takes a table look-up, and one for each live state that consumes
//! it. The tables have at most 256 + 63 words.
ghost use Rattle.std.specs.Prelude.{◌≡◌, ◌↔◌, ◌⊎◌, ◌+◌, ◌*◌, ◌/◌, ◌%◌, ◌<◌, ◌≤◌, ℕ, List, false};
ghost use Rattle.std.specs.Prelude.{length, get_or, slice_get, Some, IfOk, IfSome, IsTrue};
ghost use Rattle.std.specs.Int.{bit_at};
ghost use Rattle.jj_globs.specs.declared.glob.step.Step.{Step as StepValue};
ghost use Rattle.jj_globs.specs.declared.glob.token.Options.{Options as OptionsValue};
ghost use Rattle.jj_globs.specs.GlobMeaning.{same_byte};
ghost use Rattle.jj_globs.specs.GlobNfa.{HasBit, TargetsInRange, accepts_from, end_test};
ghost use Rattle.jj_globs.specs.GlobTables.{takes_byte, target, after_bytes, Takes, HasClosure};
ghost use Rattle.jj_globs.specs.GlobTables.{InUnion, AreInRange, AreTablesOf};

use crate::glob::simulation::end_accepts;
use crate::glob::state_set::{insert, lowest_bit};
use crate::glob::step::Step;
use crate::glob::token::Options;
use std::alloc::{AllocError, Global};

// Tables are built for fewer steps than this: with the end, the states then fit a word.
const MAX_STEPS: usize = 64;

/// The transitions of an NFA as bit sets of states.
#[derive(Drop)]
pub struct BitTables {
    /// For each byte, the states that consume it.
    pub takes: Vec<u64>,
    /// For each state, the live states after a byte that it consumes.
    pub follow: Vec<u64>,
    /// The live states at first.
    pub start: u64,
}

impl BitTables {
    // Builds the tables of the steps after the leading ones that consume exactly one byte. There
    // are none for no steps, or for 64 or more.
    pub(crate) fn after_bytes(
        alloc: Global,
        options: Options,
        steps: &[Step],
    ) -> Result<Option<BitTables>, AllocError>
        requires inside { TargetsInRange steps.now }
        ensures { IfOk result (λ tables. IfSome tables
            (AreTablesOf options (after_bytes steps.now))) }
    {
        let left = after_bytes(steps);
        if left.is_empty() || left.len() >= MAX_STEPS {
            return Ok(None);
        }
        Ok(Some(BitTables::build(alloc, options, left)?))
    }

    fn build(alloc: Global, options: Options, steps: &[Step]) -> Result<BitTables, AllocError>
        requires size { length steps.now < MAX_STEPS }
        requires inside { TargetsInRange steps.now }
        ensures { IfOk result (AreTablesOf options steps.now) }
    {
        let mut takes = [0u64; 256];
        insert_steps(options, steps, &mut takes);
        let mut closures = [0u64; 64];
        find_closures(steps, &mut closures);
        Ok(BitTables {
            takes: takes.to_vec(alloc)?,
            follow: follow_of(alloc, steps, &closures)?,
            start: closures[0],
        })
    }

    // Whether the NFA accepts the bytes, or with `below` a prefix of them that `/` follows.
    pub(crate) fn accept(&self, below: bool, bytes: &[u8]) -> bool
        requires ranges { AreInRange self.now }
        ensures { (options : OptionsValue) (steps : List StepValue)
            → AreTablesOf options steps self.now
            → result ≡ accepts_from options below steps 0 bytes.now }
    {
        let takes = self.takes.as_slice();
        let follow = self.follow.as_slice();
        let end = follow.len();
        let mut live = self.start;
        let mut left = bytes;
        while let Some((byte, rest)) = left.split_first() {
            if accepts_here(live, end, below, left) {
                return true;
            }
            live = union(follow, live & takes[*byte as usize]);
            if live == 0 {
                return false;
            }
            left = rest;
        }
        accepts_here(live, end, below, left)
    }
}

// Whether the end is live and accepts the bytes.
fn accepts_here(live: u64, end: usize, below: bool, left: &[u8]) -> bool
    requires { end < 64 }
    ensures { IsTrue result ↔ ((bit_at live end ≡ 1) × IsTrue (end_test below left.now)) }
{
    live >> end & 1 == 1 && end_accepts(below, left)
}

// Returns the union of the sets of these states.
fn union(sets: &[u64], states: u64) -> u64
    requires inside { (s : ℕ) → bit_at states s ≡ 1 → s < length sets.now }
    ensures { (j : ℕ) → (bit_at result j ≡ 1) ↔ InUnion sets.now states j }
{
    let mut all = 0;
    let mut left = states;
    while left != 0 {
        let state = lowest_bit(left);
        all = all | sets[state];
        left = left & (left - 1);
    }
    all
}

// Skips the leading steps that consume exactly one byte.
fn after_bytes(steps: &[Step]) -> &[Step]
    requires inside { TargetsInRange steps.now }
    ensures same { result.now ≡ after_bytes steps.now }
    ensures inside { TargetsInRange result.now }
{
    let mut left = steps;
    while let Some((step, after)) = left.split_first() {
        if !step.consumes_byte() {
            break;
        }
        left = after;
    }
    left
}

// Inserts each state into the sets of the bytes that it consumes. Byte `b` and state `s` are bit
// `64 * b + s`.
fn insert_steps(options: Options, steps: &[Step], takes: &mut [u64])
    requires size { length steps.now < MAX_STEPS }
    requires room { length takes.old ≡ 256 }
    requires none { (j : ℕ) → HasBit takes.old j → ⊥ }
    ensures live { (j : ℕ) → j / 64 < 256
        → HasBit takes.new j ↔ Takes options steps.now (j / 64) (j % 64) }
    ensures len { length takes.new ≡ length takes.old }
{
    for state in 0..steps.len() {
        insert_step(options, steps[state], state, takes);
    }
}

fn insert_step(options: Options, step: Step, state: usize, takes: &mut [u64])
    requires size { state < MAX_STEPS }
    requires room { length takes.old ≡ 256 }
    ensures live { (j : ℕ) → j / 64 < 256 → HasBit takes.new j
        ↔ (HasBit takes.old j ⊎ ((j % 64 ≡ state) × IsTrue (takes_byte options step (j / 64)))) }
    ensures len { length takes.new ≡ length takes.old }
{
    match step {
        Step::Byte(own) => {
            let (lower, upper) = both_cases(options, own);
            insert(takes, 64 * lower as usize + state);
            insert(takes, 64 * upper as usize + state);
        }
        Step::Fork(_) | Step::Jump(_) => {}
        _ => insert_tested(options, step, state, takes),
    }
}

// Returns the bytes that are equal to this one: with `icase` up to ASCII case.
fn both_cases(options: Options, own: u8) -> (u8, u8)
    ensures { (b : ℕ) → IsTrue (same_byte options own b) ↔ ((b ≡ result.0) ⊎ (b ≡ result.1)) }
{
    if options.icase {
        (own.to_ascii_lowercase(), own.to_ascii_uppercase())
    } else {
        (own, own)
    }
}

fn insert_tested(options: Options, step: Step, state: usize, takes: &mut [u64])
    requires size { state < MAX_STEPS }
    requires room { length takes.old ≡ 256 }
    ensures live { (j : ℕ) → j / 64 < 256 → HasBit takes.new j
        ↔ (HasBit takes.old j ⊎ ((j % 64 ≡ state) × IsTrue (takes_byte options step (j / 64)))) }
    ensures len { length takes.new ≡ length takes.old }
{
    for byte in 0..256usize {
        if takes_byte(options, step, byte as u8) {
            insert(takes, 64 * byte + state);
        }
    }
}

// Whether the step consumes the byte.
fn takes_byte(options: Options, step: Step, byte: u8) -> bool
    ensures { result ≡ takes_byte options step byte }
{
    match step {
        Step::Byte(own) => options.same_byte(own, byte),
        Step::AnyByte | Step::Star => options.is_plain(byte),
        Step::OneOf(set) => set.contains(byte),
        Step::Everything => true,
        Step::Fork(_) | Step::Jump(_) => false,
    }
}

// Returns for each state the closure of the state after a byte that it consumes.
fn follow_of(alloc: Global, steps: &[Step], closures: &[u64]) -> Result<Vec<u64>, AllocError>
    requires room { length closures.now ≡ 64 }
    requires size { length steps.now < MAX_STEPS }
    requires closed { (k : ℕ) → k ≤ length steps.now
        → HasClosure steps.now k (get_or closures.now k 0) }
    ensures { IfOk result (λ follow. (length follow.items ≡ length steps.now)
        × ((k : ℕ) (s : StepValue) → slice_get steps.now k ≡ Some s
        → HasClosure steps.now (target s k) (get_or follow.items k 0))) }
{
    let mut follow = Vec::with_capacity(alloc, steps.len())?;
    for state in 0..steps.len() {
        follow.push(closures[target(steps[state], state)])?;
    }
    Ok(follow)
}

// Returns the state after a byte that the step consumes.
fn target(step: Step, state: usize) -> usize
    requires { state < MAX_STEPS }
    ensures { result ≡ target step state }
{
    match step {
        Step::Star | Step::Everything => state,
        _ => state + 1,
    }
}

// Finds for each state the states that it reaches by epsilon transitions and that consume a byte
// or are the end.
fn find_closures(steps: &[Step], closures: &mut [u64])
    requires room { length closures.old ≡ 64 }
    requires size { length steps.now < MAX_STEPS }
    requires inside { TargetsInRange steps.now }
    ensures closed { (k : ℕ) → k ≤ length steps.now
        → HasClosure steps.now k (get_or closures.new k 0) }
    ensures len { length closures.new ≡ length closures.old }
{
    closures[steps.len()] = 1u64 << steps.len();
    for state in (0..steps.len()).rev() {
        closures[state] = closure_of(steps, state, closures);
    }
}

// Returns the closure of a state from those of later ones.
fn closure_of(steps: &[Step], state: usize, closures: &[u64]) -> u64
    requires room { length closures.now ≡ 64 }
    requires size { length steps.now < MAX_STEPS }
    requires step { state < length steps.now }
    requires inside { TargetsInRange steps.now }
    requires later { (k : ℕ) → state < k → k ≤ length steps.now
        → HasClosure steps.now k (get_or closures.now k 0) }
    ensures { HasClosure steps.now state result }
{
    match steps[state] {
        Step::Star | Step::Everything => closures[state + 1] | 1u64 << state,
        Step::Fork(further) => closures[state + 1] | closures[state + 1 + further],
        Step::Jump(further) => closures[state + 1 + further],
        _ => 1u64 << state,
    }
}
