//! Thompson NFA simulation: sets of live states, in bits, advanced byte by byte. Epsilon
//! transitions only lead forward, so one ascending pass over a set closes it.
ghost use Rattle.std.specs.Prelude.{◌≡◌, ◌↔◌, ◌⊎◌, ◌+◌, ◌*◌, ◌<◌, ◌≤◌, ℕ, Bool, true, false};
ghost use Rattle.std.specs.Prelude.{length, slice_get, Some, IfSome, IsTrue};
ghost use Rattle.jj_globs.specs.declared.glob.step.Step.{Step as StepValue};
ghost use Rattle.jj_globs.specs.GlobMeaning.{same_byte};
ghost use Rattle.jj_globs.specs.GlobBacktracking.{Test, one, many, any_byte};
ghost use Rattle.jj_globs.specs.GlobNfa.{HasBit, AnyLive, AnyAfter, AnyAhead, FollowsTransitions};
ghost use Rattle.jj_globs.specs.GlobNfa.{Solves, TargetsInRange, accepts_from, end_test, consumes_byte};

use crate::glob::state_set::{MAX_SUMMARY_WORDS, MAX_WORDS, StateSet};
use crate::glob::step::{Step, consume_byte};
use crate::glob::token::Options;

// Makes a state live before the remaining bytes. If its step consumes one byte, the transition is
// taken at once: on a match the next state is live after the byte, else none is.
fn activate<const WORDS: usize, const GROUPS: usize>(
    options: Options,
    steps: &[Step],
    state: usize,
    left: &[u8],
    now: &mut StateSet<WORDS, GROUPS>,
    next: &mut StateSet<WORDS, GROUPS>,
)
    requires size { length steps.now < 64 * WORDS }
    requires limit { WORDS ≤ MAX_WORDS }
    requires inside { state ≤ length steps.now }
    ensures same { FollowsTransitions options steps.now state left.now now.old next.old
        now.new next.new }
    ensures above { (j : ℕ) → HasBit now.new j
        → HasBit now.old j ⊎ ((j ≡ state) × ((s : StepValue) → slice_get steps.now state ≡ Some s
        → consumes_byte s ≡ false)) }
    ensures within { (j : ℕ) → HasBit next.new j → HasBit next.old j ⊎ (j ≤ length steps.now) }
{
    if state >= steps.len() {
        now.insert(state);
        return;
    }
    match consume_byte(options, &steps[state], left) {
        None => now.insert(state),
        Some(None) => {}
        Some(Some(_)) => next.insert(state + 1),
    }
}

// Enters both targets of a fork. If the first target is a byte, a fork at the second one is the
// next alternative of a group, to which no other state leads: it is followed at once.
fn activate_fork<const WORDS: usize, const GROUPS: usize>(
    options: Options,
    steps: &[Step],
    state: usize,
    further: usize,
    left: &[u8],
    now: &mut StateSet<WORDS, GROUPS>,
    next: &mut StateSet<WORDS, GROUPS>,
)
    requires size { length steps.now < 64 * WORDS }
    requires limit { WORDS ≤ MAX_WORDS }
    requires inside { TargetsInRange steps.now }
    requires fork { slice_get steps.now state ≡ Some (Step.Fork further) }
    ensures same { FollowsTransitions options steps.now state left.now now.old next.old
        now.new next.new }
    ensures above { (j : ℕ) → HasBit now.new j
        → HasBit now.old j ⊎ ((state < j) × (j ≤ length steps.now)) }
    ensures within { (j : ℕ) → HasBit next.new j → HasBit next.old j ⊎ (j ≤ length steps.now) }
{
    let mut first = state + 1;
    activate(options, steps, first, left, now, next);
    let mut second = first + further;
    while let Some(further) = fork_after_byte(steps, first, second) {
        first = second + 1;
        activate(options, steps, first, left, now, next);
        second = first + further;
    }
    activate(options, steps, second, left, now, next);
}

// Returns the offset of the fork at `second` if the step at `first` is a byte.
fn fork_after_byte(steps: &[Step], first: usize, second: usize) -> Option<usize>
    ensures { IfSome result (λ further. slice_get steps.now second ≡ Some (Step.Fork further)) }
{
    match (steps.get(first), steps.get(second)) {
        (Some(Step::Byte(_)), Some(Step::Fork(further))) => Some(*further),
        _ => None,
    }
}

// Follows the transitions of a live state: epsilon transitions into `now`, transitions over the
// first remaining byte into `next`.
fn follow<const WORDS: usize, const GROUPS: usize>(
    options: Options,
    steps: &[Step],
    state: usize,
    left: &[u8],
    now: &mut StateSet<WORDS, GROUPS>,
    next: &mut StateSet<WORDS, GROUPS>,
)
    requires size { length steps.now < 64 * WORDS }
    requires limit { WORDS ≤ MAX_WORDS }
    requires inside { TargetsInRange steps.now }
    requires step { state < length steps.now }
    ensures same { FollowsTransitions options steps.now state left.now now.old next.old
        now.new next.new }
    ensures above { (j : ℕ) → HasBit now.new j
        → HasBit now.old j ⊎ ((state < j) × (j ≤ length steps.now)) }
    ensures within { (j : ℕ) → HasBit next.new j → HasBit next.old j ⊎ (j ≤ length steps.now) }
{
    match steps[state] {
        Step::Star => {
            activate(options, steps, state + 1, left, now, next);
            if let Some((byte, _)) = left.split_first() {
                if options.is_plain(*byte) {
                    next.insert(state);
                }
            }
        }
        Step::Everything => {
            activate(options, steps, state + 1, left, now, next);
            if !left.is_empty() {
                next.insert(state);
            }
        }
        Step::Fork(further) => activate_fork(options, steps, state, further, left, now, next),
        Step::Jump(further) => activate(options, steps, state + 1 + further, left, now, next),
        _ => activate(options, steps, state, left, now, next),
    }
}

// Advances the simulation over the first remaining byte: empties `now` and fills `next`. Returns
// whether the end was live and accepts.
fn advance<const WORDS: usize, const GROUPS: usize>(
    options: Options,
    below: bool,
    steps: &[Step],
    left: &[u8],
    now: &mut StateSet<WORDS, GROUPS>,
    next: &mut StateSet<WORDS, GROUPS>,
) -> bool
    requires size { length steps.now < 64 * WORDS }
    requires limit { WORDS ≤ MAX_WORDS }
    requires inside { TargetsInRange steps.now }
    requires now_within { (j : ℕ) → HasBit now.old j → j ≤ length steps.now }
    requires next_within { (j : ℕ) → HasBit next.old j → j ≤ length steps.now }
    ensures done { result ≡ true → (P : ℕ → Test) → Solves options below steps.now P
        → AnyAhead P now.old next.old left.now }
    ensures same { result ≡ false → (P : ℕ → Test) → Solves options below steps.now P
        → AnyAfter P next.new left.now ↔ AnyAhead P now.old next.old left.now }
    ensures empty { result ≡ false → (j : ℕ) → HasBit now.new j → ⊥ }
    ensures next_within { (j : ℕ) → HasBit next.new j → j ≤ length steps.now }
{
    let mut from = 0;
    while let Some(state) = now.pop_first(from) {
        from = state + 1;
        if state < steps.len() {
            follow(options, steps, state, left, now, next);
        } else if end_accepts(below, left) {
            return true;
        }
    }
    false
}

// Whether the end accepts the remaining bytes: none, or with `below` those that begin with `/`.
pub(crate) fn end_accepts(below: bool, left: &[u8]) -> bool
    ensures { result ≡ end_test below left.now }
{
    match left.first() {
        None => true,
        Some(byte) => below && *byte == b'/',
    }
}

// Skips bytes that change nothing: all of them if no state is live, and those up to the next match
// of its byte if the only live state is that of any bytes before a literal byte.
fn skip_inert<'t, const WORDS: usize, const GROUPS: usize>(
    options: Options,
    steps: &[Step],
    left: &'t [u8],
    now: &mut StateSet<WORDS, GROUPS>,
) -> &'t [u8]
    requires size { length steps.now < 64 * WORDS }
    requires limit { WORDS ≤ MAX_WORDS }
    requires within { (j : ℕ) → HasBit now.old j → j ≤ length steps.now }
    ensures same { (below : Bool) (P : ℕ → Test) → Solves options below steps.now P
        → AnyLive P now.new result.now ↔ AnyLive P now.old left.now }
    ensures within { (j : ℕ) → HasBit now.new j → j ≤ length steps.now }
    ensures shorter { length result.now ≤ length left.now }
{
    let Some(state) = now.pop_first(0) else {
        return &left[left.len()..];
    };
    let is_alone = now.is_empty();
    now.insert(state);
    if is_alone {
        if let Some(own) = byte_after_any(steps, state) {
            return skip_to_byte(options, own, left);
        }
    }
    left
}

// Returns the literal byte after the state, if its step matches any bytes.
fn byte_after_any(steps: &[Step], state: usize) -> Option<u8>
    requires { state ≤ length steps.now }
    ensures { IfSome result (λ own. (slice_get steps.now state ≡ Some Step.Everything)
        × (slice_get steps.now (state + 1) ≡ Some (Step.Byte own))) }
{
    match (steps.get(state), steps.get(state + 1)) {
        (Some(Step::Everything), Some(Step::Byte(own))) => Some(*own),
        _ => None,
    }
}

// Skips to the first byte that matches `own`, or to the end.
fn skip_to_byte<'t>(options: Options, own: u8, bytes: &'t [u8]) -> &'t [u8]
    ensures same { (t : Test) → many any_byte (one (same_byte options own) t) bytes.now
        ≡ many any_byte (one (same_byte options own) t) result.now }
    ensures shorter { length result.now ≤ length bytes.now }
{
    let mut left = bytes;
    while let Some((byte, rest)) = left.split_first() {
        if options.same_byte(own, *byte) {
            break;
        }
        left = rest;
    }
    left
}

// Whether the NFA accepts the bytes, or with `below` a prefix of them that `/` follows. Both sets
// are empty at first, and swap roles after each byte.
fn run<const WORDS: usize, const GROUPS: usize>(
    options: Options,
    below: bool,
    steps: &[Step],
    bytes: &[u8],
    now: &mut StateSet<WORDS, GROUPS>,
    next: &mut StateSet<WORDS, GROUPS>,
) -> bool
    requires size { length steps.now < 64 * WORDS }
    requires limit { WORDS ≤ MAX_WORDS }
    requires inside { TargetsInRange steps.now }
    requires now_none { (j : ℕ) → HasBit now.old j → ⊥ }
    requires next_none { (j : ℕ) → HasBit next.old j → ⊥ }
    ensures { (P : ℕ → Test) → Solves options below steps.now P
        → IsTrue result ↔ IsTrue (P 0 bytes.now) }
{
    now.insert(0);
    let mut left = bytes;
    while let Some((_, rest)) = left.split_first() {
        if advance(options, below, steps, left, now, next) {
            return true;
        }
        if advance(options, below, steps, rest, next, now) {
            return true;
        }
        let Some((_, after)) = rest.split_first() else {
            return false;
        };
        left = skip_inert(options, steps, after, now);
    }
    advance(options, below, steps, left, now, next)
}

// Whether the NFA accepts the bytes, or with `below` a prefix of them that `/` follows. The two
// sets are on the stack; without inlining, a call takes only the stack of its own size.
#[inline(never)]
pub(crate) fn run_on_stack<const WORDS: usize, const GROUPS: usize>(
    options: Options,
    below: bool,
    steps: &[Step],
    bytes: &[u8],
) -> bool
    requires size { length steps.now < 64 * WORDS }
    requires room { WORDS ≤ 64 * GROUPS }
    requires limit { GROUPS ≤ MAX_SUMMARY_WORDS }
    requires inside { TargetsInRange steps.now }
    ensures { result ≡ accepts_from options below steps.now 0 bytes.now }
{
    let mut now = StateSet::<WORDS, GROUPS>::new();
    let mut next = StateSet::<WORDS, GROUPS>::new();
    run(options, below, steps, bytes, &mut now, &mut next)
}
