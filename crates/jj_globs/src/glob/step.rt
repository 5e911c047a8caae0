//! Instructions of the NFA.
ghost use Rattle.std.specs.Prelude.{◌≡◌, ◌+◌, ◌∷◌, ℕ, true, false, None, Some, IfSome};
ghost use Rattle.jj_globs.specs.GlobNfa.{step_at, consumes_byte};
ghost use Rattle.jj_globs.specs.GlobBacktracking.{Test};

use crate::glob::byte_set::ByteSet;
use crate::glob::token::Options;

/// An instruction of the NFA: it consumes a byte, or leads to later states. A state is the index of
/// a step, and the number of steps is the end, which accepts.
#[derive(Clone, Copy, Drop)]
pub enum Step {
    /// Consumes this byte.
    Byte(u8),
    /// Consumes a byte that `?` matches.
    AnyByte,
    /// Consumes a byte of the set.
    OneOf(ByteSet),
    /// Consumes any number of bytes that `?` matches.
    Star,
    /// Consumes any bytes.
    Everything,
    /// Leads to the next state and to the one at this offset after it.
    Fork(usize),
    /// Leads to the state at this offset after the next one.
    Jump(usize),
}

impl Step {
    // Whether the step consumes exactly one byte.
    pub(crate) fn consumes_byte(&self) -> bool
        ensures { result ≡ consumes_byte self.now }
    {
        match self {
            Step::Byte(_) | Step::AnyByte | Step::OneOf(_) => true,
            _ => false,
        }
    }
}

// Consumes the first byte by a step. Returns the bytes after it, `Some(None)` if the step does not
// match it, and `None` if the step is none that consumes exactly one byte.
pub(crate) fn consume_byte<'t>(
    options: Options,
    step: &Step,
    text: &'t [u8],
) -> Option<Option<&'t [u8]>>
    ensures none { result ≡ None → consumes_byte step.now ≡ false }
    ensures some { IfSome result (λ taken. consumes_byte step.now ≡ true) }
    ensures same { IfSome result (λ taken. (P : ℕ → Test) (state : ℕ)
        → step_at options P step.now state text.now
        ≡ elim taken [ None ↦ false | Some rest ↦ P (state + 1) rest.now ]) }
    ensures rest { IfSome result (λ taken. IfSome taken (λ rest. (byte : ℕ)
        × (text.now ≡ byte ∷ rest.now))) }
{
    let Some((first, rest)) = text.split_first() else {
        return match step {
            Step::Byte(_) | Step::AnyByte | Step::OneOf(_) => Some(None),
            _ => None,
        };
    };
    let is_taken = match step {
        Step::Byte(own) => options.same_byte(*own, *first),
        Step::AnyByte => options.is_plain(*first),
        Step::OneOf(set) => set.contains(*first),
        _ => return None,
    };
    Some(if is_taken { Some(rest) } else { None })
}
