//! Predicate of a caller as a set of byte strings.
ghost use Rattle.std.specs.Prelude.{◌≡◌, Bool};

/// A boxed test of byte strings.
pub type ByteTest = Box<dyn Fn(&[u8]) -> bool>;

/// A test that may be called with every byte string, and always returns the same value for it.
#[derive(Drop)]
pub struct BytePredicate {
    test: ByteTest,
    ghost callable: { ByteTest.IsAlwaysCallable test },
    ghost deterministic: { (x y : _) (r s : Bool) → x.now ≡ y.now → ByteTest.post test x r
        → ByteTest.post test y s → r ≡ s },
}

impl BytePredicate {
    ghost use Rattle.std.specs.Prelude.{◌≡◌, ◌↔◌, ℕ, Bool, true, List};
    ghost use Rattle.jj_strings.specs.Predicates.{Accepts};

    /// Wraps a test.
    pub fn new(test: ByteTest) -> BytePredicate
        requires callable { ByteTest.IsAlwaysCallable test }
        requires deterministic { (x y : _) (r s : Bool) → x.now ≡ y.now → ByteTest.post test x r
            → ByteTest.post test y s → r ≡ s }
        ensures { (bytes : List ℕ) → Accepts result bytes
            ↔ ((x : _) × (x.now ≡ bytes) × ByteTest.post test x true) }
    {
        BytePredicate { test }
    }

    pub(crate) fn accepts_from(&self, bytes: &[u8]) -> bool
        ensures { ByteTest.post self.now.test bytes.entry result }
    {
        (self.test)(bytes)
    }
}
