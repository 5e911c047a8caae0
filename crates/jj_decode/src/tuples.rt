//! Tuples of one to four elements, in order.
ghost use Rattle.std.specs.Prelude.{◌≡◌, ◌++◌, List, IfOk, IfErr};
ghost use Rattle.jj_decode.specs.Contents.{AreContents, BothContents};
ghost use Rattle.jj_decode.specs.ContentsProofs.{contents_on, both_contents};
ghost use Rattle.jj_decode.specs.Decoding.{IsContentAt, IsMalformedAt};
ghost use Rattle.jj_decode.specs.Errors.{BothErrors};

use crate::error::DecodeError;
use crate::read_content::{ReadContent, read_both};
use std::alloc::Global;

impl<T: ReadContent> ReadContent for (T,) {
    ghost is_content = { T.is_content };

    ghost errors = { T.errors };

    ghost contents = { contents_on (λ p. p.0) T.contents };

    fn read(alloc: Global, bytes: &[u8], start: usize) -> Result<(Self, usize), DecodeError> {
        let (value, end) = T::read(alloc, bytes, start)?;
        Ok(((value,), end))
    }
}

impl<T: ReadContent, U: ReadContent> ReadContent for (T, U) {
    ghost is_content = { BothContents T.is_content U.is_content };

    ghost errors = { BothErrors T.is_value T.content T.errors U.errors };

    ghost contents = { both_contents T.contents U.contents };

    fn read(alloc: Global, bytes: &[u8], start: usize) -> Result<(Self, usize), DecodeError> {
        read_both(alloc, bytes, start)
    }
}

impl<A: ReadContent, B: ReadContent, C: ReadContent> ReadContent for (A, B, C) {
    ghost is_content = { BothContents (BothContents A.is_content B.is_content) C.is_content };

    ghost errors = { ⟦<((A, B), C) as ReadContent>⟧.errors };

    ghost contents = { contents_on (λ p. ((p.0, p.1), p.2))
        (both_contents (both_contents A.contents B.contents) C.contents) };

    fn read(alloc: Global, bytes: &[u8], start: usize) -> Result<(Self, usize), DecodeError> {
        let ((prefix, third), end) = read_both::<(A, B), C>(alloc, bytes, start)?;
        let (first, second) = prefix;
        Ok(((first, second, third), end))
    }
}

impl<A: ReadContent, B: ReadContent, C: ReadContent, D: ReadContent> ReadContent for (A, B, C, D) {
    ghost is_content = { BothContents
        (BothContents (BothContents A.is_content B.is_content) C.is_content) D.is_content };

    ghost errors = { ⟦<((A, B, C), D) as ReadContent>⟧.errors };

    ghost contents = { contents_on (λ p. (((p.0, p.1), p.2), p.3)) (both_contents
        (both_contents (both_contents A.contents B.contents) C.contents) D.contents) };

    fn read(alloc: Global, bytes: &[u8], start: usize) -> Result<(Self, usize), DecodeError> {
        let ((prefix, fourth), end) = read_both::<(A, B, C), D>(alloc, bytes, start)?;
        let (first, second, third) = prefix;
        Ok(((first, second, third, fourth), end))
    }
}
