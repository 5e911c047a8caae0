//! An iterator adapter that wraps each item in an `Ok`.
use std::marker::PhantomData;

/// Iterates over the items of `I`, each in an `Ok`.
#[derive(Drop)]
pub struct AllOk<I, E> {
    pub items: I,
    pub error: PhantomData<E>,
}

impl<I: Iterator, E> Iterator for AllOk<I, E> {
    type Item = Result<I::Item, E>;

    ghost use Rattle.jj_dag.specs.AllOk.{StepsOk};

    ghost can_next = { λ s. I.can_next s.items };

    ghost next_gives = { λ s r t. StepsOk I.next_gives s.items r t.items };

    ghost remaining = { λ s. I.remaining s.items };

    fn next(&mut self) -> Option<Result<I::Item, E>> {
        let item = self.items.next()?;
        Some(Ok(item))
    }
}
