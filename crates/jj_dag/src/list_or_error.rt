//! An iterator adapter for lists of neighbors that may fail as a whole.
ghost use Rattle.jj_dag.specs.ListOrError.{IteratesOver};

/// Iterates over the items of a list, each in an `Ok`, or yields one error.
#[derive(Drop)]
pub enum ListOrError<I, E> {
    List(I),
    /// The error, until it was yielded.
    Error(Option<E>),
}

impl<I: Iterator, E: Drop> Iterator for ListOrError<I, E> {
    type Item = Result<I::Item, E>;

    ghost use Rattle.jj_dag.specs.ListOrError.{CanList, StepsListed, listed_left};

    ghost can_next = { CanList I.can_next };

    ghost next_gives = { StepsListed I.next_gives };

    ghost remaining = { listed_left I.remaining };

    fn next(&mut self) -> Option<Result<I::Item, E>> {
        match self {
            ListOrError::List(items) => {
                let item = items.next()?;
                Some(Ok(item))
            }
            ListOrError::Error(error) => {
                let error = error.take()?;
                Some(Err(error))
            }
        }
    }
}

/// Returns the iterator over a result's list, or over its error.
pub fn as_list_or_error<L: IntoIterator, E: Drop>(
    outcome: Result<L, E>,
) -> ListOrError<L::IntoIter, E>
    ensures { IteratesOver L.into_iter_gives outcome result }
{
    match outcome {
        Ok(list) => ListOrError::List(list.into_iter()),
        Err(error) => ListOrError::Error(Some(error)),
    }
}
