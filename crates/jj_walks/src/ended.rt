//! Fused iterators: the first `None` or error is the end.
ghost use Rattle.std.specs.Prelude.{◌≡◌, false};
ghost use Rattle.jj_walks.specs.GroupedSteps.{as_item, is_last};

/// Returns the item of the result of a step, and sets the flag if the iterator ends with it.
pub fn item_or_end<T, E>(step: Result<Option<T>, E>, has_ended: &mut bool) -> Option<Result<T, E>>
    requires { has_ended.old ≡ false }
    ensures item { result ≡ as_item step }
    ensures end { has_ended.new ≡ is_last result }
{
    match step {
        Ok(Some(item)) => Some(Ok(item)),
        Ok(None) => {
            *has_ended = true;
            None
        }
        Err(error) => {
            *has_ended = true;
            Some(Err(error))
        }
    }
}
