//! New repositories, the initial states of histories.
ghost use Rattle.std.specs.Prelude.{◌≡◌, IfOk};
ghost use Rattle.camp_object.specs.Books.{new_book};
ghost use Rattle.camp_object.specs.Objects.{IsFirst};
ghost use Rattle.camp_repo.specs.Objects.{repository};
ghost use Rattle.camp_repo.specs.States.{new_within};

use crate::{Book, Limits, State};
use std::alloc::{AllocError, Global};

/// Makes a new repository with these limits, as [`State::with_limits`] does, as the initial state of a history.
pub fn first_state(alloc: Global, limits: Limits) -> Result<State, AllocError>
    ensures exact { IfOk result (λ state. state ≡ new_within limits) }
    ensures first { IfOk result (IsFirst repository) }
{
    State::with_limits(alloc, limits)
}

/// Makes a book without calls, which begins with a new repository with these limits.
pub fn new_book(alloc: Global, limits: Limits) -> Result<Book<State>, AllocError>
    ensures exact { IfOk result (λ book. book ≡ new_book (new_within limits)) }
{
    let first = first_state(alloc, limits)?;
    Ok(Book::begun(alloc, first))
}
