//! The initial state of a history.
ghost use Rattle.std.specs.Prelude.{◌≡◌, ◌↔◌, IfOk, IsTrue};
ghost use Rattle.camp_object.specs.Objects.{IsFirst};

use camp_object::{Book, Object};
use std::alloc::{AllocError, Global};

/// Returns the default initial state of a history.
pub(crate) fn initial<State: Object>(alloc: Global) -> Result<State, AllocError>
    ensures exact { IfOk result (λ state. state ≡ State.object.initial) }
    ensures first { IfOk result (IsFirst State.object) }
{
    State::initial(alloc)
}

/// True if the history of a book begins with a state.
pub(crate) fn has_first<State: Object>(book: &Book<State>, first: &State) -> bool
    requires { IsFirst State.object first.now }
    ensures exact { IsTrue result ↔ (book.now.first ≡ first.now) }
{
    book.state().begins_alike(first)
}
