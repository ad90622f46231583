//! The book: a state with the history that led to it.
ghost use Rattle.std.specs.Prelude.{◌≡◌, Some, IfOk};
ghost use Rattle.camp_object.specs.Books.{AsksBook, new_book, replay_book};
ghost use Rattle.camp_object.specs.Histories.{IsLegal};
ghost use Rattle.camp_object.specs.Objects.{IsFirst, begun};

use crate::{Decided, Fault, Object};
use std::alloc::{AllocError, Global};
use std::marker::Model;

/// A state and the calls that led to it. Contracts see the initial state of the history, and these calls, each with its
/// seat.
#[derive(Drop)]
pub struct Book<State: Object> {
    state: State,
    history: Vec<(u32, State::Call)>,
}

impl<State: Object> Model for Book<State> {
    ghost use Rattle.std.specs.Prelude.{◌≡◌, Some};
    ghost use Rattle.camp_object.specs.Books.{Booked};
    ghost use Rattle.camp_object.specs.Histories.{replay};
    ghost use Rattle.camp_object.specs.Objects.{IsFirst, begun};

    ghost Value = { Booked State State.Call };

    ghost view = { λ book. record { first = State.object.first book.state; calls = book.history.items } };

    ghost invariant = { λ book. IsFirst State.object (State.object.first book.state)
        × (replay (begun State.object (State.object.first book.state)) book.history.items ≡ Some book.state) };
}

impl<State: Object> Book<State> {
    /// Makes a book without calls, with the default initial state.
    pub fn new(alloc: Global) -> Result<Book<State>, AllocError>
        ensures exact { IfOk result (λ book. book ≡ new_book State.object.initial) }
    {
        let first = State::initial(alloc)?;
        Ok(Book::begun(alloc, first))
    }

    /// Makes a book without calls, with this initial state.
    pub fn begun(alloc: Global, first: State) -> Book<State>
        requires { IsFirst State.object first }
        ensures exact { result ≡ new_book first }
    {
        Book {
            state: first,
            history: Vec::new(alloc),
        }
    }

    /// Returns the state after all calls of the book.
    pub fn state(&self) -> &State
        ensures exact { replay_book State.object self.now ≡ Some result.now }
        ensures began { State.object.first result.now ≡ self.now.first }
    {
        &self.state
    }

    /// Returns the accepted calls in order, each with its seat.
    pub fn history(&self) -> &[(u32, State::Call)]
        ensures value { result.now ≡ self.now.calls }
        ensures legal { IsLegal (begun State.object self.now.first) self.now.calls }
        ensures first { IsFirst State.object self.now.first }
    {
        &self.history
    }

    /// Executes a call for a seat. An accepted call is appended to the book with the seat. The only error is out of
    /// memory.
    pub fn ask(&mut self, seat: u32, call: &State::Call) -> Result<State::Reply, Fault>
        ensures asks { AsksBook State.object seat self.old call.now result self.new }
    {
        self.history.reserve(1)?;
        match self.state.decide(call)? {
            Decided::Answer(reply) => Ok(reply),
            Decided::Next(state) => {
                let copy = State::copy(call)?;
                self.history.push_reserved((seat, copy));
                self.state = state;
                Ok(State::done(self.history.len() as u64))
            }
        }
    }
}
