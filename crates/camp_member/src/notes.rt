//! Calls with notes, and an object that decides the calls and ignores the notes.
ghost use Rattle.std.specs.Prelude.{◌≡◌};

use camp_object::{Decided, Object};
use std::alloc::{AllocError, Global};
use std::marker::Model;

/// A call, and the bytes of the note before it; empty if it has none. Contracts see it as `WithNote`.
#[derive(Drop)]
pub struct NotedCall<Call: Drop> {
    note: Vec<u8>,
    call: Call,
}

impl<Call: Drop> Model for NotedCall<Call> {
    ghost use Rattle.camp_member.specs.Notes.{WithNote};

    ghost Value = { WithNote Call };

    ghost view = { λ noted. record { note = noted.note.items; call = noted.call } };
}

impl<Call: Drop> NotedCall<Call> {
    /// Makes a call with its note.
    pub fn new(note: Vec<u8>, call: Call) -> NotedCall<Call>
        ensures exact { result ≡ record { note = note.items; call = call } }
    {
        NotedCall { note, call }
    }

    /// Returns the note.
    pub fn note(&self) -> &[u8]
        ensures exact { result.now ≡ self.now.note }
    {
        &self.note
    }

    /// Returns the call.
    pub fn call(&self) -> &Call
        ensures exact { result.now ≡ self.now.call }
    {
        &self.call
    }
}

/// An object that is asked calls with notes. Contracts see its state.
#[derive(Drop)]
pub struct Noting<State: Object> {
    state: State,
}

impl<State: Object> Model for Noting<State> {
    ghost Value = { State };

    ghost view = { λ noting. noting.state };
}

impl<State: Object> Noting<State> {
    /// Wraps a state.
    pub fn new(state: State) -> Noting<State>
        ensures exact { result ≡ state }
    {
        Noting { state }
    }

    /// Returns the state.
    pub fn state(&self) -> &State
        ensures exact { result.now ≡ self.now }
    {
        &self.state
    }
}

impl<State: Object> Object for Noting<State> {
    type Call = NotedCall<State::Call>;

    type Reply = State::Reply;

    ghost use Rattle.camp_member.specs.Notes.{noting};
    ghost use Rattle.camp_member.specs.NoteLaws.{noting_is_lawful};

    ghost object = { noting State.object };

    fn initial(alloc: Global) -> Result<Noting<State>, AllocError> {
        Ok(Noting {
            state: State::initial(alloc)?,
        })
    }

    fn begins_alike(&self, other: &Noting<State>) -> bool {
        self.state.begins_alike(&other.state)
    }

    fn decide(
        &self,
        noted: &NotedCall<State::Call>,
    ) -> Result<Decided<Noting<State>, State::Reply>, AllocError> {
        match self.state.decide(&noted.call)? {
            Decided::Next(state) => Ok(Decided::Next(Noting { state })),
            Decided::Answer(reply) => Ok(Decided::Answer(reply)),
        }
    }

    fn done(at: u64) -> State::Reply {
        State::done(at)
    }

    fn done_at(reply: &State::Reply) -> Option<u64> {
        State::done_at(reply)
    }

    fn is_writing(noted: &NotedCall<State::Call>) -> bool {
        State::is_writing(&noted.call)
    }

    fn is_same(noted: &NotedCall<State::Call>, other: &NotedCall<State::Call>) -> bool {
        if noted.note.as_slice() != other.note.as_slice() {
            return false;
        }
        State::is_same(&noted.call, &other.call)
    }

    fn copy(noted: &NotedCall<State::Call>) -> Result<NotedCall<State::Call>, AllocError> {
        Ok(NotedCall {
            note: noted.note.clone()?,
            call: State::copy(&noted.call)?,
        })
    }

    ghost lawful = { noting_is_lawful State.object State.lawful };
}
