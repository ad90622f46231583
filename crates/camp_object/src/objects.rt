//! The trait of objects: their initial state, their decisions and their replies.
ghost use Rattle.std.specs.Prelude.{◌≡◌, ◌<◌, ◌^◌, ◌-◌, ◌↔◌, IfOk, IsTrue};
ghost use Rattle.camp_object.specs.Objects.{Sequential, IsLawfulObject};
ghost use Rattle.camp_object.specs.Deciding.{Decides};

use std::alloc::{AllocError, Global};

/// The result of a call.
#[derive(Drop)]
pub enum Decided<State, Reply> {
    /// The call is accepted and leads to this state.
    Next(State),
    /// The call is not accepted, and this is the reply. Nothing changes.
    Answer(Reply),
}

/// The states of an object that one thread owns.
pub trait Object: Sized + Drop {
    type Call: Drop;

    type Reply: Drop;

    ghost object: { Sequential Self Self.Call Self.Reply };

    fn initial(alloc: Global) -> Result<Self, AllocError>
        ensures { IfOk result (λ state. state ≡ object.initial) };

    /// True if the two states have the same initial state.
    fn begins_alike(&self, other: &Self) -> bool
        ensures { IsTrue result ↔ (object.first self.now ≡ object.first other.now) };

    fn decide(&self, call: &Self::Call) -> Result<Decided<Self, Self::Reply>, AllocError>
        requires { object.count self.now < 2 ^ 64 - 1 }
        ensures { IfOk result (Decides object self.now call.now) };

    /// Returns the reply to a call that was accepted at this position of the history, counted from 1.
    fn done(at: u64) -> Self::Reply
        ensures { result ≡ object.done at };

    /// Returns the position in a reply to an accepted call; `None` for any other reply.
    fn done_at(reply: &Self::Reply) -> Option<u64>
        ensures { result ≡ object.done_at reply.now };

    fn is_writing(call: &Self::Call) -> bool
        ensures { result ≡ object.is_writing call.now };

    fn is_same(call: &Self::Call, other: &Self::Call) -> bool
        ensures { IsTrue result ↔ (call.now ≡ other.now) };

    fn copy(call: &Self::Call) -> Result<Self::Call, AllocError>
        ensures { IfOk result (λ copy. copy ≡ call.now) };

    ghost lawful: { IsLawfulObject object };
}
