//! A member of a log: it executes calls over the log, without IO of its own.
ghost use Rattle.std.specs.Prelude.{◌≡◌, ◌≤◌, ◌↔◌, ◌++◌, [], ◌∷◌, false, length, OnOk, OnErr, IfOk, IsTrue, MatchOption};
ghost use Rattle.camp_object.specs.Histories.{IsLegal, replay};
ghost use Rattle.camp_object.specs.Objects.{IsFirst, begun};

use crate::{NoReply, Reader, Request};
use camp_object::Object;
use std::alloc::{AllocError, Global};
use std::marker::Model;

/// A process that shares a log with others: it says what to read and append, and is given the results. Contracts see it
/// as `Membership`.
#[derive(Drop)]
pub struct Member<State: Object> {
    pub(crate) seat: u128,
    pub(crate) reader: Reader<State>,
    pub(crate) is_stopped: bool,
    /// The requests without an answer, in order; the first `sent` of them are in the entry under way.
    pub(crate) waiting: Vec<Request<State::Call>>,
    pub(crate) sent: usize,
    pub(crate) answers: Vec<(u64, Result<State::Reply, NoReply>)>,
}

impl<State: Object> Model for Member<State> {
    ghost use Rattle.std.specs.Prelude.{◌<◌, ◌≤◌, length, take};
    ghost use Rattle.camp_object.specs.Objects.{begun};
    ghost use Rattle.camp_member.specs.Members.{Membership};
    ghost use Rattle.camp_member.specs.Wanting.{FitsEntry};

    ghost Value = { Membership State State.Call State.Reply };

    ghost view = { λ m. record {
      seat = m.seat;
      reading = m.reader;
      is_stopped = m.is_stopped;
      waiting = m.waiting.items;
      sent = m.sent;
      answers = m.answers.items;
    } };

    ghost invariant = { λ m. (m.sent ≤ length m.waiting.items)
        × (0 < m.sent → FitsEntry State.object m.reader.history (take m.sent m.waiting.items)) };
}

impl<State: Object> Member<State> {
    ghost use Rattle.camp_member.specs.Members.{new_member};

    /// Makes a member at a seat that no other process has; its history begins with this initial state. If two processes
    /// had the same seat, each would take an entry of the other for its own if it had the same number and calls.
    pub fn new(alloc: Global, first: State, seat: u128) -> Member<State>
        requires { IsFirst State.object first }
        ensures exact { result ≡ new_member first seat }
    {
        Member {
            seat,
            reader: Reader::new(alloc, first),
            is_stopped: false,
            waiting: Vec::new(alloc),
            sent: 0,
            answers: Vec::new(alloc),
        }
    }

    /// Returns what it has read of the log: its history and the state after it.
    pub fn reader(&self) -> &Reader<State>
        ensures exact { result.now ≡ self.now.reading }
    {
        &self.reader
    }

    /// True if it has found a foreign entry, or one of another process with its seat. It then answers from what it has
    /// read, and appends nothing.
    pub fn is_stopped(&self) -> bool
        ensures exact { result ≡ self.now.is_stopped }
    {
        self.is_stopped
    }

    /// Returns the requests that wait for an answer, in order, beginning with those of the entry under way.
    pub fn waiting(&self) -> &[Request<State::Call>]
        ensures exact { result.now ≡ self.now.waiting }
        ensures within { self.now.sent ≤ length self.now.waiting }
    {
        &self.waiting
    }

    /// Returns the answers that nobody took, in the order of the requests, each with the number of its request.
    pub fn answers(&self) -> &[(u64, Result<State::Reply, NoReply>)]
        ensures exact { result.now ≡ self.now.answers }
    {
        &self.answers
    }

    /// Changes its seat to another one, which nobody else has, unless a request waits. True if it did.
    pub fn take_seat(&mut self, seat: u128) -> bool
        ensures takes { IsTrue result → self.new ≡ record self.old { seat = seat } }
        ensures stays { result ≡ false → self.new ≡ self.old }
        ensures exact { IsTrue result ↔ (self.old.waiting ≡ []) }
    {
        if !self.waiting.is_empty() {
            return false;
        }
        self.seat = seat;
        true
    }

    /// Queues a request after those that wait already.
    pub fn ask(&mut self, request: Request<State::Call>) -> Result<(), AllocError>
        ensures waits { OnOk result (self.new ≡ record self.old { waiting = self.old.waiting ++ request ∷ [] }) }
        ensures stays { OnErr result (self.new ≡ self.old) }
    {
        self.waiting.push(request)?;
        Ok(())
    }

    /// Removes the next answer, in the order of the requests, and returns it with the number of its request.
    pub fn answer(&mut self) -> Option<(u64, Result<State::Reply, NoReply>)>
        ensures exact { MatchOption result
            ((self.old.answers ≡ []) × (self.new ≡ self.old))
            (λ answer. self.old ≡ record self.new { answers = answer ∷ self.new.answers }) }
    {
        if self.answers.is_empty() {
            return None;
        }
        Some(self.answers.remove(0))
    }
}
