//! Executing a call at a seat.
ghost use Rattle.std.specs.Prelude.{◌≡◌, false};
ghost use Rattle.boxcar.specs.Table.{Shows};
ghost use Rattle.camp_object.specs.Asking.{Ask, IsNotBusy};
ghost use Rattle.camp_object.specs.Objects.{begun};

use crate::gates::{Gate, NoGate};
use crate::heads::Head;
use crate::kept::{Kept, Storage};
use crate::seats::Seat;
use boxcar::Pushed;
use camp_object::{Decided, Fault, Object};
use camp_share::Shared;

impl<State: Object> Head<State> {
    ghost use Rattle.camp_history.specs.StoredCalls.{IsStoredIn};
    ghost use Rattle.camp_history.specs.Seats.{IsSeatOf, history_of, caller_at, seats_of};
    ghost use Rattle.camp_history.specs.Inside.Steps.{Attempts, HeadDecision};

    /// Executes a stored call at a seat. It becomes part of the history if it is accepted.
    pub fn ask(&self, seat: &mut Seat<State>, kept: Kept<State>) -> Result<State::Reply, Fault>
        requires seat { IsSeatOf self.now seat.old }
        requires kept { IsStoredIn self.now kept }
        ensures seat { IsSeatOf self.now seat.new }
        ensures caller { caller_at self.now seat.new ≡ caller_at self.now seat.old }
        ensures asks { Ask (begun State.object self.now.first) (caller_at self.now seat.old) (history_of seat.old) kept.call result (history_of seat.new) }
        ensures one_seat { seats_of self.now ≡ 1 → IsNotBusy result }
    {
        self.ask_at(seat, kept, &NoGate)
    }

    /// Executes a stored call like `ask`; calls the gate before each compare-exchange.
    pub fn ask_at<G: Gate>(
        &self,
        seat: &mut Seat<State>,
        kept: Kept<State>,
        gate: &G,
    ) -> Result<State::Reply, Fault>
        requires seat { IsSeatOf self.now seat.old }
        requires kept { IsStoredIn self.now kept }
        ensures seat { IsSeatOf self.now seat.new }
        ensures caller { caller_at self.now seat.new ≡ caller_at self.now seat.old }
        ensures asks { Ask (begun State.object self.now.first) (caller_at self.now seat.old) (history_of seat.old) kept.call result (history_of seat.new) }
        ensures one_seat { seats_of self.now ≡ 1 → IsNotBusy result }
    {
        // Reads a field, so that the prover sees the invariant of the head.
        let _tries = self.tries;
        let answer = match kept.storage {
            Storage::Here(call) => self.ask_question(seat, &call),
            Storage::Stored(call) => self.ask_writing(seat, &call, gate),
        };
        seat.show_invariant();
        answer
    }

    fn ask_question(
        &self,
        seat: &mut Seat<State>,
        call: &State::Call,
    ) -> Result<State::Reply, Fault>
        requires seat { IsSeatOf self.now seat.old }
        requires question { State.object.is_writing call.now ≡ false }
        ensures seat { IsSeatOf self.now seat.new }
        ensures caller { caller_at self.now seat.new ≡ caller_at self.now seat.old }
        ensures asks { Ask (begun State.object self.now.first) (caller_at self.now seat.old) (history_of seat.old) call.now result (history_of seat.new) }
    {
        self.catch_up(seat)?;
        match self.decision(seat, call) {
            Ok(Decided::Answer(reply)) => Ok(reply),
            Ok(Decided::Next(_)) => unreachable!(),
            Err(fault) => Err(fault),
        }
    }

    fn ask_writing<G: Gate>(
        &self,
        seat: &mut Seat<State>,
        call: &Pushed<State::Call>,
        gate: &G,
    ) -> Result<State::Reply, Fault>
        requires seat { IsSeatOf self.now seat.old }
        requires call { Shows self.now.store call.now }
        ensures seat { IsSeatOf self.now seat.new }
        ensures caller { caller_at self.now seat.new ≡ caller_at self.now seat.old }
        ensures asks { Ask (begun State.object self.now.first) (caller_at self.now seat.old) (history_of seat.old) call.now.value result (history_of seat.new) }
    {
        self.catch_up(seat)?;
        for lost in 0..self.tries {
            match self.attempt(seat, call, gate, lost) {
                Ok(Some(reply)) => return Ok(reply),
                Ok(None) => self.see_chain(seat)?,
                Err(fault) => return Err(fault),
            }
        }
        Err(Fault::Busy { lost: self.tries })
    }

    /// Decides the call, after the calls that the seat has seen, and publishes it if it is accepted.
    fn attempt<G: Gate>(
        &self,
        seat: &mut Seat<State>,
        call: &Pushed<State::Call>,
        gate: &G,
        lost: u32,
    ) -> Result<Option<State::Reply>, Fault>
        requires seat { IsSeatOf self.now seat.old }
        requires call { Shows self.now.store call.now }
        ensures seat { IsSeatOf self.now seat.new }
        ensures caller { caller_at self.now seat.new ≡ caller_at self.now seat.old }
        ensures attempts { Attempts (begun State.object seat.old.first) self.now seat.old call.now.value result seat.new }
    {
        seat.show_invariant();
        let state = match self.decision(seat, self.calls.value(call))? {
            Decided::Answer(reply) => return Ok(Some(reply)),
            Decided::Next(state) => state,
        };
        let made = self.snapshot_for(seat, call, &state)?;
        if !seat.publish(&self.row, call, state, gate, lost)? {
            return Ok(None);
        }
        self.store_made(seat, made);
        Ok(Some(State::done(seat.position())))
    }

    /// Decides a call, after the calls that the seat has seen. It is accepted only if the seat has a cell left.
    fn decision(
        &self,
        seat: &Seat<State>,
        call: &State::Call,
    ) -> Result<Decided<Shared<State>, State::Reply>, Fault>
        requires { IsSeatOf self.now seat.now }
        ensures { HeadDecision (begun State.object seat.now.first) self.now seat.now call.now result }
    {
        seat.show_invariant();
        let next = match seat.decide(call)? {
            Decided::Answer(reply) => return Ok(Decided::Answer(reply)),
            Decided::Next(next) => next,
        };
        if seat.accepted() == self.row.per_seat() {
            return Err(Fault::Full);
        }
        Ok(Decided::Next(Shared::new(*seat.tail.allocator(), next)?))
    }
}
