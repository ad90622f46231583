//! A seat of a head as a desk.
ghost use Rattle.std.specs.Prelude.{◌≡◌};
ghost use Rattle.std.proofs.Common.{refl, ◌∙◌};
ghost use Rattle.camp_object.specs.Asking.{Ask, IsNotBusy};
ghost use Rattle.camp_object.specs.Objects.{begun};
ghost use Rattle.camp_history.specs.Seats.{IsSeatOf, history_of, caller_at, seats_of};

use crate::gates::Gate;
use crate::heads::Head;
use crate::seats::Seat;
use camp_object::{Desk, Fault, Object};
use std::sync::Wait;

/// Executes calls at a seat of a head, as a desk. The gate is notified of each call, by its index from 0.
#[derive(Drop)]
pub struct HeadDesk<'r, 'h, 's, 'g, R: Wait, State: Object, G: Gate> {
    rt: &'r R,
    head: &'h Head<State>,
    seat: &'s mut Seat<State>,
    gate: &'g G,
    calls_asked: u32,
    ghost is_seat: { IsSeatOf head.now seat.now },
}

impl<'r, 'h, 's, 'g, R: Wait, State: Object, G: Gate> HeadDesk<'r, 'h, 's, 'g, R, State, G> {
    pub fn new(
        rt: &'r R,
        head: &'h Head<State>,
        seat: &'s mut Seat<State>,
        gate: &'g G,
    ) -> HeadDesk<'r, 'h, 's, 'g, R, State, G>
        requires { IsSeatOf head.now seat.old }
        ensures head { result.head.now ≡ head.now }
        ensures lends { result.seat.ghost_name ≡ seat.entry.ghost_name }
        ensures seat { result.seat.now ≡ seat.old }
    {
        HeadDesk {
            rt,
            head,
            seat,
            gate,
            calls_asked: 0,
        }
    }

    fn ask_kept(&mut self, call: &State::Call) -> Result<State::Reply, Fault>
        ensures head { self.new.head.now ≡ self.old.head.now }
        ensures lends { self.new.seat.ghost_name ≡ self.old.seat.ghost_name }
        ensures caller { caller_at self.new.head.now self.new.seat.now ≡ caller_at self.old.head.now self.old.seat.now }
        ensures asks { Ask (begun State.object self.old.head.now.first) (caller_at self.old.head.now self.old.seat.now) (history_of self.old.seat.now) call.now result (history_of self.new.seat.now) }
        ensures one_seat { seats_of self.old.head.now ≡ 1 → IsNotBusy result }
    {
        self.seat.show_invariant();
        let kept = self.head.keep(self.rt, call)?;
        self.head.ask_at(self.seat, kept, self.gate)
    }
}

impl<'r, 'h, 's, 'g, R: Wait, State: Object, G: Gate> Desk<State>
    for HeadDesk<'r, 'h, 's, 'g, R, State, G> {
    ghost caller = { λ desk. caller_at desk.head.now desk.seat.now };

    ghost first = { λ desk. desk.head.now.first };

    ghost seen = { λ desk. history_of desk.seat.now };

    ghost is_only = { λ desk. seats_of desk.head.now ≡ 1 };

    ghost keeps = { λ desk later. (later.head.now ≡ desk.head.now) × (later.seat.ghost_name ≡ desk.seat.ghost_name) };

    fn ask(&mut self, call: &State::Call) -> Result<State::Reply, Fault> {
        let number = self.calls_asked;
        self.calls_asked = number.saturating_add(1);
        let seat = self.seat.number();
        self.gate.before(seat, number);
        let answer = self.ask_kept(call);
        self.gate.after(seat, number);
        answer
    }

    ghost reflexive = { λ desk. (refl, refl) };

    ghost transitive = { λ one two three earlier later. (later.0 ∙ earlier.0, later.1 ∙ earlier.1) };
}
