//! Synchronising two seats.
ghost use Rattle.std.specs.Prelude.{◌≡◌, ◌≤◌, length, OnOk};
ghost use Rattle.camp_object.specs.Histories.{IsBeginning};

use crate::heads::Head;
use crate::seats::Seat;
use camp_object::{Fault, Object};
use std::alloc::AllocError;

impl<State: Object> Head<State> {
    ghost use Rattle.camp_history.specs.Synchronising.{Synchronises};
    ghost use Rattle.camp_history.specs.Seats.{IsSeatOf, history_of};
    ghost use Rattle.camp_history.specs.Inside.Steps.{seen_entries, SeesFurther};
    ghost use Rattle.camp_history.specs.Snapshots.{HaveCommon};

    /// Synchronises two seats: the first then has seen all that the second has seen.
    pub fn meet(
        &self,
        a: Seat<State>,
        b: Seat<State>,
    ) -> (Seat<State>, Seat<State>, Result<(), Fault>)
        requires { IsSeatOf self.now a × IsSeatOf self.now b }
        ensures seats { IsSeatOf self.now result.0 × IsSeatOf self.now result.1 }
        ensures synchronises { Synchronises a b result.0 result.1 result.2 }
    {
        let mut a = a;
        a.show_invariant();
        b.show_invariant();
        let b = a.synchronise(&self.row, b);
        let answer = self.see_chain_of(&mut a, &b);
        self.compare(&a, &b);
        match answer {
            Ok(()) => (a, b, Ok(())),
            Err(_) => (a, b, Err(Fault::Memory)),
        }
    }

    /// Sees all of the chain that the seat found. Installs what the other seat has decided.
    fn see_chain_of(&self, seat: &mut Seat<State>, other: &Seat<State>) -> Result<(), AllocError>
        requires of { IsSeatOf self.now seat.old }
        requires other { IsSeatOf self.now other.now }
        ensures sees_further { SeesFurther self.now seat.old seat.new }
        ensures whole { OnOk result (seen_entries seat.new ≡ seat.new.known.ahead) }
    {
        self.install_from(seat, other)?;
        self.see_chain(seat)
    }

    /// Returns a number of first calls in which two seats agree: the length of a snapshot that both noted.
    pub(crate) fn common_len_of_seats(&self, a: &Seat<State>, b: &Seat<State>) -> usize
        requires seats { IsSeatOf self.now a.now × IsSeatOf self.now b.now }
        ensures { HaveCommon a.now.marks b.now.marks result }
    {
        for base in &b.bases {
            if let Some(len) = self.noted_len(a, base) {
                return len;
            }
        }
        0
    }

    /// Gives the prover the fact that two seats that have found the same chain have the same calls, as far as both have
    /// seen it. Has no effect at run time: it calls `agrees`, whose clause says that two marks of the same index of the
    /// store stand for the same call.
    fn compare(&self, a: &Seat<State>, b: &Seat<State>)
        requires seats { IsSeatOf self.now a.now × IsSeatOf self.now b.now }
        requires chain { a.now.known.ahead ≡ b.now.known.ahead }
        ensures a_shorter { length a.now.marks ≤ length b.now.marks → IsBeginning (history_of a.now) (history_of b.now) }
        ensures b_shorter { length b.now.marks ≤ length a.now.marks → IsBeginning (history_of b.now) (history_of a.now) }
    {
        a.show_invariant();
        b.show_invariant();
        let from = self.common_len_of_seats(a, b);
        let mut marks = a.marks_from(from);
        let mut others = b.marks_from(from);
        while let Some(mark) = marks.next() {
            let Some(other) = others.next() else {
                return;
            };
            self.calls.agrees(&mark.call, &other.call);
        }
    }
}
