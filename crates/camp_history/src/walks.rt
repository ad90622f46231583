//! Moving a seat along the chain of its row.
ghost use Rattle.std.specs.Prelude.{◌≡◌, ℕ, ◌<◌, ◌+◌, ◌++◌, [], ◌∷◌, length, All, Some, IfOk, OnOk, OnErr, MatchOption, MatchResult, MatchBool};
ghost use Rattle.camp_object.specs.declared.faults.Fault.TheVariants.{Memory};
ghost use Rattle.camp_row.specs.Chains.{entry_count};
ghost use Rattle.camp_row.specs.PassState.{Won, Lost, with_draft};

use crate::gates::Gate;
use crate::heads::Head;
use crate::marks::Mark;
use crate::seats::Seat;
use boxcar::Pushed;
use camp_object::{Decided, Fault, Object};
use camp_row::{Next, Pass, Row, Trail};
use camp_share::{Shared, SharedList};
use std::alloc::AllocError;

/// The most calls of a head's history: 64 seats with 65,536 each.
const MOST_LISTED: usize = 4_194_304;

/// Drafts the seat's next cell with the index of a call in the store, and publishes it by a compare-exchange.
fn exchange_cell<G: Gate>(row: &Row, pass: &mut Pass, index: usize, gate: &G, lost: u32) -> bool
    requires row { pass.old.row ≡ row.now }
    requires room { entry_count pass.old.number pass.old.seen < row.now.per_seat }
    ensures { MatchBool result (Won (with_draft pass.old index) pass.new) (Lost (with_draft pass.old index) pass.new) }
{
    row.draft(pass, index);
    gate.exchange(pass.number(), lost);
    row.publish(pass)
}

impl<State: Object> Seat<State> {
    ghost use Rattle.camp_object.specs.Histories.{replay, IsLegal, own};
    ghost use Rattle.camp_object.specs.Objects.{IsFirst, begun};
    ghost use Rattle.camp_row.specs.PassState.{FindsChain, IsTrail, IsNextEntry, IsSound};
    ghost use Rattle.camp_history.specs.Seats.{history_of};
    ghost use Rattle.camp_history.specs.Inside.Steps.{seen_entries, with_mark, DecidesAt, Publishes, FindsMore};

    /// Gives callers' proofs the invariant of every seat. Does nothing at run time.
    pub(crate) fn show_invariant(&self)
        ensures entries_are { seen_entries self.now ≡ self.now.known.seen }
        ensures first { IsFirst State.object self.now.first }
        ensures legal { IsLegal (begun State.object self.now.first) (history_of self.now) }
        ensures sound { IsSound self.now.known }
        ensures below { self.now.known.number < self.now.known.row.seats }
        ensures seats_below { All (λ entry. entry.0 < self.now.known.row.seats) (history_of self.now) }
    {
        let _pass_number = self.pass.number();
        let _number = self.number();
    }

    /// Finds the chain as it is now, without seeing more of it.
    pub(crate) fn find_chain(&mut self, row: &Row)
        requires { self.old.known.row ≡ row.now }
        ensures { self.new ≡ record self.old { known = record self.old.known { ahead = self.new.known.ahead } } }
    {
        row.find_chain(&mut self.pass);
    }

    /// Synchronises two seats: afterwards both have found the same chain, which begins with what each of them has seen.
    pub(crate) fn synchronise(&mut self, row: &Row, other: Seat<State>) -> Seat<State>
        requires { (self.old.known.row ≡ row.now) × (other.known.row ≡ row.now) }
        ensures self_first { self.new.first ≡ self.old.first }
        ensures self_finds { FindsChain self.old.known self.new.known }
        ensures self_marks { self.new.marks ≡ self.old.marks }
        ensures self_bases { self.new.bases ≡ self.old.bases }
        ensures other_first { result.first ≡ other.first }
        ensures other_finds { FindsChain other.known result.known }
        ensures other_marks { result.marks ≡ other.marks }
        ensures other_bases { result.bases ≡ other.bases }
        ensures one_chain { result.known.ahead ≡ self.new.known.ahead }
    {
        let Seat {
            pass,
            earlier,
            tail,
            state,
            bases,
            adopted,
        } = other;
        let pass = row.synchronise(&mut self.pass, pass);
        Seat {
            pass,
            earlier,
            tail,
            state,
            bases,
            adopted,
        }
    }

    /// Returns all marks of the seat as a reference counted list.
    fn shared_list(&self) -> Result<Shared<SharedList<Mark<State::Call>>>, AllocError>
        ensures { IfOk result (λ list. list ≡ self.now.marks) }
    {
        let len = self.earlier.len();
        let longer = self.earlier.spliced(len, len, &self.tail)?;
        Shared::new(*self.tail.allocator(), longer)
    }

    /// Compacts the seat: if `most` marks or more are outside the reference counted list, moves them into it, up to the
    /// list's greatest length.
    fn compact(&mut self, most: usize) -> Result<(), AllocError>
        ensures { self.new ≡ self.old }
    {
        if self.tail.len() < most || self.tail.len() + self.earlier.len() > MOST_LISTED {
            return Ok(());
        }
        self.earlier = self.shared_list()?;
        self.tail.clear();
        Ok(())
    }

    pub(crate) fn walk(&mut self, row: &Row) -> Result<Trail, AllocError>
        requires { self.old.known.row ≡ row.now }
        ensures same { self.new ≡ self.old }
        ensures leads { IfOk result (λ trail. IsTrail self.old.known self.old.known.seen trail) }
    {
        row.walk(*self.tail.allocator(), &mut self.pass)
    }

    pub(crate) fn next(&mut self, row: &Row, trail: &mut Trail) -> Option<Next>
        requires row { self.old.known.row ≡ row.now }
        requires leads { IsTrail self.old.known self.old.known.seen trail.old }
        ensures same { self.new ≡ self.old }
        ensures next { MatchOption result (self.old.known.seen ≡ self.old.known.ahead) (λ next. IsNextEntry self.old.known next) }
        ensures leads { MatchOption result (trail.new ≡ trail.old) (λ next. IsTrail self.old.known (self.old.known.seen ++ next.entry ∷ []) trail.new) }
        ensures shorter { MatchOption result (trail.new ≡ trail.old) (λ next. length trail.old ≡ length trail.new + 1) }
    {
        row.next(&mut self.pass, trail)
    }

    /// Decides a call, after the calls that the seat has seen.
    pub(crate) fn decide(
        &self,
        call: &State::Call,
    ) -> Result<Decided<State, State::Reply>, AllocError>
        ensures { IfOk result (DecidesAt (begun State.object self.now.first) (history_of self.now) call.now) }
    {
        // Reads a field, so that the prover sees the invariant of the seat.
        let _len = self.tail.len();
        self.state.decide(call)
    }

    /// Computes the state after the next call of the chain, whichever seat asked it.
    fn next_state(&self, call: &State::Call) -> Result<Shared<State>, AllocError>
        ensures { IfOk result (λ next. (seat : ℕ) → replay (begun State.object self.now.first) (history_of self.now ++ (seat, call.now) ∷ []) ≡ Some next) }
    {
        let Decided::Next(next) = self.decide(call)? else {
            return Err(AllocError);
        };
        Shared::new(*self.tail.allocator(), next)
    }

    /// Marks the next entry of the chain as seen, given its call and the state after it.
    fn step(
        &mut self,
        row: &Row,
        next: Next,
        call: Pushed<State::Call>,
        state: Shared<State>,
    ) -> Result<(), AllocError>
        requires row { self.old.known.row ≡ row.now }
        requires next { IsNextEntry self.old.known next }
        requires index { call.index ≡ next.entry.index }
        requires state { replay (begun State.object self.old.first) (history_of self.old ++ (next.entry.seat, call.value) ∷ []) ≡ Some state }
        ensures ok { OnOk result (self.new ≡ with_mark self.old (record { seat = next.entry.seat; call = call })) }
        ensures err { OnErr result (self.new ≡ self.old) }
    {
        self.tail.reserve(1)?;
        let mark = Mark {
            seat: next.entry.seat,
            call,
        };
        row.advance(&mut self.pass, next);
        self.tail.push_reserved(mark);
        self.state = state;
        Ok(())
    }

    /// Publishes a call. Allocates everything that has to grow before the compare-exchange.
    pub(crate) fn publish<G: Gate>(
        &mut self,
        row: &Row,
        call: &Pushed<State::Call>,
        next: Shared<State>,
        gate: &G,
        lost: u32,
    ) -> Result<bool, Fault>
        requires row { self.old.known.row ≡ row.now }
        requires room { length (own self.old.known.number (history_of self.old)) < row.now.per_seat }
        requires next { replay (begun State.object self.old.first) (history_of self.old ++ (self.old.known.number, call.now.value) ∷ []) ≡ Some next }
        ensures { MatchResult result (λ won. MatchBool won (Publishes self.old call.now self.new) (FindsMore self.old self.new)) (λ fault. (fault ≡ Memory) × (self.new ≡ self.old)) }
    {
        self.tail.reserve(1)?;
        let number = self.pass.number();
        if !exchange_cell(row, &mut self.pass, call.index(), gate, lost) {
            return Ok(false);
        }
        self.tail.push_reserved(Mark {
            seat: number,
            call: call.again(),
        });
        self.state = next;
        Ok(true)
    }
}

impl<State: Object> Head<State> {
    ghost use Rattle.camp_object.specs.Histories.{IsLegal};
    ghost use Rattle.camp_object.specs.Objects.{begun};
    ghost use Rattle.camp_row.specs.PassState.{IsNextEntry};
    ghost use Rattle.camp_history.specs.Seats.{IsSeatOf, history_of};
    ghost use Rattle.camp_history.specs.Inside.Steps.{seen_entries, SeesFurther, SeesMore};

    /// Sees the next entry: finds the published call and applies it.
    fn see(&self, seat: &mut Seat<State>, next: Next) -> Result<(), AllocError>
        requires of { IsSeatOf self.now seat.old }
        requires next { IsNextEntry seat.old.known next }
        ensures sees_further { SeesFurther self.now seat.old seat.new }
        ensures known { OnOk result (seat.new.known ≡ record seat.old.known { seen = seat.old.known.seen ++ next.entry ∷ [] }) }
    {
        let Some(call) = self.calls.witness(next.entry.index) else {
            return Err(AllocError);
        };
        let state = seat.next_state(self.calls.value(&call))?;
        seat.step(&self.row, next, call, state)
    }

    /// Sees all of the chain that was found: installs a snapshot if there is one, and sees the other entries one by
    /// one.
    fn see_all(&self, seat: &mut Seat<State>) -> Result<(), AllocError>
        requires { IsSeatOf self.now seat.old }
        ensures sees_further { SeesFurther self.now seat.old seat.new }
        ensures all { OnOk result (seat.new.known.seen ≡ seat.new.known.ahead) }
    {
        let mut trail = seat.walk(&self.row)?;
        self.install_longest(seat, &mut trail)?;
        while let Some(next) = seat.next(&self.row, &mut trail) {
            self.see(seat, next)?;
        }
        let most = self.compact_limit(seat);
        seat.compact(most)
    }

    /// Sees all of the chain that was found.
    pub(crate) fn see_chain(&self, seat: &mut Seat<State>) -> Result<(), AllocError>
        requires { IsSeatOf self.now seat.old }
        ensures sees_further { SeesFurther self.now seat.old seat.new }
        ensures whole { OnOk result (seen_entries seat.new ≡ seat.new.known.ahead) }
        ensures legal { IsLegal (begun State.object self.now.first) (history_of seat.new) }
    {
        let answer = self.see_all(seat);
        seat.show_invariant();
        answer
    }

    /// Finds the chain as it is now and sees all of it.
    pub(crate) fn catch_up(&self, seat: &mut Seat<State>) -> Result<(), AllocError>
        requires { IsSeatOf self.now seat.old }
        ensures of { IsSeatOf self.now seat.new }
        ensures more { SeesMore seat.old seat.new }
        ensures legal { IsLegal (begun State.object self.now.first) (history_of seat.new) }
    {
        seat.find_chain(&self.row);
        self.see_chain(seat)
    }
}
