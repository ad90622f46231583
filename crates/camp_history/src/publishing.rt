//! Making snapshots, writing them to their slots, and publishing them.
ghost use Rattle.std.specs.Prelude.{◌≡◌, ◌≤◌, ℕ, ◌++◌, ◌∷◌, [], length, map, All, Some, IfOk, IfErr, IfSome, MatchOption};
ghost use Rattle.boxcar.specs.Table.{Shows};
ghost use Rattle.camp_object.specs.declared.faults.Fault.TheVariants.{Memory};
ghost use Rattle.camp_history.specs.Inside.HeadFields.{IsSlotFor};
ghost use Rattle.camp_history.specs.Snapshots.{made_of, IsMarkPrefix};

use crate::heads::{Head, slot_count};
use crate::lists::share_all;
use crate::marks::Mark;
use crate::seats::Seat;
use crate::snapshots::{Base, HeadSnapshot, ParentLink};
use boxcar::Pushed;
use camp_object::{Fault, Object};
use camp_share::{Share, Shared, SharedList};
use std::alloc::AllocError;

/// The number of marks outside the reference counted list at which a seat moves them into the list before a call at
/// whose position it makes a snapshot. A snapshot copies the marks outside the list, so this number is small.
const COMPACT_AT_SNAPSHOT: usize = 40;
/// The number of marks outside the reference counted list at which a seat moves them into the list before any other
/// call. Moving takes longer the more calls there are. A snapshot has at most 40 marks outside the list; with 64 calls
/// after it these are 104, so a seat that installs a snapshot every 64 calls never moves any.
const COMPACT_BETWEEN: usize = 104;

impl<State: Object> HeadSnapshot<State> {
    ghost use Rattle.camp_object.specs.Histories.{replay};
    ghost use Rattle.camp_object.specs.Objects.{begun};
    ghost use Rattle.camp_history.specs.Seats.{seat_and_call, most_listed};

    /// Makes a snapshot of marks and the state after them. Increments the reference counts of the list and of
    /// the state.
    pub(crate) fn made_from(
        earlier: &Shared<SharedList<Mark<State::Call>>>,
        tail: Vec<Mark<State::Call>>,
        state: &Shared<State>,
    ) -> Result<HeadSnapshot<State>, AllocError>
        requires few { length earlier.now ≤ most_listed }
        requires replays { replay (begun State.object (State.object.first state.now)) (map seat_and_call (earlier.now ++ tail.items)) ≡ Some state.now }
        ensures { IfOk result (λ snapshot. snapshot ≡ earlier.now ++ tail.items) }
    {
        let earlier = earlier.share()?;
        let state = state.share()?;
        Ok(HeadSnapshot {
            earlier,
            tail,
            state,
        })
    }
}

impl<State: Object> Seat<State> {
    ghost use Rattle.camp_object.specs.Histories.{replay};
    ghost use Rattle.camp_object.specs.Objects.{begun};
    ghost use Rattle.camp_history.specs.Seats.{history_of};

    /// Makes a snapshot of all that the seat has seen.
    pub(crate) fn snapshot(&self) -> Result<HeadSnapshot<State>, AllocError>
        ensures { IfOk result (λ snapshot. snapshot ≡ self.now.marks) }
    {
        let tail = share_all(*self.tail.allocator(), &self.tail)?;
        HeadSnapshot::made_from(&self.earlier, tail, &self.state)
    }

    /// Makes a snapshot for the position of a call that is about to be accepted.
    fn snapshot_with(
        &self,
        call: &Pushed<State::Call>,
        next: &Shared<State>,
    ) -> Result<HeadSnapshot<State>, AllocError>
        requires { replay (begun State.object self.now.first) (history_of self.now ++ (self.now.known.number, call.now.value) ∷ []) ≡ Some next.now }
        ensures { IfOk result (λ snapshot. snapshot ≡ made_of self.now call.now) }
    {
        let mut tail = share_all(*self.tail.allocator(), &self.tail)?;
        tail.push(Mark {
            seat: self.pass.number(),
            call: call.again(),
        })?;
        HeadSnapshot::made_from(&self.earlier, tail, next)
    }
}

/// Returns the index of the slot of a position, if snapshots are kept there.
fn slot_of(position: u64, every: u32) -> Option<usize>
    ensures { MatchOption result ((number : ℕ) → ¬ (IsSlotFor position every number)) (IsSlotFor position every) }
{
    let every = every as u64;
    if every == 0 || position % every != 0 {
        return None;
    }
    let count = position / every;
    if count == 0 {
        return None;
    }
    Some((count - 1) as usize)
}

impl<State: Object> Head<State> {
    ghost use Rattle.camp_object.specs.Histories.{replay};
    ghost use Rattle.camp_object.specs.Objects.{begun};
    ghost use Rattle.camp_history.specs.Seats.{IsBaseAt, IsSeatOf, history_of};
    ghost use Rattle.camp_history.specs.Snapshots.{based};

    /// Returns the number of slots for snapshots at positions. The slots in which seats publish come after these.
    pub(crate) fn position_slot_count(&self) -> usize
        ensures { result ≤ 4194304 }
    {
        slot_count(self.row.seats(), self.row.per_seat(), self.every)
    }

    /// Returns the snapshot that a seat noted last.
    fn last_noted(&self, seat: &Seat<State>) -> Option<Base<State>>
        requires { IsSeatOf self.now seat.now }
        ensures base { IfSome result (λ base. IsBaseAt self.now.slots (based base)) }
        ensures begins { IfSome result (λ base. IsMarkPrefix base.snapshot.value seat.now.marks) }
    {
        Some(seat.bases.last()?.again())
    }

    /// Writes a snapshot of all that a seat has seen to a slot, and the snapshot's parent to the slot for parents,
    /// unless the slot has a snapshot already.
    fn store_at(
        &self,
        number: usize,
        seat: &Seat<State>,
        snapshot: HeadSnapshot<State>,
    ) -> Option<Base<State>>
        requires seat { IsSeatOf self.now seat.now }
        requires is { snapshot ≡ seat.now.marks }
        ensures base { IfSome result (λ base. IsBaseAt self.now.slots (based base)) }
        ensures is { IfSome result (λ base. base.snapshot.value ≡ snapshot) }
    {
        let base = match self.slot(number)?.set_written(snapshot) {
            Ok(snapshot) => Base {
                slot: number,
                snapshot,
            },
            Err(_) => return None,
        };
        self.record_parent(&base, seat);
        Some(base)
    }

    /// Writes the parent of a slot's snapshot: the snapshot that the seat which made it had noted last.
    fn record_parent(&self, base: &Base<State>, seat: &Seat<State>)
        requires seat { IsSeatOf self.now seat.now }
        requires base { IsBaseAt self.now.slots (based base.now) }
        requires is { base.now.snapshot.value ≡ seat.now.marks }
    {
        if let Some(slot) = self.parent_slot(base.slot) {
            let _recorded = slot.set(ParentLink {
                snapshot: base.again(),
                parent: self.last_noted(seat),
            });
        }
    }

    /// Publishes a snapshot of what a seat has seen and decided, so that seats that have seen less need not decide it
    /// again. Does nothing if the seat has published one already, or if no snapshots are kept. The only error is out of
    /// memory; then nothing changes.
    pub fn publish_snapshot(&self, seat: &Seat<State>) -> Result<(), Fault>
        requires { IsSeatOf self.now seat.now }
        ensures only_memory { IfErr result (λ fault. fault ≡ Memory) }
    {
        let number = self.position_slot_count() + seat.number() as usize;
        if number >= self.snapshots.len() {
            return Ok(());
        }
        let snapshot = seat.snapshot()?;
        let _published = self.store_at(number, seat, snapshot);
        Ok(())
    }

    /// Returns the number of marks outside the reference counted list from which on a seat moves them into the list
    /// before its next call.
    pub(crate) fn compact_limit(&self, seat: &Seat<State>) -> usize {
        if slot_of(seat.position().saturating_add(1), self.every).is_none() {
            return COMPACT_BETWEEN;
        }
        COMPACT_AT_SNAPSHOT
    }

    /// Makes the snapshot for a call's position, if snapshots are kept at it.
    pub(crate) fn snapshot_for(
        &self,
        seat: &Seat<State>,
        call: &Pushed<State::Call>,
        next: &Shared<State>,
    ) -> Result<Option<HeadSnapshot<State>>, AllocError>
        requires { replay (begun State.object seat.now.first) (history_of seat.now ++ (seat.now.known.number, call.now.value) ∷ []) ≡ Some next.now }
        ensures { IfOk result (λ made. IfSome made (λ snapshot. snapshot ≡ made_of seat.now call.now)) }
    {
        if slot_of(seat.position().saturating_add(1), self.every).is_none() {
            return Ok(None);
        }
        Ok(Some(seat.snapshot_with(call, next)?))
    }

    /// Writes a snapshot that was made for the last call that a seat has seen.
    pub(crate) fn store_made(&self, seat: &mut Seat<State>, made: Option<HeadSnapshot<State>>)
        requires seat { IsSeatOf self.now seat.old }
        requires made { IfSome made (λ snapshot. snapshot ≡ seat.old.marks) }
        ensures seat { IsSeatOf self.now seat.new }
        ensures known { seat.new.known ≡ seat.old.known }
        ensures marks { seat.new.marks ≡ seat.old.marks }
    {
        let Some(snapshot) = made else {
            return;
        };
        let Some(number) = slot_of(seat.position(), self.every) else {
            return;
        };
        if let Some(base) = self.store_at(number, seat, snapshot) {
            self.note(seat, base);
        }
    }
}
