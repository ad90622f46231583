//! The head: one growing history that seats share.
ghost use Rattle.std.specs.Prelude.{◌≡◌, ◌<◌, ◌≤◌, ◌↔◌, [], map, All, IfOk, IfErr, IsOk, IsTrue};
ghost use Rattle.camp_history.specs.Inside.HeadFields.{seat_slots, position_slots};
ghost use Rattle.camp_history.specs.Opening.{AreHeadSizes};
ghost use Rattle.camp_history.specs.Seats.{unseen};
ghost use Rattle.camp_object.specs.Objects.{IsFirst};
ghost use Rattle.camp_object.specs.declared.faults.Fault.TheVariants.{Memory};
ghost use Rattle.camp_row.specs.PassState.{most_cells, most_seats};

use crate::faults::HeadFault;
use crate::kept::{Kept, Storage};
use crate::parents::{ParentSlot, SlotIds};
use crate::seats::Seat;
use crate::snapshots::{Slot, StoreIds, slots_under};
use boxcar::tag::Tag;
use camp_object::{Fault, Object};
use camp_row::{Pass, Row};
use camp_share::{Share, Shared, SharedList};
use std::alloc::{AllocError, Global};
use std::marker::Model;
use std::sync::Wait;

/// One growing history that many seats share. Contracts see it as `HeadId`.
#[derive(Drop)]
pub struct Head<State: Object> {
    pub(crate) row: Row,
    pub(crate) calls: boxcar::Vec<State::Call>,
    /// The initial state of the history.
    pub(crate) first: Shared<State>,
    pub(crate) tries: u32,
    pub(crate) every: u32,
    /// The slots for snapshots: one for each position at which a snapshot is kept, and then one for each seat, to which
    /// the seat publishes a snapshot.
    pub(crate) snapshots: Vec<Slot<State>>,
    /// The parents of these snapshots.
    pub(crate) parents: Vec<ParentSlot<State>>,
}

impl<State: Object> Model for Head<State> {
    ghost use Rattle.camp_history.specs.Seats.{HeadId};

    ghost Value = { HeadId State };

    ghost use Rattle.camp_history.specs.Inside.HeadFields.{head_id, IsHead};

    ghost view = { head_id };

    ghost invariant = { IsHead };
}

fn are_head_sizes(seats: u32, per_seat: u32, tries: u32, every: u32) -> bool
    ensures { IsTrue result ↔ AreHeadSizes seats per_seat tries every }
{
    (1..=64).contains(&seats)
        && (1..=65_536).contains(&per_seat)
        && (1..=1_000).contains(&tries)
        && every <= 4_096
}

/// Returns the number of positions up to `seats * per_seat` that are multiples of `every`; 0 if `every` is 0.
pub(crate) fn slot_count(seats: u32, per_seat: u32, every: u32) -> usize
    requires { (seats ≤ most_seats) × (per_seat ≤ most_cells) }
    ensures exact { result ≡ position_slots seats per_seat every }
    ensures few { result ≤ 4194304 }
{
    let most = seats as usize * per_seat as usize;
    most.checked_div(every as usize).unwrap_or(0)
}

/// Returns the number of slots for published snapshots: one for each seat, or 0 if no snapshots are kept.
fn seat_slot_count(seats: u32, every: u32) -> usize
    ensures { result ≡ seat_slots seats every }
{
    if every == 0 { 0 } else { seats as usize }
}

/// Makes the seats of a new head, one for each pass. They have seen nothing; their histories begin with this state.
fn seats_of<State: Object>(
    alloc: Global,
    first: &Shared<State>,
    passes: Vec<Pass>,
) -> Result<Vec<Seat<State>>, AllocError>
    requires first { IsFirst State.object first.now }
    requires seen { All (λ known. known.seen ≡ []) passes.items }
    ensures { IfOk result (λ seats. seats.items ≡ map (unseen first.now) passes.items) }
{
    let mut seats = Vec::with_capacity(alloc, passes.len())?;
    for pass in passes {
        seats.push_reserved(seat_of(alloc, first, pass)?);
    }
    Ok(seats)
}

fn seat_of<State: Object>(
    alloc: Global,
    first: &Shared<State>,
    pass: Pass,
) -> Result<Seat<State>, AllocError>
    requires first { IsFirst State.object first.now }
    requires seen { pass.seen ≡ [] }
    ensures { IfOk result (λ seat. seat ≡ unseen first.now pass) }
{
    Ok(Seat {
        pass,
        earlier: Shared::new(alloc, SharedList::new(alloc))?,
        tail: Vec::new(alloc),
        state: first.share()?,
        bases: Vec::new(alloc),
        adopted: 0,
    })
}

impl<State: Object> Head<State> {
    ghost use Rattle.camp_history.specs.StoredCalls.{IsStoredIn};
    ghost use Rattle.camp_history.specs.Opening.{Opens};
    ghost use Rattle.camp_history.specs.Seats.{IsSeatOf, history_of};

    /// Makes a head whose history begins with the initial state, and its seats.
    pub fn new(
        alloc: Global,
        seats: u32,
        per_seat: u32,
        tries: u32,
        every: u32,
    ) -> Result<(Head<State>, Vec<Seat<State>>), HeadFault>
        ensures opens { Opens State.object.initial (λ made. made.0) (λ made. made.1.items) seats per_seat tries every result }
    {
        if !are_head_sizes(seats, per_seat, tries, every) {
            return Err(HeadFault::BadSize);
        }
        Head::begun(alloc, State::initial(alloc)?, seats, per_seat, tries, every)
    }

    /// Makes a head whose history begins with a state, and its seats, numbered from 0. `seats` is 1 to 64; `per_seat`,
    /// the most accepted calls of each seat, 1 to 65,536; `tries`, the lost compare-exchanges after which a call that
    /// writes gives up, 1 to 1,000; `every` is 0 to 4,096: a snapshot is kept at each position that is a multiple of
    /// it, and none for 0. Snapshots change no reply; which ones exist is only tested.
    pub fn begun(
        alloc: Global,
        first: State,
        seats: u32,
        per_seat: u32,
        tries: u32,
        every: u32,
    ) -> Result<(Head<State>, Vec<Seat<State>>), HeadFault>
        requires { IsFirst State.object first }
        ensures opens { Opens first (λ made. made.0) (λ made. made.1.items) seats per_seat tries every result }
    {
        if !are_head_sizes(seats, per_seat, tries, every) {
            return Err(HeadFault::BadSize);
        }
        let (row, passes) = Row::new(alloc, seats, per_seat)?;
        let first = Shared::new(alloc, first)?;
        let all = seats_of(alloc, &first, passes)?;
        let head = Head::over(alloc, row, first, tries, every)?;
        Ok((head, all))
    }

    /// Makes a head over a row, without calls.
    fn over(
        alloc: Global,
        row: Row,
        first: Shared<State>,
        tries: u32,
        every: u32,
    ) -> Result<Head<State>, AllocError>
        requires { 0 < tries }
        ensures { IfOk result (λ head. (head.row ≡ row) × (head.tries ≡ tries) × (head.first ≡ first)) }
    {
        let calls = boxcar::Vec::new(alloc)?;
        let count = slot_count(row.seats(), row.per_seat(), every)
            + seat_slot_count(row.seats(), every);
        let store = Tag::of::<boxcar::Vec<State::Call>, StoreIds>(&calls);
        let snapshots = slots_under(alloc, &store, count)?;
        let slots = Tag::of::<Vec<Slot<State>>, SlotIds>(&snapshots);
        let parents = slots_under(alloc, &slots, count)?;
        Ok(Head {
            row,
            calls,
            first,
            tries,
            every,
            snapshots,
            parents,
        })
    }

    /// Stores a copy of a call, which can then be executed at any seat. The only error is out of memory.
    pub fn keep(&self, rt: &impl Wait, call: &State::Call) -> Result<Kept<State>, Fault>
        ensures kept { IfOk result (λ kept. IsStoredIn self.now kept) }
        ensures call { IfOk result (λ kept. kept.call ≡ call.now) }
        ensures only_memory { IfErr result (λ fault. fault ≡ Memory) }
    {
        let copy = State::copy(call)?;
        if !State::is_writing(&copy) {
            return Ok(Kept {
                storage: Storage::Here(copy),
            });
        }
        match self.calls.push_shown(rt, copy) {
            Ok(token) => Ok(Kept {
                storage: Storage::Stored(token),
            }),
            Err(_) => Err(Fault::Memory),
        }
    }

    /// Returns the calls that a seat has seen, each with the number of its seat. The only error is out of memory.
    pub fn history(&self, seat: &Seat<State>) -> Result<Vec<(u32, State::Call)>, Fault>
        requires { IsSeatOf self.now seat.now }
        ensures history { IfOk result (λ history. history.items ≡ history_of seat.now) }
        ensures empty { history_of seat.now ≡ [] → IsOk result }
        ensures only_memory { IfErr result (λ fault. fault ≡ Memory) }
    {
        let mut history = Vec::with_capacity(*seat.tail.allocator(), seat.position() as usize)?;
        let mut marks = seat.marks_from(0);
        while let Some(mark) = marks.next() {
            let call = State::copy(self.calls.value(&mark.call))?;
            history.push_reserved((mark.seat, call));
        }
        Ok(history)
    }
}
