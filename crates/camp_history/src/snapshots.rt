//! The snapshots that seats install.
ghost use Rattle.std.specs.Prelude.{◌≡◌, length, All, IfOk};
ghost use Rattle.camp_history.specs.Snapshots.{ids};

use crate::marks::Mark;
use boxcar::slot::{OnceSlot, SlotRule, Written};
use boxcar::tag::{Names, Tag};
use camp_object::Object;
use camp_share::{Shared, SharedList};
use std::alloc::{AllocError, Global};
use std::marker::Model;

/// A snapshot: all calls up to a position of the history, and the state after them. Contracts see a mark for each call,
/// in order.
#[derive(Drop)]
pub struct HeadSnapshot<State: Object> {
    /// The calls, without the last few, as a reference counted list of marks.
    pub(crate) earlier: Shared<SharedList<Mark<State::Call>>>,
    pub(crate) tail: Vec<Mark<State::Call>>,
    pub(crate) state: Shared<State>,
}

impl<State: Object> Model for HeadSnapshot<State> {
    ghost use Rattle.std.specs.Prelude.{◌≡◌, ◌++◌, ◌≤◌, List, length, map, Some};
    ghost use Rattle.camp_object.specs.Histories.{replay};
    ghost use Rattle.camp_object.specs.Objects.{begun};
    ghost use Rattle.camp_history.specs.Seats.{seat_and_call, most_listed};
    ghost use Rattle.camp_history.specs.declared.marks.Mark.{Mark};

    ghost Value = { List (Mark State.Call) };

    ghost view = { λ snapshot. snapshot.earlier ++ snapshot.tail.items };

    ghost invariant = { λ snapshot. (length snapshot.earlier ≤ most_listed) × (replay (begun State.object (State.object.first snapshot.state)) (map seat_and_call (snapshot.earlier ++ snapshot.tail.items)) ≡ Some snapshot.state) };
}

/// A snapshot in a slot: the slot's index, and the token by which it is read there.
#[derive(Drop)]
pub struct Base<State: Object> {
    pub(crate) slot: usize,
    pub(crate) snapshot: Written<HeadSnapshot<State>>,
}

impl<State: Object> Base<State> {
    pub(crate) fn again(&self) -> Base<State>
        ensures { result ≡ self.now }
    {
        Base {
            slot: self.slot,
            snapshot: self.snapshot.again(),
        }
    }
}

/// A snapshot in a slot, and its parent: the snapshot that the same seat had made or installed before it.
#[derive(Drop)]
pub struct ParentLink<State: Object> {
    pub(crate) snapshot: Base<State>,
    pub(crate) parent: Option<Base<State>>,
}

/// The invariant of the slots for snapshots: the calls of a snapshot are in the store of the slot's head.
pub struct OfStore;

/// Stores are identified by the numbers of their buckets.
pub struct StoreIds;

impl<Call> Names<boxcar::Vec<Call>> for StoreIds {
    ghost numbers = { λ store. ids store };
}

/// A slot to which a snapshot is written at most once.
pub type Slot<State> = OnceSlot<HeadSnapshot<State>, OfStore>;

/// Makes `count` empty slots with this tag.
pub(crate) fn slots_under<X: Drop, Rule: SlotRule<X>>(
    alloc: Global,
    tag: &Tag,
    count: usize,
) -> Result<Vec<OnceSlot<X, Rule>>, AllocError>
    ensures of { IfOk result (λ slots. All (λ slot. slot.tag ≡ tag.now.numbers) slots.items) }
    ensures count { IfOk result (λ slots. length slots.items ≡ count) }
{
    let mut slots = Vec::with_capacity(alloc, count)?;
    for _ in 0..count {
        slots.push_reserved(OnceSlot::new(tag));
    }
    Ok(slots)
}
