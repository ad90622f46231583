//! The invariant of the slots for parents: what holds of a snapshot and its parent, whichever thread reads them.
ghost use Rattle.std.specs.Prelude.{All};
ghost use Rattle.camp_history.specs.Snapshots.{ids_of, IsIn, IsMadeFrom};

use crate::snapshots::{HeadSnapshot, OfStore, ParentLink, Slot};
use boxcar::slot::{OnceSlot, SlotRule};
use boxcar::tag::Names;
use camp_object::Object;

impl<State: Object> SlotRule<HeadSnapshot<State>> for OfStore {
    ghost holds = { λ tag snapshot. All (λ mark. IsIn tag mark.call) snapshot };
}

/// The invariant of the slots for parents: a parent is a snapshot in a slot of the same head.
pub struct OfSlots;

impl<State: Object> SlotRule<ParentLink<State>> for OfSlots {
    ghost holds = { λ tag link. IsMadeFrom tag link };
}

/// Slots are identified by their indexes.
pub struct SlotIds;

impl<State: Object> Names<Vec<Slot<State>>> for SlotIds {
    ghost numbers = { λ slots. ids_of slots.items };
}

/// A slot to which the parent of a snapshot is written at most once.
pub type ParentSlot<State> = OnceSlot<ParentLink<State>, OfSlots>;
