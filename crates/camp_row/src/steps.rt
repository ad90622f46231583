//! The invariant of the table, and its six kinds of atomic steps; there are no others.
ghost use Rattle.camp_row.specs.Inside.Parts.{all_fresh};
ghost use Rattle.camp_row.specs.Inside.Rule.{IsRuled};
ghost use Rattle.std.specs.Prelude.{◌≡◌};
ghost use Rattle.camp_row.specs.Inside.Steps.{LoadedHead, Walked, Advanced, StoredParent, StoredIndex, Tried, first_apart, without_first, joined_views, spent};

use crate::knowledge::{Knowledge, Sizes};
use atomic_table::{Join, Play, Split, TableRule};

pub struct RowRule;

impl TableRule<(), Knowledge, Sizes> for RowRule {
    ghost holds = { λ sizes table. IsRuled sizes.seats sizes.per_seat table.words table.views };

    ghost first = { λ sizes. record { parts = all_fresh sizes.seats sizes.per_seat } };
}

/// A load of the head.
pub struct LoadHead;

impl Play<(), Knowledge> for LoadHead {
    ghost then = { λ step old found new. (new.1 ≡ old.1) × LoadedHead found old.0.parts new.0.parts };
}

/// A load of a parent word, or of an index word, that adds no entry to what the seat has seen.
pub struct Walk;

impl Play<(), Knowledge> for Walk {
    ghost then = { λ step old found new. (new.1 ≡ old.1) × Walked step.word found old.0.parts new.0.parts };
}

/// A load of an index word that adds one entry to what the seat has seen.
pub struct Advance;

impl Play<(), Knowledge> for Advance {
    ghost then = { λ step old found new. (new.1 ≡ old.1) × Advanced found old.0.parts new.0.parts };
}

/// A store to the parent word of the seat's next cell.
pub struct DraftParent;

impl Play<(), Knowledge> for DraftParent {
    ghost then = { λ step old stored new. (new.1 ≡ old.1) × StoredParent stored old.0.parts new.0.parts };
}

/// A store to the index word of the seat's next cell.
pub struct DraftIndex;

impl Play<(), Knowledge> for DraftIndex {
    ghost then = { λ step old stored new. (new.1 ≡ old.1) × StoredIndex stored old.0.parts new.0.parts };
}

/// A compare-exchange of the head.
pub struct Publish;

impl Play<(), Knowledge> for Publish {
    ghost then = { λ step old found new. (new.1 ≡ old.1) × Tried step.first found old.0.parts new.0.parts };
}

/// A split of a view of several seats: one seat gets a view of its own.
pub struct SplitSeat;

impl Split<Knowledge> for SplitSeat {
    ghost left = { without_first };

    ghost right = { first_apart };
}

/// A join of two views.
pub struct JoinSeats;

impl Join<Knowledge> for JoinSeats {
    ghost both = { joined_views };

    ghost spent = { spent };
}
