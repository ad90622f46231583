//! The seat: where one caller asks.
ghost use Rattle.std.specs.Prelude.{◌≡◌, ◌<◌, ◌≤◌, length, All};

use crate::marks::Mark;
use crate::snapshots::Base;
use camp_object::Object;
use camp_row::Pass;
use camp_share::{Shared, SharedList};
use std::marker::Model;

/// Where one caller asks a head. It can be sent to another thread. Contracts see it as `SeatState`.
#[derive(Drop)]
pub struct Seat<State: Object> {
    pub(crate) pass: Pass,
    /// The calls that it has seen, without the last few, as a reference counted list of marks.
    pub(crate) earlier: Shared<SharedList<Mark<State::Call>>>,
    pub(crate) tail: Vec<Mark<State::Call>>,
    pub(crate) state: Shared<State>,
    /// The last few snapshots that it made or installed.
    pub(crate) bases: Vec<Base<State>>,
    pub(crate) adopted: u32,
}

impl<State: Object> Model for Seat<State> {
    ghost use Rattle.camp_history.specs.Seats.{SeatState};

    ghost Value = { SeatState State State.Call };

    ghost use Rattle.camp_history.specs.Inside.SeatFields.{seat_state, IsSeat};

    ghost view = { seat_state State.object };

    ghost invariant = { IsSeat State.object };
}

impl<State: Object> Seat<State> {
    ghost use Rattle.camp_object.specs.Histories.{IsLegal, own};
    ghost use Rattle.camp_object.specs.Objects.{IsFirst, begun};
    ghost use Rattle.camp_history.specs.Seats.{history_of, most_calls_of, seat_number, seat_count};

    /// Returns its number.
    pub fn number(&self) -> u32
        ensures number { result ≡ seat_number self.now }
        ensures below { result < seat_count self.now }
        ensures first { IsFirst State.object self.now.first }
        ensures legal { IsLegal (begun State.object self.now.first) (history_of self.now) }
        ensures seats_below { All (λ entry. entry.0 < seat_count self.now) (history_of self.now) }
    {
        self.pass.number()
    }

    /// Returns the number of calls that it has seen.
    pub fn position(&self) -> u64
        ensures exact { result ≡ length (history_of self.now) }
    {
        (self.earlier.len() + self.tail.len()) as u64
    }

    /// Returns the number of its own calls that were accepted.
    pub fn accepted(&self) -> u32
        ensures accepted { result ≡ length (own (seat_number self.now) (history_of self.now)) }
        ensures within { result ≤ most_calls_of self.now }
    {
        self.pass.entry_count()
    }

    /// Counts the snapshots that it installed from slots, without those from seats with which it was synchronised;
    /// saturates at 4,294,967,295. Only tested.
    pub fn adopted(&self) -> u32 {
        self.adopted
    }
}
