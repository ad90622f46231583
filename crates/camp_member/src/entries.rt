//! Entries of a log.
ghost use Rattle.std.specs.Prelude.{◌≡◌, ◌↔◌, IsTrue};

use std::marker::Model;

/// The most calls of an entry.
pub const MAX_CALLS: usize = 256;

/// An entry of a log: calls that a seat appended at once, under a tag, which is the seat and a number.
#[derive(Drop)]
pub struct Entry<Call: Drop> {
    seat: u128,
    number: u64,
    calls: Vec<Call>,
}

impl<Call: Drop> Model for Entry<Call> {
    ghost use Rattle.camp_member.specs.Entries.{Tagged};

    ghost Value = { Tagged Call };

    ghost view = { λ entry. record { seat = entry.seat; number = entry.number; calls = entry.calls.items } };
}

impl<Call: Drop> Entry<Call> {
    ghost use Rattle.camp_member.specs.Entries.{IsEntry};

    /// Makes an entry of a seat, with its number among the entries of the seat.
    pub fn new(seat: u128, number: u64, calls: Vec<Call>) -> Entry<Call>
        ensures exact { result ≡ record { seat = seat; number = number; calls = calls.items } }
    {
        Entry {
            seat,
            number,
            calls,
        }
    }

    /// Returns the seat that appended it.
    pub fn seat(&self) -> u128
        ensures exact { result ≡ self.now.seat }
    {
        self.seat
    }

    /// Returns its number among the entries of its seat, counted from 1.
    pub fn number(&self) -> u64
        ensures exact { result ≡ self.now.number }
    {
        self.number
    }

    /// Returns its calls, in order.
    pub fn calls(&self) -> &[Call]
        ensures exact { result.now ≡ self.now.calls }
    {
        &self.calls
    }

    /// True if a member may append it: its number is at least 1, and it has 1 to 256 calls.
    pub fn is_entry(&self) -> bool
        ensures exact { IsTrue result ↔ IsEntry self.now }
    {
        self.number > 0 && !self.calls.is_empty() && self.calls.len() <= MAX_CALLS
    }
}
