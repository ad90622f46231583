//! The right of a seat to publish.
ghost use Rattle.std.specs.Prelude.{◌≡◌, ◌≤◌, ◌<◌};

use crate::knowledge::Knowledge;
use atomic_table::Seat;
use std::marker::Model;

/// The right to publish the cells of one seat, together with what its holder has seen. It can be sent to another
/// thread. Contracts see it as `PassState`.
#[derive(Drop)]
pub struct Pass {
    pub(crate) seat: Seat<(), Knowledge>,
    pub(crate) number: u32,
    /// The number of entries that the seat has published.
    pub(crate) published: u32,
    /// The word that names the last cell that was seen.
    pub(crate) last: u64,
    /// The word that names the last cell that was found.
    pub(crate) head: u64,
}

impl Model for Pass {
    ghost use Rattle.camp_row.specs.PassState.{PassState};

    ghost Value = { PassState };

    ghost use Rattle.camp_row.specs.Inside.PassFields.{part, known, IsPass};

    ghost view = { known };

    ghost invariant = { λ pass. IsPass pass (part pass) };
}

impl Pass {
    ghost use Rattle.camp_row.specs.Chains.{entry_count};
    ghost use Rattle.camp_row.specs.PassState.{IsSound};

    /// Returns the number of its seat.
    pub fn number(&self) -> u32
        ensures number { result ≡ self.now.number }
        ensures below { result < self.now.row.seats }
        ensures sound { IsSound self.now }
    {
        self.number
    }

    /// Returns the number of entries that its seat has published.
    pub fn entry_count(&self) -> u32
        ensures entry_count { result ≡ entry_count self.now.number self.now.seen }
        ensures within { result ≤ self.now.row.per_seat }
    {
        self.published
    }
}
