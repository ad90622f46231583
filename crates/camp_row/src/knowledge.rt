//! What a seat knows of the row, and the sizes of a row.
ghost use Rattle.std.specs.Prelude.{List};
ghost use Rattle.std.specs.Borrow.{ftrue};
ghost use Rattle.camp_row.specs.Inside.Parts.{Part};

use std::marker::Model;

/// A view of the table: what some seats know. A ghost type: it has no values at run time.
pub struct Knowledge {
    pub ghost parts: { List Part },
}

impl Model for Knowledge {
    ghost also_owns = { λ _. ftrue };
}

/// The number of seats of a row, and the number of cells of each seat.
#[derive(Clone, Copy)]
pub struct Sizes {
    pub seats: u32,
    pub per_seat: u32,
}
