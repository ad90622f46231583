//! The cells between what a pass has seen and what it has found.
ghost use Rattle.std.specs.Prelude.{◌≡◌, length};

use crate::entries::Entry;
use std::marker::Model;

/// The cells of the chain that a pass last found and has not seen. Contracts see the numbers of these cells, from the
/// newest to the oldest.
#[derive(Drop)]
pub struct Trail {
    pub(crate) cells: Vec<usize>,
}

impl Model for Trail {
    ghost use Rattle.std.specs.Prelude.{List, ℕ};

    ghost Value = { List ℕ };

    ghost view = { λ trail. trail.cells.items };
}

impl Trail {
    /// Returns the number of entries on the trail.
    pub fn len(&self) -> usize
        ensures exact { result ≡ length self.now }
    {
        self.cells.len()
    }
}

/// The next entry, and its cell.
#[derive(Clone, Copy)]
pub struct Next {
    pub entry: Entry,
    pub(crate) cell: usize,
}
