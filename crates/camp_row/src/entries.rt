//! Published cells.
/// A published cell as readers see it.
#[derive(Clone, Copy, PartialEq, Eq, Debug)]
pub struct Entry {
    /// The seat that published it.
    pub seat: u32,
    /// The number that the seat gave the cell, such as the index of a call in a store.
    pub index: usize,
}
