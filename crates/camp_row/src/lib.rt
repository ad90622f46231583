//! A row of atomic words in which many seats build one chain of cells.
#![tactic(auto)]

mod entries;
mod knowledge;
mod passes;
mod rows;
mod steps;
mod trails;

pub use entries::Entry;
pub use passes::Pass;
pub use rows::Row;
pub use trails::{Next, Trail};
