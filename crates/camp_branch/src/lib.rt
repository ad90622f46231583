//! Branches as lists of catches: their patches, their trees, and the results of pulling patches from one into another
//! and of taking patches out.
#![tactic(auto)]

mod branches;
mod conflicts;
mod effects;
mod fast;
mod faults;
mod laws;
mod name_sets;
mod pulls;

pub use branches::Branch;
pub use faults::Blocked;
pub use laws::{
    conflicts_are_determined, names_are_of_patches, obliterates_keep_lawful,
    outcomes_are_determined, pulls_begin_with_own, pulls_keep_lawful, records_keep_lawful,
    trees_are_determined,
};
pub use name_sets::{NameSet, set_of};
