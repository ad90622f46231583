//! Contexted patches, each a patch with the list of primitives that leads to it, and sets of them.
#![tactic(auto)]

mod adding;
mod conflicts;
mod contexted;
mod fast;
mod joins;
mod keys;
mod laws;
mod sets;

pub use conflicts::{conflict, merge_after_common};
pub use contexted::Contexted;
pub use fast::conflict_after_adding;
pub use joins::join;
pub use laws::{
    adding_and_passing_keep_valid, adding_has_result, adding_the_empty_list_changes_nothing,
    conflict_is_symmetric, list_adds_in_any_order, reach_gives_room_to_add,
    results_in_context_are_determined,
};
pub use sets::CtxSet;
