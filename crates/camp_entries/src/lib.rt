//! The texts of entries of a log that repositories share.
#![tactic(auto)]

mod bodies;
mod calls;
mod entries;
mod faults;
mod heads;
mod notes;
mod seats;
mod titles;

pub use calls::{noted_text, parse_noted_call};
pub use entries::{MAX_BYTES, entry_text, parse_entry};
pub use faults::EntryFault;
pub use titles::{log_title_text, parse_log_title};
