//! The repository whose accepted calls and notes are persisted in a file.
#![tactic(auto)]

mod entries;
mod faults;
mod inspections;
mod laws;
mod openings;
mod replays;
mod repositories;
mod texts;
mod titles;

pub use camp_notes::{NoteLog, PlacedNote};
pub use camp_repo::{Book, Limits, State};
pub use camp_store::Disk;
pub use faults::PersistenceFault;
pub use inspections::{Inspection, inspect};
pub use laws::stores_are_opened;
pub use repositories::DurableRepository;

/// The most bytes of a file without a title that counts as a new store. No title has as many, whatever its limits.
const MAX_UNTITLED_LEN: usize = 80;
