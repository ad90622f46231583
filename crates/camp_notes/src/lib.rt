//! Notes: texts by the names of patches, which say who recorded a patch, when and why.
#![tactic(auto)]

mod faults;
mod laws;
mod logs;
mod notes;
mod parsing;
mod rendering;
mod titles;

pub use faults::{NoteFault, NoteFaultKind};
pub use laws::{maps_come_back, notes_make_their_map, texts_tell_notes};
pub use logs::{NoteLog, PlacedNote};
pub use notes::{Note, NoteText, Notes};
pub use parsing::{parse_notes, split_notes};
pub use rendering::{note_text, notes_text};

/// The most bytes of a note.
pub const MAX_NOTE_LENGTH: usize = 65_536;
