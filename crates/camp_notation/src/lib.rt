//! A notation for patches: the text of a labelled primitive, of a list, of a tree, of a contexted patch, of a set and of
//! a catch, rendered and parsed.
#![tactic(auto)]

mod catch_readings;
mod catches;
mod context_readings;
mod contexts;
mod cursors;
mod faults;
mod lists;
mod patches;
mod readings;
mod rows;
mod trees;
mod words;

pub use catch_readings::{read_catch, read_catches};
pub use catches::{catch_text, catches_text};
pub use context_readings::{read_contexted, read_set};
pub use contexts::{contexted_text, set_text};
pub use faults::NotationError;
pub use lists::list_text;
pub use patches::{label_text, named_text};
pub use readings::{read_label, read_lines, read_list, read_named, read_tree, read_word};
pub use trees::tree_text;
pub use words::{lines_text, word_text};
