//! The language of `git fast-import`: its items, and its quoted paths.
#![tactic(auto)]

mod commands;
mod items;
mod parsing;
mod path_texts;
mod quoting;
mod reading;
mod rendering;
mod unquoting;
mod wanted;
mod words;
mod writing;

pub use commands::{Blob, Command, Commit, FileChange, ReadError, Reset, StreamFault, Tag};
pub use items::{BareItem, StreamFaultKind, StreamItem, TextItem};
pub use parsing::{line_of, read_command, read_stream};
pub use path_texts::read_path;
pub use quoting::{quote_path, quoted_paths_come_back};
pub use reading::read_item;
pub use rendering::{append_command, commands_come_back, streams_come_back};
pub use unquoting::{EscapeState, Unquoted, unquote_path};
pub use writing::{append_item, items_come_back};
