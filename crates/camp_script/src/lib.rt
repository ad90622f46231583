//! Scripts of calls, read from bytes; and the texts of answers.
#![tactic(auto)]

mod canonical;
mod command_lines;
mod commands;
mod faults;
mod grouping;
mod groups;
mod histories;
mod lines;
mod outputs;
mod readings;
mod records;
mod scripts;
mod single_calls;
mod spaces;
mod texts;
mod words;
mod writing;

pub use canonical::{canonical_text_reads_back, what_is_read_can_be_written};
pub use command_lines::CommandLines;
pub use faults::{CallFault, FaultKind, LineFault, ScriptFault, WriteFault, at_line};
pub use grouping::{begins_edit, begins_with};
pub use histories::{history_text, write_history};
pub use lines::{FirstWords, Words, after_word, first_words, without_end};
pub use outputs::output_text;
pub use scripts::{Script, read_script};
pub use single_calls::parse_call;
pub use texts::{
    answer_text, append_lines, append_names, append_pairs, reply_text, write_reply, write_text,
};
pub use words::{count_of, name_at, names_at, no_words, one_word, path_at, two_words};
pub use writing::{accepted_text, call_text, changes_text, kept_text, section_text};

/// The most sections of a script: the opening, and one for each client.
pub const MAX_SECTIONS: usize = 64;

/// The most writing commands of one section of a script.
pub const MAX_WRITES: usize = 65_536;
