//! The kinds of entries of a table, and the number of their lines.
ghost use Rattle.std.specs.Prelude.{◌≤◌, ◌<◌, length};

use crate::words::{meaning_of, split_word};
use bstr::ByteSlice;

/// What an entry does with a book, a head or a run.
#[derive(Clone, Copy)]
pub(crate) enum Play {
    Adopted,
    Book,
    Command,
    Ends,
    Publish,
    Head,
    History,
    Meet,
    NoMerge,
    Run,
    Seen,
}

/// The first words of entries that use a book, a head or a run. A command begins with the number of a seat instead.
const PLAYS: &[(&str, Play)] = &[
    ("adopted", Play::Adopted),
    ("book", Play::Book),
    ("ends", Play::Ends),
    ("publish", Play::Publish),
    ("head", Play::Head),
    ("history", Play::History),
    ("meet", Play::Meet),
    ("no-merge", Play::NoMerge),
    ("repeat", Play::Command),
    ("run", Play::Run),
    ("seen", Play::Seen),
];

/// Parses the first word of a line that does not belong to a table of values: that of a command, a run, and so on.
pub(crate) fn play_of(line: &[u8]) -> Option<Play> {
    if matches!(line.first(), Some(b'0'..=b'9')) {
        return Some(Play::Command);
    }
    let (word, _) = split_word(line);
    meaning_of(PLAYS, word)
}

/// Counts the lines of the first entry of a table. A run or a conversation ends before an empty line, and a command
/// with a body at the end of that; any other entry is one line.
pub(crate) fn entry_len(lines: &[&[u8]]) -> usize
    requires { 0 < length lines.now }
    ensures some { 0 < result }
    ensures within { result ≤ length lines.now }
{
    let first = lines[0];
    match play_of(first) {
        Some(Play::Run | Play::Ends) => len_before(lines, b""),
        Some(Play::Command) if first.ends_with(b" group") => len_up_to(lines, b"done"),
        Some(Play::Command) if first.contains_str(b" edit ") => len_up_to(lines, b"end"),
        _ => 1,
    }
}

fn len_before(lines: &[&[u8]], end: &[u8]) -> usize
    requires { 0 < length lines.now }
    ensures some { 0 < result }
    ensures within { result ≤ length lines.now }
{
    for (at, line) in lines.iter().enumerate() {
        if at > 0 && *line == end {
            return at;
        }
    }
    lines.len()
}

fn len_up_to(lines: &[&[u8]], end: &[u8]) -> usize
    requires { 0 < length lines.now }
    ensures some { 0 < result }
    ensures within { result ≤ length lines.now }
{
    for (at, line) in lines.iter().enumerate() {
        if *line == end {
            return at + 1;
        }
    }
    lines.len()
}
