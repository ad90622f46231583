//! The words by which lines are grouped into edits and groups. A line with a fault is grouped like any other.
ghost use Rattle.std.specs.Prelude.{◌≡◌};
ghost use Rattle.camp_script.specs.CommandLines.{wanted_after};
ghost use Rattle.camp_script.specs.Lines.{words_of};
ghost use Rattle.camp_script.specs.Pieces.{begins_edit, begins_with};

use crate::lines::Words;

/// True if the first word of a line is this one.
pub fn begins_with(line: &[u8], word: &[u8]) -> bool
    ensures exact { result ≡ begins_with word.now (words_of line.now) }
{
    match Words::new(line).next() {
        Some(first) => first == word,
        None => false,
    }
}

/// True if a line begins an edit, whose body follows, by its first words alone.
pub fn begins_edit(line: &[u8]) -> bool
    ensures exact { result ≡ begins_edit (words_of line.now) }
{
    let mut words = Words::new(line);
    let Some(first) = words.next() else {
        return false;
    };
    if first == b"edit".as_slice() {
        return true;
    }
    if first != b"record".as_slice() {
        return false;
    }
    let Some(_branch) = words.next() else {
        return false;
    };
    let Some(_name) = words.next() else {
        return false;
    };
    match words.next() {
        Some(change) => change == b"edit".as_slice(),
        None => false,
    }
}

/// The kind of lines that may follow in a command.
#[derive(Clone, Copy, Debug)]
pub(crate) enum Expected {
    Nothing,
    /// Lines of a body, up to `end`.
    Body,
    /// Lines of a group, up to `done`.
    Group,
    /// Lines of a body, and then of its group.
    GroupBody,
}

impl Expected {
    /// Returns the kind of lines that may follow after one more line.
    pub(crate) fn after(self, line: &[u8]) -> Expected
        ensures { result ≡ wanted_after self line.now }
    {
        match self {
            Expected::Nothing => Expected::Nothing,
            Expected::Body if line == b"end".as_slice() => Expected::Nothing,
            Expected::GroupBody if line == b"end".as_slice() => Expected::Group,
            Expected::Group if begins_edit(line) => Expected::GroupBody,
            Expected::Group if begins_with(line, b"done") => Expected::Nothing,
            same => same,
        }
    }
}
