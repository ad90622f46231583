//! Recovery: the lines of a command that a fault in its first line has cut off.
ghost use Rattle.std.specs.Prelude.{◌≡◌};
ghost use Rattle.camp_script.specs.Lines.{words_of};
ghost use Rattle.camp_talk.specs.Diagnostics.{begins_command, cut_off, is_consequence, is_edit, is_form, is_group, is_no_command, is_record, is_short, may_be, may_record, recovery_after, recovery_after_branch, recovery_in_words, recovery_of_line};

use crate::parsing::is_word;
use camp_script::{FaultKind, Words, after_word, begins_edit, begins_with};
use camp_why::{begins_signed, call_part};

/// The kind of lines that may still come of a command after a fault in its first line.
#[derive(Clone, Copy)]
pub(crate) enum Recovery {
    Nothing,
    /// A line with a sign, and then those of a body.
    Signed,
    /// Lines of a body, up to `end`.
    Body,
    /// Lines of a group, up to `done`.
    Group,
    /// Lines of a body, and then of its group.
    GroupBody,
}

impl Recovery {
    /// True if a line may be one of these.
    pub(crate) fn may_be(self, line: &[u8]) -> bool
        ensures { result ≡ may_be self line.now }
    {
        match self {
            Recovery::Nothing => false,
            Recovery::Signed => begins_signed(line),
            _ => true,
        }
    }

    /// Returns the kind of lines that may come after this one.
    pub(crate) fn after(self, line: &[u8]) -> Recovery
        ensures { result ≡ recovery_after self line.now }
    {
        match self {
            Recovery::Nothing => Recovery::Nothing,
            Recovery::Signed => Recovery::Body,
            Recovery::Body if is_word(line, b"end") => Recovery::Nothing,
            Recovery::GroupBody if is_word(line, b"end") => Recovery::Group,
            Recovery::Group if begins_edit(line) => Recovery::GroupBody,
            Recovery::Group if begins_with(line, b"done") => Recovery::Nothing,
            same => same,
        }
    }
}

/// True if a fault is the consequence of one before it: its line begins no command, and may be one of a body
/// or a group that was cut off.
pub(crate) fn is_consequence(recovery: Recovery, kind: FaultKind, line: &[u8]) -> bool
    ensures { result ≡ is_consequence recovery kind line.now }
{
    recovery.may_be(line) && is_no_command(kind, line)
}

/// Returns the lines that may still come of a command, given the number of its faulty line, the kind of the fault, and
/// that line. Only a fault in the first line cuts lines off.
pub(crate) fn cut_off(number: u64, kind: FaultKind, line: &[u8]) -> Recovery
    ensures { result ≡ cut_off number kind line.now }
{
    if number == 1 && may_record(kind, line) {
        return recovery_of_line(line);
    }
    Recovery::Nothing
}

// True if a line with a fault of this kind begins no command.
fn is_no_command(kind: FaultKind, line: &[u8]) -> bool
    ensures { result ≡ is_no_command kind line.now }
{
    kind == FaultKind::UnknownCommand && !begins_command(line)
}

// True if a line with a fault of this kind is a record, or may be one whose first word is misspelt.
fn may_record(kind: FaultKind, line: &[u8]) -> bool
    ensures { result ≡ may_record kind line.now }
{
    is_record(line) || is_no_command(kind, line)
}

// Returns the kind of lines that follow a line with a fault, if it is a record, or may be a misspelt one.
fn recovery_of_line(line: &[u8]) -> Recovery
    ensures { result ≡ recovery_of_line line.now }
{
    recovery_after_branch(after_word(after_word(call_part(line))))
}

// True if the first word of a line is `client`, or one whose command may be unknown only because of the words after it:
// `record`, `help` or `whatif`.
fn begins_command(line: &[u8]) -> bool
    ensures { result ≡ begins_command line.now }
{
    is_record(line)
        || begins_with(line, b"help")
        || begins_with(line, b"whatif")
        || begins_with(line, b"client")
}

// True if a line is a record, perhaps after `whatif`.
fn is_record(line: &[u8]) -> bool
    ensures { result ≡ is_record line.now }
{
    match Words::new(call_part(line)).next() {
        Some(word) => is_form(word, b"record", b"Record", b"RECORD"),
        None => false,
    }
}

// Returns the kind of lines that follow a record, by the rest of its line after the branch.
fn recovery_after_branch(line: &[u8]) -> Recovery
    ensures { result ≡ recovery_after_branch line.now }
{
    recovery_in_words(after_word(line), recovery_in_words(line, Recovery::Signed))
}

// Returns the kind of lines that follow, by the first word of the line that decides it; if none does, the given kind.
fn recovery_in_words(line: &[u8], other: Recovery) -> Recovery
    ensures { result ≡ recovery_in_words (words_of line.now) other }
{
    for word in Words::new(line) {
        if is_short(word) {
            return Recovery::Nothing;
        }
        if is_group(word) {
            return Recovery::Group;
        }
        if is_edit(word) {
            return Recovery::Body;
        }
    }
    other
}

// True if a word of a record says that no lines follow.
fn is_short(word: &[u8]) -> bool
    ensures { result ≡ is_short word.now }
{
    is_form(word, b"add", b"Add", b"ADD") || is_form(word, b"remove", b"Remove", b"REMOVE")
}

// True if a word of a record says that the lines of a group follow.
fn is_group(word: &[u8]) -> bool
    ensures { result ≡ is_group word.now }
{
    is_form(word, b"group", b"Group", b"GROUP") || is_form(word, b"group\r", b"Group\r", b"GROUP\r")
}

// True if a word of a record says that the lines of a body follow.
fn is_edit(word: &[u8]) -> bool
    ensures { result ≡ is_edit word.now }
{
    is_form(word, b"edit", b"Edit", b"EDIT")
}

// True if a word is one of three: in small letters, with a capital letter at its start, or in capitals.
fn is_form(word: &[u8], small: &[u8], capital: &[u8], capitals: &[u8]) -> bool
    ensures { result ≡ is_form small.now capital.now capitals.now word.now }
{
    is_word(word, small) || is_word(word, capital) || is_word(word, capitals)
}
