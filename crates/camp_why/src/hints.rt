//! Hints on a line that has a fault.
ghost use Rattle.std.specs.Prelude.{◌≡◌, []};
ghost use Rattle.std.specs.List.{list_any};
ghost use Rattle.camp_base.specs.Signs.{is_capital_letter};
ghost use Rattle.camp_script.specs.Lines.{words_of};
ghost use Rattle.camp_why.specs.Hints.{begins_blank, begins_end, begins_inner, begins_quoted, begins_signed, begins_zero, call_part, call_word, command_word, count_hint, edit_hint, ends_in_return, first_word, form_hint, has_zero_in_front, hint, is_capital_end, is_overlong, is_end, is_other_than_zero, is_quote, is_return, is_returned_end, is_strange, is_zero, last_words, line_hint, misnamed, number_hint, number_word, path_hint, path_word, unsigned_hint, word_hint};

use camp_base::Name;
use camp_script::{FaultKind, Words, after_word, begins_edit, begins_with};

/// The length of the replacement for a line that is too long.
const CUT_BYTES: usize = 4098;

/// A hint on a line that has a fault.
#[derive(Clone, Copy, PartialEq, Eq, Debug)]
pub enum Hint {
    /// No hint.
    Nothing,
    /// The line begins with `+` or `-`, but is not in a body.
    OfBody,
    /// The line is `client`, which is allowed only in scripts.
    OfScript,
    /// The line is a record whose fourth word is none of add, remove, edit and group.
    NoChange,
    /// The first word is `whatif`, and no call follows.
    NoCall,
    /// The first word is `help`, and no command follows.
    NoTopic,
    /// The first word is allowed only in a body or a group, but the line is in neither.
    OfInner,
    /// The line was too long when it was read, and was replaced.
    TooLong,
    /// The line or a word of it ends with a carriage return, or a word is only that.
    CarriageReturn,
    /// A word has a byte that is not a printable character of ASCII.
    Strange,
    /// A word has a quotation mark.
    Quotes,
    /// A word, or the `end` of a body, has a capital letter.
    Capitals,
    /// A number is 0.
    Zero,
    /// The number of a refusal has a leading zero, so there is no such refusal.
    ZeroInFront,
    /// The line is empty.
    Empty,
    /// The line begins with a blank.
    Blank,
    /// The line is `end`, but the body has no line.
    NoLine,
    /// The line is `end`, but the sum of LINE and the number of lines of the body is too large.
    TooFar,
    /// The first word is `end`, but others follow.
    MoreThanEnd,
    /// The line begins with `-`, but comes after a new line.
    OldAfterNew,
    /// The line has no sign.
    NoSign,
}

/// Returns the hint on a line with a fault of this kind.
pub fn find_hint(kind: FaultKind, line: &[u8]) -> Hint
    ensures exact { result ≡ hint kind line.now }
{
    match kind {
        FaultKind::UnknownCommand => line_hint(line, command_word(line), form_hint(line)),
        FaultKind::BadGroup => line_hint(line, first_word(line), Hint::Nothing),
        FaultKind::BadName => word_hint(misnamed(line), Hint::Nothing),
        FaultKind::WrongNumberOfWords => count_hint(line),
        FaultKind::BadPath => path_hint(path_word(line)),
        FaultKind::BadNumber => number_hint(line),
        FaultKind::BadLine if is_overlong(line) => Hint::TooLong,
        FaultKind::BadEdit => edit_hint(line),
        _ => Hint::Nothing,
    }
}

// Returns the hint on a line with an unknown command, given the word in its place; if no hint applies, the other hint.
fn line_hint(line: &[u8], word: &[u8], other: Hint) -> Hint
    ensures { result ≡ line_hint line.now word.now other }
{
    if is_overlong(line) {
        return Hint::TooLong;
    }
    if begins_signed(first_word(line)) {
        return Hint::OfBody;
    }
    word_hint(word, other)
}

// Returns the hint on the first word of a line that is not a command.
fn form_hint(line: &[u8]) -> Hint
    ensures { result ≡ form_hint line.now }
{
    if begins_with(line, b"client") {
        return Hint::OfScript;
    }
    if begins_with(call_part(line), b"record") {
        return Hint::NoChange;
    }
    if begins_with(line, b"whatif") {
        return Hint::NoCall;
    }
    if begins_with(line, b"help") {
        return Hint::NoTopic;
    }
    if begins_inner(line) {
        return Hint::OfInner;
    }
    Hint::Nothing
}

fn count_hint(line: &[u8]) -> Hint
    ensures { result ≡ count_hint (words_of line.now) }
{
    if has_return(line) {
        return Hint::CarriageReturn;
    }
    if has_quoted(line) {
        return Hint::Quotes;
    }
    Hint::Nothing
}

fn path_hint(path: &[u8]) -> Hint
    ensures { result ≡ path_hint path.now }
{
    if ends_in_return(path) {
        return Hint::CarriageReturn;
    }
    if has_strange(path) {
        return Hint::Strange;
    }
    Hint::Nothing
}

fn number_hint(line: &[u8]) -> Hint
    ensures { result ≡ number_hint line.now }
{
    if is_end(line) {
        return Hint::TooFar;
    }
    let number = number_word(line);
    if ends_in_return(number) {
        return Hint::CarriageReturn;
    }
    if is_zero(number) {
        return Hint::Zero;
    }
    if has_zero_in_front(line) {
        return Hint::ZeroInFront;
    }
    Hint::Nothing
}

// True if the last word of a line is the number of a refusal with a leading zero.
fn has_zero_in_front(line: &[u8]) -> bool
    ensures { result ≡ has_zero_in_front line.now }
{
    begins_with(line, b"help") && begins_zero(number_word(line))
}

// Returns the hint on a line of a body.
fn edit_hint(line: &[u8]) -> Hint
    ensures { result ≡ edit_hint line.now }
{
    if is_overlong(line) {
        return Hint::TooLong;
    }
    if line.is_empty() {
        return Hint::Empty;
    }
    if begins_blank(line) {
        return Hint::Blank;
    }
    if is_end(line) {
        return Hint::NoLine;
    }
    if begins_end(line) {
        return Hint::MoreThanEnd;
    }
    if line.starts_with(b"-") {
        return Hint::OldAfterNew;
    }
    if line.starts_with(b"+") {
        return Hint::Nothing;
    }
    unsigned_hint(line)
}

// Returns the hint on a line of a body without a sign.
fn unsigned_hint(line: &[u8]) -> Hint
    ensures { result ≡ unsigned_hint line.now }
{
    if is_returned_end(line) {
        return Hint::CarriageReturn;
    }
    if is_capital_end(line) {
        return Hint::Capitals;
    }
    Hint::NoSign
}

// Returns the hint on a word that is not a command, or not a name; if no hint applies, the other hint.
fn word_hint(word: &[u8], other: Hint) -> Hint
    ensures { result ≡ word_hint word.now other }
{
    if ends_in_return(word) {
        return Hint::CarriageReturn;
    }
    if has_strange(word) {
        return Hint::Strange;
    }
    if has_quotes(word) {
        return Hint::Quotes;
    }
    if has_capitals(word) {
        return Hint::Capitals;
    }
    other
}

// Returns the word that should be a command: after `help` the second, else the one that names the call's command.
fn command_word(line: &[u8]) -> &[u8]
    ensures { result.now ≡ command_word line.now }
{
    if begins_with(line, b"help") {
        return first_word(after_word(line));
    }
    call_word(call_part(line))
}

// Returns the word that names the command: of a record the fourth, of any other call the first.
fn call_word(line: &[u8]) -> &[u8]
    ensures { result.now ≡ call_word line.now }
{
    if begins_with(line, b"record") {
        return first_word(after_word(after_word(after_word(line))));
    }
    first_word(line)
}

/// Returns the line of a call: after `whatif` the rest, else the whole line.
pub fn call_part(line: &[u8]) -> &[u8]
    ensures exact { result.now ≡ call_part line.now }
{
    if begins_with(line, b"whatif") {
        return after_word(line);
    }
    line
}

// Returns the word of a line that should be a path: in the line of an edit the last but one, else the last.
fn path_word(line: &[u8]) -> &[u8]
    ensures { result.now ≡ path_word line.now }
{
    let (before, last) = last_words(line);
    if begins_edit(call_part(line)) {
        return before;
    }
    last
}

// Returns the word of a line that should be a number: the last one.
fn number_word(line: &[u8]) -> &[u8]
    ensures { result.now ≡ number_word line.now }
{
    last_words(line).1
}

// Returns the last two words of a line; missing ones are empty.
fn last_words(line: &[u8]) -> (&[u8], &[u8])
    ensures { (result.0.now, result.1.now) ≡ last_words [] [] (words_of line.now) }
{
    let mut before: &[u8] = &[];
    let mut last: &[u8] = &[];
    for word in Words::new(line) {
        before = last;
        last = word;
    }
    (before, last)
}

// Returns the first word of a line, or an empty one if there is none.
fn first_word(line: &[u8]) -> &[u8]
    ensures { result.now ≡ first_word (words_of line.now) }
{
    Words::new(line).next().unwrap_or(&[])
}

/// Returns the first word of a line that is not a name, or an empty one if there is none.
pub fn misnamed(line: &[u8]) -> &[u8]
    ensures exact { result.now ≡ misnamed (words_of line.now) }
{
    for word in Words::new(line) {
        if Name::new(word).is_err() {
            return word;
        }
    }
    &[]
}

// True if a word of a line begins with a quotation mark.
fn has_quoted(line: &[u8]) -> bool
    ensures { result ≡ list_any begins_quoted (words_of line.now) }
{
    Words::new(line).any(begins_quoted)
}

// True if a word of a line is only a carriage return.
fn has_return(line: &[u8]) -> bool
    ensures { result ≡ list_any is_return (words_of line.now) }
{
    Words::new(line).any(|word| word == b"\r".as_slice())
}

fn begins_quoted(word: &[u8]) -> bool
    ensures { result ≡ begins_quoted word.now }
{
    word.starts_with(b"\"") || word.starts_with(b"'")
}

/// True if a word or a line begins with the sign of a line of a body.
pub fn begins_signed(word: &[u8]) -> bool
    ensures exact { result ≡ begins_signed word.now }
{
    word.starts_with(b"+") || word.starts_with(b"-")
}

fn ends_in_return(line: &[u8]) -> bool
    ensures { result ≡ ends_in_return line.now }
{
    line.ends_with(b"\r")
}

fn begins_blank(line: &[u8]) -> bool
    ensures { result ≡ begins_blank line.now }
{
    line.starts_with(b" ") || line.starts_with(b"\t")
}

fn begins_end(line: &[u8]) -> bool
    ensures { result ≡ begins_end line.now }
{
    line.starts_with(b"end ") || line.starts_with(b"end\t")
}

// True if the first word of a line is one that is allowed only in a body or a group.
fn begins_inner(line: &[u8]) -> bool
    ensures { result ≡ begins_inner line.now }
{
    begins_with(line, b"end")
        || begins_with(line, b"done")
        || begins_with(line, b"add")
        || begins_with(line, b"remove")
        || begins_with(line, b"edit")
}

// True if a line is `end` or empty, not counting a carriage return.
fn is_returned_end(line: &[u8]) -> bool
    ensures { result ≡ is_returned_end line.now }
{
    line == b"end\r".as_slice() || line == b"\r".as_slice()
}

fn is_capital_end(line: &[u8]) -> bool
    ensures { result ≡ is_capital_end line.now }
{
    line == b"END".as_slice() || line == b"End".as_slice()
}

fn begins_zero(word: &[u8]) -> bool
    ensures { result ≡ begins_zero word.now }
{
    word.starts_with(b"0")
}

fn is_zero(word: &[u8]) -> bool
    ensures { result ≡ is_zero word.now }
{
    begins_zero(word) && !has_other_than_zero(word)
}

fn has_other_than_zero(word: &[u8]) -> bool
    ensures { result ≡ list_any is_other_than_zero word.now }
{
    word.iter().any(|byte| !matches!(byte, b'0'))
}

fn is_end(line: &[u8]) -> bool
    ensures { result ≡ is_end line.now }
{
    line == b"end".as_slice()
}

// True if a line replaces one that was too long.
fn is_overlong(line: &[u8]) -> bool
    ensures { result ≡ is_overlong line.now }
{
    line.len() == CUT_BYTES && line[1] == b'?'
}

fn has_quotes(word: &[u8]) -> bool
    ensures { result ≡ list_any is_quote word.now }
{
    word.iter().any(|byte| matches!(byte, b'"' | b'\''))
}

fn has_capitals(word: &[u8]) -> bool
    ensures { result ≡ list_any is_capital_letter word.now }
{
    word.iter().any(|byte| matches!(byte, b'A'..=b'Z'))
}

// True if a byte is neither a printable character of ASCII nor a blank.
fn has_strange(bytes: &[u8]) -> bool
    ensures { result ≡ list_any is_strange bytes.now }
{
    bytes
        .iter()
        .any(|byte| !matches!(byte, b'\t' | b' '..=b'~'))
}
