//! Reading quoted paths, byte by byte.

ghost use Rattle.std.specs.Prelude.{◌≡◌, ◌∷◌, ◌≤◌, ℕ, List, drop, option_map, IfOk};
ghost use Rattle.camp_stream.specs.QuotedPaths.{letter_value, unquoted_from};
ghost use Rattle.camp_stream.specs.Inside.Steps.{IsOctalState, IsOctalStep, after_step};

use std::alloc::{AllocError, Global};

/// The state of reading an escape.
#[derive(Clone, Copy, Debug, PartialEq, Eq)]
pub enum EscapeState {
    /// No escape has begun.
    Plain,
    /// A backslash.
    Backslash,
    /// A backslash and an octal digit, by its value.
    OneDigit(u8),
    /// A backslash and two octal digits, by their value.
    TwoDigits(u8),
}

/// A path that was read from between quotes.
#[derive(Debug, Drop)]
pub struct Unquoted {
    /// The bytes of the path.
    pub path: Vec<u8>,
    /// The index in the text of the first byte after the closing quote.
    pub end: usize,
}

/// What a byte does: it closes the path, continues an escape, gives a byte of the path, or is a fault.
#[derive(Clone, Copy)]
enum Step {
    Closes,
    Continues(EscapeState),
    Gives(u8),
    Fails,
}

/// Reads a path after its opening quote, up to its closing quote. `None` if the closing quote is missing, or an escape
/// is not one of C.
pub fn unquote_path(alloc: Global, text: &[u8]) -> Result<Option<Unquoted>, AllocError>
    ensures exact { IfOk result (λ found. option_map (λ read. (read.path.items, drop read.end text.now)) found ≡ unquoted_from EscapeState.Plain text.now) }
{
    let mut path = Vec::new(alloc);
    let mut state = EscapeState::Plain;
    'bytes: for (index, byte) in text.iter().enumerate() {
        match step_of(state, *byte) {
            Step::Closes => {
                let end = index + 1;
                return Ok(Some(Unquoted { path, end }));
            }
            Step::Continues(next) => state = next,
            Step::Gives(given) => {
                path.push(given)?;
                state = EscapeState::Plain;
            }
            Step::Fails => return Ok(None),
        }
    }
    Ok(None)
}

fn step_of(state: EscapeState, byte: u8) -> Step
    requires { IsOctalState state }
    ensures step { (bytes : List ℕ) → unquoted_from state (byte ∷ bytes) ≡ after_step result bytes }
    ensures octal { IsOctalStep result }
{
    match state {
        EscapeState::Plain => plain_step(byte),
        EscapeState::Backslash => escape_step(byte),
        EscapeState::OneDigit(value) => second_digit_step(value, byte),
        EscapeState::TwoDigits(value) => third_digit_step(value, byte),
    }
}

fn plain_step(byte: u8) -> Step
    ensures step { (bytes : List ℕ) → unquoted_from EscapeState.Plain (byte ∷ bytes) ≡ after_step result bytes }
    ensures octal { IsOctalStep result }
{
    if byte == b'"' {
        return Step::Closes;
    }
    if byte == b'\\' {
        return Step::Continues(EscapeState::Backslash);
    }
    Step::Gives(byte)
}

fn escape_step(byte: u8) -> Step
    ensures step { (bytes : List ℕ) → unquoted_from EscapeState.Backslash (byte ∷ bytes) ≡ after_step result bytes }
    ensures octal { IsOctalStep result }
{
    if byte >= b'0' && byte <= b'3' {
        return Step::Continues(EscapeState::OneDigit(byte - b'0'));
    }
    match letter_value(byte) {
        Some(value) => Step::Gives(value),
        None => Step::Fails,
    }
}

fn second_digit_step(value: u8, byte: u8) -> Step
    requires { value ≤ 3 }
    ensures step { (bytes : List ℕ) → unquoted_from (EscapeState.OneDigit value) (byte ∷ bytes) ≡ after_step result bytes }
    ensures octal { IsOctalStep result }
{
    if byte >= b'0' && byte <= b'7' {
        return Step::Continues(EscapeState::TwoDigits(8 * value + (byte - b'0')));
    }
    Step::Fails
}

fn third_digit_step(value: u8, byte: u8) -> Step
    requires { value ≤ 31 }
    ensures step { (bytes : List ℕ) → unquoted_from (EscapeState.TwoDigits value) (byte ∷ bytes) ≡ after_step result bytes }
    ensures octal { IsOctalStep result }
{
    if byte >= b'0' && byte <= b'7' {
        return Step::Gives(8 * value + (byte - b'0'));
    }
    Step::Fails
}

fn letter_value(letter: u8) -> Option<u8>
    ensures { result ≡ letter_value letter }
{
    match letter {
        b'a' => Some(7),
        b'b' => Some(8),
        b'f' => Some(12),
        b'n' => Some(b'\n'),
        b'r' => Some(b'\r'),
        b't' => Some(b'\t'),
        b'v' => Some(11),
        b'"' => Some(b'"'),
        b'\\' => Some(b'\\'),
        _ => None,
    }
}
