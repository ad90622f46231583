//! The text of the option `--limits`.
ghost use Rattle.std.specs.Prelude.{◌≡◌, ◌==◌, ◌≤◌, length, Ok, MatchOption};
ghost use Rattle.std.specs.List.{position_or_len};
ghost use Rattle.camp_options.specs.Limits.{comma_in, limit_numbers, limits_in, number_after};
ghost use Rattle.camp_repo.specs.Limits.{default_bounds};

use camp_repo::{LimitFault, Limits};
use camp_script::count_of;

/// Why the text of `--limits` is rejected.
#[derive(Clone, Copy, PartialEq, Eq, Debug)]
pub enum LimitsFault {
    /// It is not of the form `catches=N,branches=M`.
    Form,
    /// The limit of catches in a branch is out of range.
    Catches,
    /// The limit of branches is out of range.
    Branches,
}

impl LimitsFault {
    /// Returns what is wrong, and what to write instead.
    pub(crate) fn words(&self) -> &'static str {
        match self {
            LimitsFault::Form => {
                "--limits takes catches=N,branches=M: at most N changes in a branch, 1 to 16777216, and at most M branches, 1 to 65536"
            }
            LimitsFault::Catches => {
                "--limits: catches is the most changes of a branch, 1 to 16777216"
            }
            LimitsFault::Branches => "--limits: branches is the most branches, 1 to 65536",
        }
    }
}

/// Parses limits from a text `catches=N,branches=M`.
pub fn read_limits(text: &[u8]) -> Result<Limits, LimitsFault>
    ensures exact { result ≡ limits_in text.now }
{
    let Some((catches, branches)) = limit_numbers(text) else {
        return Err(LimitsFault::Form);
    };
    match Limits::new(catches as usize, branches as usize) {
        Ok(limits) => Ok(limits),
        Err(LimitFault::Catches) => Err(LimitsFault::Catches),
        Err(LimitFault::Branches) => Err(LimitsFault::Branches),
    }
}

fn limit_numbers(text: &[u8]) -> Option<(u64, u64)>
    ensures exact { result ≡ limit_numbers text.now }
{
    let comma = comma_in(text);
    let catches = number_after(b"catches=", &text[..comma])?;
    if comma == text.len() {
        return None;
    }
    let branches = number_after(b"branches=", &text[comma + 1..])?;
    Some((catches, branches))
}

// Returns the index of the first comma, or the length.
fn comma_in(text: &[u8]) -> usize
    ensures place { result ≡ comma_in text.now }
    ensures within { result ≤ length text.now }
{
    text.iter()
        .position(|byte| *byte == b',')
        .unwrap_or(text.len())
}

// Parses the number that follows a word at the start of a text.
fn number_after(word: &[u8], text: &[u8]) -> Option<u64>
    ensures exact { result ≡ number_after word.now text.now }
{
    if !text.starts_with(word) {
        return None;
    }
    count_of(&text[word.len()..])
}
