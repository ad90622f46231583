//! The words of a line as names, paths and numbers.
ghost use Rattle.std.specs.Prelude.{◌≡◌, ◌≢◌, ◌≤◌, IfErr, IfOk, List, Ok, length, map, ℕ};
ghost use Rattle.std.specs.List.{list_all};
ghost use Rattle.camp_base.specs.Signs.{is_digit};
ghost use Rattle.camp_script.specs.Words.{count_of, no_words, one_word, two_words, three_words, name_at, names_at, number_at, value_of};
ghost use Rattle.camp_script.specs.Gives.{Gives, GivesFaultFirst, GivesPath, IsFaultFirst};

use crate::faults::{FaultKind, ScriptFault, at_line};
use crate::lines::Words;
use camp_base::{BaseFault, Name, Path};
use camp_call::Names;
use std::alloc::{AllocError, Global};

/// The most digits of the number of a line of a file.
const MAX_DIGITS: usize = 10;

/// The greatest number of a line of a file.
const LAST_LINE: u64 = 1_073_741_823;

/// Returns a fault if there is any word.
pub fn no_words(number: u64, words: &[&[u8]]) -> Result<(), ScriptFault>
    ensures given { GivesFaultFirst result (no_words number (map (λ word. word.now) words.now)) }
    ensures told { IfErr result (λ fault. fault ≢ ScriptFault.Memory) }
{
    match words {
        [] => Ok(()),
        _ => Err(at_line(number, FaultKind::WrongNumberOfWords)),
    }
}

/// Returns the only word; a fault if there is another number of words.
pub fn one_word<'a>(number: u64, words: &[&'a [u8]]) -> Result<&'a [u8], ScriptFault>
    ensures given { IfOk result (λ word. one_word number (map (λ word. word.now) words.now) ≡ Ok word.now) }
    ensures fault { IfErr result (λ fault. IsFaultFirst fault (one_word number (map (λ word. word.now) words.now))) }
    ensures told { IfErr result (λ fault. fault ≢ ScriptFault.Memory) }
{
    match words {
        [word] => Ok(*word),
        _ => Err(at_line(number, FaultKind::WrongNumberOfWords)),
    }
}

/// Returns the only two words; a fault if there is another number of words.
pub fn two_words<'a>(number: u64, words: &[&'a [u8]]) -> Result<(&'a [u8], &'a [u8]), ScriptFault>
    ensures given { IfOk result (λ pair. two_words number (map (λ word. word.now) words.now) ≡ Ok (pair.0.now, pair.1.now)) }
    ensures fault { IfErr result (λ fault. IsFaultFirst fault (two_words number (map (λ word. word.now) words.now))) }
    ensures told { IfErr result (λ fault. fault ≢ ScriptFault.Memory) }
{
    match words {
        [first, second] => Ok((*first, *second)),
        _ => Err(at_line(number, FaultKind::WrongNumberOfWords)),
    }
}

/// Returns the first three words and the others; a fault if there are fewer.
pub(crate) fn three_words<'a, 'w>(
    number: u64,
    words: &'w [&'a [u8]],
) -> Result<(&'a [u8], &'a [u8], &'a [u8], &'w [&'a [u8]]), ScriptFault>
    ensures given { IfOk result (λ head. three_words number (map (λ word. word.now) words.now)
        ≡ Ok (head.0.now, head.1.now, head.2.now, map (λ word. word.now) head.3.now)) }
    ensures fault { IfErr result (λ fault. IsFaultFirst fault (three_words number (map (λ word. word.now) words.now))) }
    ensures told { IfErr result (λ fault. fault ≢ ScriptFault.Memory) }
{
    match words {
        [first, second, third, rest @ ..] => Ok((*first, *second, *third, rest)),
        _ => Err(at_line(number, FaultKind::WrongNumberOfWords)),
    }
}

/// Parses a word as a name.
pub fn name_at(number: u64, word: &[u8]) -> Result<Name, ScriptFault>
    ensures given { GivesFaultFirst result (name_at number word.now) }
    ensures told { IfErr result (λ fault. fault ≢ ScriptFault.Memory) }
{
    match Name::new(word) {
        Ok(name) => Ok(name),
        Err(_) => Err(at_line(number, FaultKind::BadName)),
    }
}

/// Parses all words as names.
pub fn names_at(alloc: Global, number: u64, words: Words<'_>) -> Result<Names, ScriptFault>
    ensures given { Gives result (names_at number words.entry) }
{
    let names = list_names(alloc, number, words)?;
    Ok(names?)
}

/// Parses all words as names, each once. A word that is no name is an error at once; out of memory is returned inside,
/// so that a caller can report a later fault before it.
pub(crate) fn list_names(
    alloc: Global,
    number: u64,
    words: Words<'_>,
) -> Result<Result<Names, AllocError>, ScriptFault>
    ensures given { IfOk result (λ listed. (names : List (List ℕ)) × (names_at number words.entry ≡ Ok names) × IfOk listed (λ list. list ≡ names)) }
    ensures fault { IfErr result (λ fault. IsFaultFirst fault (names_at number words.entry)) }
    ensures told { IfErr result (λ fault. fault ≢ ScriptFault.Memory) }
{
    let mut names = Vec::new(alloc);
    let mut has_memory = true;
    for word in words {
        let name = name_at(number, word)?;
        has_memory = has_memory && names.push(name).is_ok();
    }
    if has_memory {
        return Ok(Ok(Names::new(names)));
    }
    Ok(Err(AllocError))
}

/// Parses a path. A word that is no path is an error at once; out of memory is returned inside, so that a caller can
/// report a later fault before it.
pub fn path_at(
    alloc: Global,
    number: u64,
    word: &[u8],
) -> Result<Result<Path, AllocError>, ScriptFault>
    ensures exact { GivesPath result number word.now }
{
    match Path::new(alloc, word) {
        Ok(path) => Ok(Ok(path)),
        Err(BaseFault::Memory) => Ok(Err(AllocError)),
        Err(_) => Err(at_line(number, FaultKind::BadPath)),
    }
}

/// Parses the number of a line of a file.
pub(crate) fn number_at(number: u64, word: &[u8]) -> Result<u32, ScriptFault>
    ensures value { GivesFaultFirst result (number_at number word.now) }
    ensures counted { IfOk result (λ line. 1 ≤ line) }
    ensures told { IfErr result (λ fault. fault ≢ ScriptFault.Memory) }
{
    let Some(value) = count_of(word) else {
        return Err(at_line(number, FaultKind::BadNumber));
    };
    if 1 <= value && value <= LAST_LINE {
        return Ok(value as u32);
    }
    Err(at_line(number, FaultKind::BadNumber))
}

/// Parses a word of 1 to 10 decimal digits as a number.
pub fn count_of(word: &[u8]) -> Option<u64>
    ensures exact { result ≡ count_of word.now }
{
    if word.is_empty() || word.len() > MAX_DIGITS || !has_digits(word) {
        return None;
    }
    Some(value_of(word))
}

fn has_digits(word: &[u8]) -> bool
    ensures { result ≡ list_all is_digit word.now }
{
    word.iter().all(|byte| matches!(byte, b'0'..=b'9'))
}

// Computes the number that decimal digits spell.
fn value_of(digits: &[u8]) -> u64
    requires { length digits.now ≤ 10 }
    ensures { result ≡ value_of digits.now }
{
    let mut value = 0;
    for digit in digits {
        value = value * 10 + u64::from(digit.saturating_sub(b'0'));
    }
    value
}
