//! The words of a line.
ghost use Rattle.std.specs.Prelude.{◌≡◌, ◌==◌, ◌≤◌, length, map, not, slice_index, take};
ghost use Rattle.std.specs.List.{position_or_len};
ghost use Rattle.camp_script.specs.AfterWords.{after_blanks, after_word};
ghost use Rattle.camp_script.specs.Lines.{is_blank, without_end, words_of};

use arrayvec::ArrayVec;
use std::marker::Model;

/// One more than the most words that may follow the first word of a command without a list: more than these are not
/// read.
const MAX_WORDS_READ: usize = 6;

/// The words of a line after its first; if the capacity is reached, the line may have more.
pub type FirstWords<'a> = ArrayVec<&'a [u8], MAX_WORDS_READ>;

/// The words of a line, from the first to the last: the bytes between runs of spaces and tabs.
#[derive(Drop)]
pub struct Words<'a> {
    rest: &'a [u8],
}

impl<'a> Model for Words<'a> {
    ghost use Rattle.std.specs.Prelude.{List, ℕ};
    ghost use Rattle.camp_script.specs.Lines.{words_of};

    ghost Value = { List (List ℕ) };

    ghost view = { λ words. words_of words.rest.now };
}

impl<'a> Words<'a> {
    ghost use Rattle.camp_script.specs.Lines.{words_of};

    /// Splits a line into words.
    pub fn new(line: &'a [u8]) -> Words<'a>
        ensures exact { result ≡ words_of line.now }
    {
        Words { rest: line }
    }

    /// Copies the iterator over the same words.
    pub fn duplicate(&self) -> Words<'a>
        ensures exact { result ≡ self.now }
    {
        Words { rest: self.rest }
    }
}

impl<'a> Iterator for Words<'a> {
    ghost use Rattle.std.specs.Iterator.{YieldsFirstRef, item_count};

    type Item = &'a [u8];

    ghost next_gives = { YieldsFirstRef (λ words. words) };

    ghost remaining = { item_count (λ words. words) };

    fn next(&mut self) -> Option<&'a [u8]> {
        let line = self.rest;
        let line = &line[blanks_len(line)..];
        let (word, rest) = line.split_at(word_len(line));
        self.rest = rest;
        if word.is_empty() {
            return None;
        }
        Some(word)
    }
}

/// Returns up to six words, the first ones of the line.
pub fn first_words(words: Words<'_>) -> FirstWords<'_>
    ensures exact { map (λ word. word.now) result.items ≡ take 6 words.entry }
{
    let mut first = ArrayVec::new();
    for word in words {
        if first.is_full() {
            break;
        }
        first.push(word);
    }
    first
}

/// True if a line with this first word is skipped.
pub(crate) fn is_comment(word: &[u8]) -> bool
    ensures { result ≡ (slice_index word.now 0 == 35) }
{
    word.first() == Some(&b'#')
}

// Counts the bytes before the first that is not blank.
fn blanks_len(bytes: &[u8]) -> usize
    ensures place { result ≡ position_or_len (λ byte. not (is_blank byte)) bytes.now }
    ensures within { result ≤ length bytes.now }
{
    bytes
        .iter()
        .position(|byte| !is_blank(*byte))
        .unwrap_or(bytes.len())
}

// Counts the bytes before the first blank.
fn word_len(bytes: &[u8]) -> usize
    ensures place { result ≡ position_or_len is_blank bytes.now }
    ensures within { result ≤ length bytes.now }
{
    bytes
        .iter()
        .position(|byte| is_blank(*byte))
        .unwrap_or(bytes.len())
}

fn is_blank(byte: u8) -> bool
    ensures { result ≡ is_blank byte }
{
    matches!(byte, b' ' | b'\t')
}

/// Returns a line without its first word and the blanks around that.
pub fn after_word(line: &[u8]) -> &[u8]
    ensures exact { result.now ≡ after_word line.now }
{
    let line = after_blanks(line);
    after_blanks(&line[word_len(line)..])
}

fn after_blanks(line: &[u8]) -> &[u8]
    ensures { result.now ≡ after_blanks line.now }
{
    &line[blanks_len(line)..]
}

/// Returns a line without a line feed at its end, if it has one.
pub fn without_end(line: &[u8]) -> &[u8]
    ensures exact { result.now ≡ without_end line.now }
{
    match line {
        [bytes @ .., b'\n'] => bytes,
        _ => line,
    }
}
