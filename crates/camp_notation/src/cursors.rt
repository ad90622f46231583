//! The cursor of the parser.
ghost use Rattle.std.specs.Prelude.{◌≡◌, ◌≤◌, ◌<◌, ℕ, List, length, IfOk, OnOk, string_bytes};

use crate::NotationError;
use crate::words::is_plain_byte;
use camp_prim::Named;
use std::alloc::{AllocError, Global};
use std::str;

/// A text that is parsed from left to right. A label alone stands for the known primitive with that label.
#[derive(Drop)]
pub(crate) struct Cursor<'a> {
    pub(crate) alloc: Global,
    pub(crate) known: &'a [Named],
    rest: &'a [u8],
}

/// A class of bytes: of a word without quotes, of a name, or of a number.
#[derive(Clone, Copy)]
enum Run {
    Plain,
    Name,
    Digits,
}

impl<'a> Cursor<'a> {
    pub(crate) fn new(alloc: Global, known: &'a [Named], text: &'a [u8]) -> Cursor<'a> {
        Cursor {
            alloc,
            known,
            rest: text,
        }
    }

    /// Returns the number of bytes that are left, an upper bound for the number of items that can follow.
    pub(crate) fn len(&self) -> usize {
        self.rest.len()
    }

    /// True if these bytes come next.
    pub(crate) fn stands_at(&self, bytes: &[u8]) -> bool {
        self.rest.starts_with(bytes)
    }

    /// Skips these bytes if they come next; else returns false.
    pub(crate) fn take(&mut self, bytes: &[u8]) -> bool {
        match self.rest.strip_prefix(bytes) {
            Some(rest) => {
                self.rest = rest;
                true
            }
            None => false,
        }
    }

    /// Skips a sign; the fault is `Expected(mark)` if it does not come next.
    pub(crate) fn expect(&mut self, sign: &[u8], mark: char) -> Result<(), NotationError> {
        if self.take(sign) {
            Ok(())
        } else {
            Err(NotationError::Expected(mark))
        }
    }

    /// Returns a fault unless the text has ended.
    pub(crate) fn expect_end(&self) -> Result<(), NotationError> {
        if self.rest.is_empty() {
            Ok(())
        } else {
            Err(NotationError::MoreBehind)
        }
    }

    /// Returns a fault unless rendering what was parsed gives the text, byte for byte. Before that it checks that the
    /// text has ended, so that trailing bytes have a fault of their own.
    pub(crate) fn expect_written(
        &self,
        text: &[u8],
        written: Result<String, AllocError>,
    ) -> Result<(), NotationError>
        ensures { OnOk result ((bytes : List ℕ) → IfOk written (λ words. string_bytes words ≡ bytes) → text.now ≡ bytes) }
    {
        self.expect_end()?;
        if written?.as_bytes() != text {
            return Err(NotationError::WrittenOtherwise);
        }
        Ok(())
    }

    /// Parses a word, quoted or not.
    pub(crate) fn word(&mut self) -> Result<Vec<u8>, NotationError> {
        if self.take(b"\"") {
            return self.quoted();
        }
        let bytes = self.run(Run::Plain);
        if bytes.is_empty() {
            return Err(NotationError::NoWord);
        }
        Ok(Vec::from_slice(self.alloc, bytes)?)
    }

    /// Parses the bytes of a name.
    pub(crate) fn name(&mut self) -> &'a [u8] {
        self.run(Run::Name)
    }

    /// Parses a number.
    pub(crate) fn number(&mut self) -> Result<u32, NotationError> {
        let digits = self.run(Run::Digits);
        let Ok(text) = str::from_utf8(digits) else {
            return Err(NotationError::BadNumber);
        };
        text.parse::<u32>().ok().ok_or(NotationError::BadNumber)
    }

    fn run(&mut self, run: Run) -> &'a [u8] {
        let (taken, rest) = self.rest.split_at(run_len(self.rest, run));
        self.rest = rest;
        taken
    }

    // Parses what is between quotes, after the opening one.
    fn quoted(&mut self) -> Result<Vec<u8>, NotationError> {
        let mut bytes = Vec::new(self.alloc);
        for _ in 0..self.len() {
            match self.next()? {
                b'"' => return Ok(bytes),
                b'\\' => bytes.push(self.escaped()?)?,
                byte => bytes.push(byte)?,
            }
        }
        Err(NotationError::Expected('"'))
    }

    // Parses the byte after a `\`.
    fn escaped(&mut self) -> Result<u8, NotationError> {
        match self.next()? {
            b'x' => {
                let high = self.hex_digit()?;
                let low = self.hex_digit()?;
                Ok(16 * high + low)
            }
            byte => Ok(byte),
        }
    }

    fn hex_digit(&mut self) -> Result<u8, NotationError>
        ensures { IfOk result (λ digit. digit < 16) }
    {
        match self.next()? {
            byte @ b'0'..=b'9' => Ok(byte - b'0'),
            byte @ b'a'..=b'f' => Ok(byte - b'a' + 10),
            _ => Err(NotationError::BadEscape),
        }
    }

    fn next(&mut self) -> Result<u8, NotationError> {
        let Some((byte, rest)) = self.rest.split_first() else {
            return Err(NotationError::Expected('"'));
        };
        self.rest = rest;
        Ok(*byte)
    }
}

// Returns the length of the longest prefix of bytes of a class.
fn run_len(bytes: &[u8], run: Run) -> usize
    ensures { result ≤ length bytes.now }
{
    for (at, byte) in bytes.iter().enumerate() {
        if !is_of(run, *byte) {
            return at;
        }
    }
    bytes.len()
}

fn is_of(run: Run, byte: u8) -> bool {
    match run {
        Run::Plain => is_plain_byte(byte),
        Run::Name => matches!(byte, b'a'..=b'z' | b'0'..=b'9' | b'-'),
        Run::Digits => byte.is_ascii_digit(),
    }
}
