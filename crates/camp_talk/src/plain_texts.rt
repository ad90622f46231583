//! Text that no terminal takes for more than text.
ghost use Rattle.std.specs.Prelude.{◌≡◌, IfOk, true};
ghost use Rattle.camp_talk.specs.Visible.{IsPlainText, is_text_byte};

use crate::visible::visible;
use itoa::Buffer;
use std::alloc::{AllocError, Global};
use std::marker::Model;

/// Text of printing ASCII characters and line feeds.
#[derive(Drop)]
pub(crate) struct PlainText {
    alloc: Global,
    bytes: Vec<u8>,
}

impl Model for PlainText {
    ghost use Rattle.std.specs.Prelude.{List, ℕ};
    ghost use Rattle.camp_talk.specs.Visible.{IsPlainText};

    ghost Value = { List ℕ };

    ghost view = { λ text. text.bytes.items };

    ghost invariant = { λ text. IsPlainText text.bytes.items };
}

impl PlainText {
    /// Starts empty.
    pub(crate) fn new(alloc: Global) -> PlainText {
        PlainText {
            alloc,
            bytes: Vec::new(alloc),
        }
    }

    /// Appends parts, one after the other; `?` for each byte that such a text can't have.
    pub(crate) fn push(&mut self, parts: &[&[u8]]) -> Result<(), AllocError> {
        for part in parts {
            self.push_part(part)?;
        }
        Ok(())
    }

    /// Appends bytes of a command or a file, each as it is shown.
    pub(crate) fn quote(&mut self, bytes: &[u8]) -> Result<(), AllocError> {
        let shown = visible(self.alloc, bytes)?;
        self.push_part(&shown)
    }

    /// Appends words and a number.
    pub(crate) fn push_number(&mut self, words: &str, number: usize) -> Result<(), AllocError> {
        let mut digits = Buffer::new();
        self.push(&[words.as_bytes(), digits.format(number).as_bytes()])
    }

    /// Returns its bytes.
    pub(crate) fn bytes(&self) -> &[u8]
        ensures { IsPlainText result.now }
    {
        &self.bytes
    }

    #[tactic(auto, using(crate::proofs::VisibleLemmas::plain_more))]
    fn push_part(&mut self, part: &[u8]) -> Result<(), AllocError> {
        let part = plain(self.alloc, part)?;
        Ok(self.bytes.extend_from_slice(&part)?)
    }
}

// Returns the bytes, with `?` for each that a plain text can't have.
#[tactic(auto, using(crate::proofs::VisibleLemmas::plain_one))]
fn plain(alloc: Global, bytes: &[u8]) -> Result<Vec<u8>, AllocError>
    ensures { IfOk result (λ text. IsPlainText text.items) }
{
    let mut text = Vec::new(alloc);
    for byte in bytes {
        text.push(plain_byte(*byte))?;
    }
    Ok(text)
}

fn plain_byte(byte: u8) -> u8
    ensures { is_text_byte result ≡ true }
{
    match byte {
        b'\n' => b'\n',
        b' '..=b'~' => byte,
        _ => b'?',
    }
}
