//! Splits the text of arguments at its commas.
ghost use Rattle.std.specs.Prelude.{◌≤◌, length};

use std::alloc::{AllocError, Global};

/// The state at a byte: the number of open brackets, and whether it is in quotes.
#[derive(Clone, Copy)]
struct Nesting {
    depth: u32,
    quoted: bool,
    escaped: bool,
}

impl Nesting {
    fn after(self, byte: u8) -> Nesting {
        if self.quoted {
            return self.after_quoted(byte);
        }
        let depth = match byte {
            b'[' | b'{' | b'(' => self.depth.saturating_add(1),
            b']' | b'}' | b')' => self.depth.saturating_sub(1),
            _ => self.depth,
        };
        Nesting {
            depth,
            quoted: byte == b'"',
            escaped: false,
        }
    }

    fn after_quoted(self, byte: u8) -> Nesting {
        Nesting {
            depth: self.depth,
            quoted: self.escaped || byte != b'"',
            escaped: !self.escaped && byte == b'\\',
        }
    }

    fn is_outside(self) -> bool {
        self.depth == 0 && !self.quoted
    }
}

/// Splits a text into arguments at commas outside brackets and quotes. A blank has to follow each comma; otherwise the
/// rest of the text is ignored.
pub(crate) fn split(alloc: Global, text: &[u8]) -> Result<Vec<&[u8]>, AllocError> {
    let mut parts = Vec::new(alloc);
    let mut rest = text;
    for _ in 0..text.len() {
        let (part, after) = rest.split_at(argument_len(rest));
        parts.push(part)?;
        match after.strip_prefix(b", ") {
            Some(others) => rest = others,
            None => return Ok(parts),
        }
    }
    Ok(parts)
}

// Counts the bytes of the first argument of a text.
fn argument_len(text: &[u8]) -> usize
    ensures { result ≤ length text.now }
{
    let mut nesting = Nesting {
        depth: 0,
        quoted: false,
        escaped: false,
    };
    for (at, byte) in text.iter().enumerate() {
        if *byte == b',' && nesting.is_outside() {
            return at;
        }
        nesting = nesting.after(*byte);
    }
    text.len()
}
