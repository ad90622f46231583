//! Rendering words and lines.
ghost use Rattle.std.specs.Prelude.{◌≡◌, ◌∷◌, [], ◌++◌, ◌<◌, ◌/◌, ◌%◌, IsTrue, IfOk, OnOk, codes, string_bytes};
ghost use Rattle.std.specs.List.{list_all, flat_map};
ghost use Rattle.camp_notation.specs.Words.{hex_digit, is_plain, is_plain_byte, lines_text, quoted_byte, separator, word_text};

use camp_base::Line;
use std::alloc::{AllocError, Global};

/// Renders bytes as a word: unquoted if they are letters, digits and `-`, `.`, `/`, `_`, else in quotes, as
/// `"two words"`.
pub fn word_text(alloc: Global, bytes: &[u8]) -> Result<String, AllocError>
    ensures exact { IfOk result (λ text. string_bytes text ≡ word_text bytes.now) }
{
    let mut text = String::new(alloc);
    append_word(&mut text, bytes)?;
    Ok(text)
}

/// Renders lines as `[one, two]`.
pub fn lines_text(alloc: Global, lines: &[Line]) -> Result<String, AllocError>
    ensures exact { IfOk result (λ text. string_bytes text ≡ lines_text lines.now) }
{
    let mut text = String::new(alloc);
    append_lines(&mut text, lines)?;
    Ok(text)
}

/// Appends bytes as a word.
pub(crate) fn append_word(text: &mut String, bytes: &[u8]) -> Result<(), AllocError>
    ensures { OnOk result (string_bytes text.new ≡ string_bytes text.old ++ word_text bytes.now) }
{
    if is_plain(bytes) {
        append_plain(text, bytes)
    } else {
        append_quoted(text, bytes)
    }
}

/// Appends lines as a row in brackets.
pub(crate) fn append_lines(text: &mut String, lines: &[Line]) -> Result<(), AllocError>
    ensures { OnOk result (string_bytes text.new ≡ string_bytes text.old ++ lines_text lines.now) }
{
    text.push('[')?;
    for (at, line) in lines.iter().enumerate() {
        append_separator(text, at)?;
        append_word(text, line.bytes())?;
    }
    text.push(']')
}

/// Appends the separator before the item of a row at index `at`.
pub(crate) fn append_separator(text: &mut String, at: usize) -> Result<(), AllocError>
    ensures { OnOk result (string_bytes text.new ≡ string_bytes text.old ++ separator at) }
{
    if at == 0 {
        return Ok(());
    }
    text.push_str(", ")
}

fn append_plain(text: &mut String, bytes: &[u8]) -> Result<(), AllocError>
    requires { IsTrue (list_all is_plain_byte bytes.now) }
    ensures { OnOk result (string_bytes text.new ≡ string_bytes text.old ++ bytes.now) }
{
    for byte in bytes {
        text.push(*byte as char)?;
    }
    Ok(())
}

fn append_quoted(text: &mut String, bytes: &[u8]) -> Result<(), AllocError>
    ensures { OnOk result (string_bytes text.new ≡ string_bytes text.old ++ codes "\"" ++ flat_map quoted_byte bytes.now ++ codes "\"") }
{
    text.push('"')?;
    for byte in bytes {
        append_quoted_byte(text, *byte)?;
    }
    text.push('"')
}

fn append_quoted_byte(text: &mut String, byte: u8) -> Result<(), AllocError>
    ensures { OnOk result (string_bytes text.new ≡ string_bytes text.old ++ quoted_byte byte) }
{
    match byte {
        b'"' => text.push_str("\\\""),
        b'\\' => text.push_str("\\\\"),
        0x20..=0x7e => text.push(byte as char),
        _ => append_hex(text, byte),
    }
}

fn append_hex(text: &mut String, byte: u8) -> Result<(), AllocError>
    ensures { OnOk result (string_bytes text.new ≡ string_bytes text.old ++ codes "\\x" ++ hex_digit (byte / 16) ∷ hex_digit (byte % 16) ∷ []) }
{
    text.push_str("\\x")?;
    text.push(hex_digit(byte / 16))?;
    text.push(hex_digit(byte % 16))
}

fn hex_digit(n: u8) -> char
    requires { n < 16 }
    ensures value { result ≡ hex_digit n }
    ensures ascii { result < 128 }
{
    if n < 10 {
        (b'0' + n) as char
    } else {
        (b'a' - 10 + n) as char
    }
}

fn is_plain(bytes: &[u8]) -> bool
    ensures { result ≡ is_plain bytes.now }
{
    !bytes.is_empty() && has_plain_bytes(bytes)
}

fn has_plain_bytes(bytes: &[u8]) -> bool
    ensures { result ≡ list_all is_plain_byte bytes.now }
{
    bytes.iter().all(|byte| is_plain_byte(*byte))
}

pub(crate) fn is_plain_byte(byte: u8) -> bool
    ensures { result ≡ is_plain_byte byte }
{
    matches!(byte, b'-'..=b'9' | b'A'..=b'Z' | b'a'..=b'z' | b'_')
}
