//! Bytes as printable characters, so that no control byte reaches a terminal.
ghost use Rattle.std.specs.Prelude.{◌≡◌, ◌++◌, ◌∷◌, [], ◌/◌, ◌%◌, ◌<◌, IfOk, OnOk, codes};
ghost use Rattle.camp_notation.specs.Words.{hex_digit};
ghost use Rattle.camp_talk.specs.Visible.{visible, visible_byte};

use std::alloc::{AllocError, Global};

/// Renders bytes as printing ASCII characters: `\` as `\\`, and any byte outside ` ` to `~` as `\x` and two
/// hexadecimal digits.
pub(crate) fn visible(alloc: Global, bytes: &[u8]) -> Result<Vec<u8>, AllocError>
    ensures { IfOk result (λ text. text.items ≡ visible bytes.now) }
{
    let mut text = Vec::new(alloc);
    for byte in bytes {
        append_visible(&mut text, *byte)?;
    }
    Ok(text)
}

fn append_visible(text: &mut Vec<u8>, byte: u8) -> Result<(), AllocError>
    ensures { OnOk result (text.new.items ≡ text.old.items ++ visible_byte byte) }
{
    match byte {
        b'\\' => Ok(text.extend_from_slice(b"\\\\")?),
        b' '..=b'~' => Ok(text.push(byte)?),
        _ => append_hex(text, byte),
    }
}

fn append_hex(text: &mut Vec<u8>, byte: u8) -> Result<(), AllocError>
    ensures { OnOk result (text.new.items ≡ text.old.items ++ codes "\\x" ++ hex_digit (byte / 16) ∷ hex_digit (byte % 16) ∷ []) }
{
    text.extend_from_slice(b"\\x")?;
    text.push(hex_digit(byte / 16))?;
    Ok(text.push(hex_digit(byte % 16))?)
}

fn hex_digit(n: u8) -> u8
    requires { n < 16 }
    ensures { result ≡ hex_digit n }
{
    if n < 10 { b'0' + n } else { b'a' - 10 + n }
}
