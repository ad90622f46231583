//! Paths of git as paths of camp.

ghost use Rattle.std.specs.Prelude.{◌≡◌, ◌↔◌, ◌++◌, ℕ, List, IsTrue, IfOk, OnOk, MatchOption};
ghost use Rattle.camp_coding.specs.GitPaths.{AreBytes, EscapedPathsDiffer, escaped_path, escaped_path_byte, is_unescaped};

use percent_encoding::{percent_decode, percent_encode_byte};
use std::alloc::{AllocError, Global};

/// Escapes a path of git: each byte outside `!` to `~`, and each `%`, becomes `%` and two upper-case hexadecimal
/// digits.
pub fn escape_path(alloc: Global, path: &[u8]) -> Result<Vec<u8>, AllocError>
    ensures exact { IfOk result (λ text. text.items ≡ escaped_path path.now) }
{
    let mut text = Vec::new(alloc);
    for byte in path {
        append_escaped(&mut text, *byte)?;
    }
    Ok(text)
}

/// Returns the path of git whose escaped path this is; `None` if there is none.
pub fn unescape_path(alloc: Global, text: &[u8]) -> Result<Option<Vec<u8>>, AllocError>
    ensures exact { IfOk result (λ found. MatchOption found
        ((path : List ℕ) → AreBytes path → ¬ (escaped_path path ≡ text.now))
        (λ path. escaped_path path.items ≡ text.now)) }
{
    let mut path = Vec::new(alloc);
    percent_decode(text).append_to(&mut path)?;
    let escaped = escape_path(alloc, &path)?;
    if is_same_text(&escaped, text) {
        return Ok(Some(path));
    }
    Ok(None)
}

/// Two paths of git are equal if their escaped paths are.
pub fn escaped_paths_differ()
    ensures { EscapedPathsDiffer }
{}

fn append_escaped(text: &mut Vec<u8>, byte: u8) -> Result<(), AllocError>
    ensures { OnOk result (text.new.items ≡ text.old.items ++ escaped_path_byte byte) }
{
    if is_unescaped(byte) {
        return Ok(text.push(byte)?);
    }
    Ok(text.extend_from_slice(percent_encode_byte(byte).as_bytes())?)
}

fn is_unescaped(byte: u8) -> bool
    ensures { result ≡ is_unescaped byte }
{
    matches!(byte, 0x21..=0x7e) && byte != b'%'
}

pub(crate) fn is_same_text(text: &[u8], other: &[u8]) -> bool
    ensures { IsTrue result ↔ (text.now ≡ other.now) }
{
    text == other
}
