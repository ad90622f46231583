//! Quoting paths.

ghost use Rattle.std.specs.Prelude.{◌≡◌, ◌++◌, IfOk, OnOk};
ghost use Rattle.std.specs.List.{flat_map};
ghost use Rattle.camp_stream.specs.QuotedPaths.{QuotedPathsComeBack, quoted_path, quoted_path_byte, needs_no_escape};

use std::alloc::{AllocError, Global};

/// Quotes a path: each byte outside ` ` to `~`, each quote and each backslash becomes a backslash and three octal
/// digits, with a quote before and after all.
pub fn quote_path(alloc: Global, path: &[u8]) -> Result<Vec<u8>, AllocError>
    ensures exact { IfOk result (λ text. text.items ≡ quoted_path path.now) }
{
    let mut text = Vec::new(alloc);
    text.push(b'"')?;
    append_quoted(&mut text, path)?;
    text.push(b'"')?;
    Ok(text)
}

/// Reading a quoted path gives that path, and leaves all bytes after it.
pub fn quoted_paths_come_back()
    ensures { QuotedPathsComeBack }
{}

fn append_quoted(text: &mut Vec<u8>, path: &[u8]) -> Result<(), AllocError>
    ensures { OnOk result (text.new.items ≡ text.old.items ++ flat_map quoted_path_byte path.now) }
{
    for byte in path {
        append_quoted_byte(text, *byte)?;
    }
    Ok(())
}

fn append_quoted_byte(text: &mut Vec<u8>, byte: u8) -> Result<(), AllocError>
    ensures { OnOk result (text.new.items ≡ text.old.items ++ quoted_path_byte byte) }
{
    if needs_no_escape(byte) {
        return Ok(text.push(byte)?);
    }
    let digits = [
        b'\\',
        b'0' + byte / 64,
        b'0' + byte / 8 % 8,
        b'0' + byte % 8,
    ];
    Ok(text.extend_from_slice(&digits)?)
}

fn needs_no_escape(byte: u8) -> bool
    ensures { result ≡ needs_no_escape byte }
{
    matches!(byte, b' '..=b'~') && byte != b'"' && byte != b'\\'
}
