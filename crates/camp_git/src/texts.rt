//! The parts of the commands of `git fast-import`.
ghost use Rattle.std.specs.Prelude.{◌≡◌, ◌++◌, OnOk, IfOk, decimal};
ghost use Rattle.std.specs.List.{flat_map};
ghost use Rattle.camp_git.specs.Exports.{content_of};
ghost use Rattle.camp_git.specs.FastImport.{CanBeNamed, data_text, escaped, escaped_byte, line, path_text};

use camp_base::{Line, Name, Path};
use camp_share::SharedList;
use itoa::Buffer;
use std::alloc::AllocError;

/// Appends parts, one after the other.
pub(crate) fn append_parts(text: &mut Vec<u8>, parts: &[&[u8]]) -> Result<(), AllocError>
    ensures { OnOk result (text.new.items ≡ text.old.items ++ flat_map (λ part. part.now) parts.now) }
{
    for part in parts {
        text.extend_from_slice(part)?;
    }
    Ok(())
}

/// Appends a line of a word and a number.
pub(crate) fn append_numbered(
    text: &mut Vec<u8>,
    word: &[u8],
    number: u64,
) -> Result<(), AllocError>
    ensures { OnOk result (text.new.items ≡ text.old.items ++ line (word.now ++ decimal number)) }
{
    let mut digits = Buffer::new();
    append_parts(text, &[word, digits.format(number).as_bytes(), b"\n"])
}

/// Appends the message of a commit: the name of the patch and a line feed.
pub(crate) fn append_message(text: &mut Vec<u8>, name: &Name) -> Result<(), AllocError>
    ensures { OnOk result (text.new.items ≡ text.old.items ++ data_text (line name.now)) }
{
    append_numbered(text, b"data ", name.bytes().len() as u64 + 1)?;
    append_parts(text, &[name.bytes(), b"\n\n"])
}

/// Appends the lines of a file as data, each with a line feed at its end.
pub(crate) fn append_content(text: &mut Vec<u8>, lines: &SharedList<Line>) -> Result<(), AllocError>
    ensures { OnOk result (text.new.items ≡ text.old.items ++ data_text (content_of lines.now)) }
{
    let mut content = Vec::new(*text.allocator());
    for line in lines.iter() {
        append_parts(&mut content, &[line.bytes(), b"\n"])?;
    }
    append_numbered(text, b"data ", content.len() as u64)?;
    append_parts(text, &[content.as_slice(), b"\n"])
}

/// Appends a path: in quotes if it begins with a quote, else unchanged.
pub(crate) fn append_path(text: &mut Vec<u8>, path: &Path) -> Result<(), AllocError>
    ensures text { OnOk result (text.new.items ≡ text.old.items ++ path_text path.now) }
    ensures named { IfOk result (λ _. CanBeNamed path.now) }
{
    let bytes = path.bytes();
    if bytes[0] != b'"' {
        return Ok(text.extend_from_slice(bytes)?);
    }
    text.push(b'"')?;
    append_escaped(text, bytes)?;
    Ok(text.push(b'"')?)
}

fn append_escaped(text: &mut Vec<u8>, bytes: &[u8]) -> Result<(), AllocError>
    ensures { OnOk result (text.new.items ≡ text.old.items ++ escaped bytes.now) }
{
    for byte in bytes {
        append_escaped_byte(text, *byte)?;
    }
    Ok(())
}

fn append_escaped_byte(text: &mut Vec<u8>, byte: u8) -> Result<(), AllocError>
    ensures { OnOk result (text.new.items ≡ text.old.items ++ escaped_byte byte) }
{
    if byte == b'"' || byte == b'\\' {
        text.push(b'\\')?;
    }
    Ok(text.push(byte)?)
}
