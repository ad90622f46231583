//! Rendering notes.
ghost use Rattle.std.specs.Prelude.{◌≡◌, ◌++◌, IfOk, IsTrue, OnOk};
ghost use Rattle.std.specs.List.{AllByRecursion};
ghost use Rattle.camp_base.specs.Bytes.{is_name};
ghost use Rattle.camp_notes.specs.Notes.{CanBeNote};
ghost use Rattle.camp_notes.specs.Texts.{note_text, notes_text, signed_byte, signed_bytes, title_line};

use crate::{Note, NoteText};
use camp_base::Name;
use std::alloc::{AllocError, Global};

/// Renders a note.
pub fn note_text(alloc: Global, note: &Note) -> Result<Vec<u8>, AllocError>
    ensures exact { IfOk result (λ text. text.items ≡ note_text note.now) }
    ensures can { IfOk result (λ _. CanBeNote note.now) }
{
    let mut text = Vec::new(alloc);
    append_note(&mut text, &note.name, &note.text)?;
    Ok(text)
}

/// Renders notes, one after the other.
pub fn notes_text(alloc: Global, notes: &[Note]) -> Result<Vec<u8>, AllocError>
    ensures exact { IfOk result (λ text. text.items ≡ notes_text notes.now) }
    ensures can { IfOk result (λ _. AllByRecursion CanBeNote notes.now) }
{
    let mut text = Vec::new(alloc);
    for note in notes {
        append_note(&mut text, &note.name, &note.text)?;
    }
    Ok(text)
}

/// Appends a note.
pub(crate) fn append_note(
    text: &mut Vec<u8>,
    name: &Name,
    note: &NoteText,
) -> Result<(), AllocError>
    ensures text { OnOk result (text.new.items ≡ text.old.items ++ note_text (record { name = name.now; text = note.now })) }
    ensures can { OnOk result (CanBeNote (record { name = name.now; text = note.now })) }
{
    append_title(text, name)?;
    text.extend_from_slice(b"#+")?;
    append_signed(text, note.bytes())?;
    Ok(text.push(b'\n')?)
}

// Appends the header line of a note.
fn append_title(text: &mut Vec<u8>, name: &Name) -> Result<(), AllocError>
    ensures text { OnOk result (text.new.items ≡ text.old.items ++ title_line name.now) }
    ensures form { OnOk result (IsTrue (is_name name.now)) }
{
    text.extend_from_slice(b"#note ")?;
    text.extend_from_slice(name.bytes())?;
    Ok(text.push(b'\n')?)
}

// Appends the bytes of a text, with the sign of each line but the first.
fn append_signed(text: &mut Vec<u8>, bytes: &[u8]) -> Result<(), AllocError>
    ensures { OnOk result (text.new.items ≡ text.old.items ++ signed_bytes bytes.now) }
{
    for byte in bytes {
        append_byte(text, *byte)?;
    }
    Ok(())
}

// Appends a byte of a text, with the sign of the next line after a line feed.
fn append_byte(text: &mut Vec<u8>, byte: u8) -> Result<(), AllocError>
    ensures { OnOk result (text.new.items ≡ text.old.items ++ signed_byte byte) }
{
    text.push(byte)?;
    if byte == b'\n' {
        text.extend_from_slice(b"#+")?;
    }
    Ok(())
}
