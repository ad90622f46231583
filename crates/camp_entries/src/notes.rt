//! Notes: lines that begin with `#`.
ghost use Rattle.std.specs.Prelude.{◌≡◌, ◌≤◌, ◌<◌, ◌↔◌, length, IsTrue};
ghost use Rattle.camp_entries.specs.Inside.{IsLineLength, IsNoteLength};
ghost use Rattle.camp_entries.specs.Texts.{IsNote, begins_note};

/// True if bytes are a note.
pub(crate) fn is_note(bytes: &[u8]) -> bool
    ensures { IsTrue result ↔ IsNote bytes.now }
{
    note_len(bytes) == bytes.len()
}

/// Returns the length in bytes of the note at the start of a text; 0 if there is none.
pub(crate) fn note_len(text: &[u8]) -> usize
    ensures { IsNoteLength text.now result }
{
    let mut at = 0;
    for _ in 0..text.len() {
        let rest = &text[at..];
        if !rest.starts_with(b"#".as_slice()) {
            return at;
        }
        let Some(line) = line_len(rest) else {
            return at;
        };
        at += line;
    }
    at
}

/// Returns the length in bytes of the first line of a text, with its line feed; `None` if there is no line feed.
pub(crate) fn line_len(text: &[u8]) -> Option<usize>
    ensures { IsLineLength text.now result }
{
    for at in 0..text.len() {
        if text[at] == b'\n' {
            return Some(at + 1);
        }
    }
    None
}
