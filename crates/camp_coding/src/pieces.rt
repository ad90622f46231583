//! Stored lines as text: unchanged, or joined from pieces.

ghost use Rattle.std.specs.Prelude.{◌≡◌, ◌++◌, true, false, IfOk, OnOk};
ghost use Rattle.camp_coding.specs.Contents.{are_pieces, ended_line, ends_line, has_mark, piece_content, stored_text};

use camp_base::Line;
use std::alloc::{AllocError, Global};

/// The mark of a piece whose line continues.
pub(crate) const GOES_ON: u8 = b'+';

/// The mark of the last piece of a line.
pub(crate) const ENDS: u8 = b'=';

/// Returns true if stored lines are pieces of whole lines.
pub(crate) fn are_pieces(stored: &[Line]) -> bool
    ensures { result ≡ are_pieces stored.now }
{
    let mut is_ended = true;
    'pieces: for piece in stored {
        if !has_mark(piece.bytes()) {
            return false;
        }
        is_ended = ends_line(piece.bytes());
    }
    is_ended
}

/// Joins stored lines or pieces, with a line feed after each line.
pub(crate) fn join_stored(
    alloc: Global,
    stored: &[Line],
    is_wrapped: bool,
) -> Result<Vec<u8>, AllocError>
    ensures { IfOk result (λ text. text.items ≡ stored_text is_wrapped stored.now) }
{
    if is_wrapped {
        return join_pieces(alloc, stored);
    }
    join_lines(alloc, stored)
}

fn join_pieces(alloc: Global, stored: &[Line]) -> Result<Vec<u8>, AllocError>
    ensures { IfOk result (λ text. text.items ≡ stored_text true stored.now) }
{
    let mut text = Vec::new(alloc);
    for piece in stored {
        append_piece(&mut text, piece.bytes())?;
    }
    Ok(text)
}

fn join_lines(alloc: Global, stored: &[Line]) -> Result<Vec<u8>, AllocError>
    ensures { IfOk result (λ text. text.items ≡ stored_text false stored.now) }
{
    let mut text = Vec::new(alloc);
    for line in stored {
        append_line(&mut text, line.bytes())?;
    }
    Ok(text)
}

fn append_piece(text: &mut Vec<u8>, piece: &[u8]) -> Result<(), AllocError>
    ensures { OnOk result (text.new.items ≡ text.old.items ++ piece_content piece.now) }
{
    if piece.is_empty() {
        return Ok(());
    }
    if piece[0] == ENDS {
        return append_line(text, &piece[1..]);
    }
    Ok(text.extend_from_slice(&piece[1..])?)
}

fn append_line(text: &mut Vec<u8>, line: &[u8]) -> Result<(), AllocError>
    ensures { OnOk result (text.new.items ≡ text.old.items ++ ended_line line.now) }
{
    text.extend_from_slice(line)?;
    Ok(text.push(b'\n')?)
}

fn has_mark(piece: &[u8]) -> bool
    ensures { result ≡ has_mark piece.now }
{
    !piece.is_empty() && (piece[0] == ENDS || piece[0] == GOES_ON)
}

fn ends_line(piece: &[u8]) -> bool
    ensures { result ≡ ends_line piece.now }
{
    !piece.is_empty() && piece[0] == ENDS
}
