//! Lines as camp stores them: unchanged, or in pieces.

ghost use Rattle.std.specs.Prelude.{◌≡◌, ◌++◌, ◌∷◌, [], map, IfOk, OnOk};
ghost use Rattle.std.specs.List.{flat_map, list_any};
ghost use Rattle.camp_coding.specs.Contents.{is_too_long, wrapped};

use crate::pieces::{ENDS, GOES_ON};
use camp_base::{BaseFault, Line, MAX_LINE_LENGTH};
use std::alloc::{AllocError, Global};

/// The most bytes of a line in one piece.
const MAX_PIECE: usize = MAX_LINE_LENGTH - 1;

/// Returns true if one of the lines is longer than camp allows.
pub(crate) fn has_long_line(lines: &[&[u8]]) -> bool
    ensures { result ≡ list_any is_too_long (map (λ line. line.now) lines.now) }
{
    for line in lines {
        if line.len() > MAX_LINE_LENGTH {
            return true;
        }
    }
    false
}

/// Returns lines unchanged, as camp stores them.
pub(crate) fn store_plain(alloc: Global, lines: &[&[u8]]) -> Result<Vec<Line>, BaseFault>
    ensures { IfOk result (λ stored. stored.items ≡ map (λ line. line.now) lines.now) }
{
    let mut stored = Vec::new(alloc);
    for line in lines {
        append_stored(&mut stored, line)?;
    }
    Ok(stored)
}

/// Returns lines in pieces, as camp stores them.
pub(crate) fn store_wrapped(alloc: Global, lines: &[&[u8]]) -> Result<Vec<Line>, BaseFault>
    ensures { IfOk result (λ stored. stored.items ≡ flat_map wrapped (map (λ line. line.now) lines.now)) }
{
    let mut stored = Vec::new(alloc);
    for line in lines {
        append_wrapped(&mut stored, line)?;
    }
    Ok(stored)
}

fn append_wrapped(stored: &mut Vec<Line>, line: &[u8]) -> Result<(), BaseFault>
    ensures { OnOk result (stored.new.items ≡ stored.old.items ++ wrapped line.now) }
{
    let mut rest = line;
    'pieces: while rest.len() > MAX_PIECE {
        let (piece, after) = rest.split_at(MAX_PIECE);
        append_marked(stored, GOES_ON, piece)?;
        rest = after;
    }
    append_marked(stored, ENDS, rest)?;
    Ok(())
}

fn append_marked(stored: &mut Vec<Line>, mark: u8, bytes: &[u8]) -> Result<(), BaseFault>
    ensures { OnOk result (stored.new.items ≡ stored.old.items ++ (mark ∷ bytes.now) ∷ []) }
{
    let piece = marked(*stored.allocator(), mark, bytes)?;
    append_stored(stored, &piece)
}

fn marked(alloc: Global, mark: u8, bytes: &[u8]) -> Result<Vec<u8>, AllocError>
    ensures { IfOk result (λ piece. piece.items ≡ mark ∷ bytes.now) }
{
    let mut piece = Vec::new(alloc);
    piece.push(mark)?;
    piece.extend_from_slice(bytes)?;
    Ok(piece)
}

fn append_stored(stored: &mut Vec<Line>, bytes: &[u8]) -> Result<(), BaseFault>
    ensures { OnOk result (stored.new.items ≡ stored.old.items ++ bytes.now ∷ []) }
{
    let line = Line::new(*stored.allocator(), bytes)?;
    Ok(append_line(stored, line)?)
}

fn append_line(stored: &mut Vec<Line>, line: Line) -> Result<(), AllocError>
    ensures { OnOk result (stored.new.items ≡ stored.old.items ++ line ∷ []) }
{
    Ok(stored.push(line)?)
}
