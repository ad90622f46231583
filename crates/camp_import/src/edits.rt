//! The changes of the lines of one file.

ghost use Rattle.std.specs.Prelude.{◌≡◌, ◌≤◌, ◌<◌, ◌++◌, ◌∷◌, [], IfOk, MatchOption, OnOk, Some, length};
ghost use Rattle.camp_diff.specs.EditScripts.{IsWithin};
ghost use Rattle.camp_import.specs.Inside.Growing.{GrowsByFile, GrowsByFileOr, GrowsByHunk, IsFirstPiece, IsShort, primitive_of};
ghost use Rattle.camp_import.specs.declared.edits.ChangeFault.TheVariants as fault;

use camp_base::{Line, Path};
use camp_diff::{DiffHunk, diff};
use camp_prim::Primitive;
use std::alloc::{AllocError, AllocFailed, Global};
use thiserror::Error;

/// The most lines of a file.
pub(crate) const MAX_LINES: usize = 1_000_000;

/// The most lines of a side of a hunk that a script can hold.
const MAX_SIDE: usize = 65_535;

/// Why the changes between two trees were not made.
#[derive(Clone, Copy, PartialEq, Eq, Debug, Error)]
pub enum ChangeFault {
    /// A file has more than 1,000,000 lines.
    #[error("more than 1,000,000 lines")]
    TooManyLines,
    /// Out of memory.
    #[error("out of memory")]
    Memory,
}

impl From<AllocError> for ChangeFault {
    ghost from_gives = { λ _ e. e ≡ fault.Memory };

    fn from(_error: AllocError) -> ChangeFault {
        ChangeFault::Memory
    }
}

impl<T: Drop> From<AllocFailed<T>> for ChangeFault {
    ghost from_gives = { λ _ e. e ≡ fault.Memory };

    fn from(_error: AllocFailed<T>) -> ChangeFault {
        ChangeFault::Memory
    }
}

/// Appends the hunks that lead from the old lines of the file at a path to the new ones.
pub(crate) fn append_edits(
    alloc: Global,
    changes: &mut Vec<Primitive>,
    path: &Path,
    old: &[Line],
    new: &[Line],
) -> Result<(), ChangeFault>
    ensures { GrowsByFileOr path.now (Some old.now) (Some new.now) changes.old.items result changes.new.items }
{
    if old.len() > MAX_LINES || new.len() > MAX_LINES {
        return Err(ChangeFault::TooManyLines);
    }
    Ok(append_script(alloc, changes, path, old, new)?)
}

fn append_script(
    alloc: Global,
    changes: &mut Vec<Primitive>,
    path: &Path,
    old: &[Line],
    new: &[Line],
) -> Result<(), AllocError>
    requires old_short { length old.now ≤ 1_000_000 }
    requires new_short { length new.now ≤ 1_000_000 }
    ensures { OnOk result (GrowsByFile path.now (Some old.now) (Some new.now) changes.old.items changes.new.items) }
{
    let hunks = diff(alloc, old, new)?;
    for hunk in &hunks {
        append_pieces(alloc, changes, path, old, new, *hunk)?;
    }
    Ok(())
}

/// Appends the changes of one hunk: one, or several if a side has more than 65,535 lines.
fn append_pieces(
    alloc: Global,
    changes: &mut Vec<Primitive>,
    path: &Path,
    old: &[Line],
    new: &[Line],
    hunk: DiffHunk,
) -> Result<(), AllocError>
    requires within { IsWithin old.now new.now hunk }
    requires old_short { length old.now ≤ 1_000_000 }
    requires new_short { length new.now ≤ 1_000_000 }
    ensures { OnOk result (GrowsByHunk path.now old.now new.now hunk changes.old.items changes.new.items) }
{
    let Some(piece) = first_piece(hunk) else {
        return append_hunk(alloc, changes, path, old, new, hunk);
    };
    append_hunk(alloc, changes, path, old, new, piece)?;
    let rest = DiffHunk {
        old_start: piece.old_end,
        old_end: hunk.old_end,
        new_start: piece.new_end,
        new_end: hunk.new_end,
    };
    append_pieces(alloc, changes, path, old, new, rest)
}

/// Returns the first piece of a hunk that is too long: as many old lines as a side may have or, if all old lines fit,
/// these and as many new ones as fit. `None` if neither side is too long.
fn first_piece(hunk: DiffHunk) -> Option<DiffHunk>
    requires old_ordered { hunk.old_start ≤ hunk.old_end }
    requires new_ordered { hunk.new_start ≤ hunk.new_end }
    ensures { MatchOption result (IsShort hunk) (λ piece. IsFirstPiece hunk piece) }
{
    if hunk.old_end - hunk.old_start > MAX_SIDE {
        return Some(DiffHunk {
            old_start: hunk.old_start,
            old_end: hunk.old_start + MAX_SIDE,
            new_start: hunk.new_start,
            new_end: hunk.new_start,
        });
    }
    if hunk.new_end - hunk.new_start > MAX_SIDE {
        return Some(DiffHunk {
            old_start: hunk.old_start,
            old_end: hunk.old_end,
            new_start: hunk.new_start,
            new_end: hunk.new_start + MAX_SIDE,
        });
    }
    None
}

fn append_hunk(
    alloc: Global,
    changes: &mut Vec<Primitive>,
    path: &Path,
    old: &[Line],
    new: &[Line],
    hunk: DiffHunk,
) -> Result<(), AllocError>
    requires within { IsWithin old.now new.now hunk }
    requires old_short { length old.now ≤ 1_000_000 }
    requires new_short { length new.now ≤ 1_000_000 }
    ensures { OnOk result (changes.new.items ≡ changes.old.items ++ primitive_of path.now old.now new.now hunk ∷ []) }
{
    let gone = copy_lines(alloc, &old[hunk.old_start..hunk.old_end])?;
    let come = copy_lines(alloc, &new[hunk.new_start..hunk.new_end])?;
    let line = hunk.new_start as u32 + 1;
    match Primitive::hunk(path.try_clone()?, line, gone, come) {
        Some(change) => Ok(changes.push(change)?),
        None => Err(AllocError),
    }
}

fn copy_lines(alloc: Global, lines: &[Line]) -> Result<Vec<Line>, AllocError>
    ensures { IfOk result (λ copied. copied.items ≡ lines.now) }
{
    let mut copied = Vec::with_capacity(alloc, lines.len())?;
    for line in lines {
        copied.push(line.try_clone()?)?;
    }
    Ok(copied)
}
