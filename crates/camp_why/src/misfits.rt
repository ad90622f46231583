//! Why a change does not apply to a tree.
ghost use Rattle.std.specs.Prelude.{◌≡◌, ◌-◌, IfOk, Some, drop};
ghost use Rattle.camp_prim.specs.declared.primitives.Primitive.TheVariants.{Hunk as AHunk, Remove};
ghost use Rattle.camp_why.specs.Misfits.{ends_before, find_misfit, other_line};

use camp_base::{Line, Path, Tree};
use camp_prim::{Hunk, Primitive};
use camp_share::SharedList;
use std::alloc::AllocError;

/// Why a change does not apply to a tree.
#[derive(Debug, Drop)]
pub enum Misfit {
    /// The change adds a file at a path that has one.
    FileIsThere,
    /// The change removes or edits a file at a path that has none.
    NoFile,
    /// The change removes a file that still has this number of lines.
    HasLines(usize),
    /// An edit reaches past the last line of the file: the file has `has` lines, and the edit needs at least
    /// `wants`. `lacks` is the first old line past its end, and would be line `at`, counted from 1.
    EndsBefore {
        has: usize,
        wants: usize,
        at: usize,
        lacks: Option<Line>,
    },
    /// At this line, counted from 1, the file differs from what an edit removes.
    OtherLine {
        at: usize,
        actual: Line,
        expected: Line,
    },
}

/// Returns why a change does not apply to a tree; `None` if it does.
pub fn find_misfit(change: &Primitive, tree: &Tree) -> Result<Option<Misfit>, AllocError>
    ensures exact { IfOk result (λ found. found ≡ find_misfit change.now tree.now) }
{
    match change {
        Primitive::Add(path) => Ok(tree.file(path).map(|_| Misfit::FileIsThere)),
        Primitive::Remove(path) => Ok(remove_misfit(path, tree)),
        Primitive::Hunk(hunk) => edit_misfit(hunk, tree),
    }
}

fn remove_misfit(path: &Path, tree: &Tree) -> Option<Misfit>
    ensures { result ≡ find_misfit (Remove path.now) tree.now }
{
    let Some(lines) = tree.file(path) else {
        return Some(Misfit::NoFile);
    };
    if lines.is_empty() {
        return None;
    }
    Some(Misfit::HasLines(lines.len()))
}

fn edit_misfit(hunk: &Hunk, tree: &Tree) -> Result<Option<Misfit>, AllocError>
    ensures { IfOk result (λ found. found ≡ find_misfit (AHunk hunk.now) tree.now) }
{
    let Some(lines) = tree.file(hunk.path()) else {
        return Ok(Some(Misfit::NoFile));
    };
    match other_line(hunk, lines)? {
        Some(other) => Ok(Some(other)),
        None => ends_before(hunk, lines.len()),
    }
}

// Returns the first line that differs from the old line of an edit; `None` if no line does.
fn other_line(hunk: &Hunk, lines: &SharedList<Line>) -> Result<Option<Misfit>, AllocError>
    ensures { IfOk result (λ found.
        found ≡ other_line hunk.now.line hunk.now.old (drop (hunk.now.line - 1) lines.now)) }
{
    let from = hunk.line() as usize - 1;
    let old = hunk.old();
    for (at, expected) in old.iter().enumerate() {
        let Some(actual) = lines.get(from + at) else {
            return Ok(None);
        };
        if actual != expected {
            let actual = actual.try_clone()?;
            let expected = expected.try_clone()?;
            return Ok(Some(Misfit::OtherLine {
                at: from + at + 1,
                actual,
                expected,
            }));
        }
    }
    Ok(None)
}

// Returns the reason if an edit reaches past the end of a file with `has` lines; else `None`.
fn ends_before(hunk: &Hunk, has: usize) -> Result<Option<Misfit>, AllocError>
    ensures { IfOk result (λ found. found ≡ ends_before hunk.now has) }
{
    let from = hunk.line() as usize - 1;
    let old = hunk.old();
    let wants = from + old.len();
    if has >= wants {
        return Ok(None);
    }
    let found = has.saturating_sub(from);
    let lacks = match old.get(found) {
        Some(line) => Some(line.try_clone()?),
        None => None,
    };
    Ok(Some(Misfit::EndsBefore {
        has,
        wants,
        at: from + found + 1,
        lacks,
    }))
}
