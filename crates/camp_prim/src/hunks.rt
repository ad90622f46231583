//! The hunk: a body at a line.
ghost use Rattle.std.specs.Prelude.{◌≡◌, ◌+◌, ◌≤◌, ◌↔◌, IfErr, IfOk, IsTrue, MatchOption, length};
ghost use Rattle.camp_base.specs.Limits.{greatest_reach};
ghost use Rattle.camp_prim.specs.Effect.{flipped};
ghost use Rattle.camp_prim.specs.Hunks.{IsInRange, hunk_of};
ghost use Rattle.camp_prim.specs.Commuting.{at_line};

use crate::bodies::{Body, SideLines};
use camp_base::{Line, Path};
use camp_share::Share;
use std::alloc::{AllocError, Global};
use std::marker::Model;

/// The greatest sum of a hunk's line and the counts of its old and of its new lines.
const MAX_REACH: usize = 1 << 30;

/// Replaces old lines by new ones at a line of a file. Lines are counted from 1; at least one side is not
/// empty; the line and the counts of old and of new lines add up to at most 2^30.
#[derive(Debug, Drop)]
pub struct Hunk {
    body: Body,
    line: u32,
    // True if the two sides of the body are exchanged.
    flipped: bool,
}

impl Model for Hunk {
    ghost use Rattle.camp_prim.specs.Hunks.{Edit, IsInRange};

    ghost Value = { Edit };

    ghost use Rattle.camp_prim.specs.Inside.HunkFields.{edit_of, IsHunk};

    ghost view = { edit_of };

    ghost invariant = { IsHunk };
}

impl Hunk {
    pub(crate) fn of_vectors(path: Path, line: u32, old: Vec<Line>, new: Vec<Line>) -> Option<Hunk>
        ensures { MatchOption result (¬ (IsInRange (hunk_of path line old.items new.items)))
            (λ hunk. IsInRange (hunk_of path line old.items new.items) × (hunk ≡ hunk_of path line old.items new.items)) }
    {
        if !is_in_range(line, old.len(), new.len()) {
            return None;
        }
        Some(Hunk {
            body: Body::own(path, old, new),
            line,
            flipped: false,
        })
    }

    pub(crate) fn of_sides(
        alloc: Global,
        path: Path,
        line: u32,
        old: SideLines,
        new: SideLines,
    ) -> Result<Option<Hunk>, AllocError>
        ensures { IfOk result (λ found. MatchOption found (¬ (IsInRange (hunk_of path line old new)))
            (λ hunk. IsInRange (hunk_of path line old new) × (hunk ≡ hunk_of path line old new))) }
    {
        if !is_in_range(line, old.len(), new.len()) {
            return Ok(None);
        }
        let body = Body::of_sides(alloc, path, old, new)?;
        let flipped = false;
        Ok(Some(Hunk {
            body,
            line,
            flipped,
        }))
    }

    /// Makes the lines reference counted, so that copies do not allocate. If memory runs out, the hunk is
    /// dropped.
    pub(crate) fn into_shared(self, alloc: Global) -> Result<Hunk, AllocError>
        ensures { IfOk result (λ hunk. hunk ≡ self) }
    {
        let Hunk {
            body,
            line,
            flipped,
        } = self;
        let body = body.into_shared(alloc)?;
        Ok(Hunk {
            body,
            line,
            flipped,
        })
    }

    /// Returns the path of the file.
    pub fn path(&self) -> &Path
        ensures value { result.now ≡ self.now.path }
        ensures in_range { IsInRange self.now }
    {
        self.body.path()
    }

    /// Returns the line at which the hunk applies, counted from 1.
    pub fn line(&self) -> u32
        ensures value { result ≡ self.now.line }
        ensures in_range { IsInRange self.now }
    {
        self.line
    }

    /// Returns the lines that the hunk replaces.
    pub fn old(&self) -> &[Line]
        ensures exact { result.now ≡ self.now.old }
    {
        if self.flipped {
            return self.body.new_lines();
        }
        self.body.old_lines()
    }

    /// Returns the lines that the hunk inserts.
    pub fn new(&self) -> &[Line]
        ensures exact { result.now ≡ self.now.new }
    {
        if self.flipped {
            return self.body.old_lines();
        }
        self.body.new_lines()
    }

    /// Returns the number of old lines.
    pub(crate) fn old_len(&self) -> usize
        ensures { result ≡ length self.now.old }
    {
        if self.flipped {
            return self.body.new_len();
        }
        self.body.old_len()
    }

    /// Returns the number of lines that the hunk inserts.
    pub(crate) fn new_len(&self) -> usize
        ensures { result ≡ length self.now.new }
    {
        if self.flipped {
            return self.body.old_len();
        }
        self.body.new_len()
    }

    /// Returns the hunk at another line, or `None` if it is out of range there. Allocates only if this hunk is
    /// not shared yet, as `try_clone` does.
    pub fn moved(&self, line: u32) -> Result<Option<Hunk>, AllocError>
        ensures exact { IfOk result (λ found. MatchOption found (¬ (IsInRange (at_line line self.now))) (λ hunk. IsInRange (at_line line self.now) × (hunk ≡ at_line line self.now))) }
        ensures memory { IfErr result (λ error. IsInRange (at_line line self.now)) }
    {
        if !self.is_in_range_at(line) {
            return Ok(None);
        }
        let mut moved = self.try_clone()?;
        moved.move_to(line);
        Ok(Some(moved))
    }

    /// Exchanges the two sides: the inverse of the hunk.
    pub(crate) fn flip(self) -> Hunk
        ensures { result ≡ flipped self }
    {
        let Hunk {
            body,
            line,
            flipped,
        } = self;
        Hunk {
            body,
            line,
            flipped: !flipped,
        }
    }

    /// True if the hunk is in range at another line.
    pub(crate) fn is_in_range_at(&self, line: u32) -> bool
        ensures { IsTrue result ↔ IsInRange (at_line line self.now) }
    {
        is_in_range(line, self.old_len(), self.new_len())
    }

    /// Sets the line of the hunk.
    pub(crate) fn move_to(&mut self, line: u32)
        requires { IsInRange (at_line line self.now) }
        ensures { self.exit.now ≡ at_line line self.entry.now }
    {
        self.line = line;
    }

    /// Copies the hunk. A hunk that is shared, or is a copy, has its reference count incremented; of any other the
    /// lines are copied as handles into a new allocation.
    pub fn try_clone(&self) -> Result<Hunk, AllocError>
        ensures exact { IfOk result (λ copy. copy ≡ self.now) }
    {
        let body = self.body.share()?;
        Ok(Hunk {
            body,
            line: self.line,
            flipped: self.flipped,
        })
    }

    /// True if path, line and both sides are equal.
    pub fn is_same(&self, other: &Hunk) -> bool
        ensures exact { IsTrue result ↔ (self.now ≡ other.now) }
    {
        if self.path() != other.path() {
            return false;
        }
        if self.line != other.line {
            return false;
        }
        if !are_same(self.old(), other.old()) {
            return false;
        }
        are_same(self.new(), other.new())
    }
}

fn are_same(lines: &[Line], others: &[Line]) -> bool
    ensures { IsTrue result ↔ (lines.now ≡ others.now) }
{
    lines == others
}

fn is_in_range(line: u32, old: usize, new: usize) -> bool
    ensures { IsTrue result ↔ ((1 ≤ line) × (1 ≤ old + new) × (line + old + new ≤ greatest_reach)) }
{
    if line == 0 || (old == 0 && new == 0) {
        return false;
    }
    if old > MAX_REACH || new > MAX_REACH {
        return false;
    }
    line as usize + old + new <= MAX_REACH
}
