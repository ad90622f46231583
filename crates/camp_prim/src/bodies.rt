//! The body of a hunk: its path and its two sides, without the line.
ghost use Rattle.std.specs.Prelude.{◌≡◌, ◌==◌, [], ◌∷◌, ◌++◌, IfOk, OnOk, length};
ghost use Rattle.camp_prim.specs.Inside.BodyFields.{side_lines};

use camp_base::{Line, Path};
use camp_share::{Share, Shared};
use std::alloc::{AllocError, Global};
use std::marker::Model;
use std::{mem, slice};

/// What a hunk does at whatever line it applies: replaces old lines by new ones in the file at a path.
#[derive(Debug, Drop)]
pub(crate) struct Body {
    held: BodyStorage,
}

// How the lines of a body are stored: in the vectors that it was given until it is shared or copied, and then reference
// counted.
#[derive(Debug, Drop)]
enum BodyStorage {
    Own(Vectors),
    Shared(Shared<Parts>),
}

#[derive(Debug, Drop)]
struct Vectors {
    path: Path,
    old: Vec<Line>,
    new: Vec<Line>,
}

#[derive(Debug, Drop)]
struct Parts {
    path: Path,
    old: Side,
    new: Side,
}

// One side of a hunk. Most sides have at most one line; these do not allocate.
#[derive(Debug, Drop)]
enum Side {
    Empty,
    One(Line),
    Many(Vec<Line>),
}

/// The lines of one side of a hunk, in order. A side of at most one line does not allocate.
#[derive(Debug, Drop)]
pub struct SideLines {
    side: Side,
}

impl Model for SideLines {
    ghost use Rattle.std.specs.Prelude.{ℕ, List};
    ghost use Rattle.camp_prim.specs.Inside.BodyFields.{side_lines};

    ghost Value = { List (List ℕ) };

    ghost view = { λ lines. side_lines lines.side };
}

impl SideLines {
    /// Makes a side without lines; does not allocate.
    pub fn new() -> SideLines
        ensures exact { result ≡ [] }
    {
        SideLines { side: Side::Empty }
    }

    /// Returns the number of lines.
    pub fn len(&self) -> usize
        ensures exact { result ≡ length self.now }
    {
        self.side.len()
    }

    /// True if there is no line.
    pub fn is_empty(&self) -> bool
        ensures exact { result ≡ (length self.now == 0) }
    {
        self.len() == 0
    }

    /// Appends a line. The first does not allocate.
    pub fn push(&mut self, alloc: Global, line: Line) -> Result<(), AllocError>
        ensures exact { OnOk result (self.new ≡ self.old ++ line ∷ []) }
    {
        let side = mem::replace(&mut self.side, Side::Empty);
        self.side = side.with(alloc, line)?;
        Ok(())
    }
}

impl Model for Body {
    ghost use Rattle.camp_prim.specs.Inside.Replacements.{Replacement};
    ghost use Rattle.camp_prim.specs.Inside.BodyFields.{replacement_of};

    ghost Value = { Replacement };

    ghost view = { λ body. replacement_of body.held };
}

impl Body {
    /// Makes the body of a path and two sides. Does not allocate.
    pub(crate) fn own(path: Path, old: Vec<Line>, new: Vec<Line>) -> Body
        ensures { result ≡ record { path = path; old = old.items; new = new.items } }
    {
        let held = BodyStorage::Own(Vectors { path, old, new });
        Body { held }
    }

    /// Makes the reference-counted body of a path and two sides.
    pub(crate) fn of_sides(
        alloc: Global,
        path: Path,
        old: SideLines,
        new: SideLines,
    ) -> Result<Body, AllocError>
        ensures { IfOk result (λ body. body ≡ record { path = path; old = old; new = new }) }
    {
        let (old, new) = (old.side, new.side);
        let parts = Shared::new(alloc, Parts { path, old, new })?;
        Ok(Body {
            held: BodyStorage::Shared(parts),
        })
    }

    /// Makes the body reference counted. If memory runs out, it is dropped.
    pub(crate) fn into_shared(self, alloc: Global) -> Result<Body, AllocError>
        ensures { IfOk result (λ body. body ≡ self) }
    {
        match self.held {
            BodyStorage::Own(own) => share_vectors(alloc, own),
            BodyStorage::Shared(parts) => Ok(Body {
                held: BodyStorage::Shared(parts),
            }),
        }
    }

    /// Returns the path of the file.
    pub(crate) fn path(&self) -> &Path
        ensures { result.now ≡ self.now.path }
    {
        match &self.held {
            BodyStorage::Own(own) => &own.path,
            BodyStorage::Shared(parts) => &parts.path,
        }
    }

    /// Returns the old lines in order.
    pub(crate) fn old_lines(&self) -> &[Line]
        ensures { result.now ≡ self.now.old }
    {
        match &self.held {
            BodyStorage::Own(own) => &own.old,
            BodyStorage::Shared(parts) => parts.old.as_slice(),
        }
    }

    /// Returns the new lines in order.
    pub(crate) fn new_lines(&self) -> &[Line]
        ensures { result.now ≡ self.now.new }
    {
        match &self.held {
            BodyStorage::Own(own) => &own.new,
            BodyStorage::Shared(parts) => parts.new.as_slice(),
        }
    }

    /// Returns the number of old lines.
    pub(crate) fn old_len(&self) -> usize
        ensures { result ≡ length self.now.old }
    {
        match &self.held {
            BodyStorage::Own(own) => own.old.len(),
            BodyStorage::Shared(parts) => parts.old.len(),
        }
    }

    /// Returns the number of new lines.
    pub(crate) fn new_len(&self) -> usize
        ensures { result ≡ length self.now.new }
    {
        match &self.held {
            BodyStorage::Own(own) => own.new.len(),
            BodyStorage::Shared(parts) => parts.new.len(),
        }
    }
}

impl Share for Body {
    /// Makes a reference-counted copy. Allocates only if this body is not shared yet.
    fn share(&self) -> Result<Body, AllocError> {
        match &self.held {
            BodyStorage::Own(own) => own.copy(),
            BodyStorage::Shared(parts) => {
                let parts = parts.share()?;
                Ok(Body {
                    held: BodyStorage::Shared(parts),
                })
            }
        }
    }
}

impl Vectors {
    fn copy(&self) -> Result<Body, AllocError>
        ensures { IfOk result (λ body. body ≡ record { path = self.now.path; old = self.now.old.items; new = self.now.new.items }) }
    {
        let copy = Vectors {
            path: self.path.try_clone()?,
            old: copy_lines(&self.old)?,
            new: copy_lines(&self.new)?,
        };
        share_vectors(*self.old.allocator(), copy)
    }
}

fn share_vectors(alloc: Global, own: Vectors) -> Result<Body, AllocError>
    ensures { IfOk result (λ body. body ≡ record { path = own.path; old = own.old.items; new = own.new.items }) }
{
    let Vectors { path, old, new } = own;
    let (old, new) = (Side::of(old), Side::of(new));
    let parts = Shared::new(alloc, Parts { path, old, new })?;
    Ok(Body {
        held: BodyStorage::Shared(parts),
    })
}

fn copy_lines(lines: &Vec<Line>) -> Result<Vec<Line>, AllocError>
    ensures { IfOk result (λ copy. copy.items ≡ lines.now.items) }
{
    let mut copy = Vec::with_capacity(*lines.allocator(), lines.len())?;
    for line in lines {
        copy.push(line.try_clone()?)?;
    }
    Ok(copy)
}

impl Side {
    fn with(self, alloc: Global, line: Line) -> Result<Side, AllocError>
        ensures { IfOk result (λ side. side_lines side ≡ side_lines self ++ line ∷ []) }
    {
        match self {
            Side::Empty => Ok(Side::One(line)),
            Side::One(first) => {
                let mut lines = Vec::with_capacity(alloc, 2)?;
                lines.push(first)?;
                lines.push(line)?;
                Ok(Side::Many(lines))
            }
            Side::Many(mut lines) => {
                lines.push(line)?;
                Ok(Side::Many(lines))
            }
        }
    }

    fn of(mut lines: Vec<Line>) -> Side
        ensures { side_lines result ≡ lines.items }
    {
        if lines.len() > 1 {
            return Side::Many(lines);
        }
        match lines.pop() {
            Some(line) => Side::One(line),
            None => Side::Empty,
        }
    }

    fn len(&self) -> usize
        ensures { result ≡ length (side_lines self.now) }
    {
        match self {
            Side::Empty => 0,
            Side::One(_) => 1,
            Side::Many(lines) => lines.len(),
        }
    }

    fn as_slice(&self) -> &[Line]
        ensures { result.now ≡ side_lines self.now }
    {
        match self {
            Side::Empty => &[],
            Side::One(line) => slice::from_ref(line),
            Side::Many(lines) => lines,
        }
    }
}
