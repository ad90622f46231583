//! The line of a file.
ghost use Rattle.std.specs.Prelude.{◌≡◌, ◌==◌, IfOk, IsTrue, not};
ghost use Rattle.std.specs.List.{list_all};
ghost use Rattle.std.specs.Cmp.Rules.{comparing};
ghost use Rattle.std.specs.Cmp.Lexicographic.{pointwise};
ghost use Rattle.std.proofs.Common.{rules};
ghost use Rattle.camp_base.specs.Bytes.{is_line};
ghost use Rattle.camp_base.specs.Made.{Makes};
ghost use Rattle.camp_base.specs.Signs.{newline};
ghost use Rattle.camp_base.specs.declared.faults.BaseFault.TheVariants as fault;

use crate::{BaseFault, MAX_LINE_LENGTH};
use camp_share::{Share, Shared};
use smallvec::SmallVec;
use std::alloc::{AllocError, Global};
use std::marker::Model;

/// The most bytes of a line that are stored inline, next to its reference count; a longer line has an allocation of its
/// own.
const INLINE_BYTES: usize = 48;

/// A line of a file without its line feed: 0 to 4,096 bytes, none of them LF.
#[derive(Debug, Drop)]
pub struct Line {
    bytes: Shared<SmallVec<u8, INLINE_BYTES>>,
}

impl Model for Line {
    ghost use Rattle.std.specs.Prelude.{List, ℕ, IsTrue};
    ghost use Rattle.camp_base.specs.Bytes.{is_line};

    ghost Value = { List ℕ };

    ghost view = { λ line. line.bytes.items };

    ghost invariant = { λ line. IsTrue (is_line line.bytes.items) };
}

impl Line {
    /// Makes a line of these bytes. Bytes that are not a line are an error before anything is allocated.
    pub fn new(alloc: Global, bytes: &[u8]) -> Result<Line, BaseFault>
        ensures exact { Makes (is_line bytes.now) fault.BadLine bytes.now result }
    {
        if !is_line(bytes) {
            return Err(BaseFault::BadLine);
        }
        let bytes = Shared::new(alloc, SmallVec::from_slice(alloc, bytes)?)?;
        Ok(Line { bytes })
    }

    /// Returns the bytes of the line.
    pub fn bytes(&self) -> &[u8]
        ensures value { result.now ≡ self.now }
        ensures form { IsTrue (is_line self.now) }
    {
        self.bytes.as_slice()
    }

    /// Copies the line: increments one reference count; does not allocate.
    pub fn try_clone(&self) -> Result<Line, AllocError>
        ensures exact { IfOk result (λ copy. copy ≡ self.now) }
    {
        self.share()
    }
}

impl Share for Line {
    fn share(&self) -> Result<Line, AllocError> {
        let bytes = self.bytes.share()?;
        Ok(Line { bytes })
    }
}

fn is_line(bytes: &[u8]) -> bool
    ensures { result ≡ is_line bytes.now }
{
    if bytes.len() > MAX_LINE_LENGTH {
        return false;
    }
    is_without_end(bytes)
}

fn is_without_end(bytes: &[u8]) -> bool
    ensures { result ≡ list_all (λ byte. not (byte == newline)) bytes.now }
{
    bytes.iter().all(|byte| *byte != b'\n')
}

impl PartialEq for Line {
    ghost eq = { pointwise ◌==◌ };

    ghost laws = { Prim.search (comparing, rules) };

    fn eq(&self, other: &Line) -> bool {
        self.bytes() == other.bytes()
    }
}

impl Eq for Line {
    ghost laws = { Prim.search (comparing, rules) };
}
