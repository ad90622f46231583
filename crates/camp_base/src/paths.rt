//! The path of a file.
ghost use Rattle.std.specs.Prelude.{◌≡◌, ◌==◌, IfOk, IsTrue, Some};
ghost use Rattle.std.specs.List.{list_all};
ghost use Rattle.std.specs.Ordering.{nat_cmp, as_partial_cmp};
ghost use Rattle.std.specs.Cmp.{partial_order_from_own_ties};
ghost use Rattle.std.specs.Cmp.Rules.{comparing};
ghost use Rattle.std.specs.Cmp.Lexicographic.{slice_cmp, pointwise};
ghost use Rattle.std.specs.FinMap.{nat_cmp-IsAntisymmetric, slice_cmp-IsAntisymmetric};
ghost use Rattle.std.proofs.Common.{rules};
ghost use Rattle.camp_base.specs.Bytes.{is_path, is_path_part, path_parts};
ghost use Rattle.camp_base.specs.Signs.{is_graphic};
ghost use Rattle.camp_base.specs.Inside.NameFields.{spelt};
ghost use Rattle.camp_base.specs.Inside.PathFields.{last_eight};
ghost use Rattle.camp_base.specs.Made.{Makes};
ghost use Rattle.camp_base.specs.declared.faults.BaseFault.TheVariants as fault;

use crate::bytes::order;
use crate::{BaseFault, MAX_PATH_LENGTH};
use camp_share::{Key, Share, Shared};
use smallvec::SmallVec;
use std::alloc::{AllocError, Global};
use std::cmp::Ordering;
use std::marker::Model;
use std::{fmt, str};

/// The most bytes of a path that are stored inline, next to its reference count; a longer path has an allocation of its
/// own.
const INLINE_BYTES: usize = 48;

/// The path of a file: 1 to 200 bytes from 0x21 to 0x7e. The components between `/` are not empty, not `.`
/// and not `..`. Paths are plain keys, ordered by their bytes: `d` and `d/e` may both be files.
#[derive(Debug, Drop)]
pub struct Path {
    bytes: Shared<SmallVec<u8, INLINE_BYTES>>,
    // The last eight bytes as a big-endian number, padded with zeros. No byte of a path is zero, so paths
    // with different numbers differ, and paths of up to eight bytes are equal if their numbers are.
    tail: u64,
}

impl Model for Path {
    ghost use Rattle.std.specs.Prelude.{List, ℕ};
    ghost use Rattle.camp_base.specs.Inside.PathFields.{IsKept};

    ghost Value = { List ℕ };

    ghost view = { λ path. path.bytes.items };

    ghost invariant = { IsKept };
}

impl Path {
    /// Makes the path that the bytes spell. Bytes that are not a path are an error before anything is
    /// allocated.
    pub fn new(alloc: Global, bytes: &[u8]) -> Result<Path, BaseFault>
        ensures exact { Makes (is_path bytes.now) fault.BadPath bytes.now result }
    {
        if !is_path(bytes) {
            return Err(BaseFault::BadPath);
        }
        let tail = tail_of(bytes);
        let bytes = Shared::new(alloc, SmallVec::from_slice(alloc, bytes)?)?;
        Ok(Path { bytes, tail })
    }

    /// Returns the bytes of the path.
    pub fn bytes(&self) -> &[u8]
        ensures value { result.now ≡ self.now }
        ensures form { IsTrue (is_path self.now) }
    {
        self.bytes.as_slice()
    }

    /// Copies the path: increments one reference count; does not allocate.
    pub fn try_clone(&self) -> Result<Path, AllocError>
        ensures exact { IfOk result (λ copy. copy ≡ self.now) }
    {
        self.share()
    }
}

impl Share for Path {
    fn share(&self) -> Result<Path, AllocError> {
        let bytes = self.bytes.share()?;
        Ok(Path {
            bytes,
            tail: self.tail,
        })
    }
}

impl Key for Path {
    ghost same = { slice_cmp-IsAntisymmetric nat_cmp-IsAntisymmetric };
}

// Computes the last eight bytes as a big-endian number; fewer bytes are padded with zeros at the end.
fn tail_of(bytes: &[u8]) -> u64
    ensures { result ≡ spelt 8 0 (last_eight bytes.now) }
{
    let tail = &bytes[bytes.len().saturating_sub(8)..];
    let mut buffer = [0; 8];
    buffer[..tail.len()].copy_from_slice(tail);
    u64::from_be_bytes(buffer)
}

fn is_path(bytes: &[u8]) -> bool
    ensures { result ≡ is_path bytes.now }
{
    if bytes.len() > MAX_PATH_LENGTH {
        return false;
    }
    is_graphic(bytes) && has_path_parts(bytes)
}

fn is_graphic(bytes: &[u8]) -> bool
    ensures { result ≡ list_all is_graphic bytes.now }
{
    bytes.iter().all(|byte| matches!(byte, 0x21..=0x7e))
}

fn has_path_parts(bytes: &[u8]) -> bool
    ensures { result ≡ list_all is_path_part (path_parts bytes.now) }
{
    bytes
        .split(|byte| *byte == b'/')
        .all(|part| is_path_part(part))
}

fn is_path_part(part: &[u8]) -> bool
    ensures { result ≡ is_path_part part.now }
{
    !part.is_empty() && part != b".".as_slice() && part != b"..".as_slice()
}

impl PartialEq for Path {
    ghost eq = { pointwise ◌==◌ };

    ghost laws = { Prim.search (comparing, rules) };

    fn eq(&self, other: &Path) -> bool {
        if self.tail != other.tail {
            return false;
        }
        if self.bytes().len() <= 8 && other.bytes().len() <= 8 {
            return true;
        }
        self.bytes() == other.bytes()
    }
}

impl Eq for Path {
    ghost laws = { Prim.search (comparing, rules) };
}

impl PartialOrd for Path {
    ghost partial_cmp = { as_partial_cmp (slice_cmp nat_cmp) };

    ghost laws = { partial_order_from_own_ties (Prim.search (comparing, rules))
        (Prim.search (comparing, rules)) };

    fn partial_cmp(&self, other: &Path) -> Option<Ordering> {
        Some(self.cmp(other))
    }
}

impl Ord for Path {
    ghost cmp = { slice_cmp nat_cmp };

    ghost total = { Prim.search (comparing, rules) };

    ghost matches_partial_cmp = { Prim.search (comparing, rules) };

    ghost matches_eq = { Prim.search (comparing, rules) };

    fn cmp(&self, other: &Path) -> Ordering {
        order(self.bytes(), other.bytes())
    }
}

impl fmt::Display for Path {
    ghost output = { λ path. Some path };

    fn fmt<W: fmt::Write>(&self, f: &mut fmt::Formatter<W>) -> fmt::Result {
        match str::from_utf8(self.bytes()) {
            Ok(text) => f.write_str(text),
            Err(_) => Err(fmt::Error),
        }
    }
}
