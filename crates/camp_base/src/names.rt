//! The name of a branch or a patch.
ghost use Rattle.std.specs.Prelude.{◌≡◌, ◌==◌, if◌then◌else◌, IsTrue, Some, ⊤};
ghost use Rattle.std.specs.List.{list_all};
ghost use Rattle.std.specs.Ordering.{nat_cmp, as_partial_cmp};
ghost use Rattle.std.specs.Cmp.{partial_order_from_own_ties};
ghost use Rattle.std.specs.Cmp.Rules.{comparing, hashing};
ghost use Rattle.std.specs.Hash as fed;
ghost use Rattle.std.specs.Cmp.Lexicographic.{slice_cmp, pointwise};
ghost use Rattle.std.specs.FinMap.{nat_cmp-IsAntisymmetric, slice_cmp-IsAntisymmetric};
ghost use Rattle.std.proofs.Common.{rules};
ghost use Rattle.camp_base.specs.Bytes.{is_name, is_name_byte};
ghost use Rattle.camp_base.specs.Inside.NameFields.{spelt};

use crate::bytes::order;
use crate::{BaseFault, MAX_NAME_LENGTH};
use camp_share::{Key, Share};
use std::alloc::AllocError;
use std::cmp::Ordering;
use std::hash::{Hash, Hasher};
use std::marker::Model;
use std::{fmt, str};

/// The name of a branch or a patch: 1 to 40 bytes of `a` to `z`, `0` to `9` and `-`, the first not `-`. Names
/// are ordered by their bytes. A name is stored inline and does not allocate.
#[derive(Debug)]
pub struct Name {
    buffer: [u8; MAX_NAME_LENGTH],
    len: u8,
}

impl Model for Name {
    ghost use Rattle.std.specs.Prelude.{List, ℕ, take};

    ghost Value = { List ℕ };

    ghost use Rattle.camp_base.specs.Inside.NameFields.{IsPadded, padded};

    ghost view = { λ name. take name.len name.buffer };

    ghost invariant = { IsPadded };

    ghost inverse = { padded };

    ghost inverse_ok = { λ name padded. padded.padding };
}

impl Clone for Name {
    ghost is_clone = { λ name copy. copy ≡ name };

    ghost is_infallible = { λ _. ⊤ };

    fn clone(&self) -> Result<Name, AllocError> {
        Ok(*self)
    }
}

impl Copy for Name {}

impl Share for Name {
    fn share(&self) -> Result<Name, AllocError> {
        Ok(*self)
    }
}

impl Key for Name {
    ghost same = { slice_cmp-IsAntisymmetric nat_cmp-IsAntisymmetric };
}

impl Name {
    /// Makes the name that the bytes spell; does not allocate.
    pub fn new(bytes: &[u8]) -> Result<Name, BaseFault>
        ensures exact { result ≡ (if is_name bytes.now then Ok bytes.now else Err BaseFault.BadName) }
    {
        if !is_name(bytes) {
            return Err(BaseFault::BadName);
        }
        let mut buffer = [0; MAX_NAME_LENGTH];
        buffer[..bytes.len()].copy_from_slice(bytes);
        Ok(Name {
            buffer,
            len: bytes.len() as u8,
        })
    }

    /// Returns the bytes of the name.
    pub fn bytes(&self) -> &[u8]
        ensures value { result.now ≡ self.now }
        ensures form { IsTrue (is_name self.now) }
    {
        &self.buffer[..self.len as usize]
    }

    // Returns the first eight bytes as a big-endian number, padded with zeros. No byte of a name is zero, so
    // two names with different numbers are ordered by them.
    fn head(&self) -> u64
        ensures value { result ≡ spelt 8 0 self.now }
        ensures form { IsTrue (is_name self.now) }
    {
        let bytes = &self.buffer;
        u64::from_be_bytes([
            bytes[0], bytes[1], bytes[2], bytes[3], bytes[4], bytes[5], bytes[6], bytes[7],
        ])
    }
}

fn is_name(bytes: &[u8]) -> bool
    ensures { result ≡ is_name bytes.now }
{
    if bytes.is_empty() || bytes[0] == b'-' || bytes.len() > MAX_NAME_LENGTH {
        return false;
    }
    has_name_bytes(bytes)
}

fn has_name_bytes(bytes: &[u8]) -> bool
    ensures { result ≡ list_all is_name_byte bytes.now }
{
    bytes.iter().all(|byte| is_name_byte(*byte))
}

fn is_name_byte(byte: u8) -> bool
    ensures { result ≡ is_name_byte byte }
{
    matches!(byte, b'a'..=b'z' | b'0'..=b'9' | b'-')
}

impl PartialEq for Name {
    ghost eq = { pointwise ◌==◌ };

    ghost laws = { Prim.search (comparing, rules) };

    fn eq(&self, other: &Name) -> bool {
        let (head, other_head) = (self.head(), other.head());
        if head != other_head {
            return false;
        }
        if self.bytes().len() <= 8 && other.bytes().len() <= 8 {
            return true;
        }
        self.bytes() == other.bytes()
    }
}

impl Eq for Name {
    ghost laws = { Prim.search (comparing, rules) };
}

impl Hash for Name {
    ghost hash_input = { fed.slice fed.u8 };

    ghost respects_eq = { Prim.search (hashing, rules) };

    fn hash<H: Hasher>(&self, state: &mut H) {
        self.bytes().hash(state);
    }
}

impl PartialOrd for Name {
    ghost partial_cmp = { as_partial_cmp (slice_cmp nat_cmp) };

    ghost laws = { partial_order_from_own_ties (Prim.search (comparing, rules))
        (Prim.search (comparing, rules)) };

    fn partial_cmp(&self, other: &Name) -> Option<Ordering> {
        Some(self.cmp(other))
    }
}

impl Ord for Name {
    ghost cmp = { slice_cmp nat_cmp };

    ghost total = { Prim.search (comparing, rules) };

    ghost matches_partial_cmp = { Prim.search (comparing, rules) };

    ghost matches_eq = { Prim.search (comparing, rules) };

    fn cmp(&self, other: &Name) -> Ordering {
        let (head, other_head) = (self.head(), other.head());
        if head != other_head {
            return head.cmp(&other_head);
        }
        order(self.bytes(), other.bytes())
    }
}

impl fmt::Display for Name {
    ghost output = { λ name. Some name };

    fn fmt<W: fmt::Write>(&self, f: &mut fmt::Formatter<W>) -> fmt::Result {
        match str::from_utf8(self.bytes()) {
            Ok(text) => f.write_str(text),
            Err(_) => Err(fmt::Error),
        }
    }
}
