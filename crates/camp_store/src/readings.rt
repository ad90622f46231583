//! Decoding a file of texts.
ghost use Rattle.std.specs.Prelude.{◌≡◌, List, ℕ, IfErr, IfOk, IsTrue};
ghost use Rattle.sqlite_disk.specs.Disk.{Only};
ghost use Rattle.camp_store.specs.Counting.{CountsFaults};
ghost use Rattle.camp_store.specs.Readings.{IsDecodeFault, IsDecodedFrom, IsReadingFault, ReportsDamage};

use crate::blocks::{Digest, first_block, is_closed, is_end};
use crate::disks::read_all;
use crate::{Disk, StoreFault};
use std::alloc::Global;

/// The decoded contents of a file.
#[derive(Drop)]
pub struct Reading {
    /// The texts, in order.
    pub texts: Vec<Vec<u8>>,
    /// The length of their blocks in bytes.
    pub length: usize,
    /// The number of bytes after the blocks.
    pub tail_len: usize,
    /// The digest of the texts.
    pub digest: Digest,
    /// True if there is a closed mark after the blocks.
    pub is_closed: bool,
}

/// Decodes the texts of a file.
pub fn decode(alloc: Global, bytes: &[u8]) -> Result<Reading, StoreFault>
    ensures reading { IfOk result (λ reading. IsDecodedFrom bytes.now reading) }
    ensures damaged { IfErr result (λ why. ReportsDamage why bytes.now) }
    ensures fault { IfErr result IsDecodeFault }
{
    let mut texts = Vec::new(alloc);
    let mut digest = [0; 32];
    let mut rest = bytes;
    'reading: while !is_end(rest) {
        let block = match first_block(alloc, &digest, rest)? {
            Some(block) => block,
            None => {
                return Err(StoreFault::Damaged {
                    texts: texts.len(),
                    at: bytes.len() - rest.len(),
                });
            }
        };
        texts.push(block.text.to_vec(alloc)?)?;
        digest = block.digest;
        rest = block.rest;
    }
    Ok(Reading {
        texts,
        length: bytes.len() - rest.len(),
        tail_len: rest.len(),
        digest,
        is_closed: is_closed(rest),
    })
}

/// Reads and decodes a file. Writes nothing; what it returns is durable.
pub fn read<D: Disk>(alloc: Global, disk: &mut D) -> Result<Reading, StoreFault>
    ensures usable { IfOk result (λ _. IsTrue (D.Disk.is_usable disk.new)) }
    ensures reading { IfOk result (λ reading. IsTrue (D.Disk.is_clean disk.new) → IsDecodedFrom (D.Disk.seen disk.old) reading) }
    ensures damaged { IsTrue (D.Disk.is_clean disk.new) → IfErr result (λ why. ReportsDamage why (D.Disk.seen disk.old)) }
    ensures fault { IfErr result (IsReadingFault (D.Disk.is_usable disk.old)) }
    ensures seen { D.Disk.seen disk.new ≡ D.Disk.seen disk.old }
    ensures crash { (c : List ℕ) → D.Disk.may_leave disk.new c → D.Disk.may_leave disk.old c }
    ensures synced { IfOk result (λ _. Only (D.Disk.seen disk.new) (D.Disk.may_leave disk.new)) }
    ensures clean { IsTrue (D.Disk.is_clean disk.new) → IsTrue (D.Disk.is_clean disk.old) }
    ensures faults { CountsFaults result (D.Disk.faults disk.old) (D.Disk.faults disk.new) }
{
    if !disk.may_be_used() {
        return Err(StoreFault::Failed);
    }
    let bytes = read_all(alloc, disk)?;
    decode(alloc, &bytes)
}
