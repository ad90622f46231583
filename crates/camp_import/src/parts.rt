//! The parts of a patch that has more changes than a patch may have.

ghost use Rattle.std.specs.Prelude.{◌≡◌, ◌<◌, if◌then◌else◌, IfOk, None, Some, drop, map, reverse, take};
ghost use Rattle.std.specs.List.{AllByRecursion};
ghost use Rattle.camp_base.specs.Bytes.{is_name};
ghost use Rattle.camp_call.specs.Patches.{IsPatchSized};
ghost use Rattle.camp_import.specs.Parts.{ArePartsOf, part_name};

use camp_base::Name;
use camp_prim::Primitive;
use std::alloc::{AllocError, Global};

/// The most changes of a patch.
const MAX_CHANGES: usize = 64;

/// The number of first bytes of a patch's name that the names of its parts begin with.
const PREFIX_LENGTH: usize = 35;

/// Divides changes into parts that a patch may have: each has the next 64 changes, the last one all that are left.
pub fn into_parts(
    alloc: Global,
    mut changes: Vec<Primitive>,
) -> Result<Vec<Vec<Primitive>>, AllocError>
    ensures exact { IfOk result (λ parts. ArePartsOf (map (λ part. part.items) parts.items) changes.items) }
    ensures sized { IfOk result (λ parts. AllByRecursion IsPatchSized (map (λ part. part.items) parts.items)) }
{
    changes.reverse();
    let mut parts = Vec::new(alloc);
    'parts: while !changes.is_empty() {
        let part = take_part(alloc, &mut changes)?;
        parts.push(part)?;
    }
    Ok(parts)
}

/// Removes the next part from changes in reverse order, and returns it.
fn take_part(alloc: Global, changes: &mut Vec<Primitive>) -> Result<Vec<Primitive>, AllocError>
    ensures { IfOk result (λ part. (part.items ≡ take 64 (reverse changes.old.items)) × (reverse changes.new.items ≡ drop 64 (reverse changes.old.items))) }
{
    let mut part = Vec::new(alloc);
    'part: for _ in 0..MAX_CHANGES {
        match changes.pop() {
            Some(change) => part.push(change)?,
            None => return Ok(part),
        }
    }
    Ok(part)
}

/// Returns the name of the part at `index` of `count` parts: the last part has the name of the patch; another one has
/// its first 35 bytes, `-` and four digits. `None` exactly if these are no name.
pub fn part_name(
    alloc: Global,
    name: Name,
    index: usize,
    count: usize,
) -> Result<Option<Name>, AllocError>
    requires index_small { index < 10_000 }
    ensures exact { IfOk result (λ found. found ≡ (if is_name (part_name name index count) then Some (part_name name index count) else None)) }
{
    let text = part_text(alloc, name.bytes(), index, count)?;
    Ok(Name::new(&text).ok())
}

fn part_text(alloc: Global, name: &[u8], index: usize, count: usize) -> Result<Vec<u8>, AllocError>
    requires index_small { index < 10_000 }
    ensures { IfOk result (λ text. text.items ≡ part_name name.now index count) }
{
    if index + 1 == count {
        return Ok(Vec::from_slice(alloc, name)?);
    }
    let digits = [
        b'-',
        b'0' + (index / 1_000 % 10) as u8,
        b'0' + (index / 100 % 10) as u8,
        b'0' + (index / 10 % 10) as u8,
        b'0' + (index % 10) as u8,
    ];
    let mut text = Vec::from_slice(alloc, prefix_of(name))?;
    text.extend_from_slice(&digits)?;
    Ok(text)
}

fn prefix_of(name: &[u8]) -> &[u8]
    ensures { result.now ≡ take 35 name.now }
{
    if name.len() <= PREFIX_LENGTH {
        return name;
    }
    &name[..PREFIX_LENGTH]
}
