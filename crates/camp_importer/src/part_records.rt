//! The patches of a commit.

ghost use Rattle.std.specs.Prelude.{◌≡◌, IfOk, IfSome, map};
ghost use Rattle.camp_call.specs.Patches.{IsPatchSized};
ghost use Rattle.camp_import.specs.Parts.{part_name};
ghost use Rattle.camp_importer.specs.Calling.{OrFails, OrWithoutCall};
ghost use Rattle.camp_importer.specs.Parts.{RecordsOnePart, RecordsParts};
ghost use Rattle.camp_importer.specs.Steps.{RecordsBy, RecordsPatch};

use crate::Reason;
use crate::recording::record_patch;
use camp_base::Name;
use camp_import::part_name;
use camp_prim::Primitive;
use camp_repo::{Book, Changes, State};
use std::alloc::{AllocError, Global};

/// The most parts of a commit.
const MAX_PARTS: usize = 10_000;

/// Records the parts of a commit, in order, each under its name.
pub(crate) fn record_parts(
    alloc: Global,
    book: &mut Book<State>,
    seat: u32,
    branch: &Name,
    name: Name,
    parts: &[Vec<Primitive>],
) -> Result<(), Reason>
    ensures { OrFails (RecordsParts name branch.now (map (λ part. part.items) parts.now)) (RecordsOnePart name branch.now) branch.now book.old result book.new }
{
    let count = parts.len();
    if count > MAX_PARTS {
        return Err(Reason::TooManyChanges);
    }
    'parts: for index in 0..count {
        match record_at(alloc, book, seat, branch, name, index, count, &parts[index]) {
            Ok(()) => {}
            Err(why) => return Err(why),
        }
    }
    Ok(())
}

/// Records the part at `index`, of `count`.
fn record_at(
    alloc: Global,
    book: &mut Book<State>,
    seat: u32,
    branch: &Name,
    name: Name,
    index: usize,
    count: usize,
    part: &[Primitive],
) -> Result<(), Reason>
    ensures { OrFails (RecordsPatch (part_name name index count) branch.now part.now) (RecordsBy (part_name name index count) branch.now part.now) branch.now book.old result book.new }
{
    match name_of_part(alloc, name, index, count) {
        Ok(own) => record_part(alloc, book, seat, branch, own, part),
        Err(why) => Err(why),
    }
}

fn name_of_part(alloc: Global, name: Name, index: usize, count: usize) -> Result<Name, Reason>
    ensures { OrWithoutCall (λ own. own ≡ part_name name index count) result }
{
    if index >= MAX_PARTS {
        return Err(Reason::TooManyChanges);
    }
    match part_name(alloc, name, index, count) {
        Ok(Some(own)) => Ok(own),
        Ok(None) => Err(Reason::TooManyChanges),
        Err(_) => Err(Reason::Memory),
    }
}

fn record_part(
    alloc: Global,
    book: &mut Book<State>,
    seat: u32,
    branch: &Name,
    name: Name,
    part: &[Primitive],
) -> Result<(), Reason>
    ensures { OrFails (RecordsPatch name branch.now part.now) (RecordsBy name branch.now part.now) branch.now book.old result book.new }
{
    match changes_of(alloc, part) {
        Ok(Some(changes)) => record_patch(book, seat, branch, &name, changes),
        Ok(None) => Err(Reason::TooManyChanges),
        Err(_) => Err(Reason::Memory),
    }
}

fn changes_of(alloc: Global, part: &[Primitive]) -> Result<Option<Changes>, AllocError>
    ensures { IfOk result (λ found. IfSome found (λ changes. (changes ≡ part.now) × IsPatchSized changes)) }
{
    let copies = copies(alloc, part)?;
    Ok(Changes::new(copies))
}

fn copies(alloc: Global, changes: &[Primitive]) -> Result<Vec<Primitive>, AllocError>
    ensures { IfOk result (λ copies. copies.items ≡ changes.now) }
{
    let mut copies = Vec::with_capacity(alloc, changes.len())?;
    for change in changes {
        copies.push(change.try_clone()?)?;
    }
    Ok(copies)
}
