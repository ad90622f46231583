//! The tree of a commit on its branch.

ghost use Rattle.camp_base.specs.Trees.{Files};
ghost use Rattle.camp_importer.specs.Parts.{IsThere, LeadsFrom, RecordsTreeOr};

use crate::Reason;
use crate::part_records::record_parts;
use crate::trees::changes_to;
use camp_base::{Name, Tree};
use camp_import::into_parts;
use camp_prim::Primitive;
use camp_repo::{Book, State};
use std::alloc::Global;

/// Records, in parts, the changes that lead from the tree of a branch to another tree.
pub(crate) fn record_tree(
    alloc: Global,
    book: &mut Book<State>,
    seat: u32,
    branch: &Name,
    name: Name,
    tree: &Tree,
) -> Result<(), Reason>
    requires there { IsThere book.now branch.now }
    ensures { RecordsTreeOr name branch.now tree.now book.old result book.new }
{
    match changes_to(alloc, book, branch, &name, tree) {
        Ok(changes) => record_changes(alloc, book, seat, branch, name, changes),
        Err(why) => Err(why),
    }
}

/// Records changes, in parts.
fn record_changes(
    alloc: Global,
    book: &mut Book<State>,
    seat: u32,
    branch: &Name,
    name: Name,
    changes: Vec<Primitive>,
) -> Result<(), Reason>
    ensures { (tree : Files) → LeadsFrom book.old branch.now tree changes → RecordsTreeOr name branch.now tree book.old result book.new }
{
    match into_parts(alloc, changes) {
        Ok(parts) => record_parts(alloc, book, seat, branch, name, &parts),
        Err(_) => Err(Reason::Memory),
    }
}
