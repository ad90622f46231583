//! A commit as calls.

ghost use Rattle.camp_importer.specs.Calling.{RepositoryBook};
ghost use Rattle.camp_importer.specs.Commits.{BringsOr, HoldsOr, ImportsAs, ImportsCommit, Joins, PassesOr, RecordsOr, as_recorded, with_pulled};
ghost use Rattle.camp_importer.specs.Copies.{CopiesEach};
ghost use Rattle.std.specs.Prelude.{◌≡◌};
ghost use Rattle.camp_importer.specs.Moments.{moment_of};
ghost use Rattle.camp_importer.specs.Parts.{IsThere};

use crate::copying::copy_each;
use crate::joining::join_parents;
use crate::parents::{check_parents, lacked_parent};
use crate::records::record_tree;
use crate::{ImportFault, Moments, Place, Reason};
use camp_import::Commit;
use camp_repo::{Book, Branch, State};
use std::alloc::Global;

/// How a commit came in.
#[derive(Clone, Copy, PartialEq, Eq, Debug)]
pub enum Imported {
    /// The commit was imported before; nothing has changed.
    PassedOver,
    /// Its patches were recorded.
    Recorded {
        /// True if no pull of a further parent was blocked. A blocked pull brings nothing; the commit's own patches
        /// then make the difference.
        pulled: bool,
    },
}

/// Imports a commit: copies the branch of its first parent, unless the commit continues that branch; pulls the patches
/// of its further parents; and records the remaining changes as patches of at most 64 changes, under the commit's id
/// and the names of its parts. A commit whose patch is recorded already is skipped if that patch led to the same tree.
/// After a fault the calls accepted so far stay in the book: if the book is on a disk, make it durable only after `Ok`.
pub fn import_commit(
    alloc: Global,
    book: &mut Book<State>,
    seat: u32,
    moments: &Moments,
    commit: &Commit,
    place: &Place,
) -> Result<Imported, ImportFault>
    ensures exact { ImportsCommit commit.now place.now moments.now book.old result book.new }
{
    match import(alloc, book, seat, moments, commit, place) {
        Ok(imported) => Ok(imported),
        Err(why) => Err(ImportFault {
            commit: commit.id,
            why,
        }),
    }
}

fn import(
    alloc: Global,
    book: &mut Book<State>,
    seat: u32,
    moments: &Moments,
    commit: &Commit,
    place: &Place,
) -> Result<Imported, Reason>
    ensures { ImportsAs commit.now place.now (moment_of moments.now.branches commit.now.id) book.old result book.new }
{
    match moments.find(&commit.id) {
        Some(branch) => pass_over(branch, commit),
        None => recorded(record(alloc, book, seat, commit, place)),
    }
}

fn recorded(outcome: Result<bool, Reason>) -> Result<Imported, Reason>
    ensures { result ≡ as_recorded outcome }
{
    match outcome {
        Ok(pulled) => Ok(Imported::Recorded { pulled }),
        Err(why) => Err(why),
    }
}

/// Skips a commit whose patch is recorded already. `branch` is its branch as it was right after that.
fn pass_over(branch: &Branch, commit: &Commit) -> Result<Imported, Reason>
    ensures { PassesOr commit.now branch.now result }
{
    match check_held(branch, commit) {
        Ok(()) => Ok(Imported::PassedOver),
        Err(why) => Err(why),
    }
}

/// Checks that a branch leads to the tree of a commit and has the patch of its first parent.
fn check_held(branch: &Branch, commit: &Commit) -> Result<(), Reason>
    ensures { HoldsOr commit.now branch.now result }
{
    if !branch.tree().is_same(&commit.tree) {
        return Err(Reason::OtherTree);
    }
    match lacked_parent(branch, &commit.parents, false) {
        Some(name) => Err(Reason::LacksParent(name)),
        None => Ok(()),
    }
}

fn record(
    alloc: Global,
    book: &mut Book<State>,
    seat: u32,
    commit: &Commit,
    place: &Place,
) -> Result<bool, Reason>
    ensures { RecordsOr commit.now place.now book.old result book.new }
{
    match copy_each(book, seat, &place.first, &place.spares) {
        Ok(()) => record_spared(alloc, book, seat, commit, place),
        Err(why) => Err(why),
    }
}

/// Records a commit after the branch of its first parent was copied.
fn record_spared(
    alloc: Global,
    book: &mut Book<State>,
    seat: u32,
    commit: &Commit,
    place: &Place,
) -> Result<bool, Reason>
    ensures { (old : RepositoryBook) → CopiesEach place.now.first place.now.spares.items old book.old → RecordsOr commit.now place.now old result book.new }
{
    match bring_in(alloc, book, seat, commit, place) {
        Ok(pulled) => {
            let copied = copy_each(book, seat, &place.branch, &place.copies);
            with_pulled(copied, pulled)
        }
        Err(why) => Err(why),
    }
}

fn with_pulled(done: Result<(), Reason>, pulled: bool) -> Result<bool, Reason>
    ensures { result ≡ with_pulled pulled done }
{
    match done {
        Ok(()) => Ok(pulled),
        Err(why) => Err(why),
    }
}

fn bring_in(
    alloc: Global,
    book: &mut Book<State>,
    seat: u32,
    commit: &Commit,
    place: &Place,
) -> Result<bool, Reason>
    ensures { BringsOr commit.now place.now book.old result book.new }
{
    match join_parents(book, seat, &place.branch, &place.first, &place.others) {
        Ok(pulled) => bring_tree(alloc, book, seat, commit, place, pulled),
        Err(why) => Err(why),
    }
}

/// Records the tree of a commit on its branch, if this branch has the patches of the commit's parents.
fn bring_tree(
    alloc: Global,
    book: &mut Book<State>,
    seat: u32,
    commit: &Commit,
    place: &Place,
    pulled: bool,
) -> Result<bool, Reason>
    requires there { IsThere book.now place.now.branch }
    ensures { (old : RepositoryBook) → Joins commit.now place.now pulled old book.old → BringsOr commit.now place.now old result book.new }
{
    match check_parents(book, &place.branch, &commit.parents, pulled) {
        Ok(()) => {
            let recorded = record_tree(alloc, book, seat, &place.branch, commit.id, &commit.tree);
            with_pulled(recorded, pulled)
        }
        Err(why) => Err(why),
    }
}
