//! Commits one after the other.

ghost use Rattle.camp_importer.specs.Histories.{ImportsCommits};

use crate::{ImportFault, Moments, Place, import_commit};
use camp_import::Commit;
use camp_repo::{Book, State};
use std::alloc::Global;

/// Imports commits in order, each at its place, up to the first that is not imported or has no place. After a fault the
/// commits before it stay imported.
pub fn import_commits(
    alloc: Global,
    book: &mut Book<State>,
    seat: u32,
    moments: &Moments,
    commits: &[(Commit, Place)],
) -> Result<(), ImportFault>
    ensures exact { ImportsCommits commits.now moments.now book.old result book.new }
{
    for commit in commits {
        match import_commit(alloc, book, seat, moments, &commit.0, &commit.1) {
            Ok(_) => {}
            Err(fault) => return Err(fault),
        }
    }
    Ok(())
}
