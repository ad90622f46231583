//! Copies of a branch.

ghost use Rattle.camp_importer.specs.Copies.{CopiesEachOr};

use crate::Reason;
use crate::starting::start_branch;
use camp_base::Name;
use camp_repo::{Book, State};

/// Makes branches of these names as copies of a branch, in order. After a fault the branches that were made before it
/// stay.
pub(crate) fn copy_each(
    book: &mut Book<State>,
    seat: u32,
    from: &Name,
    copies: &[Name],
) -> Result<(), Reason>
    ensures { CopiesEachOr from.now copies.now book.old result book.new }
{
    for copy in copies {
        match start_branch(book, seat, from, copy) {
            Ok(()) => {}
            Err(why) => return Err(why),
        }
    }
    Ok(())
}
