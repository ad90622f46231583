//! A patch of a commit.

ghost use Rattle.camp_importer.specs.Calling.{OrFails};
ghost use Rattle.camp_importer.specs.Steps.{RecordsBy, RecordsPatch};

use crate::Reason;
use crate::executing::execute;
use camp_base::Name;
use camp_repo::{Book, Call, Changes, State};

/// Records a patch on a branch: one part of a commit, or all of it.
pub(crate) fn record_patch(
    book: &mut Book<State>,
    seat: u32,
    branch: &Name,
    name: &Name,
    changes: Changes,
) -> Result<(), Reason>
    ensures exact { OrFails (RecordsPatch name.now branch.now changes) (RecordsBy name.now branch.now changes) branch.now book.old result book.new }
{
    // Calling `prims` tells the prover, by its clauses, that a patch has 1 to 64 changes.
    let _prims = changes.prims();
    let call = Call::Record {
        branch: *branch,
        name: *name,
        changes,
    };
    execute(book, seat, &call)
}
