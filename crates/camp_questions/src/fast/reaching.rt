//! The dependencies of each patch, found by a walk back from the patch, which stops as soon as all earlier patches are
//! known to be dependencies.
ghost use Rattle.std.specs.Prelude.{◌≡◌, ◌<◌, ◌≤◌, List, length, IfOk};
ghost use Rattle.camp_catch.specs.declared.catches.Catch.{Catch as AnyCatch};
ghost use Rattle.camp_questions.specs.Inside.ByPatch.{names_in_order};
ghost use Rattle.camp_questions.specs.Inside.ChangedFiles.{AreFilesOf};
ghost use Rattle.camp_questions.specs.Inside.Graphing.{AreKnown, AreMarkedBelow, AreReached, IsInverted, NeedEach, marked_in_both};

use crate::fast::changed_files::{PatchFiles, files_of};
use crate::fast::patch_catches::PatchCatches;
use crate::fast::taken_out::{move_before, take_out, take_out_first};
use crate::needed::Needed;
use std::alloc::{AllocError, Global};

/// Returns the dependencies of each patch of a branch, given the patches with their catches inverted.
pub(crate) fn all_reached(
    alloc: Global,
    patches: &[PatchCatches],
) -> Result<Vec<Needed>, AllocError>
    requires { (branch : List AnyCatch) × IsInverted branch patches.now }
    ensures { IfOk result (λ all. (branch : List AnyCatch) → IsInverted branch patches.now → NeedEach branch (names_in_order patches.now) all.items) }
{
    let files = files_of(alloc, patches)?;
    let mut all = Vec::with_capacity(alloc, patches.len())?;
    for patch in patches {
        let needs = reached(alloc, patches, &files, &all)?;
        all.push(Needed {
            name: patch.name,
            needs,
        })?;
    }
    Ok(all)
}

/// Returns the dependencies of the next patch, given those of the patches before it.
fn reached(
    alloc: Global,
    patches: &[PatchCatches],
    files: &[PatchFiles],
    known: &[Needed],
) -> Result<Vec<bool>, AllocError>
    requires files { AreFilesOf patches.now files.now }
    requires each { length files.now ≡ length patches.now }
    requires known { (branch : List AnyCatch) × IsInverted branch patches.now × AreKnown branch (names_in_order patches.now) known.now }
    requires next { length known.now < length patches.now }
    ensures { IfOk result (λ marks. (branch : List AnyCatch) → IsInverted branch patches.now → AreKnown branch (names_in_order patches.now) known.now → AreReached branch (names_in_order patches.now) (length known.now) marks.items) }
{
    let own = known.len();
    let mut marks = vec![in alloc; false; own + 1]?;
    marks[own] = true;
    let mut going = take_out_first(alloc, &patches[own], &files[own])?;
    let mut all_below = first_unmarked(&marks, 0);
    let mut place = own;
    while place > all_below {
        place -= 1;
        let patch = &patches[place];
        let changed = &files[place];
        if !marks[place] {
            if move_before(alloc, &mut going, patch, changed)? {
                continue;
            }
            mark_all(&mut marks, &known[place].needs);
            all_below = first_unmarked(&marks, all_below);
        }
        take_out(&mut going, patch, changed)?;
    }
    Ok(marks)
}

/// Returns the first index from `from` on that is not marked; all indexes below `from` are marked.
fn first_unmarked(marks: &[bool], from: usize) -> usize
    requires { AreMarkedBelow marks.now from }
    ensures { AreMarkedBelow marks.now result }
{
    for place in from..marks.len() {
        if !marks[place] {
            return place;
        }
    }
    marks.len()
}

/// Marks all indexes that are marked in another list.
fn mark_all(marks: &mut [bool], more: &[bool])
    requires { length more.now ≤ length marks.old }
    ensures { marks.new ≡ marked_in_both marks.old more.now }
{
    for at in 0..more.len() {
        if more[at] {
            marks[at] = true;
        }
    }
}
