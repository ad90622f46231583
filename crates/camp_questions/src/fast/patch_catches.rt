//! The catches of a list, grouped by patch.
ghost use Rattle.std.specs.Prelude.{◌≡◌, ◌<◌, ◌≤◌, ◌+◌, ◌++◌, List, length, drop, IfOk, OnOk};
ghost use Rattle.camp_branch.specs.Branches.{HasPatches, Patch};
ghost use Rattle.camp_questions.specs.Inside.ByPatch.{ArePatchesOf, until_next};

use camp_base::Name;
use camp_catch::Catch;
use camp_share::{Share, Shared};
use std::alloc::{AllocError, Global};

/// A patch with its catches, as they are in a list.
#[derive(Drop)]
pub(crate) struct PatchCatches {
    pub name: Name,
    pub catches: Vec<Shared<Catch>>,
}

/// Groups the catches of a list by patch, in order.
pub(crate) fn by_patch(
    alloc: Global,
    list: &[Shared<Catch>],
) -> Result<Vec<PatchCatches>, AllocError>
    requires { (patches : List Patch) × HasPatches list.now patches }
    ensures { IfOk result (λ patches. ArePatchesOf list.now patches.items) }
{
    let mut patches = Vec::new(alloc);
    let mut start = 0;
    while start < list.len() {
        let end = end_of_patch(list, start);
        let catches = shared(alloc, &list[start..end])?;
        let name = *list[start].name();
        patches.push(PatchCatches { name, catches })?;
        start = end;
    }
    Ok(patches)
}

/// Returns the index after the last catch of the patch whose first catch is at `start`.
fn end_of_patch(list: &[Shared<Catch>], start: usize) -> usize
    requires { start < length list.now }
    ensures exact { result ≡ start + 1 + until_next (drop (start + 1) list.now) }
    ensures within { result ≤ length list.now }
{
    for at in start + 1..list.len() {
        if list[at].place() == 1 {
            return at;
        }
    }
    list.len()
}

/// Copies a list of patches, which share their catches with the copy.
pub(crate) fn shared(
    alloc: Global,
    list: &[Shared<Catch>],
) -> Result<Vec<Shared<Catch>>, AllocError>
    ensures { IfOk result (λ copy. copy.items ≡ list.now) }
{
    let mut copy = Vec::with_capacity(alloc, list.len())?;
    append(&mut copy, list)?;
    Ok(copy)
}

/// Appends catches to others.
pub(crate) fn append(
    list: &mut Vec<Shared<Catch>>,
    catches: &[Shared<Catch>],
) -> Result<(), AllocError>
    ensures { OnOk result (list.new.items ≡ list.old.items ++ catches.now) }
{
    for catch in catches {
        list.push(catch.share()?)?;
    }
    Ok(())
}
