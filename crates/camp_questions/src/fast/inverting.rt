//! The inverses of plain patches.
ghost use Rattle.std.specs.Prelude.{List, IfOk, IfSome, IsTrue};
ghost use Rattle.camp_branch.specs.Branches.{HasPatches, Patch};
ghost use Rattle.camp_questions.specs.Inside.Graphing.{IsInverted};
ghost use Rattle.camp_questions.specs.Inside.Inverting.{AreInverses, HaveRoom};

use crate::fast::patch_catches::{PatchCatches, by_patch};
use camp_catch::Catch;
use camp_seq::{Seq, has_room, invert_all};
use camp_share::Shared;
use std::alloc::{AllocError, Global};

/// Groups the catches of a list by patch, and inverts the patches, the last first. `None` if a catch is in conflict or
/// the quick check finds no headroom.
pub(crate) fn inverted_patches(
    alloc: Global,
    list: &[Shared<Catch>],
) -> Result<Option<Vec<PatchCatches>>, AllocError>
    requires { (patches : List Patch) × HasPatches list.now patches }
    ensures { IfOk result (λ back. IfSome back (λ back. IsInverted list.now back.items)) }
{
    if !have_room(alloc, list)? {
        return Ok(None);
    }
    let patches = by_patch(alloc, list)?;
    let mut back = Vec::with_capacity(alloc, patches.len())?;
    for patch in &patches {
        let catches = inverses(alloc, &patch.catches)?;
        let Some(catches) = catches else {
            return Ok(None);
        };
        back.push(PatchCatches {
            name: patch.name,
            catches,
        })?;
    }
    Ok(Some(back))
}

/// True only if all catches are plain, and they and their inverses have headroom.
fn have_room(alloc: Global, list: &[Shared<Catch>]) -> Result<bool, AllocError>
    ensures { IfOk result (λ yes. IsTrue yes → HaveRoom list.now) }
{
    let mut forth = Seq::with_room(alloc, list.len())?;
    for catch in list {
        let Catch::Plain(p) = &**catch else {
            return Ok(false);
        };
        forth.push(p.try_clone()?)?;
    }
    if !has_room(&forth) {
        return Ok(false);
    }
    let back = invert_all(&forth)?;
    Ok(has_room(&back))
}

/// Returns the inverses of plain catches, in reverse order; `None` if one is in conflict.
fn inverses(
    alloc: Global,
    catches: &[Shared<Catch>],
) -> Result<Option<Vec<Shared<Catch>>>, AllocError>
    ensures { IfOk result (λ back. IfSome back (λ back. AreInverses catches.now back.items)) }
{
    let mut back = Vec::with_capacity(alloc, catches.len())?;
    for catch in catches {
        let Catch::Plain(p) = &**catch else {
            return Ok(None);
        };
        let inverse = p.try_clone()?.invert();
        back.push(Shared::new(alloc, Catch::Plain(inverse))?)?;
    }
    back.reverse();
    Ok(Some(back))
}
