//! The catches that are to be taken out.
ghost use Rattle.std.specs.Prelude.{◌≡◌, ◌++◌, IfOk, OnOk};
ghost use Rattle.camp_questions.specs.Inside.ByPatch.{AreApart, AreOfPatch};
ghost use Rattle.camp_questions.specs.Inside.ChangedFiles.{HasMarkedFiles, HasFiles};
ghost use Rattle.camp_questions.specs.Inside.Independence.{IsIndependent};

use crate::fast::changed_files::{HASHES, PatchFiles, is_any_marked, mark_numbers};
use crate::fast::independence::move_before_taken_out;
use crate::fast::patch_catches::{PatchCatches, append};
use camp_catch::Catch;
use camp_share::Shared;
use std::alloc::{AllocError, Global};

/// Plain catches that are to be taken out, and which files they change: a mark for each hash of their paths.
#[derive(Drop)]
pub(crate) struct TakenOut {
    pub catches: Vec<Shared<Catch>>,
    pub files: Vec<bool>,
}

/// Starts with the catches of the first patch that is to be taken out.
pub(crate) fn take_out_first(
    alloc: Global,
    patch: &PatchCatches,
    files: &PatchFiles,
) -> Result<TakenOut, AllocError>
    requires { HasFiles patch.now files.now }
    ensures marked { IfOk result (λ going. HasMarkedFiles going) }
    ensures catches { IfOk result (λ going. going.catches.items ≡ patch.now.catches.items) }
{
    let mut going = TakenOut {
        catches: Vec::new(alloc),
        files: vec![in alloc; false; HASHES]?,
    };
    take_out(&mut going, patch, files)?;
    Ok(going)
}

/// Adds the catches of one more patch that is to be taken out.
pub(crate) fn take_out(
    going: &mut TakenOut,
    patch: &PatchCatches,
    files: &PatchFiles,
) -> Result<(), AllocError>
    requires marked { HasMarkedFiles going.old }
    requires files { HasFiles patch.now files.now }
    ensures marked { OnOk result (HasMarkedFiles going.new) }
    ensures catches { OnOk result (going.new.catches.items ≡ going.old.catches.items ++ patch.now.catches.items) }
{
    append(&mut going.catches, &patch.catches)?;
    mark_numbers(&mut going.files, &files.numbers);
    Ok(())
}

/// Moves a patch, which comes after these catches, in front of all of them, and updates them to what they then become.
/// False if it can't be moved; they are then unchanged. A patch that changes none of their files is moved without
/// commuting.
pub(crate) fn move_before(
    alloc: Global,
    going: &mut TakenOut,
    patch: &PatchCatches,
    files: &PatchFiles,
) -> Result<bool, AllocError>
    requires marked { HasMarkedFiles going.old }
    requires own { AreOfPatch patch.now.name patch.now.catches.items }
    requires apart { AreApart patch.now.name going.now.catches.items }
    requires files { HasFiles patch.now files.now }
    ensures marked { OnOk result (HasMarkedFiles going.new) }
    ensures aside { IfOk result (λ yes. IsIndependent patch.now.name going.old.catches.items patch.now.catches.items yes going.new.catches.items) }
{
    if !is_any_marked(&going.files, &files.numbers) {
        return Ok(true);
    }
    move_before_taken_out(alloc, &mut going.catches, patch)
}
