//! A patch as it is in a branch.
ghost use Rattle.std.specs.Prelude.{◌≡◌, ◌++◌, [], ◌∷◌, IfOk, OnOk};
ghost use Rattle.camp_repo.specs.Steps.{catches_named};
ghost use Rattle.camp_questions.specs.Answers.{ReportsAnswer};
ghost use Rattle.camp_questions.specs.Showing.{IsShown, changes_in, changes_of, patch_in};

use crate::Unanswered;
use crate::finding::branch_with;
use crate::reporting::answer_or_memory;
use camp_base::Name;
use camp_catch::Catch;
use camp_prim::{Named, Primitive};
use camp_repo::State;
use camp_share::{Share, Shared, SharedList};
use std::alloc::{AllocError, Global};
use std::marker::Model;
use std::slice;

/// A patch as it is in a branch: its catches and their changes.
#[derive(Drop)]
pub struct Shown {
    catches: Vec<Shared<Catch>>,
    changes: Vec<Primitive>,
}

impl Model for Shown {
    ghost use Rattle.std.specs.Coded.{codes};
    ghost use Rattle.camp_ctx.specs.declared.sets.CtxSet.{the_code as code_of_sets};
    ghost use Rattle.camp_questions.specs.Showing.{PatchContents};

    ghost Value = { PatchContents };

    ghost coded = { Prim.hlevel (codes, code_of_sets) };

    ghost view = { λ shown. record { catches = shown.catches.items; changes = shown.changes.items } };
}

impl Shown {
    /// Returns its catches, which are shared with the branch.
    pub fn catches(&self) -> &[Shared<Catch>]
        ensures value { result.now ≡ self.now.catches }
    {
        &self.catches
    }

    /// Returns its changes as a script would record them: those of each effect, in order.
    pub fn changes(&self) -> &[Primitive]
        ensures value { result.now ≡ self.now.changes }
    {
        &self.changes
    }

    /// Returns its changes, and consumes the patch.
    pub fn into_changes(self) -> Vec<Primitive>
        ensures value { result.items ≡ self.changes }
    {
        let Shown { changes, .. } = self;
        changes
    }
}

/// Returns a patch as it is in a branch. Its catches and the lines of its changes are shared with the branch.
pub fn show(state: &State, branch: &Name, name: &Name) -> Result<Shown, Unanswered>
    ensures exact { ReportsAnswer (IsShown state.now branch.now name.now) result }
{
    let branch = branch_with(state, branch, slice::from_ref(name))?;
    answer_or_memory(patch_in(branch.catches(), name))
}

/// Returns the patch of a name as it is in a list.
fn patch_in(list: &SharedList<Shared<Catch>>, name: &Name) -> Result<Shown, AllocError>
    ensures { IfOk result (λ shown. shown ≡ patch_in list.now name.now) }
{
    let catches = catches_named(list, name)?;
    let changes = changes_of(list.allocator(), &catches)?;
    Ok(Shown { catches, changes })
}

/// Returns the catches of the patch of a name.
fn catches_named(
    list: &SharedList<Shared<Catch>>,
    name: &Name,
) -> Result<Vec<Shared<Catch>>, AllocError>
    ensures { IfOk result (λ catches. catches.items ≡ catches_named (name.now ∷ []) list.now) }
{
    let mut catches = Vec::new(list.allocator());
    for catch in list.iter() {
        if catch.name() == name {
            catches.push(catch.share()?)?;
        }
    }
    Ok(catches)
}

/// Returns the changes of catches.
fn changes_of(alloc: Global, catches: &[Shared<Catch>]) -> Result<Vec<Primitive>, AllocError>
    ensures { IfOk result (λ changes. changes.items ≡ changes_of catches.now) }
{
    let mut changes = Vec::new(alloc);
    for catch in catches {
        append_changes(&mut changes, catch.effect())?;
    }
    Ok(changes)
}

/// Returns the changes of a list, without their labels.
pub(crate) fn changes_in(alloc: Global, effect: &[Named]) -> Result<Vec<Primitive>, AllocError>
    ensures { IfOk result (λ changes. changes.items ≡ changes_in effect.now) }
{
    let mut changes = Vec::with_capacity(alloc, effect.len())?;
    append_changes(&mut changes, effect)?;
    Ok(changes)
}

/// Appends changes to others, each without its label.
fn append_changes(changes: &mut Vec<Primitive>, effect: &[Named]) -> Result<(), AllocError>
    ensures { OnOk result (changes.new.items ≡ changes.old.items ++ changes_in effect.now) }
{
    for p in effect {
        changes.push(p.prim.try_clone()?)?;
    }
    Ok(())
}
