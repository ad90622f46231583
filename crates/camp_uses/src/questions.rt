//! Callers of `camp_questions`.
ghost use Rattle.std.specs.Prelude.{◌≡◌, ◌-◌, ◌^◌, ◌<◌, length, IfErr, IfOk};
ghost use Rattle.camp_questions.specs.Answers.{ReportsAnswer};
ghost use Rattle.camp_uses.specs.Questioned.{GoesWithHeld, IsReadBack, IsRefusal, MayRefuse, PullsAlong};

use crate::calls::record;
use camp_base::Name;
use camp_questions::{Unanswered, along, along_is_enough, held_by, held_can_be_taken_out, show};
use camp_repo::{Call, Decided, Refusal, Reply, State, accepted_calls_have_effect};
use camp_script::{Script, accepted_text, canonical_text_reads_back, read_script};
use std::alloc::Global;

/// Pulls patches with their dependencies. If the pull is accepted, the branch that is pulled into has all of them. It
/// is never refused because one patch depends on another, and for a missing patch only if the other branch lacks one of
/// the given patches.
pub fn pull_along(
    state: &State,
    from: &Name,
    to: &Name,
    names: &[Name],
) -> Result<State, Unanswered>
    requires { state.now.count < 2 ^ 64 - 1 }
    ensures accepted { IfOk result (λ next. PullsAlong state.now from.now to.now names.now next) }
    ensures refused { IfErr result (λ why. MayRefuse state.now from.now to.now names.now why) }
{
    along_is_enough();
    accepted_calls_have_effect();
    let told = along(state, from, to, names)?;
    let _lawful = state.count();
    let call = Call::Pull {
        from: *from,
        to: *to,
        names: Some(told),
    };
    match state.decide(&call)? {
        Decided::Next(next) => Ok(next),
        Decided::Answer(reply) => Err(Unanswered::Refused(refusal_of(&reply))),
    }
}

/// Returns the refusal in a reply.
fn refusal_of(reply: &Reply) -> Refusal
    requires { IsRefusal reply.now }
    ensures { reply.now ≡ Reply.Refused result }
{
    let Reply::Refused(refusal) = reply else {
        unreachable!();
    };
    *refusal
}

/// Takes patches out of a branch with all their dependents. The obliteration is accepted if the branch has the patches;
/// the other patches stay.
pub fn obliterate_held(state: &State, branch: &Name, names: &[Name]) -> Result<State, Unanswered>
    requires counts { state.now.count < 2 ^ 64 - 1 }
    requires some { 0 < length names.now }
    ensures told { ReportsAnswer (GoesWithHeld state.now branch.now names.now) result }
{
    held_can_be_taken_out();
    accepted_calls_have_effect();
    let _lawful = state.count();
    let held = held_by(state, branch, names)?;
    let call = Call::Obliterate {
        branch: *branch,
        names: held,
    };
    match state.decide(&call)? {
        Decided::Next(next) => Ok(next),
        Decided::Answer(_) => unreachable!(),
    }
}

/// Shows a patch, writes it as a record in the branch `to`, and reads that as a script: it contains exactly the changes
/// that were shown. `None` if the patch has no changes, or more than a record may have.
pub fn show_and_read(
    alloc: Global,
    state: &State,
    branch: &Name,
    name: &Name,
    to: &Name,
) -> Result<Option<Script>, Unanswered>
    ensures same { IfOk result (λ found. IsReadBack state.now branch.now name.now to.now found) }
{
    canonical_text_reads_back();
    let shown = show(state, branch, name)?;
    let Some(call) = record(*to, *name, shown.into_changes()) else {
        return Ok(None);
    };
    let text = accepted_text(alloc, &call)?;
    let Ok(script) = read_script(alloc, &text) else {
        return Err(Unanswered::Memory);
    };
    Ok(Some(script))
}
