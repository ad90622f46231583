//! The unresolved conflicts of a branch.
ghost use Rattle.std.specs.Prelude.{◌≡◌, ◌++◌, IfOk, OnOk};
ghost use Rattle.std.specs.List.{flat_map};
ghost use Rattle.camp_branch.specs.Inside.Collecting.{pair_of};
ghost use Rattle.camp_questions.specs.Answers.{ReportsAnswerOrMemory};
ghost use Rattle.camp_questions.specs.Inside.OpenPairs.{unresolved_of_catch, unresolved_in, unresolved_with, unresolved_within};
ghost use Rattle.camp_questions.specs.OpenConflicts.{AreUnresolved, AreUnresolvedAmong, AreUnresolvedIn, is_unresolved, has_inverse};

use crate::Unanswered;
use crate::finding::branch_of;
use crate::reporting::answer_or_memory;
use crate::sides::labels_seen;
use camp_base::Name;
use camp_catch::Catch;
use camp_ctx::{Contexted, CtxSet};
use camp_prim::Key;
use camp_repo::{Branch, Conflicts, State};
use camp_share::{Shared, SharedList};
use std::alloc::AllocError;
use std::cmp::Ordering;

/// Returns the pairs of patches that are in an unresolved conflict: each once, the lesser name first, in
/// ascending order.
pub fn unresolved_pairs(state: &State, branch: &Name) -> Result<Conflicts, Unanswered>
    ensures exact { ReportsAnswerOrMemory (AreUnresolved state.now branch.now) result }
{
    let branch = branch_of(state, branch)?;
    answer_or_memory(unresolved_in(branch))
}

/// Returns the unresolved conflicts of a branch.
pub(crate) fn unresolved_in(branch: &Branch) -> Result<Conflicts, AllocError>
    ensures { IfOk result (AreUnresolvedIn branch.now) }
{
    let pairs = unresolved_among(branch.catches(), &labels_seen(branch)?)?;
    Ok(Conflicts::new(pairs))
}

/// Returns the unresolved conflicts of a branch, given its labels in conflict.
pub(crate) fn unresolved_among(
    catches: &SharedList<Shared<Catch>>,
    seen: &CtxSet,
) -> Result<Vec<(Name, Name)>, AllocError>
    ensures { IfOk result (λ pairs. AreUnresolvedAmong catches.now seen.now pairs.items) }
{
    let mut pairs = collected(catches, seen)?;
    pairs.sort_unstable();
    pairs.dedup();
    Ok(pairs)
}

/// Returns the pairs in the order of the catches, possibly with repetitions.
fn collected(
    catches: &SharedList<Shared<Catch>>,
    seen: &CtxSet,
) -> Result<Vec<(Name, Name)>, AllocError>
    ensures { IfOk result (λ pairs. pairs.items ≡ unresolved_in seen.now catches.now) }
{
    let mut pairs = Vec::new(catches.allocator());
    for catch in catches.iter() {
        collect_from(catch, seen, &mut pairs)?;
    }
    Ok(pairs)
}

fn collect_from(
    catch: &Catch,
    seen: &CtxSet,
    pairs: &mut Vec<(Name, Name)>,
) -> Result<(), AllocError>
    ensures { OnOk result (pairs.new.items ≡ pairs.old.items ++ unresolved_of_catch seen.now catch.now) }
{
    match catch {
        Catch::Plain(_) => Ok(()),
        Catch::Conflictor(k) => {
            if !is_unresolved(seen, &k.identity.key()) {
                return Ok(());
            }
            collect_members(k.identity.name(), &k.conflicts, seen, pairs)
        }
    }
}

fn collect_members(
    name: &Name,
    set: &CtxSet,
    seen: &CtxSet,
    pairs: &mut Vec<(Name, Name)>,
) -> Result<(), AllocError>
    ensures { OnOk result (pairs.new.items ≡ pairs.old.items ++ flat_map (pair_of name.now) (unresolved_within seen.now set.now)) }
{
    for index in 0..set.len() {
        if let Some(member) = set.at(index) {
            collect_member(name, member, seen, pairs)?;
        }
    }
    Ok(())
}

fn collect_member(
    name: &Name,
    member: &Contexted,
    seen: &CtxSet,
    pairs: &mut Vec<(Name, Name)>,
) -> Result<(), AllocError>
    ensures { OnOk result (pairs.new.items ≡ pairs.old.items ++ unresolved_with seen.now name.now member.now) }
{
    if !is_unresolved(seen, &member.key()) {
        return Ok(());
    }
    push_pair(name, member.name(), pairs)
}

/// Appends the pair of two names, the lesser first, unless they are equal.
fn push_pair(name: &Name, other: &Name, pairs: &mut Vec<(Name, Name)>) -> Result<(), AllocError>
    ensures { OnOk result (pairs.new.items ≡ pairs.old.items ++ pair_of name.now other.now) }
{
    match name.cmp(other) {
        Ordering::Less => pairs.push((*name, *other))?,
        Ordering::Equal => {}
        Ordering::Greater => pairs.push((*other, *name))?,
    }
    Ok(())
}

/// True if a label is in conflict and its patch can be inserted without undoing anything.
fn is_unresolved(seen: &CtxSet, key: &Key) -> bool
    ensures { result ≡ is_unresolved seen.now key.now }
{
    match seen.get(key) {
        Some(x) => !has_inverse(x),
        None => false,
    }
}

fn has_inverse(x: &Contexted) -> bool
    ensures { result ≡ has_inverse x.now }
{
    x.context().items().iter().any(|p| p.inverse)
}
