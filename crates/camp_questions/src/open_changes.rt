//! The conflicts that become unresolved from one state to the next, and those that are resolved or disappear.
ghost use Rattle.std.specs.Prelude.{◌≡◌, AllPairs, IfOk};
ghost use Rattle.camp_branch.specs.Conflicting.{IsBefore};
ghost use Rattle.camp_questions.specs.Foresight.{AreUnresolvedAt, OpensAndResolves, is_pair_among, pairs_without};

use crate::open_conflicts::unresolved_in;
use camp_base::Name;
use camp_repo::{Conflicts, State};
use std::alloc::{AllocError, Global};

/// Returns the conflicts of a branch that are unresolved only in the next state, and those that are unresolved only in
/// this state.
pub(crate) fn opened_and_resolved(
    alloc: Global,
    state: &State,
    next: &State,
    branch: &Name,
) -> Result<(Conflicts, Conflicts), AllocError>
    ensures { IfOk result (λ found. OpensAndResolves state.now next.now branch.now found.0 found.1) }
{
    let before = unresolved_conflicts(alloc, state, branch)?;
    let after = unresolved_conflicts(alloc, next, branch)?;
    let opened = without(alloc, &after, &before)?;
    let resolved = without(alloc, &before, &after)?;
    Ok((opened, resolved))
}

/// Returns the unresolved conflicts of a branch; none if there is no branch of the name.
fn unresolved_conflicts(
    alloc: Global,
    state: &State,
    branch: &Name,
) -> Result<Conflicts, AllocError>
    ensures { IfOk result (AreUnresolvedAt state.now branch.now) }
{
    match state.branch(branch) {
        Some(branch) => unresolved_in(branch),
        None => Ok(Conflicts::new(Vec::new(alloc))),
    }
}

/// Returns the pairs that are not in another list, which is in ascending order.
fn without(alloc: Global, pairs: &Conflicts, others: &Conflicts) -> Result<Conflicts, AllocError>
    requires { AllPairs IsBefore others.now }
    ensures { IfOk result (λ left. left ≡ pairs_without others.now pairs.now) }
{
    let mut left = Vec::from_slice(alloc, pairs.pairs())?;
    left.retain(|pair| !is_among(others.pairs(), pair));
    Ok(Conflicts::new(left))
}

/// True if a list in ascending order contains a pair.
fn is_among(pairs: &[(Name, Name)], pair: &(Name, Name)) -> bool
    ensures { AllPairs IsBefore pairs.now → result ≡ is_pair_among pairs.now pair.now }
{
    pairs.binary_search(pair).is_ok()
}
