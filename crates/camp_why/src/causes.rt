//! The cause of a refusal, if the refusal alone does not say it: a limit, or a change of a record.
ghost use Rattle.std.specs.Prelude.{◌≡◌, IfOk};
ghost use Rattle.camp_repo.specs.States.{catches_of};
ghost use Rattle.camp_why.specs.Causes.{explained, first_long, full_with_pull, is_of_changes, is_of_limit, long_cause, record_cause};

use crate::stops::{Stop, first_stop};
use camp_base::{Name, Path};
use camp_prim::Primitive;
use camp_repo::{Call, MAX_SIDE_LINES, Names, Refusal, State, count_brought};
use std::alloc::AllocError;

/// The cause of a refusal.
#[derive(Debug, Drop)]
pub enum Cause {
    /// The repository has as many branches as its limits allow.
    FullRepository {
        count: usize,
        most: usize,
    },
    /// The branch has `has` catches, and would exceed `most` with the `more` of a record.
    FullBranch {
        has: usize,
        more: usize,
        most: usize,
    },
    /// The branch has `has` catches, and would exceed `most` with the `more` of a pull.
    FullWithPull {
        has: usize,
        more: usize,
        most: usize,
    },
    /// A side of an edit is too long. Contains the number of the change, counted from 1, the path of its file, and the
    /// number of lines of each side.
    LongSide {
        change: usize,
        path: Path,
        old: usize,
        new: usize,
    },
    /// The record stops at this change.
    Stops(Stop),
}

/// Returns why a call is refused, given the refusal and the state at which it was refused; with any others the result
/// may be wrong. `None` if the refusal alone says it.
pub fn explain(state: &State, call: &Call, refusal: &Refusal) -> Result<Option<Cause>, AllocError>
    ensures exact { IfOk result (λ found. found ≡ explained state.now call.now refusal.now) }
{
    match call {
        Call::Branch { .. } if is_of_limit(refusal) => {
            let count = state.names().len();
            let most = state.limits().branches();
            Ok(Some(Cause::FullRepository { count, most }))
        }
        Call::Record {
            branch,
            changes,
            ..
        } if is_of_changes(refusal) => record_cause(state, branch, changes.prims()),
        Call::Pull { from, to, names } if is_of_limit(refusal) => {
            pull_cause(state, from, to, names)
        }
        _ => Ok(None),
    }
}

// True if a refusal is `TooLarge`.
fn is_of_limit(refusal: &Refusal) -> bool
    ensures { result ≡ is_of_limit refusal.now }
{
    matches!(refusal, Refusal::TooLarge)
}

// True if a refusal of a record is about its changes.
fn is_of_changes(refusal: &Refusal) -> bool
    ensures { result ≡ is_of_changes refusal.now }
{
    matches!(refusal, Refusal::DoesNotApply | Refusal::TooLarge)
}

fn pull_cause(
    state: &State,
    from: &Name,
    to: &Name,
    names: &Option<Names>,
) -> Result<Option<Cause>, AllocError>
    ensures { IfOk result (λ found.
        found ≡ full_with_pull state.now.limits.catches (catches_of state.now.branches from.now) (catches_of state.now.branches to.now) names.now) }
{
    let Some(theirs) = state.branch(from) else {
        return Ok(None);
    };
    let Some(ours) = state.branch(to) else {
        return Ok(None);
    };
    let has = ours.catches().len();
    let more = count_brought(ours, theirs, names)?;
    let most = state.limits().catches();
    Ok(Some(Cause::FullWithPull { has, more, most }))
}

// Returns why a record of these changes is refused in a branch.
fn record_cause(
    state: &State,
    branch: &Name,
    changes: &[Primitive],
) -> Result<Option<Cause>, AllocError>
    ensures { IfOk result (λ found. found ≡ record_cause state.now.limits.catches changes.now (catches_of state.now.branches branch.now)) }
{
    let Some(branch) = state.branch(branch) else {
        return Ok(None);
    };
    let has = branch.catches().len();
    let more = changes.len();
    let most = state.limits().catches();
    if has.saturating_add(more) > most {
        return Ok(Some(Cause::FullBranch { has, more, most }));
    }
    if let Some(long) = first_long(changes)? {
        return Ok(Some(long));
    }
    let stop = first_stop(branch.tree(), changes)?;
    Ok(stop.map(Cause::Stops))
}

// Returns the first change with a side that is too long, as a cause.
fn first_long(changes: &[Primitive]) -> Result<Option<Cause>, AllocError>
    ensures { IfOk result (λ found. found ≡ first_long 1 changes.now) }
{
    for (at, change) in changes.iter().enumerate() {
        if let Some(long) = long_cause(at + 1, change)? {
            return Ok(Some(long));
        }
    }
    Ok(None)
}

// Returns the cause for a change, given its number, if one of its sides is too long; else `None`.
fn long_cause(at: usize, change: &Primitive) -> Result<Option<Cause>, AllocError>
    ensures { IfOk result (λ found. found ≡ long_cause at change.now) }
{
    match change {
        Primitive::Add(_) | Primitive::Remove(_) => Ok(None),
        Primitive::Hunk(hunk) => {
            let old = hunk.old().len();
            let new = hunk.new().len();
            if old <= MAX_SIDE_LINES && new <= MAX_SIDE_LINES {
                return Ok(None);
            }
            let path = hunk.path().try_clone()?;
            Ok(Some(Cause::LongSide {
                change: at,
                path,
                old,
                new,
            }))
        }
    }
}
