//! What a repository had at earlier moments of its history.

ghost use Rattle.std.specs.Prelude.{◌≡◌, ◌<◌, ◌-◌, ◌^◌, IfOk, MatchOption, None, Some};
ghost use Rattle.camp_repo.specs.Lawful.{IsLawfulState};
ghost use Rattle.camp_importer.specs.Moments.{AreMoments, IsNextState, KeepsMoment, known_map, moment_of};
ghost use Rattle.std.specs.FinMap.{insert};

use camp_base::Name;
use camp_repo::{Book, Branch, Call, Decided, State, first_state};
use camp_share::{Shared, SharedMap};
use std::alloc::{AllocError, Global};

/// The branches of a repository right after their patches were recorded, by the names of these patches.
#[derive(Drop)]
pub struct Moments {
    pub(crate) branches: SharedMap<Name, Shared<Branch>>,
}

impl Moments {
    /// Returns a branch as it was right after the patch of this name was recorded on it; `None` if none is known.
    pub fn find(&self, name: &Name) -> Option<&Branch>
        ensures exact { MatchOption result
            (moment_of self.now.branches name.now ≡ None)
            (λ branch. moment_of self.now.branches name.now ≡ Some branch.now) }
    {
        let branch: &Branch = self.branches.get(name)?;
        Some(branch)
    }
}

/// Finds the moments of a book, by executing all of its calls once more.
pub fn find_moments(alloc: Global, book: &Book<State>) -> Result<Moments, AllocError>
    ensures exact { IfOk result (AreMoments book.now) }
{
    let mut state = first_state(alloc, book.state().limits())?;
    let mut branches = SharedMap::new(alloc);
    for entry in book.history() {
        let next = next_state(&state, &entry.1)?;
        let more = with_moment(alloc, branches, &next, &entry.1)?;
        state = next;
        branches = more;
    }
    Ok(Moments { branches })
}

/// Returns the state after a call that is accepted.
fn next_state(state: &State, call: &Call) -> Result<State, AllocError>
    requires counted { state.now.count < 2 ^ 64 - 1 }
    ensures lawful { IsLawfulState state.now }
    ensures exact { IfOk result (IsNextState state.now call.now) }
{
    // Calling `count` tells the prover, by its clauses, that the state is lawful.
    let _count = state.count();
    match state.decide(call)? {
        Decided::Next(next) => Ok(next),
        Decided::Answer(_) => Ok(state.try_clone()?),
    }
}

/// Adds the branch on which a call recorded a patch, in the state after it.
fn with_moment(
    alloc: Global,
    branches: SharedMap<Name, Shared<Branch>>,
    state: &State,
    call: &Call,
) -> Result<SharedMap<Name, Shared<Branch>>, AllocError>
    ensures { IfOk result (KeepsMoment state.now call.now branches) }
{
    match call {
        Call::Record {
            branch,
            name,
            changes,
        } => {
            // Calling `prims` tells the prover, by its clauses, that a patch has 1 to 64 changes.
            let _prims = changes.prims();
            match state.branch(branch) {
                Some(found) => inserted(alloc, &branches, name, found),
                None => Ok(branches),
            }
        }
        _ => Ok(branches),
    }
}

fn inserted(
    alloc: Global,
    branches: &SharedMap<Name, Shared<Branch>>,
    name: &Name,
    branch: &Branch,
) -> Result<SharedMap<Name, Shared<Branch>>, AllocError>
    ensures { IfOk result (λ new. known_map new ≡ insert (known_map branches.now) name.now branch.now) }
{
    let kept = Shared::new(alloc, branch.try_clone()?)?;
    branches.inserted(*name, kept)
}
