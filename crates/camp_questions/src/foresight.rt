//! What a call would do, without executing it.
ghost use Rattle.std.specs.Prelude.{◌≡◌, ◌-◌, ◌^◌, ◌<◌, IfErr, IfOk};
ghost use Rattle.camp_questions.specs.Foresight.{Foresees, ForeseesAcceptance, MayWantForesight, branch_written};
ghost use Rattle.camp_questions.specs.Inside.Foresight.{LedTo};

use crate::open_changes::opened_and_resolved;
use camp_base::{Name, Tree};
use camp_repo::{Call, Conflicts, Decided, Reply, State};
use std::alloc::AllocError;

/// What a call would do.
#[derive(Drop)]
pub struct Foreseen {
    /// The reply that it would get.
    pub reply: Reply,
    /// If it would be accepted: the branch that it writes to, in its state after the call.
    pub changed: Option<BranchState>,
}

/// The state of a branch after a call, and how the call would change its unresolved conflicts.
#[derive(Drop)]
pub struct BranchState {
    pub branch: Name,
    pub tree: Tree,
    pub conflicts: Conflicts,
    /// The conflicts that become unresolved.
    pub opened: Conflicts,
    /// The conflicts that are unresolved before the call, and not after it.
    pub resolved: Conflicts,
}

/// Returns the reply that a call would get and, if it would be accepted, the branch that it writes to in its state
/// after the call. Changes nothing.
pub fn what_if(state: &State, call: &Call) -> Result<Foreseen, AllocError>
    requires { state.now.count < 2 ^ 64 - 1 }
    ensures exact { IfOk result (λ seen. Foresees state.now call.now seen) }
    ensures memory { IfErr result (λ error. MayWantForesight state.now call.now) }
{
    // The clauses of this call show the prover that the state is lawful.
    let _lawful = state.count();
    match state.decide(call)? {
        Decided::Answer(reply) => Ok(Foreseen {
            reply,
            changed: None,
        }),
        Decided::Next(next) => written(state, &next, call),
    }
}

/// Returns the reply to an accepted call, and the branch that it has written to in the state after the call.
fn written(state: &State, next: &State, call: &Call) -> Result<Foreseen, AllocError>
    requires { LedTo call.now state.now next.now }
    ensures { IfOk result (ForeseesAcceptance call.now state.now next.now) }
{
    let Some(name) = branch_written(call) else {
        unreachable!();
    };
    let Some(branch) = next.branch(&name) else {
        unreachable!();
    };
    let alloc = branch.catches().allocator();
    let tree = branch.tree().try_clone()?;
    let pairs = branch.conflicts()?;
    let (opened, resolved) = opened_and_resolved(alloc, state, next, &name)?;
    let standing = BranchState {
        branch: name,
        tree,
        conflicts: Conflicts::new(pairs),
        opened,
        resolved,
    };
    Ok(Foreseen {
        reply: Reply::Done(next.count()),
        changed: Some(standing),
    })
}

/// Returns the branch that a call writes to.
fn branch_written(call: &Call) -> Option<Name>
    ensures { result ≡ branch_written call.now }
{
    match call {
        Call::Branch { new, .. } => Some(*new),
        Call::Record { branch, .. } | Call::Obliterate { branch, .. } => Some(*branch),
        Call::Pull { to, .. } => Some(*to),
        Call::Tree(_) | Call::Conflicts(_) | Call::Names(_) => None,
    }
}
