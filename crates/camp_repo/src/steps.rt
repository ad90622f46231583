//! The decision on each kind of call.
ghost use Rattle.std.specs.Prelude.{◌≡◌, ◌-◌, ◌^◌, ◌<◌, List, Ok, length, IfErr, IfOk};
ghost use Rattle.camp_repo.specs.Steps.{is_too_large, refused, refusal_of, step, step_branch, step_obliterate, step_pull, step_record};
ghost use Rattle.camp_repo.specs.Wanting.{HasBranch, CallMayWant, MayWantCopy, MayWantObliterate, MayWantPull, MayWantRecord};

use crate::name_lists::{first_lacked, is_full_with, lists_none, wanted};
use crate::sizes::{changed, is_too_large};
use crate::{Branch, Call, Changes, Conflicts, Decided, Names, Refusal, Reply, State};
use camp_base::Name;
use camp_branch::{Blocked, set_of};
use camp_catch::Unmade;
use std::alloc::AllocError;

impl State {
    /// Decides on a call. Each kind of call has tests, made in a given order; the first that fails decides.
    pub fn decide(&self, call: &Call) -> Result<Decided<State, Reply>, AllocError>
        requires { self.now.count < 2 ^ 64 - 1 }
        ensures exact { IfOk result (λ decided. decided ≡ step self.now call.now) }
        ensures memory { IfErr result (λ error. CallMayWant self.now call.now) }
    {
        match call {
            Call::Branch { new, from } => self.copy_branch(new, from),
            Call::Record {
                branch,
                name,
                changes,
            } => self.record(branch, name, changes),
            Call::Pull { from, to, names } => self.pull(from, to, names),
            Call::Obliterate { branch, names } => self.obliterate(branch, names),
            Call::Tree(branch) => self.show_tree(branch),
            Call::Conflicts(branch) => self.show_conflicts(branch),
            Call::Names(branch) => self.show_names(branch),
        }
    }

    fn copy_branch(&self, new: &Name, from: &Name) -> Result<Decided<State, Reply>, AllocError>
        requires { self.now.count < 2 ^ 64 - 1 }
        ensures exact { IfOk result (λ decided. decided ≡ step_branch self.now new.now from.now) }
        ensures memory { IfErr result (λ error. MayWantCopy self.now new.now from.now) }
    {
        let Some((place, branch)) = self.find(from) else {
            return Ok(refused(Refusal::NoBranch(*from)));
        };
        if self.branch(new).is_some() {
            return Ok(refused(Refusal::BranchExists(*new)));
        }
        if self.len() >= self.limits().branches() {
            return Ok(refused(Refusal::TooLarge));
        }
        let next = self.with_copy(new, place, branch)?;
        Ok(Decided::Next(next))
    }

    fn record(
        &self,
        branch: &Name,
        name: &Name,
        changes: &Changes,
    ) -> Result<Decided<State, Reply>, AllocError>
        requires { self.now.count < 2 ^ 64 - 1 }
        ensures exact { IfOk result (λ decided. decided ≡ step_record self.now branch.now name.now changes.now) }
        ensures memory { IfErr result (λ error. MayWantRecord self.now branch.now name.now (λ catches. is_too_large self.now.limits.catches catches changes.now)) }
    {
        let Some((place, old)) = self.find(branch) else {
            return Ok(refused(Refusal::NoBranch(*branch)));
        };
        if self.stands(name) {
            return Ok(refused(Refusal::PatchExists(*name)));
        }
        if is_too_large(self.limits(), old, changes.prims()) {
            return Ok(refused(Refusal::TooLarge));
        }
        let tree = match changed(old.tree(), changes.prims()) {
            Ok(tree) => tree,
            Err(Unmade::Blocked(refusal)) => return Ok(refused(refusal)),
            Err(Unmade::Memory) => return Err(AllocError),
        };
        let new = old.recorded(name, changes.prims(), tree)?;
        let next = self.with_grown(place, new)?;
        Ok(Decided::Next(next))
    }

    fn pull(
        &self,
        from: &Name,
        to: &Name,
        names: &Option<Names>,
    ) -> Result<Decided<State, Reply>, AllocError>
        requires { self.now.count < 2 ^ 64 - 1 }
        ensures exact { IfOk result (λ decided. decided ≡ step_pull self.now from.now to.now names.now) }
        ensures memory { IfErr result (λ error. MayWantPull self.now from.now to.now names.now) }
    {
        let Some((other, theirs)) = self.find(from) else {
            return Ok(refused(Refusal::NoBranch(*from)));
        };
        let Some((place, ours)) = self.find(to) else {
            return Ok(refused(Refusal::NoBranch(*to)));
        };
        if from == to {
            return Ok(refused(Refusal::SameBranch(*to)));
        }
        if let Some(name) = first_lacked(theirs, names) {
            return Ok(refused(Refusal::NoPatch(name)));
        }
        if lists_none(names) {
            return Ok(refused(Refusal::NothingToDo));
        }
        let known = self.agreed(other, place);
        let wanted = wanted(ours, theirs, names, known)?;
        if wanted.is_empty() {
            return Ok(refused(Refusal::NothingToDo));
        }
        if is_full_with(self.limits(), ours, theirs, &wanted, known) {
            return Ok(refused(Refusal::TooLarge));
        }
        let agreed = ours.agreed(theirs, known)?;
        match ours.pulled_after_prefix(theirs, &wanted, agreed) {
            Ok(pulled) => {
                let next = self.with_pulled(other, place, pulled, agreed)?;
                Ok(Decided::Next(next))
            }
            Err(Unmade::Blocked(blocked)) => Ok(refused(refusal_of(blocked))),
            Err(Unmade::Memory) => Err(AllocError),
        }
    }

    fn obliterate(&self, branch: &Name, names: &Names) -> Result<Decided<State, Reply>, AllocError>
        requires { self.now.count < 2 ^ 64 - 1 }
        ensures exact { IfOk result (λ decided. decided ≡ step_obliterate self.now branch.now names.now) }
        ensures memory { IfErr result (λ error. MayWantObliterate self.now branch.now names.now) }
    {
        let Some((place, old)) = self.find(branch) else {
            return Ok(refused(Refusal::NoBranch(*branch)));
        };
        let names = names.as_slice();
        if let Some(name) = old.first_lacked(names) {
            return Ok(refused(Refusal::NoPatch(name)));
        }
        if names.is_empty() {
            return Ok(refused(Refusal::NothingToDo));
        }
        let gone = set_of(self.allocator(), names)?;
        match old.without(&gone) {
            Ok(left) => {
                let next = self.with_replaced(place, left)?;
                Ok(Decided::Next(next))
            }
            Err(Unmade::Blocked(blocked)) => Ok(refused(refusal_of(blocked))),
            Err(Unmade::Memory) => Err(AllocError),
        }
    }

    fn show_tree(&self, branch: &Name) -> Result<Decided<State, Reply>, AllocError>
        ensures exact { IfOk result (λ decided. decided ≡ step self.now (Call.Tree branch.now)) }
        ensures memory { IfErr result (λ error. HasBranch self.now branch.now (λ catches. Unit {0})) }
    {
        let Some(branch) = self.branch(branch) else {
            return Ok(refused(Refusal::NoBranch(*branch)));
        };
        let tree = branch.tree().try_clone()?;
        Ok(Decided::Answer(Reply::Tree(tree)))
    }

    fn show_conflicts(&self, branch: &Name) -> Result<Decided<State, Reply>, AllocError>
        ensures exact { IfOk result (λ decided. decided ≡ step self.now (Call.Conflicts branch.now)) }
        ensures memory { IfErr result (λ error. HasBranch self.now branch.now (λ catches. Unit {0})) }
    {
        let Some(branch) = self.branch(branch) else {
            return Ok(refused(Refusal::NoBranch(*branch)));
        };
        let pairs = branch.conflicts()?;
        Ok(Decided::Answer(Reply::Conflicts(Conflicts::new(pairs))))
    }

    fn show_names(&self, branch: &Name) -> Result<Decided<State, Reply>, AllocError>
        ensures exact { IfOk result (λ decided. decided ≡ step self.now (Call.Names branch.now)) }
        ensures memory { IfErr result (λ error. HasBranch self.now branch.now (λ catches. Unit {0})) }
    {
        let Some(branch) = self.branch(branch) else {
            return Ok(refused(Refusal::NoBranch(*branch)));
        };
        let names = branch.names()?;
        Ok(Decided::Answer(Reply::Names(Names::new(names))))
    }
}

fn refused(refusal: Refusal) -> Decided<State, Reply>
    ensures { result ≡ refused refusal }
{
    Decided::Answer(Reply::Refused(refusal))
}

/// Returns the refusal that says why a branch can't be changed.
fn refusal_of(blocked: Blocked) -> Refusal
    ensures { result ≡ refusal_of blocked }
{
    match blocked {
        Blocked::Depends { patch, on } => Refusal::Depends { patch, on },
        Blocked::Diverged(name) => Refusal::Diverged(name),
        Blocked::NoMerge { left, right } => Refusal::NoMerge { left, right },
    }
}
