//! Callers of `camp_branch`.
ghost use Rattle.std.specs.Prelude.{◌≡◌, ◌++◌, List, filter, IfOk, IfSome, MatchOption, Ok as ok, Err as err};
ghost use Rattle.camp_catch.specs.declared.catches.Catch.{Catch};
ghost use Rattle.camp_branch.specs.Branches.{is_among, names_of};
ghost use Rattle.camp_branch.specs.Fields.{names_in};
ghost use Rattle.camp_branch.specs.Laws.{AreLacked};
ghost use Rattle.camp_branch.specs.Obliterating.{ObliterateGives, other_names};
ghost use Rattle.camp_branch.specs.Pulling.{PullGives};
ghost use Rattle.camp_branch.specs.declared.faults.Blocked.{Blocked as Why};

use camp_branch::{
    Branch, NameSet, obliterates_keep_lawful, pulls_begin_with_own, pulls_keep_lawful,
};
use camp_catch::Unmade;
use std::alloc::AllocError;

/// Returns a branch with the wanted patches of another one, which it lacks; `None` exactly if they can't be pulled. Its
/// own patches come first, and then the new ones in the order of the other branch.
pub fn with_pulled(
    to: &Branch,
    from: &Branch,
    wanted: &NameSet,
) -> Result<Option<Branch>, AllocError>
    requires { AreLacked to.now (names_in wanted.now) }
    ensures exact { IfOk result (λ found. MatchOption found
        ((why : Why) × PullGives from.now to.now (names_in wanted.now) (err why))
        (λ pulled. PullGives from.now to.now (names_in wanted.now) (ok pulled))) }
    ensures own { IfOk result (λ found. IfSome found (λ pulled. (taken : List Catch) × (pulled ≡ to.now ++ taken))) }
    ensures names { IfOk result (λ found. IfSome found (λ pulled.
        names_of pulled ≡ names_of to.now ++ filter (is_among (names_in wanted.now)) (names_of from.now))) }
{
    pulls_begin_with_own();
    pulls_keep_lawful();
    let (_theirs, _ours) = (from.catches(), to.catches());
    match to.pulled(from, wanted) {
        Ok(pulled) => Ok(Some(pulled)),
        Err(Unmade::Blocked(_why)) => Ok(None),
        Err(Unmade::Memory) => Err(AllocError),
    }
}

/// Returns a branch without the patches of some names; `None` exactly if another patch depends on one of them. The
/// other patches keep their order.
pub fn without(branch: &Branch, names: &NameSet) -> Result<Option<Branch>, AllocError>
    ensures exact { IfOk result (λ found. MatchOption found
        ((why : Why) × ObliterateGives branch.now (names_in names.now) (err why))
        (λ left. ObliterateGives branch.now (names_in names.now) (ok left))) }
    ensures names { IfOk result (λ found. IfSome found (λ left. names_of left ≡ other_names branch.now (names_in names.now))) }
{
    obliterates_keep_lawful();
    let _lawful = branch.catches();
    match branch.without(names) {
        Ok(left) => Ok(Some(left)),
        Err(Unmade::Blocked(_why)) => Ok(None),
        Err(Unmade::Memory) => Err(AllocError),
    }
}
