//! The names that a pull or an obliteration is about.
ghost use Rattle.std.specs.Prelude.{◌≡◌, ℕ, List, drop, length, IfOk};
ghost use Rattle.camp_branch.specs.Agreeing.{Agree};
ghost use Rattle.camp_branch.specs.Branches.{first_lacked, is_among, names_of};
ghost use Rattle.camp_branch.specs.Fields.{names_in};
ghost use Rattle.camp_branch.specs.Laws.{AreLacked};
ghost use Rattle.camp_repo.specs.Wanting.{lists_none};
ghost use Rattle.camp_repo.specs.Steps.{catches_named, is_full_with, listed, wanted};

use crate::{Branch, Limits, Names};
use camp_base::Name;
use camp_branch::{NameSet, set_of};
use std::alloc::AllocError;

/// Returns the first listed name of which a branch has no patch; `None` without a list.
pub(crate) fn first_lacked(branch: &Branch, names: &Option<Names>) -> Option<Name>
    ensures { result ≡ first_lacked branch.now (listed branch.now names.now) }
{
    match names {
        Some(names) => branch.first_lacked(names.as_slice()),
        None => None,
    }
}

/// True if a list is given and empty.
pub(crate) fn lists_none(names: &Option<Names>) -> bool
    ensures { result ≡ lists_none names.now }
{
    names
        .as_ref()
        .is_some_and(|names| names.as_slice().is_empty())
}

/// Returns the listed names, or all names of `theirs` if there is no list, without those of which `ours` has a patch.
/// `long` is a length at which the prefixes of the two agree.
pub(crate) fn wanted(
    ours: &Branch,
    theirs: &Branch,
    names: &Option<Names>,
    long: usize,
) -> Result<NameSet, AllocError>
    requires { Agree theirs.now ours.now long }
    ensures { IfOk result (λ set. (name : List ℕ) →
        is_among (names_in set) name ≡ is_among (wanted ours.now (listed theirs.now names.now)) name) }
{
    match names {
        Some(names) => wanted_of(ours, names.as_slice()),
        None => wanted_behind(ours, theirs, long),
    }
}

/// Returns the names of the patches that `theirs` has and `ours` lacks. Reads only the catches of `theirs` after the
/// prefix that agrees.
fn wanted_behind(ours: &Branch, theirs: &Branch, long: usize) -> Result<NameSet, AllocError>
    requires { Agree theirs.now ours.now long }
    ensures { IfOk result (λ set. (name : List ℕ) →
        is_among (names_in set) name ≡ is_among (wanted ours.now (names_of theirs.now)) name) }
{
    let alloc = ours.catches().allocator();
    let lacked: Vec<Name> = theirs
        .catches()
        .iter_from(long)
        .map(|catch| *catch.name())
        .filter(|name| !ours.has_patch(name))
        .collect(alloc)?;
    Ok(set_of(alloc, &lacked)?)
}

/// Returns those of the names of which a branch has no patch.
fn wanted_of(branch: &Branch, names: &[Name]) -> Result<NameSet, AllocError>
    ensures { IfOk result (λ set. (name : List ℕ) →
        is_among (names_in set) name ≡ is_among (wanted branch.now names.now) name) }
{
    let alloc = branch.catches().allocator();
    let lacked: Vec<Name> = names
        .iter()
        .copied()
        .filter(|name| !branch.has_patch(name))
        .collect(alloc)?;
    Ok(set_of(alloc, &lacked)?)
}

/// True if `ours` would exceed the limit of catches if it got the catches of `theirs` that have these names. `ours` has
/// none of the names, and the prefixes of length `long` agree, so only the catches after them are counted.
pub(crate) fn is_full_with(
    limits: Limits,
    ours: &Branch,
    theirs: &Branch,
    names: &NameSet,
    long: usize,
) -> bool
    requires agree { Agree theirs.now ours.now long }
    requires lacked { AreLacked ours.now (names_in names.now) }
    ensures { result ≡ is_full_with limits.catches ours.now theirs.now (names_in names.now) }
{
    let most = limits.catches();
    let len = ours.catches().len();
    if len.saturating_add(theirs.catches().len() - long) <= most {
        return false;
    }
    let more = count_behind(theirs, names, long);
    len.saturating_add(more) > most
}

/// Returns the number of catches that a pull of these names from `theirs` appends to `ours`.
pub fn count_brought(
    ours: &Branch,
    theirs: &Branch,
    names: &Option<Names>,
) -> Result<usize, AllocError>
    ensures { IfOk result (λ count.
        count ≡ length (catches_named (wanted ours.now (listed theirs.now names.now)) theirs.now)) }
{
    let wanted = wanted(ours, theirs, names, 0)?;
    Ok(count_behind(theirs, &wanted, 0))
}

/// Counts the catches of a branch, from an index on, that have one of these names.
fn count_behind(branch: &Branch, names: &NameSet, from: usize) -> usize
    ensures { result ≡ length (catches_named (names_in names.now) (drop from branch.now)) }
{
    let catches = branch.catches();
    // A fact for the prover: a length fits in a `usize`.
    prove!(catches.len() <= usize::MAX);
    catches
        .iter_from(from)
        .filter(|catch| names.contains_key(catch.name()))
        .count()
}
