//! What a state stores about common prefixes of its branches.
ghost use Rattle.std.specs.Prelude.{◌≡◌, ◌<◌, ◌↔◌, List, [], Some, length, slice_get, IfOk, IfSome, IsTrue};
ghost use Rattle.std.specs.List.{AllByRecursion};
ghost use Rattle.camp_branch.specs.Agreeing.{Agree};
ghost use Rattle.camp_catch.specs.declared.catches.Catch.{Catch};
ghost use Rattle.camp_repo.specs.Beginnings.{AgreesIn};

use camp_share::{Share, SharedList};
use std::alloc::{AllocError, Global};
use std::marker::Model;

/// The most pairs of branches for which a state stores the length of a common prefix.
const MAX_PAIRS: usize = 64;

/// Two branches, by their indexes in the order of creation, and a length at which their prefixes agree.
#[derive(Clone, Copy, Debug, PartialEq, Eq)]
pub(crate) struct KnownBeginning {
    pub(crate) from: usize,
    pub(crate) to: usize,
    pub(crate) long: usize,
}

impl Share for KnownBeginning {
    fn share(&self) -> Result<KnownBeginning, AllocError> {
        Ok(*self)
    }
}

/// Pairs of branches, each with a length at which their prefixes agree. At most `MAX_PAIRS` pairs: one more drops the
/// oldest. Updating the length of a pair does not make it newer.
#[derive(Drop)]
pub(crate) struct KnownBeginnings {
    beginnings: SharedList<KnownBeginning>,
}

impl Model for KnownBeginnings {
    ghost use Rattle.std.specs.Prelude.{List};
    ghost use Rattle.camp_repo.specs.declared.beginnings.KnownBeginning.{KnownBeginning};

    ghost Value = { List KnownBeginning };

    ghost view = { λ known. known.beginnings };
}

impl KnownBeginnings {
    /// Makes the empty list: nothing is known.
    pub(crate) fn none(alloc: Global) -> KnownBeginnings
        ensures { result ≡ [] }
    {
        KnownBeginnings {
            beginnings: SharedList::new(alloc),
        }
    }

    /// Returns a length at which the prefixes of two branches agree; 0 if none is stored.
    pub(crate) fn between(&self, from: usize, to: usize) -> usize
        ensures { (branches : List (List Catch)) → AllByRecursion (AgreesIn branches) self.now
            → (theirs ours : List Catch) → slice_get branches from ≡ Some theirs → slice_get branches to ≡ Some ours
            → Agree theirs ours result }
    {
        for beginning in self.beginnings.iter() {
            if is_of(beginning, from, to) {
                return beginning.long;
            }
        }
        0
    }

    /// Returns the list with this length stored for two branches.
    pub(crate) fn learned(
        &self,
        from: usize,
        to: usize,
        long: usize,
    ) -> Result<KnownBeginnings, AllocError>
        ensures { IfOk result (λ all. (branches : List (List Catch)) → AllByRecursion (AgreesIn branches) self.now
            → AgreesIn branches (record { from = from; to = to; long = long }) → AllByRecursion (AgreesIn branches) all) }
    {
        let beginnings = with_beginning(&self.beginnings, from, to, long)?;
        Ok(KnownBeginnings { beginnings })
    }

    /// Returns the list with pairs added for a new branch, a copy of branch `of`: the copy agrees with `of` at the
    /// length `long`, and with any other branch at the same length as `of`. Beyond the limit the oldest pairs are
    /// dropped.
    pub(crate) fn copied(
        &self,
        of: usize,
        copy: usize,
        long: usize,
    ) -> Result<KnownBeginnings, AllocError>
        ensures { IfOk result (λ all. (branches : List (List Catch)) → AllByRecursion (AgreesIn branches) self.now
            → slice_get branches copy ≡ slice_get branches of
            → AgreesIn branches (record { from = of; to = copy; long = long })
            → AgreesIn branches (record { from = copy; to = of; long = long }) → AllByRecursion (AgreesIn branches) all) }
    {
        let all = with_pairs_of_copy(&self.beginnings, of, copy)?;
        let forth = with_beginning(&all, of, copy, long)?;
        let beginnings = with_beginning(&forth, copy, of, long)?;
        Ok(KnownBeginnings { beginnings })
    }

    /// Makes a copy that shares everything with the list.
    pub(crate) fn try_clone(&self) -> Result<KnownBeginnings, AllocError>
        ensures { IfOk result (λ copy. copy ≡ self.now) }
    {
        let beginnings = self.beginnings.share()?;
        Ok(KnownBeginnings { beginnings })
    }
}

fn is_of(beginning: &KnownBeginning, from: usize, to: usize) -> bool
    ensures { IsTrue result ↔ ((beginning.now.from ≡ from) × (beginning.now.to ≡ to)) }
{
    beginning.from == from && beginning.to == to
}

/// Returns the list with this length stored for two branches: in their pair if there is one, else in a new pair at the
/// end. Beyond the limit the oldest pair is dropped.
fn with_beginning(
    known: &SharedList<KnownBeginning>,
    from: usize,
    to: usize,
    long: usize,
) -> Result<SharedList<KnownBeginning>, AllocError>
    ensures { IfOk result (λ all. (branches : List (List Catch)) → AllByRecursion (AgreesIn branches) known.now
        → AgreesIn branches (record { from = from; to = to; long = long }) → AllByRecursion (AgreesIn branches) all) }
{
    let beginning = KnownBeginning { from, to, long };
    if let Some(at) = place_of(known, from, to) {
        return known.replaced(at, beginning);
    }
    if known.len() < MAX_PAIRS {
        return known.pushed(beginning);
    }
    let others = known.without(0)?;
    others.pushed(beginning)
}

/// Returns the list with a pair appended for each pair that contains branch `of`: the same pair with the branch's copy
/// in place of `of`. Appends none beyond the limit.
fn with_pairs_of_copy(
    known: &SharedList<KnownBeginning>,
    of: usize,
    copy: usize,
) -> Result<SharedList<KnownBeginning>, AllocError>
    ensures { IfOk result (λ all. (branches : List (List Catch)) → AllByRecursion (AgreesIn branches) known.now
        → slice_get branches copy ≡ slice_get branches of → AllByRecursion (AgreesIn branches) all) }
{
    let mut all = known.share()?;
    for beginning in known.iter() {
        if all.len() >= MAX_PAIRS - 2 {
            return Ok(all);
        }
        if let Some(of_copy) = of_copy(beginning, of, copy) {
            all = all.pushed(of_copy)?;
        }
    }
    Ok(all)
}

/// Returns the pair with its branch `of` replaced by a copy of that branch; `None` if `of` is not in the pair.
fn of_copy(beginning: &KnownBeginning, of: usize, copy: usize) -> Option<KnownBeginning>
    ensures { IfSome result (λ other. (branches : List (List Catch)) → AgreesIn branches beginning.now
        → slice_get branches copy ≡ slice_get branches of → AgreesIn branches other) }
{
    let KnownBeginning { from, to, long } = *beginning;
    if from == of {
        return Some(KnownBeginning {
            from: copy,
            to,
            long,
        });
    }
    if to == of {
        return Some(KnownBeginning {
            from,
            to: copy,
            long,
        });
    }
    None
}

/// Returns the index of the pair of two branches, if there is one.
fn place_of(known: &SharedList<KnownBeginning>, from: usize, to: usize) -> Option<usize>
    ensures { IfSome result (λ at. at < length known.now) }
{
    // A fact for the prover: a length fits in a `usize`.
    prove!(known.len() <= usize::MAX);
    known
        .iter()
        .position(|beginning| is_of(beginning, from, to))
}
