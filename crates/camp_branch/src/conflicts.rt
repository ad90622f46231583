//! The conflicts of a branch.
ghost use Rattle.std.specs.Prelude.{◌≡◌, ◌++◌, IfOk, OnOk};
ghost use Rattle.std.specs.List.{flat_map};
ghost use Rattle.camp_branch.specs.Conflicting.{AreConflicts};
ghost use Rattle.camp_branch.specs.Inside.Collecting.{names_within, pair_of, pairs_at, pairs_in};

use camp_base::Name;
use camp_catch::Catch;
use camp_ctx::CtxSet;
use camp_share::{Shared, SharedList};
use std::alloc::AllocError;
use std::cmp::Ordering;

/// Returns the pairs of patches in conflict, each once, the lesser name first, in ascending order.
pub(crate) fn conflicts_of(
    catches: &SharedList<Shared<Catch>>,
) -> Result<Vec<(Name, Name)>, AllocError>
    ensures { IfOk result (λ pairs. AreConflicts catches.now pairs.items) }
{
    let mut pairs = collected(catches)?;
    pairs.sort_unstable();
    pairs.dedup();
    Ok(pairs)
}

/// Returns the pairs in the order of the catches, possibly with repetitions.
fn collected(catches: &SharedList<Shared<Catch>>) -> Result<Vec<(Name, Name)>, AllocError>
    ensures { IfOk result (λ pairs. pairs.items ≡ pairs_in catches.now) }
{
    let mut pairs = Vec::new(catches.allocator());
    for catch in catches.iter() {
        collect_from(catch, &mut pairs)?;
    }
    Ok(pairs)
}

fn collect_from(catch: &Catch, pairs: &mut Vec<(Name, Name)>) -> Result<(), AllocError>
    ensures { OnOk result (pairs.new.items ≡ pairs.old.items ++ pairs_at catch.now) }
{
    match catch {
        Catch::Plain(_) => Ok(()),
        Catch::Conflictor(k) => pair_with_each(k.identity.name(), &k.conflicts, pairs),
    }
}

fn pair_with_each(
    name: &Name,
    set: &CtxSet,
    pairs: &mut Vec<(Name, Name)>,
) -> Result<(), AllocError>
    ensures { OnOk result (pairs.new.items ≡ pairs.old.items ++ flat_map (pair_of name.now) (names_within set.now)) }
{
    for index in 0..set.len() {
        if let Some(member) = set.at(index) {
            push_pair(name, member.name(), pairs)?;
        }
    }
    Ok(())
}

/// Appends two names as a pair, the lesser first, unless they are equal.
fn push_pair(name: &Name, other: &Name, pairs: &mut Vec<(Name, Name)>) -> Result<(), AllocError>
    ensures { OnOk result (pairs.new.items ≡ pairs.old.items ++ pair_of name.now other.now) }
{
    match name.cmp(other) {
        Ordering::Less => pairs.push((*name, *other))?,
        Ordering::Equal => {}
        Ordering::Greater => pairs.push((*other, *name))?,
    }
    Ok(())
}
