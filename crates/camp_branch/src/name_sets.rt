//! Sets of names of patches.
ghost use Rattle.std.specs.Prelude.{◌≡◌, ◌&&◌, ◌||◌, ℕ, List, not, map, IfOk};
ghost use Rattle.camp_branch.specs.Branches.{is_among, name_of};
ghost use Rattle.camp_branch.specs.Fields.{has_name, names_in};
ghost use Rattle.camp_branch.specs.Inside.Fronts.{front_before};

use camp_base::Name;
use camp_catch::Catch;
use camp_share::{MapBuilder, Share, Shared, SharedList, SharedMap};
use std::alloc::{AllocError, Global};

/// Names of patches, each once.
pub type NameSet = SharedMap<Name, ()>;

/// The most names that `set_of` inserts without sorting them.
const FEW_NAMES: usize = 64;

/// Makes the set of names. Many names are sorted first, since an insertion at the end of the set's entries moves none
/// of them.
pub fn set_of(alloc: Global, names: &[Name]) -> Result<NameSet, AllocError>
    ensures exact { IfOk result (λ set. (name : List ℕ) → is_among (names_in set) name ≡ is_among names.now name) }
{
    if names.len() <= FEW_NAMES {
        return filled(alloc, names);
    }
    let mut sorted = Vec::from_slice(alloc, names)?;
    sorted.sort_unstable();
    let set = filled(alloc, &sorted)?;
    Ok(set)
}

/// Inserts names, in the given order, into an empty set.
fn filled(alloc: Global, names: &[Name]) -> Result<NameSet, AllocError>
    ensures { IfOk result (λ set. (name : List ℕ) → is_among (names_in set) name ≡ is_among names.now name) }
{
    let mut set = MapBuilder::from_map(&SharedMap::new(alloc))?;
    for name in names {
        set.insert_if_absent(*name, ())?;
    }
    Ok(set.into_map()?)
}

/// Removes names from a set.
pub(crate) fn without(names: &NameSet, gone: &NameSet) -> Result<NameSet, AllocError>
    ensures { IfOk result (λ left. (name : List ℕ) →
        has_name left name ≡ (has_name names.now name && not (is_among (names_in gone.now) name))) }
{
    let mut left = names.share()?;
    for entry in gone.iter() {
        left = left.without(&entry.0)?;
    }
    Ok(left)
}

/// Returns the names that are in both of two lists of catches; each list's names are given as a set.
pub(crate) fn common(
    list: &[Shared<Catch>],
    names: &NameSet,
    others: &[Shared<Catch>],
    other_names: &NameSet,
) -> Result<NameSet, AllocError>
    ensures { IfOk result (λ both. (name : List ℕ) → has_name both name ≡
        ((is_among (map name_of list.now) name && has_name other_names.now name)
        || (is_among (map name_of others.now) name && has_name names.now name))) }
{
    let alloc = names.allocator();
    let theirs = list
        .iter()
        .map(|catch| *catch.name())
        .filter(|name| other_names.contains_key(name));
    let ours = others
        .iter()
        .map(|catch| *catch.name())
        .filter(|name| names.contains_key(name));
    let both: Vec<Name> = theirs.chain(ours).collect(alloc)?;
    Ok(set_of(alloc, &both)?)
}

/// Adds the names of the patches of catches to a set. The set itself is not copied first: its chunks are shared once,
/// with the first name.
pub(crate) fn with_taken(names: &NameSet, taken: &[Shared<Catch>]) -> Result<NameSet, AllocError>
    ensures { IfOk result (λ all. (name : List ℕ) →
        has_name all name ≡ (has_name names.now name || is_among (map name_of taken.now) name)) }
{
    match taken {
        [] => names.share(),
        [first, rest @ ..] => with_more(names.inserted(*first.name(), ())?, rest),
    }
}

/// Adds the names of the patches of catches to a set.
fn with_more(names: NameSet, taken: &[Shared<Catch>]) -> Result<NameSet, AllocError>
    ensures { IfOk result (λ all. (name : List ℕ) →
        has_name all name ≡ (has_name names name || is_among (map name_of taken.now) name)) }
{
    let mut all = names;
    for catch in taken {
        all = all.inserted(*catch.name(), ())?;
    }
    Ok(all)
}

/// Returns the length of the longest prefix of catches of which no patch is among the names.
pub(crate) fn front_before(catches: &SharedList<Shared<Catch>>, names: &NameSet) -> usize
    ensures { result ≡ front_before (names_in names.now) catches.now }
{
    // A fact for the prover: a length fits in a `usize`.
    prove!(catches.len() <= usize::MAX);
    catches
        .iter()
        .take_while(|catch| !names.contains_key(catch.name()))
        .count()
}
