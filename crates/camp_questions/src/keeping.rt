//! Filters of lists of names.
ghost use Rattle.std.specs.Prelude.{◌≡◌, filter, not};
ghost use Rattle.camp_branch.specs.Branches.{has_patch};
ghost use Rattle.camp_branch.specs.Fields.{has_name};

use camp_base::Name;
use camp_branch::NameSet;
use camp_repo::Branch;

/// Keeps only the names that are in a set.
pub(crate) fn keep_named(names: &mut Vec<Name>, set: &NameSet)
    ensures { names.new.items ≡ filter (has_name set.now) names.old.items }
{
    names.retain(|name| set.contains_key(name));
}

/// Keeps only the names of which a branch has no patch.
pub(crate) fn keep_lacked(names: &mut Vec<Name>, branch: &Branch)
    ensures { names.new.items ≡ filter (λ name. not (has_patch branch.now name)) names.old.items }
{
    names.retain(|name| !branch.has_patch(name));
}
