//! The branch.
ghost use Rattle.std.specs.Prelude.{◌≡◌, ◌≤◌, ◌++◌, ℕ, List, [], false, length, take, drop, IfOk};
ghost use Rattle.std.specs.Cow.{cow_slice_items};
ghost use Rattle.camp_base.specs.Limits.{most_changes};
ghost use Rattle.camp_base.specs.Trees.{Files};
ghost use Rattle.camp_catch.specs.Making.{GivesOrRunsOut};
ghost use Rattle.camp_branch.specs.Agreeing.{Agree, ReachesAll};
ghost use Rattle.camp_branch.specs.Branches.{IsLawfulBranch, LeadsTo, first_lacked, has_patch, names_of, recorded};
ghost use Rattle.camp_branch.specs.Conflicting.{AreConflicts};
ghost use Rattle.camp_branch.specs.Fields.{has_name, names_in};
ghost use Rattle.camp_branch.specs.Laws.{AppliesEach, AreLacked};
ghost use Rattle.camp_branch.specs.Obliterating.{ObliterateGives};
ghost use Rattle.camp_branch.specs.Pulling.{PullGives};

use crate::conflicts::conflicts_of;
use crate::effects::{tree_after, tree_before};
use crate::fast::agreed;
use crate::name_sets::common;
use crate::pulls::{pull, wanted_next};
use crate::{Blocked, NameSet, name_sets};
use camp_base::{Name, Tree};
use camp_catch::{Catch, Unmade};
use camp_prim::{Named, Primitive};
use camp_share::{Share, Shared, SharedList, SharedMap};
use std::alloc::{AllocError, Global};
use std::borrow::CowSlice;
use std::marker::Model;

/// A branch: its catches in the order in which they were added, and the tree that they lead to. A branch
/// shares its catches and its files with those that it was made from.
#[derive(Drop)]
pub struct Branch {
    catches: SharedList<Shared<Catch>>,
    names: NameSet,
    tree: Tree,
}

impl Model for Branch {
    ghost use Rattle.std.specs.Prelude.{List};
    ghost use Rattle.std.specs.Coded.{codes};
    ghost use Rattle.camp_ctx.specs.declared.sets.CtxSet.{the_code as code_of_sets};
    ghost use Rattle.camp_catch.specs.declared.catches.Catch.{Catch};

    ghost Value = { List Catch };

    ghost coded = { Prim.hlevel (codes, code_of_sets) };

    ghost use Rattle.camp_branch.specs.Fields.{IsBranch};

    ghost view = { λ branch. branch.catches };

    ghost invariant = { IsBranch };
}

impl Branch {
    /// Makes a branch without patches; does not allocate.
    pub fn empty(alloc: Global) -> Branch
        ensures exact { result ≡ [] }
    {
        Branch {
            catches: SharedList::new(alloc),
            names: SharedMap::new(alloc),
            tree: Tree::empty(alloc),
        }
    }

    /// Returns the catches in the order in which they were added.
    pub fn catches(&self) -> &SharedList<Shared<Catch>>
        ensures value { result.now ≡ self.now }
        ensures lawful { IsLawfulBranch self.now }
    {
        &self.catches
    }

    /// Returns the tree that the catches lead to from the empty tree.
    pub fn tree(&self) -> &Tree
        ensures exact { LeadsTo self.now result.now }
    {
        &self.tree
    }

    pub fn try_clone(&self) -> Result<Branch, AllocError>
        ensures exact { IfOk result (λ copy. copy ≡ self.now) }
    {
        let catches = self.catches.share()?;
        let names = self.names.share()?;
        let tree = self.tree.try_clone()?;
        Ok(Branch {
            catches,
            names,
            tree,
        })
    }

    /// True if the branch has a patch of this name.
    pub fn has_patch(&self, name: &Name) -> bool
        ensures exact { result ≡ has_patch self.now name.now }
    {
        self.names.contains_key(name)
    }

    /// Returns the first of some names of which the branch has no patch, or `None`.
    pub fn first_lacked(&self, names: &[Name]) -> Option<Name>
        ensures exact { result ≡ first_lacked self.now names.now }
    {
        for name in names {
            if !self.has_patch(name) {
                return Some(*name);
            }
        }
        None
    }

    /// Returns the names of the patches, each once, in the order of their first catches.
    pub fn names(&self) -> Result<Vec<Name>, AllocError>
        ensures exact { IfOk result (λ names. names.items ≡ names_of self.now) }
    {
        self.catches
            .iter()
            .filter(|catch| catch.place() == 1)
            .map(|catch| *catch.name())
            .collect(self.catches.allocator())
    }

    /// Returns the pairs of patches that are in conflict, each once, the lesser name first, in ascending
    /// order.
    pub fn conflicts(&self) -> Result<Vec<(Name, Name)>, AllocError>
        ensures exact { IfOk result (λ pairs. AreConflicts self.now pairs.items) }
    {
        conflicts_of(&self.catches)
    }

    /// Returns the branch with a patch of these changes appended; `tree` is the tree that the changes lead to.
    pub fn recorded(
        &self,
        name: &Name,
        changes: &[Primitive],
        tree: Tree,
    ) -> Result<Branch, AllocError>
        requires is_new { has_patch self.now name.now ≡ false }
        requires some { 1 ≤ length changes.now }
        requires few { length changes.now ≤ most_changes }
        requires leads { (old : Files) → LeadsTo self.now old → AppliesEach changes.now old tree }
        ensures exact { IfOk result (λ branch. branch ≡ self.now ++ recorded name.now 1 changes.now) }
    {
        let catches = with_recorded(&self.catches, name, changes)?;
        let names = self.names.inserted(*name, ())?;
        Ok(Branch {
            catches,
            names,
            tree,
        })
    }

    /// Returns a length at which the prefixes of another branch and of this one agree: they contain the same patches
    /// and, put in one order, the same catches. `known` is such a length. The result counts all catches after it that
    /// are the same in both, and those further ones that are found to be the same patches in another order.
    pub fn agreed(&self, from: &Branch, known: usize) -> Result<usize, AllocError>
        requires { Agree from.now self.now known }
        ensures agree { IfOk result (Agree from.now self.now) }
        ensures as_they_are { IfOk result (λ long. ReachesAll from.now self.now known long) }
    {
        agreed(
            self.catches.allocator(),
            &from.catches,
            &self.catches,
            known,
        )
    }

    /// Pulls the wanted patches of another branch: the branch with them appended, or why they cannot be
    /// pulled.
    pub fn pulled(&self, from: &Branch, wanted: &NameSet) -> Result<Branch, Unmade<Blocked>>
        requires lacked { AreLacked self.now (names_in wanted.now) }
        ensures exact { GivesOrRunsOut (PullGives from.now self.now (names_in wanted.now)) result }
    {
        let known = self.agreed(from, 0)?;
        self.pulled_after_prefix(from, wanted, known)
    }

    /// Pulls as `pull` does, for branches whose prefixes of length `known` agree. Reads only the catches after these
    /// prefixes.
    pub fn pulled_after_prefix(
        &self,
        from: &Branch,
        wanted: &NameSet,
        known: usize,
    ) -> Result<Branch, Unmade<Blocked>>
        requires lacked { AreLacked self.now (names_in wanted.now) }
        requires agree { Agree from.now self.now known }
        ensures exact { GivesOrRunsOut (PullGives from.now self.now (names_in wanted.now)) result }
    {
        let theirs = catches_from(&from.catches, known)?;
        let ours = catches_from(&self.catches, known)?;
        let common = common(&theirs, &from.names, &ours, &self.names)?;
        let taken = pull(self.catches.allocator(), &theirs, &ours, &common, wanted)?;
        Ok(self.with_taken(&taken)?)
    }

    /// Takes the patches of these names out. Returns the branch without them, or the first other patch that depends on
    /// one of them.
    pub fn without(&self, names: &NameSet) -> Result<Branch, Unmade<Blocked>>
        ensures exact { GivesOrRunsOut (ObliterateGives self.now (names_in names.now)) result }
    {
        let staying = name_sets::without(&self.names, names)?;
        let start = name_sets::front_before(&self.catches, names);
        let rest = catches_from(&self.catches, start)?;
        let arranged = wanted_next(self.catches.allocator(), &rest, &staying)?;
        Ok(self.with_end(start, &arranged.first, &arranged.rest, staying)?)
    }

    /// Returns the branch that an obliteration leaves: its catches from `start` on are replaced by those that stay, and
    /// the effects of those that are taken out are undone. `names` are the names of the remaining patches.
    fn with_end(
        &self,
        start: usize,
        new: &[Shared<Catch>],
        gone: &[Shared<Catch>],
        names: NameSet,
    ) -> Result<Branch, AllocError>
        requires within { start ≤ length self.now }
        requires reordered { (tree : Files) → LeadsTo self.now tree → LeadsTo ((take start self.now ++ new.now) ++ gone.now) tree }
        requires lawful { IsLawfulBranch (take start self.now ++ new.now) }
        requires named { (name : List ℕ) → has_name names name ≡ has_patch (take start self.now ++ new.now) name }
        ensures { IfOk result (λ branch. branch ≡ take start self.now ++ new.now) }
    {
        let catches = self.catches.spliced(start, self.catches.len(), new)?;
        let tree = tree_before(&self.tree, gone)?;
        Ok(Branch {
            catches,
            names,
            tree,
        })
    }

    /// Returns the branch with further catches appended.
    fn with_taken(&self, taken: &[Shared<Catch>]) -> Result<Branch, AllocError>
        requires { IsLawfulBranch (self.now ++ taken.now) }
        ensures { IfOk result (λ branch. branch ≡ self.now ++ taken.now) }
    {
        let end = self.catches.len();
        let catches = self.catches.spliced(end, end, taken)?;
        let names = name_sets::with_taken(&self.names, taken)?;
        let tree = tree_after(&self.tree, taken)?;
        Ok(Branch {
            catches,
            names,
            tree,
        })
    }
}

/// Returns the catches from an index on.
fn catches_from(
    catches: &SharedList<Shared<Catch>>,
    start: usize,
) -> Result<CowSlice<'_, Shared<Catch>>, AllocError>
    requires { start ≤ length catches.now }
    ensures { IfOk result (λ list. cow_slice_items list ≡ drop start catches.now) }
{
    catches.range(start, catches.len())
}

/// Appends a plain catch for each change, at positions from 1.
fn with_recorded(
    catches: &SharedList<Shared<Catch>>,
    name: &Name,
    changes: &[Primitive],
) -> Result<SharedList<Shared<Catch>>, AllocError>
    requires { length changes.now ≤ most_changes }
    ensures { IfOk result (λ list. list ≡ catches.now ++ recorded name.now 1 changes.now) }
{
    let alloc = catches.allocator();
    if changes.len() == 1 {
        let only = plain(alloc, name, 1, &changes[0])?;
        return Ok(catches.pushed(only)?);
    }
    let mut new = Vec::with_capacity(alloc, changes.len())?;
    let mut place = 1;
    for change in changes {
        let catch = plain(alloc, name, place, change)?;
        new.push(catch)?;
        place += 1;
    }
    let end = catches.len();
    Ok(catches.spliced(end, end, &new)?)
}

fn plain(
    alloc: Global,
    name: &Name,
    place: u8,
    change: &Primitive,
) -> Result<Shared<Catch>, AllocError>
    ensures { IfOk result (λ catch. catch ≡ Catch.Plain (record { name = name.now; place = place; inverse = false; prim = change.now })) }
{
    let prim = change.try_clone()?;
    let patch = Named {
        name: *name,
        place,
        inverse: false,
        prim,
    };
    Shared::new(alloc, Catch::Plain(patch))
}
