//! Annotation as a walk over the effects of a branch.
ghost use Rattle.std.specs.Prelude.{◌≡◌, length, IfOk, OnOk};
ghost use Rattle.std.specs.FinMap.{get, insert};
ghost use Rattle.camp_base.specs.Trees.{Files};
ghost use Rattle.camp_prim.specs.Labels.{key_of, label_of};
ghost use Rattle.camp_branch.specs.Branches.{LeadsTo};
ghost use Rattle.camp_questions.specs.Annotations.{known_after_all, known_after_change, known_after_hunk, new_line_names, names_of_lines, nothing_known, own_names};
ghost use Rattle.camp_questions.specs.Inside.Walking.{AppliesWithNames, EffectAppliesWithNames, LiesWithin, kept_in, known_in};

use crate::common_lines::{common_end, common_front};
use camp_base::{Name, Path};
use camp_catch::Catch;
use camp_prim::{Hunk, Key, Named, Primitive};
use camp_share::{Shared, SharedList};
use std::alloc::{AllocError, Global};
use std::collections::BTreeMap;

/// Returns for each line of the file of a path the name of the patch that added it.
pub(crate) fn names_of_lines(
    catches: &SharedList<Shared<Catch>>,
    path: &Path,
) -> Result<SharedList<Name>, AllocError>
    requires { (tree : Files) × LeadsTo catches.now tree }
    ensures { IfOk result (λ names. names ≡ names_of_lines path.now catches.now) }
{
    let mut walk = Annotation::new(catches.allocator());
    for catch in catches.iter() {
        walk.after_effect(path, catch.name(), catch.effect())?;
    }
    Ok(walk.names)
}

/// The state of an annotation after some effects: for each line of a file the name of the patch that added it, and for
/// each hunk the names of the lines that it removed.
#[derive(Drop)]
struct Annotation {
    names: SharedList<Name>,
    taken: BTreeMap<Key, SharedList<Name>>,
}

impl Annotation {
    fn new(alloc: Global) -> Annotation
        ensures { known_in result ≡ nothing_known }
    {
        Annotation {
            names: SharedList::new(alloc),
            taken: BTreeMap::new(alloc),
        }
    }

    /// Advances the state by an effect of a patch of this name.
    fn after_effect(&mut self, path: &Path, name: &Name, effect: &[Named]) -> Result<(), AllocError>
        requires { EffectAppliesWithNames path.now effect.now (known_in self.old) }
        ensures { OnOk result (known_in self.new ≡ known_after_all path.now name.now effect.now (known_in self.old)) }
    {
        for p in effect {
            self.after_change(path, name, p)?;
        }
        Ok(())
    }

    // Advances the state by a primitive: only hunks of the file change it.
    fn after_change(&mut self, path: &Path, name: &Name, p: &Named) -> Result<(), AllocError>
        requires { AppliesWithNames path.now p.now.prim (known_in self.old) }
        ensures { OnOk result (known_in self.new ≡
            known_after_change path.now name.now (key_of (label_of p.now)) p.now.prim (known_in self.old)) }
    {
        match &p.prim {
            Primitive::Hunk(hunk) if hunk.path() == path => {
                self.after_hunk(name, p.label().key(), hunk)
            }
            _ => Ok(()),
        }
    }

    // Advances the state by a hunk of the file. Takes time proportional to the hunk's lines, plus a search among the
    // hunks before it and a reference count for each chunk of the list.
    fn after_hunk(&mut self, name: &Name, key: Key, hunk: &Hunk) -> Result<(), AllocError>
        requires { LiesWithin hunk.now (known_in self.old) }
        ensures { OnOk result (known_in self.new ≡ known_after_hunk name.now key hunk.now (known_in self.old)) }
    {
        let from = hunk.line() as usize - 1;
        let to = from + hunk.old().len();
        let gone = self.names.copied(from, to)?;
        let coming = names_after_hunk(&mut self.taken, name, key, hunk, gone)?;
        self.names = self.names.spliced(from, to, &coming)?;
        Ok(())
    }
}

// Returns the names of the new lines of a hunk; stores those of its old lines under its key.
fn names_after_hunk(
    taken: &mut BTreeMap<Key, SharedList<Name>>,
    name: &Name,
    key: Key,
    hunk: &Hunk,
    gone: SharedList<Name>,
) -> Result<Vec<Name>, AllocError>
    requires { length gone ≡ length hunk.now.old }
    ensures coming { IfOk result (λ coming.
        coming.items ≡ new_line_names (get (kept_in taken.old) key) (own_names gone name.now hunk.now) (length hunk.now.new)) }
    ensures kept { OnOk result (kept_in taken.new ≡ insert (kept_in taken.old) key gone) }
{
    let own = own_names(&gone, name, hunk)?;
    let before = store_names(taken, key, gone)?;
    new_line_names(before, own, hunk.new().len()).to_vec()
}

// Stores names under a key, and returns those that were stored there.
fn store_names(
    taken: &mut BTreeMap<Key, SharedList<Name>>,
    key: Key,
    names: SharedList<Name>,
) -> Result<Option<SharedList<Name>>, AllocError>
    ensures before { IfOk result (λ before. before ≡ get (kept_in taken.old) key) }
    ensures after { OnOk result (kept_in taken.new ≡ insert (kept_in taken.old) key names) }
{
    let before = taken.insert(key, names)?;
    Ok(before)
}

// Returns the names of the new lines of a hunk: the names of the lines that its inverse has removed, if there are as
// many; else `own`.
fn new_line_names(
    taken: Option<SharedList<Name>>,
    own: SharedList<Name>,
    count: usize,
) -> SharedList<Name>
    ensures { result ≡ new_line_names taken own count }
{
    match taken {
        Some(taken) if taken.len() == count => taken,
        _ => own,
    }
}

// Returns the names that a hunk gives to its new lines: the lines that its two sides have in common at the start and,
// in what remains, at the end keep their names; all others get the name of the patch.
fn own_names(
    gone: &SharedList<Name>,
    name: &Name,
    hunk: &Hunk,
) -> Result<SharedList<Name>, AllocError>
    requires { length gone.now ≡ length hunk.now.old }
    ensures { IfOk result (λ names. names ≡ own_names gone.now name.now hunk.now) }
{
    let front = common_front(hunk.old(), hunk.new());
    let end = common_end(&hunk.old()[front..], &hunk.new()[front..]);
    let between = vec![in gone.allocator(); *name; hunk.new().len() - front - end]?;
    gone.spliced(front, gone.len() - end, &between)
}
