//! The sides of patches in conflict, as seen from the end of a branch.
ghost use Rattle.std.specs.Prelude.{◌≡◌, ◌≤◌, length, List, [], ◌∷◌, ◌++◌, is_some, IfOk, OnOk};
ghost use Rattle.std.specs.FinMap.{get};
ghost use Rattle.std.specs.List.{prefix_len};
ghost use Rattle.std.specs.Ordering.{eq_by_cmp};
ghost use Rattle.camp_catch.specs.declared.catches.Catch.TheVariants as catch;
ghost use Rattle.camp_prim.specs.Labels.{key_cmp, key_of, label_of};
ghost use Rattle.camp_prim.specs.declared.labels.Key.{Key as AnyKey};
ghost use Rattle.camp_prim.specs.declared.named.Named.{Named as AnyNamed};
ghost use Rattle.camp_seq.specs.Running.{inverse_all};
ghost use Rattle.camp_questions.specs.Answers.{ReportsAnswerOrMemory};
ghost use Rattle.camp_questions.specs.Inside.Seeing.{AllGathered, AppendsIfNamed, IsGathered, from_first_conflictor, is_plain_catch};
ghost use Rattle.camp_questions.specs.Showing.{changes_in};
ghost use Rattle.camp_questions.specs.Sides.{AreSeen, AppendsNew, IsSide, IsSideAmong, IsSideIn, has_key, contexted_in};

use crate::Unanswered;
use crate::finding::branch_with;
use crate::passing::seen_before;
use crate::reporting::answer_or_memory;
use crate::showing::changes_in;
use camp_base::Name;
use camp_catch::{Catch, Conflictor};
use camp_ctx::{Contexted, CtxSet};
use camp_prim::{Key, Named, Primitive};
use camp_repo::{Branch, State};
use camp_seq::{Seq, invert_all};
use camp_share::{Shared, SharedList};
use std::alloc::{AllocError, Global};
use std::marker::Model;
use std::slice;

/// The side of a patch in conflict.
#[derive(Drop)]
pub struct SideChanges {
    changes: Vec<Primitive>,
}

impl Model for SideChanges {
    ghost use Rattle.std.specs.Prelude.{List};
    ghost use Rattle.camp_prim.specs.declared.primitives.Primitive.{Primitive};

    ghost Value = { List Primitive };

    ghost view = { λ said. said.changes.items };
}

impl SideChanges {
    /// Returns the changes that apply the patch at the end of the branch, in order. There may be more than 64, which no
    /// record of one patch allows.
    pub fn changes(&self) -> &[Primitive]
        ensures value { result.now ≡ self.now }
    {
        &self.changes
    }

    /// Returns the changes, and consumes the side.
    pub fn into_changes(self) -> Vec<Primitive>
        ensures value { result.items ≡ self }
    {
        self.changes
    }
}

/// Returns the side of a patch in a branch; empty if the patch is in no conflict.
pub fn side(state: &State, branch: &Name, name: &Name) -> Result<SideChanges, Unanswered>
    ensures exact { ReportsAnswerOrMemory (IsSide state.now branch.now name.now) result }
{
    let branch = branch_with(state, branch, slice::from_ref(name))?;
    answer_or_memory(side_in_branch(branch, name))
}

/// Makes the side of a patch, which the branch has.
fn side_in_branch(branch: &Branch, name: &Name) -> Result<SideChanges, AllocError>
    ensures { IfOk result (λ changes. (side : List AnyNamed) × (changes ≡ changes_in side) × IsSideIn branch.now name.now side) }
{
    let side = side_in(branch, name)?;
    let changes = changes_in(branch.catches().allocator(), side.items())?;
    Ok(SideChanges { changes })
}

/// Returns the side of a patch in a branch.
fn side_in(branch: &Branch, name: &Name) -> Result<Seq, AllocError>
    ensures { IfOk result (IsSideIn branch.now name.now) }
{
    let seen = labels_seen(branch)?;
    side_among(branch.catches().allocator(), &seen, name)
}

/// Returns the labels in conflict of a branch, each with its contexted patch as seen from the end of the branch:
/// gathered from the last catch to the first conflictor, with the inverses of the effects after the catch added.
pub(crate) fn labels_seen(branch: &Branch) -> Result<CtxSet, AllocError>
    ensures { IfOk result (λ seen. AreSeen branch.now seen) }
{
    let alloc = branch.catches().allocator();
    let catches = from_first_conflictor(branch.catches())?;
    let mut undone = Seq::empty(alloc);
    let mut seen = CtxSet::empty(alloc);
    for at in (0..catches.len()).rev() {
        let catch = &catches[at];
        seen = with_labels_of(alloc, seen, catch, &undone)?;
        append_inverse(&mut undone, catch.effect())?;
    }
    Ok(seen)
}

/// Returns the catches of a branch from its first conflictor on, before which no label is in conflict.
fn from_first_conflictor(
    catches: &SharedList<Shared<Catch>>,
) -> Result<Vec<Shared<Catch>>, AllocError>
    ensures { IfOk result (λ rest. rest.items ≡ from_first_conflictor catches.now) }
{
    catches.range_to_vec(first_conflictor(catches), catches.len())
}

/// Returns the index of the first conflictor; the length of the list if there is none.
fn first_conflictor(catches: &SharedList<Shared<Catch>>) -> usize
    ensures index { result ≡ prefix_len is_plain_catch catches.now }
    ensures within { result ≤ length catches.now }
{
    // A fact for the prover: a length fits in a `usize`.
    prove!(catches.len() <= usize::MAX);
    catches
        .iter()
        .take_while(|catch| is_plain_catch(catch))
        .count()
}

fn is_plain_catch(catch: &Catch) -> bool
    ensures { result ≡ is_plain_catch catch.now }
{
    matches!(catch, Catch::Plain(_))
}

/// Returns the labels in conflict gathered so far, with those of one more catch; `undone` has the inverses of the
/// effects after it.
fn with_labels_of(
    alloc: Global,
    seen: CtxSet,
    catch: &Catch,
    undone: &Seq,
) -> Result<CtxSet, AllocError>
    ensures { IfOk result (λ next. (key : AnyKey) →
        IsGathered undone.now (get seen key) (contexted_in catch.now key) (get next key)) }
{
    match catch {
        Catch::Plain(_) => Ok(seen),
        Catch::Conflictor(k) => with_conflictor(alloc, seen, k, undone),
    }
}

fn with_conflictor(
    alloc: Global,
    was: CtxSet,
    k: &Conflictor,
    undone: &Seq,
) -> Result<CtxSet, AllocError>
    ensures { IfOk result (λ next. (key : AnyKey) →
        IsGathered undone.now (get was key) (contexted_in (catch.Conflictor k.now) key) (get next key)) }
{
    let mut seen = with_label(alloc, was, &k.identity, undone)?;
    for index in 0..k.conflicts.len() {
        if let Some(member) = k.conflicts.at(index) {
            seen = with_label(alloc, seen, member, undone)?;
        }
    }
    Ok(seen)
}

/// Returns the labels in conflict gathered so far, with one more unless it is among them.
fn with_label(
    alloc: Global,
    seen: CtxSet,
    x: &Contexted,
    undone: &Seq,
) -> Result<CtxSet, AllocError>
    ensures { IfOk result (AllGathered undone.now (x.now ∷ []) seen) }
{
    if is_seen(&seen, &x.key()) {
        return Ok(seen);
    }
    let added = seen_before(alloc, undone.items(), x)?;
    seen.insert(&added)
}

fn is_seen(seen: &CtxSet, key: &Key) -> bool
    ensures { result ≡ is_some (get seen.now key.now) }
{
    seen.get(key).is_some()
}

/// Appends the inverses of another list, from the last to the first.
fn append_inverse(list: &mut Seq, effect: &[Named]) -> Result<(), AllocError>
    ensures { OnOk result (list.new ≡ list.old ++ inverse_all effect.now) }
{
    for at in (0..effect.len()).rev() {
        list.push(effect[at].try_clone()?.invert())?;
    }
    Ok(())
}

/// Makes the side of a patch, given the labels in conflict of its branch.
pub(crate) fn side_among(alloc: Global, seen: &CtxSet, name: &Name) -> Result<Seq, AllocError>
    ensures { IfOk result (λ side. IsSideAmong seen.now name.now side) }
{
    let mut side = Seq::empty(alloc);
    for index in 0..seen.len() {
        if let Some(label) = seen.at(index) {
            append_named(&mut side, name, label)?;
        }
    }
    Ok(side)
}

/// Appends a contexted patch to changes if it belongs to the patch of a name.
fn append_named(side: &mut Seq, name: &Name, x: &Contexted) -> Result<(), AllocError>
    ensures { OnOk result (AppendsIfNamed side.old name.now x.now side.new) }
{
    if name != x.name() {
        return Ok(());
    }
    append_label(side, x)
}

/// Appends a contexted patch to changes, unless its label is there already.
fn append_label(side: &mut Seq, x: &Contexted) -> Result<(), AllocError>
    ensures { OnOk result (AppendsNew side.old x.now side.new) }
{
    if has_key(side.items(), &x.key()) {
        return Ok(());
    }
    let seen = Contexted::add_given(invert_all(side)?, x)?;
    append_all(side, seen.context().items())?;
    side.push(seen.patch().try_clone()?)?;
    Ok(())
}

fn append_all(list: &mut Seq, more: &[Named]) -> Result<(), AllocError>
    ensures { OnOk result (list.new ≡ list.old ++ more.now) }
{
    for p in more {
        list.push(p.try_clone()?)?;
    }
    Ok(())
}

fn has_key(list: &[Named], key: &Key) -> bool
    ensures { result ≡ has_key list.now key.now }
{
    list.iter().any(|p| is_at(p, key))
}

fn is_at(p: &Named, key: &Key) -> bool
    ensures { result ≡ eq_by_cmp key_cmp key.now (key_of (label_of p.now)) }
{
    key.cmp(&p.label().key()).is_eq()
}
