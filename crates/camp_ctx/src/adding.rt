//! Adding primitives and lists to a contexted patch, and commuting them past it.
ghost use Rattle.std.specs.Prelude.{◌≡◌, IfOk, IsTrue};
ghost use Rattle.camp_base.specs.Answers.{Finds};
ghost use Rattle.camp_prim.specs.Effect.{inverse_of};
ghost use Rattle.camp_prim.specs.Labels.{label_of};
ghost use Rattle.camp_seq.specs.NormalOrder.{Norm};
ghost use Rattle.camp_seq.specs.Passing.{Fronts, Passes};
ghost use Rattle.camp_ctx.specs.Adding.{AddsToContext, AddsAll, PassesBy, PassesByAll};
ghost use Rattle.camp_ctx.specs.Inside.InPlace.{KeepsOrder, in_context};

use crate::Contexted;
use crate::conflicts::has_label;
use crate::fast::{becomes_context, changing, linked};
use crate::joins::push_all;
use camp_prim::{Named, commute};
use camp_seq::{
    Seq, are_own_orders, are_own_orders_of_chain, front, has_room_to_merge, pass_by, past,
    put_first, put_in_order,
};
use std::alloc::{AllocError, Global};
use std::slice;

impl Contexted {
    /// Adds a list: turns what is seen after the list into what is seen before it. The primitives are added from the
    /// last to the first.
    pub fn add(r: &Seq, x: &Contexted) -> Result<Contexted, AllocError>
        ensures exact { IfOk result (λ y. AddsAll r.now x.now y) }
    {
        let items = r.items();
        let (start, sum) = linked(items, x)?;
        let all = add_items(&items[..start], sum)?;
        Ok(all)
    }

    /// Adds a list and consumes it. A chain that is linked to an empty context becomes the context without a copy.
    pub fn add_given(r: Seq, x: &Contexted) -> Result<Contexted, AllocError>
        ensures exact { IfOk result (λ y. AddsAll r x.now y) }
    {
        if !becomes_context(&r, x) {
            return Contexted::add(&r, x);
        }
        let patch = x.patch().try_clone()?;
        let told = are_own_orders_of_chain(r.items(), &patch);
        Contexted::with_checks(x.allocator(), r, patch, told)
    }

    /// Adds a primitive: removes its inverse from the front of the context if it can be moved there; else commutes it
    /// past the context and the patch; else inserts it before the context.
    pub fn add_one(a: &Named, x: &Contexted) -> Result<Contexted, AllocError>
        ensures exact { IfOk result (λ y. AddsToContext a.now x.now y) }
    {
        let copy = x.try_clone()?;
        let sum = add_items(slice::from_ref(a), copy)?;
        Ok(sum)
    }

    /// Commutes a list past a contexted patch, from its last primitive to its first. Returns the contexted patch as it
    /// is seen before the list, or `None` if one primitive cannot pass.
    pub fn past(r: &Seq, x: &Contexted) -> Result<Option<Contexted>, AllocError>
        ensures exact { IfOk result (Finds (PassesByAll r.now x.now)) }
    {
        let items = r.items();
        let mut passed = x.try_clone()?;
        for at in (0..items.len()).rev() {
            match Contexted::past_one(&items[at], &passed)? {
                None => return Ok(None),
                Some(y) => passed = y,
            }
        }
        Ok(Some(passed))
    }

    /// Commutes a primitive past the context and the patch. Returns the contexted patch as it is seen before the
    /// primitive, or `None` if it cannot pass.
    pub fn past_one(a: &Named, x: &Contexted) -> Result<Option<Contexted>, AllocError>
        ensures exact { IfOk result (Finds (PassesBy a.now x.now)) }
    {
        if x.stays_unchanged(a) {
            return Ok(Some(x.try_clone()?));
        }
        let Some((context, moved)) = past(a, x.context())? else {
            return Ok(None);
        };
        past_patch(a, context, &moved, x)
    }
}

/// Commutes a primitive that has already passed the context past the patch: it was `a` before the context, and is
/// `moved` after it. `None` if it cannot pass the patch.
fn past_patch(
    a: &Named,
    mut context: Seq,
    moved: &Named,
    x: &Contexted,
) -> Result<Option<Contexted>, AllocError>
    requires { Passes a.now x.now.context context moved.now }
    ensures { IfOk result (Finds (PassesBy a.now x.now)) }
{
    let Some((patch, _)) = commute(moved, x.patch())? else {
        return Ok(None);
    };
    let told = order_passed(a, &mut context, &patch, x.context_is_ordered());
    let before = make_contexted(x.allocator(), context, patch, told)?;
    Ok(Some(before))
}

/// Adds the elements of a list, from the last to the first. Copies nothing if a quick check finds that all of them
/// leave the contexted patch unchanged.
fn add_items(r: &[Named], x: Contexted) -> Result<Contexted, AllocError>
    ensures { IfOk result (AddsAll r.now x) }
{
    let count = changing(r, &x);
    if count == 0 {
        return Ok(x);
    }
    add_to_copy(&r[..count], &x)
}

/// Adds the elements of a list, from the last to the first, to one copy of the context, in place.
fn add_to_copy(r: &[Named], x: &Contexted) -> Result<Contexted, AllocError>
    ensures { IfOk result (AddsAll r.now x.now) }
{
    let mut context = copy_with_room(x, r.len())?;
    let mut patch = x.patch().try_clone()?;
    let mut told = x.context_is_ordered();
    for at in (0..r.len()).rev() {
        told = add_to(&r[at], &mut context, &mut patch, told)?;
    }
    make_contexted(x.allocator(), context, patch, told)
}

/// Copies the context, with capacity for `more` further elements.
fn copy_with_room(x: &Contexted, more: usize) -> Result<Seq, AllocError>
    ensures { IfOk result (λ copy. copy ≡ x.now.context) }
{
    let items = x.context().items();
    let mut copy = Seq::with_room(x.allocator(), items.len().saturating_add(more))?;
    push_all(&mut copy, items)?;
    Ok(copy)
}

/// Adds a primitive to a context and the patch after it, in place. `told` is true only if the context is its own normal
/// order before that, and the result is true only if it is so afterwards.
fn add_to(a: &Named, context: &mut Seq, patch: &mut Named, told: bool) -> Result<bool, AllocError>
    requires { IsTrue told → Norm context.old context.old }
    ensures adds { IfOk result (λ told. AddsToContext a.now (in_context context.old patch.old) (in_context context.new patch.new)) }
    ensures own { IfOk result (λ told. IsTrue told → Norm context.new context.new) }
{
    if let Some(rest) = without_inverse(a, context)? {
        *context = rest;
        return Ok(put_in_order(context));
    }
    let mut moving = a.try_clone()?;
    if pass_by(&mut moving, context, patch) {
        return Ok(order_passed(a, context, patch, told));
    }
    let told = put_first(moving, context, told)?;
    Ok(told)
}

/// Puts in normal order a context that `a` has passed, and after it `patch`. True only if the context is then its own
/// normal order.
///
/// If `told` is true, the context was its own normal order before. Then it need not be ordered again if `a` has
/// headroom to merge with the context and the patch: in that case `a^`, the context and the patch have headroom,
/// because `a^` changes the same lines as `a`.
fn order_passed(a: &Named, context: &mut Seq, patch: &Named, told: bool) -> bool
    requires { IsTrue told → KeepsOrder a.now context.old patch.now }
    ensures order { Norm context.old context.new }
    ensures own { IsTrue result → Norm context.new context.new }
{
    if !told {
        return put_in_order(context);
    }
    if !has_room_to_merge(&[], a, context.items(), patch) {
        return put_in_order(context);
    }
    true
}

/// Moves the inverse of `a` to the front of the list, and returns the list after it. `None` if the list has no
/// primitive with the inverse label that can be moved there, or that primitive is not the inverse of `a`.
fn without_inverse(a: &Named, s: &Seq) -> Result<Option<Seq>, AllocError>
    ensures exact { IfOk result
        (Finds (λ rest. Fronts (label_of (inverse_of a.now)) s.now (inverse_of a.now) rest)) }
{
    let label = a.label().opposite();
    if !has_label(s.items(), &label) {
        return Ok(None);
    }
    let Some((first, rest)) = front(s, &label)? else {
        return Ok(None);
    };
    if !first.invert().is_same(a) {
        return Ok(None);
    }
    Ok(Some(rest))
}

/// Makes a contexted patch. Its context is marked as its own normal order if `told` is true or a quick check finds it
/// so.
fn make_contexted(
    alloc: Global,
    context: Seq,
    patch: Named,
    told: bool,
) -> Result<Contexted, AllocError>
    requires { IsTrue told → Norm context context }
    ensures { IfOk result (λ y. y ≡ in_context context patch) }
{
    let (own, all) = are_own_orders(context.items(), &patch);
    Contexted::with_checks(alloc, context, patch, (told || own, all))
}
