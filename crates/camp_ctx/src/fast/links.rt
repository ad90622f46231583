//! Adding a chain in one step.
ghost use Rattle.std.specs.Prelude.{◌≡◌, ◌≢◌, ◌<◌, ◌≤◌, ◌++◌, ◌↔◌, length, drop, IfOk, IsTrue};
ghost use Rattle.camp_prim.specs.Effect.{inverse_of};
ghost use Rattle.camp_prim.specs.Labels.{label_of};
ghost use Rattle.camp_seq.specs.Chains.{CanCommute, Chain};
ghost use Rattle.camp_ctx.specs.Adding.{AddsAll};
ghost use Rattle.camp_ctx.specs.Inside.Links.{Links, LinksFrom};

use crate::{Contexted, join};
use camp_prim::Named;
use camp_seq::{Seq, are_own_orders_of_chain, can_commute, is_chain};
use std::alloc::AllocError;

/// Inserts those last elements of a list before the context that form a chain with it, which is what adding them gives.
/// Returns the index of the first of them, and the new contexted patch. The elements before that index are still to be
/// added.
pub(crate) fn linked(r: &[Named], x: &Contexted) -> Result<(usize, Contexted), AllocError>
    ensures within { IfOk result (λ found. found.0 ≤ length r.now) }
    ensures added { IfOk result (λ found. AddsAll (drop found.0 r.now) x.now found.1) }
{
    let start = links_from(r, x.context().items(), x.patch());
    if start == r.len() {
        return Ok((start, x.try_clone()?));
    }
    let context = join(x.allocator(), &r[start..], x.context().items())?;
    let patch = x.patch().try_clone()?;
    let told = are_own_orders_of_chain(context.items(), &patch);
    let sum = Contexted::with_checks(x.allocator(), context, patch, told)?;
    Ok((start, sum))
}

/// True if the patch has no context, and the list is not empty and forms a chain with the patch: adding the list then
/// makes it the context.
pub(crate) fn becomes_context(r: &Seq, x: &Contexted) -> bool
    ensures some { IsTrue result → 0 < length r.now }
    ensures chain { IsTrue result → Chain r.now }
    ensures added { IsTrue result → AddsAll r.now x.now (record { context = r.now; patch = x.now.patch }) }
{
    let items = r.items();
    let context = x.context().items();
    if items.is_empty() {
        return false;
    }
    if !context.is_empty() {
        return false;
    }
    links_from(items, context, x.patch()) == 0
}

/// Returns the index from which the elements of a list form a chain with a context and its patch: no two neighbours
/// commute or cancel.
fn links_from(r: &[Named], s: &[Named], patch: &Named) -> usize
    ensures { LinksFrom r.now s.now patch.now result }
{
    if !may_link(r, s, patch) || !is_chain(s) {
        return r.len();
    }
    for at in (0..r.len()).rev() {
        if !links(&r[at], &r[at + 1..], s, patch) {
            return at + 1;
        }
    }
    0
}

/// True if the last element of a list forms a chain with a context; if it does not, no element of the list is added as
/// part of a chain.
fn may_link(r: &[Named], s: &[Named], patch: &Named) -> bool {
    match r.last() {
        None => false,
        Some(a) => links(a, &[], s, patch),
    }
}

/// True if a primitive neither commutes with nor cancels the element after it: the first of two lists or, if both are
/// empty, the patch.
fn links(a: &Named, r: &[Named], s: &[Named], patch: &Named) -> bool
    ensures { IsTrue result ↔ Links a.now (r.now ++ s.now) patch.now }
{
    if let Some(q) = r.first() {
        return is_linked(a, q);
    }
    if let Some(q) = s.first() {
        return is_linked(a, q);
    }
    !can_commute(a, patch)
}

/// True if two neighbours do not commute and their labels are not inverse.
fn is_linked(a: &Named, q: &Named) -> bool
    ensures { IsTrue result ↔ (¬ (CanCommute a.now q.now) × (label_of q.now ≢ label_of (inverse_of a.now))) }
{
    q.label() != a.label().opposite() && !can_commute(a, q)
}
