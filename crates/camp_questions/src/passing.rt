//! Moves the contexted patches of labels in conflict from after changes to before them. Most changes leave a contexted
//! patch unchanged, or move it only to another line; these are passed quickly. Any other change is added as the
//! definition says.
ghost use Rattle.std.specs.Prelude.{◌≡◌, ◌+◌, ◌<◌, ◌≤◌, ◌↔◌, [], drop, length, IfOk, IfSome, IsTrue};
ghost use Rattle.camp_ctx.specs.Adding.{AddsAll};
ghost use Rattle.camp_ctx.specs.Contexts.{bare};
ghost use Rattle.camp_prim.specs.Effect.{InRange};
ghost use Rattle.camp_prim.specs.Hunks.{IsInRange};
ghost use Rattle.camp_prim.specs.Labels.{SameKey};
ghost use Rattle.camp_prim.specs.Commuting.{at_line, path_of};
ghost use Rattle.camp_prim.specs.declared.primitives.Primitive.TheVariants as primitive;
ghost use Rattle.camp_questions.specs.Inside.Moving.{HunkMovesBefore, HunkCommutesPast, hunk_at};

use camp_ctx::{Contexted, join};
use camp_prim::{Hunk, Named, Primitive};
use camp_seq::Seq;
use std::alloc::{AllocError, Global};

/// The greatest sum of a hunk's line and the counts of its old and of its new lines.
const MOST_REACH: usize = 1 << 30;

/// Moves a contexted patch from after changes to before them. Changes that can't be passed quickly are added in groups,
/// each twice as long as the one before as long as none is passed quickly.
pub(crate) fn seen_before(
    alloc: Global,
    changes: &[Named],
    x: &Contexted,
) -> Result<Contexted, AllocError>
    ensures { IfOk result (λ y. AddsAll changes.now x.now y) }
{
    let mut seen = x.try_clone()?;
    let mut left = changes.len();
    let mut most = 1;
    while left > 0 {
        let (stop, passed) = passed_by(alloc, &changes[..left], &seen)?;
        most = next_most(most, stop == left);
        let from = stop.saturating_sub(most);
        seen = added(alloc, &changes[from..stop], &passed)?;
        left = from;
    }
    Ok(seen)
}

/// Returns the length of the next group of changes to add: 1 if some changes were passed quickly, else twice that of
/// the group before.
fn next_most(most: usize, none_passed: bool) -> usize
    requires { 1 ≤ most }
    ensures { 1 ≤ result }
{
    if none_passed {
        most.saturating_mul(2)
    } else {
        1
    }
}

fn added(alloc: Global, changes: &[Named], x: &Contexted) -> Result<Contexted, AllocError>
    ensures { IfOk result (λ y. AddsAll changes.now x.now y) }
{
    Contexted::add_given(join(alloc, changes, &[])?, x)
}

/// Passes changes quickly, from the last one on, as far as possible. Returns the index of the first change that was
/// passed, and the contexted patch as it is before that change.
fn passed_by(
    alloc: Global,
    changes: &[Named],
    x: &Contexted,
) -> Result<(usize, Contexted), AllocError>
    ensures within { IfOk result (λ found. found.0 ≤ length changes.now) }
    ensures added { IfOk result (λ found. AddsAll (drop found.0 changes.now) x.now found.1) }
{
    let Some(hunk) = hunk_alone(x) else {
        return Ok((stays_from(changes, x), x.try_clone()?));
    };
    let (stop, line) = moves_from(changes, x.patch(), hunk);
    let moved = moved_to(alloc, x, hunk, line)?;
    Ok((stop, moved))
}

/// Returns the index from which on all changes leave a contexted patch unchanged.
fn stays_from(changes: &[Named], x: &Contexted) -> usize
    ensures within { result ≤ length changes.now }
    ensures added { AddsAll (drop result changes.now) x.now x.now }
{
    for at in (0..changes.len()).rev() {
        if !x.stays_unchanged(&changes[at]) {
            return at + 1;
        }
    }
    0
}

/// Returns the hunk of a contexted patch without a context; `None` for any other contexted patch.
fn hunk_alone(x: &Contexted) -> Option<&Hunk>
    ensures none { IfSome result (λ hunk. x.now.context ≡ []) }
    ensures is { IfSome result (λ hunk. x.now.patch.prim ≡ primitive.Hunk hunk.now) }
{
    if !x.context().items().is_empty() {
        return None;
    }
    match &x.patch().prim {
        Primitive::Hunk(hunk) => Some(hunk),
        _ => None,
    }
}

/// Commutes a hunk past changes, from the last to the first, as far as possible. Returns the index of the first that it
/// has passed, and its line before that one.
fn moves_from(changes: &[Named], patch: &Named, hunk: &Hunk) -> (usize, u32)
    requires { patch.now.prim ≡ primitive.Hunk hunk.now }
    ensures within { result.0 ≤ length changes.now }
    ensures range { IsInRange (at_line result.1 hunk.now) }
    ensures added { AddsAll (drop result.0 changes.now) (bare patch.now) (bare (hunk_at patch.now hunk.now result.1)) }
{
    let mut line = hunk.line();
    for at in (0..changes.len()).rev() {
        match line_before(&changes[at], patch, hunk, line) {
            Some(next) => line = next,
            None => return (at + 1, line),
        }
    }
    (0, line)
}

/// Returns the line to which a hunk moves from after a change to before it; `None` if it can't commute past, or the
/// quick check does not decide.
fn line_before(change: &Named, patch: &Named, hunk: &Hunk, line: u32) -> Option<u32>
    requires { IsInRange (at_line line hunk.now) }
    ensures range { IfSome result (λ next. IsInRange (at_line next hunk.now)) }
    ensures passes { IfSome result (λ next. HunkMovesBefore change.now patch.now hunk.now line next) }
{
    if !is_other(change, patch) {
        return None;
    }
    if !is_in_file(&change.prim, hunk) {
        return Some(line);
    }
    match &change.prim {
        Primitive::Hunk(other) => line_past(other, hunk, line),
        _ => None,
    }
}

fn is_other(change: &Named, patch: &Named) -> bool
    ensures { IsTrue result → ¬ (SameKey change.now patch.now) }
{
    change.name != patch.name || change.place != patch.place
}

fn is_in_file(change: &Primitive, hunk: &Hunk) -> bool
    ensures is { IsTrue result ↔ (path_of change.now ≡ hunk.now.path) }
    ensures range { InRange change.now }
{
    change.path() == hunk.path()
}

/// Returns the line to which a hunk moves from after another hunk of its file to before it, if there are lines between
/// the two.
fn line_past(other: &Hunk, hunk: &Hunk, line: u32) -> Option<u32>
    requires range { IsInRange (at_line line hunk.now) }
    requires path { other.now.path ≡ hunk.now.path }
    ensures { IfSome result (λ next. HunkCommutesPast other.now hunk.now line next) }
{
    if other.line() as usize + other.new().len() < line as usize {
        return line_below(other, hunk, line);
    }
    if line as usize + hunk.old().len() < other.line() as usize {
        return line_above(other, hunk, line);
    }
    None
}

fn line_below(other: &Hunk, hunk: &Hunk, line: u32) -> Option<u32>
    requires range { IsInRange (at_line line hunk.now) }
    requires path { other.now.path ≡ hunk.now.path }
    requires below { other.now.line + length other.now.new < line }
    ensures { IfSome result (λ next. HunkCommutesPast other.now hunk.now line next) }
{
    let gap = line - other.line() - other.new().len() as u32;
    let next = other.line() as usize + other.old().len() + gap as usize;
    if next + hunk.old().len() + hunk.new().len() > MOST_REACH {
        return None;
    }
    Some(next as u32)
}

/// Returns the line of a hunk that is above another one, which is its old line; `None` if the other one would be out of
/// range after it.
fn line_above(other: &Hunk, hunk: &Hunk, line: u32) -> Option<u32>
    requires range { IsInRange (at_line line hunk.now) }
    requires path { other.now.path ≡ hunk.now.path }
    requires above { line + length hunk.now.old < other.now.line }
    ensures { IfSome result (λ next. HunkCommutesPast other.now hunk.now line next) }
{
    let gap = other.line() - line - hunk.old().len() as u32;
    let behind = line as usize + hunk.new().len() + gap as usize;
    if behind + other.old().len() + other.new().len() > MOST_REACH {
        return None;
    }
    Some(line)
}

/// Returns a contexted patch without a context, with its hunk at another line.
fn moved_to(alloc: Global, x: &Contexted, hunk: &Hunk, line: u32) -> Result<Contexted, AllocError>
    requires none { x.now.context ≡ [] }
    requires is { x.now.patch.prim ≡ primitive.Hunk hunk.now }
    requires range { IsInRange (at_line line hunk.now) }
    ensures { IfOk result (λ y. y ≡ bare (hunk_at x.now.patch hunk.now line)) }
{
    if line == hunk.line() {
        return x.try_clone();
    }
    let Some(moved) = hunk.moved(line)? else {
        unreachable!();
    };
    let patch = x.patch();
    let moved = Named {
        name: patch.name,
        place: patch.place,
        inverse: patch.inverse,
        prim: Primitive::Hunk(moved),
    };
    Contexted::new(alloc, Seq::empty(alloc), moved)
}
