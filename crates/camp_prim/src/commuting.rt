//! Commuting two primitives.
ghost use Rattle.std.specs.Prelude.{◌≡◌, ◌+◌, ◌≤◌, ◌<◌, ◌↔◌, IfOk, IfErr, IfSome, IsTrue, MatchOption, length, option_map};
ghost use Rattle.camp_base.specs.Answers.{Finds, FindsPair};
ghost use Rattle.camp_base.specs.Limits.{greatest_reach};
ghost use Rattle.camp_prim.specs.Hunks.{IsInRange};
ghost use Rattle.camp_prim.specs.Laws.{BothCommuteAlike, CommuteIsUnique, CommuteLaws};
ghost use Rattle.camp_prim.specs.Inside.Targets.{commuted_to_targets, CommutesInRange, IsTargetLine};
ghost use Rattle.camp_prim.specs.Commuting.{Commute};

use crate::{Hunk, Named, Primitive, commute_in_place, commutes};
use std::alloc::AllocError;

/// Commutes `p` and then `q`: `Some((q', p'))`, where `q'` and then `p'` have the same effect, or `None` if they do not
/// commute. Runs out of memory only if they commute.
pub fn commute(p: &Named, q: &Named) -> Result<Option<(Named, Named)>, AllocError>
    ensures exact { IfOk result (FindsPair (Commute p.now q.now)) }
    ensures laws { IfOk result (λ found. IfSome found (λ pair. CommuteLaws p.now q.now pair.0 pair.1)) }
    ensures memory { IfErr result (λ error. (q' : Named) × ((p' : Named) × Commute p.now q.now q' p')) }
{
    if !commutes(p, q) {
        return Ok(None);
    }
    let mut second = q.try_clone()?;
    let mut first = p.try_clone()?;
    if !commute_in_place(&mut first, &mut second) {
        return Ok(None);
    }
    Ok(Some((second, first)))
}

/// Two primitives commute to at most one pair.
#[tactic(auto, using(crate::proofs::CommuteUnique::swap_unique))]
pub fn commute_is_unique()
    ensures law { CommuteIsUnique }
{}

/// The laws of commuting two primitives: own inverse, inverse, square and effect.
pub fn commute_has_laws()
    ensures law { (p q q' p' : Named) → Commute p q q' p' → CommuteLaws p q q' p' }
{}

/// `commute` returns `None` exactly if `commute_in_place` returns false; else both give the same two
/// primitives.
#[tactic(auto, using(crate::proofs::CommuteUnique::both_commute_alike))]
pub fn both_commute_alike()
    ensures law { BothCommuteAlike }
{}

/// The lines to which two hunks move as they commute; `None` for a primitive that does not move.
#[derive(Drop)]
pub(crate) struct Targets {
    pub(crate) second: Option<u32>,
    pub(crate) first: Option<u32>,
}

pub(crate) fn targets_of(p: &Primitive, q: &Primitive) -> Option<Targets>
    ensures { FindsPair (CommutesInRange p.now q.now) (option_map (commuted_to_targets p.now q.now) result) }
{
    if p.path() != q.path() {
        return Some(Targets {
            second: None,
            first: None,
        });
    }
    let Primitive::Hunk(h) = p else {
        return None;
    };
    let Primitive::Hunk(k) = q else {
        return None;
    };
    hunk_targets(h, k)
}

fn hunk_targets(h: &Hunk, k: &Hunk) -> Option<Targets>
    requires path { h.now.path ≡ k.now.path }
    requires first { IsInRange h.now }
    requires second { IsInRange k.now }
    ensures { FindsPair (CommutesInRange (Primitive.Hunk h.now) (Primitive.Hunk k.now))
        (option_map (commuted_to_targets (Primitive.Hunk h.now) (Primitive.Hunk k.now)) result) }
{
    if let Some(line) = line_below(h.line(), h.old_len(), h.new_len(), k) {
        return Some(Targets {
            second: Some(line),
            first: None,
        });
    }
    if let Some(line) = line_below(k.line(), k.new_len(), k.old_len(), h) {
        return Some(Targets {
            second: None,
            first: Some(line),
        });
    }
    None
}

/// Computes the line to which the lower hunk moves past one at line `upper` with `takes` old and `leaves` new lines.
/// The hunk was `gap` lines below the new lines; it is then `gap` lines below the old ones. `None` if the two do not
/// commute, or the line would be out of range.
fn line_below(upper: u32, takes: usize, leaves: usize, lower: &Hunk) -> Option<u32>
    requires { upper + takes + leaves ≤ greatest_reach }
    ensures { Finds (IsTargetLine upper takes leaves lower.now) result }
{
    let gap = gap_between(upper as usize + leaves, lower.line() as usize)?;
    if gap == 0 && !are_full(takes, leaves, lower) {
        return None;
    }
    let line = upper + (takes + gap) as u32;
    lower.is_in_range_at(line).then_some(line)
}

/// Returns the number of lines between the end of the upper hunk's lines and a line; `None` if that line is among them.
fn gap_between(end: usize, line: usize) -> Option<usize>
    ensures { MatchOption result (line < end) (λ gap. line ≡ end + gap) }
{
    line.checked_sub(end)
}

/// True if no side of the two hunks is empty.
fn are_full(takes: usize, leaves: usize, lower: &Hunk) -> bool
    ensures { IsTrue result
        ↔ ((0 < takes) × (0 < leaves) × (0 < length lower.now.old) × (0 < length lower.now.new)) }
{
    if takes == 0 || leaves == 0 {
        return false;
    }
    lower.old_len() > 0 && lower.new_len() > 0
}
