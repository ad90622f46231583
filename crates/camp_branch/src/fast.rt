//! A pull skips the prefixes of the two branches that agree.
//!
//! The first n catches of two branches agree if those of one, put in the order of those of the other, are the same. All
//! their patches are common, so moving the common patches to the front, ordering and comparing them would leave them
//! unchanged.
//!
//! The length of such a prefix is found in two steps. First, catches that are the same in both branches are counted.
//! Then sums of label hashes estimate how many further catches have the same labels in another order; whether these
//! agree is decided by putting them in one order. If they do not, the complete pull finds out why.
ghost use Rattle.std.specs.Prelude.{◌+◌, ◌≤◌, drop, length, IfOk};
ghost use Rattle.camp_branch.specs.Agreeing.{Agree, ReachesAll};
ghost use Rattle.camp_branch.specs.Inside.Alike.{DifferAfter};

use crate::pulls::same_front;
use camp_catch::{Catch, Unmade};
use camp_share::{Shared, SharedList};
use std::alloc::{AllocError, Global};

/// Returns a length at which the prefixes of two lists agree, given such a length, `known`. Counts the catches after it
/// that are the same in both lists, and after these the ones that have the same labels in another order and agree.
pub(crate) fn agreed(
    alloc: Global,
    from: &SharedList<Shared<Catch>>,
    to: &SharedList<Shared<Catch>>,
    known: usize,
) -> Result<usize, AllocError>
    requires { Agree from.now to.now known }
    ensures agree { IfOk result (Agree from.now to.now) }
    ensures as_they_are { IfOk result (λ long. ReachesAll from.now to.now known long) }
{
    // A fact for the prover: a length fits in a `usize`.
    prove!(from.len() <= usize::MAX);
    let start = known + count_same(from, to, known);
    let more = count_alike_labels(from, to, start);
    if more == 0 {
        return Ok(start);
    }
    let theirs = from.range(start, start + more)?;
    let ours = to.range(start, start + more)?;
    match same_front(alloc, &theirs, &ours) {
        Ok(()) => Ok(start + more),
        Err(Unmade::Blocked(_)) => Ok(start),
        Err(Unmade::Memory) => Err(AllocError),
    }
}

/// Counts the catches from index `known` on that are the same in both lists, up to the first difference.
fn count_same(
    from: &SharedList<Shared<Catch>>,
    to: &SharedList<Shared<Catch>>,
    known: usize,
) -> usize
    requires within { known ≤ length from.now }
    requires within_too { known ≤ length to.now }
    ensures fits { known + result ≤ length from.now }
    ensures fits_too { known + result ≤ length to.now }
    ensures most { DifferAfter (drop known from.now) (drop known to.now) result }
{
    // A fact for the prover: a length fits in a `usize`.
    prove!(from.len() <= usize::MAX);
    let mut others = to.iter_from(known);
    let mut same = 0;
    for catch in from.iter_from(known) {
        let Some(other) = others.next() else {
            return same;
        };
        if !catch.is_same(other) {
            return same;
        }
        same += 1;
    }
    same
}

/// Estimates how many catches from index `known` on have the same labels in both lists, by sums over the hashes of
/// their labels. Equal sums do not prove equal labels.
fn count_alike_labels(
    from: &SharedList<Shared<Catch>>,
    to: &SharedList<Shared<Catch>>,
    known: usize,
) -> usize
    requires within { known ≤ length from.now }
    requires within_too { known ≤ length to.now }
    ensures fits { known + result ≤ length from.now }
    ensures fits_too { known + result ≤ length to.now }
{
    // A fact for the prover: a length fits in a `usize`.
    prove!(from.len() <= usize::MAX);
    let mut others = to.iter_from(known);
    let mut difference: u64 = 0;
    let mut seen = 0;
    let mut alike = 0;
    for catch in from.iter_from(known) {
        let Some(other) = others.next() else {
            return alike;
        };
        difference = difference
            .wrapping_add(label_sum(catch))
            .wrapping_sub(label_sum(other));
        seen += 1;
        if difference == 0 {
            alike = seen;
        }
    }
    alike
}

/// Hashes the label of a catch. Equal labels have equal hashes; other labels rarely do.
fn label_sum(catch: &Catch) -> u64 {
    let mut sum = catch.place() as u64;
    for byte in catch.name().bytes() {
        sum = (sum ^ *byte as u64).wrapping_mul(0x0000_0100_0000_01b3);
    }
    sum
}
