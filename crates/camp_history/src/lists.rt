//! Marks in order: a reference counted list, and after it a few marks that one seat owns.
ghost use Rattle.std.specs.Prelude.{◌≡◌, ◌∷◌, ◌++◌, ◌+◌, ◌≤◌, [], length, drop, IfOk, MatchOption};

use crate::marks::Mark;
use camp_share::{Iter, Share, SharedList};
use std::alloc::AllocError;
use std::marker::Model;

/// An iterator over marks: those not returned yet. Contracts see it as their list.
#[derive(Drop)]
pub(crate) struct MarksLeft<'a, Call> {
    earlier: Iter<'a, Mark<Call>>,
    tail: &'a [Mark<Call>],
}

impl<'a, Call> Model for MarksLeft<'a, Call> {
    ghost use Rattle.std.specs.Prelude.{◌++◌, List};
    ghost use Rattle.camp_history.specs.declared.marks.Mark.{Mark};

    ghost Value = { List (Mark Call) };

    ghost view = { λ left. left.earlier ++ left.tail.now };
}

impl<'a, Call> MarksLeft<'a, Call> {
    /// Iterates over the marks of a list and those after it, from an index on.
    pub(crate) fn new(
        earlier: &'a SharedList<Mark<Call>>,
        tail: &'a [Mark<Call>],
        from: usize,
    ) -> MarksLeft<'a, Call>
        requires { from ≤ length earlier.now + length tail.now }
        ensures { result ≡ drop from (earlier.now ++ tail.now) }
    {
        let len = earlier.len();
        if from <= len {
            return MarksLeft {
                earlier: earlier.iter_from(from),
                tail,
            };
        }
        MarksLeft {
            earlier: earlier.iter_from(len),
            tail: &tail[from - len..],
        }
    }

    pub(crate) fn next(&mut self) -> Option<&'a Mark<Call>>
        ensures { MatchOption result (self.old ≡ []) (λ mark. self.old ≡ mark.now ∷ self.new) }
    {
        if let Some(mark) = self.earlier.next() {
            return Some(mark);
        }
        let tail = self.tail;
        if tail.is_empty() {
            return None;
        }
        self.tail = &tail[1..];
        Some(&tail[0])
    }
}

/// Copies marks, with capacity for one more.
pub(crate) fn share_all<Call>(
    alloc: std::alloc::Global,
    marks: &[Mark<Call>],
) -> Result<Vec<Mark<Call>>, AllocError>
    ensures { IfOk result (λ copies. copies.items ≡ marks.now) }
{
    let mut copies = Vec::with_capacity(alloc, marks.len().saturating_add(1))?;
    for mark in marks {
        copies.push_reserved(mark.share()?);
    }
    Ok(copies)
}
