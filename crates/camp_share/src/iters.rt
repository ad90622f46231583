//! Iterators over lists in chunks.
ghost use Rattle.std.specs.Prelude.{◌≡◌, ◌++◌, length};
ghost use Rattle.std.specs.List.{All};
ghost use Rattle.std.specs.Iterator.{at_most};
ghost use Rattle.std.specs.Cmp.Lexicographic.{pointwise};
ghost use Rattle.std.specs.Map.Iter.{TakesFirst, ShowsInOrder, deref};
ghost use Rattle.camp_share.specs.Inside.Parts.{joined, IsPart};

use crate::growing::Part;
use std::iter::FusedIterator;
use std::marker::Model;

// Iterates over a list that grows at its end: the rest of the current chunk, the sealed chunks after it, and
// the tail.
#[derive(Drop)]
pub(crate) struct Steps<'a, T> {
    part: &'a [T],
    closed: &'a [Part<T>],
    last: &'a [T],
}

impl<'a, T> Model for Steps<'a, T> {
    ghost use Rattle.std.specs.Prelude.{List, ◌++◌};
    ghost use Rattle.std.specs.List.{All};
    ghost use Rattle.camp_share.specs.Inside.Parts.{joined, IsPart};

    ghost Value = { List T };

    ghost view = { λ it. it.part.now ++ joined it.closed.now ++ it.last.now };

    ghost invariant = { λ it. All IsPart it.closed.now };
}

impl<'a, T> Steps<'a, T> {
    pub(crate) fn new(closed: &'a [Part<T>], last: &'a [T]) -> Steps<'a, T>
        requires { All IsPart closed.now }
        ensures rest { result ≡ joined closed.now ++ last.now }
        ensures runs { ShowsInOrder (deref {X = T}) }
    {
        Steps {
            part: &[],
            closed,
            last,
        }
    }
}

impl<'a, T> Iterator for Steps<'a, T> {
    type Item = &'a T;

    ghost next_gives = { TakesFirst deref };

    ghost remaining = { λ s. at_most (length s) };

    fn next(&mut self) -> Option<&'a T> {
        if !self.part.is_empty() {
            let part = self.part;
            self.part = &part[1..];
            return Some(&part[0]);
        }
        let closed = self.closed;
        if !closed.is_empty() {
            let part: &[T] = &closed[0];
            self.closed = &closed[1..];
            self.part = &part[1..];
            return Some(&part[0]);
        }
        let end = self.last;
        if end.is_empty() {
            return None;
        }
        self.last = &[];
        self.part = &end[1..];
        Some(&end[0])
    }
}

/// Iterates over the elements of a list in order.
#[derive(Drop)]
pub struct Iter<'a, T> {
    part: &'a [T],
    parts: Steps<'a, Part<T>>,
    last: &'a [T],
}

impl<'a, T> Model for Iter<'a, T> {
    ghost use Rattle.std.specs.Prelude.{List, ◌++◌};
    ghost use Rattle.std.specs.List.{All};
    ghost use Rattle.camp_share.specs.Inside.Parts.{joined, IsPart};

    ghost Value = { List T };

    ghost view = { λ it. (it.part.now ++ joined it.parts) ++ it.last.now };

    ghost invariant = { λ it. All IsPart it.parts };
}

impl<'a, T> Iter<'a, T> {
    // Iterates over the rest of a chunk, the chunks after it, and a last chunk.
    pub(crate) fn new(part: &'a [T], parts: Steps<'a, Part<T>>, last: &'a [T]) -> Iter<'a, T>
        requires { All IsPart parts }
        ensures rest { result ≡ (part.now ++ joined parts.entry) ++ last.now }
        ensures runs { ShowsInOrder (deref {X = T}) }
    {
        Iter { part, parts, last }
    }

    // Iterates over one chunk.
    pub(crate) fn of_part(part: &'a [T]) -> Iter<'a, T>
        ensures rest { result ≡ part.now }
        ensures runs { ShowsInOrder (deref {X = T}) }
    {
        Iter::new(part, Steps::new(&[], &[]), &[])
    }
}

impl<'a, T> Iterator for Iter<'a, T> {
    type Item = &'a T;

    ghost next_gives = { TakesFirst deref };

    ghost remaining = { λ s. at_most (length s) };

    fn next(&mut self) -> Option<&'a T> {
        if !self.part.is_empty() {
            let part = self.part;
            self.part = &part[1..];
            return Some(&part[0]);
        }
        if let Some(part) = self.parts.next() {
            self.part = &part[1..];
            return Some(&part[0]);
        }
        let last = self.last;
        if last.is_empty() {
            return None;
        }
        self.last = &[];
        self.part = &last[1..];
        Some(&last[0])
    }
}

impl<'a, T> FusedIterator for Iter<'a, T> {}

// True if two lists of the same length have equal elements.
pub(crate) fn are_equal<T: PartialEq>(mine: Iter<'_, T>, others: Iter<'_, T>) -> bool
    requires { length mine ≡ length others }
    ensures { result ≡ pointwise T.eq mine.entry others.entry }
{
    let (mut mine, mut others) = (mine, others);
    while let Some(item) = mine.next() {
        if !others.next().is_some_and(|other| *item == *other) {
            return false;
        }
    }
    true
}
