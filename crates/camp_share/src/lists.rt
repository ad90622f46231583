//! The shared list: a chunk tree, and its last chunk apart from the tree.
ghost use Rattle.std.specs.Prelude.{◌≡◌, ◌+◌, ◌<◌, ◌≤◌, ◌^◌, ◌==◌, List, [], ◌∷◌, ◌++◌, length, take, drop, slice_get, slice_range, slice_set, IfOk};
ghost use Rattle.std.specs.List.{splice, insert, remove};
ghost use Rattle.std.specs.Cow.{cow_slice_items};
ghost use Rattle.std.specs.Option.{option_copied};
ghost use Rattle.std.specs.Cmp.Lexicographic.{pointwise, lists_per, lists_equiv};
ghost use Rattle.std.specs.Map.Iter.{ShowsInOrder, deref};

use crate::growing::push_copy;
use crate::iters::are_equal;
use crate::pieces::{Front, OnePart, has_room, spliced};
use crate::{Iter, Share};
use std::alloc::{AllocError, Global};
use std::borrow::CowSlice;
use std::marker::Model;

/// A list in chunks of up to 24 elements, which it shares with the lists that it was made from. The last chunk is
/// stored apart from the others; these share one reference count.
#[derive(Drop)]
pub struct SharedList<T> {
    front: Front<T>,
    last: OnePart<T>,
    len: usize,
    alloc: Global,
}

impl<T> Model for SharedList<T> {
    ghost use Rattle.std.specs.Prelude.{◌≡◌, ◌++◌, List, length};

    ghost Value = { List T };

    ghost view = { λ list. list.front ++ list.last };

    ghost invariant = { λ list. length (list.front ++ list.last) ≡ list.len };
}

impl<T> SharedList<T> {
    /// Makes an empty list.
    pub fn new(alloc: Global) -> SharedList<T>
        ensures exact { result ≡ [] }
    {
        SharedList {
            front: Front::empty(),
            last: OnePart::empty(),
            len: 0,
            alloc,
        }
    }

    /// Returns the number of elements.
    pub fn len(&self) -> usize
        ensures exact { result ≡ length self.now }
    {
        self.len
    }

    /// True if the list has no elements.
    pub fn is_empty(&self) -> bool
        ensures exact { result ≡ (length self.now == 0) }
    {
        self.len == 0
    }

    /// Returns the element at `index`, or `None` past the end.
    pub fn get(&self, index: usize) -> Option<&T>
        ensures exact { option_copied result ≡ slice_get self.now index }
    {
        self.iter_from(index).next()
    }

    /// Iterates over the elements in order.
    pub fn iter(&self) -> Iter<'_, T>
        ensures rest { result ≡ self.now }
        ensures runs { ShowsInOrder (deref {X = T}) }
    {
        self.front.iter_from(0, self.last.items())
    }

    /// Iterates over the elements from index `from` on; none past the end.
    pub fn iter_from(&self, from: usize) -> Iter<'_, T>
        ensures rest { result ≡ drop from self.now }
        ensures runs { ShowsInOrder (deref {X = T}) }
    {
        let last = self.last.items();
        let border = self.front.len();
        if from < border {
            return self.front.iter_from(from, last);
        }
        let place = from - border;
        if place >= last.len() {
            return Iter::of_part(&[]);
        }
        Iter::of_part(&last[place..])
    }

    /// Returns the allocator of the list.
    pub fn allocator(&self) -> Global {
        self.alloc
    }
}

impl<T: Share + Drop> SharedList<T> {
    /// Makes a list of copies of `items`.
    pub fn from_items(alloc: Global, items: &[T]) -> Result<SharedList<T>, AllocError>
        ensures exact { IfOk result (λ list. list ≡ items.now) }
    {
        SharedList::new(alloc).spliced(0, 0, items)
    }

    /// Copies all elements into one vector.
    pub fn to_vec(&self) -> Result<Vec<T>, AllocError>
        ensures exact { IfOk result (λ items. items.items ≡ self.now) }
    {
        self.range_to_vec(0, self.len)
    }

    /// Returns the elements `from..to`: borrowed if all of them are in the last chunk, else copied.
    pub fn range(&self, from: usize, to: usize) -> Result<CowSlice<'_, T>, AllocError>
        requires range { from ≤ to }
        requires within { to ≤ length self.now }
        ensures exact { IfOk result (λ items. cow_slice_items items ≡ slice_range self.now from to) }
    {
        let border = self.front.len();
        if from < border {
            return Ok(CowSlice::Owned(self.range_to_vec(from, to)?));
        }
        let items = &self.last.items()[from - border..to - border];
        Ok(CowSlice::Borrowed(items))
    }

    /// Copies the elements `from..to` into one vector.
    pub fn range_to_vec(&self, from: usize, to: usize) -> Result<Vec<T>, AllocError>
        requires range { from ≤ to }
        requires within { to ≤ length self.now }
        ensures exact { IfOk result (λ items. items.items ≡ slice_range self.now from to) }
    {
        let mut items = Vec::with_capacity(self.alloc, to - from)?;
        for item in self.iter_from(from).take(to - from) {
            push_copy(&mut items, item)?;
        }
        Ok(items)
    }

    /// Returns the list with one element appended.
    pub fn pushed(&self, item: T) -> Result<SharedList<T>, AllocError>
        ensures exact { IfOk result (λ list. list ≡ self.now ++ item ∷ []) }
    {
        self.inserted(self.len, item)
    }

    /// Returns the list with an element inserted before index `index`.
    pub fn inserted(&self, index: usize, item: T) -> Result<SharedList<T>, AllocError>
        requires { index ≤ length self.now }
        ensures exact { IfOk result (λ list. list ≡ insert self.now index item) }
    {
        self.with_one(index, index, item)
    }

    // Returns the list with the elements `from..to` replaced by one.
    fn with_one(&self, from: usize, to: usize, item: T) -> Result<SharedList<T>, AllocError>
        requires range { from ≤ to }
        requires within { to ≤ length self.now }
        ensures { IfOk result (λ list. list ≡ splice self.now from to (item ∷ [])) }
    {
        let border = self.front.len();
        if from < border || !has_room(border, &self.last, to - from, 1) {
            let mut one = Vec::with_capacity(self.alloc, 1)?;
            one.push(item)?;
            return self.spliced(from, to, &one);
        }
        let Some(len) = (self.len - (to - from)).checked_add(1) else {
            return Err(AllocError);
        };
        let last = self
            .last
            .with_one(self.alloc, from - border, to - border, item)?;
        let front = self.front.share()?;
        Ok(SharedList {
            front,
            last,
            len,
            alloc: self.alloc,
        })
    }

    /// Returns the list with the elements `from..to` replaced by copies of `items`.
    pub fn spliced(&self, from: usize, to: usize, items: &[T]) -> Result<SharedList<T>, AllocError>
        requires range { from ≤ to }
        requires within { to ≤ length self.now }
        ensures exact { IfOk result (λ list. list ≡ splice self.now from to items.now) }
    {
        let Some(len) = (self.len - (to - from)).checked_add(items.len()) else {
            return Err(AllocError);
        };
        let (front, last) = spliced(&self.front, &self.last, self.alloc, from, to, items)?;
        Ok(SharedList {
            front,
            last,
            len,
            alloc: self.alloc,
        })
    }

    /// Returns the list with another element at `index`.
    pub fn replaced(&self, index: usize, item: T) -> Result<SharedList<T>, AllocError>
        requires { index < length self.now }
        ensures exact { IfOk result (λ list. list ≡ slice_set self.now index item) }
    {
        prove!(index < self.len);
        self.with_one(index, index + 1, item)
    }

    /// Returns the list without the element at `index`.
    pub fn without(&self, index: usize) -> Result<SharedList<T>, AllocError>
        requires { index < length self.now }
        ensures exact { IfOk result (λ list. list ≡ remove self.now index) }
    {
        prove!(index < self.len);
        self.spliced(index, index + 1, &[])
    }

    /// Returns the list of the elements `from..to`; shares their whole chunks.
    pub fn copied(&self, from: usize, to: usize) -> Result<SharedList<T>, AllocError>
        requires range { from ≤ to }
        requires within { to ≤ length self.now }
        ensures exact { IfOk result (λ list. list ≡ slice_range self.now from to) }
    {
        let border = self.front.len();
        let whole = self
            .front
            .spliced(self.alloc, border, border, self.last.items())?;
        let front = Front::of(self.alloc, whole.copied(from, to)?)?;
        Ok(SharedList {
            front,
            last: OnePart::empty(),
            len: to - from,
            alloc: self.alloc,
        })
    }
}

impl<T: Drop> Share for SharedList<T> {
    fn share(&self) -> Result<SharedList<T>, AllocError> {
        let front = self.front.share()?;
        let last = self.last.share()?;
        Ok(SharedList {
            front,
            last,
            len: self.len,
            alloc: self.alloc,
        })
    }
}

impl<T: PartialEq> PartialEq for SharedList<T> {
    ghost eq = { pointwise T.eq };

    ghost laws = { lists_per T.laws };

    fn eq(&self, other: &SharedList<T>) -> bool {
        self.len == other.len && are_equal(self.iter(), other.iter())
    }
}

impl<T: PartialEq> SharedList<T> {
    /// True if `items` are the elements of the list from index `from` on.
    pub fn has_at(&self, from: usize, items: &[T]) -> bool
        ensures exact { result ≡ pointwise T.eq (take (length items.now) (drop from self.now)) items.now }
    {
        let mut rest = self.iter_from(from);
        for item in items {
            if !rest.next().is_some_and(|found| *found == *item) {
                return false;
            }
        }
        true
    }
}

impl<T: Eq> Eq for SharedList<T> {
    ghost laws = { lists_equiv T.Eq.laws };
}
