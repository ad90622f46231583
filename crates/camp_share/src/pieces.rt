//! The two pieces of a shared list: the chunk tree, and the last chunk after it.
ghost use Rattle.std.specs.Prelude.{◌≡◌, ◌<◌, ◌≤◌, [], ◌∷◌, ◌++◌, length, drop, Ok, IfOk};
ghost use Rattle.std.specs.List.{remove, splice};
ghost use Rattle.std.specs.Map.Iter.{ShowsInOrder, deref};

use crate::growing::{MAX_PART_LENGTH, Part, append_copies, copies};
use crate::part_lists::PartList;
use crate::{Iter, Share, Shared};
use std::alloc::{AllocError, Global};
use std::marker::Model;

// The most elements of a last chunk that comes after others.
const FEW: usize = 12;

// The elements before the last chunk of a list; lists share them by one reference count.
#[derive(Drop)]
pub(crate) struct Front<T> {
    list: Option<Shared<PartList<T>>>,
}

impl<T> Model for Front<T> {
    ghost use Rattle.std.specs.Prelude.{List};
    ghost use Rattle.camp_share.specs.Inside.Parts.{held};

    ghost Value = { List T };

    ghost view = { λ front. held front.list };
}

impl<T> Front<T> {
    // Makes an empty chunk tree.
    pub(crate) fn empty() -> Front<T>
        ensures { result ≡ [] }
    {
        Front { list: None }
    }

    // Returns the number of elements.
    pub(crate) fn len(&self) -> usize
        ensures { result ≡ length self.now }
    {
        match &self.list {
            Some(list) => list.len(),
            None => 0,
        }
    }

    // Iterates over the elements from index `from` on, and then over `last`.
    pub(crate) fn iter_from<'a>(&'a self, from: usize, last: &'a [T]) -> Iter<'a, T>
        ensures rest { result ≡ drop from self.now ++ last.now }
        ensures runs { ShowsInOrder (deref {X = T}) }
    {
        match &self.list {
            Some(list) => list.iter_from(from, last),
            None => Iter::of_part(last),
        }
    }
}

impl<T: Drop> Front<T> {
    // Wraps a chunk tree as the elements before a last chunk.
    pub(crate) fn of(alloc: Global, list: PartList<T>) -> Result<Front<T>, AllocError>
        ensures { IfOk result (λ front. front ≡ list) }
    {
        let list = Shared::new(alloc, list)?;
        Ok(Front { list: Some(list) })
    }
}

impl<T: Share + Drop> Front<T> {
    // Returns the elements with `from..to` replaced by copies of `items`.
    pub(crate) fn spliced(
        &self,
        alloc: Global,
        from: usize,
        to: usize,
        items: &[T],
    ) -> Result<PartList<T>, AllocError>
        requires range { from ≤ to }
        requires within { to ≤ length self.now }
        ensures { IfOk result (λ list. list ≡ splice self.now from to items.now) }
    {
        match &self.list {
            Some(list) => list.spliced(from, to, items),
            None => PartList::from_items(alloc, items),
        }
    }
}

impl<T> Share for Front<T> {
    fn share(&self) -> Result<Front<T>, AllocError> {
        match &self.list {
            Some(list) => Ok(Front {
                list: Some(list.share()?),
            }),
            None => Ok(Front { list: None }),
        }
    }
}

// At most one chunk: the last chunk of a list, or all entries of a short map.
#[derive(Drop)]
pub(crate) struct OnePart<T> {
    part: Option<Part<T>>,
}

impl<T> Model for OnePart<T> {
    ghost use Rattle.std.specs.Prelude.{List};
    ghost use Rattle.camp_share.specs.Inside.Parts.{held_part};

    ghost Value = { List T };

    ghost view = { λ last. held_part last.part };
}

impl<T> OnePart<T> {
    // Makes a chunk without elements; does not allocate.
    pub(crate) fn empty() -> OnePart<T>
        ensures { result ≡ [] }
    {
        OnePart { part: None }
    }

    // Returns the elements.
    pub(crate) fn items(&self) -> &[T]
        ensures { result.now ≡ self.now }
    {
        match &self.part {
            Some(part) => part,
            None => &[],
        }
    }
}

impl<T: Drop> OnePart<T> {
    // Makes a chunk of these items; does not allocate if there are none.
    pub(crate) fn of(items: Vec<T>) -> Result<OnePart<T>, AllocError>
        ensures { IfOk result (λ last. last ≡ items.items) }
    {
        if items.is_empty() {
            return Ok(OnePart::empty());
        }
        let alloc = *items.allocator();
        let part = Shared::new(alloc, items)?;
        Ok(OnePart { part: Some(part) })
    }
}

impl<T: Share + Drop> OnePart<T> {
    // Returns the elements with `from..to` replaced by one.
    pub(crate) fn with_one(
        &self,
        alloc: Global,
        from: usize,
        to: usize,
        item: T,
    ) -> Result<OnePart<T>, AllocError>
        requires range { from ≤ to }
        requires within { to ≤ length self.now }
        ensures { IfOk result (λ last. last ≡ splice self.now from to (item ∷ [])) }
    {
        let old = self.items();
        let room = (old.len() - (to - from)).saturating_add(1);
        let mut items = copies(alloc, &old[..from], room)?;
        items.push(item)?;
        append_copies(&mut items, &old[to..])?;
        OnePart::of(items)
    }

    // Returns the elements with `from..to` replaced by copies of `new`.
    pub(crate) fn spliced(
        &self,
        alloc: Global,
        from: usize,
        to: usize,
        new: &[T],
    ) -> Result<OnePart<T>, AllocError>
        requires range { from ≤ to }
        requires within { to ≤ length self.now }
        ensures { IfOk result (λ last. last ≡ splice self.now from to new.now) }
    {
        let old = self.items();
        let room = (old.len() - (to - from)).saturating_add(new.len());
        let mut items = copies(alloc, &old[..from], room)?;
        append_copies(&mut items, new)?;
        append_copies(&mut items, &old[to..])?;
        OnePart::of(items)
    }

    // Returns the elements without the one at an index.
    pub(crate) fn without(&self, alloc: Global, place: usize) -> Result<OnePart<T>, AllocError>
        requires { place < length self.now }
        ensures { IfOk result (λ last. last ≡ remove self.now place) }
    {
        let old = self.items();
        prove!(place < old.len());
        self.spliced(alloc, place, place + 1, &[])
    }
}

impl<T> Share for OnePart<T> {
    fn share(&self) -> Result<OnePart<T>, AllocError> {
        match &self.part {
            Some(part) => Ok(OnePart {
                part: Some(part.share()?),
            }),
            None => Ok(OnePart { part: None }),
        }
    }
}

// Replaces the elements `from..to` of a chunk tree and a last chunk by copies of `items`. A change within one of the
// two shares the other; a change of both makes one chunk tree of them.
pub(crate) fn spliced<T: Share + Drop>(
    front: &Front<T>,
    last: &OnePart<T>,
    alloc: Global,
    from: usize,
    to: usize,
    items: &[T],
) -> Result<(Front<T>, OnePart<T>), AllocError>
    requires range { from ≤ to }
    requires within { to ≤ length (front.now ++ last.now) }
    ensures { IfOk result (λ new. new.0 ++ new.1 ≡ splice (front.now ++ last.now) from to items.now) }
{
    let border = front.len();
    if from < border && to <= border {
        let list = front.spliced(alloc, from, to, items)?;
        return both(Front::of(alloc, list), last.share());
    }
    if from >= border && has_room(border, last, to - from, items.len()) {
        let changed = last.spliced(alloc, from - border, to - border, items);
        return both(front.share(), changed);
    }
    let list = front.spliced(alloc, border, border, last.items())?;
    spliced_whole(list, alloc, from, to, items)
}

// Replaces the elements `from..to` of a chunk tree by copies of `items`. Up to 12 items at the end become a last chunk.
fn spliced_whole<T: Share + Drop>(
    list: PartList<T>,
    alloc: Global,
    from: usize,
    to: usize,
    items: &[T],
) -> Result<(Front<T>, OnePart<T>), AllocError>
    requires range { from ≤ to }
    requires within { to ≤ length list }
    ensures { IfOk result (λ new. new.0 ++ new.1 ≡ splice list from to items.now) }
{
    if from == list.len() && items.len() <= FEW {
        let last = OnePart::empty().spliced(alloc, 0, 0, items);
        return both(Front::of(alloc, list), last);
    }
    let list = list.spliced(from, to, items)?;
    both(Front::of(alloc, list), Ok(OnePart::empty()))
}

// Pairs two values, or returns the first error.
fn both<A: Drop, B: Drop>(
    first: Result<A, AllocError>,
    second: Result<B, AllocError>,
) -> Result<(A, B), AllocError>
    ensures first { IfOk result (λ pair. first ≡ Ok pair.0) }
    ensures second { IfOk result (λ pair. second ≡ Ok pair.1) }
{
    let first = first?;
    let second = second?;
    Ok((first, second))
}

// True if the last chunk can have `new` elements instead of `gone` ones: if it is the only chunk it may have up to 24
// elements, else up to 12.
pub(crate) fn has_room<T>(border: usize, last: &OnePart<T>, gone: usize, new: usize) -> bool {
    let most = if border == 0 { MAX_PART_LENGTH } else { FEW };
    let kept = last.items().len().saturating_sub(gone);
    new <= most.saturating_sub(kept)
}
