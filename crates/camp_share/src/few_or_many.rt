//! The entries of a map: one chunk for up to 24 of them, else a chunk tree.
ghost use Rattle.std.specs.Prelude.{◌≡◌, length, slice_get, IfOk};
ghost use Rattle.std.specs.Option.{option_copied};
ghost use Rattle.std.specs.Map.Iter.{ShowsInOrder, deref};
ghost use Rattle.camp_share.specs.Inside.EntryFields.{entries_of, IsForm};

use crate::growing::{MAX_PART_LENGTH, copies};
use crate::part_lists::PartList;
use crate::pieces::OnePart;
use crate::{Iter, Share};
use std::alloc::{AllocError, Global};

// The entries of a map: one chunk, or a chunk tree if the map ever had more than 24 entries.
#[derive(Drop)]
pub(crate) enum Entries<T> {
    OnePart(OnePart<T>),
    Parts(PartList<T>),
}

impl<T> Entries<T> {
    // Returns the number of entries.
    pub(crate) fn len(&self) -> usize
        ensures { result ≡ length (entries_of self.now) }
    {
        match self {
            Entries::OnePart(part) => part.items().len(),
            Entries::Parts(list) => list.len(),
        }
    }

    // Returns the entry at `index`, or `None` past the end.
    pub(crate) fn get(&self, index: usize) -> Option<&T>
        ensures { option_copied result ≡ slice_get (entries_of self.now) index }
    {
        match self {
            Entries::OnePart(part) => part.items().get(index),
            Entries::Parts(list) => list.get(index),
        }
    }

    // Iterates over the entries in order.
    pub(crate) fn iter(&self) -> Iter<'_, T>
        ensures rest { result ≡ entries_of self.now }
        ensures runs { ShowsInOrder (deref {X = T}) }
    {
        match self {
            Entries::OnePart(part) => Iter::of_part(part.items()),
            Entries::Parts(list) => list.iter(),
        }
    }
}

impl<T: Share + Drop> Entries<T> {
    // Makes the entries of a map from those in `part`: one chunk, or a chunk tree if they are more than 24.
    pub(crate) fn of_part(alloc: Global, part: OnePart<T>) -> Result<Entries<T>, AllocError>
        ensures items { IfOk result (λ entries. entries_of entries ≡ part) }
        ensures form { IfOk result IsForm }
    {
        if part.items().len() <= MAX_PART_LENGTH {
            return Ok(Entries::OnePart(part));
        }
        let list = PartList::from_items(alloc, part.items())?;
        Ok(Entries::Parts(list))
    }

    // Copies all entries into one vector.
    pub(crate) fn to_vec(&self, alloc: Global) -> Result<Vec<T>, AllocError>
        ensures { IfOk result (λ items. items.items ≡ entries_of self.now) }
    {
        match self {
            Entries::OnePart(part) => copies(alloc, part.items(), part.items().len()),
            Entries::Parts(list) => list.to_vec(),
        }
    }
}

impl<T: Drop> Share for Entries<T> {
    fn share(&self) -> Result<Entries<T>, AllocError> {
        match self {
            Entries::OnePart(part) => Ok(Entries::OnePart(part.share()?)),
            Entries::Parts(list) => Ok(Entries::Parts(list.share()?)),
        }
    }
}
