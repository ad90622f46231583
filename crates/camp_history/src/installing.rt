//! Installing a snapshot at a seat that has seen fewer calls.
ghost use Rattle.std.specs.Prelude.{◌≡◌, ℕ, ◌<◌, ◌≤◌, ◌+◌, length, drop, slice_get, slice_index_or, All, Some, IfSome, IsTrue, MatchBool};
ghost use Rattle.boxcar.specs.Table.{Shows};
ghost use Rattle.camp_history.specs.Snapshots.{ids, Installs, IsMarkPrefix, ContinuesSeat, HaveCommon};

use crate::heads::Head;
use crate::lists::{MarksLeft, share_all};
use crate::marks::Mark;
use crate::parents::ParentSlot;
use crate::seats::Seat;
use crate::snapshots::{Base, HeadSnapshot, ParentLink, Slot};
use camp_object::Object;
use camp_row::{Entry, Row, Trail};
use camp_share::Share as _;
use std::alloc::AllocError;

/// The most snapshots that a seat remembers having made or installed.
const MOST_NOTED: usize = 16;

/// Drops the oldest noted snapshot if there are `MOST_NOTED` of them.
fn make_room<State: Object>(bases: &mut Vec<Base<State>>)
    ensures { (gone : ℕ) × (bases.new.items ≡ drop gone bases.old.items) }
{
    if bases.len() == MOST_NOTED {
        let _oldest = bases.remove(0);
    }
}

impl<State: Object> HeadSnapshot<State> {
    pub(crate) fn len(&self) -> usize
        ensures { result ≡ length self.now }
    {
        let _ = &self.state;
        self.earlier.len() + self.tail.len()
    }

    /// Iterates over its marks from an index on.
    pub(crate) fn marks_from(&self, from: usize) -> MarksLeft<'_, State::Call>
        requires { from ≤ length self.now }
        ensures { result ≡ drop from self.now }
    {
        MarksLeft::new(&self.earlier, &self.tail, from)
    }
}

impl<State: Object> Seat<State> {
    ghost use Rattle.camp_row.specs.PassState.{IsTrail};

    /// Iterates over the marks of all calls that the seat has seen, from an index on.
    pub(crate) fn marks_from(&self, from: usize) -> MarksLeft<'_, State::Call>
        requires { from ≤ length self.now.marks }
        ensures { result ≡ drop from self.now.marks }
    {
        MarksLeft::new(&self.earlier, &self.tail, from)
    }

    fn entry_at(&mut self, row: &Row, trail: &Trail, index: usize) -> Entry
        requires row { self.old.known.row ≡ row.now }
        requires leads { IsTrail self.old.known self.old.known.seen trail.now }
        requires index { index < length trail.now }
        ensures same { self.new ≡ self.old }
        ensures entry { slice_get self.old.known.ahead (length self.old.known.seen + index) ≡ Some result }
        ensures below { result.seat < self.old.known.row.seats }
    {
        row.entry_at(&mut self.pass, trail, index)
    }

    /// Installs a snapshot. False if its history began with another state than the seat's, which does not occur with
    /// snapshots of the seat's head.
    fn install(&mut self, row: &Row, trail: &mut Trail, snapshot: HeadSnapshot<State>) -> bool
        requires row { self.old.known.row ≡ row.now }
        requires leads { IsTrail self.old.known self.old.known.seen trail.old }
        requires continues_seat { ContinuesSeat self.old snapshot }
        ensures installs { MatchBool result (Installs self.old snapshot self.new) (self.new ≡ self.old) }
        ensures leads { IsTrail self.new.known self.new.known.seen trail.new }
    {
        if !self.state.begins_alike(&snapshot.state) {
            return false;
        }
        let count = snapshot.len() - (self.earlier.len() + self.tail.len());
        let HeadSnapshot {
            earlier,
            tail,
            state,
        } = snapshot;
        row.advance_by(&mut self.pass, trail, count);
        self.earlier = earlier;
        self.tail = tail;
        self.state = state;
        true
    }
}

impl<State: Object> camp_share::Share for HeadSnapshot<State> {
    /// Copies the snapshot: increments the reference counts of its list and its state, and copies its last
    /// few marks.
    fn share(&self) -> Result<HeadSnapshot<State>, AllocError> {
        let tail = share_all(*self.tail.allocator(), &self.tail)?;
        HeadSnapshot::made_from(&self.earlier, tail, &self.state)
    }
}

impl<State: Object> Head<State> {
    ghost use Rattle.camp_row.specs.PassState.{IsTrail};
    ghost use Rattle.camp_history.specs.Seats.{IsBaseAt, IsSeatOf, entry_and_call};
    ghost use Rattle.camp_history.specs.Snapshots.{IsWithinReach, IsMadeFrom, based};
    ghost use Rattle.camp_history.specs.Inside.Steps.{SeesFurther};

    /// Returns the slot of an index.
    pub(crate) fn slot(&self, number: usize) -> Option<&Slot<State>>
        ensures tag { IfSome result (λ slot. slot.now.tag ≡ ids self.now.store) }
        ensures id { IfSome result (λ slot. slot.now.id ≡ slice_index_or self.now.slots number 0) }
    {
        self.snapshots.get(number)
    }

    /// Returns the slot of the parent of the snapshot of an index.
    pub(crate) fn parent_slot(&self, number: usize) -> Option<&ParentSlot<State>>
        ensures { IfSome result (λ slot. slot.now.tag ≡ self.now.slots) }
    {
        self.parents.get(number)
    }

    /// Returns the snapshot in a slot.
    fn snapshot_of(&self, base: &Base<State>) -> Option<&HeadSnapshot<State>>
        requires { IsBaseAt self.now.slots (based base.now) }
        ensures is { IfSome result (λ snapshot. snapshot.now ≡ base.now.snapshot.value) }
        ensures stored { IfSome result (λ snapshot. All (λ mark. Shows self.now.store mark.call) snapshot.now) }
    {
        let slot = self.slot(base.slot)?;
        Some(slot.value(&base.snapshot))
    }

    /// Returns the snapshot in the slot of an index, with its parent.
    fn link_at(&self, number: usize) -> Option<&ParentLink<State>>
        ensures { IfSome result (λ link. IsMadeFrom self.now.slots link.now) }
    {
        self.parent_slot(number)?.get()
    }

    /// True if two marks are of the same call of the same seat.
    fn is_same(&self, one: &Mark<State::Call>, other: &Mark<State::Call>) -> bool
        requires { Shows self.now.store one.now.call × Shows self.now.store other.now.call }
        ensures { IsTrue result → entry_and_call one.now ≡ entry_and_call other.now }
    {
        if one.seat != other.seat || one.call.index() != other.call.index() {
            return false;
        }
        self.calls.agrees(&one.call, &other.call);
        true
    }

    /// True if a seat noted a snapshot.
    fn has_noted(&self, seat: &Seat<State>, base: &Base<State>) -> bool
        requires seat { IsSeatOf self.now seat.now }
        requires base { IsBaseAt self.now.slots (based base.now) }
        ensures begins { IsTrue result → IsMarkPrefix base.now.snapshot.value seat.now.marks }
    {
        for noted in &seat.bases {
            if noted.slot == base.slot {
                noted.snapshot.agrees(&base.snapshot);
                return true;
            }
        }
        false
    }

    /// Returns the number of calls of a snapshot if the seat noted it; these are then the first calls that the seat has
    /// seen. `None` if it did not note it.
    pub(crate) fn noted_len(&self, seat: &Seat<State>, base: &Base<State>) -> Option<usize>
        requires seat { IsSeatOf self.now seat.now }
        requires base { IsBaseAt self.now.slots (based base.now) }
        ensures length { IfSome result (λ len. len ≡ length base.now.snapshot.value) }
        ensures begins { IfSome result (λ len. IsMarkPrefix base.now.snapshot.value seat.now.marks) }
    {
        if !self.has_noted(seat, base) {
            return None;
        }
        Some(self.snapshot_of(base)?.len())
    }

    /// Returns the parent of the parent of a snapshot.
    fn parent_link(&self, link: &ParentLink<State>) -> Option<&ParentLink<State>>
        requires { IsMadeFrom self.now.slots link.now }
        ensures is { IfSome result (λ parent_link. IsMadeFrom self.now.slots parent_link.now) }
        ensures begins { IfSome result (λ parent_link. IsMarkPrefix parent_link.now.snapshot.snapshot.value link.now.snapshot.snapshot.value) }
    {
        let parent = link.parent.as_ref()?;
        let parent_link = self.link_at(parent.slot)?;
        if parent_link.snapshot.slot != parent.slot {
            return None;
        }
        parent_link.snapshot.snapshot.agrees(&parent.snapshot);
        Some(parent_link)
    }

    /// Returns a number of first calls in which a seat and a snapshot agree: the length of the snapshot's nearest
    /// ancestor that the seat noted. Compares no calls.
    fn common_len(&self, seat: &Seat<State>, link: &ParentLink<State>) -> usize
        requires seat { IsSeatOf self.now seat.now }
        requires link { IsMadeFrom self.now.slots link.now }
        ensures { HaveCommon seat.now.marks link.now.snapshot.snapshot.value result }
    {
        let mut way = link;
        for _ in 0..self.parents.len() {
            if let Some(len) = self.noted_len(seat, &way.snapshot) {
                return len;
            }
            let Some(parent_link) = self.parent_link(way) else {
                return 0;
            };
            way = parent_link;
        }
        0
    }

    /// True if a snapshot begins with the calls that a seat has seen. The first `from` calls are known to agree and are
    /// not compared.
    fn begins_with_seen(
        &self,
        seat: &Seat<State>,
        snapshot: &HeadSnapshot<State>,
        from: usize,
    ) -> bool
        requires seat { IsSeatOf self.now seat.now }
        requires snapshot { All (λ mark. Shows self.now.store mark.call) snapshot.now }
        requires from { HaveCommon seat.now.marks snapshot.now from }
        ensures { IsTrue result → IsMarkPrefix seat.now.marks snapshot.now }
    {
        let mut marks = seat.marks_from(from);
        let mut others = snapshot.marks_from(from);
        while let Some(mark) = marks.next() {
            let Some(other) = others.next() else {
                return false;
            };
            if !self.is_same(mark, other) {
                return false;
            }
        }
        true
    }

    /// True if the calls of a snapshot that the seat has not seen are the next ones on the trail.
    fn follows_trail(
        &self,
        seat: &mut Seat<State>,
        trail: &Trail,
        snapshot: &HeadSnapshot<State>,
    ) -> bool
        requires row { seat.old.known.row ≡ self.now.row }
        requires leads { IsTrail seat.old.known seat.old.known.seen trail.now }
        requires begins { IsMarkPrefix seat.old.marks snapshot.now }
        ensures same { seat.new ≡ seat.old }
        ensures continues_seat { IsTrue result → ContinuesSeat seat.old snapshot.now }
    {
        let mut news = snapshot.marks_from(seat.position() as usize);
        let mut index = 0;
        while let Some(mark) = news.next() {
            if index == trail.len() {
                return false;
            }
            let entry = seat.entry_at(&self.row, trail, index);
            if entry.seat != mark.seat || entry.index != mark.call.index() {
                return false;
            }
            index += 1;
        }
        true
    }

    /// True only if the snapshot starts with the calls that the seat has seen and then follows the trail. The first
    /// `from` calls are known to agree and are not compared.
    fn continues_seat(
        &self,
        seat: &mut Seat<State>,
        trail: &Trail,
        snapshot: &HeadSnapshot<State>,
        from: usize,
    ) -> bool
        requires seat { IsSeatOf self.now seat.old }
        requires leads { IsTrail seat.old.known seat.old.known.seen trail.now }
        requires snapshot { All (λ mark. Shows self.now.store mark.call) snapshot.now }
        requires from { HaveCommon seat.old.marks snapshot.now from }
        ensures same { seat.new ≡ seat.old }
        ensures continues_seat { IsTrue result → ContinuesSeat seat.old snapshot.now }
    {
        self.begins_with_seen(seat, snapshot, from) && self.follows_trail(seat, trail, snapshot)
    }

    /// Notes that a seat's calls begin with those of a snapshot. Only the most recent notes are kept.
    pub(crate) fn note(&self, seat: &mut Seat<State>, base: Base<State>)
        requires seat { IsSeatOf self.now seat.old }
        requires base { IsBaseAt self.now.slots (based base) }
        requires begins { IsMarkPrefix base.snapshot.value seat.old.marks }
        ensures seat { IsSeatOf self.now seat.new }
        ensures known { seat.new.known ≡ seat.old.known }
        ensures marks { seat.new.marks ≡ seat.old.marks }
    {
        make_room(&mut seat.bases);
        let _noted = seat.bases.push(base);
    }

    /// Returns the snapshot in a slot and its length, if it has more than `seen` and at most `reach` calls.
    fn found_at(&self, number: usize, seen: u64, reach: u64) -> Option<(&ParentLink<State>, u64)>
        ensures { IfSome result (λ found. IsWithinReach self.now.slots seen reach found.0.now found.1) }
    {
        let link = self.link_at(number)?;
        let len = self.snapshot_of(&link.snapshot)?.len() as u64;
        if seen < len && len <= reach {
            Some((link, len))
        } else {
            None
        }
    }

    /// Returns the longest published snapshot with more than `seen` and at most `reach` calls, and its length.
    fn longest_published(&self, seen: u64, reach: u64) -> Option<(&ParentLink<State>, u64)>
        ensures { IfSome result (λ found. IsWithinReach self.now.slots seen reach found.0.now found.1) }
    {
        let mut longest = None;
        let mut most = seen;
        for number in self.position_slot_count()..self.parents.len() {
            if let Some(found) = self.found_at(number, most, reach) {
                most = found.1;
                longest = Some(found);
            }
        }
        longest
    }

    /// Returns the longest snapshot kept for a position that has more than `seen` and at most `reach` calls, and its
    /// length.
    fn longest_at_positions(&self, seen: u64, reach: u64) -> Option<(&ParentLink<State>, u64)>
        ensures { IfSome result (λ found. IsWithinReach self.now.slots seen reach found.0.now found.1) }
    {
        let every = self.every as u64;
        if every == 0 {
            return None;
        }
        let first = seen / every;
        let mut number = (reach / every).min(self.position_slot_count() as u64);
        while number > first {
            number -= 1;
            if let Some(found) = self.found_at(number as usize, seen, reach) {
                return Some(found);
            }
        }
        None
    }

    /// Returns the longest snapshot, published or kept for a position, with more than `seen` and at most `reach` calls,
    /// and its length.
    fn longest(&self, seen: u64, reach: u64) -> Option<(&ParentLink<State>, u64)>
        ensures { IfSome result (λ found. IsWithinReach self.now.slots seen reach found.0.now found.1) }
    {
        if reach <= seen {
            return None;
        }
        let Some(kept) = self.longest_at_positions(seen, reach) else {
            return self.longest_published(seen, reach);
        };
        self.longest_published(kept.1, reach).or(Some(kept))
    }

    /// Installs a snapshot that continues what a seat has seen, and notes it.
    fn install_and_note(
        &self,
        seat: &mut Seat<State>,
        trail: &mut Trail,
        base: &Base<State>,
        snapshot: &HeadSnapshot<State>,
    ) -> Result<(), AllocError>
        requires of { IsSeatOf self.now seat.old }
        requires leads { IsTrail seat.old.known seat.old.known.seen trail.old }
        requires base { IsBaseAt self.now.slots (based base.now) }
        requires is { snapshot.now ≡ base.now.snapshot.value }
        requires stored { All (λ mark. Shows self.now.store mark.call) snapshot.now }
        requires continues_seat { ContinuesSeat seat.old snapshot.now }
        ensures sees_further { SeesFurther self.now seat.old seat.new }
        ensures leads { IsTrail seat.new.known seat.new.known.seen trail.new }
    {
        seat.show_invariant();
        if !seat.install(&self.row, trail, snapshot.share()?) {
            return Ok(());
        }
        self.note(seat, base.again());
        seat.adopted = seat.adopted.saturating_add(1);
        Ok(())
    }

    /// Installs the snapshot of a slot if it continues what the seat has seen; true if it did.
    fn install_at(
        &self,
        seat: &mut Seat<State>,
        trail: &mut Trail,
        link: &ParentLink<State>,
    ) -> Result<bool, AllocError>
        requires of { IsSeatOf self.now seat.old }
        requires leads { IsTrail seat.old.known seat.old.known.seen trail.old }
        requires made { IsMadeFrom self.now.slots link.now }
        ensures sees_further { SeesFurther self.now seat.old seat.new }
        ensures leads { IsTrail seat.new.known seat.new.known.seen trail.new }
    {
        let Some(snapshot) = self.snapshot_of(&link.snapshot) else {
            return Ok(false);
        };
        let from = self.common_len(seat, link);
        if !self.continues_seat(seat, trail, snapshot, from) {
            return Ok(false);
        }
        self.install_and_note(seat, trail, &link.snapshot, snapshot)?;
        Ok(true)
    }

    /// Installs the longest snapshot that continues what a seat has seen, if there is one.
    pub(crate) fn install_longest(
        &self,
        seat: &mut Seat<State>,
        trail: &mut Trail,
    ) -> Result<(), AllocError>
        requires of { IsSeatOf self.now seat.old }
        requires leads { IsTrail seat.old.known seat.old.known.seen trail.old }
        ensures sees_further { SeesFurther self.now seat.old seat.new }
        ensures leads { IsTrail seat.new.known seat.new.known.seen trail.new }
    {
        let seen = seat.position();
        let mut reach = seen.saturating_add(trail.len() as u64);
        while let Some((link, len)) = self.longest(seen, reach) {
            if self.install_at(seat, trail, link)? {
                return Ok(());
            }
            reach = len - 1;
        }
        Ok(())
    }

    /// Installs at a seat all that another seat, which has seen more, has seen and decided.
    pub(crate) fn install_from(
        &self,
        seat: &mut Seat<State>,
        other: &Seat<State>,
    ) -> Result<(), AllocError>
        requires of { IsSeatOf self.now seat.old }
        requires other { IsSeatOf self.now other.now }
        ensures sees_further { SeesFurther self.now seat.old seat.new }
    {
        seat.show_invariant();
        if other.position() <= seat.position() {
            return Ok(());
        }
        let mut trail = seat.walk(&self.row)?;
        let snapshot = other.snapshot()?;
        let from = self.common_len_of_seats(seat, other);
        if !self.continues_seat(seat, &trail, &snapshot, from) {
            return Ok(());
        }
        let _installed = seat.install(&self.row, &mut trail, snapshot);
        Ok(())
    }
}
