//! How a member continues from a snapshot of its log.
ghost use Rattle.camp_object.specs.Objects.{begun};
ghost use Rattle.camp_member.specs.Snapshots.{IsOfSeat, RestoresAt};
ghost use Rattle.camp_member.specs.Telling.{MemberAdvances};
ghost use Rattle.std.specs.Prelude.{◌↔◌, IsTrue};

use crate::{Entry, Member, ReadFault};
use camp_object::Object;
use std::alloc::Global;

impl<State: Object> Member<State> {
    /// Restores what a snapshot of the log has at an index: an entry, or `None` if there is no entry there. Entries
    /// before it may be missing. The member continues after that index. An entry of its own seat is foreign, and so is all
    /// after it has stopped. After a fault the member is unchanged.
    ///
    /// Only for a new member and a snapshot, as it accepts gaps; it does not check that the entries are a snapshot of the
    /// log. Until the last one is restored, the member is at a history that no prefix of the log has: call nothing else.
    /// After `Foreign` drop the member; after `Memory` restore the same entry again.
    pub fn restore(
        &mut self,
        alloc: Global,
        index: usize,
        found: &Option<Entry<State::Call>>,
    ) -> Result<(), ReadFault>
        ensures restores { RestoresAt (begun State.object self.old.reading.first) self.old index found.now result self.new }
        ensures goes { MemberAdvances (begun State.object self.old.reading.first) (λ _ _. ⊥) self.old self.new }
    {
        self.restore_other(alloc, index, found)
    }

    // Restores an entry of another seat.
    fn restore_other(
        &mut self,
        alloc: Global,
        index: usize,
        found: &Option<Entry<State::Call>>,
    ) -> Result<(), ReadFault>
        ensures { RestoresAt (begun State.object self.old.reading.first) self.old index found.now result self.new }
    {
        if self.is_stopped || self.is_own(found) {
            return Err(ReadFault::Foreign { index });
        }
        self.reader.restore(alloc, index, found)?;
        Ok(())
    }

    // True if the entry is of this seat.
    fn is_own(&self, found: &Option<Entry<State::Call>>) -> bool
        ensures { IsTrue result ↔ IsOfSeat self.now.seat found.now }
    {
        let Some(entry) = found else {
            return false;
        };
        entry.seat() == self.seat
    }
}
