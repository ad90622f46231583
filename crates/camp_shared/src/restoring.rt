//! The texts of a snapshot of its log from which a member continues.
ghost use Rattle.std.specs.Prelude.{◌+◌, ◌<◌, ◌≤◌, ◌^◌};
ghost use Rattle.camp_member.specs.Telling.{MemberAdvances};
ghost use Rattle.camp_shared.specs.Asking.{RestoresParsed, RestoresText};
ghost use Rattle.camp_shared.specs.Sharing.{shared_from};

use crate::{ReadFault, SharedRepository};
use camp_call::Call;
use camp_entries::parse_entry;
use camp_member::{Entry, NotedCall};
use std::alloc::Global;

impl SharedRepository {
    /// Restores the text that a snapshot of the log has at an index, in order; the title has index 0. Entries before it
    /// may be missing. The member continues after that index. A text that is no entry, or one of this seat, is foreign, and
    /// so is all after the member has stopped. After a fault the member is unchanged.
    ///
    /// Only for a new member and a snapshot, as it accepts gaps; it does not check that the texts are a snapshot of the
    /// log. Until the last one is restored, the member is at a history that no prefix of the log has: call nothing else.
    /// After `Foreign` drop the member; after `Memory` restore the same text again.
    pub fn restore(&mut self, alloc: Global, index: usize, text: &[u8]) -> Result<(), ReadFault>
        ensures restores { RestoresText self.old index text.now result self.new }
        ensures goes { MemberAdvances (shared_from self.old.reading.first) (λ _ _. ⊥) self.old self.new }
    {
        let next = self.index();
        if index < next {
            return Err(ReadFault::OutOfOrder { index: next });
        }
        if index == usize::MAX {
            return Err(ReadFault::Memory);
        }
        let found = parse_entry(alloc, text)?;
        self.restore_parsed(alloc, index, &found)
    }

    // Restores the entry of a text.
    fn restore_parsed(
        &mut self,
        alloc: Global,
        index: usize,
        found: &Option<Entry<NotedCall<Call>>>,
    ) -> Result<(), ReadFault>
        requires at { self.old.reading.index + 1 ≤ index }
        requires room { index + 1 < 2 ^ 64 }
        ensures restores { RestoresParsed self.old index found.now result self.new }
        ensures goes { MemberAdvances (shared_from self.old.reading.first) (λ _ _. ⊥) self.old self.new }
    {
        match self.member.restore(alloc, index - 1, found) {
            Ok(()) => Ok(()),
            Err(ReadFault::Memory) => Err(ReadFault::Memory),
            Err(ReadFault::Foreign { index: _ }) => Err(ReadFault::Foreign { index }),
            Err(ReadFault::OutOfOrder { index: _ }) => unreachable!(),
        }
    }
}
