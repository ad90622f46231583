//! The texts that a member finds in its log.
ghost use Rattle.std.specs.Prelude.{◌≡◌, ◌+◌, ◌<◌, ◌^◌};
ghost use Rattle.camp_member.specs.Telling.{MemberAdvances};
ghost use Rattle.camp_shared.specs.Asking.{FindsText, ReadsNextEntry};
ghost use Rattle.camp_shared.specs.Sharing.{shared_from};

use crate::{ReadFault, SharedRepository};
use camp_call::Call;
use camp_entries::parse_entry;
use camp_member::{Entry, NotedCall};
use std::alloc::Global;

impl SharedRepository {
    /// Reads the text of the entry at an index of the log, in order; the title has index 0. Skips what was read before.
    /// Answers the requests of the entry under way if it is this one. A text that is no entry, or the entry of another
    /// process with this seat, stops the member. If memory runs out, the member is unchanged.
    pub fn found(&mut self, alloc: Global, index: usize, text: &[u8]) -> Result<(), ReadFault>
        ensures finds { FindsText self.old index text.now result self.new }
        ensures goes { MemberAdvances (shared_from self.old.reading.first) (λ _ _. ⊥) self.old self.new }
    {
        let next = self.index();
        if index < next {
            return Ok(());
        }
        if index > next {
            return Err(ReadFault::OutOfOrder { index: next });
        }
        if index == usize::MAX {
            return Err(ReadFault::Memory);
        }
        let found = parse_entry(alloc, text)?;
        self.read_next(alloc, index, &found)
    }

    // Reads the entry that comes next.
    fn read_next(
        &mut self,
        alloc: Global,
        index: usize,
        found: &Option<Entry<NotedCall<Call>>>,
    ) -> Result<(), ReadFault>
        requires at { index ≡ self.old.reading.index + 1 }
        requires room { index + 1 < 2 ^ 64 }
        ensures reads { ReadsNextEntry self.old index found.now result self.new }
        ensures goes { MemberAdvances (shared_from self.old.reading.first) (λ _ _. ⊥) self.old self.new }
    {
        match self.member.found(alloc, index - 1, found) {
            Ok(()) => Ok(()),
            Err(ReadFault::Memory) => Err(ReadFault::Memory),
            Err(ReadFault::Foreign { index: _ }) => Err(ReadFault::Foreign { index }),
            Err(ReadFault::OutOfOrder { index: _ }) => unreachable!(),
        }
    }
}
