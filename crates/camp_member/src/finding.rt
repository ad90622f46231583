//! What a member finds in its log.
ghost use Rattle.std.specs.Prelude.{◌≡◌, ◌≢◌, ◌+◌, ◌≤◌, ◌↔◌, false, length, IsTrue, IfSome};
ghost use Rattle.std.specs.Vec.{vec_capacity};
ghost use Rattle.camp_object.specs.Objects.{begun};
ghost use Rattle.camp_member.specs.Members.{calls_asked, stopped, under_way};
ghost use Rattle.camp_member.specs.Telling.{MemberAdvances};
ghost use Rattle.camp_member.specs.Wanting.{FindsAt, HasOwn, StopsWhenForeign, TellsAlien, given};

use crate::{Entry, Member, NoReply, ReadFault, Request};
use camp_object::Object;
use std::alloc::Global;

impl<State: Object> Member<State> {
    /// Reads what was found at an index of the log, to be called for one index after the other: an entry, or `None` if
    /// there is no entry there. Skips an index that was read before. Answers the requests of the entry under way if it
    /// is the one found. A foreign entry, or one of another process with this seat, stops the member. If memory runs
    /// out, the member is unchanged.
    pub fn found(
        &mut self,
        alloc: Global,
        index: usize,
        found: &Option<Entry<State::Call>>,
    ) -> Result<(), ReadFault>
        ensures finds { FindsAt (begun State.object self.old.reading.first) self.old index found.now result self.new }
        ensures goes { MemberAdvances (begun State.object self.old.reading.first) (λ _ _. ⊥) self.old self.new }
    {
        let _before = self.reader.position();
        let result = self.find(alloc, index, found);
        let _after = self.reader.position();
        result
    }

    // Reads what was found at an index.
    fn find(
        &mut self,
        alloc: Global,
        index: usize,
        found: &Option<Entry<State::Call>>,
    ) -> Result<(), ReadFault>
        ensures { FindsAt (begun State.object self.old.reading.first) self.old index found.now result self.new }
    {
        let next = self.reader.index();
        if index < next {
            return Ok(());
        }
        if index > next {
            return Err(ReadFault::OutOfOrder { index: next });
        }
        if self.is_stopped || self.is_alien(found) {
            self.stop();
            return Err(ReadFault::Foreign { index });
        }
        if self.has_own(found) {
            self.read_own(alloc, index, found)
        } else {
            self.read_other(alloc, index, found)
        }
    }

    // Stops reading the log.
    fn stop(&mut self)
        ensures { self.new ≡ stopped self.old }
    {
        self.is_stopped = true;
        self.sent = 0;
    }

    // True if the entry is of this seat and has a new number.
    fn has_own(&self, found: &Option<Entry<State::Call>>) -> bool
        ensures { IsTrue result ↔ HasOwn State.object self.now found.now }
    {
        let Some(entry) = found else {
            return false;
        };
        entry.seat() == self.seat && entry.number() > self.reader.last(self.seat)
    }

    // True if the entry is of this seat and has a new number, but is not the one under way.
    fn is_alien(&self, found: &Option<Entry<State::Call>>) -> bool
        ensures { TellsAlien State.object self.now found.now result }
    {
        let Some(entry) = found else {
            return false;
        };
        self.has_own(found) && !are_calls_of::<State>(entry.calls(), &self.waiting[..self.sent])
    }

    // Reads the entry under way, and answers its requests.
    fn read_own(
        &mut self,
        alloc: Global,
        index: usize,
        found: &Option<Entry<State::Call>>,
    ) -> Result<(), ReadFault>
        requires at { index ≡ self.old.reading.index }
        requires reads { self.old.is_stopped ≡ false }
        requires own { HasOwn State.object self.old found.now }
        requires calls { IfSome found.now (λ entry. entry.calls ≡ under_way self.old) }
        ensures { FindsAt (begun State.object self.old.reading.first) self.old index found.now result self.new }
    {
        self.answers.reserve(self.sent)?;
        match self.reader.take(alloc, index, found) {
            Ok(replies) => {
                give(&mut self.waiting, &mut self.answers, replies);
                self.sent = 0;
                Ok(())
            }
            Err(fault) => {
                self.stop_at(fault);
                Err(fault)
            }
        }
    }

    // Reads an entry of another member, or one that was read before.
    fn read_other(
        &mut self,
        alloc: Global,
        index: usize,
        found: &Option<Entry<State::Call>>,
    ) -> Result<(), ReadFault>
        requires at { index ≡ self.old.reading.index }
        requires reads { self.old.is_stopped ≡ false }
        requires other { ¬ (HasOwn State.object self.old found.now) }
        ensures { FindsAt (begun State.object self.old.reading.first) self.old index found.now result self.new }
    {
        match self.reader.take(alloc, index, found) {
            Ok(_) => Ok(()),
            Err(fault) => {
                self.stop_at(fault);
                Err(fault)
            }
        }
    }

    // Stops reading if the fault says that what was found is foreign.
    fn stop_at(&mut self, fault: ReadFault)
        ensures { StopsWhenForeign State.object fault self.old self.new }
    {
        if matches!(fault, ReadFault::Foreign { index: _ }) {
            self.stop();
        }
    }
}

// True if these are the calls of the requests.
fn are_calls_of<State: Object>(calls: &[State::Call], requests: &[Request<State::Call>]) -> bool
    ensures { IsTrue result ↔ (calls.now ≡ calls_asked requests.now) }
{
    if calls.len() != requests.len() {
        return false;
    }
    for at in 0..calls.len() {
        if !State::is_same(&calls[at], &requests[at].call) {
            return false;
        }
    }
    true
}

// Answers the first requests with replies, in order.
fn give<Call: Drop, Reply: Drop>(
    waiting: &mut Vec<Request<Call>>,
    answers: &mut Vec<(u64, Result<Reply, NoReply>)>,
    mut replies: Vec<Reply>,
)
    requires room { length answers.old.items + length replies.items ≤ vec_capacity answers.old }
    requires enough { length replies.items ≤ length waiting.old.items }
    ensures { (answers.new.items, waiting.new.items) ≡ given answers.old.items waiting.old.items replies.items }
{
    for _given in 0..replies.len() {
        let request = waiting.remove(0);
        answers.push_reserved((request.id, Ok(replies.remove(0))));
    }
}
