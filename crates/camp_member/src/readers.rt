//! A reader of a log: it decides the calls of each entry, and each tag only once.
ghost use Rattle.std.specs.Prelude.{◌≡◌, ◌↔◌, ◌+◌, ◌<◌, ◌^◌, ◌⊎◌, ℕ, [], true, None, Some, MatchOption, length, IfOk, IfErr, OnErr, IfSome, IsTrue, OnOk, IsSome};
ghost use Rattle.std.specs.Option.{unwrap_or};
ghost use Rattle.camp_object.specs.Histories.{IsAccepted, IsAnswered, IsLegal, replay};
ghost use Rattle.camp_object.specs.Objects.{IsFirst, begun};

use crate::drafts::Draft;
use crate::numbers::{Numbers, no_numbers, number_of, set_number};
use crate::{Entry, ReadFault};
use camp_object::{Decided, Object};
use std::alloc::{AllocError, Global};
use std::marker::Model;

/// A reader of a log: the state that the calls read so far lead to, and these calls. Contracts see it as `Reading`.
#[derive(Drop)]
pub struct Reader<State: Object> {
    index: usize,
    state: State,
    history: Vec<(u128, State::Call)>,
    numbers: Numbers,
}

/// The kind of the next entry of a log.
enum Standing {
    /// It counts: it has the next number of its seat.
    New,
    /// It is a repetition: an entry with its tag counted before.
    Repeated,
    /// It neither counts nor is a repetition.
    Foreign,
}

impl<State: Object> Model for Reader<State> {
    ghost use Rattle.std.specs.Prelude.{◌≡◌, Some};
    ghost use Rattle.camp_object.specs.Histories.{replay};
    ghost use Rattle.camp_object.specs.Objects.{IsFirst, begun};
    ghost use Rattle.camp_member.specs.Readings.{Reading};

    ghost Value = { Reading State State.Call };

    ghost view = { λ r. record { first = State.object.first r.state; index = r.index; history = r.history.items; numbers = r.numbers.entries } };

    ghost invariant = { λ r. IsFirst State.object (State.object.first r.state)
        × (replay (begun State.object (State.object.first r.state)) r.history.items ≡ Some r.state) };
}

impl<State: Object> Reader<State> {
    ghost use Rattle.camp_member.specs.Entries.{number_in};
    ghost use Rattle.camp_member.specs.Inside.Standings.{IsStanding};
    ghost use Rattle.camp_member.specs.Readings.{DecidesEntry, IsReadFault, ReadsEntry};
    ghost use Rattle.camp_member.specs.Snapshots.{CanFollow, IsRestoreFault, RestoresEntry};

    /// Makes a reader that has read nothing. Its history begins with this initial state.
    pub fn new(alloc: Global, first: State) -> Reader<State>
        requires { IsFirst State.object first }
        ensures first { result.first ≡ first }
        ensures index { result.index ≡ 0 }
        ensures history { result.history ≡ [] }
        ensures numbers { result.numbers ≡ [] }
    {
        Reader {
            index: 0,
            state: first,
            history: Vec::new(alloc),
            numbers: no_numbers(alloc),
        }
    }

    /// Returns the index of the entry that it reads next.
    pub fn index(&self) -> usize
        ensures exact { result ≡ self.now.index }
    {
        self.index
    }

    /// Returns the accepted calls in order, each with its seat.
    pub fn history(&self) -> &[(u128, State::Call)]
        ensures value { result.now ≡ self.now.history }
        ensures legal { IsLegal (begun State.object self.now.first) self.now.history }
        ensures first { IsFirst State.object self.now.first }
    {
        &self.history
    }

    /// Returns the number of calls of the history.
    pub fn position(&self) -> u64
        ensures exact { result ≡ length self.now.history }
        ensures room { length self.now.history < 2 ^ 64 }
        ensures legal { IsLegal (begun State.object self.now.first) self.now.history }
        ensures first { IsFirst State.object self.now.first }
    {
        self.history.len() as u64
    }

    /// Returns the state after the calls of the history.
    pub fn state(&self) -> &State
        ensures exact { replay (begun State.object self.now.first) self.now.history ≡ Some result.now }
    {
        &self.state
    }

    /// Returns the number of the last entry of a seat that counted; 0 if none did.
    pub fn last(&self, seat: u128) -> u64
        ensures exact { result ≡ number_in self.now.numbers seat }
    {
        number_of(&self.numbers, seat)
    }

    /// Returns the reply to a call in the state after what was read; `None` if the call would be accepted in it.
    pub fn answer_to(&self, call: &State::Call) -> Result<Option<State::Reply>, AllocError>
        ensures answers { IfOk result (λ answer. MatchOption answer
            (IsAccepted (begun State.object self.now.first) self.now.history call.now)
            (IsAnswered (begun State.object self.now.first) self.now.history call.now)) }
        ensures writes { IfOk result (λ answer. answer ≡ None → State.object.is_writing call.now ≡ true) }
    {
        if self.history.len() as u64 == u64::MAX {
            return Err(AllocError);
        }
        match self.state.decide(call)? {
            Decided::Answer(reply) => Ok(Some(reply)),
            Decided::Next(_) => Ok(None),
        }
    }

    /// Reads what is at the next index of the log: an entry, or `None` if there is no entry there. Returns the replies
    /// to the calls of an entry that counts, and no reply for an entry whose tag counted before. After a fault the
    /// reader is unchanged.
    pub fn take(
        &mut self,
        alloc: Global,
        index: usize,
        found: &Option<Entry<State::Call>>,
    ) -> Result<Vec<State::Reply>, ReadFault>
        ensures reads { IfOk result (λ replies. IfSome found.now (λ entry. ReadsEntry (begun State.object self.old.first) self.old entry replies.items self.new)) }
        ensures some { IfOk result (λ _. IsSome found.now) }
        ensures next { IfOk result (λ _. index ≡ self.old.index) }
        ensures stays { OnErr result (self.new ≡ self.old) }
        ensures fault { IfErr result (IsReadFault self.old index found.now) }
    {
        if index != self.index {
            return Err(ReadFault::OutOfOrder { index: self.index });
        }
        let Some(entry) = found else {
            return Err(ReadFault::Foreign { index });
        };
        match self.standing(entry) {
            Standing::New => Ok(self.decide(alloc, index, entry)?),
            Standing::Repeated => {
                self.index = index_after(index)?;
                Ok(Vec::new(alloc))
            }
            Standing::Foreign => Err(ReadFault::Foreign { index }),
        }
    }

    // Returns the kind of the entry that comes next.
    fn standing(&self, entry: &Entry<State::Call>) -> Standing
        ensures { IsStanding (number_in self.now.numbers) entry.now result }
    {
        let last = number_of(&self.numbers, entry.seat());
        if !entry.is_entry() {
            return Standing::Foreign;
        }
        if entry.number() <= last {
            return Standing::Repeated;
        }
        if entry.number() - 1 == last {
            return Standing::New;
        }
        Standing::Foreign
    }

    /// Restores what a snapshot of the log has at an index: an entry, or `None` if there is no entry there. Entries
    /// before it may be missing, so its number may be any that is greater than the last of its seat. The reader continues
    /// after that index. After a fault the reader is unchanged.
    pub fn restore(
        &mut self,
        alloc: Global,
        index: usize,
        found: &Option<Entry<State::Call>>,
    ) -> Result<(), ReadFault>
        ensures restores { IfOk result (λ _. IfSome found.now (λ entry. RestoresEntry (begun State.object self.old.first) index self.old entry self.new)) }
        ensures some { IfOk result (λ _. IsSome found.now) }
        ensures first { self.new.first ≡ self.old.first }
        ensures stays { OnErr result (self.new ≡ self.old) }
        ensures fault { IfErr result (IsRestoreFault self.old index found.now) }
    {
        if index < self.index {
            return Err(ReadFault::OutOfOrder { index: self.index });
        }
        let Some(entry) = found else {
            return Err(ReadFault::Foreign { index });
        };
        if !self.can_follow(entry) {
            return Err(ReadFault::Foreign { index });
        }
        self.decide(alloc, index, entry)?;
        Ok(())
    }

    // True if the entry can follow in a snapshot.
    fn can_follow(&self, entry: &Entry<State::Call>) -> bool
        ensures { IsTrue result ↔ CanFollow (number_in self.now.numbers) (Some entry.now) }
    {
        entry.is_entry() && number_of(&self.numbers, entry.seat()) < entry.number()
    }

    // Decides the calls of an entry at an index.
    fn decide(
        &mut self,
        alloc: Global,
        index: usize,
        entry: &Entry<State::Call>,
    ) -> Result<Vec<State::Reply>, AllocError>
        ensures first { self.new.first ≡ self.old.first }
        ensures index { OnOk result (self.new.index ≡ index + 1) }
        ensures decides { IfOk result (λ replies. DecidesEntry (begun State.object self.old.first) self.old entry.now replies.items self.new) }
        ensures stays { OnErr result (self.new ≡ self.old) }
    {
        let next = index_after(index)?;
        let before = self.history.len() as u64;
        let (seat, number) = (entry.seat(), entry.number());
        let draft = Draft::of_calls(alloc, &self.state, before, seat, entry.calls())?;
        let Draft {
            next: state,
            mut accepted,
            replies,
        } = draft;
        self.history.reserve(accepted.len())?;
        set_number(&mut self.numbers, seat, number)?;
        self.history.append(&mut accepted)?;
        advance(&mut self.state, state);
        self.index = next;
        Ok(replies)
    }
}

// Returns the index after this one; an overflow is reported as out of memory.
fn index_after(index: usize) -> Result<usize, AllocError>
    ensures { IfOk result (λ next. next ≡ index + 1) }
{
    index.checked_add(1).ok_or(AllocError)
}

// Replaces a state by the next one, if there is one.
fn advance<State: Object>(state: &mut State, next: Option<State>)
    ensures { state.new ≡ unwrap_or next state.old }
{
    if let Some(next) = next {
        *state = next;
    }
}
