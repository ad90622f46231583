//! What a member of a log of texts wants.
ghost use Rattle.std.specs.Prelude.{◌≡◌, ◌<◌, ◌≤◌, length, IfOk};
ghost use Rattle.std.specs.List.{AllByRecursion, flat_map};
ghost use Rattle.camp_entries.specs.Texts.{IsNoted, noted_text};
ghost use Rattle.camp_member.specs.Entries.{IsEntry};
ghost use Rattle.camp_member.specs.Telling.{MemberAdvances};
ghost use Rattle.camp_member.specs.Wanting.{IsStopped};
ghost use Rattle.camp_member.specs.declared.requests.Want.TheVariants as want;
ghost use Rattle.camp_shared.specs.Asking.{IsRendered, WantsText};
ghost use Rattle.camp_shared.specs.Inside.{AreFitting, CanBeAsked};
ghost use Rattle.camp_shared.specs.Sharing.{most_bytes_of_calls, shared_from};

use crate::{MAX_CALL_BYTES, SharedRepository};
use camp_call::Call;
use camp_entries::{EntryFault, entry_text, noted_text};
use camp_member::{Entry, MAX_CALLS, NotedCall, Request, Want};
use std::alloc::{AllocError, Global};

/// What a member wants of its log.
#[derive(Drop)]
pub enum TextWant {
    /// Nothing: no request waits.
    Nothing,
    /// To read the log from this index on; the title has index 0.
    Read { from: usize },
    /// To append this text under its tag, which is the seat and this number, unless there is an entry with that tag;
    /// and to read the log up to it. It is wanted until it is found or refused.
    Append { number: u64, text: Vec<u8> },
}

impl SharedRepository {
    /// Answers the first requests, as far as what was read allows, and returns what the member wants of the log. A new
    /// entry gets the calls of as many of the first requests as fit. An entry under way is wanted unchanged until it is
    /// found or refused. If memory runs out, the entry under way stays, and so do the answers already given.
    pub fn want(&mut self, alloc: Global) -> Result<TextWant, AllocError>
        ensures wants { IfOk result (WantsText self.old self.new) }
        ensures stays { 0 < self.old.sent → self.new ≡ self.old }
        ensures reading { self.new.reading ≡ self.old.reading }
        ensures is_stopped { self.new.is_stopped ≡ self.old.is_stopped }
        ensures goes { MemberAdvances (shared_from self.old.reading.first) (IsStopped (shared_from self.old.reading.first) self.old) self.old self.new }
    {
        let _position = self.member.reader().position();
        self.member.answer_ready()?;
        let most = fitting(alloc, self.member.waiting())?;
        match self.member.want(alloc, most)? {
            Want::Nothing => Ok(TextWant::Nothing),
            Want::Read { from } => Ok(TextWant::Read { from: from + 1 }),
            Want::Append { entry } => render(alloc, &entry),
        }
    }
}

// Returns how many of the first requests, at most 256, have calls that fit in one entry together.
fn fitting(alloc: Global, waiting: &[Request<NotedCall<Call>>]) -> Result<usize, AllocError>
    requires { AllByRecursion CanBeAsked waiting.now }
    ensures { IfOk result (AreFitting waiting.now) }
{
    let mut count = 0;
    let mut bytes = 0;
    for request in waiting {
        if count == MAX_CALLS {
            return Ok(count);
        }
        let len = noted_len(alloc, &request.call)?;
        if len > MAX_CALL_BYTES - bytes {
            return Ok(count);
        }
        bytes += len;
        count += 1;
    }
    Ok(count)
}

// Returns the number of bytes of a call together with its note.
fn noted_len(alloc: Global, noted: &NotedCall<Call>) -> Result<usize, AllocError>
    requires { IsNoted noted.now }
    ensures { IfOk result (λ len. len ≡ length (noted_text noted.now)) }
{
    match noted_text(alloc, noted) {
        Ok(text) => Ok(text.len()),
        Err(EntryFault::Memory) => Err(AllocError),
        Err(EntryFault::Unfit) => unreachable!(),
    }
}

// Renders the entry to append.
fn render(alloc: Global, entry: &Entry<NotedCall<Call>>) -> Result<TextWant, AllocError>
    requires is { IsEntry entry.now }
    requires noted { AllByRecursion IsNoted entry.now.calls }
    requires short { length (flat_map noted_text entry.now.calls) ≤ most_bytes_of_calls }
    ensures { IfOk result (IsRendered (want.Append entry.now)) }
{
    let _seat = entry.seat();
    let number = entry.number();
    match entry_text(alloc, entry) {
        Ok(text) => Ok(TextWant::Append { number, text }),
        Err(EntryFault::Memory) => Err(AllocError),
        Err(EntryFault::Unfit) => unreachable!(),
    }
}
