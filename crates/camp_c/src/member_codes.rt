//! The result codes of members.
ghost use Rattle.std.specs.Prelude.{◌≡◌};
ghost use Rattle.camp_c.specs.Members.{code_of_answer, code_of_asking, code_of_opening, code_of_reading, code_of_want};

use crate::codes::{DONE, MEMORY};
use camp_shared_session::{Answered, AskFault, NoReply, OpenFault, ReadFault, Wanted};

/// The first entry is no title of a log of a repository.
const NO_TITLE: i32 = 16;

/// A text is not that of one call in canonical form.
const NO_CALL: i32 = 17;

/// A call is too long for an entry.
const TOO_LONG: i32 = 18;

/// The text in the log is no entry of a member, or one of another process with the same seat.
const FOREIGN: i32 = 19;

/// Another entry comes next.
const OUT_OF_ORDER: i32 = 20;

/// Nothing is wanted, each answer was taken, or no call has the index.
pub(crate) const NOTHING: i32 = 21;

/// A member wants to read the log from an index on.
const READ: i32 = 22;

/// A member wants to append an entry.
const APPEND: i32 = 23;

/// A request has a reply.
const REPLY: i32 = 24;

/// A request gets no reply: the log refused its entry.
const REFUSED: i32 = 25;

/// A request gets no reply: the log ends before the accepted calls that it waits for.
const ENDED: i32 = 26;

/// A request gets no reply: the member has stopped.
const STOPPED: i32 = 27;

/// A request waits for its answer.
pub(crate) const WAITS: i32 = 28;

/// Returns the code for why there is no member.
pub(crate) fn opening(fault: OpenFault) -> i32
    ensures { result ≡ code_of_opening fault }
{
    match fault {
        OpenFault::Memory => MEMORY,
        OpenFault::NoTitle => NO_TITLE,
    }
}

/// Returns the code for how a call was queued.
pub(crate) fn asking(outcome: Result<(), AskFault>) -> i32
    ensures { result ≡ code_of_asking outcome }
{
    match outcome {
        Ok(()) => DONE,
        Err(AskFault::Memory) => MEMORY,
        Err(AskFault::NoCall) => NO_CALL,
        Err(AskFault::TooLong) => TOO_LONG,
    }
}

/// Returns the code for how an entry was read.
pub(crate) fn reading(outcome: Result<(), ReadFault>) -> i32
    ensures { result ≡ code_of_reading outcome }
{
    match outcome {
        Ok(()) => DONE,
        Err(ReadFault::Memory) => MEMORY,
        Err(ReadFault::Foreign { index: _ }) => FOREIGN,
        Err(ReadFault::OutOfOrder { index: _ }) => OUT_OF_ORDER,
    }
}

/// Returns the code for what a member wants of its log.
pub(crate) fn want(wanted: Wanted) -> i32
    ensures { result ≡ code_of_want wanted }
{
    match wanted {
        Wanted::Nothing => NOTHING,
        Wanted::Read => READ,
        Wanted::Append => APPEND,
    }
}

/// Returns the code for the kind of an answer.
pub(crate) fn answer(answered: Answered) -> i32
    ensures { result ≡ code_of_answer answered }
{
    match answered {
        Answered::Nothing => NOTHING,
        Answered::Reply => REPLY,
        Answered::Without(NoReply::Refused) => REFUSED,
        Answered::Without(NoReply::Ended) => ENDED,
        Answered::Without(NoReply::Stopped) => STOPPED,
    }
}
