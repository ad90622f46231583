//! Running a conversation.
ghost use Rattle.std.specs.Prelude.{◌≡◌, [], OnOk};
ghost use Rattle.camp_talk.specs.Engine.Runs.{FlushesGroup, ResponsesAreDurable, RunsAll};

use crate::engine::groups::{Halt, gather};
use crate::engine::{Backend, Framing, GroupLimits};
use crate::write_answer;
use std::alloc::Global;
use std::io::{self, Write};

/// Why a conversation ended before its input did.
#[derive(Debug, Drop)]
pub enum Stop<C, B, F> {
    /// A commit failed. No response of its group was written.
    Commit(C),
    /// The writer failed. Everything is committed, and a prefix of the responses was written.
    Write(io::Error),
    /// No request could be read. Everything is committed, and all responses were written.
    Read(F),
    /// A request was not executed. Everything is committed, and all other responses were written.
    Execute(B),
    /// There were 2^64 - 1 groups. No conversation reaches that.
    Internal,
}

/// Answers the requests of a framing, one after the other, until there are no more. Responses are buffered until
/// everything that was executed before them is committed: before the framing has to wait for the next request, at the
/// limits of a group, and at the end.
pub fn run<Q, A: Drop, B: Backend<Q, A>, F: Framing<Q, A>, W: Write>(
    alloc: Global,
    backend: &mut B,
    framing: &mut F,
    writer: &mut W,
    limits: GroupLimits,
) -> Result<(), Stop<B::CommitFault, B::Fault, F::Fault>>
    ensures { RunsAll B.Backend F.Framing limits backend.old framing.old (W.contents writer.old) result backend.new framing.new (W.contents writer.new) }
{
    let mut pending = Vec::new(alloc);
    for _ in 0..u64::MAX {
        let halt = gather(backend, framing, &mut pending, limits);
        if let Err(fault) = commit_and_write(backend, &mut pending, writer) {
            return Err(fault);
        }
        match halt {
            Halt::Pause => {}
            Halt::End => return Ok(()),
            Halt::Read(why) => return Err(Stop::Read(why)),
            Halt::Execute(why) => return Err(Stop::Execute(why)),
            Halt::Unbuffered(response) => {
                if let Err(error) = framing.write_response(&response, writer) {
                    return Err(Stop::Write(error));
                }
            }
        }
    }
    Err(Stop::Internal)
}

// Commits, and then writes what is pending and flushes. If the commit fails, nothing is written.
fn commit_and_write<Q, A, H, B: Backend<Q, A>, W: Write>(
    backend: &mut B,
    pending: &mut Vec<u8>,
    writer: &mut W,
) -> Result<(), Stop<B::CommitFault, B::Fault, H>>
    ensures flushes { FlushesGroup B.Backend backend.old pending.old.items (W.contents writer.old) result backend.new (W.contents writer.new) }
    ensures empty { OnOk result (pending.new.items ≡ []) }
{
    if let Err(why) = backend.commit() {
        return Err(Stop::Commit(why));
    }
    match write_answer(writer, pending) {
        Ok(()) => {
            pending.clear();
            Ok(())
        }
        Err(error) => Err(Stop::Write(error)),
    }
}

/// When responses are written, everything that was executed before is durable: after each group, and after a
/// conversation in which no commit failed. After one that failed, what the groups before have changed is durable up to
/// that commit.
pub fn responses_are_durable<Q, A: Drop, B: Backend<Q, A>, F: Framing<Q, A>>()
    ensures law { ResponsesAreDurable B.Backend F.Framing }
{}
