//! Conversations over a durable repository. Each commit persists all accepted calls.
ghost use Rattle.std.specs.Prelude.{◌≡◌, ◌+◌, ◌-◌, length};
ghost use Rattle.camp_kept.specs.Accepting.{StoreContents};
ghost use Rattle.camp_kept.specs.Persisting.{accepted_by, durable_count_in, durable_notes_in};
ghost use Rattle.camp_kept_talk.specs.Conversations.{CommitsStore, PersistsFirst, SharesStore};
ghost use Rattle.camp_talk.specs.Diagnostics.{no_diagnostic};
ghost use Rattle.camp_talk.specs.Engine.Commands.{AnswersFrame, ExecutesCommand};

use camp_kept::{Disk, DurableRepository, PersistenceFault};
use camp_talk::{Backend, Command, Diagnostic, Response, TalkFault, answer_alone, execute_command};
use std::alloc::Global;

/// A conversation over a durable repository: commands are executed at seat 0.
#[derive(Drop)]
pub struct StoredConversation<D: Disk> {
    alloc: Global,
    kept: DurableRepository<D>,
    /// The number of lines that were read.
    lines: u64,
    /// The diagnostic of the last fault or refusal.
    diagnostic: Diagnostic,
}

impl<D: Disk> StoredConversation<D> {
    /// Starts before the first command.
    pub fn new(alloc: Global, kept: DurableRepository<D>) -> StoredConversation<D>
        ensures kept { result.kept ≡ kept }
        ensures first { result.lines ≡ 0 }
        ensures diagnostic { result.diagnostic ≡ no_diagnostic }
    {
        StoredConversation {
            alloc,
            kept,
            lines: 0,
            diagnostic: Diagnostic::new(),
        }
    }
}

impl<D: Disk> Backend<Command, Response> for StoredConversation<D> {
    type Fault = TalkFault;

    type CommitFault = PersistenceFault;

    ghost use Rattle.camp_kept_talk.specs.DurableLaws.{commit_persists, share_persists};

    ghost Contents = { StoreContents };

    ghost contents = { λ it. accepted_by it.kept };

    ghost persists = { λ stored it. PersistsFirst D.Disk.seen D.Disk.may_leave stored it.kept };

    ghost executes = { λ before command result after. SharesStore before.kept after.kept × ExecutesCommand
        (record { history = before.kept.book; lines = before.lines; diagnostic = before.diagnostic }) command
        result (record { history = after.kept.book; lines = after.lines; diagnostic = after.diagnostic }) };

    ghost commits = { λ before result after. CommitsStore D.Disk.seen D.Disk.may_leave D.Disk.faults D.Disk.is_clean before.kept result after.kept
        × (after.lines ≡ before.lines) × (after.diagnostic ≡ before.diagnostic) };

    ghost waiting = { λ it. (length (accepted_by it.kept).calls - durable_count_in it.kept) + (length (accepted_by it.kept).notes - durable_notes_in it.kept) };

    fn execute(&mut self, command: Command) -> Result<Response, TalkFault> {
        execute_command(
            self.alloc,
            &mut self.kept.book,
            &mut self.lines,
            &mut self.diagnostic,
            command,
        )
    }

    fn commit(&mut self) -> Result<(), PersistenceFault> {
        commit_store(self.alloc, &mut self.kept)
    }

    fn waiting(&self) -> usize {
        self.kept.waiting()
    }

    ghost execute_persists = { λ before command result after executes stored durable. share_persists D.Disk.seen D.Disk.may_leave before.kept after.kept executes.0 stored durable };

    ghost commit_persists = { λ before after commits stored durable. commit_persists D.Disk.seen D.Disk.may_leave D.Disk.faults D.Disk.is_clean before.kept after.kept commits.0 stored durable };
}

/// A conversation in frames over a durable repository: requests are executed at seat 0.
#[derive(Drop)]
pub struct FramedStore<D: Disk> {
    alloc: Global,
    kept: DurableRepository<D>,
}

impl<D: Disk> FramedStore<D> {
    /// Starts before the first request.
    pub fn new(alloc: Global, kept: DurableRepository<D>) -> FramedStore<D>
        ensures { result.kept ≡ kept }
    {
        FramedStore { alloc, kept }
    }
}

impl<D: Disk> Backend<Vec<u8>, Vec<u8>> for FramedStore<D> {
    type Fault = TalkFault;

    type CommitFault = PersistenceFault;

    ghost use Rattle.camp_kept_talk.specs.DurableLaws.{commit_persists, share_persists};

    ghost Contents = { StoreContents };

    ghost contents = { λ it. accepted_by it.kept };

    ghost persists = { λ stored it. PersistsFirst D.Disk.seen D.Disk.may_leave stored it.kept };

    ghost executes = { λ before request result after. SharesStore before.kept after.kept × AnswersFrame before.kept.book request.items result after.kept.book };

    ghost commits = { λ before result after. CommitsStore D.Disk.seen D.Disk.may_leave D.Disk.faults D.Disk.is_clean before.kept result after.kept };

    ghost waiting = { λ it. (length (accepted_by it.kept).calls - durable_count_in it.kept) + (length (accepted_by it.kept).notes - durable_notes_in it.kept) };

    fn execute(&mut self, request: Vec<u8>) -> Result<Vec<u8>, TalkFault> {
        answer_alone(self.alloc, &mut self.kept.book, &request)
    }

    fn commit(&mut self) -> Result<(), PersistenceFault> {
        commit_store(self.alloc, &mut self.kept)
    }

    fn waiting(&self) -> usize {
        self.kept.waiting()
    }

    ghost execute_persists = { λ before request result after executes stored durable. share_persists D.Disk.seen D.Disk.may_leave before.kept after.kept executes.0 stored durable };

    ghost commit_persists = { λ before after commits stored durable. commit_persists D.Disk.seen D.Disk.may_leave D.Disk.faults D.Disk.is_clean before.kept after.kept commits stored durable };
}

// Persists all accepted calls.
fn commit_store<D: Disk>(
    alloc: Global,
    kept: &mut DurableRepository<D>,
) -> Result<(), PersistenceFault>
    ensures { CommitsStore D.Disk.seen D.Disk.may_leave D.Disk.faults D.Disk.is_clean kept.old result kept.new }
{
    kept.commit(alloc)
}
