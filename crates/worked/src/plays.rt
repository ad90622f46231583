//! Entries that ask a book or a head, or run a script.

pub(crate) mod commands;
pub(crate) mod executions;
pub(crate) mod faults;
pub(crate) mod gates;
pub(crate) mod runs;
pub(crate) mod seatings;

use crate::entries::Play;
use crate::plays::commands::{command_of, names_of, read_numbers};
use crate::plays::executions::Executions;
use crate::plays::faults::{NO_COMMAND, NO_LINE, PlayFault};
use crate::plays::runs::append_run;
use crate::plays::seatings::Seating;
use crate::words::split_word;
use camp_head::HeadFault;
use camp_repo::{Book, Call, Fault, Refusal, Reply, State};
use camp_script::{WriteFault, write_history, write_reply};
use std::alloc::{AllocError, Global};
use std::sync::Wait;
use std::thread::Threads;

/// The book or head on which commands are executed.
#[derive(Drop)]
pub(crate) enum Stage {
    Book(Book<State>),
    Head(Seating),
}

/// An entry that does not belong to a table of values: its first line, and those below it.
#[derive(Clone, Copy)]
pub(crate) struct Entry<'a> {
    pub(crate) play: Play,
    pub(crate) first: &'a [u8],
    pub(crate) body: &'a [&'a [u8]],
}

/// Returns the answer to a call.
pub(crate) type Answer = Result<Reply, Fault>;

impl Stage {
    /// Makes a new book.
    pub(crate) fn new(alloc: Global) -> Result<Stage, AllocError> {
        Ok(Stage::Book(Book::new(alloc)?))
    }

    /// Appends the answer to an entry, or why it has none.
    pub(crate) fn append<R: Threads + Wait + Sync>(
        &mut self,
        rt: &R,
        entry: Entry<'_>,
        executions: &mut Executions,
        text: &mut Vec<u8>,
    ) -> Result<(), AllocError> {
        let done = match entry.play {
            Play::Command => self.append_executed(rt, entry, executions, text),
            Play::Run | Play::Ends => append_run(rt, entry, text),
            play => self.append_line(play, entry.first, text),
        };
        append_fault(done, text)
    }

    /// Executes a command as often as its entry says, and appends the last answer.
    fn append_executed<R: Wait>(
        &mut self,
        rt: &R,
        entry: Entry<'_>,
        executions: &mut Executions,
        text: &mut Vec<u8>,
    ) -> Result<(), PlayFault> {
        let command = command_of(entry.first, entry.body)?;
        for time in executions.count()..command.count {
            let call = command.call(*text.allocator(), time.saturating_add(1))?;
            executions.note(self.ask(rt, command.seat, &call)?);
        }
        executions.append_last(text)
    }

    /// Executes a call; if memory runs out, executes it again.
    fn ask<R: Wait>(&mut self, rt: &R, seat: u32, call: &Call) -> Result<Answer, PlayFault> {
        let answer = match self {
            Stage::Book(book) => Ok(book.ask(seat, call)),
            Stage::Head(seating) => seating.ask(rt, seat, call),
        };
        match answer {
            Ok(Err(Fault::Memory)) => Err(PlayFault::Memory),
            answer => answer,
        }
    }

    /// Executes a line that is neither a command nor a run.
    fn append_line(
        &mut self,
        play: Play,
        line: &[u8],
        text: &mut Vec<u8>,
    ) -> Result<(), PlayFault> {
        let (_, words) = split_word(line);
        match play {
            Play::Book => self.begin(*text.allocator()),
            Play::Head => self.open(words, text),
            Play::NoMerge => append_no_merge(words, text),
            play => self.append_report(play, words, text),
        }
    }

    fn begin(&mut self, alloc: Global) -> Result<(), PlayFault> {
        *self = Stage::new(alloc)?;
        Ok(())
    }

    /// Makes a head with these sizes; a missing one is 0.
    fn open(&mut self, words: &[u8], text: &mut Vec<u8>) -> Result<(), PlayFault> {
        let mut sizes = [0; 4];
        read_numbers(words, &mut sizes)?;
        match Seating::new(*text.allocator(), sizes) {
            Ok(seating) => {
                *self = Stage::Head(seating);
                Ok(())
            }
            Err(HeadFault::BadSize) => Ok(text.extend_from_slice(b"bad size\n")?),
            Err(HeadFault::Memory) => Err(PlayFault::Memory),
        }
    }

    /// Appends the accepted calls of a book, or what seats report.
    fn append_report(
        &mut self,
        play: Play,
        words: &[u8],
        text: &mut Vec<u8>,
    ) -> Result<(), PlayFault> {
        match self {
            Stage::Book(book) if matches!(play, Play::History) => {
                let mut written = Vec::new(*text.allocator());
                let ended = write_history(*text.allocator(), book.history(), &mut written);
                append_written(ended, &written, text)
            }
            Stage::Book(_) => Err(NO_LINE),
            Stage::Head(seating) => seating.append_report(play, words, text),
        }
    }
}

/// Appends the text of the refusal of a pull that does not merge; no known script leads to that refusal.
fn append_no_merge(words: &[u8], text: &mut Vec<u8>) -> Result<(), PlayFault> {
    let Some((left, right)) = names_of(words) else {
        return Err(NO_COMMAND);
    };
    let answer = Ok(Reply::Refused(Refusal::NoMerge { left, right }));
    let mut written = Vec::new(*text.allocator());
    let ended = write_reply(*text.allocator(), &answer, &mut written);
    append_written(ended, &written, text)
}

/// Appends the contents of a vector after a call that writes to it, which fails only if memory runs out.
fn append_written(
    ended: Result<(), WriteFault>,
    written: &[u8],
    text: &mut Vec<u8>,
) -> Result<(), PlayFault> {
    match ended {
        Ok(()) => Ok(text.extend_from_slice(written)?),
        Err(_) => Err(PlayFault::Memory),
    }
}

/// Appends bytes, unless memory ran out for them.
pub(crate) fn append_bytes(
    made: Result<Vec<u8>, AllocError>,
    text: &mut Vec<u8>,
) -> Result<(), PlayFault> {
    match made {
        Ok(bytes) => Ok(text.extend_from_slice(&bytes)?),
        Err(_) => Err(PlayFault::Memory),
    }
}

/// Appends words, unless memory ran out for them.
pub(crate) fn append_words(
    made: Result<String, AllocError>,
    text: &mut Vec<u8>,
) -> Result<(), PlayFault> {
    match made {
        Ok(words) => Ok(text.extend_from_slice(words.as_bytes())?),
        Err(_) => Err(PlayFault::Memory),
    }
}

fn append_fault(done: Result<(), PlayFault>, text: &mut Vec<u8>) -> Result<(), AllocError> {
    match done {
        Ok(()) => Ok(()),
        Err(PlayFault::Memory) => Err(AllocError),
        Err(fault) => {
            let words = fault.words(*text.allocator())?;
            text.extend_from_slice(b"fault: ")?;
            text.extend_from_slice(words.as_bytes())?;
            text.extend_from_slice(b"\n")
        }
    }
}
