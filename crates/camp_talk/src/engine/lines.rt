//! Commands in lines: each is a line, with the lines of its body or group.
ghost use Rattle.std.specs.Prelude.{◌≡◌, None, false, true, List, IfErr, IfOk, ℕ};
ghost use Rattle.std.specs.Io.Buffered.{reader_remaining};
ghost use Rattle.std.specs.Io.KnownBytes.{Consumes};
ghost use Rattle.camp_talk.specs.Engine.Commands.{BreaksBefore, ReadsNextCommand};
ghost use Rattle.camp_talk.specs.Inside.Responses.{written};

use crate::engine::Framing;
use crate::prompts::Prompting;
use crate::readiness::begin_with_command;
use crate::readings::{Command, read_command};
use crate::responses::Response;
use crate::{TalkFault, write_answer};
use std::alloc::Global;
use std::io::{self, BufRead, BufReader, Read, Write};

/// Reads commands in lines, and writes their answers.
#[derive(Drop)]
pub struct Lines<R> {
    alloc: Global,
    reader: BufReader<R>,
    /// True once a command was read that the end of the input has cut off, or that is empty.
    is_ended: bool,
}

impl<R: Read> Lines<R> {
    /// Starts before the first command of a reader.
    pub fn new(alloc: Global, reader: BufReader<R>) -> Lines<R>
        ensures reader { result.reader ≡ reader }
        ensures ended { result.is_ended ≡ false }
    {
        Lines {
            alloc,
            reader,
            is_ended: false,
        }
    }
}

impl<R: Read> Framing<Command, Response> for Lines<R> {
    type Fault = TalkFault;

    ghost remaining = { λ it. reader_remaining R.remaining it.reader };

    ghost reads = { λ from command bytes to.
        ReadsNextCommand (reader_remaining R.remaining from.reader) (reader_remaining R.remaining to.reader) from.is_ended command bytes to.is_ended };

    ghost ends = { λ from to. (from.is_ended ≡ true) × (to ≡ from) };

    ghost breaks = { λ from why to. BreaksBefore (reader_remaining R.remaining from.reader) (reader_remaining R.remaining to.reader) why };

    ghost ready = { λ it. Unit {0} };

    ghost renders = { λ response. written response };

    fn read_request(&mut self) -> Result<Option<Command>, TalkFault> {
        if self.is_ended {
            return Ok(None);
        }
        Ok(Some(next_command(self.alloc, &mut self.reader, &mut self.is_ended)?))
    }

    fn write_response<O: Write>(&self, response: &Response, writer: &mut O) -> io::Result<()> {
        write_answer(writer, response.bytes())
    }

    fn is_ready(&self) -> bool {
        begin_with_command(self.reader.buffer())
    }
}

/// Reads commands in lines at a terminal, with a prompt for each line, and writes their answers.
#[derive(Drop)]
pub struct Prompts<R, W> {
    alloc: Global,
    reader: Prompting<R, W>,
    /// True once a command was read that the end of the input has cut off, or that is empty; a line `quit` ends the
    /// input.
    is_ended: bool,
}

impl<R: BufRead, W: Write> Prompts<R, W> {
    /// Starts before the first command of a reader; writes the greeting.
    pub fn new(alloc: Global, reader: R, writer: W) -> Prompts<R, W>
        ensures ended { result.is_ended ≡ false }
    {
        Prompts {
            alloc,
            reader: Prompting::new(alloc, reader, writer),
            is_ended: false,
        }
    }
}

impl<R: BufRead, W: Write> Framing<Command, Response> for Prompts<R, W> {
    type Fault = TalkFault;

    ghost remaining = { λ it. None };

    ghost reads = { λ from command bytes to. ReadsNextCommand None None from.is_ended command bytes to.is_ended };

    ghost ends = { λ from to. (from.is_ended ≡ true) × (to ≡ from) };

    ghost breaks = { λ from why to. BreaksBefore None None why };

    ghost ready = { λ it. ⊥ };

    ghost renders = { λ response. written response };

    fn read_request(&mut self) -> Result<Option<Command>, TalkFault> {
        if self.is_ended {
            return Ok(None);
        }
        self.reader.begin();
        Ok(Some(next_command(self.alloc, &mut self.reader, &mut self.is_ended)?))
    }

    fn write_response<O: Write>(&self, response: &Response, writer: &mut O) -> io::Result<()> {
        write_answer(writer, response.bytes())
    }

    fn is_ready(&self) -> bool {
        false
    }
}

// Reads the next command.
fn next_command<R: BufRead>(
    alloc: Global,
    reader: &mut R,
    is_ended: &mut bool,
) -> Result<Command, TalkFault>
    requires { is_ended.old ≡ false }
    ensures reads { IfOk result (λ command. (bytes : List ℕ)
        × ReadsNextCommand (R.remaining reader.old) (R.remaining reader.new) is_ended.old command bytes is_ended.new
        × Consumes (R.remaining reader.old) (R.remaining reader.new) bytes) }
    ensures breaks { IfErr result (BreaksBefore (R.remaining reader.old) (R.remaining reader.new)) }
{
    let command = read_command(alloc, reader)?;
    *is_ended = !command.is_whole;
    Ok(command)
}
