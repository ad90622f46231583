//! Worked examples of conversations whose reader and writer move a few bytes a call, are interrupted, and fail. Reads a
//! table from standard input and prints it line by line, each conversation with what arrived at its writer below it.
//!
//! | Line | Meaning |
//! |---|---|
//! | `# ..`, `table NAME`, or nothing | a comment |
//! | `ends talk: READS BYTES WRITES BYTES TIMES` | the commands below, up to an empty line, in a conversation |
//! | `ends frames: READS BYTES WRITES BYTES TIMES` | the requests below, in frames |
//!
//! The exit status is 4 if the input was not read, a line was not printed or memory ran out, or if an `ends` has
//! another form.
#![tactic(auto)]

mod conversations;

use bstr::ByteSlice;
use conversations::{Conversation, conversation_of};
use std::alloc::Global;
use std::io;
use std::io::{Read, Write};
use std::process::ExitCode;

fn main(rt: HostRuntime) -> ExitCode {
    match run(rt.alloc(), &mut rt.stdin(), &mut rt.stdout()) {
        Ok(()) => ExitCode::SUCCESS,
        Err(_) => ExitCode::from(4),
    }
}

fn run<R: Read, W: Write>(alloc: Global, reader: &mut R, writer: &mut W) -> io::Result<()> {
    let mut input = Vec::new(alloc);
    reader.read_to_end(&mut input)?;
    print_table(alloc, &input, writer)
}

/// Prints the lines of a table, each conversation with its result before the empty line that ends it.
fn print_table<W: Write>(alloc: Global, input: &[u8], out: &mut W) -> io::Result<()> {
    let mut pending = None;
    for line in input.lines() {
        pending = next(alloc, pending, line, out)?;
        out.write_all(line)?;
        out.write_all(b"\n")?;
    }
    match pending {
        Some(conversation) => conversation.print_result(alloc, out),
        None => Ok(()),
    }
}

/// Processes a line: prints the result of the conversation that it ends, and returns the conversation that it belongs
/// to.
fn next<W: Write>(
    alloc: Global,
    pending: Option<Conversation>,
    line: &[u8],
    out: &mut W,
) -> io::Result<Option<Conversation>> {
    match pending {
        Some(conversation) if line.is_empty() => {
            conversation.print_result(alloc, out)?;
            Ok(None)
        }
        Some(mut conversation) => {
            conversation.push(line)?;
            Ok(Some(conversation))
        }
        None => conversation_of(alloc, line),
    }
}
