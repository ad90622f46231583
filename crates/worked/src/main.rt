//! Worked examples. Reads a table from standard input and prints it line by line, each call with its
//! result below it.
//!
//! | Line | Meaning |
//! |---|---|
//! | `# ..`, or nothing | a comment |
//! | `table NAME` | a new table: all definitions are dropped |
//! | `quiet` | most results are shown as `made`, except `none`, `yes` and `no` |
//! | `p f 1 [one] -> [uno]` | a primitive, which is known as `p` from here on, and its inverse as `p^` |
//! | `s = [a add f, p]` | a list or a tree, which is called `s` from here on |
//! | `commute(p, q)` | a call |
//! | `book` | a new book, on which the commands below are executed |
//! | `head SEATS PER_SEAT TRIES EVERY` | a new head, at whose seats the commands below are executed |
//! | `SEAT COMMAND`, `repeat COUNT SEAT COMMAND` | a command of scripts, with its body below it |
//! | `history`, `history SEAT` | the accepted calls of the book, or what a seat has seen |
//! | `seen SEAT`, `meet SEAT SEAT` | how much a seat has seen; the first seat is synchronised with the second |
//! | `adopted SEAT` | how many snapshots the seat has installed from slots |
//! | `publish SEAT` | the seat publishes what it has seen |
//! | `no-merge LEFT RIGHT` | the text of a refusal |
//! | `run book`, `run locked`, `run head`, `run head TRIES`, `run turns TRIES` | the script below, up to an empty line, after its gates |
//! | `run locked counts` and the like | how its calls were answered, whatever the order of its clients |
//! | `ends WAY: READS BYTES WRITES BYTES TIMES` | the script below, with a reader and a writer that fail |
//!
//! The notation is that of `camp_notation`. An entry for which memory runs out is tried again. The exit status is 0 if
//! memory ran out for no line, 3 if it did for one or the allocation after the last line was refused, 4 if the input
//! was not read or a line was not printed, and 5 if memory ran out for several lines.
//!
//! `worked N M` makes M - N extra allocations before the table, so that the table's N-th allocation is the run's M-th:
//! in a build whose M-th allocation is refused, N chooses which one of the table fails. `worked M` prints after the
//! lines how many more allocations succeed, up to M.
#![tactic(auto)]

mod entries;
mod lines;
mod plays;
mod tables;
mod values;
mod wants;
mod words;

use lines::print_tables;
use std::alloc::Global;
use std::env::Env;
use std::io;
use std::io::{Read, Write};
use std::process::ExitCode;
use std::sync::Wait;
use std::thread::Threads;
use wants::{Wants, allocate_before, tell_room};

fn main(rt: HostRuntime) -> ExitCode {
    match run(&rt, rt.alloc(), &mut rt.stdin(), &mut rt.stdout()) {
        Ok(wants) => ExitCode::from(wants.status()),
        Err(_) => ExitCode::from(4),
    }
}

fn run<T: Env + Threads + Wait + Sync, R: Read, W: Write>(
    rt: &T,
    alloc: Global,
    reader: &mut R,
    writer: &mut W,
) -> io::Result<Wants> {
    allocate_before(rt, alloc)?;
    let mut input = Vec::new(alloc);
    reader.read_to_end(&mut input)?;
    let wants = print_tables(rt, alloc, &input, writer)?;
    tell_room(rt, alloc, writer)?;
    Ok(wants)
}
