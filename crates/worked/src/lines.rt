//! Printing tables: each entry, and its result below it.
use crate::entries::{entry_len, play_of};
use crate::plays::executions::Executions;
use crate::plays::{Entry, Stage};
use crate::tables::{Table, split_call};
use crate::values::calls;
use crate::values::results::Outcome;
use crate::wants::{Wants, allocate};
use crate::words::{joined, words_of};
use bstr::ByteSlice;
use camp_notation::NotationError;
use camp_script::write_text;
use std::alloc::{AllocError, Global};
use std::io;
use std::io::Write;
use std::sync::Wait;
use std::thread::Threads;

/// Prints tables entry by entry, each call with its result below it. Returns how many entries ran out of
/// memory.
pub(crate) fn print_tables<R: Threads + Wait + Sync, W: Write>(
    rt: &R,
    alloc: Global,
    input: &[u8],
    out: &mut W,
) -> io::Result<Wants> {
    let lines = lines_of(alloc, input)?;
    print_lines(rt, alloc, &lines, out)
}

fn print_lines<R: Threads + Wait + Sync, W: Write>(
    rt: &R,
    alloc: Global,
    lines: &[&[u8]],
    out: &mut W,
) -> io::Result<Wants> {
    let mut stage = Stage::new(alloc)?;
    print_at(rt, alloc, lines, &mut stage, out)
}

fn print_at<R: Threads + Wait + Sync, W: Write>(
    rt: &R,
    alloc: Global,
    lines: &[&[u8]],
    stage: &mut Stage,
    out: &mut W,
) -> io::Result<Wants> {
    let mut table = Table::new(alloc);
    let mut wants = Wants::new();
    print_entries(rt, lines, &mut table, stage, &mut wants, out)?;
    if allocate(alloc).is_err() {
        wants.note();
    }
    Ok(wants)
}

fn print_entries<R: Threads + Wait + Sync, W: Write>(
    rt: &R,
    lines: &[&[u8]],
    table: &mut Table,
    stage: &mut Stage,
    wants: &mut Wants,
    out: &mut W,
) -> io::Result<()> {
    let mut at = 0;
    for _ in 0..lines.len() {
        if at >= lines.len() {
            break;
        }
        let rest = &lines[at..];
        let length = entry_len(rest);
        let text = entry_text(rt, table, stage, &rest[..length], wants)?;
        write_text(out, &text)?;
        at += length;
    }
    Ok(())
}

fn lines_of(alloc: Global, input: &[u8]) -> Result<Vec<&[u8]>, AllocError> {
    let mut lines = Vec::new(alloc);
    for line in input.lines() {
        lines.push(line)?;
    }
    Ok(lines)
}

/// Prints the lines of an entry and then its result. If memory runs out, the entry is tried again, except for calls of
/// a book or a head that were executed already.
fn entry_text<R: Threads + Wait + Sync>(
    rt: &R,
    table: &mut Table,
    stage: &mut Stage,
    entry: &[&[u8]],
    wants: &mut Wants,
) -> Result<Vec<u8>, AllocError> {
    let mut executions = Executions::nothing();
    match try_entry(rt, table, stage, entry, &mut executions) {
        Ok(text) => Ok(text),
        Err(_) => {
            wants.note();
            try_entry(rt, table, stage, entry, &mut executions)
        }
    }
}

fn try_entry<R: Threads + Wait + Sync>(
    rt: &R,
    table: &mut Table,
    stage: &mut Stage,
    entry: &[&[u8]],
    executions: &mut Executions,
) -> Result<Vec<u8>, AllocError> {
    let mut text = joined(table.alloc(), entry)?;
    let done = match entry {
        [first, body @ ..] => match play_of(first) {
            Some(play) => stage.append(rt, Entry { play, first, body }, executions, &mut text),
            None => append_line(table, first, &mut text),
        },
        [] => Ok(()),
    };
    match done {
        Ok(()) => Ok(text),
        Err(why) => Err(why),
    }
}

/// Stores the definition of a line, or appends the result of its call.
fn append_line(table: &mut Table, line: &[u8], text: &mut Vec<u8>) -> Result<(), AllocError> {
    match split_call(line) {
        Some((name, arguments)) => append_outcome(calls::answer(table, name, arguments), text),
        None => match table.learn(line) {
            Ok(()) => Ok(()),
            Err(why) => append_outcome(Err(why), text),
        },
    }
}

fn append_outcome(outcome: Outcome, text: &mut Vec<u8>) -> Result<(), AllocError> {
    match outcome {
        Ok(words) => append_result(&words, text),
        Err(NotationError::Memory) => Err(AllocError),
        Err(why) => append_result(&words_of(*text.allocator(), &why)?, text),
    }
}

fn append_result(words: &str, text: &mut Vec<u8>) -> Result<(), AllocError> {
    text.extend_from_slice(b"= ")?;
    text.extend_from_slice(words.as_bytes())?;
    text.push(b'\n')?;
    Ok(())
}
