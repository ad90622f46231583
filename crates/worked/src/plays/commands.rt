//! The commands of a table, each with its seat and how often it is executed.
use crate::plays::faults::{NO_COMMAND, PlayFault};
use crate::words::{number_of, split_word};
use bstr::ByteSlice;
use camp_base::Name;
use camp_call::{Call, Names};
use camp_run::RunFault;
use camp_script::{Script, ScriptFault, read_script};
use std::alloc::{AllocError, Global};

/// A command that is executed `times` times at a seat, with its lines.
#[derive(Clone, Copy)]
pub(crate) struct Command<'a> {
    pub(crate) seat: u32,
    pub(crate) count: u32,
    first: &'a [u8],
    body: &'a [&'a [u8]],
}

/// Parses the command of an entry: `SEAT COMMAND`, or `repeat COUNT SEAT COMMAND`.
pub(crate) fn command_of<'a>(
    first: &'a [u8],
    body: &'a [&'a [u8]],
) -> Result<Command<'a>, PlayFault> {
    let (count, first) = count_before(first)?;
    let (seat, first) = number_before(first)?;
    Ok(Command {
        seat,
        count,
        first,
        body,
    })
}

/// Returns how often a line is to be repeated, and the line.
fn count_before(line: &[u8]) -> Result<(u32, &[u8]), PlayFault> {
    match line.strip_prefix(b"repeat ") {
        Some(rest) => number_before(rest),
        None => Ok((1, line)),
    }
}

/// Returns the number at the start of a line, and the rest of the line.
fn number_before(line: &[u8]) -> Result<(u32, &[u8]), PlayFault> {
    match line.split_once_str(b" ") {
        Some((word, rest)) => Ok((number(word)?, rest)),
        None => Err(NO_COMMAND),
    }
}

/// Parses a word as a number.
pub(crate) fn number(word: &[u8]) -> Result<u32, PlayFault> {
    number_of(word).ok_or(NO_COMMAND)
}

/// Parses words as numbers, as many as there are variables; variables without a word are unchanged.
pub(crate) fn read_numbers(words: &[u8], numbers: &mut [u32]) -> Result<(), PlayFault> {
    for (at, word) in numbers.iter_mut().zip(words.fields()) {
        *at = number(word)?;
    }
    Ok(())
}

impl<'a> Command<'a> {
    /// Returns the call of the command. Replaces each `%` of its first line by `time`, the number of this execution,
    /// from 1; not in `pull-listed` and `obliterate-listed`.
    pub(crate) fn call(self, alloc: Global, time: u32) -> Result<Call, PlayFault> {
        if let Some(branches) = self.first.strip_prefix(b"pull-listed ") {
            return listless_pull(alloc, branches);
        }
        if let Some(branch) = self.first.strip_prefix(b"obliterate-listed ") {
            return listless_obliterate(alloc, branch);
        }
        self.read_call(alloc, time)
    }

    fn read_call(self, alloc: Global, time: u32) -> Result<Call, PlayFault> {
        let text = self.text(alloc, time)?;
        match read_script(alloc, &text) {
            Ok(script) => only_call(script),
            Err(ScriptFault::Line(fault)) => Err(PlayFault::Run(RunFault::Script(fault))),
            Err(ScriptFault::Memory) => Err(PlayFault::Memory),
        }
    }

    fn text(self, alloc: Global, time: u32) -> Result<Vec<u8>, PlayFault> {
        let mut text = Vec::new(alloc);
        append_first(&mut text, self.first, time)?;
        for line in self.body {
            append_line(&mut text, line)?;
        }
        Ok(text)
    }
}

fn append_first(text: &mut Vec<u8>, line: &[u8], time: u32) -> Result<(), AllocError> {
    let number = format!(in *text.allocator(); "{time}")?;
    for byte in line {
        match *byte {
            b'%' => text.extend_from_slice(number.as_bytes())?,
            byte => text.push(byte)?,
        }
    }
    text.push(b'\n')?;
    Ok(())
}

/// Appends a line of a body, or the lines of `repeat COUNT LINE`.
fn append_line(text: &mut Vec<u8>, line: &[u8]) -> Result<(), PlayFault> {
    let (count, line) = count_before(line)?;
    for _ in 0..count {
        text.extend_from_slice(line)?;
        text.push(b'\n')?;
    }
    Ok(())
}

fn only_call(script: Script) -> Result<Call, PlayFault> {
    match script.into_sections().pop() {
        Some(calls) if calls.len() == 1 => last_of(calls),
        _ => Err(NO_COMMAND),
    }
}

fn last_of(calls: Vec<Call>) -> Result<Call, PlayFault> {
    let mut calls = calls;
    calls.pop().ok_or(NO_COMMAND)
}

// Parses calls that no script can contain, since their list of names is empty: `pull-listed FROM TO` and
// `obliterate-listed BRANCH`.
fn listless_pull(alloc: Global, branches: &[u8]) -> Result<Call, PlayFault> {
    let Some((from, to)) = names_of(branches) else {
        return Err(NO_COMMAND);
    };
    let names = Some(no_names(alloc));
    Ok(Call::Pull { from, to, names })
}

/// Parses two words as names.
pub(crate) fn names_of(words: &[u8]) -> Option<(Name, Name)> {
    let (first, second) = split_word(words);
    match (Name::new(first), Name::new(second)) {
        (Ok(first), Ok(second)) => Some((first, second)),
        _ => None,
    }
}

fn listless_obliterate(alloc: Global, branch: &[u8]) -> Result<Call, PlayFault> {
    let Ok(branch) = Name::new(branch) else {
        return Err(NO_COMMAND);
    };
    let names = no_names(alloc);
    Ok(Call::Obliterate { branch, names })
}

fn no_names(alloc: Global) -> Names {
    let names = Vec::new(alloc);
    Names::new(names)
}
