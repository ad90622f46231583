//! Parsing commands.
ghost use Rattle.std.specs.Prelude.{◌≡◌, ◌∷◌, [], List, Result, bytes_eq, codes};
ghost use Rattle.camp_call.specs.declared.calls.Call.{Call as SpecCall};
ghost use Rattle.camp_script.specs.Gives.{Gives};
ghost use Rattle.camp_script.specs.Lines.{is_skipped, lines_of, words_of};
ghost use Rattle.camp_script.specs.declared.faults.LineFault.{LineFault as SpecFault};
ghost use Rattle.camp_talk.specs.Parsing.{call_in, first_of, is_why, parsed_words, why_of};

use crate::question_words::read_question;
use crate::questions::{ParsedCommand, Question};
use bstr::ByteSlice;
use camp_call::Call;
use camp_script::{FaultKind, Script, ScriptFault, Words, at_line, without_end};
use std::alloc::Global;

/// True if a line asks nothing: it has no word, or the first word begins with `#`.
pub(crate) fn is_skipped(line: &[u8]) -> bool
    ensures { result ≡ is_skipped (words_of line.now) }
{
    match Words::new(line).next() {
        Some(word) => word.starts_with(b"#"),
        None => true,
    }
}

/// True if a word, or a line, equals this one.
pub(crate) fn is_word(word: &[u8], other: &[u8]) -> bool
    ensures { result ≡ bytes_eq word.now other.now }
{
    word == other
}

/// Parses a command, given the script of its call.
pub(crate) fn parse_command(
    alloc: Global,
    bytes: &[u8],
    script: Result<Script, ScriptFault>,
) -> Result<ParsedCommand, ScriptFault>
    ensures { (reading : Result (List (List SpecCall)) SpecFault) → Gives script reading →
        Gives result (parsed_words (words_of (first_of (lines_of bytes.now))) reading) }
{
    let mut words = Words::new(first_line(bytes));
    let Some(word) = words.next() else {
        return read_call(script);
    };
    if is_word(word, b"whatif") {
        return read_what_if(script);
    }
    if is_why(word) {
        return read_why(words);
    }
    match read_question(alloc, word, words) {
        Ok(Some(question)) => Ok(ParsedCommand::Question(question)),
        Ok(None) => read_call(script),
        Err(fault) => Err(fault),
    }
}

/// Returns the first line of bytes, or an empty one if there is none.
pub(crate) fn first_line(bytes: &[u8]) -> &[u8]
    ensures value { result.now ≡ first_of (lines_of bytes.now) }
{
    match bytes.lines_with_terminator().next() {
        Some(line) => without_end(line),
        None => &[],
    }
}

// Returns the call of a script, if it is one section with one call.
fn call_in(script: Script) -> Result<Option<Call>, ScriptFault>
    ensures { Gives result (call_in script) }
{
    let mut sections = script.into_sections();
    let Some(mut calls) = sections.pop() else {
        return Err(at_line(1, FaultKind::UnknownCommand));
    };
    if !sections.is_empty() {
        return Err(at_line(1, FaultKind::UnknownCommand));
    }
    if calls.is_empty() {
        return Ok(None);
    }
    Ok(Some(calls.swap_remove(0)))
}

fn read_call(script: Result<Script, ScriptFault>) -> Result<ParsedCommand, ScriptFault>
    ensures { (reading : Result (List (List SpecCall)) SpecFault) → Gives script reading → Gives result (parsed_words [] reading) }
{
    match call_in(script?)? {
        Some(call) => Ok(ParsedCommand::Call(call)),
        None => Ok(ParsedCommand::Nothing),
    }
}

// True if a word is `why`, perhaps with the carriage return of a line that ends with CR and LF.
fn is_why(word: &[u8]) -> bool
    ensures { result ≡ is_why word.now }
{
    is_word(word, b"why") || is_word(word, b"why\r")
}

fn read_why(words: Words<'_>) -> Result<ParsedCommand, ScriptFault>
    ensures { Gives result (why_of words.entry) }
{
    let mut words = words;
    match words.next() {
        None => Ok(ParsedCommand::Why),
        Some(_) => Err(at_line(1, FaultKind::WrongNumberOfWords)),
    }
}

fn read_what_if(script: Result<Script, ScriptFault>) -> Result<ParsedCommand, ScriptFault>
    ensures { (reading : Result (List (List SpecCall)) SpecFault) → Gives script reading → Gives result (parsed_words (codes "whatif" ∷ []) reading) }
{
    match call_in(script?)? {
        Some(call) => Ok(ParsedCommand::Question(Question::WhatIf(call))),
        None => Err(at_line(1, FaultKind::UnknownCommand)),
    }
}
