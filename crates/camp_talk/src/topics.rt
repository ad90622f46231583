//! Parsing the topic of help.
ghost use Rattle.std.specs.Option.{option_copied};
ghost use Rattle.std.specs.Prelude.{◌≡◌, map};
ghost use Rattle.camp_script.specs.Gives.{Gives};
ghost use Rattle.camp_talk.specs.Parsing.{first_begun, first_numbered, help_line, reason_at, refusal_topic, topic_at, word_topic};

use crate::help_answers::{commands, topic_word};
use crate::parsing::is_word;
use crate::questions::{Reason, Topic};
use crate::refusal_texts::{reason_number, reasons};
use camp_script::{FaultKind, ScriptFault, at_line};

/// Parses the topic of help from the words after `help`.
pub(crate) fn help_topic(words: &[&[u8]]) -> Result<Topic, ScriptFault>
    ensures { Gives result (help_line (map (λ word. word.now) words.now)) }
{
    match words {
        [] => Ok(Topic::Commands),
        [word] => word_topic(word),
        [word, number] => refusal_topic(word, number),
        _ => Err(at_line(1, FaultKind::WrongNumberOfWords)),
    }
}

// Parses the topic of help with one word.
fn word_topic(word: &[u8]) -> Result<Topic, ScriptFault>
    ensures { Gives result (word_topic word.now) }
{
    if is_word(word, b"refused") {
        return Ok(Topic::Refusals);
    }
    topic_at(word)
}

// Parses the topic of `help refused NUMBER`.
fn refusal_topic(word: &[u8], number: &[u8]) -> Result<Topic, ScriptFault>
    ensures { Gives result (refusal_topic word.now number.now) }
{
    if !is_word(word, b"refused") {
        return Err(at_line(1, FaultKind::WrongNumberOfWords));
    }
    match reason_at(number) {
        Some(reason) => Ok(Topic::Refusal(reason)),
        None => Err(at_line(1, FaultKind::BadNumber)),
    }
}

// Returns the reason with this number of a refusal.
fn reason_at(number: &[u8]) -> Option<Reason>
    ensures { result ≡ reason_at number.now }
{
    let reasons = reasons();
    match first_numbered(number, &reasons) {
        Some(reason) => Some(*reason),
        None => None,
    }
}

// Returns the first reason with this number.
fn first_numbered<'a>(number: &[u8], reasons: &'a [Reason]) -> Option<&'a Reason>
    ensures { option_copied result ≡ first_numbered number.now reasons.now }
{
    reasons.iter().find(|reason| is_word(reason_number(**reason).as_bytes(), number))
}

// Returns the command that begins with this word.
fn topic_at(word: &[u8]) -> Result<Topic, ScriptFault>
    ensures { Gives result (topic_at word.now) }
{
    let commands = commands();
    match first_begun(word, &commands) {
        Some(command) => Ok(*command),
        None => Err(at_line(1, FaultKind::UnknownCommand)),
    }
}

// Returns the first of some commands that a word begins.
fn first_begun<'a>(word: &[u8], commands: &'a [Topic]) -> Option<&'a Topic>
    ensures { option_copied result ≡ first_begun word.now commands.now }
{
    commands
        .iter()
        .find(|command| is_word(topic_word(**command).as_bytes(), word))
}
