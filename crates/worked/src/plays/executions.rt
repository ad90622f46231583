//! The executions of a command so far.
use crate::plays::faults::PlayFault;
use crate::plays::{Answer, append_bytes};
use camp_repo::Fault;
use camp_script::answer_text;

/// How often a command was executed so far, and its last answer.
#[derive(Drop)]
pub(crate) struct Executions {
    count: u32,
    last: Option<Answer>,
}

impl Executions {
    /// Makes the record of a command that was not executed yet.
    pub(crate) fn nothing() -> Executions {
        Executions {
            count: 0,
            last: None,
        }
    }

    pub(crate) fn count(&self) -> u32 {
        self.count
    }

    /// Counts one more execution.
    pub(crate) fn note(&mut self, answer: Answer) {
        self.count = self.count.saturating_add(1);
        self.last = Some(answer);
    }

    /// Appends the last answer, if there is one.
    pub(crate) fn append_last(&self, text: &mut Vec<u8>) -> Result<(), PlayFault> {
        match &self.last {
            Some(answer) => append_answer(answer, text),
            None => Ok(()),
        }
    }
}

/// Appends the text of an answer; out of memory has none.
fn append_answer(answer: &Answer, text: &mut Vec<u8>) -> Result<(), PlayFault> {
    if let Err(Fault::Memory) = answer {
        return Err(PlayFault::Memory);
    }
    append_bytes(answer_text(*text.allocator(), answer), text)
}
