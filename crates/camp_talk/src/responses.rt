//! The response to a command.
ghost use Rattle.std.specs.Prelude.{◌≡◌, ◌+◌, IfOk};
ghost use Rattle.camp_talk.specs.FaultTexts.{fault_text};
ghost use Rattle.camp_talk.specs.Inside.Responses.{written};

use crate::answer_parts::joined;
use camp_repo::Refusal;
use camp_script::{FaultKind, LineFault};
use itoa::Buffer;
use std::alloc::{AllocError, Global};

/// Why a command was not done.
#[derive(Clone, Copy, Debug)]
pub enum Failure {
    /// The command has a fault, in this line of it.
    Fault(LineFault),
    /// It was refused.
    Refused(Refusal),
}

/// The response to a command.
#[derive(Drop)]
pub enum Response {
    /// The command was done, or asks nothing. Contains its answer.
    Done(Vec<u8>),
    /// The command was not done, for this reason, and nothing has changed. Contains its answer.
    Failed { why: Failure, answer: Vec<u8> },
    /// Memory ran out, and nothing has changed.
    OutOfMemory,
}

impl Response {
    /// Returns the bytes that are written for it.
    pub(crate) fn bytes(&self) -> &[u8]
        ensures { result.now ≡ written self.now }
    {
        match self {
            Response::Done(answer) => answer,
            Response::Failed { answer, .. } => answer,
            Response::OutOfMemory => b"memory\n",
        }
    }
}

/// Renders a fault, given the number of the lines before its command.
pub(crate) fn fault_text(
    alloc: Global,
    before: u64,
    line: u64,
    kind: FaultKind,
) -> Result<Vec<u8>, AllocError>
    ensures { IfOk result (λ text. text.items ≡ fault_text (before + line) kind) }
{
    let mut number = Buffer::new();
    let line = number.format(u128::from(before) + u128::from(line));
    let (line, kind) = (line.as_bytes(), kind.words().as_bytes());
    joined(alloc, &[b"fault ", line, b" ", kind, b"\n"])
}
