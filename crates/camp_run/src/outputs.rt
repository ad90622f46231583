//! The output of a run: all of it is made before anything is written.
ghost use Rattle.std.specs.Prelude.{◌≡◌, IfOk, MatchResult};
ghost use Rattle.std.specs.Io.KnownBytes.{Appends};
ghost use Rattle.camp_clients.specs.Runs.{lists_of};
ghost use Rattle.camp_script.specs.Outputs.{HaveTexts, output_text};
ghost use Rattle.camp_script.specs.Writing.{AppendsProperPrefix};
ghost use Rattle.camp_run.specs.Outputs.{if_wanted};
ghost use Rattle.camp_run.specs.declared.faults.RunFault.TheVariants as fault;

use crate::RunFault;
use camp_clients::Answers;
use camp_repo::{Call, State};
use camp_script::{output_text, write_text};
use std::alloc::{AllocError, Global};
use std::io::Write;

/// Renders the answers to sections and, if it is wanted, the history.
pub(crate) fn text_of(
    alloc: Global,
    answers: &[Answers<State>],
    history: &[(u32, Call)],
    wants_history: bool,
) -> Result<Vec<u8>, AllocError>
    requires { HaveTexts (lists_of answers.now) }
    ensures { IfOk result (λ text.
        text.items ≡ output_text (lists_of answers.now) (if_wanted wants_history history.now)) }
{
    let history = if wants_history { Some(history) } else { None };
    output_text(alloc, answers, history)
}

/// Writes a text. The only error is that of the writer.
pub(crate) fn write_output<W: Write>(writer: &mut W, text: &[u8]) -> Result<(), RunFault>
    ensures { MatchResult result
        (λ _. Appends (W.contents writer.old) (W.contents writer.new) text.now)
        (λ why. (why ≡ fault.Write) × AppendsProperPrefix (W.contents writer.old) (W.contents writer.new) text.now) }
{
    match write_text(writer, text) {
        Ok(()) => Ok(()),
        Err(_) => Err(RunFault::Write),
    }
}
