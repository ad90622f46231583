//! The answer of `why`: the report on the last command that was not done.
ghost use Rattle.std.specs.Prelude.{◌≡◌, IfOk, Some, take};
ghost use Rattle.camp_talk.specs.Reports.{IsReport, RendersWhy, answer_in, most_shown, quoted_line};

use crate::Diagnostic;
use crate::answer_parts::{counted, joined, refusal_text};
use crate::diagnostics::{FailedCommand, FailureCause};
use crate::fault_reports::append_fault;
use crate::plain_texts::PlainText;
use crate::refusal_reports::append_refusal;
use crate::responses::fault_text;
use crate::visible::visible;
use std::alloc::{AllocError, Global};

/// The most bytes of a line that are shown.
const SHOWN: usize = 200;

/// Renders the report on a diagnostic.
pub(crate) fn render_why(alloc: Global, diagnostic: &Diagnostic) -> Result<Vec<u8>, AllocError>
    ensures { IfOk result (λ text. RendersWhy diagnostic.now text.items) }
{
    let lines = report(alloc, diagnostic.failed())?;
    counted(alloc, "why", &lines)
}

fn report(alloc: Global, failed: &Option<FailedCommand>) -> Result<Vec<u8>, AllocError>
    ensures { IfOk result (λ text. IsReport failed.now text.items) }
{
    match failed {
        Some(failed) => failed_report(alloc, failed),
        None => {
            let mut text = PlainText::new(alloc);
            text.push(&[b"No command had a fault or was refused so far.\n"])?;
            Vec::from_slice(alloc, text.bytes())
        }
    }
}

// Renders the answer to a command that was not done, its line after `>`, and why.
#[tactic(auto, using(crate::proofs::VisibleLemmas::reported))]
fn failed_report(alloc: Global, failed: &FailedCommand) -> Result<Vec<u8>, AllocError>
    ensures { IfOk result (λ text. IsReport (Some failed.now) text.items) }
{
    let answer = answer_in(alloc, failed.cause())?;
    let line = quoted_line(alloc, failed.line())?;
    let reasons = reasons(alloc, failed)?;
    joined(
        alloc,
        &[answer.as_slice(), line.as_slice(), reasons.bytes()],
    )
}

// Renders the answer to a command that was not done.
fn answer_in(alloc: Global, cause: &FailureCause) -> Result<Vec<u8>, AllocError>
    ensures { IfOk result (λ text. text.items ≡ answer_in cause.now) }
{
    match cause {
        FailureCause::Fault { before, fault, .. } => {
            fault_text(alloc, *before, fault.line, fault.kind)
        }
        FailureCause::Refused { refusal, .. } => refusal_text(alloc, refusal),
    }
}

// Renders a line after `>`, as much of it as is shown, by visible bytes.
fn quoted_line(alloc: Global, line: &[u8]) -> Result<Vec<u8>, AllocError>
    ensures { IfOk result (λ text. text.items ≡ quoted_line line.now) }
{
    let start = visible(alloc, shown(line))?;
    joined(alloc, &[b">", start.as_slice(), b"\n"])
}

// Returns the start of a line, as much as is shown.
fn shown(line: &[u8]) -> &[u8]
    ensures { result.now ≡ take most_shown line.now }
{
    &line[..SHOWN.min(line.len())]
}

// Renders why a command was not done.
fn reasons(alloc: Global, failed: &FailedCommand) -> Result<PlainText, AllocError> {
    let mut text = PlainText::new(alloc);
    if failed.line().len() > SHOWN {
        text.push(&[b"Only its first 200 bytes are shown.\n"])?;
    }
    match failed.cause() {
        FailureCause::Fault { fault, hint, .. } => {
            append_fault(&mut text, *fault, *hint, failed.line())?;
        }
        FailureCause::Refused {
            refusal,
            request,
            state,
            cause,
        } => append_refusal(alloc, &mut text, state, request, refusal, cause)?,
    }
    Ok(text)
}
