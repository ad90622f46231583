//! The state that a conversation keeps for `why`.
ghost use Rattle.std.specs.Prelude.{◌≡◌, Bool, IfOk, OnErr, OnOk, take};
ghost use Rattle.camp_script.specs.Lines.{lines_of};
ghost use Rattle.camp_talk.specs.Diagnostics.{closed, explained_request, fault_diagnostic, fault_found, line_at, no_diagnostic, refused_diagnostic, refused_found};

use crate::parsing::first_line;
use crate::questions::ParsedCommand;
use crate::recovery::{Recovery, cut_off, is_consequence};
use bstr::ByteSlice;
use camp_repo::{Refusal, State};
use camp_script::{LineFault, without_end};
use camp_why::{Cause, Hint, explain, find_hint};
use std::alloc::{AllocError, Global};
use std::marker::Model;

/// Why a command was not done.
#[derive(Drop)]
pub(crate) enum FailureCause {
    /// The command has a fault. Contains the number of lines before it, the fault, and the hint on the line.
    Fault {
        before: u64,
        fault: LineFault,
        hint: Hint,
    },
    /// The request was refused at a state. There is a cause only if the refusal does not say it all.
    Refused {
        refusal: Refusal,
        request: ParsedCommand,
        state: State,
        cause: Option<Cause>,
    },
}

/// A command that was not done.
#[derive(Drop)]
pub(crate) struct FailedCommand {
    /// The line with the fault, or the first line of a refused request.
    line: Vec<u8>,
    cause: FailureCause,
}

impl Model for FailedCommand {
    ghost use Rattle.std.specs.Coded.{codes};
    ghost use Rattle.camp_ctx.specs.declared.sets.CtxSet.{the_code as code_of_sets};
    ghost use Rattle.camp_talk.specs.Diagnostics.{FailedCommand};

    ghost Value = { FailedCommand };

    ghost coded = { Prim.hlevel (codes, code_of_sets) };

    ghost view = { λ failed. record { line = failed.line.items; cause = failed.cause } };
}

impl FailedCommand {
    pub(crate) fn line(&self) -> &[u8]
        ensures { result.now ≡ self.now.line }
    {
        &self.line
    }

    pub(crate) fn cause(&self) -> &FailureCause
        ensures { result.now ≡ self.now.cause }
    {
        &self.cause
    }
}

/// The diagnostic of the last fault or refusal.
#[derive(Drop)]
pub struct Diagnostic {
    /// The last command that was not done; none if each was done.
    failed: Option<FailedCommand>,
    /// The lines of that command that may still come, if a fault in its first line cut them off.
    recovery: Recovery,
}

impl Model for Diagnostic {
    ghost use Rattle.std.specs.Coded.{codes};
    ghost use Rattle.camp_ctx.specs.declared.sets.CtxSet.{the_code as code_of_sets};
    ghost use Rattle.camp_talk.specs.Diagnostics.{Diagnostic};

    ghost Value = { Diagnostic };

    ghost coded = { Prim.hlevel (codes, code_of_sets) };

    ghost view = { λ diagnostic. record { failed = diagnostic.failed; recovery = diagnostic.recovery } };
}

impl Diagnostic {
    /// Starts without a diagnostic.
    pub fn new() -> Diagnostic
        ensures exact { result ≡ no_diagnostic }
    {
        Diagnostic {
            failed: None,
            recovery: Recovery::Nothing,
        }
    }

    pub(crate) fn failed(&self) -> &Option<FailedCommand>
        ensures { result.now ≡ self.now.failed }
    {
        &self.failed
    }

    /// Becomes the diagnostic of a command with a fault. If the fault is the consequence of an earlier one, the earlier
    /// one stays. If memory runs out nothing changes.
    pub(crate) fn set_fault(
        &mut self,
        alloc: Global,
        before: u64,
        fault: LineFault,
        command: &[u8],
    ) -> Result<(), AllocError>
        ensures becomes { OnOk result (self.new ≡ fault_diagnostic self.old before fault (lines_of command.now)) }
        ensures same { OnErr result (self.new ≡ self.old) }
    {
        let first = first_line(command);
        if is_consequence(self.recovery, fault.kind, first) {
            self.recovery = self.recovery.after(first);
            return Ok(());
        }
        let found = fault_found(alloc, before, fault, line_at(command, fault.line))?;
        self.failed = Some(found);
        self.recovery = cut_off(fault.line, fault.kind, first);
        Ok(())
    }

    /// Becomes the diagnostic of a request that a state refused, given its first line. If memory runs out nothing
    /// changes.
    pub(crate) fn set_refused(
        &mut self,
        alloc: Global,
        state: &State,
        line: &[u8],
        request: ParsedCommand,
        refusal: &Refusal,
    ) -> Result<(), AllocError>
        ensures becomes { OnOk result (self.new ≡ refused_diagnostic state.now line.now request refusal.now) }
        ensures same { OnErr result (self.new ≡ self.old) }
    {
        let found = refused_found(alloc, state, line, request, refusal)?;
        self.failed = Some(found);
        self.recovery = Recovery::Nothing;
        Ok(())
    }

    /// Ends recovery: no further lines of its command may come.
    pub(crate) fn close(&mut self)
        ensures { self.new ≡ closed self.old }
    {
        self.recovery = Recovery::Nothing;
    }
}

// Returns the record of a command with a fault, given the faulty line.
fn fault_found(
    alloc: Global,
    before: u64,
    fault: LineFault,
    line: &[u8],
) -> Result<FailedCommand, AllocError>
    ensures { IfOk result (λ failed. failed ≡ fault_found before fault line.now) }
{
    let hint = find_hint(fault.kind, line);
    let line = Vec::from_slice(alloc, line)?;
    Ok(FailedCommand {
        line,
        cause: FailureCause::Fault {
            before,
            fault,
            hint,
        },
    })
}

// Returns the record of a request that a state refused, given its first line.
fn refused_found(
    alloc: Global,
    state: &State,
    line: &[u8],
    request: ParsedCommand,
    refusal: &Refusal,
) -> Result<FailedCommand, AllocError>
    ensures { IfOk result (λ failed. failed ≡ refused_found state.now line.now request refusal.now) }
{
    let (line, state, cause) = refused_parts(alloc, state, line, &request, refusal)?;
    Ok(FailedCommand {
        line,
        cause: FailureCause::Refused {
            refusal: *refusal,
            request,
            state,
            cause,
        },
    })
}

// Returns copies of a line and of a state, and why the state refuses a request.
fn refused_parts(
    alloc: Global,
    state: &State,
    line: &[u8],
    request: &ParsedCommand,
    refusal: &Refusal,
) -> Result<(Vec<u8>, State, Option<Cause>), AllocError>
    ensures { IfOk result (λ parts. (parts.0.items ≡ line.now) × (parts.1 ≡ state.now)
        × (parts.2 ≡ explained_request state.now request.now refusal.now)) }
{
    let cause = explain_request(state, request, refusal)?;
    let state = state.try_clone()?;
    let line = Vec::from_slice(alloc, line)?;
    Ok((line, state, cause))
}

// Returns why a request is refused; none if the refusal says it all.
fn explain_request(
    state: &State,
    request: &ParsedCommand,
    refusal: &Refusal,
) -> Result<Option<Cause>, AllocError>
    ensures { IfOk result (λ found. found ≡ explained_request state.now request.now refusal.now) }
{
    match request {
        ParsedCommand::Call(call) => explain(state, call, refusal),
        _ => Ok(None),
    }
}

// Returns the line with this number, counted from 1; an empty one if there is none.
fn line_at(command: &[u8], number: u64) -> &[u8]
    ensures { result.now ≡ line_at number (lines_of command.now) }
{
    let before = number.saturating_sub(1) as usize;
    match command.lines_with_terminator().nth(before) {
        Some(line) => without_end(line),
        None => &[],
    }
}
