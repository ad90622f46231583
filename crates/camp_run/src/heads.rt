//! Runs in threads over a head.
ghost use Rattle.std.specs.Prelude.{◌<◌, ◌≤◌, IfOk, IfErr};
ghost use Rattle.camp_clients.specs.Runs.{IsShared};
ghost use Rattle.camp_clients.specs.Sections.{most_run_tries};
ghost use Rattle.camp_repo.specs.Objects.{repository_within};
ghost use Rattle.camp_run.specs.Outputs.{IsOutput};
ghost use Rattle.camp_run.specs.Runs.{IsNotForeign, Runs};

use crate::RunFault;
use crate::inputs::read_input;
use crate::outputs::{text_of, write_output};
use camp_clients::{HeadPlan, SectionGate, shared_from};
use camp_head::{Gate, NoGate};
use camp_repo::{Limits, State, first_state};
use camp_script::Script;
use std::alloc::{AllocError, Global};
use std::io::{Read, Write};
use std::sync::Wait;
use std::thread::Threads;

/// The distance, in calls, between the snapshots that the head keeps.
const EVERY: u32 = 64;

/// Reads a whole script and executes its sections over a head of a new repository with these limits, section k at seat
/// k: the opening first, and then each client in a thread of its own. A call gives up after `tries` lost exchanges, 1
/// to 1,000. The gate is notified of each call, by its index in its section, and of each exchange. Writes the answers
/// and, if it is wanted, the history, after the last thread was joined.
pub fn run_head<T: Threads + Wait + Sync, R: Read, W: Write, G: Gate + Sync>(
    rt: &T,
    alloc: Global,
    limits: Limits,
    reader: &mut R,
    writer: &mut W,
    history: bool,
    tries: u32,
    gate: &G,
) -> Result<(), RunFault>
    requires { (0 < tries) × (tries ≤ most_run_tries) }
    ensures runs { Runs (IsShared (repository_within limits) tries) history
        (R.remaining reader.old) (R.remaining reader.new) (W.contents writer.old) result (W.contents writer.new) }
    ensures not_foreign { IfErr result IsNotForeign }
{
    run_head_at(
        rt, alloc, limits, reader, writer, history, tries, gate, &NoGate,
    )
}

/// Runs a script as `run_head` does, and notifies the section gate of each section; `TurnGate` is both gates.
pub fn run_head_at<
    T: Threads + Wait + Sync,
    R: Read,
    W: Write,
    G: Gate + Sync,
    S: SectionGate + Sync,
>(
    rt: &T,
    alloc: Global,
    limits: Limits,
    reader: &mut R,
    writer: &mut W,
    history: bool,
    tries: u32,
    gate: &G,
    section_gate: &S,
) -> Result<(), RunFault>
    requires { (0 < tries) × (tries ≤ most_run_tries) }
    ensures runs { Runs (IsShared (repository_within limits) tries) history
        (R.remaining reader.old) (R.remaining reader.new) (W.contents writer.old) result (W.contents writer.new) }
    ensures not_foreign { IfErr result IsNotForeign }
{
    let script = read_input(alloc, reader)?;
    let text = head_text(
        rt,
        alloc,
        limits,
        &script,
        history,
        tries,
        gate,
        section_gate,
    )?;
    write_output(writer, &text)
}

fn head_text<T: Threads + Wait + Sync, G: Gate + Sync, S: SectionGate + Sync>(
    rt: &T,
    alloc: Global,
    limits: Limits,
    script: &Script,
    history: bool,
    tries: u32,
    gate: &G,
    section_gate: &S,
) -> Result<Vec<u8>, AllocError>
    requires { (0 < tries) × (tries ≤ most_run_tries) }
    ensures { IfOk result (λ text. IsOutput (IsShared (repository_within limits) tries) history script.now text.items) }
{
    let plan = HeadPlan {
        rt,
        sections: script.sections(),
        tries,
        every: EVERY,
        gate,
        section_gate,
    };
    let first = first_state(alloc, limits)?;
    let run = shared_from::<T, State, G, S>(alloc, first, &plan)?;
    if !history {
        return text_of(alloc, &run.answers, &[], false);
    }
    text_of(alloc, &run.answers, &run.history()?, true)
}
