//! Runs in threads over a lock.
ghost use Rattle.std.specs.Prelude.{IfOk};
ghost use Rattle.camp_clients.specs.Runs.{IsLocked};
ghost use Rattle.camp_repo.specs.Objects.{repository_within};
ghost use Rattle.camp_run.specs.Outputs.{IsOutput};
ghost use Rattle.camp_run.specs.Runs.{Runs};

use crate::RunFault;
use crate::inputs::read_input;
use crate::outputs::{text_of, write_output};
use camp_clients::{LockFault, locked_from};
use camp_repo::{Limits, State, first_state};
use camp_script::Script;
use std::alloc::Global;
use std::io::{Read, Write};
use std::sync::Wait;
use std::thread::Threads;

/// Reads a whole script and executes its sections on a new repository with these limits, under a lock, section k at
/// seat k: the opening first, and then each client in a thread of its own. Writes the answers and, if it is wanted, the
/// history, after the last thread was joined.
pub fn run_locked<T: Threads + Wait + Sync, R: Read, W: Write>(
    rt: &T,
    alloc: Global,
    limits: Limits,
    reader: &mut R,
    writer: &mut W,
    history: bool,
) -> Result<(), RunFault>
    ensures runs { Runs (IsLocked (repository_within limits)) history
        (R.remaining reader.old) (R.remaining reader.new) (W.contents writer.old) result (W.contents writer.new) }
{
    let script = read_input(alloc, reader)?;
    let text = match locked_text(rt, alloc, limits, &script, history) {
        Ok(text) => text,
        Err(LockFault::Foreign) => return Err(RunFault::Foreign),
        Err(LockFault::Memory) => return Err(RunFault::Memory),
    };
    write_output(writer, &text)
}

fn locked_text<T: Threads + Wait + Sync>(
    rt: &T,
    alloc: Global,
    limits: Limits,
    script: &Script,
    history: bool,
) -> Result<Vec<u8>, LockFault>
    ensures { IfOk result (λ text. IsOutput (IsLocked (repository_within limits)) history script.now text.items) }
{
    let first = first_state(alloc, limits)?;
    let same = first_state(alloc, limits)?;
    let run = locked_from::<T, State>(rt, alloc, first, &same, script.sections())?;
    Ok(text_of(alloc, &run.answers, run.book.history(), history)?)
}
