//! Runs in one thread.
ghost use Rattle.std.specs.Prelude.{IfOk, IfErr};
ghost use Rattle.camp_run.specs.Outputs.{IsOutput};
ghost use Rattle.camp_run.specs.Runs.{IsNotForeign, Runs};
ghost use Rattle.camp_run.specs.Serial.{IsSerial};

use crate::RunFault;
use crate::inputs::read_input;
use crate::outputs::{text_of, write_output};
use camp_clients::serial_from;
use camp_repo::{Limits, State, first_state};
use camp_script::Script;
use std::alloc::{AllocError, Global};
use std::io::{Read, Write};

/// Reads a whole script and executes its sections one after the other on a new repository with these limits, section k
/// at seat k. Then writes the answers and, if it is wanted, the history. The input is read to its end before the first
/// call, and the last call is answered before anything is written.
pub fn run_book<R: Read, W: Write>(
    alloc: Global,
    limits: Limits,
    reader: &mut R,
    writer: &mut W,
    history: bool,
) -> Result<(), RunFault>
    ensures runs { Runs (IsSerial limits) history
        (R.remaining reader.old) (R.remaining reader.new) (W.contents writer.old) result (W.contents writer.new) }
    ensures not_foreign { IfErr result IsNotForeign }
{
    let script = read_input(alloc, reader)?;
    let text = book_text(alloc, limits, &script, history)?;
    write_output(writer, &text)
}

fn book_text(
    alloc: Global,
    limits: Limits,
    script: &Script,
    history: bool,
) -> Result<Vec<u8>, AllocError>
    ensures { IfOk result (λ text. IsOutput (IsSerial limits) history script.now text.items) }
{
    let first = first_state(alloc, limits)?;
    let run = serial_from::<State>(alloc, first, script.sections())?;
    text_of(alloc, &run.answers, run.book.history(), history)
}
