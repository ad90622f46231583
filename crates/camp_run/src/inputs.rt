//! The input of a run: all of it is read before anything is executed.
ghost use Rattle.std.specs.IoError.{error_kind};
ghost use Rattle.std.specs.Prelude.{◌≡◌, ◌⊎◌, Ok, IfOk, IfErr};
ghost use Rattle.camp_run.specs.Faults.{ReportsUnread};
ghost use Rattle.camp_run.specs.Inputs.{ReadsAll, ReadsAs};
ghost use Rattle.camp_run.specs.Runs.{HasNoOutput, IsNotForeign};
ghost use Rattle.camp_run.specs.declared.faults.RunFault.TheVariants as fault;

use crate::RunFault;
use camp_script::{Script, ScriptFault, read_script};
use std::alloc::Global;
use std::io::{Error, ErrorKind, Read};

/// Reads a script from a reader, to its end.
pub(crate) fn read_input<R: Read>(alloc: Global, reader: &mut R) -> Result<Script, RunFault>
    ensures script { IfOk result (λ script. ReadsAs (R.remaining reader.old) (R.remaining reader.new) (Ok script)) }
    ensures fault { IfErr result (HasNoOutput (R.remaining reader.old) (R.remaining reader.new)) }
    ensures not_foreign { IfErr result IsNotForeign }
{
    let bytes = read_all(alloc, reader)?;
    match read_script(alloc, &bytes) {
        Ok(script) => Ok(script),
        Err(ScriptFault::Line(fault)) => Err(RunFault::Script(fault)),
        Err(ScriptFault::Memory) => Err(RunFault::Memory),
    }
}

fn read_all<R: Read>(alloc: Global, reader: &mut R) -> Result<Vec<u8>, RunFault>
    ensures bytes { IfOk result (λ bytes. ReadsAll (R.remaining reader.old) (R.remaining reader.new) bytes.items) }
    ensures fault { IfErr result (λ error. (error ≡ fault.Memory) ⊎ (error ≡ fault.Read)) }
{
    let mut bytes = Vec::new(alloc);
    match reader.read_to_end(&mut bytes) {
        Ok(_) => Ok(bytes),
        Err(error) => Err(reading_fault(&error)),
    }
}

// Returns the fault that reports an error of the reader: `Memory` exactly if it says that memory ran out.
fn reading_fault(error: &Error) -> RunFault
    ensures exact { ReportsUnread (error_kind error.now) result }
{
    if error.kind() == ErrorKind::OutOfMemory {
        RunFault::Memory
    } else {
        RunFault::Read
    }
}
