//! Callers of `camp_run`.
ghost use Rattle.std.specs.Prelude.{IfOk, IfErr};
ghost use Rattle.camp_uses.specs.Runs.{IsOutputOf, IsRunFaultOf};

use camp_run::{Limits, RunFault, run_book};
use std::alloc::Global;

/// Runs a script in memory.
pub fn run(alloc: Global, script: &[u8], history: bool) -> Result<Vec<u8>, RunFault>
    ensures output { IfOk result (λ text. IsOutputOf script.now history text.items) }
    ensures fault { IfErr result (IsRunFaultOf script.now) }
{
    let mut reader = script;
    let mut written = Vec::new(alloc);
    run_book(alloc, Limits::default(), &mut reader, &mut written, history)?;
    Ok(written)
}
