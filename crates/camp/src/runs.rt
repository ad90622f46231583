//! Running a script as the options say.
ghost use Rattle.std.specs.Prelude.{◌≡◌, ◌≤◌, false, true};
ghost use Rattle.camp_clients.specs.Runs.{IsShared};
ghost use Rattle.camp_clients.specs.Sections.{most_run_tries};
ghost use Rattle.camp_repo.specs.Objects.{repository_within};
ghost use Rattle.camp_run.specs.Runs.{Runs};
ghost use Rattle.camp_run.specs.Serial.{IsSerial};

use camp_options::Options;
use camp_repo::Limits;
use camp_run::{RunFault, TurnGate, run_book, run_head_at};
use std::alloc::Global;
use std::io::{Read, Write};
use std::sync::Wait;
use std::thread::Threads;

/// Runs the script of a reader on a repository with these limits, in the way that the options say.
pub(crate) fn run<T: Threads + Wait + Sync, R: Read, W: Write>(
    rt: &T,
    alloc: Global,
    limits: Limits,
    options: &Options<'_>,
    reader: &mut R,
    writer: &mut W,
) -> Result<(), RunFault>
    requires { (1 ≤ options.now.tries) × (options.now.tries ≤ most_run_tries) }
    ensures serial { options.now.serial ≡ true → Runs (IsSerial limits) options.now.history
        (R.remaining reader.old) (R.remaining reader.new) (W.contents writer.old) result (W.contents writer.new) }
    ensures shared { options.now.serial ≡ false → Runs (IsShared (repository_within limits) options.now.tries) options.now.history
        (R.remaining reader.old) (R.remaining reader.new) (W.contents writer.old) result (W.contents writer.new) }
{
    if options.serial {
        run_book(alloc, limits, reader, writer, options.history)
    } else {
        let gate = TurnGate::new(rt);
        run_head_at(
            rt,
            alloc,
            limits,
            reader,
            writer,
            options.history,
            options.tries,
            &gate,
            &gate,
        )
    }
}
