//! Commands whose lines arrive one by one.
ghost use Rattle.std.specs.Prelude.{◌≡◌, ◌∷◌, ◌++◌, [], List, ℕ, IfOk, true};
ghost use Rattle.camp_script.specs.CommandLines.{HasRead, wants};
ghost use Rattle.camp_script.specs.Gives.{Gives};
ghost use Rattle.camp_script.specs.Reading.{script_of_lines};

use crate::faults::ScriptFault;
use crate::grouping::Expected;
use crate::readings::Reading;
use crate::scripts::Script;
use std::alloc::{AllocError, Global};

/// A command while its lines arrive: its first line, and those of its body or group. After a fault the others
/// are skipped up to `end` or `done`.
#[derive(Drop)]
pub struct CommandLines {
    reading: Reading,
    number: u64,
    fault: Option<ScriptFault>,
    wanted: Expected,
}

impl CommandLines {
    /// Starts the command that begins with a line.
    pub fn new(alloc: Global, line: &[u8]) -> Result<CommandLines, AllocError>
        ensures first { IfOk result (λ command. HasRead command line.now []) }
    {
        let mut reading = Reading::new(alloc);
        let (fault, wanted) = match reading.read_line(1, line) {
            Ok(()) => (None, reading.wanted()),
            Err(ScriptFault::Line(fault)) => (Some(ScriptFault::Line(fault)), Expected::Nothing),
            Err(ScriptFault::Memory) => return Err(AllocError),
        };
        Ok(CommandLines {
            reading,
            number: 1,
            fault,
            wanted,
        })
    }

    /// True if the next line belongs to the command.
    pub fn wants_more(&self) -> bool
        ensures exact { result ≡ wants self.now.wanted }
    {
        !matches!(self.wanted, Expected::Nothing)
    }

    /// Reads the next line of the command. If memory runs out, or the line number is out of range, the command's fault
    /// is out of memory.
    pub fn read_line(&mut self, line: &[u8])
        requires { wants self.old.wanted ≡ true }
        ensures next { (first : List ℕ) (rest : List (List ℕ)) → HasRead self.old first rest → HasRead self.new first (rest ++ line.now ∷ []) }
    {
        self.wanted = self.wanted.after(line);
        if self.fault.is_some() {
            return;
        }
        let Some(number) = self.number.checked_add(1) else {
            self.fault = Some(ScriptFault::Memory);
            return;
        };
        self.number = number;
        if let Err(fault) = self.reading.read_line(number, line) {
            self.fault = Some(fault);
        }
    }

    /// Returns the script that the lines of the command represent.
    pub fn finish(self) -> Result<Script, ScriptFault>
        ensures given { (first : List ℕ) (rest : List (List ℕ)) → HasRead self first rest → Gives result (script_of_lines (first ∷ rest)) }
    {
        let CommandLines { reading, fault, .. } = self;
        match fault {
            Some(fault) => Err(fault),
            None => reading.finish(),
        }
    }
}
